// Writes that are on the disk when they are done.
ghost use Rattle.std.specs.Prelude.{◌≡◌, ◌+◌, ◌≤◌, length, OnOk, ◌<◌, ◌≢◌, IfErr};
ghost use Rattle.disk_model.specs.Disk.{Holds, LeavesOnly, Only};
ghost use Rattle.disk_model.specs.Part.{inside, LeftInside, TouchesOnly};
ghost use Rattle.gate_journal.specs.Runs.{WasTorn};

use disk_model::{Disk, DiskError, Part};

/// Writes over a part's bytes, from `at` on, and syncs.
pub(crate) fn write_durably<D: Disk>(
    part: Part,
    disk: &mut D,
    at: u64,
    bytes: &[u8],
) -> Result<(), DiskError>
    requires on_disk { part.start + part.len ≤ D.size disk.old }
    requires range { at + length bytes.now ≤ part.len }
    ensures size { D.size disk.new ≡ D.size disk.old }
    ensures gives { D.keeps_model → OnOk result (Holds (inside part (D.gives disk.old)) at bytes.now (inside part (D.gives disk.new))) }
    ensures whole { D.keeps_model → OnOk result (Only (D.gives disk.new) (D.may_leave_now disk.new)) }
    ensures durable { D.keeps_model → OnOk result (Only (inside part (D.gives disk.new)) (LeftInside part (D.may_leave_now disk.new))) }
    ensures any_moment { D.keeps_model → LeavesOnly D.moment D.may_have_left_since disk.old disk.new
        (WasTorn part at (length bytes.now) (D.may_leave_now disk.old)) }
    ensures frame { D.keeps_model → TouchesOnly D.gives D.may_leave_now D.moment D.may_have_left_since part disk.old disk.new }
    ensures later { D.failures disk.old ≤ D.failures disk.new }
    ensures done { OnOk result (D.failures disk.new ≡ D.failures disk.old) }
    ensures told { IfErr result (λ e. e ≢ DiskError.ReadFault) }
    ensures cause { IfErr result (λ e. e ≢ DiskError.Memory → D.failures disk.old < D.failures disk.new) }
    ensures most { D.most_failures disk.new ≤ D.most_failures disk.old }
    ensures calls { D.calls_made disk.new ≤ D.calls_made disk.old + 2 }
{
    part.write_at(disk, at, bytes)?;
    part.sync(disk)
}
