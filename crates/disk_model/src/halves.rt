// A disk whose log half can be lent out, as a disk of its own.
ghost use Rattle.std.specs.Prelude.{◌≡◌, ◌+◌, ◌≤◌, List, ℕ, length, take, drop, max, IfOk, IfErr, OnOk, OnErr};
ghost use Rattle.disk_model.specs.Disk.{Holds, LeavesOnly};
ghost use Rattle.disk_model.specs.Error.{HasCause};
ghost use Rattle.disk_model.specs.Halves.{AreHalves, Beside, IsPast, IsUntouched, LeftBehind, LeftBelow, MayBeTorn, Rejoins};

use crate::{Disk, DiskError};

/// A disk that can lend out its log: the bytes from a border on. While they are lent, the disk is its home half, a disk of the
/// bytes below the border by all that `Disk` says, and the log is a disk of its own. Either may be called beside the other,
/// in any order. The time of each begins again at 0. What the whole was until then goes out as a value, `Past`, which no
/// call on a half touches.
pub trait HalvedDisk: Disk {
    /// The log half.
    type Log: Disk + Drop;

    /// What the whole was until its log was lent, and what is needed to put it together again.
    type Past: Drop;

    /// What a stop at some moment from that one on may have left of the whole, until its log was lent.
    ghost left_before: { Self.Past → ℕ → List ℕ → Type 0 };

    /// The moment at which it was lent.
    ghost until: { Self.Past → ℕ };

    /// Where the log begins.
    ghost cut_at: { Self.Past → ℕ };

    /// How many bytes the whole has.
    ghost whole: { Self.Past → ℕ };

    /// Lends out the bytes from the border on. 100 `Memory`: nothing changed.
    fn lend_log(&mut self, border: u64) -> Result<(Self::Log, Self::Past), DiskError>
        requires { border ≤ Self.size self.old }
        // So whoever holds the home half can't write into the log.
        ensures home { IfOk result (λ r. Self.size self.new ≡ border) }
        ensures log { IfOk result (λ r. border + Self.Log.size r.0 ≡ Self.size self.old) }
        ensures sizes { IfOk result (λ r. (Self.cut_at r.1 ≡ border) × (Self.whole r.1 ≡ Self.size self.old)) }
        ensures halves { Self.keeps_model → IfOk result (λ r. AreHalves border (Self.gives self.old) (Self.gives self.new) (Self.Log.gives r.0)
            (Self.may_leave_now self.old) (Self.may_leave_now self.new) (Self.Log.may_leave_now r.0)) }
        ensures begins { Self.keeps_model → IfOk result (λ r. (Self.moment self.new ≡ 0) × (Self.Log.moment r.0 ≡ 0)) }
        ensures past { Self.keeps_model → IfOk result (λ r. IsPast (Self.until r.1) (Self.moment self.old) (Self.left_before r.1) (Self.may_have_left_since self.old)) }
        // Each half goes on from the whole's count of failures.
        ensures failures { IfOk result (λ r. (Self.failures self.new ≡ Self.failures self.old) × (Self.Log.failures r.0 ≡ Self.failures self.old)) }
        ensures most { IfOk result (λ r. (Self.most_failures self.new ≤ Self.most_failures self.old) × (Self.Log.most_failures r.0 ≤ Self.most_failures self.old)) }
        // The calls that were served before are counted at one half.
        ensures calls { IfOk result (λ r. Self.calls_made self.new + Self.Log.calls_made r.0 ≤ Self.calls_made self.old) }
        ensures no_calls { OnErr result (Self.calls_made self.new ≤ Self.calls_made self.old) }
        ensures err { OnErr result ((Self.size self.new ≡ Self.size self.old) × (Self.failures self.new ≡ Self.failures self.old) × (Self.most_failures self.new ≤ Self.most_failures self.old)) }
        ensures unlent { Self.keeps_model → OnErr result (IsUntouched (Self.gives self.old) (Self.gives self.new) (Self.may_leave_now self.old) (Self.may_leave_now self.new)
            (Self.moment self.old) (Self.moment self.new) (Self.may_have_left_since self.old) (Self.may_have_left_since self.new)) }
        ensures told { IfErr result (λ e. e ≡ DiskError.Memory) };

    /// Puts the log back behind the home half. It takes no memory, and can't be refused.
    fn return_log(&mut self, log: Self::Log, past: Self::Past)
        requires home { Self.size self.old ≡ Self.cut_at past }
        requires log { Self.cut_at past + Self.Log.size log ≡ Self.whole past }
        ensures size { Self.size self.new ≡ Self.whole past }
        ensures halves { Self.keeps_model → AreHalves (Self.cut_at past) (Self.gives self.new) (Self.gives self.old) (Self.Log.gives log)
            (Self.may_leave_now self.new) (Self.may_leave_now self.old) (Self.Log.may_leave_now log) }
        ensures time { Self.keeps_model → Rejoins (Self.until past) (Self.moment self.new) (Self.left_before past) (Self.may_have_left_since self.new)
            (Self.cut_at past) (Self.may_have_left_since self.old 0) (Self.Log.may_have_left_since log 0) }
        // The greater count of the two: it grew where a call on either failed meanwhile.
        ensures failures { Self.failures self.new ≡ max (Self.failures self.old) (Self.Log.failures log) }
        ensures most { Self.most_failures self.new ≤ max (Self.most_failures self.old) (Self.Log.most_failures log) }
        ensures calls { Self.calls_made self.new ≤ Self.calls_made self.old + Self.Log.calls_made log };

    /// Where the disk keeps the disk model, so does its log.
    ghost log_keeps: { Self.keeps_model → Self.Log.keeps_model };
}

/// Writes below the border while the log is lent. The log is out of reach: it is as it was, for a read and at any stop.
pub fn write_beside_log<D: HalvedDisk>(
    disk: &mut D,
    border: u64,
    at: u64,
    bytes: &[u8],
) -> Result<(), DiskError>
    requires border { border ≤ D.size disk.old }
    requires range { at + length bytes.now ≤ border }
    ensures size { D.size disk.new ≡ D.size disk.old }
    ensures written { D.keeps_model → OnOk result (Holds (take border (D.gives disk.old)) at bytes.now (take border (D.gives disk.new))) }
    ensures log { D.keeps_model → drop border (D.gives disk.new) ≡ drop border (D.gives disk.old) }
    ensures any_moment { D.keeps_model → LeavesOnly D.moment D.may_have_left_since disk.old disk.new
        (Beside border (MayBeTorn at (length bytes.now) (LeftBelow border (D.may_leave_now disk.old))) (LeftBehind border (D.may_leave_now disk.old))) }
    ensures cause { HasCause DiskError.WriteFault (D.failures disk.old) (D.failures disk.new) result }
    ensures calls { D.calls_made disk.new ≤ D.calls_made disk.old + 1 }
{
    let (log, past) = disk.lend_log(border)?;
    let written = disk.write_at(at, bytes);
    disk.return_log(log, past);
    written
}
