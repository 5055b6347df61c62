// From batch to batch through a part of a disk.
ghost use Rattle.std.specs.Prelude.{◌≡◌, ◌+◌, ◌^◌, ◌<◌, ◌≤◌, length, max, IfOk, IfErr, IsErrOf};
ghost use Rattle.disk_model.specs.Part.{inside};
ghost use Rattle.gate_journal.specs.Batch.{AreBatches, HoldsBatches, IsDamaged, last_front};
ghost use Rattle.gate_journal.specs.Refusal.{HasCause, IsOfReading};
ghost use Rattle.gate_journal.specs.Runs.{OnlyReads};

use crate::batch::{Batch, MAX_BLOCKS, MAX_NUMBER};
use crate::reading::read_batch;
use crate::refusal::Refusal;
use disk_model::{Disk, Part};
use std::alloc::Global;

/// A place behind batches, and the last one's front.
#[derive(Clone, Copy)]
pub(crate) struct Place {
    pub(crate) end: u64,
    pub(crate) front: u64,
}

/// Reads all batches, and tells the place behind them.
pub(crate) fn read_batches<D: Disk>(
    alloc: Global,
    part: Part,
    blocks: u32,
    disk: &mut D,
    before: u64,
) -> Result<(Vec<Batch>, Place), Refusal>
    requires on_disk { part.start + part.len ≤ D.size disk.old }
    requires room { 1 ≤ part.len }
    requires volume { blocks ≤ MAX_BLOCKS }
    ensures are { IfOk result (λ r. AreBatches blocks before r.0.items) }
    ensures held { D.keeps_model → IfOk result (λ r. (held : HoldsBatches blocks before r.0.items (inside part (D.gives disk.old))) × (r.1.end ≡ length held.bytes)) }
    ensures front { IfOk result (λ r. r.1.front ≡ last_front before r.0.items) }
    ensures within { IfOk result (λ r. r.1.end + 1 ≤ part.len) }
    ensures fronts { IfOk result (λ r. (before ≤ r.1.front) × (r.1.front ≤ max before MAX_NUMBER)) }
    ensures damaged { D.keeps_model → IsErrOf result Refusal.Damaged → IsDamaged blocks before (inside part (D.gives disk.old)) }
    ensures reads { D.keeps_model → OnlyReads D.gives D.may_leave_now D.moment D.may_have_left_since disk.old disk.new }
    ensures size { D.size disk.new ≡ D.size disk.old }
    ensures told { IfErr result IsOfReading }
    ensures cause { HasCause (D.failures disk.old) (D.failures disk.new) result }
    ensures most { D.most_failures disk.new ≤ D.most_failures disk.old }
{
    let mut batches = Vec::new(alloc);
    let mut place = Place {
        end: 0,
        front: before,
    };
    while let Some((batch, end)) = read_batch(alloc, part, blocks, disk, place.end, place.front)? {
        place = Place {
            end,
            front: batch.front(),
        };
        batches.push(batch)?;
    }
    Ok((batches, place))
}
