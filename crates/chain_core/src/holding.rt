//! A front that is held for a joiner.
ghost use Rattle.std.specs.Prelude.{◌≡◌, ◌⊎◌, ◌-◌, ◌<◌, ◌≤◌, List, ℕ, None, length, IfErr, IfOk, OnOk};
ghost use Rattle.disk_model.specs.Disk.{LeavesOnly};
ghost use Rattle.local_store.specs.About.{meaning_with};
ghost use Rattle.local_store.specs.Meaning.{Means};
ghost use Rattle.volume.specs.Writes.{Fits, patched};
ghost use Rattle.chain_steps.specs.Node.{durable_of, last_of};
ghost use Rattle.chain_steps.specs.Steps.{held_block, hold, stop, volume_at};
ghost use Rattle.chain_core.specs.Node.{IsStepOrStop, size_of};
ghost use Rattle.chain_core.specs.Reads.{HasBrokenOff, HasOnlyRead, IsStepTo};

use crate::node::Node;
use crate::out::Out;
use crate::reading::read_block_at;
use bytes::Bytes;
use chain_steps::Cause;
use local_store::StoreLike;
use volume::{BLOCK_SIZE, Write};

impl<S: StoreLike + Drop> Node<S> {
    /// The tail takes the front that it looked up as its known commit, and holds it for a joiner: it doesn't raise before it is
    /// told the next record. Its plain writes up to the front are answered, and its predecessor is told. Where no such front is
    /// kept, nothing changes. Where memory runs out, the member stops.
    pub fn hold(&mut self) -> Out
        ensures step { IsStepOrStop self.old self.new result (hold self.old.state) }
    {
        let Some(front) = self.looked_front() else {
            return self.nothing();
        };
        if front > self.table.applied() {
            return self.stop_by(Cause::Disorder);
        }
        let known = self.known.max(front);
        match self.try_know(front, known) {
            Ok(out) => {
                self.holds = true;
                out
            }
            Err(_) => self.stop_by(Cause::Memory),
        }
    }

    /// A block of the volume at the member's known commit, which is the front that it holds while it holds one. The member hasn't
    /// stopped. Where memory runs out or the device refuses the read, the member stops: `Err` has what it put out.
    pub fn held_block(&mut self, block: u32) -> Result<Bytes, Out>
        requires runs { self.old.state.stopped ≡ None }
        requires block { block < (S.about self.old.store).geometry.blocks }
        ensures read { S.keeps_model → (volume : List ℕ) → S.keeps self.old.store volume → IfOk result (λ bytes. bytes ≡ held_block volume self.old.state block) }
        ensures whole { IfOk result (λ bytes. length bytes ≡ 4096) }
        ensures state { OnOk result (self.new.state ≡ self.old.state) }
        ensures only_read { OnOk result (HasOnlyRead S.keeps_model S.about S.failures S.keeps S.moment S.may_have_left_since self.old.store self.new.store) }
        ensures stops { IfErr result (λ out. (HasOnlyRead S.keeps_model S.about S.failures S.keeps S.moment S.may_have_left_since self.old.store self.new.store
            × IsStepTo self.new.state out (stop Cause.Memory self.old.state))
            ⊎ HasBrokenOff S.about S.failures self.old self.new out) }
        ensures any_moment { S.keeps_model → (volume : List ℕ) → S.keeps self.old.store volume → LeavesOnly S.moment S.may_have_left_since self.old.store self.new.store (Means (meaning_with (S.about self.old.store) volume)) }
    {
        let mut bytes = [0; BLOCK_SIZE as usize];
        match read_block_at(&mut self.store, &self.table, block, self.known, &mut bytes) {
            Ok(()) => match Bytes::copy_from_slice(self.alloc, &bytes) {
                Ok(bytes) => Ok(bytes),
                Err(_) => Err(self.stop_by(Cause::Memory)),
            },
            Err(error) => {
                let cause = Cause::Device(error);
                self.commit = None;
                self.stopped = Some(cause);
                Err(self.stop_by(cause))
            }
        }
    }

    /// The write of the number `n`, which lies above the durable front, and not above that of the last applied write.
    pub fn kept_write(&self, n: u64) -> &Write
        requires above { durable_of self.now.state < n }
        requires applied { n ≤ last_of self.now.state }
        ensures after { (volume : List ℕ) → volume_at volume self.now.state n ≡ patched (volume_at volume self.now.state (n - 1)) result.now }
        ensures inside { Fits (size_of (S.about self.now.store)) result.now }
    {
        &self.table.get(n).write
    }
}
