//! What a manager has it do.
ghost use Rattle.std.specs.Prelude.{◌≡◌, ◌⊎◌, ◌<◌, List, ℕ, None, IfErr, IfOk, OnOk, length};
ghost use Rattle.disk_model.specs.Disk.{LeavesOnly};
ghost use Rattle.local_store.specs.About.{meaning_with};
ghost use Rattle.local_store.specs.Meaning.{Means};
ghost use Rattle.chain_steps.specs.Node.{Refused};
ghost use Rattle.chain_steps.specs.Steps.{held_block, hold, stop, told};
ghost use Rattle.chain_steps.specs.declared.cause.Cause.TheVariants as causes;
ghost use Rattle.chain_core.specs.Node.{IsDelivered, IsStep, IsStepOrStop};
ghost use Rattle.chain_core.specs.Reads.{HasBrokenOff, HasOnlyRead, IsStepTo};
ghost use Rattle.chain_core.specs.Refusal.{number_of};
ghost use Rattle.member.specs.Posted.{HasAnswered, HasPosted, OrRanOut};

use crate::agreed::Agreed;
use crate::member::Member;
use bytes::Bytes;
use chain_core::{Out, Refusal, Served};
use chain_steps::Cause;
use configurations::Record;
use local_store::StoreLike;

impl<S: StoreLike + Drop, J: Agreed> Member<S, J> {
    /// Tells the member its chain's next record: it takes messages of that epoch from then on, passes nothing on before the Turn,
    /// and holds for no joiner. The head has its Turn at once.
    ///
    /// 154 `Stopped` once stopped. A record whose epoch isn't above the member's changes nothing; in one without this slot and
    /// incarnation, the member is 151 `NotMember`, and nothing changed. Where memory runs out, it stops.
    pub fn told(&mut self, chain: Record) -> Result<Vec<Served>, Refusal>
        ensures taken { IfOk result (λ replies. HasPosted (OrRanOut (λ old new out. IsDelivered old new out (told chain old.state))) self.old self.new replies.items) }
        ensures refused { IfErr result (λ r. (told chain self.old.node.state ≡ Refused (number_of r)) × (self.new ≡ self.old)) }
    {
        if self.node.stopped().is_none() && !self.outbox.make_room() {
            return Ok(self.node.stop_by(Cause::Memory).replies);
        }
        let Out { messages, replies } = self.node.told(chain)?;
        self.outbox.post(messages);
        Ok(replies)
    }

    /// Stops it, since it was told to: all its tokens are refused with EIO.
    pub fn stop(&mut self) -> Vec<Served>
        ensures { HasAnswered (λ old new out. IsStep old new out (stop causes.Told old.state)) self.old self.new result.items }
    {
        let Out {
            messages: _,
            replies,
        } = self.node.stop();
        replies
    }

    /// The tail takes the front that it looked up as its known commit, and holds it for a joiner: it doesn't raise before it is
    /// told the next record. Its plain writes up to the front are answered, and its predecessor is told. Where no such front is
    /// kept, nothing changes. Where memory runs out, the member stops.
    pub fn hold(&mut self) -> Vec<Served>
        ensures { HasPosted (OrRanOut (λ old new out. IsStepOrStop old new out (hold old.state))) self.old self.new result.items }
    {
        if !self.outbox.make_room() {
            return self.node.stop_by(Cause::Memory).replies;
        }
        let Out { messages, replies } = self.node.hold();
        self.outbox.post(messages);
        replies
    }

    /// A block of the volume at the member's known commit, which is the front that it holds while it holds one. The member hasn't
    /// stopped. Where memory runs out or the device refuses the read, the member stops: `Err` has what it put out.
    pub fn held_block(&mut self, block: u32) -> Result<Bytes, Vec<Served>>
        requires runs { self.old.node.state.stopped ≡ None }
        requires block { block < (S.about self.old.node.store).geometry.blocks }
        ensures read { S.keeps_model → (volume : List ℕ) → S.keeps self.old.node.store volume → IfOk result (λ bytes. bytes ≡ held_block volume self.old.node.state block) }
        ensures whole { IfOk result (λ bytes. length bytes ≡ 4096) }
        ensures state { OnOk result (self.new.node.state ≡ self.old.node.state) }
        ensures only_read { OnOk result (HasOnlyRead S.keeps_model S.about S.failures S.keeps S.moment S.may_have_left_since self.old.node.store self.new.node.store) }
        ensures stops { IfErr result (λ replies. HasAnswered (λ old new out. (HasOnlyRead S.keeps_model S.about S.failures S.keeps S.moment S.may_have_left_since old.store new.store
            × IsStepTo new.state out (stop causes.Memory old.state)) ⊎ HasBrokenOff S.about S.failures old new out) self.old self.new replies.items) }
        ensures any_moment { S.keeps_model → (volume : List ℕ) → S.keeps self.old.node.store volume
            → LeavesOnly S.moment S.may_have_left_since self.old.node.store self.new.node.store (Means (meaning_with (S.about self.old.node.store) volume)) }
        ensures unsent { self.new.outbox ≡ self.old.outbox }
    {
        match self.node.held_block(block) {
            Ok(bytes) => Ok(bytes),
            Err(out) => {
                let Out {
                    messages: _,
                    replies,
                } = out;
                Err(replies)
            }
        }
    }
}
