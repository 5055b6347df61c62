//! What the chain's manager has a member do.
ghost use Rattle.std.specs.Prelude.{◌≡◌, ◌≢◌, ◌↔◌, ◌≤◌, ◌+◌, None, Some, IfErr, IsTrue, OnOk};
ghost use Rattle.chain_steps.specs.Node.{Refused};
ghost use Rattle.chain_steps.specs.Steps.{stop, told};
ghost use Rattle.chain_steps.specs.declared.cause.Cause.TheVariants as causes;
ghost use Rattle.chain_core.specs.Node.{IsDelivered, IsStep};
ghost use Rattle.chain_core.specs.Refusal.{number_of};
ghost use Rattle.member.specs.Posted.{HasAnswered, HasPosted, OrRanOut};
ghost use Rattle.cluster.specs.Gives.{HasGiven, HasLooked, Holds};

use crate::seated::Seated;
use board::Board;
use chain_core::Refusal;
use configurations::Record;
use disk_model::HalvedDisk;
use mail::Given;
use member::Agreed;

impl<D: HalvedDisk + Drop, J: Agreed> Seated<D, J> {
    /// `Member::told`: it is told the chain's next record.
    pub fn told(&mut self, given: &mut Given, chain: Record) -> Result<(), Refusal>
        requires room { 1 ≤ given.old.room }
        ensures taken { OnOk result (HasGiven (HasPosted (OrRanOut (λ old new out. IsDelivered old new out (told chain old.state)))) self.old.member self.new.member given.old.replies given.new.replies) }
        ensures refused { IfErr result (λ r. (told chain self.old.member.node.state ≡ Refused (number_of r)) × (self.new.member ≡ self.old.member) × (given.new.replies ≡ given.old.replies)) }
        ensures seat { self.new.seat ≡ self.old.seat }
        ensures room { given.old.room ≤ given.new.room + 1 }
    {
        given.add(self.member.told(chain)?);
        Ok(())
    }

    /// `Member::stop`: all its tokens are refused with EIO.
    pub fn stop(&mut self, given: &mut Given)
        requires room { 1 ≤ given.old.room }
        ensures stopped { HasGiven (HasAnswered (λ old new out. IsStep old new out (stop causes.Told old.state))) self.old.member self.new.member given.old.replies given.new.replies }
        ensures seat { self.new.seat ≡ self.old.seat }
        ensures room { given.old.room ≤ given.new.room + 1 }
    {
        given.add(self.member.stop());
    }

    /// Looks the board's front up, and holds it for a joiner, as `Member::hold` has it.
    pub fn hold(&mut self, given: &mut Given, board: &Board)
        requires room { 1 ≤ given.old.room }
        requires board { J.board ≡ Some board.now }
        ensures held { HasLooked Holds board.now self.old.seat.number self.old.member self.new.member given.old.replies given.new.replies }
        ensures room { given.old.room ≤ given.new.room + 1 }
    {
        self.member.look(board, &mut self.seat);
        given.add(self.member.hold());
    }

    /// Whether it has stopped.
    pub fn has_stopped(&self) -> bool
        ensures { IsTrue result ↔ (self.now.member.node.state.stopped ≢ None) }
    {
        self.member.node().stopped().is_some()
    }
}
