//! The steps of members and of the board.
ghost use Rattle.std.specs.Prelude.{◌≡◌, ◌⊎◌, ◌<◌, ◌↔◌, ℕ, [], false, length, true, IfErr, IfNone, IfOk, IfSome, IsErrOf};
ghost use Rattle.chain.specs.Chain.{Changes, RestsAt};
ghost use Rattle.chain.specs.Commits.{EndsAt, HasBegunCommits, HasCheckpointed, HasEndedCommit, HasNoCommit, HasNoGroup, HasNoNumber, HasStoppedTold, HasTicked, IsOutOfTurn, IsUsedUpAt, LeavesAt, PostsAt, PostsNone};
ghost use Rattle.chain.specs.Fronts.{HasAnswered, HasKnown, HasLooked, HasNoLooked, HasNoRaised, MayNotRaise, RaisesAt};
ghost use Rattle.chain.specs.Member.{HasCalled};
ghost use Rattle.chain.specs.Musters.{HasFound, HasGauged, HasMustered, HasNoFront, HasNoSlotLeft, HasNoWhole, HasSettled, LacksAt};
ghost use Rattle.chain.specs.Passing.{HasNone, IsItself, MessageComes, Refuses, SubmitComes};
ghost use Rattle.clients.specs.Clients.{no_one};
ghost use Rattle.world.specs.Telling.{Answers, Moves, handed_if, handed_in, handed_some};
ghost use Rattle.world.specs.World.{IsOfOneVolume};

use crate::telling::tell;
use crate::told::Told;
use crate::world::World;
use chain_core::Refusal;
use gate_journal::Slot;
use local_store::NeverLends;

impl<S: NeverLends + Drop> World<S> {
    /// The member at a place takes the first write that comes from a slot by its submit link: as the head it gives the write the next
    /// number, and sends it on. `None` where no write is on the link. Where memory runs out, the member stops, and the write stays on
    /// its link; and so it does where the member refuses it.
    pub fn number(&mut self, from: Slot, at: usize) -> Result<Option<Told>, Refusal>
        requires { at < length self.old.chain.members }
        ensures none { IfOk result (λ taken. IfNone taken (Moves self.old self.new (HasNone (λ c. c.submits) from at))) }
        ensures taken { IfOk result (λ taken. IfSome taken (λ told. Answers told self.old self.new (λ replies old new. SubmitComes from at old new replies))) }
        ensures refused { IfErr result (λ r. Moves self.old self.new (λ old new. Refuses (λ c. c.submits) from at old new r)) }
        ensures one_volume { S.keeps_model → IsOfOneVolume S.about S.keeps S.may_leave_now no_one (handed_if (λ told. told) result) self.old self.new }
    {
        let Some(replies) = self.chain.number(from, at)? else {
            return Ok(None);
        };
        Ok(Some(tell(self.alloc, &mut self.clients, replies)))
    }

    /// The member at a place takes the first message that comes from a slot by its chain link: a Put, an Ack or a Turn. `None` where no
    /// message is on the link, or the slot is its own. Where memory runs out, the member stops, and the message stays on its link; and
    /// so it does where the member refuses it.
    pub fn pass(&mut self, from: Slot, at: usize) -> Result<Option<Told>, Refusal>
        requires { at < length self.old.chain.members }
        ensures none { IfOk result (λ taken. IfNone taken (Moves self.old self.new (λ old new. HasNone (λ c. c.links) from at old new ⊎ IsItself from at old new))) }
        ensures taken { IfOk result (λ taken. IfSome taken (λ told. Answers told self.old self.new (λ replies old new. MessageComes from at old new replies))) }
        ensures refused { IfErr result (λ r. Moves self.old self.new (λ old new. Refuses (λ c. c.links) from at old new r)) }
        ensures one_volume { S.keeps_model → IsOfOneVolume S.about S.keeps S.may_leave_now no_one (handed_if (λ told. told) result) self.old self.new }
    {
        let Some(replies) = self.chain.pass(from, at)? else {
            return Ok(None);
        };
        Ok(Some(tell(self.alloc, &mut self.clients, replies)))
    }

    /// The member at a place looks the committed front up, and keeps it. Once it stopped, nothing changes.
    pub fn look(&mut self, at: usize) -> bool
        requires { at < length self.old.chain.members }
        ensures looked { result ≡ true → Moves self.old self.new (λ old new. Changes at old new (HasLooked old.words.front)) }
        ensures stopped { result ≡ false → Moves self.old self.new (RestsAt at) }
        ensures one_volume { S.keeps_model → IsOfOneVolume S.about S.keeps S.may_leave_now no_one no_one self.old self.new }
    {
        self.chain.look(at)
    }

    /// The member at a place, a tail that has its Turn and holds the front for no joiner, raises the committed front to its last applied
    /// write if it is below, and keeps the front that is there then. Where another member is at the place, nothing changes; nor once it
    /// stopped.
    pub fn raise(&mut self, at: usize) -> bool
        requires { at < length self.old.chain.members }
        ensures raised { result ≡ true → Moves self.old self.new (RaisesAt at) }
        ensures idle { result ≡ false → Moves self.old self.new (λ old new. LacksAt at old new MayNotRaise ⊎ RestsAt at old new) }
        ensures one_volume { S.keeps_model → IsOfOneVolume S.about S.keeps S.may_leave_now no_one no_one self.old self.new }
    {
        self.chain.raise(at)
    }

    /// The member at a place looks the committed front up for a crew; an older one is dropped. Once it stopped, nothing changes.
    pub fn find_front(&mut self, at: usize) -> bool
        requires { at < length self.old.chain.members }
        ensures found { result ≡ true → Moves self.old self.new (λ old new. Changes at old new (HasFound old.id old.seat old.words.front)) }
        ensures stopped { result ≡ false → Moves self.old self.new (RestsAt at) }
        ensures one_volume { S.keeps_model → IsOfOneVolume S.about S.keeps S.may_leave_now no_one no_one self.old self.new }
    {
        self.chain.find_front(at)
    }

    /// The member at a place looks the mask of counted slots up behind the front that it looked up, which is used up; an older crew is
    /// dropped. Once it stopped, or where it keeps no front, nothing changes.
    pub fn crew(&mut self, at: usize) -> bool
        requires { at < length self.old.chain.members }
        ensures mustered { result ≡ true → Moves self.old self.new (λ old new. Changes at old new (HasMustered old.id old.seat old.words.mask)) }
        ensures idle { result ≡ false → Moves self.old self.new (λ old new. RestsAt at old new ⊎ LacksAt at old new HasNoFront) }
        ensures one_volume { S.keeps_model → IsOfOneVolume S.about S.keeps S.may_leave_now no_one no_one self.old self.new }
    {
        self.chain.crew(at)
    }

    /// The member at a place looks the gauge of its crew's next slot up. Once it stopped, or where no slot of a crew is left, nothing
    /// changes.
    pub fn gauge(&mut self, at: usize) -> bool
        requires { at < length self.old.chain.members }
        ensures gauged { result ≡ true → Moves self.old self.new (λ old new. Changes at old new (HasGauged old.words)) }
        ensures idle { result ≡ false → Moves self.old self.new (λ old new. RestsAt at old new ⊎ LacksAt at old new HasNoSlotLeft) }
        ensures one_volume { S.keeps_model → IsOfOneVolume S.about S.keeps S.may_leave_now no_one no_one self.old self.new }
    {
        self.chain.gauge(at)
    }

    /// The member at a place posts the receipt that it kept, which is gone then. `false` where there is none, or it has stopped.
    pub fn post(&mut self, at: usize) -> bool
        requires { at < length self.old.chain.members }
        ensures posted { result ≡ true → Moves self.old self.new (PostsAt at) }
        ensures none { result ≡ false → Moves self.old self.new (PostsNone at) }
        ensures one_volume { S.keeps_model → IsOfOneVolume S.about S.keeps S.may_leave_now no_one no_one self.old self.new }
    {
        self.chain.post(at)
    }

    /// The member at a place goes on with the front that it looked up. `None` where it keeps none, or once it stopped: nothing changed. Where
    /// memory runs out, or its device refuses a read, it stops.
    pub fn answer_front(&mut self, at: usize) -> Option<Told>
        requires { at < length self.old.chain.members }
        ensures answered { IfSome result (λ told. Answers told self.old self.new (λ replies old new. Changes at old new (HasAnswered S.keeps_model S.about S.failures S.keeps S.moment S.may_have_left_since replies))) }
        ensures idle { IfNone result (Moves self.old self.new (λ old new. RestsAt at old new ⊎ LacksAt at old new HasNoLooked)) }

        // A stop at any moment of the call leaves what the member was shown with.
        ensures any_moment { S.keeps_model → LeavesAt S.about S.keeps S.may_leave_now S.moment S.may_have_left_since at self.old.chain self.new.chain }
        ensures one_volume { S.keeps_model → IsOfOneVolume S.about S.keeps S.may_leave_now no_one (handed_some result) self.old self.new }
    {
        let replies = self.chain.answer_front(at)?;
        Some(tell(self.alloc, &mut self.clients, replies))
    }

    /// The member at a place takes the front that it raised as its known commit: its plain writes up to it are answered, and the one before
    /// it is told. `None` where it keeps none, or once it stopped: nothing changed. Where memory runs out, it stops.
    pub fn raised(&mut self, at: usize) -> Option<Told>
        requires { at < length self.old.chain.members }
        ensures known { IfSome result (λ told. Answers told self.old self.new (λ replies old new. HasKnown at replies old new)) }
        ensures idle { IfNone result (Moves self.old self.new (λ old new. RestsAt at old new ⊎ LacksAt at old new HasNoRaised)) }
        ensures one_volume { S.keeps_model → IsOfOneVolume S.about S.keeps S.may_leave_now no_one (handed_some result) self.old self.new }
    {
        let replies = self.chain.raised(at)?;
        Some(tell(self.alloc, &mut self.clients, replies))
    }

    /// The member at a place answers what waits for a floor, with that of its crew, whose gauges are all looked up, and which is used up.
    /// Once it stopped, or where it keeps no such crew, nothing changes. Where memory runs out, it stops.
    pub fn settle(&mut self, at: usize) -> Option<Told>
        requires { at < length self.old.chain.members }
        ensures settled { IfSome result (λ told. Answers told self.old self.new (λ replies old new. Changes at old new (HasSettled replies))) }
        ensures idle { IfNone result (Moves self.old self.new (λ old new. RestsAt at old new ⊎ LacksAt at old new HasNoWhole)) }
        ensures one_volume { S.keeps_model → IsOfOneVolume S.about S.keeps S.may_leave_now no_one (handed_some result) self.old self.new }
    {
        let replies = self.chain.settle(at)?;
        Some(tell(self.alloc, &mut self.clients, replies))
    }

    /// The member at a place ends the commit under way, and keeps its receipt until it is posted: an older one is gone. `None` where none is
    /// under way, or once it stopped: nothing changed. Where memory runs out or the disk refuses, it stops.
    pub fn end_commit(&mut self, at: usize) -> Option<Told>
        requires { at < length self.old.chain.members }
        ensures ended { IfSome result (λ told. Answers told self.old self.new (λ replies old new. Changes at old new (HasEndedCommit S.keeps_model S.about S.is_pending S.failures S.keeps replies))) }
        ensures idle { IfNone result (Moves self.old self.new (λ old new. RestsAt at old new ⊎ LacksAt at old new HasNoCommit)) }

        // A stop at any moment of the call leaves what the member was shown with, or what the commit makes of it.
        ensures any_moment { S.keeps_model → EndsAt S.about S.keeps S.may_leave_now S.moment S.may_have_left_since at self.old.chain self.new.chain }
        ensures one_volume { S.keeps_model → IsOfOneVolume S.about S.keeps S.may_leave_now no_one (handed_some result) self.old self.new }
    {
        let replies = self.chain.end_commit(at)?;
        Some(tell(self.alloc, &mut self.clients, replies))
    }

    /// The store of the member at a place writes its next pending block home, whose number is given; `None` where nothing is pending, or
    /// the member stopped.
    ///
    /// 154 `Stopped` once stopped: nothing changed. Where the disk refuses, the member stops.
    pub fn tick(&mut self, at: usize) -> Result<(Told, Option<u32>), Refusal>
        requires { at < length self.old.chain.members }
        ensures done { IfOk result (λ r. Answers r.0 self.old self.new (λ replies old new. Changes at old new (HasCalled (λ old new out. HasTicked S.keeps_model S.about S.is_pending S.failures S.keeps old new out r.1) replies))) }
        ensures refused { IfErr result (λ r. (r ≡ Refusal.Stopped) × Moves self.old self.new (RestsAt at)) }

        // A stop at any moment of the call leaves what the member was shown with.
        ensures any_moment { S.keeps_model → LeavesAt S.about S.keeps S.may_leave_now S.moment S.may_have_left_since at self.old.chain self.new.chain }
        ensures one_volume { S.keeps_model → IsOfOneVolume S.about S.keeps S.may_leave_now no_one (handed_in (λ r. r.0) result) self.old self.new }
    {
        let (replies, home) = self.chain.tick(at)?;
        Ok((tell(self.alloc, &mut self.clients, replies), home))
    }

    /// The store of the member at a place writes all its pending blocks home, and empties its journal area.
    ///
    /// 154 `Stopped` once stopped: nothing changed. Else 121 `Full` exactly where no number is left for another superblock: of the store
    /// nothing changed that is told. Where the disk refuses, the member stops.
    pub fn checkpoint(&mut self, at: usize) -> Result<Told, Refusal>
        requires { at < length self.old.chain.members }
        ensures done { IfOk result (λ told. Answers told self.old self.new (λ replies old new. Changes at old new (HasCalled (HasCheckpointed S.keeps_model S.about S.is_pending S.failures S.keeps) replies))) }
        ensures full { IsErrOf result Refusal.Full ↔ IsUsedUpAt S.about at self.old.chain }
        ensures refused { IfErr result (λ r. ((r ≡ Refusal.Full) × Moves self.old self.new (λ old new. Changes at old new (HasNoNumber S.about S.is_pending S.keeps)))
            ⊎ ((r ≡ Refusal.Stopped) × Moves self.old self.new (RestsAt at))) }

        // A stop at any moment of the call leaves what the member was shown with.
        ensures any_moment { S.keeps_model → LeavesAt S.about S.keeps S.may_leave_now S.moment S.may_have_left_since at self.old.chain self.new.chain }
        ensures one_volume { S.keeps_model → IsOfOneVolume S.about S.keeps S.may_leave_now no_one (handed_in (λ told. told) result) self.old self.new }
    {
        match self.chain.checkpoint(at) {
            Ok(replies) => Ok(tell(self.alloc, &mut self.clients, replies)),
            Err(refusal) => Err(refusal),
        }
    }

    /// The member at a place begins a commit of the greatest group of known writes, at most so many, at least one, for whose blocks its
    /// journal area has room. `None` out of turn: nothing changed. Where memory runs out or the disk refuses, it stops.
    ///
    /// 154 `Stopped` once stopped: nothing changed. Else 121 `Full` where it is the turn and no group fits: a checkpoint makes room.
    pub fn begin_commits(&mut self, at: usize, most: u64) -> Result<Option<Told>, Refusal>
        requires within { at < length self.old.chain.members }
        requires most { 0 < most }
        ensures done { IfOk result (λ begun. IfSome begun (λ told. Answers told self.old self.new (λ replies old new. Changes at old new (HasCalled (HasBegunCommits S.keeps_model S.about S.failures S.keeps S.moment S.may_have_left_since most) replies)))) }
        ensures idle { IfOk result (λ begun. IfNone begun (Moves self.old self.new (λ old new. LacksAt at old new IsOutOfTurn))) }
        ensures refused { IfErr result (λ r. ((r ≡ Refusal.Full) × Moves self.old self.new (λ old new. Changes at old new (HasNoGroup S.keeps_model S.about S.failures S.keeps S.moment S.may_have_left_since most)))
            ⊎ ((r ≡ Refusal.Stopped) × Moves self.old self.new (RestsAt at))) }

        // A stop at any moment of the call leaves what the member was shown with.
        ensures any_moment { S.keeps_model → LeavesAt S.about S.keeps S.may_leave_now S.moment S.may_have_left_since at self.old.chain self.new.chain }
        ensures one_volume { S.keeps_model → IsOfOneVolume S.about S.keeps S.may_leave_now no_one (handed_if (λ told. told) result) self.old self.new }
    {
        let Some(replies) = self.chain.begin_commits(at, most)? else {
            return Ok(None);
        };
        Ok(Some(tell(self.alloc, &mut self.clients, replies)))
    }

    /// The member at a place stops: all its requests are refused, in the order in which it took them. `None` where it had stopped, and its
    /// cause stays: nothing changed.
    pub fn stop(&mut self, at: usize) -> Option<Told>
        requires { at < length self.old.chain.members }
        ensures stopped { IfSome result (λ told. Answers told self.old self.new (λ replies old new. Changes at old new (HasStoppedTold replies))) }
        ensures idle { IfNone result (Moves self.old self.new (RestsAt at)) }
        ensures one_volume { S.keeps_model → IsOfOneVolume S.about S.keeps S.may_leave_now no_one (handed_some result) self.old self.new }
    {
        let replies = self.chain.stop(at)?;
        Some(tell(self.alloc, &mut self.clients, replies))
    }
}
