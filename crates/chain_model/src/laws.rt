//! That each kind of step of a chain whose record changes is of the one volume. The functions do nothing.

ghost use Rattle.chain_model.specs.Laws.{AnswersFloor, AnswersFront, AsksFront, BeginsCommit, BeginsJoin, BeginsRecord, Connects, DisksAgree, DropsDemand, EndsCommit, EndsJoin, EndsRecord, FirstChain, ForgetsMember, Forgets, HeldStays, HoldsFront, IsOnEachDisk, JoinerAgrees, KeepsRaised, KnowsRaised, LooksUp, RaisesFront, ReadsClean, RefusesDemand, RestartsChain, RestartsFromJoiner, SendsAll, Stops, SubmitsWrite, TakesFlush, TakesMessage, TakesSubmit, TakesUp, TellsDisks, TellsMember};
ghost use Rattle.chain_model.specs.Life.{HappeningsAreOfOneVolume, LivesAreOfOneVolume};
ghost use Rattle.chain_model.specs.Refusing.{RefusalsHavePleas, StopsHaveCauses};

/// What a member does with a demand of its sessions.
pub fn demands_are_of_one_volume()
    ensures drops { DropsDemand }
    ensures refuses { RefusesDemand }
    ensures reads { ReadsClean }
    ensures asks { AsksFront }
    ensures flushes { TakesFlush }
    ensures submits { SubmitsWrite }
{}

/// A member takes a Put, an Ack or a Turn, of whichever epoch; and the head takes a submitted write.
pub fn messages_are_of_one_volume()
    ensures takes { TakesMessage }
    ensures numbers { TakesSubmit }
{}

/// The tail raises the front, or holds it; what a member knows with that, and what it answers with a front or a floor.
pub fn fronts_are_of_one_volume()
    ensures raises { RaisesFront }
    ensures keeps { KeepsRaised }
    ensures knows { KnowsRaised }
    ensures looks { LooksUp }
    ensures answers { AnswersFront }
    ensures holds { HoldsFront }
    ensures held { HeldStays }
    ensures floors { AnswersFloor }
{}

/// Commits, a member's stop, and what the board tells of the disks.
pub fn commits_are_of_one_volume()
    ensures begins { BeginsCommit }
    ensures ends { EndsCommit }
    ensures stops { Stops }
    ensures tells { TellsDisks }
{}

/// The next record, without a member that has stopped or of the same members: it is being written, it is recorded, and a member is
/// told it. One that was removed is forgotten.
pub fn records_are_of_one_volume()
    ensures begins { BeginsRecord }
    ensures ends { EndsRecord }
    ensures tells { TellsMember }
    ensures forgets { ForgetsMember }
{}

/// The next record with one that joins behind the tail: it is being written, and it is recorded.
pub fn joins_are_of_one_volume()
    ensures begins { BeginsJoin }
    ensures ends { EndsJoin }
{}

/// What sessions send and keep.
pub fn sessions_are_of_one_volume()
    ensures connects { Connects }
    ensures forgets { Forgets }
    ensures sends { SendsAll }
    ensures takes_up { TakesUp }
{}

/// What a stop leaves of the disk of a member that may be recorded then; and that such disks agree.
pub fn each_disk_has_what_is_owed()
    ensures owed { IsOnEachDisk }
    ensures agree { DisksAgree }
    ensures joiner { JoinerAgrees }
{}

/// How a chain begins, and begins again after a cut, from a member's disk or from a joiner's.
pub fn chains_begin_again()
    ensures first { FirstChain }
    ensures restarts { RestartsChain }
    ensures joiner { RestartsFromJoiner }
{}

/// The headline, of a chain whose record changes: whatever its members, its clients, its board and its manager do, with cuts in
/// between, clients see one volume, and after each cut it goes on with all that is owed.
pub fn lives_are_of_one_volume()
    ensures happenings { HappeningsAreOfOneVolume }
    ensures lives { LivesAreOfOneVolume }
{}

/// Why members of a chain stop, and which requests it refuses with EIO: those of a member that has stopped, and those of writes
/// that had no number when the Turn came.
pub fn refusals_have_pleas()
    ensures refusals { RefusalsHavePleas }
    ensures stops { StopsHaveCauses }
{}
