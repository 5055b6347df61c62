//! How the order of a chain is kept while its record changes: some members were told the next record and others not, and links
//! hold messages of both epochs. The functions do nothing.

ghost use Rattle.chain_model.specs.Holding.{AttachStands, HoldersStay, JoinStands};
ghost use Rattle.chain_model.specs.Links.{DeliverShows, DropShows, HeadLearnShows, JoinShows, LearnShows, RemoveShows, WorkShows};
ghost use Rattle.chain_model.specs.Placed.{PlacesSuit, RecordsAreClose};
ghost use Rattle.chain_model.specs.TurningLaws.{AlikeStands, HeadToldStands, LearnStands, ListsAreNested, MembersAgree, NumberStands, OneRaises, PutsAreOfLine, QuietStands, RaiseStands, RecordStands, StartStands, ToldStands};

/// A chain begins so; and what is on its way to a stopped member doesn't matter.
pub fn order_begins()
    ensures start { StartStands }
    ensures alike { AlikeStands }
{}

/// A message is taken, a commit ends, a member stops; a member learns of a front; the front rises; the head numbers a write.
pub fn members_keep_order()
    ensures quiet { QuietStands }
    ensures learn { LearnStands }
    ensures raise { RaiseStands }
    ensures number { NumberStands }
{}

/// The next record, without one member or of the same; the head is told it, and any other member.
pub fn changes_keep_order()
    ensures record { RecordStands }
    ensures head { HeadToldStands }
    ensures told { ToldStands }
{}

/// The tail holds, and a joiner is recorded behind it, with all that is committed.
pub fn joining_keeps_order()
    ensures holders { HoldersStay }
    ensures attach { AttachStands }
    ensures join { JoinStands }
{}

/// One member at most may raise; lists are nested, with all that is taken; Puts are of the line and go on without a gap.
pub fn order_agrees()
    ensures one { OneRaises }
    ensures agree { MembersAgree }
    ensures nested { ListsAreNested }
    ensures puts { PutsAreOfLine }
{}

/// Steps of members by slot, over links whose messages have epochs, are such steps.
pub fn slots_show_order()
    ensures deliver { DeliverShows }
    ensures work { WorkShows }
    ensures drop { DropShows }
    ensures remove { RemoveShows }
    ensures learn { LearnShows }
    ensures head { HeadLearnShows }
    ensures join { JoinShows }
{}

/// Members that were told two records, one after the other, agree on who is above whom.
pub fn places_suit()
    ensures suit { PlacesSuit }
    ensures close { RecordsAreClose }
{}
