use disk_model::Event;
use flush_barrier::SessionId;
use gate_journal::Slot;

/// One thing that a client, a member or the board does in a world.
#[derive(Debug, Drop)]
pub enum Step {
    /// A client begins a session with this number, used once, at the member at a place.
    Connect { session: SessionId, at: usize },
    /// The client sends a piece; an empty one lets the session go on with what it kept.
    Bytes { session: SessionId, piece: Vec<u8> },
    /// The client's input ends.
    End { session: SessionId },
    /// What waits for the client goes out.
    HandOut { session: SessionId },
    /// The member at a place acts. Places are counted from 0, in the order of the chain with which the world began; who joins comes last.
    Member { at: usize, act: Act },
}

/// What a member does.
#[derive(Clone, Copy, Debug, PartialEq, Eq)]
pub enum Act {
    /// It takes the first demand of its sessions.
    Take,
    /// As the head it takes the first write that comes from a slot by its submit link, and gives it the next number.
    Number { from: Slot },
    /// It takes the first message that comes from a slot by its chain link: a Put, an Ack or a Turn.
    Pass { from: Slot },
    /// It looks the committed front up, and keeps it.
    Look,
    /// It goes on with the front that it looked up, if it keeps one.
    AnswerFront,
    /// A tail that may raise the committed front does, and keeps it.
    Raise,
    /// It goes on with the front that it raised, if it keeps one.
    Raised,
    /// It looks the committed front up, for a crew.
    FindFront,
    /// It looks the mask of counted slots up.
    Crew,
    /// It looks the gauge of its crew's next slot up.
    Gauge,
    /// It answers what waits for a floor, with that of its crew.
    Settle,
    /// It begins a commit of at most so many writes. None at all is no step, nor is one out of turn.
    BeginCommits { most: u64 },
    /// It ends the commit under way, if one is.
    EndCommit,
    /// It posts its last receipt.
    Post,
    /// Its store writes the next pending block home.
    Tick,
    /// Its store writes all pending blocks home, and empties its journal area.
    Checkpoint,
    /// It stops. Once it has, that is no step.
    Stop,
}

/// What the manager does.
#[derive(Clone, Copy, Debug, PartialEq, Eq)]
pub enum ManagerAct {
    /// It notes who has stopped, and begins the removal of the stopped member at a slot.
    Remove { slot: u64 },
    /// It notes who has stopped, and begins the joining of a disk at a slot.
    Join { slot: u64 },
    /// The member at a place, which was removed, is forgotten, and its disk is dropped, while no other disk is on its way: one may join at
    /// its slot then. Its sessions end, and the members behind it move up by a place, with theirs.
    Forget { at: usize },
    /// A new disk is attached, if that is the next order: it will be given the volume of the chain's tail. At one of its device calls, counted
    /// from its first, this happens, if anything does.
    Attach { event: Option<Event> },
    /// The disk is given the next block, if that is the next order; the order is carried out once each block was given.
    Copy,
    /// The tail holds the front, if that is the next order.
    Hold,
    /// The disk is given a block that was written since, if that is the next order; or, where none is due, the end.
    Rest,
    /// The disk is counted, if that is the next order, and it has the volume at the front that the tail holds.
    CountIn,
    /// The joining under way is abandoned: its disk stands outside from then on, unless it refused the calls by which its installation begins.
    Abandon,
    /// The next record is being written, if that is the next order: with the disk that was counted, if one was.
    BeginRecord,
    /// What is being written goes to the configuration's disk, by six device calls, and is the recorded chain.
    EndRecord,
    /// The board counts a slot no longer, if that is the next order.
    CountOut,
    /// A member is told the record, if that is the next order.
    Tell,
}
