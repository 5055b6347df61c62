use configurations::Epoch;
use gate_journal::Slot;
use version_table::Origin;
use volume::Write;

/// What one member tells another.
#[derive(Debug, Drop)]
pub enum Message {
    /// To the successor: the write of this number, and where it came from.
    Put {
        number: u64,
        origin: Origin,
        write: Write,
    },
    /// To the predecessor: the writes up to this number are committed.
    Ack {
        front: u64,
    },
    /// To the successor: the chain of this epoch has been told, and the sender has applied so many writes.
    Turn {
        applied: u64,
    },
    /// To the head: a client's write, which the sender keeps under this ticket.
    Submit {
        ticket: u64,
        write: Write,
    },
}

/// A message, and the epoch in which it was sent.
#[derive(Debug, Drop)]
pub struct Envelope {
    pub epoch: Epoch,
    pub message: Message,
}

/// A message on its way to the member at a slot.
#[derive(Debug, Drop)]
pub struct Sent {
    pub to: Slot,
    pub envelope: Envelope,
}
