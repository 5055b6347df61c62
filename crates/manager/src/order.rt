use gate_journal::Slot;
use std::fmt;

/// What is to be done next, by whoever runs the chain. The slot is that of the member concerned; `Idle` and `Record` have
/// none. It prints its name, and the slot behind a space.
#[derive(Clone, Copy, Debug, PartialEq, Eq)]
pub enum Order {
    /// Nothing.
    Idle,
    /// The record under way is written, durably.
    Record,
    /// The member is counted out.
    CountOut(Slot),
    /// The member is told the last record.
    Tell(Slot),
    /// The joiner is attached behind the tail.
    Attach(Slot),
    /// The blocks of the tail's volume are copied to the joiner, while writes go on.
    Copy(Slot),
    /// The tail holds the front, until it is told the next record.
    Hold(Slot),
    /// The blocks that were written since they were copied are copied to the joiner again.
    Rest(Slot),
    /// The joiner is counted in.
    CountIn(Slot),
}

impl Order {
    ghost use Rattle.std.specs.Prelude.{◌≡◌};
    ghost use Rattle.manager.specs.Orders.{is_record, order_name, order_slot};

    /// Its name, without the slot.
    pub fn name(self) -> &'static str
        ensures { result.now ≡ order_name self }
    {
        match self {
            Order::Idle => "Idle",
            Order::Record => "Record",
            Order::CountOut(_) => "CountOut",
            Order::Tell(_) => "Tell",
            Order::Attach(_) => "Attach",
            Order::Copy(_) => "Copy",
            Order::Hold(_) => "Hold",
            Order::Rest(_) => "Rest",
            Order::CountIn(_) => "CountIn",
        }
    }

    /// The slot of the member concerned. `None` for `Idle` and `Record`.
    pub fn slot(self) -> Option<Slot>
        ensures { result ≡ order_slot self }
    {
        match self {
            Order::Idle | Order::Record => None,
            Order::CountOut(slot)
            | Order::Tell(slot)
            | Order::Attach(slot)
            | Order::Copy(slot)
            | Order::Hold(slot)
            | Order::Rest(slot)
            | Order::CountIn(slot) => Some(slot),
        }
    }

    /// Whether the next record is to be written.
    pub(crate) fn is_record(self) -> bool
        ensures { result ≡ is_record self }
    {
        matches!(self, Order::Record)
    }
}

impl fmt::Display for Order {
    ghost use Rattle.std.specs.Prelude.{Some};
    ghost use Rattle.manager.specs.Orders.{order_text};

    ghost output = { λ order. Some (order_text order) };

    fn fmt<W: fmt::Write>(&self, f: &mut fmt::Formatter<W>) -> fmt::Result {
        let name = self.name();
        match self.slot() {
            None => f.write_str(name),
            Some(slot) => {
                let number = slot.number();
                write!(f, "{name} {number}")
            }
        }
    }
}
