ghost use Rattle.std.specs.Prelude.{◌≡◌};
ghost use Rattle.chain_steps.specs.Cause.{number_of};

use disk_model::DiskError;

/// Why a member stopped.
#[derive(Clone, Copy, Debug, PartialEq, Eq)]
pub enum Cause {
    /// It was told to.
    Told,
    /// Memory ran out where a step can't be given up.
    Memory,
    /// Its disk refused a call.
    Device(DiskError),
    /// It has given out the greatest ticket, 2^63 - 1.
    LastTicket,
    /// A message or a front came that no chain has: a Put that leaves out a number, an Ack or a front above its last write,
    /// a Submit to another member than the head, or of a slot that isn't in the chain.
    Disorder,
}

impl Cause {
    /// The number of the refusal that stopped it, if one did.
    pub fn number(self) -> Option<u16>
        ensures { result ≡ number_of self }
    {
        match self {
            Cause::Told | Cause::Disorder => None,
            Cause::Memory => Some(100),
            Cause::Device(error) => error.number(),
            Cause::LastTicket => Some(154),
        }
    }
}
