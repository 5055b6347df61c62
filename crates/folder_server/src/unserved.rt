use chain_steps::Cause;
use folder::FileName;
use gate_journal::Slot;
use std::alloc::{AllocError, AllocFailed};
use std::{fmt, io};

/// Why a chain isn't served any more. It prints the refusal's number and name, the file that is at fault, and the system's reason, where there
/// is one.
#[derive(Debug, Drop)]
pub enum Unserved {
    /// Memory ran out, or the system gives no threads.
    Memory,
    /// No more clients come in.
    Accept(sockets::Refusal),
    /// The chain's next record can't be written.
    Unrecorded(configurations::Refusal),
    /// The chain's last member has stopped, for this cause, and what the system said of its disk.
    Stopped {
        slot: Slot,
        cause: Cause,
        reason: Option<io::Error>,
    },
}

impl fmt::Display for Unserved {
    fn fmt<W: fmt::Write>(&self, f: &mut fmt::Formatter<W>) -> fmt::Result {
        match self {
            Unserved::Memory => f.write_str("100 Memory"),
            Unserved::Accept(refusal) => write!(f, "{refusal}"),
            Unserved::Unrecorded(refusal) => write!(f, "{refusal} {}", FileName::Config),
            Unserved::Stopped {
                slot,
                cause,
                reason,
            } => {
                print_cause(f, *cause)?;
                write!(f, " {}", FileName::Slot(*slot))?;
                match reason {
                    Some(reason) => write!(f, ": {reason}"),
                    None => Ok(()),
                }
            }
        }
    }
}

/// Prints why a member has stopped.
fn print_cause<W: fmt::Write>(f: &mut fmt::Formatter<W>, cause: Cause) -> fmt::Result {
    match cause {
        Cause::Device(error) => write!(f, "{error}"),
        Cause::Memory => f.write_str("100 Memory"),
        Cause::LastTicket => f.write_str("154 Stopped, no ticket is left:"),
        Cause::Told => f.write_str("154 Stopped, it was told to:"),
        Cause::Disorder => f.write_str("154 Stopped, what no chain sends came:"),
    }
}

impl From<serving::Refusal> for Unserved {
    fn from(_: serving::Refusal) -> Unserved {
        Unserved::Memory
    }
}

impl From<AllocError> for Unserved {
    fn from(_: AllocError) -> Unserved {
        Unserved::Memory
    }
}

impl<T: Drop> From<AllocFailed<T>> for Unserved {
    fn from(_: AllocFailed<T>) -> Unserved {
        Unserved::Memory
    }
}
