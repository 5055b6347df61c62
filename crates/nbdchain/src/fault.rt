use crate::listening::Unheard;
use folder::Failure;
use folder_server::Unserved;
use gate_journal::Slot;
use simulator::Refusal;
use std::alloc::{AllocError, AllocFailed};
use std::{fmt, io};

/// Why a disk is not formatted, recovered or served. It prints the refusal in a line, with the path of the file and the system's reason,
/// where there is one.
#[derive(Debug, Drop)]
pub(crate) enum Fault<'a> {
    /// A refusal of the program's own.
    Own(Refusal),
    /// The numbers are no layout of a disk.
    Layout(folder::Refusal),
    /// A file of this folder is at fault.
    Folder { dir: &'a str, failure: Failure },
    /// The disk of a slot isn't rebuilt.
    Unrebuilt(Slot, Standstill),
    /// Nobody can come in.
    Listen(Unheard),
    /// The chain of a folder isn't served any more.
    Unserved { dir: &'a str, unserved: Unserved },
    /// The server of a folder takes no order: 104, and the system's reason.
    Unasked { dir: &'a str, reason: io::Error },
}

/// Why a chain doesn't rebuild a disk.
#[derive(Debug, Drop)]
pub(crate) enum Standstill {
    /// Its manager refuses.
    Manager(manager::Refusal),
    /// Its tail has stopped: 154.
    TailStopped,
    /// Another change is under way: 171.
    OutOfOrder,
}

impl fmt::Display for Standstill {
    fn fmt<W: fmt::Write>(&self, f: &mut fmt::Formatter<W>) -> fmt::Result {
        match self {
            Standstill::Manager(refusal) => write!(f, "{refusal}"),
            Standstill::TailStopped => f.write_str("154 Stopped"),
            Standstill::OutOfOrder => f.write_str("171 OneAtATime"),
        }
    }
}

impl fmt::Display for Fault<'_> {
    fn fmt<W: fmt::Write>(&self, f: &mut fmt::Formatter<W>) -> fmt::Result {
        match self {
            Fault::Own(refusal) => write!(f, "{refusal}"),
            Fault::Layout(refusal) => write!(f, "{refusal}"),
            Fault::Folder { dir, failure } => print_failure(f, dir, failure),
            Fault::Unrebuilt(slot, refusal) => {
                let number = slot.number();
                write!(f, "{refusal}: slot {number} isn't rebuilt")
            }
            Fault::Listen(unheard) => write!(f, "{unheard}"),
            Fault::Unserved { dir, unserved } => write!(f, "{unserved} (in {dir})"),
            Fault::Unasked { dir, reason } => write!(
                f,
                "104 FileFault {dir}/control.socket: {reason}"
            ),
        }
    }
}

/// Prints what became of a file, with its path.
fn print_failure<W: fmt::Write>(
    f: &mut fmt::Formatter<W>,
    dir: &str,
    failure: &Failure,
) -> fmt::Result {
    let Failure { refusal, file, .. } = failure;
    match &failure.reason {
        Some(reason) => write!(f, "{refusal} {dir}/{file}: {reason}"),
        None => write!(f, "{refusal} {dir}/{file}"),
    }
}

impl From<Refusal> for Fault<'_> {
    fn from(refusal: Refusal) -> Self {
        Fault::Own(refusal)
    }
}

impl From<AllocError> for Fault<'_> {
    fn from(_: AllocError) -> Self {
        Fault::Own(Refusal::Memory)
    }
}

impl<T: Drop> From<AllocFailed<T>> for Fault<'_> {
    fn from(_: AllocFailed<T>) -> Self {
        Fault::Own(Refusal::Memory)
    }
}

impl From<io::Error> for Fault<'_> {
    fn from(error: io::Error) -> Self {
        Fault::Own(Refusal::from(error))
    }
}
