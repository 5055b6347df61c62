use crate::script::LineError;
use std::alloc::{AllocError, AllocFailed};
use std::io;
use thiserror::Error;

/// Why a script ends early.
#[derive(Clone, Copy, Debug, PartialEq, Eq, Error)]
pub enum Refusal {
    /// Memory ran out.
    #[error("100 Memory")]
    Memory,
    /// The script can't be read, or what it prints written, or a line isn't text.
    #[error("104 FileFault")]
    FileFault,
    /// Nobody reads any more what is printed.
    #[error("104 FileFault")]
    ClosedPipe,
    /// The line of the script, counted from 1, is no command, or not in its place.
    #[error("301 BadScript line {line}")]
    BadScript { line: u64 },
}

impl Refusal {
    /// Why a script ends at a line.
    pub(crate) fn at(line: u64, error: LineError) -> Refusal {
        match error {
            LineError::Memory => Refusal::Memory,
            LineError::Malformed => Refusal::BadScript { line },
            LineError::NotText => Refusal::FileFault,
        }
    }
}

impl From<AllocError> for Refusal {
    fn from(_: AllocError) -> Refusal {
        Refusal::Memory
    }
}

impl<T: Drop> From<AllocFailed<T>> for Refusal {
    fn from(_: AllocFailed<T>) -> Refusal {
        Refusal::Memory
    }
}

impl From<io::Error> for Refusal {
    fn from(error: io::Error) -> Refusal {
        match error.kind() {
            io::ErrorKind::OutOfMemory => Refusal::Memory,
            io::ErrorKind::BrokenPipe => Refusal::ClosedPipe,
            _ => Refusal::FileFault,
        }
    }
}
