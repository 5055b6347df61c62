use crate::{FileName, Refusal};
use disk_model::FileDisk;
use std::io::ErrorKind;
use std::{fmt, io};

/// Why a folder wasn't formatted or opened: the refusal, the file, and the system's reason, where it gave one. It prints
/// all three in a line.
#[derive(Debug, Drop)]
pub struct Failure {
    /// The refusal.
    pub refusal: Refusal,
    /// The file of the folder.
    pub file: FileName,
    /// What the system said.
    pub reason: Option<io::Error>,
}

impl Failure {
    ghost use Rattle.std.specs.Prelude.{◌≡◌, ◌↔◌, Some, None, IfSome, IsNone, IsTrue};
    ghost use Rattle.std.specs.IoError.{raw_os_error};
    ghost use Rattle.disk_model.specs.File.{file_last_error};
    ghost use Rattle.folder.specs.Files.{IsNotFound};

    /// The refusal of a file that the system has refused.
    pub(crate) fn of_file(file: FileName, reason: io::Error) -> Failure
        ensures refusal { result.refusal ≡ Refusal.FileFault }
        ensures file { result.file ≡ file }
        ensures reason { result.reason ≡ Some reason }
    {
        Failure {
            refusal: Refusal::FileFault,
            file,
            reason: Some(reason),
        }
    }

    /// A refusal at a file, with the system's last error there, if there was one.
    pub(crate) fn of_disk(file: FileName, refusal: Refusal, disk: &FileDisk) -> Failure
        ensures refusal { result.refusal ≡ refusal }
        ensures file { result.file ≡ file }
        ensures reason { IfSome (file_last_error disk.now) (λ number. IfSome result.reason (λ said. raw_os_error said ≡ Some number)) }
        ensures none { IsNone result.reason ↔ IsNone (file_last_error disk.now) }
    {
        let reason = match disk.last_error() {
            Some(number) => Some(io::Error::from_raw_os_error(number)),
            None => None,
        };
        Failure {
            refusal,
            file,
            reason,
        }
    }

    /// Whether the system said that there is no such file.
    pub(crate) fn is_not_found(&self) -> bool
        ensures { IsTrue result ↔ IsNotFound self.now }
    {
        match &self.reason {
            Some(reason) => reason.kind() == ErrorKind::NotFound,
            None => false,
        }
    }

    /// Out of memory, at a file.
    pub(crate) fn of_memory(file: FileName) -> Failure
        ensures refusal { result.refusal ≡ Refusal.Memory }
        ensures file { result.file ≡ file }
        ensures reason { result.reason ≡ None }
    {
        Failure {
            refusal: Refusal::Memory,
            file,
            reason: None,
        }
    }
}

impl fmt::Display for Failure {
    fn fmt<W: fmt::Write>(&self, f: &mut fmt::Formatter<W>) -> fmt::Result {
        let Failure { refusal, file, .. } = self;
        match &self.reason {
            Some(reason) => write!(f, "{refusal} {file}: {reason}"),
            None => write!(f, "{refusal} {file}"),
        }
    }
}
