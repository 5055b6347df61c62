ghost use Rattle.std.specs.Prelude.{◌≡◌, ◌++◌, [], IfErr, OnErr, OnOk};
ghost use Rattle.std.specs.IoError.{error_kind};
ghost use Rattle.sockets.specs.Memory.{kept_by};

use crate::Outgoing;
use std::alloc::Global;
use std::io;
use std::io::ErrorKind;

/// A client in memory, which keeps what it takes.
#[derive(Drop)]
pub struct Kept {
    bytes: Vec<u8>,
}

impl Kept {
    /// It has taken nothing.
    pub fn new(alloc: Global) -> Kept
        ensures { kept_by result ≡ [] }
    {
        Kept {
            bytes: Vec::new(alloc),
        }
    }

    /// All that it took.
    pub fn bytes(&self) -> &[u8]
        ensures { result.now ≡ kept_by self.now }
    {
        self.bytes.as_slice()
    }
}

impl Outgoing for Kept {
    ghost took = { kept_by };

    /// Where there is no memory, nothing more is kept.
    fn write_piece(&mut self, bytes: &[u8]) -> io::Result<()>
        ensures all { OnOk result (kept_by self.new ≡ kept_by self.old ++ bytes.now) }
        ensures none { OnErr result (kept_by self.new ≡ kept_by self.old) }
        ensures memory { IfErr result (λ e. error_kind e ≡ ErrorKind.OutOfMemory) }
    {
        self.bytes.extend_from_slice(bytes)?;
        Ok(())
    }
}
