// A file of the system, and how a disk takes hold of it.
ghost use Rattle.std.specs.Prelude.{◌≡◌, List, [], ◌∷◌, ◌++◌, length, true, is_ok, OnOk};
ghost use Rattle.disk_model.specs.RawFile.{Call, GoesOn, IsFilled, IsLockedFirst, IsZeroed, locks, reads, syncs_all, syncs_data, writes};

use std::fs::File;
use std::io;
use std::os::unix::fs::FileExt;

/// The bytes that `fill` writes at once.
const CHUNK: usize = 4_096;

/// A file of the system, as a disk uses it. What is asked of it is told under the premise `is_logged`, which nobody can prove
/// of a real file: what is built on it is proved of every file that keeps a log.
///
/// What this can't say: that the system does what it is asked, that std's call of the same name is the one behind each method
/// of `File`, and that `open` and `create` hand the file that they opened to what takes its lock. These are a line each, to be
/// read.
pub trait RawFile {
    /// The premise: a file of this kind keeps a log of what it is asked.
    ghost is_logged: { Type 0 };

    /// What it was asked, in turn, and whether it did it.
    ghost asked: { Self → List Call };

    /// Reads as many bytes as there is room for, from `at` on.
    fn read_exact_at(&mut self, bytes: &mut [u8], at: u64) -> io::Result<()>
        ensures { is_logged → asked self.new ≡ asked self.old ++ reads at (length bytes.old) (is_ok result) ∷ [] };

    /// Writes all of these bytes, from `at` on.
    fn write_all_at(&mut self, bytes: &[u8], at: u64) -> io::Result<()>
        ensures { is_logged → asked self.new ≡ asked self.old ++ writes at bytes.now (is_ok result) ∷ [] };

    /// Makes its bytes durable.
    fn sync_data(&mut self) -> io::Result<()>
        ensures { is_logged → asked self.new ≡ asked self.old ++ syncs_data (is_ok result) ∷ [] };

    /// Makes its bytes durable, and all that the system knows of it.
    fn sync_all(&mut self) -> io::Result<()>
        ensures { is_logged → asked self.new ≡ asked self.old ++ syncs_all (is_ok result) ∷ [] };

    /// Takes its exclusive lock. `WouldBlock` where another has it.
    fn try_lock(&mut self) -> io::Result<()>
        ensures { is_logged → asked self.new ≡ asked self.old ++ locks (is_ok result) ∷ [] };
}

impl RawFile for File {
    ghost is_logged = { ⊥ };

    ghost asked = { λ _. [] };

    fn read_exact_at(&mut self, bytes: &mut [u8], at: u64) -> io::Result<()> {
        FileExt::read_exact_at(self, bytes, at)
    }

    fn write_all_at(&mut self, bytes: &[u8], at: u64) -> io::Result<()> {
        FileExt::write_all_at(self, bytes, at)
    }

    fn sync_data(&mut self) -> io::Result<()> {
        File::sync_data(self)
    }

    fn sync_all(&mut self) -> io::Result<()> {
        File::sync_all(self)
    }

    fn try_lock(&mut self) -> io::Result<()> {
        Ok(File::try_lock(self)?)
    }
}

/// Takes the lock of a file that is there, and makes durable what is in it.
pub(crate) fn claim<F: RawFile>(found: &mut F) -> io::Result<()>
    ensures locked { F.is_logged → IsLockedFirst (F.asked found.old) (F.asked found.new) }
    ensures claimed { F.is_logged → OnOk result (F.asked found.new ≡ F.asked found.old ++ locks true ∷ [] ++ syncs_all true ∷ []) }
{
    found.try_lock()?;
    found.sync_all()
}

/// Takes the lock of a new file, writes zeros from its beginning on, and makes them durable.
pub(crate) fn fill<F: RawFile>(file: &mut F, len: u64) -> io::Result<()>
    ensures locked { F.is_logged → IsLockedFirst (F.asked file.old) (F.asked file.new) }
    ensures filled { F.is_logged → OnOk result (IsFilled len (F.asked file.old) (F.asked file.new)) }
{
    file.try_lock()?;
    write_zeros(file, len)?;
    file.sync_all()
}

// Writes this many zeros from the file's beginning on.
fn write_zeros<F: RawFile>(file: &mut F, len: u64) -> io::Result<()>
    ensures zeroed { F.is_logged → OnOk result (IsZeroed 0 len (F.asked file.old) (F.asked file.new)) }
    ensures goes_on { F.is_logged → GoesOn (F.asked file.old) (F.asked file.new) }
{
    let zeros = [0; CHUNK];
    let mut at = 0;
    while at < len {
        let n = (len - at).min(CHUNK as u64);
        file.write_all_at(&zeros[..n as usize], at)?;
        at += n;
    }
    Ok(())
}
