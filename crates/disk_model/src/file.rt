// A file of fixed length. No contract can say what a file holds, so its premise is one that nobody proves.
ghost use Rattle.std.specs.Prelude.{◌≡◌, ◌+◌, ◌-◌, ◌<◌, ◌≤◌, ◌^◌, true, false, None, length, IfOk, OnOk, OnErr, if◌then◌else◌, is_ok};

use crate::raw_file::{claim, fill};
use crate::{Disk, DiskError, HalvedDisk, RawFile};
use std::fs::{File, Files, OpenOptions};
use std::io::{self, ErrorKind};
use std::os::fd::AsRawFd;
use std::os::unix::fs::MetadataExt;
use std::path::Path;

/// A file of the system, as a disk.
pub type FileDisk = FileDiskOn<File>;

/// A regular file of fixed length, as a disk. A call allocates nothing. 100 `Memory` comes only where 2^64 - 1
/// failures have been counted, and nothing is done then.
///
/// After a write or a sync that failed, each later write and sync fails too, with its own fault, and isn't made: a
/// sync of the system that failed once is told as done the next time, though its bytes are lost. A read goes on
/// working. Only opening the file again ends this.
///
/// A value holds the file's exclusive lock for as long as it lives, and so does each of its halves while its log is
/// lent. The lock is advisory: it keeps out who asks for it, as `open` and `create` do, in this process or another.
///
/// It is a disk on any `RawFile`, so that its calls say what they ask of the file: each that is made asks one thing, at
/// its own place in the file, and one that isn't made asks nothing.
#[derive(Drop)]
pub struct FileDiskOn<F> {
    file: F,
    // where the lock is another handle's, as at a log, it is kept here
    lock: Option<F>,
    // what a log is called by, while it isn't lent
    second: Option<Second<F>>,
    // its first byte in the file
    start: u64,
    len: u64,
    failures: u64,
    broken: bool,
    last_error: Option<i32>,
    ghost fits: { start + len < 2 ^ 64 },
}

// The same file, opened once more: the system tells each opened file of a failed sync, and all clones of a handle once.
#[derive(Drop)]
struct Second<F> {
    file: F,
    // a clone of the handle that has the lock
    lock: F,
}

impl Second<File> {
    // Opens the file of this path, which has to be the one that is locked.
    fn open<R: Files<File = File>>(rt: &R, path: &str, locked: &File) -> io::Result<Self> {
        let file = OpenOptions::new().read(true).write(true).open(rt, path)?;
        let (here, there) = (locked.metadata()?, file.metadata()?);
        if here.dev() != there.dev() || here.ino() != there.ino() {
            return Err(io::Error::new(ErrorKind::InvalidInput, "not the file that was locked"));
        }
        let lock = locked.try_clone()?;
        Ok(Second { file, lock })
    }
}

/// Where the two halves of a file's disk belong.
#[derive(Drop)]
pub struct FilePast {
    start: u64,
    border: u64,
    len: u64,
    ghost fits: { start + len < 2 ^ 64 },
}

impl FileDiskOn<File> {
    ghost use Rattle.disk_model.specs.File.{file_len, file_lends, IsNewlyOpened};

    /// Opens a regular file that is there, as long as it is now. Each error is the system's, but for `InvalidInput`
    /// at what is no regular file, or where the path leads to another file meanwhile; `WouldBlock` comes where another
    /// value holds its lock.
    ///
    /// What an earlier process left in the system's cache is made durable before the first read, and dropped from
    /// there where the system does so: after a sync that failed, the cache may hold bytes that the disk hasn't.
    pub fn open<R: Files<File = File>>(rt: &R, path: &str) -> io::Result<Self>
        ensures new { IfOk result IsNewlyOpened }
        ensures lends { IfOk result (λ disk. file_lends disk ≡ true) }
    {
        let mut file = OpenOptions::new().read(true).write(true).open(rt, path)?;
        if !file.metadata()?.is_file() {
            return Err(io::Error::new(ErrorKind::InvalidInput, "not a regular file"));
        }
        claim(&mut file)?;
        // Advice: where the system doesn't follow it, the file is read as it is cached.
        let _ = libc::posix_fadvise(file.as_raw_fd(), 0, 0, libc::POSIX_FADV_DONTNEED);
        let len = file.metadata()?.len();
        let second = Second::open(rt, path, &file)?;
        Ok(FileDisk::with_second(file, second, len))
    }

    /// Makes a new file of `len` zeros, which is durable, and so is its name in its folder. Its bytes are written, so
    /// that no later write finds the device full. A file that is there already is an error; each is the system's, but for
    /// `InvalidInput` as at `open`. After an error the file may be there, shorter.
    pub fn create<R: Files<File = File>>(rt: &R, path: &str, len: u64) -> io::Result<Self>
        ensures len { IfOk result (λ disk. file_len disk ≡ len) }
        ensures new { IfOk result IsNewlyOpened }
        ensures lends { IfOk result (λ disk. file_lends disk ≡ true) }
    {
        let mut file = File::create_new(rt, path)?;
        fill(&mut file, len)?;
        File::open(rt, folder_of(path))?.sync_all()?;
        let second = Second::open(rt, path, &file)?;
        Ok(FileDisk::with_second(file, second, len))
    }

    /// Asks the system to read the whole file into its cache, in the background, so that first reads needn't wait for the device. It is
    /// advice, which changes nothing that a call gives.
    pub fn read_ahead(&self) {
        let _ = libc::posix_fadvise(self.file.as_raw_fd(), 0, 0, libc::POSIX_FADV_WILLNEED);
    }
}

impl<F: Drop> FileDiskOn<F> {
    ghost use Rattle.std.specs.Prelude.{IfErr, not};
    ghost use Rattle.std.specs.IoError.{raw_os_error};
    ghost use Rattle.disk_model.specs.File.{file_len, file_failures, file_is_broken, file_last_error, file_lends, file_of, IsNewlyOpened, StaysThere};

    /// The system's number of the error of the last call that failed, for a log. None before the first failure, and
    /// where the system named none, as at the end of a file that was cut. A call that isn't made since an earlier one
    /// failed leaves it.
    pub fn last_error(&self) -> Option<i32>
        ensures { result ≡ file_last_error self.now }
    {
        self.last_error
    }

    /// The disk that an open file is, `len` bytes long, as if nothing had failed yet. The caller has taken its lock, and what is
    /// in it is durable. Where the file is shorter, a read behind its end fails with 101. It lends no log.
    pub fn new(file: F, len: u64) -> Self
        ensures file { file_of result ≡ file }
        ensures len { file_len result ≡ len }
        ensures new { IsNewlyOpened result }
        ensures lends { file_lends result ≡ false }
    {
        FileDiskOn {
            file,
            lock: None,
            second: None,
            start: 0,
            len,
            failures: 0,
            broken: false,
            last_error: None,
        }
    }

    // A disk that can lend its log.
    fn with_second(file: F, second: Second<F>, len: u64) -> Self
        ensures len { file_len result ≡ len }
        ensures new { IsNewlyOpened result }
        ensures lends { file_lends result ≡ true }
    {
        let mut disk = FileDiskOn::new(file, len);
        disk.second = Some(second);
        disk
    }

    // What a call of the system comes to: an error is noted and counted, and told as this fault.
    fn settle(&mut self, done: io::Result<()>, fault: DiskError) -> Result<(), DiskError>
        requires { self.old.failures < 2 ^ 64 - 1 }
        ensures told { result ≡ (if is_ok done then Ok tt else Err fault) }
        ensures len { file_len self.new ≡ file_len self.old }
        ensures failures { file_failures self.new ≡ (if is_ok done then file_failures self.old else file_failures self.old + 1) }
        ensures broken { file_is_broken self.new ≡ file_is_broken self.old }
        ensures there { StaysThere self.old self.new }
        ensures file { file_of self.new ≡ file_of self.old }
        ensures is_done { is_ok result ≡ is_ok done }
        ensures kept { OnOk done (file_last_error self.new ≡ file_last_error self.old) }
        ensures noted { IfErr done (λ e. file_last_error self.new ≡ raw_os_error e) }
    {
        match done {
            Ok(()) => Ok(()),
            Err(error) => {
                self.last_error = error.raw_os_error();
                self.fail(fault)
            }
        }
    }

    // What a write or a sync of the system comes to: after an error no other is made.
    fn latch(&mut self, done: io::Result<()>, fault: DiskError) -> Result<(), DiskError>
        requires { self.old.failures < 2 ^ 64 - 1 }
        ensures told { result ≡ (if is_ok done then Ok tt else Err fault) }
        ensures len { file_len self.new ≡ file_len self.old }
        ensures failures { file_failures self.new ≡ (if is_ok done then file_failures self.old else file_failures self.old + 1) }
        ensures broken { file_is_broken self.new ≡ not (is_ok done) }
        ensures there { StaysThere self.old self.new }
        ensures file { file_of self.new ≡ file_of self.old }
        ensures is_done { is_ok result ≡ is_ok done }
        ensures kept { OnOk done (file_last_error self.new ≡ file_last_error self.old) }
        ensures noted { IfErr done (λ e. file_last_error self.new ≡ raw_os_error e) }
    {
        self.broken = done.is_err();
        self.settle(done, fault)
    }

    // A failure, told as this fault.
    fn fail(&mut self, fault: DiskError) -> Result<(), DiskError>
        requires { self.old.failures < 2 ^ 64 - 1 }
        ensures told { result ≡ Err fault }
        ensures counted { self.new ≡ record self.old { failures = self.old.failures + 1 } }
    {
        self.failures += 1;
        Err(fault)
    }
}

// The folder that a file of this path lies in.
fn folder_of(path: &str) -> &str {
    match Path::new(path).parent() {
        Some(folder) if !folder.as_str().is_empty() => folder.as_str(),
        _ => ".",
    }
}

impl<F: RawFile + Drop> Disk for FileDiskOn<F> {
    ghost use Rattle.std.specs.Prelude.{◌≡◌, ◌⊎◌, ◌↔◌, ◌+◌, ◌-◌, ◌^◌, ◌≤◌, [], ◌∷◌, ◌++◌, length, IsTrue, IsErr, OnOk, IsErrOf};
    ghost use Rattle.disk_model.specs.Error.{HasCause};
    ghost use Rattle.disk_model.specs.File.{file_len, file_failures, file_most_failures, file_is_broken, file_last_error, file_of, file_start, IsAtRest, StaysThere};
    ghost use Rattle.disk_model.specs.RawFile.{reads, writes, syncs_data};
    ghost use Rattle.disk_model.specs.Counts.{within_counted};

    ghost keeps_model = { ⊥ };

    ghost size = { file_len };

    ghost gives = { λ _. [] };

    ghost may_leave_now = { λ _ _. Unit {0} };

    ghost moment = { λ _. 0 };

    ghost may_have_left_since = { λ _ _ _. Unit {0} };

    ghost failures = { file_failures };

    ghost most_failures = { file_most_failures };

    // A file's disk counts none.
    ghost calls_made = { λ _. 0 };

    ghost within_most = { λ d. within_counted d.failures };

    ghost gives_size = { λ no. absurd no };

    ghost leaves_size = { λ no. absurd no };

    ghost leaves_gives = { λ no. absurd no };

    ghost counts_now = { λ no. absurd no };

    ghost only_now = { λ no. absurd no };

    fn len(&self) -> u64 {
        self.len
    }

    fn read(&mut self, at: u64, bytes: &mut [u8]) -> Result<(), DiskError>
        requires { at + length bytes.old ≤ file_len self.old }
        ensures size { file_len self.new ≡ file_len self.old }
        ensures counted { OnOk result (file_failures self.new ≡ file_failures self.old) }
        ensures memory { IsErrOf result DiskError.Memory ↔ (file_failures self.old ≡ 2 ^ 64 - 1) }
        ensures cause { HasCause DiskError.ReadFault (file_failures self.old) (file_failures self.new) result }
        ensures most { file_most_failures self.new ≤ file_most_failures self.old }
        ensures there { StaysThere self.old self.new }
        ensures latch { file_is_broken self.new ≡ file_is_broken self.old }
        ensures kept { OnOk result (file_last_error self.new ≡ file_last_error self.old) }
        ensures asked { F.is_logged → ¬ (file_failures self.old ≡ 2 ^ 64 - 1)
            → F.asked (file_of self.new) ≡ F.asked (file_of self.old) ++ reads (file_start self.old + at) (length bytes.old) (is_ok result) ∷ [] }
        ensures unasked { F.is_logged → file_failures self.old ≡ 2 ^ 64 - 1 → F.asked (file_of self.new) ≡ F.asked (file_of self.old) }
    {
        if self.failures == u64::MAX {
            return Err(DiskError::Memory);
        }
        let done = self.file.read_exact_at(bytes, self.start + at);
        self.settle(done, DiskError::ReadFault)
    }

    fn write_at(&mut self, at: u64, bytes: &[u8]) -> Result<(), DiskError>
        requires { at + length bytes.now ≤ file_len self.old }
        ensures size { file_len self.new ≡ file_len self.old }
        ensures counted { OnOk result (file_failures self.new ≡ file_failures self.old) }
        ensures memory { IsErrOf result DiskError.Memory ↔ (file_failures self.old ≡ 2 ^ 64 - 1) }
        ensures cause { HasCause DiskError.WriteFault (file_failures self.old) (file_failures self.new) result }
        ensures most { file_most_failures self.new ≤ file_most_failures self.old }
        ensures there { StaysThere self.old self.new }
        ensures latched { IsTrue (file_is_broken self.old) → IsErr result }
        ensures latch { IsTrue (file_is_broken self.new) ↔ (IsTrue (file_is_broken self.old) ⊎ IsErrOf result DiskError.WriteFault) }
        ensures kept { OnOk result (file_last_error self.new ≡ file_last_error self.old) }
        ensures unmade { IsTrue (file_is_broken self.old) → file_last_error self.new ≡ file_last_error self.old }
        ensures asked { F.is_logged → ¬ IsAtRest self.old
            → F.asked (file_of self.new) ≡ F.asked (file_of self.old) ++ writes (file_start self.old + at) bytes.now (is_ok result) ∷ [] }
        ensures unasked { F.is_logged → IsAtRest self.old → F.asked (file_of self.new) ≡ F.asked (file_of self.old) }
    {
        if self.failures == u64::MAX {
            return Err(DiskError::Memory);
        }
        if self.broken {
            return self.fail(DiskError::WriteFault);
        }
        let done = self.file.write_all_at(bytes, self.start + at);
        self.latch(done, DiskError::WriteFault)
    }

    fn sync(&mut self) -> Result<(), DiskError>
        ensures size { file_len self.new ≡ file_len self.old }
        ensures counted { OnOk result (file_failures self.new ≡ file_failures self.old) }
        ensures memory { IsErrOf result DiskError.Memory ↔ (file_failures self.old ≡ 2 ^ 64 - 1) }
        ensures cause { HasCause DiskError.SyncFault (file_failures self.old) (file_failures self.new) result }
        ensures most { file_most_failures self.new ≤ file_most_failures self.old }
        ensures there { StaysThere self.old self.new }
        ensures latched { IsTrue (file_is_broken self.old) → IsErr result }
        ensures latch { IsTrue (file_is_broken self.new) ↔ (IsTrue (file_is_broken self.old) ⊎ IsErrOf result DiskError.SyncFault) }
        ensures kept { OnOk result (file_last_error self.new ≡ file_last_error self.old) }
        ensures unmade { IsTrue (file_is_broken self.old) → file_last_error self.new ≡ file_last_error self.old }
        ensures asked { F.is_logged → ¬ IsAtRest self.old → F.asked (file_of self.new) ≡ F.asked (file_of self.old) ++ syncs_data (is_ok result) ∷ [] }
        ensures unasked { F.is_logged → IsAtRest self.old → F.asked (file_of self.new) ≡ F.asked (file_of self.old) }
    {
        if self.failures == u64::MAX {
            return Err(DiskError::Memory);
        }
        if self.broken {
            return self.fail(DiskError::SyncFault);
        }
        let done = self.file.sync_data();
        self.latch(done, DiskError::SyncFault)
    }
}

/// The log goes by a handle of its own, and each half is stopped at once by its own failed write or sync. Where there is no
/// second handle, as at a half, and only there, nothing is lent: 100 `Memory`. What is returned has to be the log that was
/// lent: no clause knows one file from another.
impl<F: RawFile + Drop> HalvedDisk for FileDiskOn<F> {
    ghost use Rattle.std.specs.Prelude.{◌≡◌, ◌⊎◌, ◌↔◌, ◌+◌, ◌≤◌, ◌<◌, max, IsTrue, IsErr, IfErr, IfSome};
    ghost use Rattle.disk_model.specs.File.{file_len, file_failures, file_most_failures, file_is_broken, file_last_error, file_of, file_start, file_lends, file_brings_lock};

    type Log = FileDiskOn<F>;

    type Past = FilePast;

    ghost left_before = { λ _ _ _. Unit {0} };

    ghost until = { λ _. 0 };

    ghost cut_at = { λ p. p.border };

    ghost whole = { λ p. p.len };

    ghost log_keeps = { λ no. absurd no };

    fn lend_log(&mut self, border: u64) -> Result<(FileDiskOn<F>, FilePast), DiskError>
        requires { border ≤ file_len self.old }
        ensures home { IfOk result (λ r. file_len self.new ≡ border) }
        ensures log { IfOk result (λ r. border + file_len r.0 ≡ file_len self.old) }
        ensures sizes { IfOk result (λ r. (r.1.border ≡ border) × (r.1.len ≡ file_len self.old)) }
        ensures failures { IfOk result (λ r. (file_failures self.new ≡ file_failures self.old) × (file_failures r.0 ≡ file_failures self.old)) }
        ensures most { IfOk result (λ r. (file_most_failures self.new ≤ file_most_failures self.old) × (file_most_failures r.0 ≤ file_most_failures self.old)) }
        // A half of what is broken is broken.
        ensures latch { IfOk result (λ r. (file_is_broken self.new ≡ file_is_broken self.old) × (file_is_broken r.0 ≡ file_is_broken self.old)) }
        ensures last_error { IfOk result (λ r. (file_last_error self.new ≡ file_last_error self.old) × (file_last_error r.0 ≡ file_last_error self.old)) }
        // Each half goes by a handle of its own: the home by the disk's, the log by the second.
        ensures files { IfOk result (λ r. (file_of self.new ≡ file_of self.old) × IfSome self.old.second (λ second. file_of r.0 ≡ second.file)) }
        // The log begins at the border. Neither half lends.
        ensures starts { IfOk result (λ r. (file_start self.new ≡ file_start self.old) × (file_start r.0 ≡ file_start self.old + border) × (r.1.start ≡ file_start self.old)) }
        ensures lends { IfOk result (λ r. (file_lends self.new ≡ false) × (file_lends r.0 ≡ false)) }
        ensures lock { IfOk result (λ r. file_brings_lock r.0 ≡ true) }
        ensures refused { IsErr result ↔ (file_lends self.old ≡ false) }
        ensures unlent { OnErr result (self.new ≡ self.old) }
        ensures err { OnErr result ((file_len self.new ≡ file_len self.old) × (file_failures self.new ≡ file_failures self.old) × (file_most_failures self.new ≤ file_most_failures self.old)) }
        ensures told { IfErr result (λ e. e ≡ DiskError.Memory) }
    {
        let Some(Second { file, lock }) = self.second.take() else {
            return Err(DiskError::Memory);
        };
        let past = FilePast {
            start: self.start,
            border,
            len: self.len,
        };
        let log = FileDiskOn {
            file,
            lock: Some(lock),
            second: None,
            start: self.start + border,
            len: self.len - border,
            failures: self.failures,
            broken: self.broken,
            last_error: self.last_error,
        };
        self.len = border;
        Ok((log, past))
    }

    fn return_log(&mut self, log: FileDiskOn<F>, past: FilePast)
        requires home { file_len self.old ≡ past.border }
        requires log { past.border + file_len log ≡ past.len }
        ensures size { file_len self.new ≡ past.len }
        ensures failures { file_failures self.new ≡ max (file_failures self.old) (file_failures log) }
        ensures most { file_most_failures self.new ≤ max (file_most_failures self.old) (file_most_failures log) }
        ensures files { (file_of self.new ≡ file_of self.old) × IfSome self.new.second (λ second. second.file ≡ file_of log) }
        ensures start { file_start self.new ≡ past.start }
        // It can lend again, where the log has its lock with it.
        ensures lends { file_lends self.new ≡ file_brings_lock log }
        // A failed write or sync of either half stops both.
        ensures latch { IsTrue (file_is_broken self.new) ↔ (IsTrue (file_is_broken self.old) ⊎ IsTrue (file_is_broken log)) }
        // The error is the home's, unless the log has failed more often.
        ensures home_error { file_failures log ≤ file_failures self.old → file_last_error self.new ≡ file_last_error self.old }
        ensures log_error { file_failures self.old < file_failures log → file_last_error self.new ≡ file_last_error log }
    {
        let FileDiskOn {
            file,
            lock,
            failures,
            broken,
            last_error,
            ..
        } = log;
        self.second = match lock {
            Some(lock) => Some(Second { file, lock }),
            None => None,
        };
        self.start = past.start;
        self.len = past.len;
        if self.failures < failures {
            self.failures = failures;
            self.last_error = last_error;
        }
        self.broken = self.broken || broken;
    }
}
