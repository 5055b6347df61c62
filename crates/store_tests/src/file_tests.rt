// What no contract can say: what a file of the system holds.
use crate::comparing::{same, same_at};
use crate::disks::new_disk;
use crate::folders::{new_folder, path};
use disk_model::{Disk, DiskError, FileDisk};
use std::fs::{self, File, OpenOptions};
use std::io::{self, ErrorKind};
use std::process::{self, Abort};

const DONE: Result<(), DiskError> = Ok(());

// Three pages and seven bytes.
const SIZE: u64 = 12_295;

#[derive(Clone, Copy, Debug)]
enum Call {
    Write { at: u64, len: usize },
    Read { at: u64, len: usize },
    Sync,
}

// Places and lengths at the edges of bytes, sectors and pages, and across them.
const CALLS: [Call; 18] = [
    Call::Read { at: 0, len: 12_295 },
    Call::Write { at: 0, len: 1 },
    Call::Write { at: 511, len: 2 },
    Call::Write { at: 512, len: 512 },
    Call::Read { at: 510, len: 516 },
    Call::Sync,
    Call::Write { at: 4_095, len: 2 },
    Call::Write {
        at: 4_096,
        len: 4_096,
    },
    Call::Read { at: 4_000, len: 97 },
    Call::Write { at: 1, len: 8_191 },
    Call::Write { at: 12_294, len: 1 },
    Call::Write { at: 12_295, len: 0 },
    Call::Read { at: 12_295, len: 0 },
    Call::Sync,
    Call::Write {
        at: 5_000,
        len: 7_295,
    },
    Call::Write { at: 4_090, len: 13 },
    Call::Read {
        at: 4_087,
        len: 4_099,
    },
    Call::Read { at: 0, len: 12_295 },
];

// Bytes that tell their places, beginning with this one.
fn fill(bytes: &mut [u8], first: u8) {
    let mut next = first;
    for byte in bytes.iter_mut() {
        *byte = next;
        next = next.wrapping_mul(5).wrapping_add(3);
    }
}

// The call, at a place that lies within the disk: a write's bytes begin with `first`, a read's are put out.
fn play<D: Disk>(
    disk: &mut D,
    call: Call,
    bytes: &mut [u8],
    first: u8,
) -> Option<Result<(), DiskError>> {
    let size = disk.len();
    let (at, len) = match call {
        Call::Write { at, len } | Call::Read { at, len } => (at, len),
        Call::Sync => return Some(disk.sync()),
    };
    if len > bytes.len() || at > size || len as u64 > size - at {
        return None;
    }
    if let Call::Read { .. } = call {
        return Some(disk.read(at, &mut bytes[..len]));
    }
    fill(bytes, first);
    Some(disk.write_at(at, &bytes[..len]))
}

// The same call on both disks tells the same and reads the same bytes.
fn is_alike<D: Disk, E: Disk>(
    rt: &(impl AllocGlobal + Abort),
    file: &mut D,
    memory: &mut E,
    call: Call,
    first: u8,
) {
    let mut in_file = vec![in rt.alloc(); 0; SIZE as usize].expect(rt, "memory");
    let mut in_memory = vec![in rt.alloc(); 0; SIZE as usize].expect(rt, "memory");
    same_at(rt, play(file, call, &mut in_file, first), Some(DONE), call);
    same_at(
        rt,
        play(memory, call, &mut in_memory, first),
        Some(DONE),
        call,
    );
    same_at(rt, in_file.as_slice(), in_memory.as_slice(), call);
}

#[test]
fn files_read_as_memory_does(rt: HostRuntime) {
    let folder = new_folder(&rt, process::id(rt.process()), "calls");
    let path = path(&rt, folder.as_str(), "disk");
    let mut memory = new_disk(&rt, rt.alloc(), SIZE);
    let mut file = FileDisk::create(&rt, path.as_str(), SIZE).expect(&rt, "a new file");
    let mut first = 1_u8;
    for call in CALLS {
        is_alike(&rt, &mut file, &mut memory, call, first);
        first = first.wrapping_add(40);
    }
    drop(file);
    let mut again = FileDisk::open(&rt, path.as_str()).expect(&rt, "the file");
    same(&rt, (again.len(), again.last_error()), (SIZE, None));
    let all = Call::Read {
        at: 0,
        len: SIZE as usize,
    };
    is_alike(&rt, &mut again, &mut memory, all, 0);
    drop(again);
    fs::remove_dir_all(&rt, folder.as_str()).expect(&rt, "the folder is removed");
}

fn kind_of(opened: io::Result<FileDisk>) -> Option<ErrorKind> {
    opened.err().map(|error| error.kind())
}

#[test]
fn what_is_no_disk_is_refused(rt: HostRuntime) {
    let folder = new_folder(&rt, process::id(rt.process()), "refused");
    let path = path(&rt, folder.as_str(), "disk");
    let held = FileDisk::create(&rt, path.as_str(), 6).expect(&rt, "a new file");
    for (name, kind) in [
        (path.as_str(), ErrorKind::WouldBlock),
        (folder.as_str(), ErrorKind::IsADirectory),
        ("/dev/null", ErrorKind::InvalidInput),
        ("/dev/null/none", ErrorKind::NotADirectory),
    ] {
        same_at(&rt, kind_of(FileDisk::open(&rt, name)), Some(kind), name);
    }
    let made = FileDisk::create(&rt, path.as_str(), 6);
    same(&rt, kind_of(made), Some(ErrorKind::AlreadyExists));
    drop(held);
    // The lock goes with the value that held it.
    same(&rt, kind_of(FileDisk::open(&rt, path.as_str())), None);
    fs::remove_dir_all(&rt, folder.as_str()).expect(&rt, "the folder is removed");
}

const WRITE: Call = Call::Write { at: 1, len: 3 };

const READ: Call = Call::Read { at: 1, len: 3 };

const EBADF: i32 = 9;

const EINVAL: i32 = 22;

// The disk tells this of each call, one after another.
fn tells(
    rt: &impl Abort,
    file: &mut FileDisk,
    bytes: &mut [u8],
    calls: &[(Call, Result<(), DiskError>)],
) {
    for (call, told) in calls {
        same_at(rt, play(file, *call, bytes, 1), Some(*told), *call);
    }
}

// A file that is open for reading alone takes no write.
#[test]
fn a_failed_call_is_not_forgotten(rt: HostRuntime) {
    let folder = new_folder(&rt, process::id(rt.process()), "latch");
    let path = path(&rt, folder.as_str(), "disk");
    drop(FileDisk::create(&rt, path.as_str(), 6).expect(&rt, "a new file"));
    let mut bytes = [9; 3];
    let only_read = File::open(&rt, path.as_str()).expect(&rt, "the file");
    let mut file = FileDisk::new(only_read, 6);
    tells(&rt, &mut file, &mut bytes, &[(Call::Sync, DONE)]);
    same(&rt, file.last_error(), None);
    for told in [
        (WRITE, Err(DiskError::WriteFault)),
        (Call::Sync, Err(DiskError::SyncFault)),
        (WRITE, Err(DiskError::WriteFault)),
        (READ, DONE),
    ] {
        tells(&rt, &mut file, &mut bytes, &[told]);
        same_at(&rt, file.last_error(), Some(EBADF), told.0);
    }
    same(&rt, bytes, [0; 3]);
    fs::remove_dir_all(&rt, folder.as_str()).expect(&rt, "the folder is removed");
}

// /dev/null takes writes, and no sync.
#[test]
fn a_failed_sync_is_not_forgotten(rt: HostRuntime) {
    let null = OpenOptions::new().write(true).open(&rt, "/dev/null");
    let mut file = FileDisk::new(null.expect(&rt, "/dev/null"), 6);
    let calls = [
        (WRITE, DONE),
        (Call::Sync, Err(DiskError::SyncFault)),
        (WRITE, Err(DiskError::WriteFault)),
        (Call::Sync, Err(DiskError::SyncFault)),
    ];
    tells(&rt, &mut file, &mut [9; 3], &calls);
    same(&rt, file.last_error(), Some(EINVAL));
}

// The file is cut behind the disk's back: no short read is told as a whole one, and the next that is there is done.
#[test]
fn a_short_file_is_a_fault(rt: HostRuntime) {
    let folder = new_folder(&rt, process::id(rt.process()), "short");
    let path = path(&rt, folder.as_str(), "disk");
    let mut file = FileDisk::create(&rt, path.as_str(), 6).expect(&rt, "a new file");
    let cut = OpenOptions::new().write(true).open(&rt, path.as_str());
    cut.expect(&rt, "the file")
        .set_len(4)
        .expect(&rt, "a shorter file");
    let behind = (Call::Read { at: 2, len: 3 }, Err(DiskError::ReadFault));
    let mut bytes = [9; 3];
    tells(&rt, &mut file, &mut bytes, &[behind]);
    same(&rt, file.last_error(), None);
    tells(&rt, &mut file, &mut bytes, &[(READ, DONE)]);
    same(&rt, bytes, [0; 3]);
    fs::remove_dir_all(&rt, folder.as_str()).expect(&rt, "the folder is removed");
}
