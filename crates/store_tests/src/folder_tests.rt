// What no clause says: the files, their bytes, and what is printed of a refusal.
ghost use Rattle.std.specs.Prelude.{◌≡◌, ◌≤◌};

use crate::comparing::{prints, same, same_at};
use crate::folders::{new_folder, path};
use disk_model::{Cut, Disk, DiskError, Event, FileDisk, MemDisk, Script};
use folder::{Failure, FileName, FolderDisks, Layout, Opened, Refusal, format, open, restart};
use gate_journal::{PAIR_SIZE, Slot};
use home_blocks::Version;
use local_store::{Store, StoreLike};
use std::alloc::Global;
use std::fs::{self, File, Files};
use std::process::{self, Abort};
use std::string::String;

// What the configuration's disk begins with behind a formatting for three members.
const FIRST: [u8; 61] =
    *b"\x01\0\0\0\0\0\0\0\x01\0\0\0\x30CRAQCONF\x00\x00\x00\x01\x00\x00\x00\x00\x00\x00\x00\x01\x03\x00\x00\x00\x00\x00\x00\x00\x00\x01\x01\x00\x00\x00\x00\x00\x00\x00\x01\x02\x00\x00\x00\x00\x00\x00\x00\x01";

// What goes on from a folder, where it may alone if others are recorded, or why nothing does.
fn gone_on<R: Files<File = File> + AllocGlobal>(
    rt: &R,
    dir: &str,
    alone: bool,
) -> Result<Opened<FileDisk>, Failure> {
    let FolderDisks {
        config,
        slots,
        disks,
    } = open(rt, dir)?;
    match restart(rt.alloc(), config, disks, alone) {
        Ok(opened) => Ok(opened),
        Err(refused) => Err(refused.failure(&slots)),
    }
}

// Source, front and epoch of a folder that is opened.
fn opened<R: Files<File = File> + AllocGlobal + Abort>(
    rt: &R,
    dir: &str,
    alone: bool,
) -> (u8, u64, u64) {
    let opened = gone_on(rt, dir, alone).expect(rt, "the folder opens");
    (
        opened.source().number(),
        opened.front(),
        opened.epoch().number(),
    )
}

// Why a folder isn't opened, where nothing may go on alone if others are recorded.
fn failure<R: Files<File = File> + AllocGlobal + Abort>(rt: &R, dir: &str) -> Failure {
    gone_on(rt, dir, false).err().expect(rt, "a failure")
}

// The folder isn't formatted, and so it is told.
fn not_formatted<R: Files<File = File> + AllocGlobal + Abort>(
    rt: &R,
    dir: &str,
    layout: Layout,
    text: &str,
) {
    let failure = format(rt, dir, layout).err().expect(rt, "a failure");
    prints(rt, rt.alloc(), &failure, text);
}

#[test]
fn a_folder_of_three(rt: HostRuntime) {
    let folder = new_folder(&rt, process::id(rt.process()), "three");
    let dir = folder.as_str();
    let layout = Layout::new(8, 4_096, 8_214, 3).expect(&rt, "a layout");
    assert!(rt; format(&rt, dir, layout).is_ok());
    let path = path(&rt, dir, "config.disk");
    let config = fs::read(&rt, path.as_str()).expect(&rt, "the file's bytes");
    same(&rt, config.len(), PAIR_SIZE as usize);
    same(&rt, config.starts_with(&FIRST), true);
    let mut names = 0_u8;
    for entry in fs::read_dir(&rt, dir).expect(&rt, "the folder's entries") {
        let entry = entry.expect(&rt, "an entry");
        let len = entry.metadata().expect(&rt, "a file").len();
        same_at(&rt, len == 8_192 || len == 57_388, true, len);
        names = names.saturating_add(1);
    }
    same(&rt, names, 4);
    same(&rt, opened(&rt, dir, true), (0, 0, 2));
    same(&rt, opened(&rt, dir, true), (0, 0, 3));
    fs::remove_dir_all(&rt, dir).expect(&rt, "the folder is removed");
}

#[test]
fn others_are_left_out_only_where_asked(rt: HostRuntime) {
    let folder = new_folder(&rt, process::id(rt.process()), "others");
    let dir = folder.as_str();
    let layout = Layout::new(8, 4_096, 8_214, 2).expect(&rt, "a layout");
    format(&rt, dir, layout).expect(&rt, "the folder is formatted");
    let path = path(&rt, dir, "config.disk");
    let before = fs::read(&rt, path.as_str()).expect(&rt, "the record");
    prints(
        &rt,
        rt.alloc(),
        &failure(&rt, dir),
        "193 OthersRecorded config.disk",
    );
    let refused = failure(&rt, dir);
    same(
        &rt,
        (refused.refusal, refused.file),
        (Refusal::OthersRecorded, FileName::Config),
    );
    same(&rt, refused.refusal.number(), Some(193));
    let after = fs::read(&rt, path.as_str()).expect(&rt, "the record");
    same(&rt, before.as_slice() == after.as_slice(), true);
    same(&rt, opened(&rt, dir, true), (0, 0, 2));
    same(&rt, opened(&rt, dir, false), (0, 0, 3));
    fs::remove_dir_all(&rt, dir).expect(&rt, "the folder is removed");
}

#[test]
fn nothing_is_overwritten(rt: HostRuntime) {
    let folder = new_folder(&rt, process::id(rt.process()), "kept");
    let dir = folder.as_str();
    let layout = Layout::new(8, 4_096, 8_214, 2).expect(&rt, "a layout");
    let last = path(&rt, dir, "slot1.disk");
    fs::write(&rt, last.as_str(), "kept").expect(&rt, "the file is written");
    not_formatted(
        &rt,
        dir,
        layout,
        "104 FileFault slot1.disk: entity already exists",
    );
    let mut names = 0_u8;
    for entry in fs::read_dir(&rt, dir).expect(&rt, "the folder's entries") {
        let _entry = entry.expect(&rt, "an entry");
        names = names.saturating_add(1);
    }
    same(&rt, names, 1);
    let kept = fs::read_to_string(&rt, last.as_str()).expect(&rt, "the file's text");
    same(&rt, kept.as_str(), "kept");
    fs::remove_dir_all(&rt, dir).expect(&rt, "the folder is removed");
}

#[test]
fn what_is_refused(rt: HostRuntime) {
    let folder = new_folder(&rt, process::id(rt.process()), "refused");
    let dir = folder.as_str();
    let text = "104 FileFault config.disk: No such file or directory (os error 2)";
    prints(&rt, rt.alloc(), &failure(&rt, dir), text);
    let layout = Layout::new(8, 4_096, 8_214, 1).expect(&rt, "a layout");
    format(&rt, dir, layout).expect(&rt, "the folder is formatted");
    let held = gone_on(&rt, dir, false).expect(&rt, "the folder opens");
    let locked = failure(&rt, dir);
    same(
        &rt,
        (locked.refusal, locked.file),
        (Refusal::FileFault, FileName::Config),
    );
    drop(held);
    same(&rt, opened(&rt, dir, false), (0, 0, 3));
    let path = path(&rt, dir, "slot0.disk");
    fs::remove_file(&rt, path.as_str()).expect(&rt, "the file is removed");
    same(&rt, failure(&rt, dir).refusal.number(), Some(191));
    fs::remove_dir_all(&rt, dir).expect(&rt, "the folder is removed");
}

// The place of the version's last byte in the first superblock of a file.
const VERSION: usize = 24;

#[test]
fn a_disk_of_version_one_goes_on(rt: HostRuntime) {
    let folder = new_folder(&rt, process::id(rt.process()), "one");
    let dir = folder.as_str();
    let layout = Layout::new(8, 4_096, 8_214, 1).expect(&rt, "a layout");
    format(&rt, dir, layout).expect(&rt, "the folder is formatted");
    let path = path(&rt, dir, "slot0.disk");
    let mut bytes = fs::read(&rt, path.as_str()).expect(&rt, "the file's bytes");
    same(&rt, bytes.get(VERSION).copied(), Some(2));
    if let Some(version) = bytes.get_mut(VERSION) {
        *version = 1;
    }
    fs::write(&rt, path.as_str(), &bytes).expect(&rt, "the file is written");
    let FolderDisks { config, disks, .. } = open(&rt, dir).expect(&rt, "the folder's disks");
    let Ok(mut opened) = restart(rt.alloc(), config, disks, false) else {
        panic!(&rt; "no chain")
    };
    same(&rt, opened.store.version(), Version::One);
    opened.migrate().expect(&rt, "the disk is migrated");
    same(&rt, opened.store.version(), Version::Two);
    drop(opened);
    let again = gone_on(&rt, dir, false).expect(&rt, "the folder opens");
    same(&rt, again.store.version(), Version::Two);
    same(&rt, (again.front(), again.epoch().number()), (0, 3));
    drop(again);
    fs::remove_dir_all(&rt, dir).expect(&rt, "the folder is removed");
}

#[test]
fn layouts(rt: HostRuntime) {
    for (blocks, max_payload, area, members, number) in &[
        (0, 0, 0, 0, Some(111)),
        (8, 0, 0, 0, Some(112)),
        (8, 4_096, 8_213, 0, Some(113)),
        (8, 4_096, 8_214, 0, Some(163)),
        (8, 4_096, 8_214, 9, Some(163)),
        (8, 4_096, 8_214, 8, None),
    ] {
        let refusal = Layout::new(*blocks, *max_payload, *area, *members).err();
        same(&rt, refusal.and_then(|refusal| refusal.number()), *number);
    }
}
