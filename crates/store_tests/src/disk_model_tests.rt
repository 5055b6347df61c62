// A small caller over any disk, and what no clause says.
ghost use Rattle.std.specs.Prelude.{◌≡◌, ◌+◌, ◌≤◌, length, OnOk};
ghost use Rattle.disk_model.specs.Disk.{LeavesOnly, Only, Torn};

use crate::comparing::{prints, same, same_at};
use crate::disks::new_disk;
use disk_model::{Cut, Disk, DiskError, Event, MemDisk, Part, Script};

// Writes, syncs and reads back. A stop at any moment of it leaves all but the range as it was.
fn write_through<D: Disk>(
    disk: &mut D,
    at: u64,
    bytes: &[u8],
    back: &mut [u8],
) -> Result<(), DiskError>
    requires range { at + length bytes.now ≤ D.size disk.old }
    requires room { length back.old ≡ length bytes.now }
    requires settled { D.keeps_model → Only (D.gives disk.old) (D.may_leave_now disk.old) }
    ensures size { D.size disk.new ≡ D.size disk.old }
    ensures durable { D.keeps_model → OnOk result (Only (D.gives disk.new) (D.may_leave_now disk.new)) }
    ensures read_back { D.keeps_model → OnOk result (back.new ≡ bytes.now) }
    ensures any_moment { D.keeps_model → LeavesOnly D.moment D.may_have_left_since disk.old disk.new
        (Torn at (length bytes.now) (D.gives disk.old)) }
{
    disk.write_at(at, bytes)?;
    disk.sync()?;
    disk.read(at, back)
}

const DONE: Result<(), DiskError> = Ok(());

const STOPPED: Result<(), DiskError> = Err(DiskError::Stopped);

// What is to happen to five calls on four zeros (1, 2 from byte 0 on; a sync; 3, 4 from byte 1 on; a read; a sync),
// what they answer, what is there in the end, and what a cut leaves that leaves nothing unsynced.
const RUNS: [(Event, [Result<(), DiskError>; 5], [u8; 4], [u8; 4]); 12] = [
    (
        Event::FailAt { call: 0 },
        [DONE; 5],
        [1, 3, 4, 0],
        [1, 3, 4, 0],
    ),
    (
        Event::FailAt { call: 1 },
        [Err(DiskError::WriteFault), DONE, DONE, DONE, DONE],
        [0, 3, 4, 0],
        [0, 3, 4, 0],
    ),
    (
        Event::FailAt { call: 2 },
        [DONE, Err(DiskError::SyncFault), DONE, DONE, DONE],
        [1, 3, 4, 0],
        [1, 3, 4, 0],
    ),
    (
        Event::FailAt { call: 3 },
        [DONE, DONE, Err(DiskError::WriteFault), DONE, DONE],
        [1, 2, 0, 0],
        [1, 2, 0, 0],
    ),
    (
        Event::FailAt { call: 4 },
        [DONE, DONE, DONE, Err(DiskError::ReadFault), DONE],
        [1, 3, 4, 0],
        [1, 3, 4, 0],
    ),
    (
        Event::FailAt { call: 5 },
        [DONE, DONE, DONE, DONE, Err(DiskError::SyncFault)],
        [1, 3, 4, 0],
        [1, 0xff, 0xff, 0],
    ),
    (
        Event::StopAt { call: 1, bytes: 1 },
        [STOPPED; 5],
        [1, 0, 0, 0],
        [0xff, 0xff, 0, 0],
    ),
    (
        Event::StopAt { call: 2, bytes: 1 },
        [DONE, STOPPED, STOPPED, STOPPED, STOPPED],
        [1, 2, 0, 0],
        [0xff, 0xff, 0, 0],
    ),
    (
        Event::StopAt { call: 3, bytes: 0 },
        [DONE, DONE, STOPPED, STOPPED, STOPPED],
        [1, 2, 0, 0],
        [1, 0xff, 0xff, 0],
    ),
    (
        Event::StopAt { call: 3, bytes: 9 },
        [DONE, DONE, STOPPED, STOPPED, STOPPED],
        [1, 3, 4, 0],
        [1, 0xff, 0xff, 0],
    ),
    (
        Event::StopAt { call: 4, bytes: 9 },
        [DONE, DONE, DONE, STOPPED, STOPPED],
        [1, 3, 4, 0],
        [1, 0xff, 0xff, 0],
    ),
    (
        Event::StopAt { call: 6, bytes: 0 },
        [DONE; 5],
        [1, 3, 4, 0],
        [1, 3, 4, 0],
    ),
];

// The five calls, and what they answer.
fn play<D: Disk>(disk: &mut D) -> [Result<(), DiskError>; 5]
    requires { D.size disk.old ≡ 4 }
{
    [
        disk.write_at(0, &[1, 2]),
        disk.sync(),
        disk.write_at(1, &[3, 4]),
        disk.read(0, &mut [0; 4]),
        disk.sync(),
    ]
}

#[test]
fn runs(rt: HostRuntime) {
    let alloc = rt.alloc();
    for (event, answers, there, none) in &RUNS {
        let mut script = Script::new(alloc);
        script.push(*event).expect(&rt, "memory");
        let mut disk = MemDisk::new(alloc, 4, script).expect(&rt, "memory");
        same_at(&rt, disk.bytes(), [0; 4].as_slice(), event);
        same_at(&rt, play(&mut disk), *answers, event);
        same_at(&rt, disk.bytes(), there.as_slice(), event);
        disk.cut(Cut::None);
        same_at(&rt, disk.bytes(), none.as_slice(), event);
    }
}

fn play_ranges<D: Disk>(disk: &mut D, back: &mut [u8; 6]) -> [Result<(), DiskError>; 5]
    requires { D.size disk.old ≡ 6 }
{
    [
        disk.write_at(0, &[1, 2, 3]),
        disk.write_at(2, &[4, 5]),
        disk.write_at(4, &[6]),
        disk.write_at(6, &[]),
        disk.read(0, back),
    ]
}

// Ranges that overlap, adjoin and are empty.
#[test]
fn ranges(rt: HostRuntime) {
    let mut disk = new_disk(&rt, rt.alloc(), 6);
    let mut back = [0; 6];
    let told = play_ranges(&mut disk, &mut back);
    same(&rt, told, [DONE; 5]);
    same(&rt, back, [1, 2, 4, 5, 6, 0]);
    same(&rt, disk.bytes(), back.as_slice());
}

// Entries at one call, counted from now: the later stop is met, and what a cut leaves of the script counts on.
#[test]
fn entries(rt: HostRuntime) {
    let mut disk = new_disk(&rt, rt.alloc(), 2);
    same(&rt, disk.sync(), DONE);
    disk.arm(Event::StopAt { call: 1, bytes: 0 })
        .expect(&rt, "memory");
    disk.arm(Event::StopAt { call: 1, bytes: 1 })
        .expect(&rt, "memory");
    disk.arm(Event::FailAt { call: 1 }).expect(&rt, "memory");
    disk.arm(Event::FailAt { call: 2 }).expect(&rt, "memory");
    same(&rt, disk.write_at(0, &[7, 7]), STOPPED);
    same(&rt, disk.is_stopped(), true);
    disk.cut(Cut::All);
    same(&rt, disk.bytes(), [7, 0].as_slice());
    same(&rt, disk.is_stopped(), false);
    same(&rt, disk.sync(), Err(DiskError::SyncFault));
    same(&rt, disk.calls(), 3);
}

// What was armed is forgotten, and a disk that has stopped stays so.
#[test]
fn disarmed(rt: HostRuntime) {
    let mut disk = new_disk(&rt, rt.alloc(), 2);
    disk.arm(Event::FailAt { call: 1 }).expect(&rt, "memory");
    disk.arm(Event::StopAt { call: 2, bytes: 0 })
        .expect(&rt, "memory");
    disk.disarm();
    same(&rt, disk.write_at(0, &[7, 7]), DONE);
    same(&rt, disk.sync(), DONE);
    same(&rt, disk.bytes(), [7, 7].as_slice());
    disk.arm(Event::StopAt { call: 1, bytes: 0 })
        .expect(&rt, "memory");
    same(&rt, disk.sync(), STOPPED);
    disk.disarm();
    same(&rt, disk.is_stopped(), true);
}

#[test]
fn parts(rt: HostRuntime) {
    let alloc = rt.alloc();
    let mut disk = MemDisk::new(alloc, 6, Script::new(alloc)).expect(&rt, "memory");
    let mut back = [0; 2];
    same(&rt, write_through(&mut disk, 0, &[1, 2], &mut back), DONE);
    same(&rt, back, [1, 2]);
    let part = Part::new(2, 3);
    same(
        &rt,
        (part.start(), part.len(), part.is_empty()),
        (2, 3, false),
    );
    same(&rt, part.write_at(&mut disk, 1, &[8, 9]), DONE);
    same(&rt, part.sync(&mut disk), DONE);
    same(&rt, part.read(&mut disk, 0, &mut back), DONE);
    same(&rt, back, [0, 8]);
    same(&rt, disk.bytes(), [1, 2, 0, 8, 9, 0].as_slice());
}

#[test]
fn numbers(rt: HostRuntime) {
    for (error, number, text) in &[
        (DiskError::Memory, Some(100), "100 Memory"),
        (DiskError::ReadFault, Some(101), "101 ReadFault"),
        (DiskError::WriteFault, Some(102), "102 WriteFault"),
        (DiskError::SyncFault, Some(103), "103 SyncFault"),
        (DiskError::Stopped, None, "stopped"),
    ] {
        same(&rt, error.number(), *number);
        prints(&rt, rt.alloc(), error, text);
    }
}
