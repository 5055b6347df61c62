// A part of a disk: its calls are lent the disk, and speak of the part's own bytes.
ghost use Rattle.std.specs.Prelude.{◌≡◌, ◌+◌, ◌<◌, ◌≤◌, ◌^◌, length, OnOk, OnErr, IsErrOf, IsTrue, ◌↔◌};
ghost use Rattle.std.specs.List.{slice_range};
ghost use Rattle.disk_model.specs.Disk.{Elapses, Follows, Holds, NothingNew, Only, Torn};
ghost use Rattle.disk_model.specs.Error.{HasCause};

use crate::{Disk, DiskError};

/// A range of a disk's bytes.
#[derive(Clone, Copy, Debug, PartialEq, Eq)]
pub struct Part {
    /// Its first byte, counted from the disk's beginning.
    pub start: u64,
    /// How many bytes it has.
    pub len: u64,
    ghost fits: { start + len < 2 ^ 64 },
}

impl Part {
    ghost use Rattle.disk_model.specs.Part.{inside, LeftInside, TouchesOnly};

    /// The part of `len` bytes from `start` on. It ends below 2^64 bytes.
    pub fn new(start: u64, len: u64) -> Self
        requires { start + len < 2 ^ 64 }
        ensures start { result.start ≡ start }
        ensures len { result.len ≡ len }
    {
        Part { start, len }
    }

    /// Its first byte, counted from the disk's beginning.
    pub fn start(self) -> u64
        ensures { result ≡ self.start }
    {
        self.start
    }

    /// How many bytes it has.
    pub fn len(self) -> u64
        ensures { result ≡ self.len }
    {
        self.len
    }

    /// Whether it has none.
    pub fn is_empty(self) -> bool
        ensures { IsTrue result ↔ (self.len ≡ 0) }
    {
        self.len == 0
    }

    /// Reads as many of the part's bytes as there is room for, from `at` on, counted from its beginning. The range lies
    /// within the part, and the part within the disk.
    pub fn read<D: Disk>(self, disk: &mut D, at: u64, bytes: &mut [u8]) -> Result<(), DiskError>
        requires within { self.start + self.len ≤ D.size disk.old }
        requires range { at + length bytes.old ≤ self.len }
        ensures size { D.size disk.new ≡ D.size disk.old }
        ensures read { D.keeps_model → OnOk result (bytes.new ≡ slice_range (inside self (D.gives disk.old)) at (at + length bytes.old)) }
        ensures gives { D.keeps_model → D.gives disk.new ≡ D.gives disk.old }
        ensures leaves { D.keeps_model → NothingNew (D.may_leave_now disk.old) (D.may_leave_now disk.new) }
        ensures frame { D.keeps_model → TouchesOnly D.gives D.may_leave_now D.moment D.may_have_left_since self disk.old disk.new }
        ensures time { D.keeps_model → Elapses (D.moment disk.old) (D.moment disk.new)
            (D.may_have_left_since disk.old) (D.may_have_left_since disk.new) (D.may_leave_now disk.new) }
        ensures cause { HasCause DiskError.ReadFault (D.failures disk.old) (D.failures disk.new) result }
        ensures most { D.most_failures disk.new ≤ D.most_failures disk.old }
        ensures calls { D.calls_made disk.new ≤ D.calls_made disk.old + 1 }
    {
        disk.read(self.start + at, bytes)
    }

    /// Writes over the part's bytes, from `at` on, counted from its beginning. The range lies within the part, and the part
    /// within the disk.
    pub fn write_at<D: Disk>(self, disk: &mut D, at: u64, bytes: &[u8]) -> Result<(), DiskError>
        requires within { self.start + self.len ≤ D.size disk.old }
        requires range { at + length bytes.now ≤ self.len }
        ensures size { D.size disk.new ≡ D.size disk.old }
        ensures gives { D.keeps_model → OnOk result (Holds (inside self (D.gives disk.old)) at bytes.now (inside self (D.gives disk.new))) }
        ensures failed { D.keeps_model → OnErr result (Torn at (length bytes.now)
            (inside self (D.gives disk.old)) (inside self (D.gives disk.new))) }
        ensures leaves { D.keeps_model → Follows (Torn at (length bytes.now))
            (LeftInside self (D.may_leave_now disk.old)) (LeftInside self (D.may_leave_now disk.new)) }
        ensures unwritten { D.keeps_model → IsErrOf result DiskError.Memory → D.gives disk.new ≡ D.gives disk.old }
        ensures memory { D.keeps_model → IsErrOf result DiskError.Memory → NothingNew (D.may_leave_now disk.old) (D.may_leave_now disk.new) }

        ensures frame { D.keeps_model → TouchesOnly D.gives D.may_leave_now D.moment D.may_have_left_since self disk.old disk.new }
        ensures time { D.keeps_model → Elapses (D.moment disk.old) (D.moment disk.new)
            (D.may_have_left_since disk.old) (D.may_have_left_since disk.new) (D.may_leave_now disk.new) }
        ensures cause { HasCause DiskError.WriteFault (D.failures disk.old) (D.failures disk.new) result }
        ensures most { D.most_failures disk.new ≤ D.most_failures disk.old }
        ensures calls { D.calls_made disk.new ≤ D.calls_made disk.old + 1 }
    {
        disk.write_at(self.start + at, bytes)
    }

    /// Syncs the disk. After it, a stop leaves what a read gives, of this part and of all others.
    pub fn sync<D: Disk>(self, disk: &mut D) -> Result<(), DiskError>
        ensures size { D.size disk.new ≡ D.size disk.old }
        ensures durable { D.keeps_model → OnOk result (Only (D.gives disk.old) (D.may_leave_now disk.new)) }
        ensures inside { D.keeps_model → OnOk result (Only (inside self (D.gives disk.old)) (LeftInside self (D.may_leave_now disk.new))) }
        ensures gives { D.keeps_model → D.gives disk.new ≡ D.gives disk.old }
        ensures leaves { D.keeps_model → NothingNew (D.may_leave_now disk.old) (D.may_leave_now disk.new) }
        ensures frame { D.keeps_model → TouchesOnly D.gives D.may_leave_now D.moment D.may_have_left_since self disk.old disk.new }
        ensures time { D.keeps_model → Elapses (D.moment disk.old) (D.moment disk.new)
            (D.may_have_left_since disk.old) (D.may_have_left_since disk.new) (D.may_leave_now disk.new) }
        ensures cause { HasCause DiskError.SyncFault (D.failures disk.old) (D.failures disk.new) result }
        ensures most { D.most_failures disk.new ≤ D.most_failures disk.old }
        ensures calls { D.calls_made disk.new ≤ D.calls_made disk.old + 1 }
    {
        disk.sync()
    }
}
