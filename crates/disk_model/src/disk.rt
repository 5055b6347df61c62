// A disk as the crates above see it: what a read gives, what a stop may leave, and when.
ghost use Rattle.std.specs.Prelude.{◌≡◌, ◌+◌, ◌≤◌, List, ℕ, length, OnOk, OnErr, IsErrOf};
ghost use Rattle.std.specs.List.{slice_range};
ghost use Rattle.disk_model.specs.Disk.{Elapses, Follows, Holds, NothingNew, Only, Torn};
ghost use Rattle.disk_model.specs.Error.{HasCause};

use crate::DiskError;

/// A disk of fixed length. All that is said of contents is said under the premise `keeps_model`; its length and
/// its counts of failures and calls are the program's own numbers, and stand outside it.
///
/// `at` counts bytes from the disk's beginning. The caller's condition is that a range lies within `len`.
pub trait Disk {
    /// The premise: a disk of this kind keeps the disk model.
    ghost keeps_model: { Type 0 };

    /// How many bytes it has.
    ghost size: { Self → ℕ };

    /// What a read gives.
    ghost gives: { Self → List ℕ };

    /// What a stop now may leave.
    ghost may_leave_now: { Self → List ℕ → Type 0 };

    /// The moment, as a number that doesn't fall.
    ghost moment: { Self → ℕ };

    /// What a stop at some moment from that one on may have left, during a call or between two.
    ghost may_have_left_since: { Self → ℕ → List ℕ → Type 0 };

    /// How often the device has failed.
    ghost failures: { Self → ℕ };

    /// How many failures there can be at most, now and from now on: no call here raises it.
    ghost most_failures: { Self → ℕ };

    /// How many calls it has served, at most.
    ghost calls_made: { Self → ℕ };

    /// How many bytes the disk has.
    fn len(&self) -> u64
        ensures { result ≡ size self.now };

    /// Reads as many bytes as there is room for. 101 `ReadFault`: the bytes that it put out mean nothing.
    fn read(&mut self, at: u64, bytes: &mut [u8]) -> Result<(), DiskError>
        requires { at + length bytes.old ≤ size self.old }
        ensures size { size self.new ≡ size self.old }
        ensures read { keeps_model → OnOk result (bytes.new ≡ slice_range (gives self.old) at (at + length bytes.old)) }
        ensures gives { keeps_model → gives self.new ≡ gives self.old }
        ensures leaves { keeps_model → NothingNew (may_leave_now self.old) (may_leave_now self.new) }
        ensures time { keeps_model → Elapses (moment self.old) (moment self.new)
            (may_have_left_since self.old) (may_have_left_since self.new) (may_leave_now self.new) }
        ensures cause { HasCause DiskError.ReadFault (failures self.old) (failures self.new) result }
        ensures most { most_failures self.new ≤ most_failures self.old }
        ensures calls { calls_made self.new ≤ calls_made self.old + 1 };

    /// Writes over what is there. Until a sync, a stop may leave any bytes in the range.
    /// 102 `WriteFault`: some of it may be written, so a read may give any bytes in the range, and a stop may leave any.
    /// 100 `Memory`: nothing changed.
    fn write_at(&mut self, at: u64, bytes: &[u8]) -> Result<(), DiskError>
        requires { at + length bytes.now ≤ size self.old }
        ensures size { size self.new ≡ size self.old }
        ensures gives { keeps_model → OnOk result (Holds (gives self.old) at bytes.now (gives self.new)) }
        ensures failed { keeps_model → OnErr result (Torn at (length bytes.now) (gives self.old) (gives self.new)) }
        ensures leaves { keeps_model → Follows (Torn at (length bytes.now)) (may_leave_now self.old) (may_leave_now self.new) }
        ensures unwritten { keeps_model → IsErrOf result DiskError.Memory → gives self.new ≡ gives self.old }
        ensures memory { keeps_model → IsErrOf result DiskError.Memory → NothingNew (may_leave_now self.old) (may_leave_now self.new) }
        ensures time { keeps_model → Elapses (moment self.old) (moment self.new)
            (may_have_left_since self.old) (may_have_left_since self.new) (may_leave_now self.new) }
        ensures cause { HasCause DiskError.WriteFault (failures self.old) (failures self.new) result }
        ensures most { most_failures self.new ≤ most_failures self.old }
        ensures calls { calls_made self.new ≤ calls_made self.old + 1 };

    /// After it, a stop leaves what a read gives. 103 `SyncFault`: nothing is made durable.
    fn sync(&mut self) -> Result<(), DiskError>
        ensures size { size self.new ≡ size self.old }
        ensures durable { keeps_model → OnOk result (Only (gives self.old) (may_leave_now self.new)) }
        ensures gives { keeps_model → gives self.new ≡ gives self.old }
        ensures leaves { keeps_model → NothingNew (may_leave_now self.old) (may_leave_now self.new) }
        ensures time { keeps_model → Elapses (moment self.old) (moment self.new)
            (may_have_left_since self.old) (may_have_left_since self.new) (may_leave_now self.new) }
        ensures cause { HasCause DiskError.SyncFault (failures self.old) (failures self.new) result }
        ensures most { most_failures self.new ≤ most_failures self.old }
        ensures calls { calls_made self.new ≤ calls_made self.old + 1 };

    /// The count of failures keeps to the most that there can be.
    ghost within_most: { (disk : Self) → failures disk ≤ most_failures disk };

    /// A read gives as many bytes as the disk has.
    ghost gives_size: { keeps_model → (disk : Self) → length (gives disk) ≡ size disk };

    /// So does a stop leave.
    ghost leaves_size: { keeps_model → (disk : Self) (c : List ℕ) → may_leave_now disk c → length c ≡ size disk };

    /// What a read gives may be what is left.
    ghost leaves_gives: { keeps_model → (disk : Self) → may_leave_now disk (gives disk) };

    /// This moment is one of those since an earlier one.
    ghost counts_now: { keeps_model → (disk : Self) (t : ℕ) (c : List ℕ) → t ≤ moment disk → may_leave_now disk c → may_have_left_since disk t c };

    /// Since this moment there is no other.
    ghost only_now: { keeps_model → (disk : Self) (c : List ℕ) → may_have_left_since disk (moment disk) c → may_leave_now disk c };
}
