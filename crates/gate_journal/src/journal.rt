ghost use Rattle.std.specs.Prelude.{◌≡◌, ◌≢◌, ◌+◌, ◌-◌, ◌*◌, ◌^◌, ◌<◌, ◌≤◌, ◌↔◌, ℕ, List, [], ◌∷◌, ◌++◌, true, false, length, max, IfOk, IfErr, OnOk, OnErr, IsErrOf, IsTrue};
ghost use Rattle.disk_model.specs.Disk.{LeavesOnly, Only};
ghost use Rattle.disk_model.specs.Part.{inside, TouchesOnly};
ghost use Rattle.gate_journal.specs.Batch.{AreBatches, AreImages, Batch, HoldsBatches, HoldsOldOrNew, IsDamaged, batch_encoding, last_front};
ghost use Rattle.gate_journal.specs.Reading.{HoldsAt};
ghost use Rattle.gate_journal.specs.Refusal.{HasCause, IsOfAppending, IsOfDevice, IsOfOpening, IsOfReading, IsOfWriting};
ghost use Rattle.gate_journal.specs.Runs.{OnlyReads, WasTorn};

use crate::batch::{
    BATCH_HEADER, Batch, CLOSED, MAX_BLOCKS, MAX_NUMBER, OPEN, are_images, batch_size,
    encode_behind_gate,
};
use crate::durable::write_durably;
use crate::image::Image;
use crate::refusal::Refusal;
use crate::slot::Slot;
use crate::synced::Synced;
use crate::walking::read_batches;
use disk_model::{Disk, DiskError, Part};
use std::alloc::Global;
use std::marker::Model;

/// A journal in a part of a member's disk: batches one after another, ended by a closed gate. Each call is lent the
/// disk.
#[derive(Debug, Drop)]
pub struct Journal {
    part: Part,
    slot: Slot,
    blocks: u32,
    before: u64,
    front: u64,
    end: u64,
    broken: bool,
}

impl Model for Journal {
    ghost use Rattle.std.specs.Prelude.{◌+◌, ◌≤◌, ◌<◌, ◌^◌};
    ghost use Rattle.gate_journal.specs.Journal.{State};
    ghost use Rattle.gate_journal.specs.declared.batch.TheConstants.{MAX_BLOCKS};

    ghost Value = { State };

    ghost view = { λ j. record { part = j.part; slot = j.slot; blocks = j.blocks; before = j.before; front = j.front; end = j.end; broken = j.broken } };

    ghost invariant = { λ j. (j.end + 1 ≤ j.part.len) × (j.part.len < 2 ^ 32) × (j.blocks ≤ MAX_BLOCKS) };
}

impl Journal {
    ghost use Rattle.gate_journal.specs.Journal.{HasNoRoom, HasRoom, IsSettled, IsEncoded, IsTooMuch, appended, behind_border};

    /// An empty journal in a part of a disk, of 1 byte to 2^32 - 1, for the blocks 0 to `blocks - 1`, at most 65,536, of
    /// the member at the slot; the first batch will have a front above `front`. The part lies within the disk. It writes a
    /// closed gate and syncs; after it the whole disk is durable.
    ///
    /// It is refused by the device alone. Then, and until it is done, the part holds what it held but for its first byte.
    pub fn create<D: Disk>(
        disk: &mut D,
        part: Part,
        slot: Slot,
        blocks: u32,
        front: u64,
    ) -> Result<Journal, Refusal>
        requires room { 1 ≤ part.len }
        requires small { part.len < 2 ^ 32 }
        requires volume { blocks ≤ MAX_BLOCKS }
        requires on_disk { part.start + part.len ≤ D.size disk.old }
        ensures journal { IfOk result (λ j. j ≡ record { part = part; slot = slot; blocks = blocks; before = front; front = front; end = 0; broken = false }) }
        ensures settled { D.keeps_model → IfOk result (λ j. IsSettled j [] (D.gives disk.new) (D.may_leave_now disk.new)) }
        ensures bytes { D.keeps_model → OnOk result (HoldsAt (inside part (D.gives disk.new)) 0 1 (CLOSED ∷ [])) }
        ensures whole { D.keeps_model → OnOk result (Only (D.gives disk.new) (D.may_leave_now disk.new)) }
        ensures any_moment { D.keeps_model → LeavesOnly D.moment D.may_have_left_since disk.old disk.new
            (WasTorn part 0 1 (D.may_leave_now disk.old)) }
        ensures frame { D.keeps_model → TouchesOnly D.gives D.may_leave_now D.moment D.may_have_left_since part disk.old disk.new }
        ensures size { D.size disk.new ≡ D.size disk.old }
        ensures told { IfErr result IsOfWriting }
        ensures cause { HasCause (D.failures disk.old) (D.failures disk.new) result }
        ensures most { D.most_failures disk.new ≤ D.most_failures disk.old }
        ensures calls { D.calls_made disk.new ≤ D.calls_made disk.old + 2 }
    {
        write_durably(part, disk, 0, &[CLOSED])?;
        Ok(Journal {
            part,
            slot,
            blocks,
            before: front,
            front,
            end: 0,
            broken: false,
        })
    }

    /// The journal in a part of a disk, of at most 2^32 - 1 bytes, which may be any, with its batches, for the blocks 0 to
    /// `blocks - 1`, at most 65,536, of the member at the slot; `front` is the one before the first batch. The part lies
    /// within the disk. It syncs, and then reads; after it the whole disk is durable.
    ///
    /// 123 `Damaged` exactly where the part holds no batches: an open gate isn't followed by a batch of the volume, of a
    /// front above the last one's, with a byte behind it. 100 `Memory`, and what the device refuses. All leave the part
    /// as it was.
    pub fn open<D: Disk>(
        alloc: Global,
        disk: &mut D,
        part: Part,
        slot: Slot,
        blocks: u32,
        front: u64,
    ) -> Result<(Journal, Vec<Batch>), Refusal>
        requires small { part.len < 2 ^ 32 }
        requires volume { blocks ≤ MAX_BLOCKS }
        requires on_disk { part.start + part.len ≤ D.size disk.old }

        ensures journal { IfOk result (λ r. r.0 ≡ record { part = part; slot = slot; blocks = blocks; before = front; front = last_front front r.1.items; end = r.0.end; broken = false }) }
        ensures are { IfOk result (λ r. AreBatches blocks front r.1.items) }
        ensures batches { D.keeps_model → IfOk result (λ r. HoldsBatches blocks front r.1.items (inside part (D.gives disk.old))) }
        ensures settled { D.keeps_model → IfOk result (λ r. IsSettled r.0 r.1.items (D.gives disk.new) (D.may_leave_now disk.new)) }
        ensures fronts { IfOk result (λ r. (front ≤ r.0.front) × (r.0.front ≤ max front MAX_NUMBER)) }
        ensures damaged { D.keeps_model → IsErrOf result Refusal.Damaged → IsDamaged blocks front (inside part (D.gives disk.old)) }

        ensures whole { D.keeps_model → OnOk result (Only (D.gives disk.new) (D.may_leave_now disk.new)) }
        ensures reads { D.keeps_model → OnlyReads D.gives D.may_leave_now D.moment D.may_have_left_since disk.old disk.new }
        ensures frame { D.keeps_model → TouchesOnly D.gives D.may_leave_now D.moment D.may_have_left_since part disk.old disk.new }
        ensures size { D.size disk.new ≡ D.size disk.old }
        ensures told { IfErr result IsOfOpening }
        ensures cause { HasCause (D.failures disk.old) (D.failures disk.new) result }
        ensures most { D.most_failures disk.new ≤ D.most_failures disk.old }
    {
        part.sync(disk)?;
        if part.is_empty() {
            return Err(Refusal::Damaged);
        }
        let (batches, place) = read_batches(alloc, part, blocks, disk, front)?;
        let journal = Journal {
            part,
            slot,
            blocks,
            before: front,
            front: place.front,
            end: place.end,
            broken: false,
        };
        Ok((journal, batches))
    }

    /// The part of the disk that it stands in.
    pub fn part(&self) -> Part
        ensures { result ≡ self.now.part }
    {
        self.part
    }

    /// The front of the last batch, or the one before the first: the next is above it.
    pub fn front(&self) -> u64
        ensures { result ≡ self.now.front }
    {
        self.front
    }

    /// Whether these images are a batch's: at least one, each of a block of the volume, no block twice.
    pub fn are_images(&self, images: &[Image]) -> bool
        ensures { IsTrue result ↔ AreImages self.now.blocks images.now }
    {
        are_images(self.blocks, images)
    }

    /// How many bytes the images of the next batch may take, at least one, with a closed gate behind them.
    pub fn left(&self) -> u64
        ensures left { (size : ℕ) → 0 < size → size ≤ result → HasRoom self.now size }
        ensures too_much { (size : ℕ) → result < size → HasNoRoom self.now size }
        ensures small { result < 2 ^ 32 }
    {
        (self.part.len() - self.end).saturating_sub(BATCH_HEADER + 1)
    }

    /// Whether a device call failed: then `append` and `read_all` are refused with 122, until it is opened again.
    pub fn is_broken(&self) -> bool
        ensures { result ≡ self.now.broken }
    {
        self.broken
    }

    /// The same journal, as the disk sees it that begins at the border. The border lies where the part begins, or before it.
    pub fn behind(&self, border: u64) -> Journal
        requires { border ≤ self.now.part.start }
        ensures { result ≡ behind_border self.now border }
    {
        Journal {
            part: Part::new(self.part.start - border, self.part.len),
            slot: self.slot,
            blocks: self.blocks,
            before: self.before,
            front: self.front,
            end: self.end,
            broken: self.broken,
        }
    }

    /// Whether a batch of so many bytes fits behind the last one, with a closed gate behind it.
    pub fn fits(&self, size: u64) -> bool
        ensures { IsTrue result ↔ (self.now.end + size + 1 ≤ self.now.part.len) }
    {
        size < self.part.len() - self.end
    }

    /// Notes a batch of so many bytes, with this front, which its twin appended. The batch fits.
    pub fn note(&mut self, front: u64, size: u64)
        requires { self.old.end + size + 1 ≤ self.old.part.len }
        ensures { self.new ≡ record self.old { front = front; end = self.old.end + size } }
    {
        self.front = front;
        self.end += size;
    }

    /// Appends a batch, its images of zeros as marks, by four device calls: the batch behind its closed gate, with the closed
    /// gate of the next one; a sync; the opened gate; a sync. After it the whole disk is durable. The receipt is of the batch's
    /// front, which is above the last one and at most 2^63 - 1; its images are at least one, each of a block of the volume, no
    /// block twice. The journal's part lies within the disk. The batch is put together in `buffer`, in place of what that held.
    ///
    /// 122 `Broken` exactly where a device call failed before; else 121 `Full` exactly where the batch doesn't fit; else
    /// 100 `Memory`: these change nothing. After a refusal of the device the journal is broken, and the part holds the
    /// batches from before, with the new one or without.
    pub fn append<D: Disk>(
        &mut self,
        buffer: &mut Vec<u8>,
        disk: &mut D,
        front: u64,
        images: &[Image],
    ) -> Result<Synced, Refusal>
        requires on_disk { self.old.part.start + self.old.part.len ≤ D.size disk.old }
        requires images { AreImages self.old.blocks images.now }
        requires rises { self.old.front < front }
        requires limit { front ≤ MAX_NUMBER }

        ensures receipt { IfOk result (λ receipt. receipt ≡ record { slot = self.old.slot; front = front }) }
        ensures ok { OnOk result (self.new ≡ appended self.old front images.now) }
        ensures settled { D.keeps_model → (batches : List Batch)
            → IsSettled self.old batches (D.gives disk.old) (D.may_leave_now disk.old)
            → OnOk result (IsSettled self.new (batches ++ record { front = front; images = images.now } ∷ []) (D.gives disk.new) (D.may_leave_now disk.new)) }

        // Behind the last batch stand the new one, its gate open, and a closed gate.
        ensures bytes { D.keeps_model → OnOk result (HoldsAt (inside self.old.part (D.gives disk.new)) self.old.end (self.new.end + 1)
            (batch_encoding (record { front = front; images = images.now }) ++ CLOSED ∷ [])) }
        ensures whole { D.keeps_model → OnOk result (Only (D.gives disk.new) (D.may_leave_now disk.new)) }

        // A stop at any moment of the call leaves the batches from before it, with the new one or without.
        ensures any_moment { D.keeps_model → (batches : List Batch)
            → IsSettled self.old batches (D.gives disk.old) (D.may_leave_now disk.old)
            → LeavesOnly D.moment D.may_have_left_since disk.old disk.new
            (λ c. HoldsOldOrNew self.old.blocks self.old.before batches (record { front = front; images = images.now }) (inside self.old.part c)) }
        ensures frame { D.keeps_model → TouchesOnly D.gives D.may_leave_now D.moment D.may_have_left_since self.old.part disk.old disk.new }
        ensures size { D.size disk.new ≡ D.size disk.old }

        ensures broken { IsErrOf result Refusal.Broken ↔ (self.old.broken ≡ true) }
        ensures full { IsErrOf result Refusal.Full ↔ ((self.old.broken ≡ false) × IsTooMuch self.old images.now) }
        ensures told { IfErr result IsOfAppending }
        ensures err { OnErr result (self.new ≡ record self.old { broken = self.new.broken }) }
        ensures unchanged { IfErr result (λ r. ¬ IsOfDevice r → (self.new ≡ self.old) × (disk.new ≡ disk.old)) }
        ensures device { IfErr result (λ r. IsOfDevice r → self.new ≡ record self.old { broken = true }) }
        ensures cause { HasCause (D.failures disk.old) (D.failures disk.new) result }
        ensures calls { D.calls_made disk.new ≤ D.calls_made disk.old + 4 }
    {
        if self.broken {
            return Err(Refusal::Broken);
        }
        let size = batch_size(images);
        if !self.fits(size) {
            return Err(Refusal::Full);
        }
        encode_behind_gate(buffer, front, images, size)?;
        if let Err(error) = self.write_batch(disk, buffer) {
            self.broken = true;
            return Err(Refusal::Device(error));
        }
        self.note(front, size);
        Ok(Synced::new(self.slot, front))
    }

    /// All batches that the part holds, in their order. The part lies within the disk.
    ///
    /// 122 `Broken` exactly where a device call failed before: nothing is read. 123 `Damaged` exactly where the part holds
    /// no batches. 100 `Memory`, and what the device refuses: after that the journal is broken. All leave the part as it
    /// was, and but for the device's the journal too.
    pub fn read_all<D: Disk>(&mut self, alloc: Global, disk: &mut D) -> Result<Vec<Batch>, Refusal>
        requires { self.old.part.start + self.old.part.len ≤ D.size disk.old }

        ensures are { IfOk result (λ found. AreBatches self.old.blocks self.old.before found.items) }
        ensures batches { D.keeps_model → IfOk result (λ found. HoldsBatches self.old.blocks self.old.before found.items (inside self.old.part (D.gives disk.old))) }
        ensures settled { D.keeps_model → (batches : List Batch)
            → IsSettled self.old batches (D.gives disk.old) (D.may_leave_now disk.old) → IfOk result (λ found. found.items ≡ batches) }
        ensures damaged { D.keeps_model → IsErrOf result Refusal.Damaged → IsDamaged self.old.blocks self.old.before (inside self.old.part (D.gives disk.old)) }
        ensures broken { IsErrOf result Refusal.Broken ↔ (self.old.broken ≡ true) }

        ensures ok { OnOk result (self.new ≡ self.old) }
        ensures err { OnErr result (self.new ≡ record self.old { broken = self.new.broken }) }
        ensures unchanged { IfErr result (λ r. ¬ IsOfDevice r → self.new ≡ self.old) }
        ensures device { IfErr result (λ r. IsOfDevice r → self.new ≡ record self.old { broken = true }) }

        ensures unread { IsErrOf result Refusal.Broken → disk.new ≡ disk.old }
        ensures reads { D.keeps_model → OnlyReads D.gives D.may_leave_now D.moment D.may_have_left_since disk.old disk.new }
        ensures frame { D.keeps_model → TouchesOnly D.gives D.may_leave_now D.moment D.may_have_left_since self.old.part disk.old disk.new }
        ensures size { D.size disk.new ≡ D.size disk.old }
        ensures told { IfErr result (λ r. r ≢ Refusal.Broken → IsOfReading r) }
        ensures cause { HasCause (D.failures disk.old) (D.failures disk.new) result }
        ensures most { D.most_failures disk.new ≤ D.most_failures disk.old }
    {
        if self.is_broken() {
            return Err(Refusal::Broken);
        }
        match read_batches(alloc, self.part, self.blocks, disk, self.before) {
            Ok((batches, _)) => Ok(batches),
            Err(refusal) => {
                self.broken = refusal.is_of_device();
                Err(refusal)
            }
        }
    }

    /// The four device calls of `append`.
    fn write_batch<D: Disk>(&self, disk: &mut D, body: &[u8]) -> Result<(), DiskError>
        requires fits { self.now.end + 1 + length body.now ≤ self.now.part.len }
        requires on_disk { self.now.part.start + self.now.part.len ≤ D.size disk.old }
        ensures settled { D.keeps_model → (batches : List Batch) (batch : Batch)
            → IsSettled self.now batches (D.gives disk.old) (D.may_leave_now disk.old) → IsEncoded self.now batch body.now
            → OnOk result (IsSettled (appended self.now batch.front batch.images) (batches ++ batch ∷ []) (D.gives disk.new) (D.may_leave_now disk.new)) }
        ensures any_moment { D.keeps_model → (batches : List Batch) (batch : Batch)
            → IsSettled self.now batches (D.gives disk.old) (D.may_leave_now disk.old) → IsEncoded self.now batch body.now
            → LeavesOnly D.moment D.may_have_left_since disk.old disk.new
            (λ c. HoldsOldOrNew self.now.blocks self.now.before batches batch (inside self.now.part c)) }
        ensures bytes { D.keeps_model → OnOk result (HoldsAt (inside self.now.part (D.gives disk.new)) self.now.end (self.now.end + 1 + length body.now) (OPEN ∷ body.now)) }
        ensures whole { D.keeps_model → OnOk result (Only (D.gives disk.new) (D.may_leave_now disk.new)) }
        ensures frame { D.keeps_model → TouchesOnly D.gives D.may_leave_now D.moment D.may_have_left_since self.now.part disk.old disk.new }
        ensures size { D.size disk.new ≡ D.size disk.old }
        ensures told { IfErr result (λ e. e ≢ DiskError.ReadFault) }
        ensures later { D.failures disk.old ≤ D.failures disk.new }
        ensures done { OnOk result (D.failures disk.new ≡ D.failures disk.old) }
        ensures cause { IfErr result (λ e. e ≢ DiskError.Memory → D.failures disk.old < D.failures disk.new) }
        ensures calls { D.calls_made disk.new ≤ D.calls_made disk.old + 4 }
    {
        write_durably(self.part, disk, self.end + 1, body)?;
        write_durably(self.part, disk, self.end, &[OPEN])
    }
}
