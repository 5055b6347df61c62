//! What the manager of a served chain has of its folder, and what it tells.
use crate::Unserved;
use chain_steps::Cause;
use cluster::Witness;
use disk_model::{Disk, FileDisk};
use folder::{Failure, open_slot};
use gate_journal::Slot;
use log::{Log, error, info};
use managing::{Host, Unrecorded};
use serving::Control;
use std::fs::{File, Files};
use std::io;
use std::os::unix::fs::FileExt;
use std::sync::{Mutex, Wait};

/// How many bytes of a file are read at once to have the system keep them.
const PIECE: usize = 262_144;

/// What is known of a folder while its chain is served: the disks that were opened with it, and what befell the chain.
#[derive(Drop)]
pub(crate) struct Notes {
    // by slots: those that haven't joined yet
    disks: Mutex<[Option<FileDisk>; 8]>,
    stopped: Mutex<Option<Stop>>,
    unrecorded: Mutex<Option<configurations::Refusal>>,
    ended: Mutex<bool>,
}

/// A member that stopped, why, and the system's number of its disk's last error.
#[derive(Clone, Copy, Debug)]
struct Stop {
    slot: Slot,
    cause: Cause,
    error: Option<i32>,
}

impl Notes {
    /// These disks, by slots, were opened with the folder.
    pub(crate) fn new(disks: [Option<FileDisk>; 8]) -> Notes {
        Notes {
            disks: Mutex::new(disks),
            stopped: Mutex::new(None),
            unrecorded: Mutex::new(None),
            ended: Mutex::new(false),
        }
    }

    /// Why the chain couldn't go on, where it couldn't.
    pub(crate) fn into_unserved(self) -> Option<Unserved> {
        let Notes {
            disks: _,
            stopped,
            unrecorded,
            ended,
        } = self;
        if let Some(refusal) = unrecorded.into_inner() {
            return Some(Unserved::Unrecorded(refusal));
        }
        if !ended.into_inner() {
            return None;
        }
        match stopped.into_inner() {
            Some(Stop { slot, cause, error }) => Some(unserved_of(slot, cause, error)),
            None => None,
        }
    }
}

/// What the manager of a served chain has of its folder, and whom it tells what it did.
#[derive(Drop)]
pub(crate) struct FolderHost<'r, 'd, 'c, 'n, R> {
    rt: &'r R,
    dir: &'d str,
    control: &'c Control,
    notes: &'n Notes,
    // the bytes of each member's disk
    len: u64,
    // the number of the slot whose file is read once before anything else is done, and whether it was
    source: u8,
    is_read: bool,
}

/// What ends a server whose last member has stopped so.
fn unserved_of(slot: Slot, cause: Cause, error: Option<i32>) -> Unserved {
    let reason = match error {
        Some(number) => Some(io::Error::from_raw_os_error(number)),
        None => None,
    };
    Unserved::Stopped {
        slot,
        cause,
        reason,
    }
}

impl<'r, 'd, 'c, 'n, R> FolderHost<'r, 'd, 'c, 'n, R> {
    /// Of this folder, whose members' disks have so many bytes, and whose source is at this slot.
    pub(crate) fn new(
        rt: &'r R,
        dir: &'d str,
        control: &'c Control,
        notes: &'n Notes,
        len: u64,
        source: Slot,
    ) -> FolderHost<'r, 'd, 'c, 'n, R> {
        FolderHost {
            rt,
            dir,
            control,
            notes,
            len,
            source: source.number(),
            is_read: false,
        }
    }

    /// Reads the file of a slot once, so that the system keeps it: the first reads of clients needn't wait for the device then. It is open
    /// a second time meanwhile. What can't be read now is read when a client asks for it.
    ///
    /// It is read from its end on. Of a file that is read in order Linux keeps up to 2 MiB as one folio, and each write of a block into such a
    /// folio costs a look at all of its blocks.
    fn read_through(&self, number: u8) -> io::Result<()>
    where
        R: Files<File = File> + AllocGlobal,
    {
        let alloc = self.rt.alloc();
        let path = format!(in alloc; "{}/slot{number}.disk", self.dir)?;
        let mut buffer = vec![in alloc; 0; PIECE]?;
        let file = File::open(self.rt, path.as_str())?;
        for piece in (0..self.len.div_ceil(PIECE as u64)).rev() {
            file.read_at(&mut buffer, piece.saturating_mul(PIECE as u64))?;
        }
        Ok(())
    }

    /// A disk that was opened with the folder, or is opened now.
    fn opened(&self, slot: Slot) -> Result<FileDisk, Failure>
    where
        R: Files<File = File> + AllocGlobal + Wait,
    {
        match self.kept(slot) {
            Some(disk) => Ok(disk),
            None => open_slot(self.rt, self.dir, slot),
        }
    }

    /// A disk that was opened with the folder.
    fn kept(&self, slot: Slot) -> Option<FileDisk>
    where
        R: Wait,
    {
        let mut disks = self.notes.disks.lock(self.rt);
        let disks = &mut *disks;
        disks[usize::from(slot.number())].take()
    }
}

impl<'r, 'd, 'c, 'n, R: Log + Wait> Witness<FileDisk> for FolderHost<'r, 'd, 'c, 'n, R> {
    fn note_stop(&mut self, slot: Slot, cause: Cause, disk: &FileDisk) {
        let error = disk.last_error();
        *self.notes.stopped.lock(self.rt) = Some(Stop { slot, cause, error });
        let unserved = unserved_of(slot, cause, error);
        error!(self.rt; "a member has stopped: {unserved}");
    }
}

impl<'r, 'd, 'c, 'n, R: Files<File = File> + AllocGlobal + Log + Print + Wait> Host<FileDisk>
    for FolderHost<'r, 'd, 'c, 'n, R> {
    fn wanted(&mut self) -> Option<Slot> {
        if !self.is_read {
            self.is_read = true;
            let _ = self.read_through(self.source);
        }
        self.control.take(self.rt)
    }

    fn disk(&mut self, slot: Slot) -> Option<FileDisk> {
        let number = slot.number();
        match self.opened(slot) {
            Ok(disk) => {
                if disk.len() != self.len {
                    info!(self.rt; "slot{number}.disk hasn't the source's length: it is passed over");
                    return None;
                }
                info!(self.rt; "slot {number} is being rebuilt");
                Some(disk)
            }
            Err(failure) => {
                error!(self.rt; "slot {number} isn't rebuilt: {failure}");
                None
            }
        }
    }

    fn note_removal(&mut self, slot: Slot) {
        let number = slot.number();
        info!(self.rt; "the chain goes on without slot {number}");
    }

    fn note_joining(&mut self, slot: Slot) {
        let number = slot.number();
        info!(self.rt; "slot {number} has joined the chain");
        // Where nobody reads any more what is printed, the log has it.
        let _ = println!(self.rt; "rebuilt {number}");
    }

    fn note_member(&mut self, slot: Slot) {
        let number = slot.number();
        info!(self.rt; "slot {number} isn't rebuilt: it is a member of the chain");
    }

    fn note_failure(&mut self, slot: Slot, again: bool) {
        let number = slot.number();
        if again {
            info!(self.rt; "slot {number} isn't rebuilt yet: it is tried again");
        } else {
            error!(self.rt; "slot {number} isn't rebuilt");
        }
    }

    fn note_end(&mut self) {
        *self.notes.ended.lock(self.rt) = true;
        error!(self.rt; "no member of the chain runs any more");
    }

    fn note_unrecorded(&mut self, unrecorded: Unrecorded) {
        let Unrecorded { refusal } = unrecorded;
        *self.notes.unrecorded.lock(self.rt) = Some(refusal);
        error!(self.rt; "the chain's next record can't be written: {refusal}");
    }
}
