//! The chain of a folder, as clients are served by it.
ghost use Rattle.std.specs.Prelude.{◌≡◌, ◌≤◌};
ghost use Rattle.chain_core.specs.Node.{IsRunning};
ghost use Rattle.configurations.specs.Store.{IsSettledConfig};
ghost use Rattle.folder.specs.Chain.{config_part as the_part};

use crate::hosting::{FolderHost, Notes};
use crate::{Begun, Unserved};
use disk_model::{Disk, FileDisk};
use gate_journal::Slot;
use local_store::{Store, StoreLike};
use log::Log;
use serving::{Control, serve};
use sessions::{Clients, Limits};
use sockets::Listeners;
use std::alloc::{AllocError, Global};
use std::fs::{File, Files};
use std::sync::Wait;
use std::thread::Threads;

/// Who is served, and who joins.
#[derive(Drop)]
pub struct Words {
    /// Where clients come in.
    pub listeners: Listeners,
    /// How many of them are served; 0 is for ever.
    pub sessions: u64,
    /// Whether the folder's other disks are left as they are; else they are rebuilt, and join.
    pub alone: bool,
}

/// Serves the chain that goes on from the disks of a folder, whose files are those of these slots. The others are rebuilt meanwhile, slots
/// ascending; for each that has joined it prints `rebuilt S`, and what it does goes to the log. Before them the source's file is read once, so that
/// the system keeps it. It ends once as many clients as are served have
/// ended, and what they were answered is journaled.
///
/// Else it ends as `Unserved` tells: where no more clients come in, where the chain can't go on, and where memory runs out before it begins.
pub fn serve_begun<R>(
    rt: &R,
    dir: &str,
    slots: &[Slot],
    begun: Begun<FileDisk>,
    words: Words,
    control: &Control,
) -> Result<(), Unserved>
where
    R: Files<File = File> + AllocGlobal + Threads + Wait + Log + Print + Sync,
    requires runs { IsRunning (⟦<Store<FileDisk> as StoreLike>⟧.about begun.source.store) (record { premise = ⟦<FileDisk as Disk>⟧.keeps_model; keeps = ⟦<Store<FileDisk> as StoreLike>⟧.keeps begun.source.store }) }
    requires part { begun.source.config.pair.part ≡ the_part }
    requires room { the_part.len ≤ ⟦<FileDisk as Disk>⟧.size begun.source.disk }
    requires settled { ⟦<FileDisk as Disk>⟧.keeps_model → IsSettledConfig begun.source.config (⟦<FileDisk as Disk>⟧.gives begun.source.disk) (⟦<FileDisk as Disk>⟧.may_leave_now begun.source.disk) }
{
    let alloc = rt.alloc();
    let Begun {
        source,
        place,
        front: _,
        epoch: _,
        others,
    } = begun;
    let Words {
        listeners,
        sessions,
        alone,
    } = words;
    let (geometry, slot) = (source.store.geometry(), source.store.slot());
    let len = source.store.disk().len();
    source.store.disk().read_ahead();
    let notes = Notes::new(by_slots(slots, place, others));
    let wanted = if alone {
        Vec::new(alloc)
    } else {
        others_of(alloc, slots, place)?
    };
    let limits = Limits {
        max_payload: geometry.max_payload,
        area: geometry.area,
    };
    let clients = Clients::new(alloc, listeners, limits, sessions)?;
    let host = FolderHost::new(rt, dir, control, &notes, len, slot);
    serve(rt, alloc, source, host, &wanted, &clients, control)?;
    if let Some(unserved) = notes.into_unserved() {
        return Err(unserved);
    }
    match clients.into_refusal() {
        Some(refusal) => Err(Unserved::Accept(refusal)),
        None => Ok(()),
    }
}

/// The slots of a folder but the source's.
fn others_of(alloc: Global, slots: &[Slot], place: usize) -> Result<Vec<Slot>, AllocError> {
    let mut others = Vec::new(alloc);
    for (at, slot) in slots.iter().enumerate() {
        if at != place {
            others.push(*slot)?;
        }
    }
    Ok(others)
}

/// The other disks of a folder, each at its slot.
fn by_slots<D: Drop>(slots: &[Slot], place: usize, others: Vec<D>) -> [Option<D>; 8] {
    let mut disks = [None, None, None, None, None, None, None, None];
    let mut others = others.into_iter();
    for (at, slot) in slots.iter().enumerate() {
        if at != place {
            disks[usize::from(slot.number())] = others.next();
        }
    }
    disks
}
