//! How worlds begin, are armed, are cut and go on.
ghost use Rattle.std.specs.Prelude.{◌≤◌, ◌<◌};

use crate::again::Kept;
use crate::refusal::Refusal;
use crate::script::NamedDisk;
use crate::sim::Sim;
use disk_model::{Cut, Event, MemDisk};
use life::{Deed, Disks, MEMORY, ManagedWorld, Refusal as LifeRefusal, Refused};
use local_store::Store;
use std::io::Write;
use std::mem;
use volume::{Geometry, MAX_MAX_PAYLOAD, least_area};
use world::World;

/// The number of the refusal of a recovery for which no disk is returned.
const NONE_RETURNED: u16 = 191;

/// That of one for which a disk is returned that the recorded chain hasn't.
const NOT_IN_CHAIN: u16 = 192;

impl Sim {
    /// Makes the world of a chain, or prints why its numbers are refused.
    pub(crate) fn begin<W: Write>(
        &mut self,
        members: u8,
        blocks: u32,
        max_payload: u32,
        writer: &mut W,
    ) -> Result<(), Refusal>
        requires some { 0 < members }
        requires few { members ≤ 8 }
    {
        let area = if max_payload <= MAX_MAX_PAYLOAD {
            least_area(max_payload)
        } else {
            0
        };
        let geometry = match Geometry::new(blocks, area, max_payload) {
            Ok(geometry) => geometry,
            Err(refusal) => {
                let number = refusal.number();
                return Ok(writeln!(writer, "refused {number}")?);
            }
        };
        match life::begin(self.alloc, geometry, members) {
            Ok(managed) => {
                if self.is_kept {
                    self.kept = Some(Kept::new(self.alloc, geometry, members));
                }
                self.goes_on_with(managed);
                Ok(())
            }
            Err(refusal) => self.not_begun(refusal, writer),
        }
    }

    /// The script goes on with this world and its manager.
    fn goes_on_with(&mut self, managed: ManagedWorld<Store<MemDisk>, MemDisk>) {
        if let Some(old) = mem::replace(&mut self.managed, Some(managed)) {
            old.abandon();
        }
        self.raised.clear();
    }

    /// A device call to come fails, or the world stops in it; where a disk is attached at the member's slot next, one of that disk's. A member
    /// that is none, or no call, changes nothing.
    pub(crate) fn arm(&mut self, disk: NamedDisk, event: Event) -> Result<(), Refusal> {
        let (Event::FailAt { call } | Event::StopAt { call, .. }) = event;
        let NamedDisk::Member(member) = disk else {
            return self.arm_config(call, event);
        };
        if self.awaits(member) {
            if call > 0 {
                self.awaited = Some(event);
            }
            return Ok(());
        }
        let Some(at) = self.place(member) else {
            return Ok(());
        };
        match &mut self.managed {
            Some(ManagedWorld { world, .. }) if call > 0 && at < world.len() => {
                world.arm(at, event)?;
                match &mut self.kept {
                    Some(kept) => kept.add_event(Deed::Arm { at, event }),
                    None => Ok(()),
                }
            }
            _ => Ok(()),
        }
    }

    /// Prints the epoch, the committed front and the chain that are recorded, if there is a world.
    pub(crate) fn state<W: Write>(&mut self, writer: &mut W) -> Result<(), Refusal> {
        let Some(ManagedWorld { world, .. }) = &mut self.managed else {
            return Ok(());
        };
        let front = world.front();
        let epoch = world.recorded().epoch().number();
        write!(writer, "epoch {epoch} front {front} chain")?;
        for member in world.recorded().members() {
            let slot = member.slot.number();
            write!(writer, " {slot}")?;
        }
        Ok(writeln!(writer)?)
    }

    /// Everything stops. Where there is no world, and no recovery that met a stop, nothing changes.
    pub(crate) fn cut(&mut self, cut: Cut) -> Result<(), Refusal> {
        if self.stopped {
            for left in &mut self.left {
                left.disk.cut(cut);
            }
            if let Some(config) = &mut self.config_left {
                config.cut(cut);
            }
        }
        self.stopped = false;
        let survivor = self.survivor();
        let Some(managed) = self.managed.take() else {
            return Ok(());
        };
        if let Some(kept) = &mut self.kept {
            kept.cut(cut, survivor);
        }
        let Disks { slots, config } = life::cut(self.alloc, managed, cut)?;
        self.left = slots;
        self.config_left = Some(config);
        Ok(())
    }

    /// The place of a member of the recorded chain, one that runs if there is one: whichever record a cut leaves, it has this one.
    pub(crate) fn survivor(&self) -> usize {
        let Some(ManagedWorld { world, .. }) = &self.managed else {
            return 0;
        };
        (0..world.len())
            .find(|&at| at < world.len() && world.is_recorded(at) && world.cause(at).is_none())
            .or_else(|| (0..world.len()).find(|&at| at < world.len() && world.is_recorded(at)))
            .unwrap_or(0)
    }

    /// The disks of these slots come back after a cut, and the chain goes on from one of them, by the record on the configuration's: prints
    /// `source M front F`. The other disks are outside, and the sessions are gone. Where a slot has no disk, nothing changes.
    pub(crate) fn recover<W: Write>(
        &mut self,
        slots: &[u64],
        writer: &mut W,
    ) -> Result<(), Refusal> {
        if self.left.is_empty() {
            return Ok(());
        }
        let mut places = Vec::with_capacity(self.alloc, slots.len())?;
        for slot in slots {
            let Some(place) = self.place_left(*slot) else {
                return Ok(());
            };
            places.push(place)?;
        }
        self.go_on_from(places, writer)
    }

    /// The place of the disk of a slot among those that a cut left.
    fn place_left(&self, slot: u64) -> Option<usize> {
        self.left
            .iter()
            .position(|left| u64::from(left.slot.number()) == slot)
    }

    /// The world goes on from one of the disks at these places among those that a cut left.
    fn go_on_from<W: Write>(&mut self, places: Vec<usize>, writer: &mut W) -> Result<(), Refusal> {
        let Some(config) = self.config_left.take() else {
            return Ok(());
        };
        let left = mem::replace(&mut self.left, Vec::new(self.alloc));
        match life::recover(self.alloc, left, &places, config) {
            Ok(managed) => {
                let source = tell_source(&managed.world, writer);
                self.speakers.clear();
                self.faulty.clear();
                self.goes_on_with(managed);
                if let Some(kept) = &mut self.kept {
                    kept.returned(places)?;
                }
                source
            }
            Err(
                Refused {
                    refusal,
                    disks,
                    config,
                },
            ) => {
                if let Some(kept) = &mut self.kept {
                    kept.broken_off();
                }
                self.stopped = disks.iter().any(|left| left.disk.is_stopped())
                    || config.is_stopped();
                self.left = disks;
                self.config_left = Some(config);
                self.not_begun(refusal, writer)
            }
        }
    }

    /// Prints why there is no world: a number, or that a device call met its stop.
    fn not_begun<W: Write>(&self, refusal: LifeRefusal, writer: &mut W) -> Result<(), Refusal> {
        let number = match refusal {
            LifeRefusal::Memory => Some(MEMORY),
            LifeRefusal::NoneReturned => Some(NONE_RETURNED),
            LifeRefusal::NotInChain => Some(NOT_IN_CHAIN),
            LifeRefusal::Store(refusal) => refusal.number(),
            LifeRefusal::Config(refusal) => refusal.number(),
        };
        match number {
            Some(MEMORY) => Err(Refusal::Memory),
            Some(number) => Ok(writeln!(writer, "refused {number}")?),
            None => self.tell_stop(writer),
        }
    }
}

/// Prints which member a chain goes on from alone, and at which front.
fn tell_source<W: Write>(world: &World<Store<MemDisk>>, writer: &mut W) -> Result<(), Refusal> {
    if world.len() == 0 {
        return Ok(());
    }
    let member = world.slot(0).number();
    let front = world.durable(0);
    Ok(writeln!(writer, "source {member} front {front}")?)
}
