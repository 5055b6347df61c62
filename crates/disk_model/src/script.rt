// What is to happen to a disk in memory, and at which of its calls.
ghost use Rattle.std.specs.Prelude.{◌≡◌, ◌+◌, ◌-◌, ◌^◌, ◌<◌, [], ◌∷◌, ◌++◌, ◌⊎◌, IsTrue, false, IfOk, IfErr, IsErrOf, OnOk, OnErr};
ghost use Rattle.disk_model.specs.Script.{fate_of, next_call, answer};
ghost use Rattle.disk_model.specs.declared.script.Fate.TheVariants.{Works};

use crate::DiskError;
use std::alloc::{AllocError, Global};
use std::marker::Model;
use std::mem;

/// What is to happen at a device call. Calls are counted from 1, reads, writes and syncs alike.
#[derive(Clone, Copy, Debug, PartialEq, Eq)]
pub enum Event {
    /// The call fails.
    FailAt { call: u64 },
    /// The disk stops in the call. A write has then put these many of its bytes in place, at most all.
    StopAt { call: u64, bytes: u64 },
}

impl Event {
    ghost use Rattle.disk_model.specs.Event.{counted_from};

    /// The same, its calls counted from this one on.
    pub(crate) fn counted_from(self, calls: u64) -> Self
        ensures { result ≡ counted_from calls self }
    {
        match self {
            Event::FailAt { call } => Event::FailAt {
                call: calls.saturating_add(call),
            },
            Event::StopAt { call, bytes } => Event::StopAt {
                call: calls.saturating_add(call),
                bytes,
            },
        }
    }
}

/// What is to happen to a disk in memory. Of two entries at one call a stop goes before a fault, and the later stop counts.
#[derive(Drop)]
pub struct Script {
    events: Vec<Event>,
}

impl Model for Script {
    ghost use Rattle.std.specs.Prelude.{List};
    ghost use Rattle.disk_model.specs.declared.script.Event.{Event};

    ghost Value = { List Event };

    ghost view = { λ s. s.events.items };
}

impl Script {
    ghost use Rattle.disk_model.specs.Script.{fate_of};
    ghost use Rattle.disk_model.specs.declared.script.Fate.TheVariants.{Works};

    /// A script of nothing.
    pub fn new(alloc: Global) -> Self
        ensures { result ≡ [] }
    {
        Script {
            events: Vec::new(alloc),
        }
    }

    /// Adds an entry.
    pub fn push(&mut self, event: Event) -> Result<(), AllocError>
        ensures ok { OnOk result (self.new ≡ self.old ++ event ∷ []) }
        ensures err { OnErr result (self.new ≡ self.old) }
    {
        self.events.push(event)?;
        Ok(())
    }

    /// What becomes of a call.
    pub(crate) fn fate(&self, call: u64) -> Fate
        ensures { result ≡ fate_of call Works self.now }
    {
        fate_at(&self.events, call)
    }
}

/// What becomes of a call.
#[derive(Clone, Copy, Debug, PartialEq, Eq)]
pub enum Fate {
    /// It does its work.
    Works,
    /// It fails.
    Fails,
    /// The disk stops in it, after these many bytes of a write.
    Stops(u64),
}

impl Fate {
    ghost use Rattle.disk_model.specs.Script.{fate_after};

    // What an entry makes of it.
    fn after(self, event: Event, call: u64) -> Fate
        ensures { result ≡ fate_after call self event }
    {
        match (event, self) {
            (Event::StopAt { call: at, bytes }, _) if at == call => Fate::Stops(bytes),
            (Event::FailAt { call: at }, Fate::Works) if at == call => Fate::Fails,
            _ => self,
        }
    }
}

fn fate_at(events: &[Event], call: u64) -> Fate
    ensures { result ≡ fate_of call Works events.now }
{
    let mut fate = Fate::Works;
    for event in events {
        fate = fate.after(*event, call);
    }
    fate
}

/// The calls of a disk, and what is to happen to them.
#[derive(Drop)]
pub struct Turns {
    pub script: Script,
    pub calls: u64,
    pub failures: u64,
}

impl Turns {
    ghost use Rattle.std.specs.Prelude.{◌≤◌, ◌||◌, min, max, Bool};
    ghost use Rattle.disk_model.specs.Counts.{most_by};

    /// What becomes of the next call. A stopped disk counts a failure and tells that it stopped.
    /// Where failures can't be counted any more, it is 100 `Memory`, and nothing changed.
    pub fn begin(&mut self, has_stopped: bool) -> Result<Fate, DiskError>
        ensures fate { IfOk result (λ fate. fate ≡ fate_of (next_call self.old.calls) Works self.old.script) }
        ensures ok { OnOk result (self.new ≡ self.old) }
        ensures runs { OnOk result (has_stopped ≡ false) }
        ensures room { OnOk result (self.old.failures < 2 ^ 64 - 1) }
        ensures told { IfErr result (λ e. (e ≡ DiskError.Memory) ⊎ (e ≡ DiskError.Stopped)) }
        ensures memory { IsErrOf result DiskError.Memory → (self.old.failures ≡ 2 ^ 64 - 1) × (self.new ≡ self.old) }
        ensures stopped { IsErrOf result DiskError.Stopped → IsTrue has_stopped × (self.new ≡ record self.old { failures = self.old.failures + 1 }) }
        ensures most { most_by self.new.script has_stopped self.new.failures ≤ most_by self.old.script has_stopped self.old.failures }
    {
        if self.failures == u64::MAX {
            return Err(DiskError::Memory);
        }
        if has_stopped {
            return self.fail(DiskError::Stopped);
        }
        Ok(self.script.fate(self.calls.saturating_add(1)))
    }

    /// Ends a call: counts it, and its failure.
    pub fn end(&mut self, fate: Fate, fault: DiskError) -> Result<(), DiskError>
        requires room { self.old.failures < 2 ^ 64 - 1 }
        ensures answer { result ≡ answer fault fate }
        ensures script { self.new.script ≡ self.old.script }
        ensures calls { self.new.calls ≡ next_call self.old.calls }
        ensures ok { OnOk result (self.new.failures ≡ self.old.failures) }
        ensures err { OnErr result (self.new.failures ≡ self.old.failures + 1) }
    {
        self.calls = self.calls.saturating_add(1);
        match fate {
            Fate::Works => Ok(()),
            Fate::Fails => self.fail(fault),
            Fate::Stops(_) => self.fail(DiskError::Stopped),
        }
    }

    /// Gives the script and the calls away. What is left begins anew, but for the failures.
    pub fn lend(&mut self, alloc: Global) -> Turns
        ensures lent { result ≡ self.old }
        ensures script { self.new.script ≡ [] }
        ensures calls { self.new.calls ≡ 0 }
        ensures failures { self.new.failures ≡ self.old.failures }
        ensures most { (stopped : Bool) → most_by self.new.script stopped self.new.failures ≤ most_by self.old.script stopped self.old.failures }
    {
        let home = Turns {
            script: Script::new(alloc),
            calls: 0,
            failures: self.failures,
        };
        mem::replace(self, home)
    }

    /// Takes them back, and adds its own calls. Its own script is forgotten.
    pub fn rejoin(&mut self, lent: Turns)
        ensures script { self.new.script ≡ lent.script }
        ensures calls { self.new.calls ≡ min (lent.calls + self.old.calls) (2 ^ 64 - 1) }
        ensures failures { self.new.failures ≡ max self.old.failures lent.failures }
        ensures most { (here there : Bool) → most_by self.new.script (here || there) self.new.failures
            ≤ max (most_by self.old.script here self.old.failures) (most_by lent.script there lent.failures) }
    {
        *self = Turns {
            calls: lent.calls.saturating_add(self.calls),
            failures: self.failures.max(lent.failures),
            script: lent.script,
        };
    }

    // Counts a failure, and tells it.
    fn fail<T>(&mut self, error: DiskError) -> Result<T, DiskError>
        requires room { self.old.failures < 2 ^ 64 - 1 }
        ensures answer { result ≡ Err error }
        ensures stays { self.new ≡ record self.old { failures = self.old.failures + 1 } }
    {
        self.failures += 1;
        Err(error)
    }
}
