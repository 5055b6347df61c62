ghost use Rattle.std.specs.Prelude.{◌≡◌, IfOk};
ghost use Rattle.std.specs.String.{string_bytes};
ghost use Rattle.folder.specs.Names.{name_of, path_of};

use gate_journal::Slot;
use std::alloc::{AllocError, Global};
use std::fmt;

/// A file of a folder.
#[derive(Clone, Copy, Debug, PartialEq, Eq)]
pub enum FileName {
    /// `config.disk`, which holds the record of the chain.
    Config,
    /// `slotN.disk`, the disk of the member at this slot.
    Slot(Slot),
}

impl FileName {
    /// Its name in its folder.
    pub fn name(&self) -> &'static str
        ensures { result.now ≡ name_of self.now }
    {
        let FileName::Slot(slot) = self else {
            return "config.disk";
        };
        match slot.number() {
            0 => "slot0.disk",
            1 => "slot1.disk",
            2 => "slot2.disk",
            3 => "slot3.disk",
            4 => "slot4.disk",
            5 => "slot5.disk",
            6 => "slot6.disk",
            _ => "slot7.disk",
        }
    }

    /// Its path in this folder: the folder's, a slash, and its name.
    pub fn path(&self, alloc: Global, dir: &str) -> Result<String, AllocError>
        ensures { IfOk result (λ path. string_bytes path ≡ path_of dir.now self.now) }
    {
        let mut path = String::new(alloc);
        path.push_str(dir)?;
        path.push_str("/")?;
        path.push_str(self.name())?;
        Ok(path)
    }
}

impl fmt::Display for FileName {
    fn fmt<W: fmt::Write>(&self, f: &mut fmt::Formatter<W>) -> fmt::Result {
        f.write_str(self.name())
    }
}
