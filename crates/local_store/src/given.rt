//! Which blocks an installer was given.
ghost use Rattle.std.specs.Prelude.{◌≡◌, ◌<◌, ◌↔◌, All, IfOk, IsTrue, false, length, replicate, set, true};

use std::alloc::{AllocError, Global};
use std::marker::Model;

/// A mark for each block of the volume, and how many of them are still to be set.
#[derive(Debug, Drop)]
pub(crate) struct Given {
    marks: Vec<bool>,
    left: u32,
}

impl Model for Given {
    ghost use Rattle.std.specs.Prelude.{◌≡◌, Bool, List};
    ghost use Rattle.local_store.specs.Installer.{left_of};

    ghost Value = { List Bool };

    ghost view = { λ g. g.marks.items };

    ghost invariant = { λ g. g.left ≡ left_of g.marks.items };
}

impl Given {
    /// None of so many blocks.
    pub(crate) fn none(alloc: Global, blocks: u32) -> Result<Given, AllocError>
        ensures { IfOk result (λ given. given ≡ replicate blocks false) }
    {
        let marks = vec![in alloc; false; blocks as usize]?;
        Ok(Given {
            marks,
            left: blocks,
        })
    }

    /// Marks a block, which may be marked already.
    pub(crate) fn mark(&mut self, block: u32)
        requires { block < length self.old }
        ensures { self.new ≡ set self.old block true }
    {
        let place = block as usize;
        if !self.marks[place] {
            self.left -= 1;
        }
        self.marks[place] = true;
    }

    /// Whether each block is marked.
    pub(crate) fn is_all(&self) -> bool
        ensures { IsTrue result ↔ All IsTrue self.now }
    {
        self.left == 0
    }
}
