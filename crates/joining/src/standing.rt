//! Whether a copying goes with a world as that is.
ghost use Rattle.std.specs.Prelude.{◌↔◌, ◌*◌, IsTrue};
ghost use Rattle.joining.specs.Standing.{IsNoted, IsOfRecorded};

use crate::copying::Copying;
use disk_model::Disk;
use local_store::StoreLike;
use world::World;

impl<D: Disk + Drop> Copying<D> {
    /// Whether it is of a member of this world that is in the recorded chain.
    pub fn is_of_recorded<S: StoreLike + Drop>(&self, world: &World<S>) -> bool
        ensures { IsTrue result ↔ IsOfRecorded world.now.chain self.now }
    {
        self.at < world.len()
            && self.sender.blocks() == world.geometry().blocks as usize
            && world.is_recorded(self.at)
    }

    /// Whether it is of such a member, and what that one knows was noted.
    pub fn is_noted<S: StoreLike + Drop>(&self, world: &World<S>) -> bool
        ensures { IsTrue result ↔ (IsOfRecorded world.now.chain self.now × IsNoted world.now.chain self.now) }
    {
        self.is_of_recorded(world) && self.front == world.known(self.at)
    }
}
