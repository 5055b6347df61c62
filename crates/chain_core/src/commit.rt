use gate_journal::Image;
use std::marker::Model;

/// A commit under way: the front after it, and the images that it journals.
#[derive(Debug, Drop)]
pub(crate) struct Commit {
    pub(crate) front: u64,
    pub(crate) images: Vec<Image>,
}

impl Model for Commit {
    ghost use Rattle.chain_steps.specs.Node.{Commit as Journals};

    ghost Value = { Journals };

    ghost view = { λ commit. record { front = commit.front; images = commit.images.items } };
}
