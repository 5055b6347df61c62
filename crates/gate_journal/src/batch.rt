ghost use Rattle.std.specs.Prelude.{◌≡◌, ◌≢◌, ◌++◌, ◌+◌, ◌^◌, ◌<◌, ◌≤◌, ◌↔◌, ℕ, length, replicate, All, AllPairs, IfOk, OnOk, IsTrue};
ghost use Rattle.gate_journal.specs.Batch.{AreImages, IsWhole, batch_size, encoding_behind_gate};

use crate::image::Image;
use std::alloc::AllocError;
use std::marker::Model;

/// The bytes of an image: a block.
pub const IMAGE_SIZE: usize = 4_096;

/// The bytes of a batch beside its images: a gate, a front and a count.
pub const BATCH_HEADER: u64 = 13;

/// The bytes of an image in a batch, with its block's number.
pub const IMAGE_RECORD: u64 = 4_100;

/// The bytes of a mark, which stands for an image of zeros.
pub const MARK_SIZE: u64 = 4;

/// The bit of a block's number that makes it a mark.
pub(crate) const MARK_BIT: u32 = 1 << 31;

/// How many blocks a volume can have.
pub const MAX_BLOCKS: u32 = 65_536;

/// The greatest number of a write, and so of a front, of a ticket, an epoch or a store.
pub const MAX_NUMBER: u64 = u64::MAX >> 1;

/// A gate that shows no batch behind it.
pub const CLOSED: u8 = 0;

/// A gate that shows the batch behind it.
pub const OPEN: u8 = 1;

/// A batch: the front after it, and its images.
#[derive(Debug, Drop)]
pub struct Batch {
    front: u64,
    images: Vec<Image>,
}

impl Model for Batch {
    ghost use Rattle.gate_journal.specs.Batch.{Batch};

    ghost Value = { Batch };

    ghost view = { λ b. record { front = b.front; images = b.images.items } };
}

impl Batch {
    pub(crate) fn new(front: u64, images: Vec<Image>) -> Batch
        ensures { result ≡ record { front = front; images = images.items } }
    {
        Batch { front, images }
    }

    /// The number of the last write that the volume has after it.
    pub fn front(&self) -> u64
        ensures { result ≡ self.now.front }
    {
        self.front
    }

    /// What the blocks hold after it, of which it speaks.
    pub fn images(&self) -> &[Image]
        ensures { result.now ≡ self.now.images }
    {
        &self.images
    }
}

/// The bytes of a batch of these images, which are at most 65,536.
pub fn batch_size(images: &[Image]) -> u64
    requires { length images.now ≤ MAX_BLOCKS }
    ensures { result ≡ batch_size images.now }
{
    let mut size = BATCH_HEADER;
    for image in images {
        size += image.size();
    }
    size
}

/// Whether images are a batch of a volume of so many blocks.
pub(crate) fn are_images(blocks: u32, images: &[Image]) -> bool
    requires { blocks ≤ MAX_BLOCKS }
    ensures { IsTrue result ↔ AreImages blocks images.now }
{
    !images.is_empty() && images.iter().all(|image| image.block() < blocks) && has_each_once(images)
}

/// Whether no block stands twice, in one pass. The blocks are those of a volume.
fn has_each_once(images: &[Image]) -> bool
    requires { All (λ image. image.block < MAX_BLOCKS) images.now }
    ensures { IsTrue result ↔ AllPairs (λ a b. a.block ≢ b.block) images.now }
{
    let mut seen = [false; MAX_BLOCKS as usize];
    for image in images {
        let block = image.block() as usize;
        if seen[block] {
            return false;
        }
        seen[block] = true;
    }
    true
}

/// Puts the bytes of a batch behind its gate, and the closed gate behind the batch, into a buffer, in place of what it held. The
/// batch has so many bytes in all.
pub(crate) fn encode_behind_gate(
    buffer: &mut Vec<u8>,
    front: u64,
    images: &[Image],
    size: u64,
) -> Result<(), AllocError>
    requires few { length images.now < 2 ^ 32 }
    requires within { All (λ image. image.block < MAX_BLOCKS) images.now }
    requires size { size ≡ batch_size images.now }
    ensures encoding { OnOk result (buffer.new.items ≡ encoding_behind_gate front images.now) }
    ensures len { OnOk result (length buffer.new.items ≡ size) }
    ensures whole { OnOk result (All IsWhole images.now) }
{
    buffer.clear();
    buffer.reserve(size as usize)?;
    buffer.extend_from_slice(&front.to_be_bytes())?;
    buffer.extend_from_slice(&(images.len() as u32).to_be_bytes())?;
    for image in images {
        image.encode_to(buffer)?;
    }
    buffer.push(CLOSED)?;
    Ok(())
}
