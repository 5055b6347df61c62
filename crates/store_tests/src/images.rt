//! Images that tests write, and what they look for in those that they read.
ghost use Rattle.std.specs.Prelude.{◌≡◌};

use crate::comparing::{same, same_at};
use bytes::Bytes;
use gate_journal::{IMAGE_SIZE, Image};
use std::alloc::Global;
use std::process::Abort;

/// An image of a block which consists of this byte.
pub(crate) fn image(rt: &impl Abort, alloc: Global, block: u32, byte: u8) -> Image
    ensures { result.block ≡ block }
{
    let bytes = Bytes::copy_from_slice(alloc, &[byte; IMAGE_SIZE]).expect(rt, "memory");
    Image::new(block, bytes)
}

/// There is one image: of this block, which consists of this byte.
pub(crate) fn is_of(rt: &impl Abort, images: &[Image], block: u32, byte: u8) {
    same_at(rt, images.len(), 1, block);
    for image in images {
        same(rt, image.block(), block);
        let mut bytes = [0xee; IMAGE_SIZE];
        image.copy_to(&mut bytes);
        same_at(rt, bytes, [byte; IMAGE_SIZE], block);
    }
}
