ghost use Rattle.std.specs.Prelude.{◌≡◌, ◌<◌, ◌++◌, length, replicate, OnOk};
ghost use Rattle.gate_journal.specs.Batch.{IsWhole, image_encoding, image_size};
ghost use Rattle.gate_journal.specs.Image.{is_zeros};

use crate::batch::{IMAGE_RECORD, IMAGE_SIZE, MARK_BIT, MARK_SIZE, MAX_BLOCKS};
use bytes::Bytes;
use std::alloc::AllocError;
use std::marker::Model;

/// What a block is to hold: the block's number, and its bytes, of which none is kept where all are zero. A clone shares the bytes.
#[derive(Debug, Drop)]
pub struct Image {
    block: u32,
    content: Content,
}

/// The bytes of an image.
#[derive(Debug, Drop)]
pub enum Content {
    /// These, not all of which are zero.
    Whole(Bytes),
    /// Zeros.
    Zeros,
}

impl Model for Image {
    ghost use Rattle.gate_journal.specs.Image.{Image, IsContent, bytes_of};

    ghost Value = { Image };

    ghost view = { λ i. record { block = i.block; bytes = bytes_of i.content } };

    ghost invariant = { λ i. IsContent i.content };
}

impl Image {
    /// An image of the block with this number, of these 4,096 bytes, which it shares.
    pub fn new(block: u32, bytes: Bytes) -> Image
        requires { length bytes ≡ IMAGE_SIZE }
        ensures { result ≡ record { block = block; bytes = bytes } }
    {
        if is_zeros(&bytes) {
            return Image::zeros(block);
        }
        Image {
            block,
            content: Content::Whole(bytes),
        }
    }

    /// A block of zeros.
    pub fn zeros(block: u32) -> Image
        ensures { result ≡ record { block = block; bytes = replicate 4096 0 } }
    {
        Image {
            block,
            content: Content::Zeros,
        }
    }

    /// The block's number.
    pub fn block(&self) -> u32
        ensures { result ≡ self.now.block }
    {
        self.block
    }

    /// Whether its block is of zeros: then it is written as a mark.
    pub fn is_zeros(&self) -> bool
        ensures { result ≡ is_zeros self.now.bytes }
    {
        match &self.content {
            Content::Whole(_) => false,
            Content::Zeros => true,
        }
    }

    /// Puts its bytes into these 4,096.
    pub fn copy_to(&self, bytes: &mut [u8])
        requires { length bytes.old ≡ IMAGE_SIZE }
        ensures copied { bytes.new ≡ self.now.bytes }
        ensures long { length self.now.bytes ≡ IMAGE_SIZE }
    {
        match &self.content {
            Content::Whole(content) => bytes.copy_from_slice(content),
            Content::Zeros => bytes.fill(0),
        }
    }

    /// The bytes that it takes in a batch: 4 of zeros, else 4,100.
    pub fn size(&self) -> u64
        ensures { result ≡ image_size self.now }
    {
        if self.is_zeros() {
            MARK_SIZE
        } else {
            IMAGE_RECORD
        }
    }

    /// Adds its bytes in a batch.
    pub(crate) fn encode_to(&self, bytes: &mut Vec<u8>) -> Result<(), AllocError>
        requires { self.now.block < MAX_BLOCKS }
        ensures encoding { OnOk result (bytes.new.items ≡ bytes.old.items ++ image_encoding self.now) }
        ensures whole { IsWhole self.now }
    {
        match &self.content {
            Content::Whole(content) => {
                bytes.extend_from_slice(&self.block.to_be_bytes())?;
                bytes.extend_from_slice(content)
            }
            Content::Zeros => bytes.extend_from_slice(&(self.block + MARK_BIT).to_be_bytes()),
        }
    }
}

impl Clone for Image {
    ghost is_clone = { λ image copy. copy ≡ image };

    fn clone(&self) -> Result<Image, AllocError> {
        let content = match &self.content {
            Content::Whole(bytes) => Content::Whole(bytes.clone()?),
            Content::Zeros => Content::Zeros,
        };
        Ok(Image {
            block: self.block,
            content,
        })
    }
}

/// Whether all of these bytes are zero.
fn is_zeros(bytes: &[u8]) -> bool
    ensures { result ≡ is_zeros bytes.now }
{
    bytes.iter().all(|byte| *byte == 0)
}
