ghost use Rattle.std.specs.Prelude.{◌≡◌, ◌↔◌, ℕ, ◌+◌, ◌*◌, ◌≤◌, ◌<◌, ◌^◌, IfOk, IfSome, IsTrue, is_none, List, length, replicate};
ghost use Rattle.volume.specs.Body.{is_zeros, kept_of};

use crate::geometry::BLOCK_SIZE;
use bytes::Bytes;
use std::alloc::{AllocError, Global};
use std::marker::Model;

/// A write of the volume: bytes, and the place of the first of them. Of zeros alone it keeps how many they are, and no byte. A clone
/// shares the bytes.
#[derive(Debug, Drop)]
pub struct Write {
    offset: u64,
    body: Body,
}

/// What a write puts in its place.
#[derive(Debug, Drop)]
pub enum Body {
    /// These bytes, not all of which are zero.
    Given(Bytes),
    /// So many zeros.
    Zeros(u64),
}

impl Model for Write {
    ghost use Rattle.volume.specs.Body.{bytes_of, IsBody};
    ghost use Rattle.volume.specs.Writes.{Placed};

    ghost Value = { Placed };

    ghost view = { λ w. record { offset = w.offset; bytes = bytes_of w.body } };

    ghost invariant = { λ w. IsBody w.body };
}

impl Write {
    /// A write of the payload from the byte `offset` of the volume on.
    pub fn new(offset: u64, payload: Bytes) -> Write
        ensures offset { result.offset ≡ offset }
        ensures bytes { result.bytes ≡ payload }
    {
        if is_zeros(&payload) {
            return Write {
                offset,
                body: Body::Zeros(payload.len() as u64),
            };
        }
        Write {
            offset,
            body: Body::Given(payload),
        }
    }

    /// A write of so many zeros from the byte `offset` of the volume on.
    pub fn zeros(offset: u64, len: u32) -> Write
        ensures offset { result.offset ≡ offset }
        ensures bytes { result.bytes ≡ replicate len 0 }
    {
        Write {
            offset,
            body: Body::Zeros(u64::from(len)),
        }
    }

    /// The place of its first byte in the volume.
    pub fn offset(&self) -> u64
        ensures { result ≡ self.now.offset }
    {
        self.offset
    }

    /// How many bytes it has.
    pub fn len(&self) -> u64
        ensures { result ≡ length self.now.bytes }
    {
        match &self.body {
            Body::Given(payload) => payload.len() as u64,
            Body::Zeros(len) => *len,
        }
    }

    /// Whether it has none.
    pub fn is_empty(&self) -> bool
        ensures { IsTrue result ↔ (length self.now.bytes ≡ 0) }
    {
        self.len() == 0
    }

    /// How many bytes it keeps: none of zeros alone.
    pub fn kept(&self) -> u64
        ensures kept { result ≡ kept_of self.now }
        ensures small { result < 2 ^ 63 }
    {
        match &self.body {
            Body::Given(payload) => payload.len() as u64,
            Body::Zeros(_) => 0,
        }
    }

    /// Its bytes: shared, or made where they are zeros.
    pub fn payload(&self, alloc: Global) -> Result<Bytes, AllocError>
        ensures { IfOk result (λ payload. payload ≡ self.now.bytes) }
    {
        match &self.body {
            Body::Given(payload) => payload.clone(),
            Body::Zeros(len) => Ok(Bytes::from_vec(vec![in alloc; 0; *len as usize]?)?),
        }
    }

    /// The whole block of the volume that the write has, which shares the write's bytes. `None` where the write is of zeros alone.
    /// The write has each byte of the block.
    pub fn share_block(&self, block: u32) -> Result<Option<Bytes>, AllocError>
        requires from { self.now.offset ≤ 4096 * block }
        requires upto { 4096 * block + 4096 ≤ self.now.offset + length self.now.bytes }
        ensures bytes { IfOk result (λ given. IfSome given (λ bytes. (volume : List ℕ)
            → self.now.offset + length self.now.bytes ≤ length volume → block_of (patched volume self.now) block ≡ bytes)) }
        ensures len { IfOk result (λ given. IfSome given (λ bytes. length bytes ≡ 4096)) }
        ensures zeros { IfOk result (λ given. is_none given ≡ is_zeros self.now.bytes) }
    {
        match &self.body {
            Body::Given(payload) => {
                let from = (u64::from(block) * BLOCK_SIZE - self.offset) as usize;
                Ok(Some(payload.slice(from..from + BLOCK_SIZE as usize)?))
            }
            Body::Zeros(_) => Ok(None),
        }
    }
}

impl Clone for Write {
    ghost is_clone = { λ w copy. copy ≡ w };

    fn clone(&self) -> Result<Write, AllocError> {
        let body = match &self.body {
            Body::Given(payload) => Body::Given(payload.clone()?),
            Body::Zeros(len) => Body::Zeros(*len),
        };
        Ok(Write {
            offset: self.offset,
            body,
        })
    }
}

/// Whether all of these bytes are zero.
fn is_zeros(bytes: &[u8]) -> bool
    ensures { result ≡ is_zeros bytes.now }
{
    bytes.iter().all(|byte| *byte == 0)
}

ghost use Rattle.volume.specs.Writes.{patched, block_of, IsTouched};

/// Patches a block of a volume by a write: afterwards it is that block of the patched volume.
/// A block that the write doesn't touch stays as it was. The write ends below 2^64 bytes.
pub fn patch(bytes: &mut [u8; 4_096], write: &Write, block: u32)
    requires { write.now.offset + length write.now.bytes < 2 ^ 64 }
    ensures patched { (volume : List ℕ) → write.now.offset + length write.now.bytes ≤ length volume
        → block_of volume block ≡ bytes.old → block_of (patched volume write.now) block ≡ bytes.new }
    ensures untouched { (IsTouched write.now block → ⊥) → bytes.new ≡ bytes.old }
{
    let first = u64::from(block) * BLOCK_SIZE;
    let start = first.max(write.offset());
    let end = (first + BLOCK_SIZE).min(write.offset() + write.len());
    if start < end {
        let place = (start - first) as usize..(end - first) as usize;
        let from = (start - write.offset()) as usize..(end - write.offset()) as usize;
        match &write.body {
            Body::Given(payload) => bytes[place].copy_from_slice(&payload[from]),
            Body::Zeros(_) => bytes[place].fill(0),
        }
    }
}
