//! The volume's bytes, worked out from its writes anew each time.

ghost use Rattle.std.specs.Prelude.{◌≡◌, ℕ, IfOk, drop, map, take};
ghost use Rattle.volume.specs.Writes.{patched as patched_by, volume_of};

use crate::taken::TakenWrite;
use std::alloc::{AllocError, Global};
use volume::Write;

// The volume with the write's bytes in their places.
fn patched(alloc: Global, volume: &[u8], write: &Write) -> Result<Vec<u8>, AllocError>
    ensures { IfOk result (λ new. new.items ≡ patched_by volume.now write.now) }
{
    let payload = write.payload(alloc)?;
    let start = volume.len().min(write.offset() as usize);
    let end = volume.len().min(start + payload.len());
    let mut new = volume[..start].to_vec(alloc)?;
    new.extend_from_slice(&payload)?;
    new.extend_from_slice(&volume[end..])?;
    Ok(new)
}

// The volume of so many bytes after these writes.
pub fn contents(alloc: Global, size: usize, taken: &[TakenWrite]) -> Result<Vec<u8>, AllocError>
    ensures { IfOk result (λ volume. volume.items ≡ volume_of size (map (λ t. t.write) taken.now)) }
{
    let mut volume = vec![in alloc; 0u8; size]?;
    for write in taken {
        volume = patched(alloc, &volume, write.write())?;
    }
    Ok(volume)
}

// The bytes of this range, as far as the volume has them.
pub fn range(alloc: Global, volume: &[u8], offset: u64, len: u64) -> Result<Vec<u8>, AllocError>
    ensures { IfOk result (λ bytes. bytes.items ≡ take len (drop offset volume.now)) }
{
    let rest = &volume[volume.len().min(offset as usize)..];
    rest[..rest.len().min(len as usize)].to_vec(alloc)
}
