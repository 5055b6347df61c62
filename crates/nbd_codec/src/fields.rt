//! Fields, read from left to right.

ghost use Rattle.std.specs.Prelude.{◌≡◌, slice_index};
ghost use Rattle.byteorder.specs.Endian.{big_number};
ghost use Rattle.nbd_codec.specs.Fields.{Gives, agrees, magic_at, number_at, limited_at, bytes_at};

use crate::findings::Fault;
use byteorder::{BigEndian, ByteOrder};

/// Why there is no field at the front.
#[derive(Clone, Copy, Debug, PartialEq, Eq)]
pub(crate) enum Ending {
    /// More bytes are needed.
    Short,
    /// The bytes can't become the field.
    Fault(Fault),
}

/// Whether the bytes are those of the magic, as far as both go.
fn begins_as(magic: &[u8], bytes: &[u8]) -> bool
    ensures { result ≡ agrees magic.now bytes.now }
{
    let len = magic.len().min(bytes.len());
    &magic[..len] == &bytes[..len]
}

/// The bytes after the magic.
#[tactic(auto, unfolding(crate::specs::Fields::magic_at))]
pub(crate) fn magic<'a>(magic: &[u8], fault: Fault, bytes: &'a [u8]) -> Result<&'a [u8], Ending>
    ensures { Gives (λ x. x.now) result (magic_at magic.now fault bytes.now) }
{
    if !begins_as(magic, bytes) {
        return Err(Ending::Fault(fault));
    }
    if bytes.len() < magic.len() {
        return Err(Ending::Short);
    }
    Ok(&bytes[magic.len()..])
}

/// A number of two bytes.
#[tactic(auto, unfolding(crate::specs::Fields::number_at))]
pub(crate) fn u16_at(bytes: &[u8]) -> Result<(u16, &[u8]), Ending>
    ensures { Gives (λ x. (x.0, x.1.now)) result (number_at 2 bytes.now) }
{
    if bytes.len() < 2 {
        return Err(Ending::Short);
    }
    Ok((BigEndian::read_u16(bytes), &bytes[2..]))
}

/// A number of four bytes.
#[tactic(auto, unfolding(crate::specs::Fields::number_at))]
pub(crate) fn u32_at(bytes: &[u8]) -> Result<(u32, &[u8]), Ending>
    ensures { Gives (λ x. (x.0, x.1.now)) result (number_at 4 bytes.now) }
{
    if bytes.len() < 4 {
        return Err(Ending::Short);
    }
    Ok((BigEndian::read_u32(bytes), &bytes[4..]))
}

/// A number of eight bytes.
#[tactic(auto, unfolding(crate::specs::Fields::number_at))]
pub(crate) fn u64_at(bytes: &[u8]) -> Result<(u64, &[u8]), Ending>
    ensures { Gives (λ x. (x.0, x.1.now)) result (number_at 8 bytes.now) }
{
    if bytes.len() < 8 {
        return Err(Ending::Short);
    }
    Ok((BigEndian::read_u64(bytes), &bytes[8..]))
}

fn byte_or_zero(bytes: &[u8], i: usize) -> u8
    ensures { result ≡ slice_index bytes.now i }
{
    bytes.get(i).copied().unwrap_or(0)
}

/// The least number of four bytes that begins with these bytes.
pub(crate) fn least_u32(bytes: &[u8]) -> u32
    ensures { result ≡ big_number 4 bytes.now }
{
    BigEndian::read_u32(&[
        byte_or_zero(bytes, 0),
        byte_or_zero(bytes, 1),
        byte_or_zero(bytes, 2),
        byte_or_zero(bytes, 3),
    ])
}

/// A number of four bytes, at most the limit: the fault comes with the first byte that puts it above
/// that.
#[tactic(auto, unfolding(crate::specs::Fields::limited_at))]
pub(crate) fn limited_u32(bytes: &[u8], limit: u32, fault: Fault) -> Result<(u32, &[u8]), Ending>
    ensures { Gives (λ x. (x.0, x.1.now)) result (limited_at limit fault bytes.now) }
{
    if least_u32(bytes) > limit {
        return Err(Ending::Fault(fault));
    }
    u32_at(bytes)
}

/// That many bytes.
#[tactic(auto, unfolding(crate::specs::Fields::bytes_at))]
pub(crate) fn taken(bytes: &[u8], len: u32) -> Result<(&[u8], &[u8]), Ending>
    ensures { Gives (λ x. (x.0.now, x.1.now)) result (bytes_at len bytes.now) }
{
    let len = len as usize;
    if bytes.len() < len {
        return Err(Ending::Short);
    }
    Ok(bytes.split_at(len))
}
