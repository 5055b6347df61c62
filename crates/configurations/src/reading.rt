// What a record's bytes begin with, piece by piece.
ghost use Rattle.std.specs.Prelude.{◌≡◌, ◌++◌, ◌^◌, ◌<◌, List, length, IfOk, IfSome, IfNone};
ghost use Rattle.byteorder.specs.Endian.{big_bytes};
ghost use Rattle.configurations.specs.declared.member.Member.{Member};
ghost use Rattle.configurations.specs.Record.{AreEncoded, HasNoHeader, HasNoMember, IsMember, header_encoding, member_encoding};

use crate::record::PREFIX;
use crate::{Epoch, Incarnation, Member};
use gate_journal::Slot;
use std::alloc::{AllocError, Global};

/// The number that bytes begin with, and what is behind it.
fn read_u64(bytes: &[u8]) -> Option<(u64, &[u8])>
    ensures read { IfSome result (λ p. bytes.now ≡ big_bytes 8 p.0 ++ p.1.now) }
    ensures short { IfNone result (length bytes.now < 8) }
{
    let (number, behind) = bytes.split_first_chunk::<8>()?;
    Some((u64::from_be_bytes(*number), behind))
}

/// What bytes begin with, behind the prefix.
#[derive(Clone, Copy)]
pub(crate) struct Header<'a> {
    pub(crate) epoch: Epoch,
    pub(crate) count: u8,
    pub(crate) behind: &'a [u8],
}

/// The header that bytes begin with.
pub(crate) fn read_header(bytes: &[u8]) -> Option<Header<'_>>
    ensures header { IfSome result (λ h. bytes.now ≡ header_encoding h.epoch h.count ++ h.behind.now) }
    ensures epoch { IfSome result (λ h. h.epoch < 2 ^ 63) }
    ensures none { IfNone result (HasNoHeader bytes.now) }
{
    let behind = bytes.strip_prefix(&PREFIX)?;
    let (number, behind) = read_u64(behind)?;
    let (count, behind) = behind.split_first()?;
    let epoch = Epoch::new(number)?;
    Some(Header {
        epoch,
        count: *count,
        behind,
    })
}

/// The member that bytes begin with, and what is behind it.
fn read_member(bytes: &[u8]) -> Option<(Member, &[u8])>
    ensures member { IfSome result (λ p. bytes.now ≡ member_encoding p.0 ++ p.1.now) }
    ensures is { IfSome result (λ p. IsMember p.0) }
    ensures none { IfNone result (HasNoMember bytes.now) }
{
    let (place, behind) = bytes.split_first()?;
    let (number, behind) = read_u64(behind)?;
    let slot = Slot::new(*place)?;
    let incarnation = Incarnation::new(number)?;
    Some((Member { slot, incarnation }, behind))
}

/// The members that bytes encode, where they encode so many.
pub(crate) fn read_members(
    alloc: Global,
    count: u8,
    bytes: &[u8],
) -> Result<Option<Vec<Member>>, AllocError>
    ensures found { IfOk result (λ found. IfSome found (λ members. AreEncoded count bytes.now members.items)) }
    ensures none { IfOk result (λ found. IfNone found ((members : List Member) → AreEncoded count bytes.now members → ⊥)) }
{
    let mut members = Vec::new(alloc);
    let mut rest = bytes;
    for _ in 0..count {
        let Some((member, behind)) = read_member(rest) else {
            return Ok(None);
        };
        members.push(member)?;
        rest = behind;
    }
    if rest.is_empty() {
        Ok(Some(members))
    } else {
        Ok(None)
    }
}
