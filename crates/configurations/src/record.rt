ghost use Rattle.std.specs.Prelude.{◌≡◌, ◌≢◌, ◌++◌, ◌+◌, ◌<◌, ◌≤◌, ◌↔◌, length, AllPairs, Any, IfOk, IfSome, IsTrue, IsOk, IsErrOf, OnOk};
ghost use Rattle.configurations.specs.Record.{AreMembers};

use crate::reading::{read_header, read_members};
use crate::{Epoch, Member, Refusal};
use gate_journal::Slot;
use std::alloc::{AllocError, Global};
use std::marker::Model;

/// The most members that a chain has.
pub const MAX_MEMBERS: usize = 8;

/// What the bytes of a record begin with: the magic, and the version of the encoding.
pub(crate) const PREFIX: [u8; 12] = *b"CRAQCONF\x00\x00\x00\x01";

/// A configuration: an epoch, and the members of the chain in its order.
#[derive(Debug, Drop)]
pub struct Record {
    epoch: Epoch,
    members: Vec<Member>,
}

impl Model for Record {
    ghost use Rattle.configurations.specs.Record.{AreMembers, Record};

    ghost Value = { Record };

    ghost view = { λ r. record { epoch = r.epoch; members = r.members.items } };

    ghost invariant = { λ r. AreMembers r.members.items };
}

impl Record {
    ghost use Rattle.std.specs.Prelude.{◌≡◌, ◌↔◌, ◌≤◌, length, Some, IfOk, IfSome, OnOk, IsOk, IsErrOf};
    ghost use Rattle.configurations.specs.Record.{AreMembers, IsRecord, IsEncoding, Record as Encoded, record_encoding};

    /// The configuration of this epoch and these members, in the chain's order. 163 `BadMembers` for none, for more
    /// than eight, and for a slot twice.
    pub fn new(epoch: Epoch, members: Vec<Member>) -> Result<Record, Refusal>
        ensures value { IfOk result (λ r. r ≡ record { epoch = epoch; members = members.items }) }
        ensures are { OnOk result (AreMembers members.items) }
        ensures ok { AreMembers members.items → IsOk result }
        ensures bad { IsErrOf result Refusal.BadMembers ↔ ¬ AreMembers members.items }
    {
        if !are_members(&members) {
            return Err(Refusal::BadMembers);
        }
        Ok(Record { epoch, members })
    }

    /// Its number among the configurations.
    pub fn epoch(&self) -> Epoch
        ensures { result ≡ self.now.epoch }
    {
        self.epoch
    }

    /// The members, one to eight, in the chain's order.
    pub fn members(&self) -> &[Member]
        ensures members { result.now ≡ self.now.members }
        ensures are { AreMembers result.now }
    {
        &self.members
    }

    /// The bytes that record it, at most 93.
    pub fn encoded(&self, alloc: Global) -> Result<Vec<u8>, AllocError>
        ensures encoding { IfOk result (λ bytes. bytes.items ≡ record_encoding self.now) }
        ensures short { IfOk result (λ bytes. length bytes.items ≤ 93) }
        ensures whole { OnOk result (IsRecord self.now) }
    {
        let members = self.members();
        let mut bytes = Vec::new(alloc);
        bytes.extend_from_slice(&PREFIX)?;
        bytes.extend_from_slice(&self.epoch().number().to_be_bytes())?;
        bytes.push(members.len() as u8)?;
        for member in members {
            bytes.push(member.slot.number())?;
            bytes.extend_from_slice(&member.incarnation.number().to_be_bytes())?;
        }
        Ok(bytes)
    }

    /// The record that these bytes encode, or `None` where they encode none.
    pub fn read(alloc: Global, bytes: &[u8]) -> Result<Option<Record>, AllocError>
        ensures found { IfOk result (λ found. IfSome found (IsEncoding bytes.now)) }
        ensures exact { IfOk result (λ found. (r : Encoded) → IsEncoding bytes.now r → found ≡ Some r) }
    {
        let Some(header) = read_header(bytes) else {
            return Ok(None);
        };
        let Some(members) = read_members(alloc, header.count, header.behind)? else {
            return Ok(None);
        };
        Ok(Record::new(header.epoch, members).ok())
    }
}

/// Whether a chain can have these members.
fn are_members(members: &[Member]) -> bool
    ensures { IsTrue result ↔ AreMembers members.now }
{
    !members.is_empty() && members.len() <= MAX_MEMBERS && has_each_once(members)
}

/// Whether no slot stands twice.
fn has_each_once(members: &[Member]) -> bool
    ensures { IsTrue result ↔ AllPairs (λ a b. a.slot ≢ b.slot) members.now }
{
    for (i, member) in members.iter().enumerate() {
        if has_slot(&members[..i], member.slot) {
            return false;
        }
    }
    true
}

fn has_slot(members: &[Member], slot: Slot) -> bool
    ensures { IsTrue result ↔ Any (λ m. m.slot ≡ slot) members.now }
{
    members.iter().any(|member| member.slot == slot)
}
