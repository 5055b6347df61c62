//! The greeting and the client flags: doc/proto.md, "Fixed newstyle negotiation".

ghost use Rattle.std.specs.Prelude.{◌≡◌, ◌≤◌, ◌++◌, ◌↔◌, List, ℕ, length};
ghost use Rattle.nbd_codec.specs.declared.handshake.ClientFlags.{ClientFlags as Flags};
ghost use Rattle.nbd_codec.specs.Findings.{IfValue, IsImpossible, IsProperPrefix, Takes};
ghost use Rattle.nbd_codec.specs.Handshake.{AreFlags, greeting_encoding, flags_encoding, flags_in};

use crate::constants::*;
use crate::fields::least_u32;
use crate::findings::{Fault, Reading};
use byteorder::{BigEndian, ByteOrder};

/// What the client takes up of the server's offer. FIXED_NEWSTYLE is always among it.
#[derive(Clone, Copy, Debug, PartialEq, Eq)]
pub struct ClientFlags {
    /// The client wants no zeros behind the answer to EXPORT_NAME.
    pub no_zeroes: bool,
}

/// The first bytes from the server.
pub fn greeting() -> [u8; GREETING_LEN]
    ensures { result ≡ greeting_encoding }
{
    let mut bytes = [0; GREETING_LEN];
    BigEndian::write_u64(&mut bytes, INIT_MAGIC);
    BigEndian::write_u64(&mut bytes[8..], OPTION_MAGIC);
    BigEndian::write_u16(&mut bytes[16..], HANDSHAKE_FLAGS);
    bytes
}

/// What is found at the front, without what follows from it.
#[tactic(auto, unfolding(crate::specs::Handshake::flags_at, crate::specs::Fields::limited_at, crate::specs::Fields::number_at))]
fn find_flags(input: &[u8]) -> Reading<ClientFlags>
    ensures { result ≡ flags_in input.now }
{
    let bits = least_u32(input);
    if bits > FIXED_NEWSTYLE_NO_ZEROES {
        return Reading::Fault(Fault::ClientFlags);
    }
    if input.len() < CLIENT_FLAGS_LEN {
        return Reading::More;
    }
    match bits {
        FIXED_NEWSTYLE => Reading::Value(ClientFlags { no_zeroes: false }, CLIENT_FLAGS_LEN),
        FIXED_NEWSTYLE_NO_ZEROES => {
            Reading::Value(ClientFlags { no_zeroes: true }, CLIENT_FLAGS_LEN)
        }
        _ => Reading::Fault(Fault::ClientFlags),
    }
}

/// Reads the client flags, four bytes. The session ends at the first byte that can't be of flags
/// that are taken.
pub fn read_client_flags(input: &[u8]) -> Reading<ClientFlags>
    // Flags stand at the front, encoded so.
    ensures found { IfValue result (λ flags len. Takes flags_encoding AreFlags input.now flags len) }
    // They have four bytes, and no more than came.
    ensures within { IfValue result (λ flags len.
        (len ≡ CLIENT_FLAGS_LEN) × (len ≤ length input.now)) }
    // Flags that stand at the front are read.
    ensures only { (flags : Flags) (rest : List ℕ) → input.now ≡ flags_encoding flags ++ rest →
        result ≡ Reading.Value flags CLIENT_FLAGS_LEN }
    // More is needed exactly where flags have begun and are not whole.
    ensures more { (result ≡ Reading.More) ↔ IsProperPrefix flags_encoding AreFlags input.now }
    // A fault is found exactly where no flags can come, however the bytes go on.
    ensures fault { (result ≡ Reading.Fault Fault.ClientFlags)
        ↔ IsImpossible flags_encoding AreFlags input.now }
    // All of this at once: what reading from left to right gives.
    ensures exact { result ≡ flags_in input.now }
{
    find_flags(input)
}
