//! Replies to options: doc/proto.md, "Option haggling", "Option reply types".

ghost use Rattle.std.specs.Prelude.{◌≡◌, ◌+◌, ◌<◌, ◌≤◌, ◌++◌, length, OnErr, OnOk};
ghost use Rattle.byteorder.specs.Endian.{big_bytes};
ghost use Rattle.nbd_codec.specs.OptionReply.{type_of, reply_data, option_reply_encoding, export_encoding};

use crate::constants::*;
use crate::numbers::{put_u16, put_u32, put_u64};
use bytes::BytesMut;
use std::alloc::AllocError;

/// How many bytes an option reply has before the length of its data.
const OPTION_REPLY_HEAD: usize = 16;
/// How many bytes the length of its data has.
const LENGTH_LEN: usize = 4;
/// How many bytes the answer to EXPORT_NAME has before its zeros.
const EXPORT_LEN: usize = 10;

/// A reply to an option.
#[derive(Clone, Copy, Debug, PartialEq, Eq)]
pub enum OptionReply {
    /// ACK: the option was done.
    Ack,
    /// SERVER: there is one export, with the empty name.
    Server,
    /// INFO of type EXPORT, with the size in bytes and the transmission flags.
    Export { size: u64 },
    /// INFO of type BLOCK_SIZE, with the longest payload in bytes.
    BlockSize { max_payload: u32 },
    /// ERR_UNSUP: the option is not known.
    ErrUnsup,
    /// ERR_INVALID: the option's data is malformed.
    ErrInvalid,
    /// ERR_UNKNOWN: there is no export of that name.
    ErrUnknown,
    /// ERR_TOO_BIG: the option's data is longer than 4,096 bytes.
    ErrTooBig,
}

impl OptionReply {
    /// The reply type on the wire.
    fn number(self) -> u32
        ensures { result ≡ type_of self }
    {
        match self {
            OptionReply::Ack => REPLY_ACK,
            OptionReply::Server => REPLY_SERVER,
            OptionReply::Export { .. } | OptionReply::BlockSize { .. } => REPLY_INFO,
            OptionReply::ErrUnsup => REPLY_ERR_UNSUP,
            OptionReply::ErrInvalid => REPLY_ERR_INVALID,
            OptionReply::ErrUnknown => REPLY_ERR_UNKNOWN,
            OptionReply::ErrTooBig => REPLY_ERR_TOO_BIG,
        }
    }

    /// How many bytes its data has, with its length.
    #[tactic(auto, unfolding(crate::specs::OptionReply::reply_data))]
    fn data_len(self) -> usize
        ensures data { result ≡ length (reply_data self) }
        ensures most { result ≤ LENGTH_LEN + INFO_BLOCK_SIZE_LEN }
    {
        let len = match self {
            OptionReply::Server => SERVER_LEN,
            OptionReply::Export { .. } => INFO_EXPORT_LEN,
            OptionReply::BlockSize { .. } => INFO_BLOCK_SIZE_LEN,
            OptionReply::Ack
            | OptionReply::ErrUnsup
            | OptionReply::ErrInvalid
            | OptionReply::ErrUnknown
            | OptionReply::ErrTooBig => NO_DATA_LEN,
        };
        LENGTH_LEN + len as usize
    }
}

/// Puts what stands before the length of a reply's data into the room that was made.
fn put_head(out: &mut BytesMut, option: u32, reply: OptionReply)
    requires { OPTION_REPLY_HEAD ≤ out.old.spare }
    ensures head { out.new.items ≡ out.old.items
        ++ (big_bytes 8 OPTION_REPLY_MAGIC ++ (big_bytes 4 option ++ big_bytes 4 (type_of reply))) }
    ensures room { out.new.spare + OPTION_REPLY_HEAD ≡ out.old.spare }
{
    put_u64(out, OPTION_REPLY_MAGIC);
    put_u32(out, option);
    put_u32(out, reply.number());
}

/// Puts the length of the reply's data, and the data, into the room that was made.
#[tactic(auto, unfolding(crate::specs::OptionReply::reply_data))]
fn put_data(out: &mut BytesMut, reply: OptionReply)
    requires { length (reply_data reply) ≤ out.old.spare }
    ensures { out.new.items ≡ out.old.items ++ reply_data reply }
{
    match reply {
        OptionReply::Server => {
            put_u32(out, SERVER_LEN);
            put_u32(out, SERVER_NAME_LEN);
        }
        OptionReply::Export { size } => {
            put_u32(out, INFO_EXPORT_LEN);
            put_u16(out, INFO_EXPORT);
            put_u64(out, size);
            put_u16(out, TRANSMISSION_FLAGS);
        }
        OptionReply::BlockSize { max_payload } => {
            put_u32(out, INFO_BLOCK_SIZE_LEN);
            put_u16(out, INFO_BLOCK_SIZE);
            put_u32(out, MINIMUM_BLOCK);
            put_u32(out, PREFERRED_BLOCK);
            put_u32(out, max_payload);
        }
        OptionReply::Ack
        | OptionReply::ErrUnsup
        | OptionReply::ErrInvalid
        | OptionReply::ErrUnknown
        | OptionReply::ErrTooBig => put_u32(out, NO_DATA_LEN),
    }
}

/// Puts the one encoding of a reply to the option of that number at the end, with one growth at most.
/// It fails only where memory runs out.
#[tactic(auto, unfolding(crate::specs::OptionReply::option_reply_encoding))]
pub fn write_option_reply(
    out: &mut BytesMut,
    option: u32,
    reply: OptionReply,
) -> Result<(), AllocError>
    ensures ok { OnOk result (out.new.items
        ≡ out.old.items ++ option_reply_encoding option reply) }
    // A refused growth leaves what was there.
    ensures err { OnErr result (out.new.items ≡ out.old.items) }
    // It is asked for only where the room is too small.
    ensures short { OnErr result (out.old.spare < length (option_reply_encoding option reply)) }
{
    out.reserve(OPTION_REPLY_HEAD + reply.data_len())?;
    put_head(out, option, reply);
    put_data(out, reply);
    Ok(())
}

/// Puts the answer to EXPORT_NAME at the end, with one growth at most: the size in bytes, the
/// transmission flags, and 124 zeros unless both sides set NO_ZEROES. It fails only for want of
/// memory.
#[tactic(auto, unfolding(crate::specs::OptionReply::export_encoding))]
pub fn write_export(out: &mut BytesMut, size: u64, no_zeroes: bool) -> Result<(), AllocError>
    ensures ok { OnOk result (out.new.items ≡ out.old.items ++ export_encoding size no_zeroes) }
    // A refused growth leaves what was there.
    ensures err { OnErr result (out.new.items ≡ out.old.items) }
    // It is asked for only where the room is too small.
    ensures short { OnErr result (out.old.spare < length (export_encoding size no_zeroes)) }
{
    let zeros: &[u8] = if no_zeroes { &[] } else { &[0; EXPORT_ZEROS] };
    out.reserve(EXPORT_LEN + zeros.len())?;
    put_u64(out, size);
    put_u16(out, TRANSMISSION_FLAGS);
    out.extend_reserved(zeros);
    Ok(())
}
