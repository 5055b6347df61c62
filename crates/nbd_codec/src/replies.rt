//! Simple replies: doc/proto.md, "Simple reply message".

ghost use Rattle.std.specs.Prelude.{◌≡◌, ◌+◌, ◌<◌, ◌++◌, length, IfOk, OnErr, OnOk};
ghost use Rattle.nbd_codec.specs.Reply.{error_number, reply_encoding, reply_view, encoding};

use crate::constants::*;
use crate::numbers::{put_u32, put_u64};
use bytes::BytesMut;
use std::alloc::{AllocError, Global};

/// The error that a reply carries.
#[derive(Clone, Copy, Debug, PartialEq, Eq)]
pub enum NbdError {
    /// EIO: the volume could not do it.
    Io,
    /// ENOMEM: there was no memory for it.
    NoMemory,
    /// EINVAL: the request is not a valid one.
    Invalid,
    /// ENOSPC: the request writes past the end.
    NoSpace,
}

impl NbdError {
    /// The number on the wire.
    pub fn number(self) -> u32
        ensures { result ≡ error_number self }
    {
        match self {
            NbdError::Io => ERROR_IO,
            NbdError::NoMemory => ERROR_NO_MEMORY,
            NbdError::Invalid => ERROR_INVALID,
            NbdError::NoSpace => ERROR_NO_SPACE,
        }
    }
}

/// The reply to a request: the bytes of a READ that was done, no bytes for another request that was
/// done, or an error.
#[derive(Clone, Copy, Debug, PartialEq, Eq)]
pub struct SimpleReply<'a> {
    /// The cookie of the request.
    pub cookie: u64,
    /// What became of the request. A payload goes out only behind error 0.
    pub outcome: Result<&'a [u8], NbdError>,
}

/// A reply with this error's number, and the payload behind it.
fn encoded(alloc: Global, cookie: u64, number: u32, payload: &[u8]) -> Result<Vec<u8>, AllocError>
    ensures { IfOk result (λ reply. reply.items ≡ reply_encoding number cookie payload.now) }
{
    let mut reply = Vec::with_capacity(alloc, REPLY_HEADER + payload.len())?;
    reply.extend_from_slice(&SIMPLE_REPLY_MAGIC.to_be_bytes())?;
    reply.extend_from_slice(&number.to_be_bytes())?;
    reply.extend_from_slice(&cookie.to_be_bytes())?;
    reply.extend_from_slice(payload)?;
    Ok(reply)
}

/// Puts a reply with this error's number at the end, and the payload behind it.
fn put_reply(out: &mut BytesMut, cookie: u64, number: u32, payload: &[u8]) -> Result<(), AllocError>
    ensures ok { OnOk result (out.new.items ≡ out.old.items
        ++ reply_encoding number cookie payload.now) }
    ensures err { OnErr result (out.new.items ≡ out.old.items) }
    ensures short { OnErr result (out.old.spare < REPLY_HEADER + length payload.now) }
{
    let room = REPLY_HEADER + payload.len();
    // A first reply is made outside: `reserve` would set the room for it to zero.
    if out.is_empty() && out.capacity() < room {
        *out = BytesMut::from_vec(encoded(*out.allocator(), cookie, number, payload)?);
        return Ok(());
    }
    out.reserve(room)?;
    put_u32(out, SIMPLE_REPLY_MAGIC);
    put_u32(out, number);
    put_u64(out, cookie);
    out.extend_reserved(payload);
    Ok(())
}

/// Puts the one encoding of the reply at the end, with one growth at most. It fails only for want of
/// memory.
pub fn write_reply(out: &mut BytesMut, reply: &SimpleReply) -> Result<(), AllocError>
    ensures ok { OnOk result (out.new.items ≡ out.old.items ++ encoding (reply_view reply.now)) }
    // A refused growth leaves what was there.
    ensures err { OnErr result (out.new.items ≡ out.old.items) }
    // It is asked for only where the room is too small.
    ensures short { OnErr result (out.old.spare < length (encoding (reply_view reply.now))) }
{
    match reply.outcome {
        Ok(payload) => put_reply(out, reply.cookie, NO_ERROR, payload),
        Err(error) => put_reply(out, reply.cookie, error.number(), &[]),
    }
}
