//! Requests: doc/proto.md, "Request message".

ghost use Rattle.std.specs.Prelude.{false, ◌≡◌, ◌≤◌, ◌++◌, ◌↔◌, List, ℕ, length, slice_range};
ghost use Rattle.byteorder.specs.Endian.{big_bytes};
ghost use Rattle.nbd_codec.specs.Fields.{Gives, agrees};
ghost use Rattle.nbd_codec.specs.Findings.{IfValue, IsFault, IsImpossible, IsProperPrefix, Takes, seen_by};
ghost use Rattle.nbd_codec.specs.Request.{HasLongPayload, PlainRequest, IsRequest, encoding, request_view, payload_of, head_of, head_at, body_at, request_at, request_in, plain};

use crate::constants::*;
use crate::fields::{Ending, limited_u32, magic, taken, u16_at, u32_at, u64_at};
use crate::findings::{Fault, Reading};

/// A request, with what its encoding holds. Offsets and lengths are in bytes.
#[derive(Clone, Copy, Debug, PartialEq, Eq)]
pub enum Request<'a> {
    /// READ.
    Read {
        flags: u16,
        cookie: u64,
        offset: u64,
        length: u32,
    },
    /// WRITE, with the payload behind it.
    Write {
        flags: u16,
        cookie: u64,
        offset: u64,
        payload: &'a [u8],
    },
    /// DISC: the client goes. None of its numbers is looked at.
    Disc {
        flags: u16,
        cookie: u64,
        offset: u64,
        length: u32,
    },
    /// FLUSH.
    Flush {
        flags: u16,
        cookie: u64,
        offset: u64,
        length: u32,
    },
    /// WRITE_ZEROES. It has no payload.
    Zero {
        flags: u16,
        cookie: u64,
        offset: u64,
        length: u32,
    },
    /// A request of another type. No payload is read.
    Other {
        kind: u16,
        flags: u16,
        cookie: u64,
        offset: u64,
        length: u32,
    },
}

impl Request<'_> {
    /// The cookie, by which the client knows the reply.
    pub fn cookie(&self) -> u64
        ensures { result ≡ (head_of (request_view self.now)).cookie }
    {
        match *self {
            Request::Read { cookie, .. }
            | Request::Write { cookie, .. }
            | Request::Disc { cookie, .. }
            | Request::Flush { cookie, .. }
            | Request::Zero { cookie, .. }
            | Request::Other { cookie, .. } => cookie,
        }
    }
}

/// The numbers of a request before its length.
#[derive(Clone, Copy)]
struct Head {
    flags: u16,
    kind: u16,
    cookie: u64,
    offset: u64,
}

/// The magic and the head.
#[tactic(auto, unfolding(crate::specs::Request::head_at))]
fn head_of(bytes: &[u8]) -> Result<(Head, &[u8]), Ending>
    ensures { Gives (λ x. (x.0, x.1.now)) result (head_at bytes.now) }
{
    let rest = magic(&REQUEST_MAGIC.to_be_bytes(), Fault::RequestMagic, bytes)?;
    let (flags, rest) = u16_at(rest)?;
    let (kind, rest) = u16_at(rest)?;
    let (cookie, rest) = u64_at(rest)?;
    let (offset, rest) = u64_at(rest)?;
    let head = Head {
        flags,
        kind,
        cookie,
        offset,
    };
    Ok((head, rest))
}

/// The request that has no payload.
fn without_payload(head: Head, length: u32) -> Request<'static>
    ensures { request_view result ≡ plain head length }
{
    let Head {
        flags,
        kind,
        cookie,
        offset,
    } = head;
    match kind {
        REQUEST_READ => Request::Read {
            flags,
            cookie,
            offset,
            length,
        },
        REQUEST_DISC => Request::Disc {
            flags,
            cookie,
            offset,
            length,
        },
        REQUEST_FLUSH => Request::Flush {
            flags,
            cookie,
            offset,
            length,
        },
        REQUEST_WRITE_ZEROES => Request::Zero {
            flags,
            cookie,
            offset,
            length,
        },
        _ => Request::Other {
            kind,
            flags,
            cookie,
            offset,
            length,
        },
    }
}

/// The length, and behind that of a WRITE the payload.
#[tactic(auto, unfolding(crate::specs::Request::body_at))]
fn body_of(head: Head, max_payload: u32, bytes: &[u8]) -> Result<(Request<'_>, &[u8]), Ending>
    ensures { Gives (λ x. (request_view x.0, x.1.now)) result (body_at max_payload head bytes.now) }
{
    if head.kind != REQUEST_WRITE {
        let (length, rest) = u32_at(bytes)?;
        return Ok((without_payload(head, length), rest));
    }
    let (length, rest) = limited_u32(bytes, max_payload, Fault::PayloadTooLong)?;
    let (payload, rest) = taken(rest, length)?;
    let request = Request::Write {
        flags: head.flags,
        cookie: head.cookie,
        offset: head.offset,
        payload,
    };
    Ok((request, rest))
}

/// The request at the front, and the bytes after it.
#[tactic(auto, unfolding(crate::specs::Request::request_at))]
fn request_of(bytes: &[u8], max_payload: u32) -> Result<(Request<'_>, &[u8]), Ending>
    ensures { Gives (λ x. (request_view x.0, x.1.now)) result
        (request_at max_payload bytes.now) }
{
    let (head, rest) = head_of(bytes)?;
    body_of(head, max_payload, rest)
}

/// What is found at the front, without what follows from it.
fn find_request(input: &[u8], max_payload: u32) -> Reading<Request<'_>>
    ensures { seen_by request_view result ≡ request_in max_payload input.now }
{
    match request_of(input, max_payload) {
        Ok((request, rest)) => Reading::Value(request, input.len() - rest.len()),
        Err(Ending::Short) => Reading::More,
        Err(Ending::Fault(fault)) => Reading::Fault(fault),
    }
}

/// Reads the request at the front. A WRITE is whole with its payload, of at most `max_payload` bytes.
/// The session ends at the first byte that can't be of a request that is taken.
pub fn read_request(input: &[u8], max_payload: u32) -> Reading<Request<'_>>
    // A request stands at the front, encoded so.
    ensures found { IfValue result (λ request len.
        Takes encoding (IsRequest max_payload) input.now (request_view request) len) }
    // It has a whole header, and no more bytes than came.
    ensures within { IfValue result (λ request len.
        (REQUEST_HEADER ≤ len) × (len ≤ length input.now)) }
    // Its payload is all behind its header, and none but a WRITE has one.
    ensures payload { IfValue result (λ request len.
        slice_range input.now REQUEST_HEADER len ≡ payload_of (request_view request)) }
    // A request that stands at the front is read.
    ensures only { (request : PlainRequest) (rest : List ℕ) →
        IsRequest max_payload request → input.now ≡ encoding request ++ rest →
        seen_by request_view result ≡ Reading.Value request (length (encoding request)) }
    // More is needed exactly where a request has begun and is not whole.
    ensures more { (result ≡ Reading.More)
        ↔ IsProperPrefix encoding (IsRequest max_payload) input.now }
    // A fault is found exactly where no request can come, however the bytes go on.
    ensures fault { IsFault result ↔ IsImpossible encoding (IsRequest max_payload) input.now }
    // The magic is wrong exactly where the bytes differ from it as far as they go.
    ensures magic { (result ≡ Reading.Fault Fault.RequestMagic)
        ↔ (agrees (big_bytes 4 REQUEST_MAGIC) input.now ≡ false) }
    // A payload is too long exactly where a WRITE has begun whose length is above the limit.
    ensures too_long { (result ≡ Reading.Fault Fault.PayloadTooLong)
        ↔ HasLongPayload max_payload input.now }
    // All of this at once: what reading from left to right gives.
    ensures exact { seen_by request_view result ≡ request_in max_payload input.now }
{
    find_request(input, max_payload)
}
