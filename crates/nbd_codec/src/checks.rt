//! The tests of a request that need the export's size.

ghost use Rattle.std.specs.Prelude.{◌≡◌, ◌<◌, ◌+◌, ◌^◌, ◌↔◌, IsTrue, Some};
ghost use Rattle.nbd_codec.specs.Request.{request_view};
ghost use Rattle.nbd_codec.specs.Checked.{IfVolume, IsForVolume, IsVolume, asked_by, has_fua, read_checked, write_checked, flush_checked, zero_batch, zero_checked, checked};

use crate::constants::*;
use crate::replies::NbdError;
use crate::requests::Request;

/// The bytes of a block.
const BLOCK: u64 = 4_096;

/// The bytes of a batch in a journal beside its blocks, with the closed gate behind it.
const BATCH_FRAME: u64 = 14;

/// The bytes in a batch of a block that a request has in part: its number and all its bytes.
const IMAGE_RECORD: u64 = 4_100;

/// The bytes in a batch of a block of zeros: a mark with its number.
const MARK_RECORD: u64 = 4;

/// What a request asks of the volume. Offsets and lengths are in bytes.
#[derive(Clone, Copy, Debug, PartialEq, Eq)]
pub enum Ask {
    /// The bytes of a range that isn't empty.
    Read {
        offset: u64,
        length: u32,
    },
    /// To write the request's payload, which has `length` bytes and isn't empty; with `fua` the reply
    /// waits until it is on permanent storage.
    Write {
        offset: u64,
        length: usize,
        fua: bool,
    },
    /// A reply once all that was answered before is on permanent storage.
    Flush,
    /// To write zeros to a range that isn't empty; with `fua` the reply waits until they are on permanent storage.
    Zero {
        offset: u64,
        length: u32,
        fua: bool,
    },
}

/// What is to become of a request.
#[derive(Clone, Copy, Debug, PartialEq, Eq)]
pub enum Checked {
    /// The volume is asked this.
    Volume(Ask),
    /// It is answered with error 0, and nothing is done: its length is 0.
    Done,
    /// It is answered with this error.
    Refused(NbdError),
    /// The session ends; there is no reply.
    Disconnect,
}

/// Whether a flag other than FUA is set.
fn has_unknown_flag(flags: u16) -> bool
    ensures { IsTrue result ↔ (FLAG_FUA < flags) }
{
    flags & !FLAG_FUA != 0
}

/// Whether the flag FUA is set.
fn is_fua(flags: u16) -> bool
    ensures { result ≡ has_fua flags }
{
    flags & FLAG_FUA != 0
}

/// Whether a range leads past the end of an export of that size.
fn is_past_end(offset: u64, length: u64, size: u64) -> bool
    ensures { IsTrue result ↔ (size < offset + length) }
{
    offset > size || length > size - offset
}

fn check_read(flags: u16, offset: u64, length: u32, size: u64, max_payload: u32) -> Checked
    ensures { result ≡ read_checked flags offset length size max_payload }
{
    if has_unknown_flag(flags) {
        return Checked::Refused(NbdError::Invalid);
    }
    if length > max_payload {
        return Checked::Refused(NbdError::Invalid);
    }
    if is_past_end(offset, u64::from(length), size) {
        return Checked::Refused(NbdError::Invalid);
    }
    if length == 0 {
        return Checked::Done;
    }
    Checked::Volume(Ask::Read { offset, length })
}

fn check_write(flags: u16, offset: u64, length: usize, size: u64) -> Checked
    ensures { result ≡ write_checked flags offset length size }
{
    if has_unknown_flag(flags) {
        return Checked::Refused(NbdError::Invalid);
    }
    if is_past_end(offset, length as u64, size) {
        return Checked::Refused(NbdError::NoSpace);
    }
    if length == 0 {
        return Checked::Done;
    }
    let fua = is_fua(flags);
    Checked::Volume(Ask::Write {
        offset,
        length,
        fua,
    })
}

fn check_flush(flags: u16, offset: u64, length: u32) -> Checked
    ensures { result ≡ flush_checked flags offset length }
{
    if has_unknown_flag(flags) {
        return Checked::Refused(NbdError::Invalid);
    }
    if offset != 0 || length != 0 {
        return Checked::Refused(NbdError::Invalid);
    }
    Checked::Volume(Ask::Flush)
}

/// How many bytes of a journal area a range of zeros takes, with the closed gate behind it: 4 for each block that it has whole,
/// and 4,100 for each that it has in part.
fn zero_batch(offset: u64, length: u32) -> u64
    requires { offset + length < 2 ^ 64 }
    ensures { result ≡ zero_batch offset length }
{
    if length == 0 {
        return BATCH_FRAME;
    }
    let end = offset + u64::from(length);
    let first = offset / BLOCK;
    let touched = (end - 1) / BLOCK + 1 - first;
    let whole = (end / BLOCK).saturating_sub(if offset % BLOCK == 0 {
        first
    } else {
        first + 1
    });
    BATCH_FRAME + IMAGE_RECORD * (touched - whole) + MARK_RECORD * whole
}

fn check_zero(flags: u16, offset: u64, length: u32, size: u64, area: u32) -> Checked
    ensures { result ≡ zero_checked flags offset length size area }
{
    if flags > FLAG_FUA + FLAG_NO_HOLE {
        return Checked::Refused(NbdError::Invalid);
    }
    if is_past_end(offset, u64::from(length), size) {
        return Checked::Refused(NbdError::NoSpace);
    }
    if zero_batch(offset, length) > u64::from(area) {
        return Checked::Refused(NbdError::Invalid);
    }
    if length == 0 {
        return Checked::Done;
    }
    let fua = is_fua(flags);
    Checked::Volume(Ask::Zero {
        offset,
        length,
        fua,
    })
}

/// What is to become of a request to an export of `size` bytes, of which at most `max_payload` are
/// read at once, and whose zeros are journaled in an area of `area` bytes. A payload that is too long has ended the session
/// before.
pub fn check(request: &Request, size: u64, max_payload: u32, area: u32) -> Checked
    // The volume is asked exactly for what can be done.
    ensures volume { IsVolume result ↔ IsForVolume size max_payload area (request_view request.now) }
    // What it is asked is what the request asks.
    ensures own { IfVolume result (λ ask. asked_by (request_view request.now) ≡ Some ask) }
    // The tests in their order, and what the first one that fails gives.
    ensures exact { result ≡ checked size max_payload area (request_view request.now) }
{
    match *request {
        Request::Read {
            flags,
            offset,
            length,
            ..
        } => check_read(flags, offset, length, size, max_payload),
        Request::Write {
            flags,
            offset,
            payload,
            ..
        } => check_write(flags, offset, payload.len(), size),
        Request::Disc { .. } => Checked::Disconnect,
        Request::Flush {
            flags,
            offset,
            length,
            ..
        } => check_flush(flags, offset, length),
        Request::Zero {
            flags,
            offset,
            length,
            ..
        } => check_zero(flags, offset, length, size, area),
        Request::Other { .. } => Checked::Refused(NbdError::Invalid),
    }
}
