use crate::comparing::{same, same_at};
use bytes::BytesMut;
use nbd_codec::constants::REQUEST_HEADER;
use nbd_codec::{
    Ask, Checked, ClientFlags, ClientOption, Fault, Information, NbdError, OptionReply, Reading,
    Request, SimpleReply, check, constants, greeting, read_client_flags, read_option, read_request,
    write_export, write_option_reply, write_reply,
};
use std::alloc::Global;
use std::process::Abort;

const MAX_PAYLOAD: u32 = 4096;

const SIZE: u64 = 32_768;

// Into this journal area one image fits, or marks of zeros.
const AREA: u32 = 4_114;

const EXPORT_NAME: &[u8] = b"IHAVEOPT\0\0\0\x01\0\0\0\0";

const LIST: &[u8] = b"IHAVEOPT\0\0\0\x03\0\0\0\0";

const ABORT: &[u8] = b"IHAVEOPT\0\0\0\x02\0\0\0\x02hi";

const LIST_WITH_DATA: &[u8] = b"IHAVEOPT\0\0\0\x03\0\0\0\x01x";

const STARTTLS: &[u8] = b"IHAVEOPT\0\0\0\x05\0\0\0\0";

const LONG_LIST: &[u8] = b"IHAVEOPT\0\0\0\x03\0\0\x10\x01";

const LONGEST_LIST: &[u8] = b"IHAVEOPT\0\0\0\x03\xff\xff\xff\xff";

const INFO: &[u8] = b"IHAVEOPT\0\0\0\x06\0\0\0\x06\0\0\0\0\0\0";

const GO: &[u8] = b"IHAVEOPT\0\0\0\x07\0\0\0\x0a\0\0\0\0\0\x02\0\x03\0\x09";

const GO_SIZES: &[u8] = b"IHAVEOPT\0\0\0\x07\0\0\0\x08\0\0\0\0\0\x01\0\x03";

const GO_TO_X: &[u8] = b"IHAVEOPT\0\0\0\x07\0\0\0\x07\0\0\0\x01x\0\0";

const GO_NOWHERE: &[u8] = b"IHAVEOPT\0\0\0\x07\0\0\0\x04\xff\xff\xff\xff";

const READ: &[u8] = b"\x25\x60\x95\x13\0\0\0\0\0\0\0\0\0\0\0\x02\0\0\0\0\0\0\x0f\xfe\0\0\0\x05";

const WRITE: &[u8] =
    b"\x25\x60\x95\x13\0\x01\0\x01\0\0\0\0\0\0\0\x01\0\0\0\0\0\0\x0f\xff\0\0\0\x03ABC";

const DISC: &[u8] = b"\x25\x60\x95\x13\0\0\0\x02\0\0\0\0\0\0\0\x03\0\0\0\0\0\0\0\0\0\0\0\0";

const FLUSH: &[u8] = b"\x25\x60\x95\x13\0\0\0\x03\0\0\0\0\0\0\0\x05\0\0\0\0\0\0\0\0\0\0\0\0";

const FAR_READ: &[u8] =
    b"\x25\x60\x95\x13\0\0\0\0\0\0\0\0\0\0\0\x04\xff\xff\xff\xff\xff\xff\xff\xff\xff\xff\xff\xff";

const LONG_WRITE: &[u8] =
    b"\x25\x60\x95\x13\0\0\0\x01\0\0\0\0\0\0\0\x04\xff\xff\xff\xff\xff\xff\xff\xff\xff";

#[test]
fn handshake(rt: HostRuntime) {
    same(
        &rt,
        greeting().as_slice(),
        b"NBDMAGICIHAVEOPT\0\x03".as_slice(),
    );
    let plain = ClientFlags { no_zeroes: false };
    let no_zeroes = ClientFlags { no_zeroes: true };
    same(
        &rt,
        read_client_flags(b"\0\0\0\x01"),
        Reading::Value(plain, 4),
    );
    same(
        &rt,
        read_client_flags(b"\0\0\0\x03I"),
        Reading::Value(no_zeroes, 4),
    );
    same(&rt, read_client_flags(b"\0\0\0"), Reading::More);
    for wrong in &[
        b"\0\0\0\x02".as_slice(),
        b"\0\0\0\x07",
        b"\0\0\x01",
        b"\x01",
    ] {
        same(
            &rt,
            read_client_flags(wrong),
            Reading::Fault(Fault::ClientFlags),
        );
    }
}

// The option is read from its whole text, and more is needed wherever that is cut.
fn option_is(rt: &impl Abort, text: &[u8], want: ClientOption) {
    same(rt, read_option(text), Reading::Value(want, text.len()));
    for len in 0..text.len() {
        same_at(rt, read_option(&text[..len]), Reading::More, len);
    }
}

#[test]
fn options(rt: HostRuntime) {
    let asked = |has_name, block_size| Information::Asked {
        has_name,
        block_size,
    };
    for (text, want) in &[
        (EXPORT_NAME, ClientOption::ExportName),
        (ABORT, ClientOption::Abort),
        (LIST, ClientOption::List { has_data: false }),
        (LIST_WITH_DATA, ClientOption::List { has_data: true }),
        (STARTTLS, ClientOption::Other { number: 5 }),
        (INFO, ClientOption::Info(asked(false, false))),
        (GO, ClientOption::Go(asked(false, true))),
        (GO_SIZES, ClientOption::Go(asked(false, true))),
        (GO_TO_X, ClientOption::Go(asked(true, false))),
        (GO_NOWHERE, ClientOption::Go(Information::Malformed)),
        (
            LONG_LIST,
            ClientOption::Oversized {
                number: 3,
                len: 4097,
            },
        ),
        (
            LONGEST_LIST,
            ClientOption::Oversized {
                number: 3,
                len: u32::MAX,
            },
        ),
    ] {
        option_is(&rt, text, *want);
    }
    same(
        &rt,
        read_option(b"IHAVEOPX"),
        Reading::Fault(Fault::OptionMagic),
    );
}

// The first byte of the name's length that isn't 0 ends the session, and before it more is needed.
#[test]
fn other_exports(rt: HostRuntime) {
    for (text, end) in &[
        (b"IHAVEOPT\0\0\0\x01\0\0\0\x01x".as_slice(), 16),
        (b"IHAVEOPT\0\0\0\x01\0\0\x10\0x", 15),
        (b"IHAVEOPT\0\0\0\x01\0\0\x10\x01x", 15),
        (b"IHAVEOPT\0\0\0\x01\xff\xff\xff\xffx", 13),
    ] {
        for len in 0..text.len() {
            let want = if len < *end {
                Reading::More
            } else {
                Reading::Fault(Fault::ExportName)
            };
            same_at(&rt, read_option(&text[..len]), want, (len, *text));
        }
    }
}

// Behind what was there the reply is the magic, and then what is wanted.
fn reply_is(rt: &impl Abort, alloc: Global, option: u32, reply: OptionReply, want: &[u8]) {
    let front = b"before\0\x03\xe8\x89\x04\x55\x65\xa9";
    let mut out = BytesMut::new(alloc);
    out.extend_from_slice(b"before").expect(rt, "memory");
    write_option_reply(&mut out, option, reply).expect(rt, "memory");
    assert!(rt; out.starts_with(front), "{reply:?}");
    assert!(rt; out.ends_with(want), "{reply:?}");
    same(rt, out.len(), front.len() + want.len());
}

#[test]
fn option_replies(rt: HostRuntime) {
    let alloc = rt.alloc();
    for (option, reply, want) in &[
        (
            7,
            OptionReply::Ack,
            b"\0\0\0\x07\0\0\0\x01\0\0\0\0".as_slice(),
        ),
        (
            7,
            OptionReply::ErrUnknown,
            b"\0\0\0\x07\x80\0\0\x06\0\0\0\0",
        ),
        (3, OptionReply::ErrTooBig, b"\0\0\0\x03\x80\0\0\x09\0\0\0\0"),
        (
            3,
            OptionReply::ErrInvalid,
            b"\0\0\0\x03\x80\0\0\x03\0\0\0\0",
        ),
        (5, OptionReply::ErrUnsup, b"\0\0\0\x05\x80\0\0\x01\0\0\0\0"),
    ] {
        reply_is(&rt, alloc, *option, *reply, want);
    }
}

#[test]
fn option_replies_with_data(rt: HostRuntime) {
    let alloc = rt.alloc();
    let max_payload = MAX_PAYLOAD;
    for (option, reply, want) in &[
        (
            7,
            OptionReply::Export { size: SIZE },
            b"\0\0\0\x07\0\0\0\x03\0\0\0\x0c\0\0\0\0\0\0\0\0\x80\0\x01\x4d".as_slice(),
        ),
        (
            7,
            OptionReply::BlockSize { max_payload },
            b"\0\0\0\x07\0\0\0\x03\0\0\0\x0e\0\x03\0\0\0\x01\0\0\x10\0\0\0\x10\0",
        ),
        (
            3,
            OptionReply::Server,
            b"\0\0\0\x03\0\0\0\x02\0\0\0\x04\0\0\0\0",
        ),
    ] {
        reply_is(&rt, alloc, *option, *reply, want);
    }
}

#[test]
fn exports(rt: HostRuntime) {
    let export = b"\0\0\0\0\0\0\x80\0\x01\x4d";
    let mut out = BytesMut::new(rt.alloc());
    write_export(&mut out, SIZE, true).expect(&rt, "memory");
    same(&rt, out.as_slice(), export.as_slice());
    write_export(&mut out, SIZE, false).expect(&rt, "memory");
    assert!(rt; out.len() == 144);
    assert!(rt; out[10..].starts_with(export));
    assert!(rt; out[20..].iter().all(|b| *b == 0));
}

// The request is read from its whole text, and more is needed wherever that is cut.
fn request_is(rt: &impl Abort, text: &[u8], want: Request) {
    same(
        rt,
        read_request(text, MAX_PAYLOAD),
        Reading::Value(want, text.len()),
    );
    for len in 0..text.len() {
        let cut = read_request(&text[..len], MAX_PAYLOAD);
        same_at(rt, cut, Reading::More, len);
    }
}

fn read_of(flags: u16, offset: u64, length: u32) -> Request<'static> {
    let cookie = 2;
    Request::Read {
        flags,
        cookie,
        offset,
        length,
    }
}

fn write_of(flags: u16, offset: u64, payload: &[u8]) -> Request<'_> {
    let cookie = 1;
    Request::Write {
        flags,
        cookie,
        offset,
        payload,
    }
}

fn zero_of(flags: u16, offset: u64, length: u32) -> Request<'static> {
    let cookie = 3;
    Request::Zero {
        flags,
        cookie,
        offset,
        length,
    }
}

fn flush_of(flags: u16, offset: u64, length: u32) -> Request<'static> {
    let cookie = 5;
    Request::Flush {
        flags,
        cookie,
        offset,
        length,
    }
}

#[test]
fn requests(rt: HostRuntime) {
    let disc = Request::Disc {
        flags: 0,
        cookie: 3,
        offset: 0,
        length: 0,
    };
    let far = Request::Read {
        flags: 0,
        cookie: 4,
        offset: u64::MAX,
        length: u32::MAX,
    };
    for (text, want) in &[
        (READ, read_of(0, 4094, 5)),
        (WRITE, write_of(1, 4095, b"ABC")),
        (DISC, disc),
        (FLUSH, flush_of(0, 0, 0)),
        (FAR_READ, far),
    ] {
        request_is(&rt, text, *want);
    }
    same(&rt, &WRITE[REQUEST_HEADER..], b"ABC".as_slice());
    same(&rt, write_of(1, 4095, b"ABC").cookie(), 1);
    for (text, fault) in &[
        (b"\x25\x60\x95\x12".as_slice(), Fault::RequestMagic),
        (LONG_WRITE, Fault::PayloadTooLong),
    ] {
        same(&rt, read_request(text, MAX_PAYLOAD), Reading::Fault(*fault));
    }
}

// What becomes of each request is what is wanted.
fn checks_are(rt: &impl Abort, rows: &[(Request, Checked)]) {
    for (request, want) in rows {
        same_at(rt, check(request, SIZE, MAX_PAYLOAD, AREA), *want, request);
    }
}

const INVALID: Checked = Checked::Refused(NbdError::Invalid);

#[test]
fn checks_of_reads(rt: HostRuntime) {
    let read = |offset| Checked::Volume(Ask::Read { offset, length: 4 });
    checks_are(
        &rt,
        &[
            (read_of(0, 32_764, 4), read(32_764)),
            (read_of(1, 0, 4), read(0)),
            (read_of(0, 32_765, 4), INVALID),
            (read_of(0x20, 0, 4), INVALID),
            (read_of(0, 0, MAX_PAYLOAD + 1), INVALID),
            (read_of(0, u64::MAX, u32::MAX), INVALID),
            (read_of(0, 32_768, 0), Checked::Done),
        ],
    );
}

#[test]
fn checks_of_writes(rt: HostRuntime) {
    let no_space = Checked::Refused(NbdError::NoSpace);
    let write = |fua| {
        Checked::Volume(Ask::Write {
            offset: 32_764,
            length: 4,
            fua,
        })
    };
    checks_are(
        &rt,
        &[
            (write_of(0, 32_764, b"four"), write(false)),
            (write_of(1, 32_764, b"four"), write(true)),
            (write_of(2, 32_764, b"four"), INVALID),
            (write_of(1, 32_765, b"four"), no_space),
            (write_of(1, 32_768, b""), Checked::Done),
        ],
    );
}

#[test]
fn checks_of_zeros(rt: HostRuntime) {
    let no_space = Checked::Refused(NbdError::NoSpace);
    let zero = |offset, length, fua| {
        Checked::Volume(Ask::Zero {
            offset,
            length,
            fua,
        })
    };
    checks_are(
        &rt,
        &[
            (zero_of(0, 0, 32_768), zero(0, 32_768, false)),
            (zero_of(3, 1, 1), zero(1, 1, true)),
            (zero_of(0, 4_095, 2), INVALID),
            (zero_of(4, 0, 1), INVALID),
            (zero_of(0, 32_767, 2), no_space),
            (zero_of(0, 32_768, 0), Checked::Done),
        ],
    );
}

#[test]
fn checks_of_others(rt: HostRuntime) {
    let other = Request::Other {
        kind: 9,
        flags: 0,
        cookie: 6,
        offset: 0,
        length: 0,
    };
    let disc = Request::Disc {
        flags: 9,
        cookie: 7,
        offset: 9,
        length: 9,
    };
    checks_are(
        &rt,
        &[
            (flush_of(0, 0, 0), Checked::Volume(Ask::Flush)),
            (flush_of(1, 0, 0), Checked::Volume(Ask::Flush)),
            (flush_of(2, 0, 0), INVALID),
            (flush_of(0, 0, 1), INVALID),
            (flush_of(0, 1, 0), INVALID),
            (other, INVALID),
            (disc, Checked::Disconnect),
        ],
    );
}

#[test]
fn replies(rt: HostRuntime) {
    let mut out = BytesMut::new(rt.alloc());
    for (outcome, want) in &[
        (
            Ok(b"\0ABC\0".as_slice()),
            b"\x67\x44\x66\x98\0\0\0\0\0\0\0\0\0\0\0\x02\0ABC\0".as_slice(),
        ),
        (
            Ok(b"".as_slice()),
            b"\x67\x44\x66\x98\0\0\0\0\0\0\0\0\0\0\0\x02",
        ),
        (
            Err(NbdError::Io),
            b"\x67\x44\x66\x98\0\0\0\x05\0\0\0\0\0\0\0\x02",
        ),
        (
            Err(NbdError::NoMemory),
            b"\x67\x44\x66\x98\0\0\0\x0c\0\0\0\0\0\0\0\x02",
        ),
        (
            Err(NbdError::Invalid),
            b"\x67\x44\x66\x98\0\0\0\x16\0\0\0\0\0\0\0\x02",
        ),
        (
            Err(NbdError::NoSpace),
            b"\x67\x44\x66\x98\0\0\0\x1c\0\0\0\0\0\0\0\x02",
        ),
    ] {
        let before = out.len();
        let reply = SimpleReply {
            cookie: 2,
            outcome: *outcome,
        };
        write_reply(&mut out, &reply).expect(&rt, "memory");
        same_at(&rt, &out[before..], *want, reply);
    }
}
