// Texts of clients, worked out by hand from the NBD standard.
ghost use Rattle.std.specs.Prelude.{◌≡◌};
ghost use Rattle.nbd_session.specs.Demand.{owed_by};

use crate::comparing::same;
use board::Board;
use bytes::Bytes;
use flush_barrier::{ErrorCode, Reply, SessionId};
use nbd_session::{Demand, Refusal, Session};
use std::alloc::Global;
use std::process::Abort;
use volume::Write;

const SESSION: SessionId = SessionId(9);

const SIZE: u64 = 32_768;

const MAX_PAYLOAD: u32 = 4_096;

const AREA: u32 = 8_214;

/// Client flags without zeros, and EXPORT_NAME.
const HELLO: &[u8] = b"\0\0\0\x03IHAVEOPT\0\0\0\x01\0\0\0\0";

/// The greeting, and the size and flags of the export.
const WELCOME: &[u8] = b"NBDMAGICIHAVEOPT\0\x03\0\0\0\0\0\0\x80\0\x01\x4d";

/// Client flags, and GO with the sizes of requests.
const GO: &[u8] = b"\0\0\0\x03IHAVEOPT\0\0\0\x07\0\0\0\x08\0\0\0\0\0\x01\0\x03";

const WRITE: &[u8] =
    b"\x25\x60\x95\x13\0\0\0\x01\0\0\0\0\0\0\0\x01\0\0\0\0\0\0\x0f\xff\0\0\0\x03ABC";

const FUA: &[u8] = b"\x25\x60\x95\x13\0\x01\0\x01\0\0\0\0\0\0\0\x02\0\0\0\0\0\0\0\0\0\0\0\x01D";

const READ: &[u8] = b"\x25\x60\x95\x13\0\0\0\0\0\0\0\0\0\0\0\x03\0\0\0\0\0\0\x0f\xfe\0\0\0\x02";

const FLUSH: &[u8] = b"\x25\x60\x95\x13\0\0\0\x03\0\0\0\0\0\0\0\x04\0\0\0\0\0\0\0\0\0\0\0\0";

const DISC: &[u8] = b"\x25\x60\x95\x13\0\0\0\x02\0\0\0\0\0\0\0\x05\0\0\0\0\0\0\0\0\0\0\0\0";

const LONG_READ: &[u8] =
    b"\x25\x60\x95\x13\0\0\0\0\0\0\0\0\0\0\0\x06\0\0\0\0\0\0\0\0\xff\xff\xff\xff";

const LONG_WRITE: &[u8] =
    b"\x25\x60\x95\x13\0\0\0\x01\0\0\0\0\0\0\0\x07\0\0\0\0\0\0\0\0\xff\xff\xff\xff";

const LONG_OPTION: &[u8] = b"\0\0\0\x03IHAVEOPT\0\0\0\x09\xff\xff\xff\xff";

/// WRITE_ZEROES of all bytes but the first and the last: two images and six marks have 8,238 bytes.
const LONG_ZEROS: &[u8] =
    b"\x25\x60\x95\x13\0\0\0\x06\0\0\0\0\0\0\0\x08\0\0\0\0\0\0\0\x01\0\0\x7f\xfe";

const ZEROS_PAST_THE_END: &[u8] =
    b"\x25\x60\x95\x13\0\0\0\x06\0\0\0\0\0\0\0\x09\0\0\0\0\0\0\x7f\xff\0\0\0\x02";

/// WRITE_ZEROES of all bytes, with NO_HOLE.
const ZEROS: &[u8] = b"\x25\x60\x95\x13\0\x02\0\x06\0\0\0\0\0\0\0\x0a\0\0\0\0\0\0\0\0\0\0\x80\0";

/// The replies to those requests.
const WRITTEN: &[u8] = b"\x67\x44\x66\x98\0\0\0\0\0\0\0\0\0\0\0\x01";

const FUA_REFUSED: &[u8] = b"\x67\x44\x66\x98\0\0\0\x05\0\0\0\0\0\0\0\x02";

const BYTES_READ: &[u8] = b"\x67\x44\x66\x98\0\0\0\0\0\0\0\0\0\0\0\x03\x07\x07";

const FLUSH_REFUSED: &[u8] = b"\x67\x44\x66\x98\0\0\0\x05\0\0\0\0\0\0\0\x04";

const LONG_READ_INVALID: &[u8] = b"\x67\x44\x66\x98\0\0\0\x16\0\0\0\0\0\0\0\x06";

const LONG_ZEROS_INVALID: &[u8] = b"\x67\x44\x66\x98\0\0\0\x16\0\0\0\0\0\0\0\x08";

const NO_SPACE_FOR_ZEROS: &[u8] = b"\x67\x44\x66\x98\0\0\0\x1c\0\0\0\0\0\0\0\x09";

const ZEROED: &[u8] = b"\x67\x44\x66\x98\0\0\0\0\0\0\0\0\0\0\0\x0a";

/// What a demand asks.
#[derive(Clone, Copy, Debug, PartialEq, Eq)]
enum Seen {
    Read {
        cookie: u64,
        offset: u64,
        length: u32,
    },
    Write {
        cookie: u64,
        offset: u64,
        length: usize,
        first: Option<u8>,
    },
    Fua {
        cookie: u64,
        offset: u64,
        length: usize,
        first: Option<u8>,
    },
    Flush {
        cookie: u64,
    },
}

const WRITE_SEEN: Seen = Seen::Write {
    cookie: 1,
    offset: 4_095,
    length: 3,
    first: Some(b'A'),
};

const FUA_SEEN: Seen = Seen::Fua {
    cookie: 2,
    offset: 0,
    length: 1,
    first: Some(b'D'),
};

const READ_SEEN: Seen = Seen::Read {
    cookie: 3,
    offset: 4_094,
    length: 2,
};

const ZEROS_SEEN: Seen = Seen::Write {
    cookie: 10,
    offset: 0,
    length: 32_768,
    first: Some(0),
};

const FLUSH_SEEN: Seen = Seen::Flush { cookie: 4 };

/// A client's session, what its demands asked, their replies, and what came out.
#[derive(Drop)]
struct Client {
    alloc: Global,
    session: Session,
    id: SessionId,
    seen: Vec<Seen>,
    replies: Vec<Reply>,
    out: Vec<u8>,
    ghost own: { session.id ≡ id },
}

impl Client {
    fn new(rt: &impl Abort, alloc: Global) -> Client {
        let (board, _seats) = Board::new(alloc, 0, 1, [0; 8], 1).expect(rt, "memory");
        let session = Session::new(alloc, &board, SESSION, SIZE, MAX_PAYLOAD, AREA).expect(
            rt, "memory",
        );
        Client {
            alloc,
            session,
            id: SESSION,
            seen: Vec::new(alloc),
            replies: Vec::new(alloc),
            out: Vec::new(alloc),
        }
    }

    /// Feeds a piece, a second time where memory ran out.
    fn feed(&mut self, rt: &impl Abort, piece: &[u8]) {
        let fed = match self.session.feed(piece) {
            Err(Refusal::Memory) => self.session.feed(piece),
            fed => fed,
        };
        let demands = fed.expect(rt, "the session takes input");
        note(rt, self.alloc, demands, &mut self.seen, &mut self.replies);
    }

    /// Whether the session takes no more input.
    fn is_refused(&mut self, rt: &impl Abort, piece: &[u8]) -> bool {
        match self.session.feed(piece) {
            Ok(demands) => {
                note(rt, self.alloc, demands, &mut self.seen, &mut self.replies);
                false
            }
            Err(refusal) => refusal == Refusal::SessionOver,
        }
    }

    /// Hands a reply in, a second time where memory ran out.
    fn reply(&mut self, rt: &impl Abort, place: usize) {
        assert!(rt; place < self.replies.len());
        let reply = self.replies.remove(place);
        assert!(rt; reply.session().0 == self.id.0);
        if let Err(reply) = self.session.done(reply) {
            let again = self.session.done(reply);
            assert!(rt; again.is_ok());
        }
        self.take_out(rt);
    }

    /// Takes what waits to go out.
    fn take_out(&mut self, rt: &impl Abort) {
        let out = self.session.output();
        self.out.extend_from_slice(&out).expect(rt, "memory");
    }
}

/// Adds what the demands ask, and replies to them, in their order.
fn note(
    rt: &impl Abort,
    alloc: Global,
    demands: Vec<Demand>,
    seen: &mut Vec<Seen>,
    replies: &mut Vec<Reply>,
) {
    let (first, first_reply) = (seen.len(), replies.len());
    let mut demands = demands;
    while let Some(demand) = demands.pop() {
        let (asked, reply) = answer(alloc, demand);
        let (place, reply_place) = (first.min(seen.len()), first_reply.min(replies.len()));
        seen.insert(place, asked).expect(rt, "memory");
        replies.insert(reply_place, reply).expect(rt, "memory");
    }
    demands.destroy_empty();
}

/// The first byte of a write that has one.
fn first_of(alloc: Global, write: &Write) -> Option<u8> {
    match write.payload(alloc) {
        Ok(payload) => payload.first().copied(),
        Err(_) => None,
    }
}

/// What a demand asks, and a reply to it: bytes of 7 to a READ, done to a WRITE, and 5 to what has to wait for a disk.
fn answer(alloc: Global, demand: Demand) -> (Seen, Reply) {
    match demand {
        Demand::Read {
            token,
            offset,
            length,
        } => {
            let seen = Seen::Read {
                cookie: token.cookie(),
                offset,
                length,
            };
            (seen, token.settle(Bytes::from_static(&[7; 2])))
        }
        Demand::Write { token, write } => {
            let seen = Seen::Write {
                cookie: token.cookie(),
                offset: write.offset(),
                length: write.len() as usize,
                first: first_of(alloc, &write),
            };
            (seen, token.settle(alloc))
        }
        Demand::Fua { token, write } => {
            let seen = Seen::Fua {
                cookie: token.cookie(),
                offset: write.offset(),
                length: write.len() as usize,
                first: first_of(alloc, &write),
            };
            (seen, token.refuse(alloc, ErrorCode::Io))
        }
        Demand::Flush { token } => {
            let seen = Seen::Flush {
                cookie: token.cookie(),
            };
            (seen, token.refuse(alloc, ErrorCode::Io))
        }
    }
}

/// A text, what it asks of the volume, and what comes out for it where each demand is answered at once.
#[derive(Clone, Copy)]
struct Row {
    text: &'static [&'static [u8]],
    seen: &'static [Seen],
    out: &'static [&'static [u8]],
    is_over: bool,
}

const ROWS: [Row; 7] = [
    Row {
        text: &[HELLO, WRITE, FUA, READ, FLUSH],
        seen: &[WRITE_SEEN, FUA_SEEN, READ_SEEN, FLUSH_SEEN],
        out: &[WELCOME, WRITTEN, FUA_REFUSED, BYTES_READ, FLUSH_REFUSED],
        is_over: false,
    },
    Row {
        text: &[HELLO, READ, DISC],
        seen: &[READ_SEEN],
        out: &[WELCOME, BYTES_READ],
        is_over: true,
    },
    Row {
        text: &[HELLO, LONG_READ, READ],
        seen: &[READ_SEEN],
        out: &[WELCOME, LONG_READ_INVALID, BYTES_READ],
        is_over: false,
    },
    Row {
        text: &[HELLO, LONG_ZEROS, ZEROS_PAST_THE_END, ZEROS],
        seen: &[ZEROS_SEEN],
        out: &[WELCOME, LONG_ZEROS_INVALID, NO_SPACE_FOR_ZEROS, ZEROED],
        is_over: false,
    },
    Row {
        text: &[HELLO, LONG_WRITE],
        seen: &[],
        out: &[WELCOME],
        is_over: true,
    },
    Row {
        text: &[LONG_OPTION, HELLO],
        seen: &[],
        out: &[b"NBDMAGICIHAVEOPT\0\x03"],
        is_over: false,
    },
    Row {
        text: &[GO, WRITE],
        seen: &[WRITE_SEEN],
        out: &[
            b"NBDMAGICIHAVEOPT\0\x03",
            b"\0\x03\xe8\x89\x04\x55\x65\xa9\0\0\0\x07\0\0\0\x03\0\0\0\x0c\0\0\0\0\0\0\0\0\x80\0\x01\x4d",
            b"\0\x03\xe8\x89\x04\x55\x65\xa9\0\0\0\x07\0\0\0\x03\0\0\0\x0e\0\x03\0\0\0\x01\0\0\x10\0\0\0\x10\0",
            b"\0\x03\xe8\x89\x04\x55\x65\xa9\0\0\0\x07\0\0\0\x01\0\0\0\0",
            WRITTEN,
        ],
        is_over: false,
    },
];

fn joined(rt: &impl Abort, alloc: Global, parts: &[&[u8]]) -> Vec<u8> {
    let mut whole = Vec::new(alloc);
    for part in parts {
        whole.extend_from_slice(part).expect(rt, "memory");
    }
    whole
}

/// The text comes in these pieces, and its demands are answered at once, in order; what was refused for memory is tried
/// again.
fn row_is(rt: &impl Abort, alloc: Global, row: &Row, pieces: &[&[u8]]) {
    let mut client = Client::new(rt, alloc);
    for piece in pieces {
        if !client.session.is_over() {
            client.feed(rt, piece);
        }
        client.take_out(rt);
        for _ in 0..client.replies.len() {
            client.reply(rt, 0);
        }
    }
    same(rt, client.seen.as_slice(), row.seen);
    same(rt, client.out, joined(rt, alloc, row.out));
    same(rt, client.session.closed(), row.is_over);
}

#[test]
fn rows_cut_at_each_place(rt: HostRuntime) {
    let alloc = rt.alloc();
    for row in &ROWS {
        let text = joined(&rt, alloc, row.text);
        for at in 0..=text.len() {
            let (front, back) = text.split_at(at);
            row_is(&rt, alloc, row, &[front, back]);
        }
    }
}

/// `rt try --test --fail-alloc` refuses each allocation in turn.
#[test]
fn a_refused_call_is_made_again(rt: HostRuntime) {
    let alloc = rt.alloc();
    let row = Row {
        text: &[],
        seen: &[WRITE_SEEN, READ_SEEN, FLUSH_SEEN],
        out: &[WELCOME, WRITTEN, BYTES_READ, FLUSH_REFUSED],
        is_over: true,
    };
    row_is(&rt, alloc, &row, &[HELLO, WRITE, READ, FLUSH, DISC]);
}

/// A READ of 2 bytes with this cookie.
fn read_of(cookie: u8) -> [u8; 28] {
    let mut request = [0; 28];
    request.copy_from_slice(READ);
    request[15] = cookie;
    request
}

/// HELLO, and READs with the cookies from 0 to 64.
fn sixty_five_reads(rt: &impl Abort, alloc: Global) -> Vec<u8> {
    let mut text = Vec::from_slice(alloc, HELLO).expect(rt, "memory");
    for cookie in 0..65 {
        text.extend_from_slice(&read_of(cookie))
            .expect(rt, "memory");
    }
    text
}

/// WELCOME, and the replies to them: to 63 first, then to 64, and to the others from 62 down.
fn sixty_five_replies(rt: &impl Abort, alloc: Global) -> Vec<u8> {
    let mut wanted = Vec::from_slice(alloc, WELCOME).expect(rt, "memory");
    for cookie in [63, 64].into_iter().chain((0..63).rev()) {
        wanted
            .extend_from_slice(b"\x67\x44\x66\x98\0\0\0\0\0\0\0\0\0\0\0")
            .expect(rt, "memory");
        wanted
            .extend_from_slice(&[cookie, 7, 7])
            .expect(rt, "memory");
    }
    wanted
}

#[test]
fn sixty_five_requests_in_one_piece(rt: HostRuntime) {
    let alloc = rt.alloc();
    let mut client = Client::new(&rt, alloc);
    client.feed(&rt, &sixty_five_reads(&rt, alloc));
    client.take_out(&rt);
    same(&rt, client.seen.len(), 64);
    assert!(rt; !client.session.wants() && !client.session.is_over());
    client.feed(&rt, &[]);
    same(&rt, client.seen.len(), 64);
    client.reply(&rt, 63);
    assert!(rt; client.session.wants());
    client.feed(&rt, &[]);
    same(&rt, client.seen.len(), 65);
    assert!(rt; !client.session.wants());
    for place in (0..client.replies.len()).rev() {
        client.reply(&rt, place);
    }
    same(&rt, client.out, sixty_five_replies(&rt, alloc));
    assert!(rt; client.session.wants());
}

#[test]
fn two_requests_with_one_cookie(rt: HostRuntime) {
    let alloc = rt.alloc();
    let mut client = Client::new(&rt, alloc);
    client.feed(&rt, HELLO);
    client.feed(&rt, READ);
    client.feed(&rt, READ);
    same(
        &rt,
        client.seen.as_slice(),
        [READ_SEEN, READ_SEEN].as_slice(),
    );
    client.take_out(&rt);
    client.reply(&rt, 1);
    client.reply(&rt, 0);
    let wanted = joined(&rt, alloc, &[WELCOME, BYTES_READ, BYTES_READ]);
    same(&rt, client.out, wanted);
}

#[test]
fn replies_owed_at_a_disc_go_out(rt: HostRuntime) {
    let alloc = rt.alloc();
    let mut client = Client::new(&rt, alloc);
    let text = joined(&rt, alloc, &[HELLO, WRITE, READ, FLUSH, DISC, READ]);
    client.feed(&rt, &text);
    client.session.end_of_input();
    same(&rt, client.seen.len(), 3);
    assert!(rt; client.session.is_over() && !client.session.wants());
    assert!(rt; client.is_refused(&rt, READ));
    client.take_out(&rt);
    client.reply(&rt, 2);
    client.reply(&rt, 0);
    assert!(rt; !client.session.closed());
    client.reply(&rt, 0);
    assert!(rt; client.session.closed());
    let wanted = joined(&rt, alloc, &[WELCOME, FLUSH_REFUSED, WRITTEN, BYTES_READ]);
    same(&rt, client.out, wanted);
}

#[test]
fn a_session_without_a_disc_ends_at_once(rt: HostRuntime) {
    let alloc = rt.alloc();
    for gives_up in &[false, true] {
        let mut client = Client::new(&rt, alloc);
        client.feed(&rt, &joined(&rt, alloc, &[HELLO, READ]));
        client.take_out(&rt);
        if *gives_up {
            client.session.give_up();
        } else {
            client.session.end_of_input();
        }
        assert!(rt; client.session.closed());
        client.reply(&rt, 0);
        same(&rt, client.out.as_slice(), WELCOME);
    }
}
