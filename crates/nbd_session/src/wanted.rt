ghost use Rattle.std.specs.Prelude.{◌≡◌, ◌+◌, ◌<◌, ◌≤◌, ◌^◌};
ghost use Rattle.nbd_session.specs.Demand.{demand_of, written_under};
ghost use Rattle.nbd_session.specs.Intake.{behind, loaded_view};

use crate::demand::Demand;
use bytes::Bytes;
use flush_barrier::{BoardName, OwedFlush, OwedFua, OwedRead, OwedWrite, SessionId};
use nbd_codec::Ask;
use volume::Write;

/// A request for the volume that stands in the input: its payload is the bytes from `start` to `end`.
#[derive(Clone, Copy, Debug)]
pub(crate) struct Wanted {
    pub cookie: u64,
    pub ask: Ask,
    pub start: usize,
    pub end: usize,
}

impl Wanted {
    /// The request where so many bytes stand before its input.
    pub(crate) fn behind(self, before: usize) -> Wanted
        requires ordered { self.start ≤ self.end }
        requires fits { before + self.end < 2 ^ 64 }
        ensures { result ≡ behind before self }
    {
        let Wanted {
            cookie,
            ask,
            start,
            end,
        } = self;
        Wanted {
            cookie,
            ask,
            start: before + start,
            end: before + end,
        }
    }
}

/// A request for the volume, with its payload.
#[derive(Debug, Drop)]
pub(crate) struct Loaded {
    pub cookie: u64,
    pub ask: Ask,
    pub payload: Bytes,
}

impl Loaded {
    /// The demand, with a token of the board.
    pub(crate) fn into_demand(self, board: &BoardName, session: SessionId) -> Demand
        ensures { result ≡ demand_of board.now session (loaded_view self) }
    {
        let Loaded {
            cookie,
            ask,
            payload,
        } = self;
        match ask {
            Ask::Read { offset, length } => Demand::Read {
                token: OwedRead::new(board, session, cookie),
                offset,
                length,
            },
            Ask::Write { offset, fua, .. } => {
                write_demand(board, session, cookie, Write::new(offset, payload), fua)
            }
            Ask::Zero {
                offset,
                length,
                fua,
            } => write_demand(board, session, cookie, Write::zeros(offset, length), fua),
            Ask::Flush => Demand::Flush {
                token: OwedFlush::new(board, session, cookie),
            },
        }
    }
}

/// The demand of a write, with FUA or without.
fn write_demand(
    board: &BoardName,
    session: SessionId,
    cookie: u64,
    write: Write,
    fua: bool,
) -> Demand
    ensures { result ≡ demand_of board.now session (written_under cookie write fua) }
{
    if fua {
        let token = OwedFua::new(board, session, cookie);
        return Demand::Fua { token, write };
    }
    let token = OwedWrite::new(board, session, cookie);
    Demand::Write { token, write }
}
