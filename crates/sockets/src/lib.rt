//! Where a client's bytes come in and go out: sockets, seen as what they gave and what they took.
//!
//! For the layer above: an `Incoming` is seen as all bytes that it gave, and an `Outgoing` as all bytes that it took. A read
//! adds just the bytes that it hands over, and a write all of its bytes, or a prefix of them where it fails. `Listeners`
//! give a `Connection` for each client, over TCP or a Unix domain socket; its halves, a `Reading` and a `Writing`, are for a
//! thread each, and `HangUp` ends both. `Pieces` and `Kept` are a client in memory.
//!
//! A half notes what its stream told of each call. Where a stream says what it is to give, or what it holds, the half is
//! proved to give and to write just that. Of a socket nothing is known: that these bytes are those of the wire rests on the
//! system.
//!
//! Left to others: the loops that read and write, what the bytes mean, and when to hang up. Nothing is proved of when a call
//! returns.
#![tactic(auto)]

mod connection;
mod hang_up;
mod history;
mod incoming;
mod kept;
mod listener;
mod listeners;
mod outgoing;
mod pieces;
mod reading;
mod refusal;
mod stream;
mod transfer;
mod writing;

pub use connection::Connection;
pub use hang_up::HangUp;
pub use incoming::Incoming;
pub use kept::Kept;
pub use listener::Listener;
pub use listeners::{Listeners, MOST_LISTENERS};
pub use outgoing::Outgoing;
pub use pieces::Pieces;
pub use reading::Reading;
pub use refusal::Refusal;
pub use stream::Stream;
pub use writing::Writing;
