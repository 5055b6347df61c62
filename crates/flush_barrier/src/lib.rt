//! The values that a volume request is answered with: one reply for each request, and where a sync was asked for, only
//! with a floor that reaches the request's number.
//!
//! For the layer above: a token gives one reply at most, with its session and cookie, and that of a FUA write or a FLUSH
//! is free of error only against a `Floor` of its own board that reaches its number: the least of a front that was looked
//! up and of the gauges of the slots that were found counted after it.
//!
//! Left to others: the board, when a request has its number, that a FLUSH is bound to the first front looked up after it
//! was taken, and how replies reach a session.
//!
//! Some mistakes are no programs, and are refused by the types:
//! - a token dropped: the four tokens have no `Drop`, so each is settled, refused or abandoned;
//! - a token spent twice: those calls take it by value, and it is neither `Clone` nor `Copy`;
//! - a reply without a token, or with another session, cookie, error or payload than its token's call gave it: its fields
//!   are private, and only a token's calls make one;
//! - a token of a board that isn't there: a `BoardName` is taken from one;
//! - a refusal without an error: `refuse` takes an `ErrorCode`, and none of them is 0.
//!
//! Others are refused by a condition on the caller: a floor or a front of another board, a floor below the number or
//! before the number is known, and a number that is told twice.
#![tactic(auto)]

mod board_name;
mod debt;
mod error_code;
mod owed_flush;
mod owed_fua;
mod owed_read;
mod owed_write;
mod reply;
mod session_id;

pub use board_name::BoardName;
pub use error_code::ErrorCode;
pub use owed_flush::OwedFlush;
pub use owed_fua::OwedFua;
pub use owed_read::OwedRead;
pub use owed_write::OwedWrite;
pub use reply::Reply;
pub use session_id::SessionId;
