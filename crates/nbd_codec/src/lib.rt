//! The bytes of the NBD protocol, server side: fixed newstyle negotiation and transmission with
//! simple replies, after doc/proto.md of the NBD project.
//!
//! For the layer above: each writer puts the one encoding of its value at the end of a buffer, or
//! leaves the buffer as it was, and each reader answers the value and its length exactly where a
//! encoding stands at the front of the bytes that came, that more is needed exactly where they are a
//! proper prefix of an encoding, and otherwise the fault that ends the session. A reader takes no
//! memory: a payload is a part of the bytes that came.
//!
//! It leaves to others what a session does with what was read: phases, what was kept of earlier
//! input, skipping the data of an oversized option, and the volume itself.
#![tactic(auto)]

mod checks;
pub mod constants;
mod fields;
mod findings;
mod handshake;
mod laws;
mod numbers;
mod option_replies;
mod options;
mod replies;
mod requests;

pub use checks::{Ask, Checked, check};
pub use findings::{Fault, Reading};
pub use handshake::{ClientFlags, greeting, read_client_flags};
pub use laws::{
    client_flags_are_apart, exports_are_apart, numbers_are_the_standards, option_replies_are_apart,
    options_are_apart, replies_are_apart, requests_are_apart,
};
pub use option_replies::{OptionReply, write_export, write_option_reply};
pub use options::{ClientOption, Information, read_option};
pub use replies::{NbdError, SimpleReply, write_reply};
pub use requests::{Request, read_request};
