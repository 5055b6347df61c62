//! Mail: how a thread tells another that something has changed, and how a reply comes to the session that it is for.
//!
//! For the layer above: a `Mailbox` is held by one session at a time, and what its holder takes out are replies to that session's
//! requests, in the order in which they were put in. A reply to any other session is let go: that session has ended.
//!
//! Left to others: who waits for which bell, and that a thread gets on. Nothing is proved of when a call returns.
#![tactic(auto)]

mod bell;
mod given;
mod letters;
mod mail_room;
mod mailbox;

pub use bell::Bell;
pub use given::Given;
pub use letters::Letters;
pub use mail_room::MailRoom;
pub use mailbox::Mailbox;
