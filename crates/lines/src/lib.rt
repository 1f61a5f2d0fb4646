// The reply to a line `work;type;input`: the number, and after 0 the hex of an encoding or the text of octets.
#![tactic(auto)]

pub mod hex;
pub mod replies;

pub use replies::{LONGEST, REPLY_CAPACITY, reply};
