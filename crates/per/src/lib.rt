// Unaligned PER (X.691 Amendment 2) of dates, times and durations: a text becomes the octets of its value under a type,
// and octets become the canonical text of theirs.
#![tactic(auto)]

pub mod coding;
pub mod duration;
mod packed;

pub use coding::{decode, encode};
pub use duration::{decode_duration, encode_duration};
