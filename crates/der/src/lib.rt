// DER (X.690 Amendment 2) of dates, times and durations: a text becomes the element of its value under a type, and octets
// become the canonical text of theirs.
#![tactic(auto)]

pub mod decoding;
pub mod duration;
pub mod elements;
mod readings;
mod tags;

pub use decoding::decode;
pub use duration::{decode_duration, encode_duration};
pub use elements::encode;
