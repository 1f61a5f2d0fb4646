// The entry points: a text becomes octets and octets become a text, under the type that a text names or lists, in
// lent room. Each takes any octets at all. The crate `codec_c` exports them to C.
#![tactic(auto)]

pub mod coding;
pub mod limits;

pub use coding::{answer, der_decode, der_encode, per_decode, per_encode};
