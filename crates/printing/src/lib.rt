// Writing the canonical text of a value, and of a duration.
#![tactic(auto)]

pub mod canonical;
pub mod duration;
mod parts;

pub use canonical::{TEXT_CAPACITY, text_into};
pub use duration::duration_into;
