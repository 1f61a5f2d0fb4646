// What the entry points answer, and the demands on them, as definitions with their theorems. The crate `codec` has the
// entry points.
#![tactic(auto)]

pub mod entries;
pub mod limits;

pub use entries::Entry;
pub use limits::GivenLimits;
