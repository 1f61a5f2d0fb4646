// What every entry point answers with: the seven refusals, counts of bits and octets, the outcome, and the one
// copy of a result into lent room.
#![tactic(auto)]

pub mod counts;
pub mod outcomes;
pub mod refusals;

pub use counts::{Bits, Octets};
pub use outcomes::{Outcome, deliver};
pub use refusals::Refusal;
