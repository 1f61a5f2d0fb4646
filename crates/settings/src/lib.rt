// Reading a type's text, the name of a useful time type or settings lists, with the limits beside it.
#![tactic(auto)]

mod joining;
pub mod type_text;

pub use type_text::read_type;
