// Values under types: which values exist, which a type holds, what a text gives, and the canonical text of a value in
// lent room. The types, values, texts and answers that these deal in are passed on from their own crates.
#![tactic(auto)]

pub mod admission;
pub mod existence;
pub mod holding;
pub mod written;

pub use admission::{admit, judge};
pub use answers::{Bits, Octets, Outcome, Refusal, deliver};
pub use existence::{time_exists, value_exists};
pub use holding::{holds, in_type};
pub use printing::{TEXT_CAPACITY, text_into};
pub use reading::read_text;
pub use texts::{
    Clock, ClockForm, DateForm, Difference, Form, Spelling, Time, TimeForm, Value, Zone, ZoneForm,
};
pub use types::{
    AnyType, DateType, Limits, Name, Parts, PlainYears, SignedYears, TimeType, Type, TypeFound,
    TypeRead, Years, same_rows,
};
pub use written::{deliver_text, write_text};
