// What the entry points code, as definitions with their laws: points, that is dates, times or both, and durations. The
// crates `per` and `der` have the functions.
#![tactic(auto)]

use durations::Duration;
use texts::{Form, Value};

// A point, that is a date, a time or both; or a duration.
#[derive(Clone, Copy)]
pub enum AnyValue {
    Point(Value),
    Duration(Duration),
}

// What a text shows of its type's settings: the form of a point; or that it is a duration.
#[derive(Clone, Copy)]
pub enum AnyForm {
    Point(Form),
    Duration,
}
