// Durations (#101): the value, its text, and its fields in PER, as definitions with their laws. The crates `reading`,
// `printing`, `packing` and `unpacking` have the functions.
#![tactic(auto)]

// A duration to the accuracy of its least significant component (X.680 34 bis.3.6.14). `last` is that component's place
// among years, months, weeks, days, hours, minutes and seconds, from 0; a component that is not written is 0. The last one
// has so many fraction digits, and the number that they give; no digits, no fraction.
#[derive(Clone, Copy)]
pub struct Duration {
    pub last: u32,
    pub years: u32,
    pub months: u32,
    pub weeks: u32,
    pub days: u32,
    pub hours: u32,
    pub minutes: u32,
    pub seconds: u32,
    pub digits: u32,
    pub fraction: u32,
}
