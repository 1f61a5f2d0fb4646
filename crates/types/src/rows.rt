ghost use Rattle.std.specs.Prelude.{◌≡◌};
ghost use Rattle.types.specs.Rows.{date_row, row_of, row_of_type, same_rows, time_row};

use crate::types::{AnyType, DateType, Parts, TimeType};
use crate::years::YearRow;
use texts::{ClockForm, DateForm, ZoneForm};

// What decides the rows of a date: its form, and how its row has its years.
#[derive(Clone, Copy, PartialEq, Eq)]
pub struct DateRow {
    pub form: DateForm,
    pub years: YearRow,
}

// What decides the rows of a time: its form, and whether it has a fraction, however many its digits.
#[derive(Clone, Copy, PartialEq, Eq)]
pub struct TimeRow {
    pub clock: ClockForm,
    pub fraction: bool,
    pub zone: ZoneForm,
}

// What decides the rows of Table 2 that a type selects. Durations have one row, and nothing else that decides.
#[derive(Clone, Copy, PartialEq, Eq)]
pub enum Row {
    Date(DateRow),
    Time(TimeRow),
    DateTime(DateRow, TimeRow),
    Duration,
}

// What decides the rows of a date.
fn date_row(date: DateType) -> DateRow
    ensures { result ≡ date_row date }
{
    DateRow {
        form: date.form,
        years: date.years.row(),
    }
}

// What decides the rows of a time.
fn time_row(time: TimeType) -> TimeRow
    ensures { result ≡ time_row time }
{
    TimeRow {
        clock: time.form.clock,
        fraction: time.form.digits != 0,
        zone: time.form.zone,
    }
}

// What decides the rows, from a type's settings.
fn row_of(parts: Parts) -> Row
    ensures { result ≡ row_of parts }
{
    match parts {
        Parts::Date(d) => Row::Date(date_row(d)),
        Parts::Time(t) => Row::Time(time_row(t)),
        Parts::DateTime(d, t) => Row::DateTime(date_row(d), time_row(t)),
    }
}

// What decides the rows that a type selects.
fn row_of_type(t: AnyType) -> Row
    ensures { result ≡ row_of_type t }
{
    match t {
        AnyType::Point(t) => row_of(t.settings()),
        AnyType::Duration => Row::Duration,
        AnyType::ListedDuration => Row::Duration,
    }
}

// Whether two types select the same rows.
#[tactic(auto, unfolding(crate::specs::Rows::same_rows))]
pub fn same_rows(a: AnyType, b: AnyType) -> bool
    ensures { result ≡ same_rows a b }
{
    row_of_type(a) == row_of_type(b)
}
