// Reading a date.
#![tactic(auto, using(crate::proofs::Laws::Rows::rows), unfolding(rows::specs::Readings::read_choice, rows::specs::Readings::read_day))]

ghost use Rattle.std.specs.Prelude.{◌≡◌, ◌+◌, ◌≤◌, IfSome};
ghost use Rattle.texts.specs.declared.forms.DateForm.{DateForm};
ghost use Rattle.fields.specs.Bits.{unpacked};
ghost use Rattle.fields.specs.Readings.{run};
ghost use Rattle.rows.specs.Readings.{read_choice, read_year, read_day, read_date};
ghost use Rattle.unpacking.specs.Steps.{rest, near_year, seen};

use crate::numbers::{Range, free, ranged};
use answers::Bits;
use calendar::{Date, Year};
use texts::DateForm;
use types::YearRow;

// The ranges of the choice of a year, and of the years that are immediate, near-future or near-past.
const CHOICES: Range = Range {
    count: 4,
    width: Bits { count: 2 },
};

const IMMEDIATE: Range = Range {
    count: 16,
    width: Bits { count: 4 },
};

const NEAR: Range = Range {
    count: 256,
    width: Bits { count: 8 },
};

// The ranges of months, days of a month, days of a year, weeks and weekdays.
const MONTHS: Range = Range {
    count: 12,
    width: Bits { count: 4 },
};

const DAYS: Range = Range {
    count: 31,
    width: Bits { count: 5 },
};

const YEAR_DAYS: Range = Range {
    count: 366,
    width: Bits { count: 9 },
};

const WEEKS: Range = Range {
    count: 53,
    width: Bits { count: 6 },
};

const WEEKDAYS: Range = Range {
    count: 7,
    width: Bits { count: 3 },
};

// A year that is immediate, near-future or near-past: a number that is counted from the lowest year of its range.
fn near_year(octets: &[u8], at: Bits, range: Range, lowest: u32) -> Option<(i32, Bits)>
    requires place { at.count ≤ 200 }
    requires range { range.count ≤ 256 }
    requires lowest { lowest ≤ 2021 }
    ensures value { seen octets.now result ≡ run (near_year range.count lowest) (rest octets.now at) }
    ensures end { IfSome result (λ r. r.1.count ≤ at.count + 10) }
{
    let (number, next) = ranged(octets, at, range)?;
    Some(((lowest + number) as i32, next))
}

// A year after its choice: 0 is immediate (2005 to 2020), 1 near-future (2021 to 2276), 2 near-past (1749 to 2004), and
// any other number remainder.
fn chosen_year(octets: &[u8], at: Bits, choice: u32) -> Option<(i32, Bits)>
    requires { at.count ≤ 160 }
    ensures value { seen octets.now result ≡ run (read_choice choice) (rest octets.now at) }
    ensures end { IfSome result (λ r. r.1.count ≤ at.count + 40) }
{
    match choice {
        0 => near_year(octets, at, IMMEDIATE, 2005),
        1 => near_year(octets, at, NEAR, 2021),
        2 => near_year(octets, at, NEAR, 1749),
        _ => free(octets, at),
    }
}

// The year of a row, at the front.
fn year(octets: &[u8], row: YearRow) -> Option<(i32, Bits)>
    ensures value { seen octets.now result ≡ run (read_year row) (unpacked octets.now) }
    ensures end { IfSome result (λ r. r.1.count ≤ 42) }
{
    let front = Bits { count: 0 };
    match row {
        YearRow::Year => {
            let (choice, next) = ranged(octets, front, CHOICES)?;
            chosen_year(octets, next, choice)
        }
        YearRow::AnyYear => free(octets, front),
    }
}

// Month and day after a year.
fn month_and_day(octets: &[u8], at: Bits, year: Year) -> Option<(Date, Bits)>
    requires { at.count ≤ 150 }
    ensures value { seen octets.now result ≡ run (read_day year DateForm.YMD) (rest octets.now at) }
    ensures end { IfSome result (λ r. r.1.count ≤ at.count + 9) }
{
    let (month, next) = ranged(octets, at, MONTHS)?;
    let (day, end) = ranged(octets, next, DAYS)?;
    Some((Date::YMD(year, month + 1, day + 1), end))
}

// Week and weekday after a year.
fn week_and_weekday(octets: &[u8], at: Bits, year: Year) -> Option<(Date, Bits)>
    requires { at.count ≤ 150 }
    ensures value { seen octets.now result ≡ run (read_day year DateForm.YWD) (rest octets.now at) }
    ensures end { IfSome result (λ r. r.1.count ≤ at.count + 9) }
{
    let (week, next) = ranged(octets, at, WEEKS)?;
    let (weekday, end) = ranged(octets, next, WEEKDAYS)?;
    Some((Date::YWD(year, week + 1, weekday + 1), end))
}

// What a form has after the year.
fn day(octets: &[u8], at: Bits, year: Year, form: DateForm) -> Option<(Date, Bits)>
    requires { at.count ≤ 150 }
    ensures value { seen octets.now result ≡ run (read_day year form) (rest octets.now at) }
    ensures end { IfSome result (λ r. r.1.count ≤ at.count + 9) }
{
    match form {
        DateForm::Y => Some((Date::Y(year), at)),
        DateForm::YM => {
            let (month, end) = ranged(octets, at, MONTHS)?;
            Some((Date::YM(year, month + 1), end))
        }
        DateForm::YMD => month_and_day(octets, at, year),
        DateForm::YD => {
            let (day, end) = ranged(octets, at, YEAR_DAYS)?;
            Some((Date::YD(year, day + 1), end))
        }
        DateForm::YW => {
            let (week, end) = ranged(octets, at, WEEKS)?;
            Some((Date::YW(year, week + 1), end))
        }
        DateForm::YWD => week_and_weekday(octets, at, year),
    }
}

// A date of a form, at the front.
pub(crate) fn date(octets: &[u8], row: YearRow, form: DateForm) -> Option<(Date, Bits)>
    ensures value { seen octets.now result ≡ run (read_date row form) (unpacked octets.now) }
    ensures end { IfSome result (λ r. r.1.count ≤ 51) }
{
    let (year, next) = year(octets, row)?;
    day(octets, next, Year::from(year), form)
}
