ghost use Rattle.std.specs.Prelude.{◌≡◌, cond};
ghost use Rattle.calendar.specs.Years.{astronomical_of};
ghost use Rattle.calendar.specs.Integers.{remainder};
ghost use Rattle.calendar.specs.Weeks.{new_year, weeks_of};

use crate::years::{Year, leap_year};

const WEDNESDAY: u64 = 2;

const THURSDAY: u64 = 3;

// The weekday of 1 January of the year, Monday 0 to Sunday 6. The calendar repeats after 400 years, so it
// is that of the year phase + 400, which the days of the phase + 399 years before it give.
fn new_year_weekday(year: Year) -> u64
    ensures { result ≡ remainder (new_year (astronomical_of year)) 7 }
{
    let phase = year.number % 400;
    let fours = (phase + 399) / 4;
    let hundreds = (phase + 399) / 100;
    let periods = (phase + 399) / 400;
    (365 * (phase + 399) + fours - hundreds + periods) % 7
}

// Whether the year has a week 53: its 1 January is a Thursday, or a Wednesday in a leap year.
fn has_week_53(year: Year) -> bool
    ensures { weeks_of (astronomical_of year) ≡ cond result 53 52 }
{
    let weekday = new_year_weekday(year);
    if weekday == THURSDAY {
        return true;
    }
    if weekday != WEDNESDAY {
        return false;
    }
    leap_year(year)
}

// The weeks of the year, 52 or 53.
pub fn weeks_in_year(year: Year) -> u32
    ensures { result ≡ weeks_of (astronomical_of year) }
{
    if has_week_53(year) { 53 } else { 52 }
}
