ghost use Rattle.std.specs.Prelude.{◌≡◌};
ghost use Rattle.calendar.specs.Dates.{exists_of, up_to};

use crate::months::month_length;
use crate::weeks::weeks_in_year;
use crate::years::{Year, year_length};

// A date in one of the six forms: year, month, day; ordinal day; week, weekday.
#[derive(Clone, Copy)]
pub enum Date {
    Y(Year),
    YM(Year, u32),
    YMD(Year, u32, u32),
    YD(Year, u32),
    YW(Year, u32),
    YWD(Year, u32, u32),
}

// Whether a field lies from 1 to its highest number.
fn up_to(highest: u32, x: u32) -> bool
    ensures { result ≡ up_to highest x }
{
    1 <= x && x <= highest
}

// Whether the calendar has the date.
pub fn date_exists(date: Date) -> bool
    ensures { result ≡ exists_of date }
{
    match date {
        Date::Y(_) => true,
        Date::YM(_, month) => up_to(12, month),
        Date::YMD(year, month, day) => up_to(month_length(year, month), day),
        Date::YD(year, day) => up_to(year_length(year), day),
        Date::YW(year, week) => up_to(weeks_in_year(year), week),
        Date::YWD(year, week, weekday) => up_to(weeks_in_year(year), week) && up_to(7, weekday),
    }
}
