ghost use Rattle.std.specs.Prelude.{◌≡◌};
ghost use Rattle.calendar.specs.Years.{astronomical_of};
ghost use Rattle.calendar.specs.Months.{month_length_of};

use crate::years::{Year, leap_year};

// The days of each month: a row for common years and a row for leap years.
const MONTH_LENGTHS: [[u32; 12]; 2] = [
    [31, 28, 31, 30, 31, 30, 31, 31, 30, 31, 30, 31],
    [31, 29, 31, 30, 31, 30, 31, 31, 30, 31, 30, 31],
];

// The days of a month, 1 to 12, of the year; 0 where there is no such month.
pub fn month_length(year: Year, month: u32) -> u32
    ensures { result ≡ month_length_of (astronomical_of year) month }
{
    if month == 0 {
        return 0;
    }
    if 12 < month {
        return 0;
    }
    let row = usize::from(leap_year(year));
    MONTH_LENGTHS[row][month as usize - 1]
}
