// The calendar for C, under the names of include/anafzir_calendar.h, for any 32-bit year and any month number. The archive of this crate
// has these functions and no others.
#![tactic(auto)]

ghost use Rattle.std.specs.Prelude.{◌≡◌, cond};
ghost use Rattle.calendar.specs.Years.{leap_of, year_length_of};
ghost use Rattle.calendar.specs.Months.{month_length_of};
ghost use Rattle.calendar.specs.Weeks.{weeks_of};

use calendar::{Year, leap_year, month_length, weeks_in_year, year_length};

#[unsafe(no_mangle)]
pub extern "C" fn anafzir_leap_year(year: i32) -> u32
    ensures { result ≡ cond (leap_of year) 1 0 }
{
    u32::from(leap_year(Year::from(year)))
}

#[unsafe(no_mangle)]
pub extern "C" fn anafzir_month_length(year: i32, month: u32) -> u32
    ensures { result ≡ month_length_of year month }
{
    month_length(Year::from(year), month)
}

#[unsafe(no_mangle)]
pub extern "C" fn anafzir_year_length(year: i32) -> u32
    ensures { result ≡ year_length_of year }
{
    year_length(Year::from(year))
}

#[unsafe(no_mangle)]
pub extern "C" fn anafzir_weeks_in_year(year: i32) -> u32
    ensures { result ≡ weeks_of year }
{
    weeks_in_year(Year::from(year))
}
