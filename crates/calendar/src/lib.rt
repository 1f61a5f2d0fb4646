// The Gregorian calendar for every year, negative years and year 0000 too: leap years, month lengths,
// weeks, and which dates exist. Each function takes any input, and its promise is an equation with a
// definition of specs/ that speaks of the astronomical year.
#![tactic(auto)]

pub mod dates;
pub mod months;
pub mod weeks;
pub mod years;

pub use dates::{Date, date_exists};
pub use months::month_length;
pub use weeks::weeks_in_year;
pub use years::{Distance, Year, leap_year, year_length};
