// Prints the calendar of some ranges of years, a line for each year: the year, 1 or 0 for leap or common,
// the days of the year, its weeks, and the days of its twelve months.
#![tactic(auto)]

use calendar::{Distance, Year};
use std::io;
use std::io::Write;

// A number after a space.
fn print_field(out: &mut impl Write, n: u32) -> io::Result<()> {
    write!(out, " {n}")
}

// The astronomical year.
fn print_year(out: &mut impl Write, year: Year) -> io::Result<()> {
    match year.distance() {
        Distance::Since(years) => write!(out, "{years}"),
        Distance::Before(years) => write!(out, "-{years}"),
    }
}

// The lengths of the twelve months.
fn print_months(out: &mut impl Write, year: Year) -> io::Result<()> {
    for month in 1..=12 {
        print_field(out, calendar::month_length(year, month))?;
    }
    Ok(())
}

// A year's line.
fn print_line(out: &mut impl Write, year: Year) -> io::Result<()> {
    print_year(out, year)?;
    print_field(out, u32::from(calendar::leap_year(year)))?;
    print_field(out, calendar::year_length(year))?;
    print_field(out, calendar::weeks_in_year(year))?;
    print_months(out, year)?;
    writeln!(out)
}

// The years whose distances before the year 0000 fall from first to last.
fn print_before(out: &mut impl Write, first: u32, last: u32) -> io::Result<()> {
    for years in (last..=first).rev() {
        print_line(out, Year::before_zero(years))?;
    }
    Ok(())
}

// The years whose distances since the year 0000 rise from first to last.
fn print_since(out: &mut impl Write, first: u32, last: u32) -> io::Result<()> {
    for years in first..=last {
        print_line(out, Year::since_zero(years))?;
    }
    Ok(())
}

// The ends of 32 bits and of nine, five and four digits on both sides, the years about 0000, the years about
// the Gregorian reform and 1900, and today's.
fn print_table(out: &mut impl Write) -> io::Result<()> {
    print_before(out, 2147483648, 2147483645)?;
    print_before(out, 1000000001, 999999997)?;
    print_before(out, 100000001, 99999998)?;
    print_before(out, 100001, 99998)?;
    print_before(out, 10001, 9995)?;
    print_before(out, 404, 1)?;
    print_since(out, 0, 404)?;
    print_since(out, 1581, 1600)?;
    print_since(out, 1899, 1901)?;
    print_since(out, 1999, 2030)?;
    print_since(out, 9996, 10001)?;
    print_since(out, 99998, 100001)?;
    print_since(out, 99999998, 100000001)?;
    print_since(out, 999999997, 1000000001)?;
    print_since(out, 2147483644, 2147483647)
}

fn main(rt: HostRuntime) -> io::Result<()> {
    print_table(&mut io::writer(&rt))
}
