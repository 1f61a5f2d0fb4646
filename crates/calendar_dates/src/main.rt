// Asks for every date of small fields whether it exists, in some years. For each year there is a line with
// 1 for a year before 0000 or else 0, and its distance from 0000; then for each of the forms YM, YMD, YD, YW
// and YWD a line with how many dates exist and the sum of their indices. The index of a date is its one
// field, or 256 times its first field and its second.
#![tactic(auto)]

use calendar::{Date, Distance, Year};
use std::io;
use std::io::Write;

const YEARS: [i32; 31] = [
    -2147483648,
    -999999999,
    -9999,
    -401,
    -400,
    -101,
    -100,
    -8,
    -4,
    -1,
    0,
    1,
    4,
    100,
    400,
    1581,
    1582,
    1600,
    1900,
    1999,
    2000,
    2004,
    2009,
    2015,
    2020,
    2021,
    2026,
    9999,
    99999,
    999999999,
    2147483647,
];

#[derive(Clone, Copy)]
enum Form {
    YM,
    YMD,
    YD,
    YW,
    YWD,
}

// The date of a form at an index.
fn date_at(form: Form, year: Year, index: u32) -> Date {
    match form {
        Form::YM => Date::YM(year, index),
        Form::YMD => Date::YMD(year, index / 256, index % 256),
        Form::YD => Date::YD(year, index),
        Form::YW => Date::YW(year, index),
        Form::YWD => Date::YWD(year, index / 256, index % 256),
    }
}

// Two numbers, as a line.
fn print_pair(out: &mut impl Write, a: u64, b: u64) -> io::Result<()> {
    writeln!(out, "{a} {b}")
}

// How many dates of a form exist below an end of the indices, and their sum.
fn print_form(out: &mut impl Write, form: Form, year: Year, end: u32) -> io::Result<()> {
    let mut count: u64 = 0;
    let mut sum: u64 = 0;
    for index in 0..end {
        if calendar::date_exists(date_at(form, year, index)) {
            count += 1;
            sum += u64::from(index);
        }
    }
    print_pair(out, count, sum)
}

// The year turned back into its astronomical number and made again.
fn made_again(year: Year) -> Year {
    match year.astronomical() {
        Some(y) => Year::from(y),
        None => Year::since_zero(4294967295),
    }
}

// The side of 0000 that a year lies on, and its distance.
fn print_year(out: &mut impl Write, year: Year) -> io::Result<()> {
    match year.distance() {
        Distance::Since(years) => print_pair(out, 0, years),
        Distance::Before(years) => print_pair(out, 1, years),
    }
}

// A year's lines.
fn print_forms(out: &mut impl Write, year: Year) -> io::Result<()> {
    print_year(out, made_again(year))?;
    print_form(out, Form::YM, year, 256)?;
    print_form(out, Form::YMD, year, 65536)?;
    print_form(out, Form::YD, year, 65536)?;
    print_form(out, Form::YW, year, 256)?;
    print_form(out, Form::YWD, year, 65536)
}

fn main(rt: HostRuntime) -> io::Result<()> {
    let mut out = io::writer(&rt);
    for year in YEARS {
        print_forms(&mut out, Year::from(year))?;
    }
    Ok(())
}
