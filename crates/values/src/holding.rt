ghost use Rattle.std.specs.Prelude.{◌≡◌, ◌&&◌, leb, ltb, nat_abs};
ghost use Rattle.types.specs.declared.years.Years.{Years};
ghost use Rattle.calendar.specs.Years.{astronomical_of};
ghost use Rattle.texts.specs.Forms.{date_form, clock_form, value_form, zone_form, time_form};
ghost use Rattle.types.specs.Types.{form_of_parts};
ghost use Rattle.held_values.specs.Forms.{same_date_form, same_form, same_time_form};
ghost use Rattle.types.specs.Years.{between, in_years};
ghost use Rattle.held_values.specs.Holding.{in_window, admits, admits_date, admits_time, in_type, holds_of};

use crate::existence::{fields, value_exists};
use calendar::{Date, Distance, Year};
use texts::{Clock, ClockForm, DateForm, Time, TimeForm, Value, Zone, ZoneForm, year_of};
use types::types::{DateType, Parts, TimeType, Type};
use types::years::{PlainYears, SignedYears, Years};

// The form of a date.
fn date_form(date: Date) -> DateForm
    ensures { result ≡ date_form date }
{
    match date {
        Date::Y(_) => DateForm::Y,
        Date::YM(_, _) => DateForm::YM,
        Date::YMD(_, _, _) => DateForm::YMD,
        Date::YD(_, _) => DateForm::YD,
        Date::YW(_, _) => DateForm::YW,
        Date::YWD(_, _, _) => DateForm::YWD,
    }
}

// The form of a clock.
fn clock_form(clock: Clock) -> ClockForm
    ensures { result ≡ clock_form clock }
{
    match clock {
        Clock::H(_) => ClockForm::H,
        Clock::HM(_, _) => ClockForm::HM,
        Clock::HMS(_, _, _) => ClockForm::HMS,
    }
}

// The form of a zone.
fn zone_form(zone: Zone) -> ZoneForm
    ensures { result ≡ zone_form zone }
{
    match zone {
        Zone::L => ZoneForm::L,
        Zone::Z => ZoneForm::Z,
        Zone::LD(_) => ZoneForm::LD,
    }
}

// The form of a time.
fn time_form(time: Time) -> TimeForm
    ensures { result ≡ time_form time }
{
    TimeForm {
        clock: clock_form(time.clock),
        digits: time.digits,
        zone: zone_form(time.zone),
    }
}

// Whether a year lies from the lowest to the highest.
#[tactic(auto, using(calendar::proofs::Laws::Years::order_test), unfolding(types::specs::Years::between))]
fn within(lowest: Year, highest: Year, year: Year) -> bool
    ensures { result ≡ between (astronomical_of lowest) (astronomical_of highest) (astronomical_of year) }
{
    lowest <= year && year <= highest
}

// Whether a type names a Year setting, and a year lies in the range of that setting.
fn named(name: bool, lowest: i32, highest: i32, year: Year) -> bool
    ensures { result ≡ name && between lowest highest (astronomical_of year) }
{
    name && within(Year::from(lowest), Year::from(highest), year)
}

// Whether a year is of a Year setting without a sign that the type names.
#[tactic(auto, using(types::proofs::Laws::YearRanges::in_plain))]
fn in_plain(names: PlainYears, year: Year) -> bool
    ensures { result ≡ in_years (Years.Plain names) (astronomical_of year) }
{
    named(names.basic, 1582, 9999, year) || named(names.proleptic, 0, 1581, year)
}

// How many years a year lies from the year 0000.
fn size(year: Year) -> u64
    ensures { result ≡ nat_abs (astronomical_of year) }
{
    match year.distance() {
        Distance::Since(years) | Distance::Before(years) => years,
    }
}

// Whether a type names a Year setting with so many digits, and a number has them: from the least number with them up to the
// least with one more.
fn of_length(name: bool, least: u64, next: u64, years: u64) -> bool
    ensures { result ≡ name && (leb least years && ltb years next) }
{
    name && least <= years && years < next
}

// Whether a year is of a Year setting with a sign that the type names.
#[tactic(auto, using(types::proofs::Laws::YearRanges::in_signed), unfolding(types::specs::Years::in_long))]
fn in_signed(names: SignedYears, year: Year) -> bool
    ensures { result ≡ in_years (Years.Signed names) (astronomical_of year) }
{
    let years = size(year);
    named(names.negative, -9999, -1, year)
        || of_length(names.five, 10000, 100000, years)
        || of_length(names.six, 100000, 1000000, years)
        || of_length(names.seven, 1000000, 10000000, years)
        || of_length(names.eight, 10000000, 100000000, years)
        || of_length(names.nine, 100000000, 1000000000, years)
}

// Whether a year is of a Year setting that the type names.
fn in_years(years: Years, year: Year) -> bool
    ensures { result ≡ in_years years (astronomical_of year) }
{
    match years {
        Years::Plain(names) => in_plain(names, year),
        Years::Signed(names) => in_signed(names, year),
    }
}

// Whether a year lies in the type's window.
fn in_window(window: Option<(Year, Year)>, year: Year) -> bool
    ensures { result ≡ in_window window (astronomical_of year) }
{
    match window {
        None => true,
        Some((lowest, highest)) => within(lowest, highest, year),
    }
}

// Whether a date is of the type's form, of a Year setting that it names, and in its window.
#[tactic(auto, using(crate::proofs::Laws::Forms::same_date), unfolding(held_values::specs::Holding::admits_date))]
fn date_in(t: DateType, date: Date) -> bool
    ensures { result ≡ same_date_form (date_form date) t.form && admits_date t date }
{
    if date_form(date) != t.form {
        return false;
    }
    let year = year_of(date);
    in_years(t.years, year) && in_window(t.window, year)
}

// Whether a time is of the type's form, and not of an hour 24 that the type leaves out.
#[tactic(auto, using(crate::proofs::Laws::Forms::same_time), unfolding(held_values::specs::Holding::admits_time))]
fn time_in(t: TimeType, time: Time) -> bool
    ensures { result ≡ same_time_form (time_form time) t.form && admits_time t time }
{
    let (hours, _, _) = fields(time.clock);
    time_form(time) == t.form && (t.hour24 || hours != 24)
}

// Whether a value is of the settings' form, Years and restrictions.
fn in_parts(parts: Parts, value: Value) -> bool
    ensures { result ≡ (same_form (value_form value) (form_of_parts parts) && admits parts value) }
{
    match (parts, value) {
        (Parts::Date(d), Value::Date(date)) => date_in(d, date),
        (Parts::Time(u), Value::Time(time)) => time_in(u, time),
        (Parts::DateTime(d, u), Value::DateTime(date, time)) => date_in(d, date)
            && time_in(u, time),
        _ => false,
    }
}

// Whether a value is of the type's form, Year settings and restrictions.
#[tactic(auto, unfolding(held_values::specs::Holding::in_type))]
pub fn in_type(t: Type, value: Value) -> bool
    ensures { result ≡ in_type t value }
{
    in_parts(t.settings(), value)
}

// Whether the type holds the value: it exists, and it is in the type.
#[tactic(auto, unfolding(held_values::specs::Holding::holds_of))]
pub fn holds(t: Type, value: Value) -> bool
    ensures { result ≡ holds_of t value }
{
    value_exists(value) && in_type(t, value)
}
