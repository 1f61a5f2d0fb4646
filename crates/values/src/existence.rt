ghost use Rattle.std.specs.Prelude.{◌≤◌, ◌<◌, ◌&&◌, ◌≡◌};
ghost use Rattle.texts.specs.declared.values.Zone.{Zone};
ghost use Rattle.held_values.specs.Existence.{hours_of, minute_of, minutes_of, seconds_of, less_difference, exists_leap};
ghost use Rattle.held_values.specs.Existence.{exists_clock, exists_fraction, exists_difference, exists_zone, exists_time, exists_value};
ghost use Rattle.values.specs.Parts.{exists_date_of, exists_time_of};

use calendar::date_exists;
use texts::{Clock, Difference, Time, Value, Zone, has_digits};

// The hours, the minutes and the seconds of a clock, 0 where it does not show them.
pub(crate) fn fields(clock: Clock) -> (u32, u32, u32)
    ensures { result ≡ (hours_of clock, minutes_of clock, seconds_of clock) }
{
    match clock {
        Clock::H(hours) => (hours, 0, 0),
        Clock::HM(hours, minutes) => (hours, minutes, 0),
        Clock::HMS(hours, minutes, seconds) => (hours, minutes, seconds),
    }
}

// Whether the day has the time that the fields and the fraction give.
#[tactic(auto, unfolding(held_values::specs::Existence::exists_clock))]
fn clock_exists(hours: u32, minutes: u32, seconds: u32, fraction: u32) -> bool
    ensures { result ≡ exists_clock hours minutes seconds fraction }
{
    if hours == 24 {
        return minutes == 0 && seconds == 0 && fraction == 0;
    }
    hours <= 23 && minutes <= 59 && seconds <= 60
}

// Whether the fraction has at most nine digits and is one of those that they give.
#[tactic(auto, unfolding(held_values::specs::Existence::exists_fraction))]
fn fraction_exists(digits: u32, fraction: u32) -> bool
    ensures { result ≡ exists_fraction digits fraction }
{
    digits <= 9 && has_digits(fraction, digits)
}

// Whether there is such a difference.
#[tactic(auto, unfolding(held_values::specs::Existence::exists_difference))]
fn difference_exists(difference: Difference) -> bool
    ensures { result ≡ exists_difference difference }
{
    difference.hours <= 15
        && difference.minutes <= 59
        && (!difference.behind || 0 < difference.hours)
}

// The minute of the day.
fn minute_of(hours: u32, minutes: u32) -> u32
    requires hours_bound { hours ≤ 24 }
    requires minutes_bound { minutes ≤ 59 }
    ensures { result ≡ minute_of hours minutes }
{
    hours * 60 + minutes
}

// A local time less its difference, around the day, in minutes.
#[tactic(auto, unfolding(held_values::specs::Existence::less_difference))]
fn less_difference(local: u32, difference: Difference) -> u32
    requires local_bound { local < 1500 }
    requires hours_bound { difference.hours ≤ 15 }
    requires minutes_bound { difference.minutes ≤ 59 }
    ensures { result ≡ less_difference local difference }
{
    let minutes = minute_of(difference.hours, difference.minutes);
    if difference.behind {
        (local + minutes) % 1440
    } else {
        (local + (1440 - minutes)) % 1440
    }
}

// Whether there is such a difference, and a second 60 only where local time less the difference is 23:59.
#[tactic(auto, unfolding(held_values::specs::Existence::exists_leap))]
fn difference_allows(difference: Difference, hours: u32, minutes: u32, seconds: u32) -> bool
    requires hours_bound { hours ≤ 24 }
    requires minutes_bound { minutes ≤ 59 }
    ensures { result ≡ (exists_difference difference && exists_leap hours minutes seconds (Zone.LD difference)) }
{
    difference_exists(difference)
        && (seconds != 60 || less_difference(minute_of(hours, minutes), difference) == 1439)
}

// Whether there is such a zone, and a second 60 only where it can be: without a zone that is anywhere, and with Z at 23:59.
#[tactic(auto, unfolding(held_values::specs::Existence::exists_leap))]
fn zone_allows(zone: Zone, hours: u32, minutes: u32, seconds: u32) -> bool
    requires hours_bound { hours ≤ 24 }
    requires minutes_bound { minutes ≤ 59 }
    ensures { result ≡ (exists_zone zone && exists_leap hours minutes seconds zone) }
{
    match zone {
        Zone::L => true,
        Zone::Z => seconds != 60 || minute_of(hours, minutes) == 1439,
        Zone::LD(difference) => difference_allows(difference, hours, minutes, seconds),
    }
}

// Whether there is such a time.
#[tactic(auto, unfolding(held_values::specs::Existence::exists_time))]
pub fn time_exists(time: Time) -> bool
    ensures { result ≡ exists_time time }
{
    let (hours, minutes, seconds) = fields(time.clock);
    if !clock_exists(hours, minutes, seconds, time.fraction) {
        return false;
    }
    fraction_exists(time.digits, time.fraction) && zone_allows(time.zone, hours, minutes, seconds)
}

// Whether the date of a value exists, where it has one.
fn date_of_value_exists(value: Value) -> bool
    ensures { result ≡ exists_date_of value }
{
    match value {
        Value::Time(_) => true,
        Value::Date(date) | Value::DateTime(date, _) => date_exists(date),
    }
}

// Whether the time of a value exists, where it has one.
fn time_of_value_exists(value: Value) -> bool
    ensures { result ≡ exists_time_of value }
{
    match value {
        Value::Date(_) => true,
        Value::Time(time) | Value::DateTime(_, time) => time_exists(time),
    }
}

// Whether there is such a date, time, or date and time. Each part is asked for at one place, which the compiled code is faster for.
pub fn value_exists(value: Value) -> bool
    ensures { result ≡ exists_value value }
{
    let dated = date_of_value_exists(value);
    let timed = time_of_value_exists(value);
    dated && timed
}
