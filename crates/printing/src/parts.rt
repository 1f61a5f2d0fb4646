// The printers of canonical texts. Each stores its text from place at on and answers the place after it.
ghost use Rattle.std.specs.Prelude.{◌≡◌, false, cond, ◌∷◌, ◌+◌, ◌≤◌, length};
ghost use Rattle.octets.specs.Stores.{StoredText};
ghost use Rattle.texts.specs.declared.values.Zone.{Zone};
ghost use Rattle.texts.specs.Octets.{hyphen, plus, letter_w};
ghost use Rattle.texts.specs.Digits.{put_digits};
ghost use Rattle.texts.specs.Years.{year_digits, put_year};
ghost use Rattle.texts.specs.Forms.{value_form, form_digits};
ghost use Rattle.texts.specs.Dates.{put_after, put_date};
ghost use Rattle.texts.specs.Times.{put_clock, fraction, put_fraction, put_minutes, put_zone, canonical, put_time};
ghost use Rattle.texts.specs.Texts.{text_of};

use calendar::{Date, Distance, Year};
use texts::{Clock, Difference, Time, Value, Zone, year_of};

// The last w decimal digits of n.
pub(crate) fn put_digits(b: &mut [u8], at: usize, w: usize, n: u64) -> usize
    requires { at + w ≤ length b.old }
    ensures stored_text { StoredText b.old b.new at (put_digits w n) result }
    ensures value { result ≡ at + w }
{
    let mut left = n;
    for k in (0..w).rev() {
        b[at + k] = b'0' + (left % 10) as u8;
        left /= 10;
    }
    at + w
}

// The octet c, and then the last w decimal digits of n.
fn put_field(b: &mut [u8], at: usize, c: u8, w: usize, n: u64) -> usize
    requires { at + (w + 1) ≤ length b.old }
    ensures stored_text { StoredText b.old b.new at (c ∷ put_digits w n) result }
    ensures value { result ≡ at + (w + 1) }
{
    b[at] = c;
    put_digits(b, at + 1, w, n)
}

// How many digits a year takes, at least four.
fn year_digits(n: u64) -> usize
    ensures value { result ≡ year_digits n }
    ensures upper_bound { result ≤ 20 }
{
    n.max(1000).ilog10() as usize + 1
}

// A year.
fn put_year(b: &mut [u8], at: usize, year: Year) -> usize
    requires { at + 21 ≤ length b.old }
    ensures stored_text { StoredText b.old b.new at (put_year year) result }
    ensures upper_bound { result ≤ at + 21 }
{
    match year.distance() {
        Distance::Before(n) => put_field(b, at, b'-', year_digits(n), n),
        Distance::Since(n) => {
            if n < 10000 {
                return put_digits(b, at, 4, n);
            }
            put_field(b, at, b'+', year_digits(n), n)
        }
    }
}

// `-W` and the two digits of a week.
fn put_week(b: &mut [u8], at: usize, week: u32) -> usize
    requires { at + 4 ≤ length b.old }
    ensures stored_text { StoredText b.old b.new at (hyphen ∷ (letter_w ∷ put_digits 2 week)) result }
    ensures value { result ≡ at + 4 }
{
    b[at] = b'-';
    put_field(b, at + 1, b'W', 2, week as u64)
}

// What a date has after its year.
fn put_after(b: &mut [u8], at: usize, date: Date) -> usize
    requires { at + 6 ≤ length b.old }
    ensures stored_text { StoredText b.old b.new at (put_after date) result }
    ensures upper_bound { result ≤ at + 6 }
{
    match date {
        Date::Y(_) => at,
        Date::YM(_, month) => put_field(b, at, b'-', 2, month as u64),
        Date::YMD(_, month, day) => {
            let p = put_field(b, at, b'-', 2, month as u64);
            put_field(b, p, b'-', 2, day as u64)
        }
        Date::YD(_, day) => put_field(b, at, b'-', 3, day as u64),
        Date::YW(_, week) => put_week(b, at, week),
        Date::YWD(_, week, weekday) => {
            let p = put_week(b, at, week);
            put_field(b, p, b'-', 1, weekday as u64)
        }
    }
}

// A date.
fn put_date(b: &mut [u8], at: usize, date: Date) -> usize
    requires { at + 27 ≤ length b.old }
    ensures stored_text { StoredText b.old b.new at (put_date date) result }
    ensures upper_bound { result ≤ at + 27 }
{
    let p = put_year(b, at, year_of(date));
    put_after(b, p, date)
}

// Hours, minutes and seconds.
fn put_clock(b: &mut [u8], at: usize, clock: Clock) -> usize
    requires { at + 8 ≤ length b.old }
    ensures stored_text { StoredText b.old b.new at (put_clock clock) result }
    ensures upper_bound { result ≤ at + 8 }
{
    match clock {
        Clock::H(hours) => put_digits(b, at, 2, hours as u64),
        Clock::HM(hours, minutes) => {
            let p = put_digits(b, at, 2, hours as u64);
            put_field(b, p, b':', 2, minutes as u64)
        }
        Clock::HMS(hours, minutes, seconds) => {
            let p = put_digits(b, at, 2, hours as u64);
            let q = put_field(b, p, b':', 2, minutes as u64);
            put_field(b, q, b':', 2, seconds as u64)
        }
    }
}

// A full stop and the fraction's digits, nothing where there are none.
pub(crate) fn put_fraction(b: &mut [u8], at: usize, digits: u32, number: u32) -> usize
    requires { (digits ≤ 9) × (at + 10 ≤ length b.old) }
    ensures stored_text { StoredText b.old b.new at (put_fraction digits (fraction false number)) result }
    ensures upper_bound { result ≤ at + 10 }
{
    if digits == 0 {
        return at;
    }
    put_field(b, at, b'.', digits as usize, number as u64)
}

// The sign of a difference.
fn sign(behind: bool) -> u8
    ensures { result ≡ cond behind hyphen plus }
{
    if behind { b'-' } else { b'+' }
}

// The minutes of a difference, nothing where they are 0.
fn put_minutes(b: &mut [u8], at: usize, minutes: u32) -> usize
    requires { at + 3 ≤ length b.old }
    ensures stored_text { StoredText b.old b.new at (put_minutes minutes false) result }
    ensures upper_bound { result ≤ at + 3 }
{
    if minutes == 0 {
        return at;
    }
    put_field(b, at, b':', 2, minutes as u64)
}

// A difference from UTC.
fn put_difference(b: &mut [u8], at: usize, difference: Difference) -> usize
    requires { at + 6 ≤ length b.old }
    ensures stored_text { StoredText b.old b.new at (put_zone false (Zone.LD difference)) result }
    ensures upper_bound { result ≤ at + 6 }
{
    let p = put_field(b, at, sign(difference.behind), 2, difference.hours as u64);
    put_minutes(b, p, difference.minutes)
}

// Nothing, `Z`, or a difference.
fn put_zone(b: &mut [u8], at: usize, zone: Zone) -> usize
    requires { at + 6 ≤ length b.old }
    ensures stored_text { StoredText b.old b.new at (put_zone false zone) result }
    ensures upper_bound { result ≤ at + 6 }
{
    match zone {
        Zone::L => at,
        Zone::Z => {
            b[at] = b'Z';
            at + 1
        }
        Zone::LD(difference) => put_difference(b, at, difference),
    }
}

// A time.
fn put_time(b: &mut [u8], at: usize, time: Time) -> usize
    requires { (time.digits ≤ 9) × (at + 24 ≤ length b.old) }
    ensures stored_text { StoredText b.old b.new at (put_time canonical time) result }
    ensures upper_bound { result ≤ at + 24 }
{
    let p = put_clock(b, at, time.clock);
    let q = put_fraction(b, p, time.digits, time.fraction);
    put_zone(b, q, time.zone)
}

// A value.
pub(crate) fn put_value(b: &mut [u8], at: usize, value: Value) -> usize
    requires { (form_digits (value_form value) ≤ 9) × (at + 52 ≤ length b.old) }
    ensures stored_text { StoredText b.old b.new at (text_of value) result }
    ensures upper_bound { result ≤ at + 52 }
{
    match value {
        Value::Date(date) => put_date(b, at, date),
        Value::Time(time) => put_time(b, at, time),
        Value::DateTime(date, time) => {
            let p = put_date(b, at, date);
            b[p] = b'T';
            put_time(b, p + 1, time)
        }
    }
}
