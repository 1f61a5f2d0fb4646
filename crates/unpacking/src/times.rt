// Reading a time.
#![tactic(auto, using(crate::proofs::Laws::Rows::rows), unfolding(rows::specs::Readings::difference_at, rows::specs::Readings::read_zone))]

ghost use Rattle.std.specs.Prelude.{◌≡◌, ◌+◌, ◌≤◌, IfSome};
ghost use Rattle.texts.specs.declared.forms.ZoneForm.{ZoneForm};
ghost use Rattle.fields.specs.Readings.{run};
ghost use Rattle.rows.specs.Readings.{read_clock, read_extended, read_fraction, read_minutes, difference_at, read_zone, read_time};
ghost use Rattle.unpacking.specs.Steps.{rest, after_hours, seen};

use crate::numbers::{Range, natural, ranged};
use answers::Bits;
use texts::{Clock, ClockForm, Difference, Time, TimeForm, Zone, ZoneForm, has_digits};

// A bit that says which of two follows.
const BIT: Range = Range {
    count: 2,
    width: Bits { count: 1 },
};

// The ranges of hours, minutes, seconds and fractions.
const HOURS: Range = Range {
    count: 25,
    width: Bits { count: 5 },
};

const MINUTES: Range = Range {
    count: 60,
    width: Bits { count: 6 },
};

const SECONDS: Range = Range {
    count: 61,
    width: Bits { count: 6 },
};

const FRACTIONS: Range = Range {
    count: 1000,
    width: Bits { count: 10 },
};

// The ranges of the hours of a difference, from -15 on, and of its minutes, which are at least 1.
const DIFFERENCE_HOURS: Range = Range {
    count: 32,
    width: Bits { count: 5 },
};

const DIFFERENCE_MINUTES: Range = Range {
    count: 59,
    width: Bits { count: 6 },
};

// What a form has after the hours.
fn after_hours(octets: &[u8], at: Bits, hours: u32, form: ClockForm) -> Option<(Clock, Bits)>
    requires { at.count ≤ 150 }
    ensures value { seen octets.now result ≡ run (after_hours hours form) (rest octets.now at) }
    ensures end { IfSome result (λ r. r.1.count ≤ at.count + 12) }
{
    match form {
        ClockForm::H => Some((Clock::H(hours), at)),
        ClockForm::HM => {
            let (minutes, end) = ranged(octets, at, MINUTES)?;
            Some((Clock::HM(hours, minutes), end))
        }
        ClockForm::HMS => {
            let (minutes, next) = ranged(octets, at, MINUTES)?;
            let (seconds, end) = ranged(octets, next, SECONDS)?;
            Some((Clock::HMS(hours, minutes, seconds), end))
        }
    }
}

// Hours, minutes and seconds.
fn clock(octets: &[u8], at: Bits, form: ClockForm) -> Option<(Clock, Bits)>
    requires { at.count ≤ 120 }
    ensures value { seen octets.now result ≡ run (read_clock form) (rest octets.now at) }
    ensures end { IfSome result (λ r. r.1.count ≤ at.count + 17) }
{
    let (hours, next) = ranged(octets, at, HOURS)?;
    after_hours(octets, next, hours, form)
}

// The number of a fraction after its first bit: a constrained whole number up to 999, or an unconstrained one that is
// not negative.
fn extended(octets: &[u8], at: Bits, bit: u32) -> Option<(u32, Bits)>
    requires { at.count ≤ 150 }
    ensures value { seen octets.now result ≡ run (read_extended bit) (rest octets.now at) }
    ensures end { IfSome result (λ r. r.1.count ≤ at.count + 40) }
{
    if bit == 0 {
        return ranged(octets, at, FRACTIONS);
    }
    natural(octets, at)
}

// A fraction of so many digits; 0 for none.
fn fraction(octets: &[u8], at: Bits, digits: u32) -> Option<(u32, Bits)>
    requires { at.count ≤ 140 }
    ensures value { seen octets.now result ≡ run (read_fraction digits) (rest octets.now at) }
    ensures end { IfSome result (λ r. r.1.count ≤ at.count + 41) }
{
    if digits == 0 {
        return Some((0, at));
    }
    let (bit, next) = ranged(octets, at, BIT)?;
    let (number, end) = extended(octets, next, bit)?;
    if has_digits(number, digits) {
        return Some((number, end));
    }
    None
}

// The minutes of a difference, if they are present, else 0.
fn minutes(octets: &[u8], at: Bits, present: u32) -> Option<(u32, Bits)>
    requires { at.count ≤ 200 }
    ensures { seen octets.now result ≡ run (read_minutes present) (rest octets.now at) }
{
    if present == 0 {
        return Some((0, at));
    }
    let (number, next) = ranged(octets, at, DIFFERENCE_MINUTES)?;
    Some((number + 1, next))
}

// A difference of hours that are counted from -15.
fn difference_at(hours: u32, minutes: u32) -> Difference
    ensures { result ≡ difference_at hours minutes }
{
    if hours < 15 {
        return Difference {
            behind: true,
            hours: 15 - hours,
            minutes,
        };
    }
    Difference {
        behind: false,
        hours: hours - 15,
        minutes,
    }
}

// A difference: whether it has minutes, its hours, and its minutes.
fn difference(octets: &[u8], at: Bits) -> Option<(Zone, Bits)>
    requires { at.count ≤ 190 }
    ensures { seen octets.now result ≡ run (read_zone ZoneForm.LD) (rest octets.now at) }
{
    let (present, after_present) = ranged(octets, at, BIT)?;
    let (hours, after_hours) = ranged(octets, after_present, DIFFERENCE_HOURS)?;
    let (minutes, end) = minutes(octets, after_hours, present)?;
    Some((Zone::LD(difference_at(hours, minutes)), end))
}

// Nothing of a zone but its difference takes bits.
fn zone(octets: &[u8], at: Bits, form: ZoneForm) -> Option<(Zone, Bits)>
    requires { at.count ≤ 190 }
    ensures { seen octets.now result ≡ run (read_zone form) (rest octets.now at) }
{
    match form {
        ZoneForm::L => Some((Zone::L, at)),
        ZoneForm::Z => Some((Zone::Z, at)),
        ZoneForm::LD => difference(octets, at),
    }
}

// A time of a form.
pub(crate) fn time(octets: &[u8], at: Bits, form: TimeForm) -> Option<(Time, Bits)>
    requires { at.count ≤ 100 }
    ensures { seen octets.now result ≡ run (read_time form) (rest octets.now at) }
{
    let (clock, after_clock) = clock(octets, at, form.clock)?;
    let (fraction, after_fraction) = fraction(octets, after_clock, form.digits)?;
    let (zone, end) = zone(octets, after_fraction, form.zone)?;
    let time = Time {
        clock,
        digits: form.digits,
        fraction,
        zone,
    };
    Some((time, end))
}
