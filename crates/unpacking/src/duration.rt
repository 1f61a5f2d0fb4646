// Reading a duration: DURATION-INTERVAL-ENCODING (X.691 28 bis.6.1).
#![tactic(auto, using(crate::proofs::Laws::Extended::extended))]

ghost use Rattle.std.specs.Prelude.{◌≡◌, ◌+◌, ◌/◌, ◌≤◌, ◌<◌, get_or, IfSome};
ghost use Rattle.octets.specs.Found.{of_found};
ghost use Rattle.fields.specs.Readings.{run};
ghost use Rattle.durations.specs.Fields.{roots};
ghost use Rattle.durations.specs.Parts.{last_in, well_made};
ghost use Rattle.durations.specs.Readings.{read_extended, read_tail, duration_in_octets};
ghost use Rattle.unpacking.specs.Steps.{rest, seen};
ghost use Rattle.unpacking.specs.Durations.{read_place, bits_in, bare_parts, NumbersAfter, seen_tail, duration_from};

use crate::numbers::{Range, field, natural};
use answers::Bits;
use durations::Duration;
use texts::has_digits;

// The ranges of months, of weeks, minutes and seconds, and of years, days and hours, each from 0.
const MONTHS: Range = Range {
    count: 16,
    width: Bits { count: 4 },
};

const UP_TO_63: Range = Range {
    count: 64,
    width: Bits { count: 6 },
};

const UP_TO_31: Range = Range {
    count: 32,
    width: Bits { count: 5 },
};

// The ranges of the digits of a fraction and of its value, each from 1.
const DIGITS: Range = Range {
    count: 3,
    width: Bits { count: 2 },
};

const FRACTIONS: Range = Range {
    count: 999,
    width: Bits { count: 10 },
};

// A number of an extensible range, which has so many numbers from the lowest on. The bit for "outside of the range" and the
// bits of the range are read as one number.
fn extended(octets: &[u8], at: Bits, lowest: u32, range: Range) -> Option<(u32, Bits)>
    requires place { at.count ≤ 800 }
    requires lowest { lowest ≤ 1 }
    ensures value { seen octets.now result ≡ run (read_extended lowest range.count) (rest octets.now at) }
    ensures end { IfSome result (λ r. r.1.count ≤ at.count + 41) }
{
    let both = Bits {
        count: range.width.count + 1,
    };
    let (number, end) = field(octets, at, both)?;
    if number < range.count {
        return Some((lowest + number, end));
    }
    if number < 1 << range.width.count {
        return None;
    }
    let after_bit = Bits {
        count: at.count + 1,
    };
    natural(octets, after_bit)
}

// The number of a component by its presence bit: 0 where it is not present, nothing where it has more than nine digits.
fn number(octets: &[u8], at: Bits, range: Range, present: u32) -> Option<(u32, Bits)>
    requires { at.count ≤ 700 }
    ensures value { seen octets.now result ≡ run (read_place range.count present) (rest octets.now at) }
    ensures end { IfSome result (λ r. r.1.count ≤ at.count + 41) }
{
    if present == 0 {
        return Some((0, at));
    }
    let (number, end) = extended(octets, at, 0, range)?;
    if number < 1000000000 {
        return Some((number, end));
    }
    None
}

// The range of the component at a place: years, months, weeks, days, hours, minutes, seconds.
fn range_at(place: usize) -> Range
    requires { place < 7 }
    ensures { result.count ≡ get_or roots place 0 }
{
    match place {
        1 => MONTHS,
        2 | 5 | 6 => UP_TO_63,
        _ => UP_TO_31,
    }
}

// The numbers of the components that the presence bits name, 0 where one is not present, after these bits.
fn numbers(octets: &[u8], bits: u32) -> Option<([u32; 7], Bits)>
    requires { bits < 256 }
    ensures { NumbersAfter octets.now bits result }
{
    let mut values = [0u32; 7];
    let mut at = Bits { count: 8 };
    for place in 0..7usize {
        let present = (bits >> (7 - place)) % 2;
        let (value, next) = number(octets, at, range_at(place), present)?;
        values[place] = value;
        at = next;
    }
    Some((values, at))
}

// A fraction: 1 to 9 digits, and the number that they give; 0 and 0 where it is not present.
fn tail(octets: &[u8], at: Bits, present: u32) -> Option<(u32, u32)>
    requires { at.count ≤ 700 }
    ensures { seen_tail result ≡ of_found (run (read_tail present) (rest octets.now at)) }
{
    if present == 0 {
        return Some((0, 0));
    }
    let (digits, next) = extended(octets, at, 1, DIGITS)?;
    if digits < 1 || 9 < digits {
        return None;
    }
    let (fraction, _) = extended(octets, next, 1, FRACTIONS)?;
    if has_digits(fraction, digits) {
        return Some((digits, fraction));
    }
    None
}

// Whether presence bits name some component, and weeks only alone.
fn well_made(bits: u32) -> bool
    requires { bits < 256 }
    ensures { result ≡ well_made (bare_parts (bits_in bits)) }
{
    let components = bits / 2;
    if components == 0 {
        return false;
    }
    components == 16 || components / 16 % 2 == 0
}

// The last place of those that presence bits name.
fn last_place(bits: u32) -> u32
    requires octet { bits < 256 }
    requires component { 1 ≤ bits / 2 }
    ensures { result ≡ last_in (bare_parts (bits_in bits)) }
{
    6 - u32::trailing_zeros(bits / 2)
}

// The duration of numbers.
fn duration_of(values: [u32; 7], last: u32, digits: u32, fraction: u32) -> Duration
    ensures { result ≡ duration_from values last digits fraction }
{
    Duration {
        last,
        years: values[0],
        months: values[1],
        weeks: values[2],
        days: values[3],
        hours: values[4],
        minutes: values[5],
        seconds: values[6],
        digits,
        fraction,
    }
}

// What octets give: a duration with its zero components gone, or nothing.
pub fn unpack_duration(octets: &[u8]) -> Option<Duration>
    ensures { result ≡ duration_in_octets octets.now }
{
    let bits = u32::from(*octets.first()?);
    let (values, at) = numbers(octets, bits)?;
    let (digits, fraction) = tail(octets, at, bits % 2)?;
    if !well_made(bits) {
        return None;
    }
    Some(duration_of(values, last_place(bits), digits, fraction))
}
