// Writing the canonical text of a duration. Each printer stores its text from place at on and answers the place after it.
ghost use Rattle.std.specs.Prelude.{◌≡◌, false, ◌+◌, ◌-◌, ◌*◌, ◌≤◌, length};
ghost use Rattle.octets.specs.Stores.{StoredText};
ghost use Rattle.texts.specs.Times.{fraction};
ghost use Rattle.durations.specs.Parts.{present};
ghost use Rattle.durations.specs.Texts.{duration_text, number_digits, put_part};
ghost use Rattle.printing.specs.Durations.{between, buffer_with_duration, designators, duration_length, earlier_part, put_all_earlier, put_earlier};

use crate::canonical::TEXT_CAPACITY;
use crate::parts::{put_digits, put_fraction};
use durations::Duration;

// Years, months, weeks, days, hours, minutes, seconds.
const DESIGNATORS: [u8; 7] = *b"YMWDHMS";

// How many digits a number has; at most nine are counted.
fn number_digits(number: u32) -> usize
    ensures value { result ≡ number_digits number }
    ensures upper_bound { result ≤ 9 }
{
    let mut left = number / 10;
    for width in 1..9 {
        if left == 0 {
            return width;
        }
        left /= 10;
    }
    9
}

// A component before the last one, nothing where its number is 0.
fn put_earlier(b: &mut [u8], at: usize, designator: u8, number: u32) -> usize
    requires { at + 10 ≤ length b.old }
    ensures stored_text { StoredText b.old b.new at (put_part designator (earlier_part number)) result }
    ensures upper_bound { result ≤ at + 10 }
{
    if number == 0 {
        return at;
    }
    let width = number_digits(number);
    let p = put_digits(b, at, width, number as u64);
    b[p] = designator;
    p + 1
}

// The components from a place among the seven on, up to another, all before the last one.
fn put_several(b: &mut [u8], at: usize, numbers: [u32; 7], first: usize, end: usize) -> usize
    requires { (first ≤ end) × (end ≤ 7) × (at + 10 * (end - first) ≤ length b.old) }
    ensures stored_text { StoredText b.old b.new at (put_earlier (between first end designators) (between first end numbers)) result }
    ensures upper_bound { result ≤ at + 10 * (end - first) }
{
    let mut p = at;
    for place in first..end {
        p = put_earlier(b, p, DESIGNATORS[place], numbers[place]);
    }
    p
}

// All components before the last one, with `T` where that is a time.
fn put_all_earlier(b: &mut [u8], at: usize, numbers: [u32; 7], last: usize) -> usize
    requires { (last ≤ 6) × (at + 61 ≤ length b.old) }
    ensures stored_text { StoredText b.old b.new at (put_all_earlier last numbers) result }
    ensures upper_bound { result ≤ at + 61 }
{
    if last < 4 {
        return put_several(b, at, numbers, 0, last);
    }
    let p = put_several(b, at, numbers, 0, 4);
    b[p] = b'T';
    put_several(b, p + 1, numbers, 4, last)
}

// The last component.
fn put_last(
    b: &mut [u8],
    at: usize,
    designator: u8,
    number: u32,
    digits: u32,
    decimals: u32,
) -> usize
    requires { (digits ≤ 9) × (at + 20 ≤ length b.old) }
    ensures stored_text { StoredText b.old b.new at (put_part designator (present number digits (fraction false decimals))) result }
    ensures upper_bound { result ≤ at + 20 }
{
    let width = number_digits(number);
    let p = put_digits(b, at, width, number as u64);
    let q = put_fraction(b, p, digits, decimals);
    b[q] = designator;
    q + 1
}

// A duration.
fn put_duration(b: &mut [u8], duration: Duration) -> usize
    requires { (duration.last ≤ 6) × (duration.digits ≤ 9) × (82 ≤ length b.old) }
    ensures stored_text { StoredText b.old b.new 0 (duration_text duration) result }
    ensures upper_bound { result ≤ 82 }
{
    let numbers = [
        duration.years,
        duration.months,
        duration.weeks,
        duration.days,
        duration.hours,
        duration.minutes,
        duration.seconds,
    ];
    let last = duration.last as usize;
    b[0] = b'P';
    let p = put_all_earlier(b, 1, numbers, last);
    put_last(
        b,
        p,
        DESIGNATORS[last],
        numbers[last],
        duration.digits,
        duration.fraction,
    )
}

// The canonical text of a duration at the front of a lent buffer of at least TEXT_CAPACITY octets; its length. A shorter
// buffer is untouched and the length is 0, as with a last component beyond the seventh or more than nine fraction digits,
// which no duration has.
pub fn duration_into(duration: Duration, buffer: &mut [u8]) -> usize
    ensures value { result ≡ duration_length duration buffer.old }
    ensures buffer_after { buffer.new ≡ buffer_with_duration duration buffer.old }
{
    if 6 < duration.last {
        return 0;
    }
    if 9 < duration.digits {
        return 0;
    }
    if buffer.len() < TEXT_CAPACITY {
        return 0;
    }
    put_duration(buffer, duration)
}
