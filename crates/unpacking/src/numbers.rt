// Reading the fields of octets, from a place on.
#![tactic(auto, using(crate::proofs::Laws::Steps::steps), unfolding(fields::specs::Readings::natural))]

ghost use Rattle.std.specs.Prelude.{◌≡◌, ◌+◌, ◌^◌, ◌≤◌, ◌<◌, length, IfSome};
ghost use Rattle.fields.specs.Readings.{run, read_bits, a_ranged, a_free, a_natural};
ghost use Rattle.unpacking.specs.Steps.{IsRange, number_at, rest, seen, signed_of};

use answers::{Bits, Octets};

// A range: how many numbers it has, and the width of their fields.
#[derive(Clone, Copy)]
pub(crate) struct Range {
    pub(crate) count: u32,
    pub(crate) width: Bits,
    ghost is_range: { IsRange count width },
}

// A power of two.
fn power(exponent: u32) -> u64
    requires { exponent < 64 }
    ensures { result ≡ 2 ^ exponent }
{
    1u64 << exponent
}

// The number that so many octets make, one or more, from a place on. Most fields lie in one or two.
fn gathered(octets: &[u8], from: Octets, many: Octets) -> u64
    requires some { 1 ≤ many.count }
    requires few { many.count ≤ 7 }
    requires in_bounds { from.count + many.count ≤ length octets.now }
    ensures { result ≡ number_at octets.now from.count many.count }
{
    let one = u64::from(octets[from.count]);
    if many.count == 1 {
        return one;
    }
    let two = one * 256 + u64::from(octets[from.count + 1]);
    if many.count == 2 {
        return two;
    }
    let mut number = two;
    for k in 2..many.count {
        number = number * 256 + u64::from(octets[from.count + k]);
    }
    number
}

// The number of so many bits: the octets that they lie in are gathered, and the bits around them go. The
// octet of the first bit is the last of those that carry the bits up to it.
pub(crate) fn field(octets: &[u8], at: Bits, width: Bits) -> Option<(u32, Bits)>
    requires place { at.count ≤ 1000 }
    requires some_bits { 1 ≤ width.count }
    requires most_bits { width.count ≤ 32 }
    ensures value { seen octets.now result ≡ read_bits width.count (rest octets.now at) }
    ensures number { IfSome result (λ r. r.0 < 2 ^ width.count) }
    ensures end { IfSome result (λ r. r.1.count ≤ at.count + width.count) }
{
    let end = Bits {
        count: at.count + width.count,
    };
    let with_first = Bits {
        count: at.count + 1,
    }
    .octets();
    let with_all = end.octets();
    if octets.len() < with_all.count {
        return None;
    }
    let first = with_first.count - 1;
    let count = with_all.count - first;
    let number = gathered(octets, Octets { count: first }, Octets { count });
    let after = end.filling();
    Some((((number >> after.count) % power(width.count)) as u32, end))
}

// A constrained whole number: one of a range, counted from its lowest.
pub(crate) fn ranged(octets: &[u8], at: Bits, range: Range) -> Option<(u32, Bits)>
    requires { at.count ≤ 1000 }
    ensures value { seen octets.now result ≡ run (a_ranged range.count) (rest octets.now at) }
    ensures number { IfSome result (λ r. r.0 < range.count) }
    ensures end { IfSome result (λ r. r.1.count ≤ at.count + range.width.count) }
{
    let (number, next) = field(octets, at, range.width)?;
    if number < range.count {
        return Some((number, next));
    }
    None
}

// The integer that a number of so many bits is in two's complement.
fn signed(number: u32, width: Bits) -> i32
    requires some_bits { 1 ≤ width.count }
    requires most_bits { width.count ≤ 32 }
    requires number { number < 2 ^ width.count }
    ensures { result ≡ signed_of width.count number }
{
    if u64::from(number) < power(width.count - 1) {
        return number as i32;
    }
    (i64::from(number) - power(width.count) as i64) as i32
}

// An unconstrained whole number, or free integer: its length, 1 to 4, each of which has its width, and then its bits.
pub(crate) fn free(octets: &[u8], at: Bits) -> Option<(i32, Bits)>
    requires { at.count ≤ 900 }
    ensures value { seen octets.now result ≡ run a_free (rest octets.now at) }
    ensures end { IfSome result (λ r. r.1.count ≤ at.count + 40) }
{
    let (length, next) = field(octets, at, Bits { count: 8 })?;
    let width = match length {
        1 => Bits { count: 8 },
        2 => Bits { count: 16 },
        3 => Bits { count: 24 },
        4 => Bits { count: 32 },
        _ => return None,
    };
    let (number, end) = field(octets, next, width)?;
    Some((signed(number, width), end))
}

// An unconstrained whole number that is not negative. It is put in line, so that what its callers read stays in registers.
#[inline(always)]
pub(crate) fn natural(octets: &[u8], at: Bits) -> Option<(u32, Bits)>
    requires { at.count ≤ 900 }
    ensures value { seen octets.now result ≡ run a_natural (rest octets.now at) }
    ensures end { IfSome result (λ r. r.1.count ≤ at.count + 40) }
{
    let (integer, next) = free(octets, at)?;
    if integer < 0 {
        return None;
    }
    Some((integer as u32, next))
}
