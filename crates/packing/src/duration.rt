// Packs durations: DURATION-INTERVAL-ENCODING (X.691 28 bis.6.1).
ghost use Rattle.std.specs.Prelude.{◌≡◌, ◌+◌, ◌*◌, ◌≤◌, ◌<◌, length};
ghost use Rattle.fields.specs.Fields.{layout, field_bits, width as width_of};
ghost use Rattle.durations.specs.Durations.{numbers_of, parts_of};
ghost use Rattle.durations.specs.Fields.{extended as extended_fields, roots, presence as presence_field, number_fields, fraction_part};
ghost use Rattle.packing.specs.Groups.{group_bits};
ghost use Rattle.packing.specs.Waiting.{Added, waiting_count};
ghost use Rattle.packing.specs.Durations.{is_there, component_fields, optionality, packed_duration};

use crate::groups::Group;
use crate::pens::Pen;
use crate::waiting::Waiting;
use crate::writing::{Packed, short};
use answers::Bits;
use durations::Duration;

// A buffer for a duration has room for the longest encoding, which has 377 bits.
pub const DURATION_CAPACITY: usize = 48;

// An extensible range has so many numbers from the lowest on. A number of the range takes so many bits.
#[derive(Clone, Copy)]
struct Range {
    lowest: u32,
    count: u32,
    width: Bits,
}

// The ranges from 0 to 15, to 31 and to 63.
const TO_15: Range = Range {
    lowest: 0,
    count: 16,
    width: Bits { count: 4 },
};

const TO_31: Range = Range {
    lowest: 0,
    count: 32,
    width: Bits { count: 5 },
};

const TO_63: Range = Range {
    lowest: 0,
    count: 64,
    width: Bits { count: 6 },
};

// The ranges of the numbers of the components: years, months, weeks, days, hours, minutes, seconds.
const ROOTS: [Range; 7] = [TO_31, TO_15, TO_63, TO_31, TO_31, TO_63, TO_63];

// The ranges of a fraction's digit count and of its value.
const DIGITS: Range = Range {
    lowest: 1,
    count: 3,
    width: Bits { count: 2 },
};

const FRACTIONS: Range = Range {
    lowest: 1,
    count: 999,
    width: Bits { count: 10 },
};

// Gives the numbers of a duration in the order of its components, a component that is not there being 0.
fn numbers_of(duration: Duration) -> [u32; 7]
    ensures { result ≡ numbers_of duration }
{
    [
        duration.years,
        duration.months,
        duration.weeks,
        duration.days,
        duration.hours,
        duration.minutes,
        duration.seconds,
    ]
}

// Tells whether the component at a place is there: the last one is, and before it those that are not 0.
fn is_there(place: u32, last: u32, number: u32) -> bool
    ensures { result ≡ is_there place last number }
{
    place == last || (place < last && number != 0)
}

// Makes the group of a presence bit.
fn presence(there: bool) -> Group
    ensures bits { group_bits result ≡ field_bits (presence_field there) }
    ensures width { result.width.count ≡ 1 }
{
    Group::field(Bits { count: 1 }, there as u64)
}

// Makes the group of the presence bits: one for each component, and one for the fraction.
fn presences(duration: Duration) -> Group
    ensures bits { group_bits result ≡ layout (optionality duration) }
    ensures width { result.width.count ≡ 8 }
{
    let numbers = numbers_of(duration);
    let mut group = Group::nothing();
    for place in 0..7u32 {
        let there = is_there(place, duration.last, numbers[place as usize]);
        group = group.join(presence(there));
    }
    group.join(presence(0 < duration.digits))
}

// Makes the group of a number of an extensible range: a bit, and after it a constrained whole number, or outside of the
// range an unconstrained one, a free integer with a length octet (X.691).
fn extended(range: Range, number: u32) -> Group
    requires most { range.width.count ≤ 10 }
    requires width { range.width.count ≡ width_of range.count }
    ensures bits { group_bits result ≡ layout (extended_fields range.lowest range.count number) }
    ensures width { result.width.count ≤ 41 }
{
    if range.lowest <= number && number - range.lowest < range.count {
        let inside = Group::field(Bits { count: 1 }, 0);
        return inside.join(Group::field(range.width, (number - range.lowest) as u64));
    }
    Group::field(Bits { count: 1 }, 1).join(Group::integer(number as u64))
}

// Makes the group of a component's number, with no bits where it is not there.
fn component(place: u32, last: u32, number: u32) -> Group
    requires { place < 7 }
    ensures bits { group_bits result ≡ layout (component_fields place last number) }
    ensures width { result.width.count ≤ 41 }
{
    if is_there(place, last, number) {
        return extended(ROOTS[place as usize], number);
    }
    Group::nothing()
}

// Appends the numbers of the components that are there.
fn append_numbers(out: &mut [u8], waiting: Waiting, duration: Duration) -> Waiting
    requires room { waiting_count waiting + 287 ≤ 8 * length out.old }
    ensures added { Added out.old waiting (layout (number_fields roots (parts_of duration))) out.new result }
    ensures most { waiting_count result ≤ waiting_count waiting + 287 }
{
    let numbers = numbers_of(duration);
    let mut so_far = waiting;
    for place in 0..7u32 {
        let group = component(place, duration.last, numbers[place as usize]);
        so_far = so_far.append(out, group);
    }
    so_far
}

// Appends the digit count of a fraction and its value, with no bits where there are no digits. The value 0 is outside of
// its range.
fn append_fraction(out: &mut [u8], waiting: Waiting, digits: u32, fraction: u32) -> Waiting
    requires room { waiting_count waiting + 82 ≤ 8 * length out.old }
    ensures added { Added out.old waiting (layout (fraction_part digits fraction)) out.new result }
    ensures most { waiting_count result ≤ waiting_count waiting + 82 }
{
    if digits == 0 {
        return waiting;
    }
    let counted = waiting.append(out, extended(DIGITS, digits));
    counted.append(out, extended(FRACTIONS, fraction))
}

// Packs a duration into octets: all at once where its bits fit one word.
pub fn pack_duration(duration: Duration) -> Packed<DURATION_CAPACITY>
    ensures { result ≡ packed_duration duration }
{
    let mut octets = [0u8; DURATION_CAPACITY];
    let start = Waiting {
        pen: Pen::front(),
        group: presences(duration),
    };
    let numbered = append_numbers(&mut octets, start, duration);
    let end = append_fraction(&mut octets, numbered, duration.digits, duration.fraction);
    if end.none_written() {
        return short(end.group);
    }
    let bits = end.close(&mut octets);
    Packed { octets, bits }
}
