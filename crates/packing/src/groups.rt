// Makes groups of bits: whole fields, joined into one number before they are packed into octets.
ghost use Rattle.std.specs.Prelude.{◌≡◌, [], ◌++◌, ◌+◌, ◌-◌, ◌^◌, ◌≤◌, ◌<◌, pos, negsuc};
ghost use Rattle.answers.specs.Counts.{octets_for};
ghost use Rattle.fields.specs.Bits.{bits_of};
ghost use Rattle.fields.specs.Fields.{Free, field_bits};

use answers::Bits;

// A group is so many bits that are not yet packed into octets. They are kept as a number with its width: the number's low
// bits, as many as the width counts, are the group's, and the number has none above them.
#[derive(Clone, Copy)]
pub struct Group {
    pub number: u64,
    pub width: Bits,
    ghost within: { number < 2 ^ width.count },
}

// Gives 2 to the power k.
pub(crate) fn power(k: u32) -> u64
    requires { k < 64 }
    ensures { result ≡ 2 ^ k }
{
    1u64 << k
}

impl Group {
    ghost use Rattle.packing.specs.Groups.{group_bits, integer_bits};

    // Makes the group of no bits.
    pub(crate) fn nothing() -> Group
        ensures bits { group_bits result ≡ [] }
        ensures width { result.width.count ≡ 0 }
    {
        Group {
            number: 0,
            width: Bits { count: 0 },
        }
    }

    // Makes a group of the low bits of a number. A constrained whole number (X.691), which is one of a range, is such a
    // group.
    pub(crate) fn field(width: Bits, number: u64) -> Group
        requires { width.count ≤ 56 }
        ensures bits { group_bits result ≡ bits_of width.count number }
        ensures width { result.width.count ≡ width.count }
    {
        Group {
            number: number % power(width.count),
            width,
        }
    }

    // Makes one group of two: the bits of the first, and after them those of the second.
    pub(crate) fn join(self, second: Group) -> Group
        requires { self.width.count + second.width.count ≤ 56 }
        ensures bits { group_bits result ≡ group_bits self ++ group_bits second }
        ensures width { result.width.count ≡ self.width.count + second.width.count }
    {
        Group {
            number: self.number * power(second.width.count) + second.number,
            width: Bits {
                count: self.width.count + second.width.count,
            },
        }
    }

    // Tells how many bits n takes in two's complement, in whole octets. The integer -(n + 1) takes as many.
    fn integer_width(n: u64) -> Bits
        ensures bits { result.count ≡ integer_bits n }
        ensures most { result.count ≤ 32 }
    {
        if n < 128 {
            return Bits { count: 8 };
        }
        if n < 32768 {
            return Bits { count: 16 };
        }
        if n < 8388608 {
            return Bits { count: 24 };
        }
        Bits { count: 32 }
    }

    // Makes a group of a length octet, and of the octets that it counts: the low bits of a number.
    fn counted(width: Bits, number: u64) -> Group
        requires { width.count ≤ 32 }
        ensures bits { group_bits result ≡ bits_of 8 (octets_for width).count ++ bits_of width.count number }
        ensures width { result.width.count ≤ 40 }
    {
        let length = Group::field(Bits { count: 8 }, width.octets().count as u64);
        length.join(Group::field(width, number))
    }

    // Makes the group of n as an unconstrained whole number (X.691): a free integer with a length octet.
    pub(crate) fn integer(n: u64) -> Group
        ensures bits { group_bits result ≡ field_bits (Free (pos n)) }
        ensures width { result.width.count ≤ 40 }
    {
        Group::counted(Group::integer_width(n), n)
    }

    // Makes the group of -(n + 1) as an unconstrained whole number.
    pub(crate) fn negative(n: u64) -> Group
        ensures bits { group_bits result ≡ field_bits (Free (negsuc n)) }
        ensures width { result.width.count ≤ 40 }
    {
        let width = Group::integer_width(n);
        Group::counted(width, (power(width.count) - 1).saturating_sub(n))
    }
}
