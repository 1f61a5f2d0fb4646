// Writes groups as octets.
ghost use Rattle.std.specs.Prelude.{◌≡◌, ◌+◌, ◌^◌, ◌≤◌, ◌<◌};

use crate::groups::{Group, power};
use answers::{Bits, Octets};

// A pen is a place in a buffer: so many whole octets stand before it, and fewer than 8 bits after these wait for the rest
// of their octet, kept as a number.
#[derive(Clone, Copy)]
pub(crate) struct Pen {
    pub(crate) octets: Octets,
    pub(crate) held: Bits,
    pub(crate) acc: u64,
    ghost few: { held.count < 8 },
    ghost within: { acc < 2 ^ held.count },
}

impl Pen {
    ghost use Rattle.packing.specs.Groups.{group_bits};
    ghost use Rattle.packing.specs.Writing.{Room, Put, Flushed, finished};

    // Gives the place at the front of a buffer, with no bits that wait.
    pub(crate) fn front() -> Pen
        ensures octets { result.octets.count ≡ 0 }
        ensures held { result.held.count ≡ 0 }
    {
        Pen {
            octets: Octets { count: 0 },
            held: Bits { count: 0 },
            acc: 0,
        }
    }

    // Writes the low bits of acc, as many as left counts, from octet at on: their whole octets, the last of them first.
    // The bits after these wait.
    fn flush(out: &mut [u8], at: Octets, left: Bits, acc: u64) -> Pen
        requires most { left.count < 64 }
        requires room { Room out.old at left.count }
        ensures { Flushed out.old at left acc out.new result }
    {
        let held = left.begun();
        let whole = Bits {
            count: left.count - held.count,
        }
        .octets();
        let end = at.count + whole.count;
        let octets = (acc >> held.count).to_be_bytes();
        out[at.count..end].copy_from_slice(&octets[8 - whole.count..]);
        Pen {
            octets: Octets { count: end },
            held,
            acc: acc % power(held.count),
        }
    }

    // Appends the bits of a group.
    pub(crate) fn put(self, out: &mut [u8], group: Group) -> Pen
        requires most { group.width.count ≤ 56 }
        requires room { Room out.old self.octets (self.held.count + group.width.count) }
        ensures { Put out.old self (group_bits group) out.new result }
    {
        let acc = self.acc * power(group.width.count) + group.number;
        let left = Bits {
            count: self.held.count + group.width.count,
        };
        Pen::flush(out, self.octets, left, acc)
    }

    // Fills the last octet with zeros.
    pub(crate) fn finish(self, out: &mut [u8])
        requires { Room out.old self.octets self.held.count }
        ensures { out.new ≡ finished out.old self }
    {
        if self.held.count == 0 {
            return;
        }
        let waiting = Group {
            number: self.acc,
            width: self.held,
        };
        let last = waiting.join(Group::field(self.held.filling(), 0));
        out[self.octets.count] = last.number as u8;
    }
}
