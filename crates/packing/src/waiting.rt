// Appends groups to a buffer. They are joined while they fit one number, and only then written.
ghost use Rattle.std.specs.Prelude.{◌≡◌, ◌+◌, ◌*◌, ◌≤◌, length};

use crate::groups::Group;
use crate::pens::Pen;
use answers::Bits;

// A pen with a group whose bits wait to be written there, at most 56.
#[derive(Clone, Copy)]
pub(crate) struct Waiting {
    pub(crate) pen: Pen,
    pub(crate) group: Group,
    ghost fits: { group.width.count ≤ 56 },
}

impl Waiting {
    ghost use Rattle.packing.specs.Groups.{group_bits};
    ghost use Rattle.packing.specs.Waiting.{Added, waiting_count, waiting_total, none_written, closed};

    // Appends the bits of a group: to those that wait, or after these are written.
    pub(crate) fn append(self, out: &mut [u8], group: Group) -> Waiting
        requires most { group.width.count ≤ 56 }
        requires room { waiting_count self ≤ 8 * length out.old }
        ensures { Added out.old self (group_bits group) out.new result }
    {
        if self.group.width.count + group.width.count <= 56 {
            return Waiting {
                pen: self.pen,
                group: self.group.join(group),
            };
        }
        Waiting {
            pen: self.pen.put(out, self.group),
            group,
        }
    }

    // Tells whether all bits wait, and none is written yet.
    pub(crate) fn none_written(self) -> bool
        ensures { result ≡ none_written self }
    {
        self.pen.octets.count == 0 && self.pen.held.count == 0
    }

    // Writes the bits that wait, and fills the last octet with zeros. Tells how many bits were written.
    pub(crate) fn close(self, out: &mut [u8]) -> Bits
        requires room { waiting_count self ≤ 8 * length out.old }
        requires most { waiting_count self ≤ 1000 }
        ensures bits { result ≡ waiting_total self }
        ensures after { out.new ≡ closed out.old self }
    {
        let end = self.pen.put(out, self.group);
        end.finish(out);
        Bits {
            count: 8 * end.octets.count as u32 + end.held.count,
        }
    }
}
