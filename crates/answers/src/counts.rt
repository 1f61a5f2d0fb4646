ghost use Rattle.std.specs.Prelude.{◌≡◌};
ghost use Rattle.answers.specs.Counts.{octets_for, filling_for, begun_by};

// A count of bits inside an encoding, or a place with so many bits before it.
#[repr(C)]
#[derive(Clone, Copy)]
pub struct Bits {
    pub count: u32,
}

// A count of octets outside an encoding, or a place with so many octets before it.
#[repr(C)]
#[derive(Clone, Copy)]
pub struct Octets {
    pub count: usize,
}

impl Bits {
    // The fewest octets that carry the bits: the one conversion of a count of bits to a count of octets.
    pub fn octets(self) -> Octets
        ensures { result ≡ octets_for self }
    {
        Octets {
            count: (self.count as usize + 7) / 8,
        }
    }

    // The bits that fill the last octet.
    pub fn filling(self) -> Bits
        ensures { result ≡ filling_for self }
    {
        Bits {
            count: (8 - self.count % 8) % 8,
        }
    }

    // The bits after the last whole octet.
    pub fn begun(self) -> Bits
        ensures { result ≡ begun_by self }
    {
        Bits {
            count: self.count % 8,
        }
    }
}
