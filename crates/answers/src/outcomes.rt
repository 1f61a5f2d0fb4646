ghost use Rattle.std.specs.Prelude.{◌≡◌};
ghost use Rattle.answers.specs.Outcomes.{done, refusal, outcome_of, room_of};

use crate::counts::{Bits, Octets};
use crate::refusals::Refusal;
use octets::put_octets;

// What every entry point returns: 0 or the number of a refusal, the bit count, and the result's length.
#[repr(C)]
#[derive(Clone, Copy)]
pub struct Outcome {
    pub number: u32,
    pub bits: Bits,
    pub length: Octets,
}

impl Outcome {
    // A refusal: its number, no bits and no octets.
    pub fn refused(why: Refusal) -> Outcome
        ensures { result ≡ refusal why }
    {
        Outcome {
            number: u32::from(why),
            bits: Bits { count: 0 },
            length: Octets { count: 0 },
        }
    }
}

// Puts a result at the front of the lent room, or refuses where the room is shorter.
pub fn deliver(octets: &[u8], bits: Bits, room: &mut [u8]) -> Outcome
    ensures value { result ≡ outcome_of (done octets.now bits) room.old }
    ensures room_after { room.new ≡ room_of (done octets.now bits) room.old }
{
    let count = octets.len();
    if room.len() < count {
        return Outcome::refused(Refusal::Room);
    }
    put_octets(room, 0, octets);
    Outcome {
        number: 0,
        bits,
        length: Octets { count },
    }
}
