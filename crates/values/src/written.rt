// The canonical text of a value in lent room.
ghost use Rattle.std.specs.Prelude.{◌≡◌};
ghost use Rattle.answers.specs.Outcomes.{done, outcome_of, room_of};
ghost use Rattle.held_values.specs.Written.{printed, written};

use crate::existence::value_exists;
use answers::{Bits, Outcome, Refusal, deliver};
use printing::{TEXT_CAPACITY, text_into};
use texts::Value;

// Puts the text of a value at the front of the room, and reports the bits of the encoding that it was read from; or
// refuses where the room is shorter than the text. It does not ask whether there is such a value.
pub fn deliver_text(value: Value, bits: Bits, room: &mut [u8]) -> Outcome
    ensures value { result ≡ outcome_of (done (printed value) bits) room.old }
    ensures room_after { room.new ≡ room_of (done (printed value) bits) room.old }
{
    let mut buffer = [0u8; TEXT_CAPACITY];
    let length = text_into(value, &mut buffer);
    deliver(&buffer[..length], bits, room)
}

// Puts the text of a value at the front of the room, and reports the bits of the encoding that it was read from; or
// refuses where there is no such value, or the room is shorter than the text.
#[tactic(auto, unfolding(held_values::specs::Written::written, answers::specs::Outcomes::outcome_of, answers::specs::Outcomes::room_of))]
pub fn write_text(value: Value, bits: Bits, room: &mut [u8]) -> Outcome
    ensures value { result ≡ outcome_of (written bits value) room.old }
    ensures room_after { room.new ≡ room_of (written bits value) room.old }
{
    if !value_exists(value) {
        return Outcome::refused(Refusal::Existence);
    }
    deliver_text(value, bits, room)
}
