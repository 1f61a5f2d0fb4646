// Unaligned PER of durations (28 bis.6). A type of durations holds every duration that is read, so only its form and its
// octets are looked at.
#![tactic(auto, using(crate::proofs::Laws::AnyPer::coding), unfolding(answers::specs::Outcomes::outcome_of, answers::specs::Outcomes::room_of))]

ghost use Rattle.std.specs.Prelude.{◌≡◌, true, IfOk};
ghost use Rattle.answers.specs.Outcomes.{done, outcome_of, room_of};
ghost use Rattle.types.specs.declared.types.AnyType.{AnyType};
ghost use Rattle.durations.specs.Durations.{exists_duration};
ghost use Rattle.durations.specs.Texts.{duration_text};
ghost use Rattle.per.specs.AnyPer.{per_decoded, per_encoded};
ghost use Rattle.per.specs.Packed.{text_answer};

use crate::packed::{deliver_packed, own_bits};
use answers::{Bits, Outcome, Refusal, deliver};
use durations::Duration;
use packing::pack_duration;
use printing::{TEXT_CAPACITY, duration_into};
use reading::read_duration;
use unpacking::unpack_duration;

// Puts the octets of a text's duration at the front of the room, or refuses.
pub fn encode_duration(text: &[u8], room: &mut [u8]) -> Outcome
    ensures value { result ≡ outcome_of (per_encoded AnyType.Duration text.now) room.old }
    ensures room_after { room.new ≡ room_of (per_encoded AnyType.Duration text.now) room.old }
{
    match read_duration(text) {
        Some(duration) => deliver_packed(&pack_duration(duration), room),
        None => Outcome::refused(Refusal::Form),
    }
}

// Puts the canonical text of a duration at the front of the room.
fn deliver_duration(duration: Duration, bits: Bits, room: &mut [u8]) -> Outcome
    requires { exists_duration duration ≡ true }
    ensures value { result ≡ outcome_of (done (duration_text duration) bits) room.old }
    ensures room_after { room.new ≡ room_of (done (duration_text duration) bits) room.old }
{
    let mut text = [0u8; TEXT_CAPACITY];
    let length = duration_into(duration, &mut text);
    deliver(&text[..length], bits, room)
}

// The duration that octets give, with the bits of its encoding, which the octets are; or why they give none.
fn decoded(octets: &[u8]) -> Result<(Duration, Bits), Refusal>
    ensures answer { text_answer duration_text result ≡ per_decoded AnyType.Duration octets.now }
    ensures exists { IfOk result (λ r. exists_duration r.0 ≡ true) }
{
    let duration = unpack_duration(octets).ok_or(Refusal::Form)?;
    let bits = own_bits(octets, &pack_duration(duration))?;
    Ok((duration, bits))
}

// Puts the canonical text of the octets' duration at the front of the room, or refuses.
pub fn decode_duration(octets: &[u8], room: &mut [u8]) -> Outcome
    ensures value { result ≡ outcome_of (per_decoded AnyType.Duration octets.now) room.old }
    ensures room_after { room.new ≡ room_of (per_decoded AnyType.Duration octets.now) room.old }
{
    match decoded(octets) {
        Ok((duration, bits)) => deliver_duration(duration, bits, room),
        Err(why) => Outcome::refused(why),
    }
}
