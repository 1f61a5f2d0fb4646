// The entry points for C, under the names of include/anafzir.h: each takes a type's text, its limits, the input and the room, as the
// header has them. The archive of this crate has these functions and no others.
#![tactic(auto)]

ghost use Rattle.std.specs.Prelude.{◌≡◌};
ghost use Rattle.answers.specs.Outcomes.{outcome_of, room_of};
ghost use Rattle.exchanges.specs.Demands.{answer_in_c};
ghost use Rattle.exchanges.specs.declared.entries.Entry.{Entry};

use answers::{Outcome, Refusal};
use codec::answer;
use codec::limits::limits_given;
use exchanges::{Entry, GivenLimits};

// Puts what an entry point gives under the limits that C passes at the front of the room, or refuses.
fn answer_to_c(
    entry: Entry,
    settings: &[u8],
    limits: GivenLimits,
    input: &[u8],
    room: &mut [u8],
) -> Outcome
    ensures value { result ≡ outcome_of (answer_in_c entry settings.now limits input.now) room.old }
    ensures room_after { room.new ≡ room_of (answer_in_c entry settings.now limits input.now) room.old }
{
    match limits_given(limits) {
        Some(limits) => answer(entry, settings, limits, input, room),
        None => Outcome::refused(Refusal::Settings),
    }
}

// Encodes a text in unaligned PER.
#[unsafe(no_mangle)]
pub extern "C" fn anafzir_per_encode(
    settings: &[u8],
    limits: GivenLimits,
    text: &[u8],
    room: &mut [u8],
) -> Outcome
    ensures value { result ≡ outcome_of (answer_in_c Entry.PerEncode settings.now limits text.now) room.old }
    ensures room_after { room.new ≡ room_of (answer_in_c Entry.PerEncode settings.now limits text.now) room.old }
{
    answer_to_c(Entry::PerEncode, settings, limits, text, room)
}

// Decodes octets of unaligned PER.
#[unsafe(no_mangle)]
pub extern "C" fn anafzir_per_decode(
    settings: &[u8],
    limits: GivenLimits,
    octets: &[u8],
    room: &mut [u8],
) -> Outcome
    ensures value { result ≡ outcome_of (answer_in_c Entry.PerDecode settings.now limits octets.now) room.old }
    ensures room_after { room.new ≡ room_of (answer_in_c Entry.PerDecode settings.now limits octets.now) room.old }
{
    answer_to_c(Entry::PerDecode, settings, limits, octets, room)
}

// Encodes a text in DER.
#[unsafe(no_mangle)]
pub extern "C" fn anafzir_der_encode(
    settings: &[u8],
    limits: GivenLimits,
    text: &[u8],
    room: &mut [u8],
) -> Outcome
    ensures value { result ≡ outcome_of (answer_in_c Entry.DerEncode settings.now limits text.now) room.old }
    ensures room_after { room.new ≡ room_of (answer_in_c Entry.DerEncode settings.now limits text.now) room.old }
{
    answer_to_c(Entry::DerEncode, settings, limits, text, room)
}

// Decodes octets of DER.
#[unsafe(no_mangle)]
pub extern "C" fn anafzir_der_decode(
    settings: &[u8],
    limits: GivenLimits,
    octets: &[u8],
    room: &mut [u8],
) -> Outcome
    ensures value { result ≡ outcome_of (answer_in_c Entry.DerDecode settings.now limits octets.now) room.old }
    ensures room_after { room.new ≡ room_of (answer_in_c Entry.DerDecode settings.now limits octets.now) room.old }
{
    answer_to_c(Entry::DerDecode, settings, limits, octets, room)
}
