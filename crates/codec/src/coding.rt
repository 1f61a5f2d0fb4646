ghost use Rattle.std.specs.Prelude.{◌≡◌};
ghost use Rattle.answers.specs.Outcomes.{outcome_of, room_of};
ghost use Rattle.types.specs.AnyTypes.{duration_type, name_of};
ghost use Rattle.types.specs.declared.types.AnyType.{AnyType};
ghost use Rattle.exchanges.specs.Coding.{answer_of, answer_under, per_encode, per_decode, der_encode, der_decode};

use answers::Outcome;
use exchanges::Entry;
use settings::read_type;
use types::{Limits, Name, Type, TypeFound};

// The name of a type of durations, or that its settings are listed.
fn duration_name(listed: bool) -> Name
    ensures { result ≡ name_of (duration_type listed) }
{
    if listed {
        return Name::Listed;
    }
    Name::Duration
}

// Puts what an entry point gives under a point's type at the front of the room, or refuses.
fn answer_point(entry: Entry, t: Type, input: &[u8], room: &mut [u8]) -> Outcome
    ensures value { result ≡ outcome_of (answer_under entry (AnyType.Point t) input.now) room.old }
    ensures room_after { room.new ≡ room_of (answer_under entry (AnyType.Point t) input.now) room.old }
{
    match entry {
        Entry::PerEncode => per::encode(t, input, room),
        Entry::PerDecode => per::decode(t, input, room),
        Entry::DerEncode => der::encode(t, input, room),
        Entry::DerDecode => der::decode(t, input, room),
    }
}

// Puts what an entry point gives under a type of durations at the front of the room, or refuses: under DURATION, or under
// its settings as they are listed.
fn answer_duration(entry: Entry, listed: bool, input: &[u8], room: &mut [u8]) -> Outcome
    ensures value { result ≡ outcome_of (answer_under entry (duration_type listed) input.now) room.old }
    ensures room_after { room.new ≡ room_of (answer_under entry (duration_type listed) input.now) room.old }
{
    let name = duration_name(listed);
    match entry {
        Entry::PerEncode => per::encode_duration(input, room),
        Entry::PerDecode => per::decode_duration(input, room),
        Entry::DerEncode => der::encode_duration(name, input, room),
        Entry::DerDecode => der::decode_duration(name, input, room),
    }
}

// Puts what an entry point gives under the type that a text names or lists at the front of the room, or refuses. The
// type's refusal comes before all others.
pub fn answer(
    entry: Entry,
    settings: &[u8],
    limits: Limits,
    input: &[u8],
    room: &mut [u8],
) -> Outcome
    ensures value { result ≡ outcome_of (answer_of entry settings.now limits input.now) room.old }
    ensures room_after { room.new ≡ room_of (answer_of entry settings.now limits input.now) room.old }
{
    let read = read_type(settings, limits);
    match read {
        TypeFound::Point(t) => answer_point(entry, t, input, room),
        TypeFound::Duration(listed) => answer_duration(entry, listed, input, room),
        TypeFound::NoType(why) => Outcome::refused(why),
    }
}

// Puts the octets of a text in unaligned PER at the front of the room, or refuses.
pub fn per_encode(settings: &[u8], limits: Limits, text: &[u8], room: &mut [u8]) -> Outcome
    ensures value { result ≡ outcome_of (per_encode settings.now limits text.now) room.old }
    ensures room_after { room.new ≡ room_of (per_encode settings.now limits text.now) room.old }
{
    answer(Entry::PerEncode, settings, limits, text, room)
}

// Puts the canonical text of octets in unaligned PER at the front of the room, or refuses.
pub fn per_decode(settings: &[u8], limits: Limits, octets: &[u8], room: &mut [u8]) -> Outcome
    ensures value { result ≡ outcome_of (per_decode settings.now limits octets.now) room.old }
    ensures room_after { room.new ≡ room_of (per_decode settings.now limits octets.now) room.old }
{
    answer(Entry::PerDecode, settings, limits, octets, room)
}

// Puts the octets of a text in DER at the front of the room, or refuses.
pub fn der_encode(settings: &[u8], limits: Limits, text: &[u8], room: &mut [u8]) -> Outcome
    ensures value { result ≡ outcome_of (der_encode settings.now limits text.now) room.old }
    ensures room_after { room.new ≡ room_of (der_encode settings.now limits text.now) room.old }
{
    answer(Entry::DerEncode, settings, limits, text, room)
}

// Puts the canonical text of octets in DER at the front of the room, or refuses.
pub fn der_decode(settings: &[u8], limits: Limits, octets: &[u8], room: &mut [u8]) -> Outcome
    ensures value { result ≡ outcome_of (der_decode settings.now limits octets.now) room.old }
    ensures room_after { room.new ≡ room_of (der_decode settings.now limits octets.now) room.old }
{
    answer(Entry::DerDecode, settings, limits, octets, room)
}
