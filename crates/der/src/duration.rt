// DER of durations: under 0E the contents are the text, and under the tag of DURATION the text without its `P`. A type of
// durations holds every duration that is read, so only its form and its octets are looked at.
ghost use Rattle.std.specs.Prelude.{◌≡◌, true, ◌∷◌, ◌≤◌, length, Some};
ghost use Rattle.answers.specs.Outcomes.{done, outcome_of, room_of};
ghost use Rattle.durations.specs.Durations.{exists_duration};
ghost use Rattle.durations.specs.Texts.{duration_text, letter_p, read_duration as duration_read};
ghost use Rattle.der_elements.specs.AnyDer.{decoded_duration, encoded_duration};
ghost use Rattle.der_elements.specs.Der.{no_bits};
ghost use Rattle.der_elements.specs.Elements.{contents_of, element};
ghost use Rattle.der_elements.specs.Readings.{read_duration_contents, read_duration_element};

use crate::decoding::compare_text;
use crate::elements::write_element;
use crate::readings::contents_under;
use answers::{Outcome, Refusal};
use durations::Duration;
use octets::put_octets;
use printing::{TEXT_CAPACITY, duration_into};
use reading::read_duration;
use types::Name;

// Puts the element of a duration at the front of the room.
fn write_duration(name: Name, duration: Duration, room: &mut [u8]) -> Outcome
    requires { exists_duration duration ≡ true }
    ensures value { result ≡ outcome_of (done (element name (contents_of name (duration_text duration))) no_bits) room.old }
    ensures room_after { room.new ≡ room_of (done (element name (contents_of name (duration_text duration))) no_bits) room.old }
{
    let mut text = [0u8; TEXT_CAPACITY];
    let length = duration_into(duration, &mut text);
    write_element(name, &text[..length], room)
}

// Puts the element of a text's duration under a name at the front of the room, or refuses.
pub fn encode_duration(name: Name, text: &[u8], room: &mut [u8]) -> Outcome
    ensures value { result ≡ outcome_of (encoded_duration name (duration_read text.now)) room.old }
    ensures room_after { room.new ≡ room_of (encoded_duration name (duration_read text.now)) room.old }
{
    let Some(duration) = read_duration(text) else {
        return Outcome::refused(Refusal::Form);
    };
    write_duration(name, duration, room)
}

// Reads a duration's text from what follows its `P`.
fn read_after_p(contents: &[u8]) -> Option<Duration>
    requires { length contents.now ≤ 127 }
    ensures { result ≡ duration_read (letter_p ∷ contents.now) }
{
    let mut text = [0u8; 128];
    text[0] = b'P';
    let end = put_octets(&mut text, 1, contents);
    read_duration(&text[..end])
}

// Reads the contents.
fn read_contents(name: Name, contents: &[u8]) -> Option<Duration>
    requires { length contents.now ≤ 127 }
    ensures { result ≡ read_duration_contents name contents.now }
{
    match name {
        Name::Listed => read_duration(contents),
        Name::Date | Name::TimeOfDay | Name::DateTime => None,
        Name::Duration => read_after_p(contents),
    }
}

// Reads an element: tag, length and contents.
fn read_element(name: Name, octets: &[u8]) -> Option<Duration>
    ensures { result ≡ read_duration_element name octets.now }
{
    read_contents(name, contents_under(name, octets)?)
}

// Puts the text of a duration at the front of the room, where the octets that it was read from are its own.
fn compare_duration(name: Name, octets: &[u8], duration: Duration, room: &mut [u8]) -> Outcome
    requires { exists_duration duration ≡ true }
    ensures value { result ≡ outcome_of (decoded_duration name octets.now (Some duration)) room.old }
    ensures room_after { room.new ≡ room_of (decoded_duration name octets.now (Some duration)) room.old }
{
    let mut text = [0u8; TEXT_CAPACITY];
    let length = duration_into(duration, &mut text);
    compare_text(name, octets, &text[..length], room)
}

// Puts the canonical text of the octets' duration under a name at the front of the room, or refuses.
pub fn decode_duration(name: Name, octets: &[u8], room: &mut [u8]) -> Outcome
    ensures value { result ≡ outcome_of (decoded_duration name octets.now (read_duration_element name octets.now)) room.old }
    ensures room_after { room.new
        ≡ room_of (decoded_duration name octets.now (read_duration_element name octets.now)) room.old }
{
    let Some(duration) = read_element(name, octets) else {
        return Outcome::refused(Refusal::Form);
    };
    compare_duration(name, octets, duration, room)
}
