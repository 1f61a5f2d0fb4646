ghost use Rattle.std.specs.Prelude.{◌≡◌, true, ◌+◌, ◌≤◌, length};
ghost use Rattle.octets.specs.Stores.{StoredText};
ghost use Rattle.answers.specs.Outcomes.{done, outcome_of, room_of};
ghost use Rattle.held_values.specs.Existence.{exists_value};
ghost use Rattle.der_elements.specs.Der.{no_bits, der_encoded};
ghost use Rattle.der_elements.specs.Elements.{omits as omits_in, contents_of, element, element_of};

use crate::tags::tag_of;
use answers::{Bits, Octets, Outcome, Refusal};
use octets::put_octets;
use printing::{TEXT_CAPACITY, text_into};
use texts::Value;
use types::{Name, Type};
use values::admit;

// Whether the contents are without such an octet of the text.
fn omits(name: Name, octet: u8) -> bool
    ensures { result ≡ omits_in name octet }
{
    match name {
        Name::Listed => false,
        Name::Date => octet == b'-',
        Name::TimeOfDay => octet == b':',
        Name::DateTime => octet == b'-' || octet == b':' || octet == b'T',
        Name::Duration => octet == b'P',
    }
}

// How many octets the contents of a text have.
fn count_contents(name: Name, text: &[u8]) -> usize
    ensures value { result ≡ length (contents_of name text.now) }
    ensures upper_bound { result ≤ length text.now }
{
    text.iter().filter(|octet| !omits(name, **octet)).count()
}

// Puts the contents of a text from a place on.
fn put_contents(room: &mut [u8], at: usize, name: Name, text: &[u8]) -> usize
    requires { at + length (contents_of name text.now) ≤ length room.old }
    ensures { StoredText room.old room.new at (contents_of name text.now) result }
{
    let mut place = at;
    for &octet in text {
        if !omits(name, octet) {
            room[place] = octet;
            place += 1;
        }
    }
    place
}

// Puts the element of a text at the front: the tag, the length, and so many octets of contents.
fn put_element(room: &mut [u8], name: Name, count: u8, text: &[u8]) -> usize
    requires { (count ≡ length (contents_of name text.now)) × (length (element name (contents_of name text.now)) ≤ length room.old) }
    ensures { StoredText room.old room.new 0 (element name (contents_of name text.now)) result }
{
    let at = put_octets(room, 0, tag_of(name));
    room[at] = count;
    put_contents(room, at + 1, name, text)
}

// Puts the element of a canonical text at the front of the room, or refuses where the room is shorter.
pub(crate) fn write_element(name: Name, text: &[u8], room: &mut [u8]) -> Outcome
    requires { length text.now ≤ 127 }
    ensures value { result ≡ outcome_of (done (element name (contents_of name text.now)) no_bits) room.old }
    ensures room_after { room.new ≡ room_of (done (element name (contents_of name text.now)) no_bits) room.old }
{
    let count = count_contents(name, text);
    let length = tag_of(name).len() + 1 + count;
    if room.len() < length {
        return Outcome::refused(Refusal::Room);
    }
    put_element(room, name, count as u8, text);
    Outcome {
        number: 0,
        bits: Bits { count: 0 },
        length: Octets { count: length },
    }
}

// Puts the element of a value at the front of the room.
fn write_value(name: Name, value: Value, room: &mut [u8]) -> Outcome
    requires { exists_value value ≡ true }
    ensures value { result ≡ outcome_of (done (element_of name value) no_bits) room.old }
    ensures room_after { room.new ≡ room_of (done (element_of name value) no_bits) room.old }
{
    let mut text = [0u8; TEXT_CAPACITY];
    let length = text_into(value, &mut text);
    write_element(name, &text[..length], room)
}

// Puts the element of a text's value under a type at the front of the room, or refuses.
pub fn encode(t: Type, text: &[u8], room: &mut [u8]) -> Outcome
    ensures value { result ≡ outcome_of (der_encoded t text.now) room.old }
    ensures room_after { room.new ≡ room_of (der_encoded t text.now) room.old }
{
    match admit(t, text) {
        Ok(value) => write_value(t.name(), value, room),
        Err(why) => Outcome::refused(why),
    }
}
