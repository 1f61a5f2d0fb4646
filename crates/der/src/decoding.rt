ghost use Rattle.std.specs.Prelude.{◌≡◌, ◌≤◌, true, cond, length};
ghost use Rattle.octets.specs.Octets.{eq_list};
ghost use Rattle.answers.specs.Outcomes.{done, refused, outcome_of, room_of};
ghost use Rattle.answers.specs.declared.refusals.Refusal.{Refusal};
ghost use Rattle.kinds.specs.Coding.{compared};
ghost use Rattle.held_values.specs.Existence.{exists_value};
ghost use Rattle.der_elements.specs.Der.{der as der_kind, der_decoded, no_bits};
ghost use Rattle.der_elements.specs.Elements.{contents_of, element};

use crate::elements::write_element;
use crate::readings::read_element;
use answers::{Bits, Outcome, Refusal, deliver};
use octets::same;
use printing::{TEXT_CAPACITY, text_into};
use texts::Value;
use types::{Name, Type};
use values::judge;

// Puts a canonical text at the front of the room, where octets are its own element.
pub(crate) fn compare_text(name: Name, octets: &[u8], text: &[u8], room: &mut [u8]) -> Outcome
    requires { length text.now ≤ 127 }
    ensures value { result
        ≡ outcome_of (cond (eq_list octets.now (element name (contents_of name text.now))) (done text.now no_bits) (refused Refusal.Encoding)) room.old }
    ensures room_after { room.new
        ≡ room_of (cond (eq_list octets.now (element name (contents_of name text.now))) (done text.now no_bits) (refused Refusal.Encoding)) room.old }
{
    let mut own = [0u8; TEXT_CAPACITY];
    let written = write_element(name, text, &mut own);
    if !same(octets, &own[..written.length.count]) {
        return Outcome::refused(Refusal::Encoding);
    }
    deliver(text, Bits { count: 0 }, room)
}

// Puts the text of a value at the front of the room, where the octets that it was read from are its own.
fn compare(t: Type, octets: &[u8], value: Value, room: &mut [u8]) -> Outcome
    requires { exists_value value ≡ true }
    ensures value { result ≡ outcome_of (compared der_kind t octets.now value) room.old }
    ensures room_after { room.new ≡ room_of (compared der_kind t octets.now value) room.old }
{
    let mut text = [0u8; TEXT_CAPACITY];
    let length = text_into(value, &mut text);
    compare_text(t.name(), octets, &text[..length], room)
}

// Puts the canonical text of the octets' value under a type at the front of the room, or refuses.
pub fn decode(t: Type, octets: &[u8], room: &mut [u8]) -> Outcome
    ensures value { result ≡ outcome_of (der_decoded t octets.now) room.old }
    ensures room_after { room.new ≡ room_of (der_decoded t octets.now) room.old }
{
    if !t.well_formed() {
        return Outcome::refused(Refusal::Settings);
    }
    let Some(value) = read_element(t.name(), t.form(), octets) else {
        return Outcome::refused(Refusal::Form);
    };
    match judge(t, value) {
        Ok(()) => compare(t, octets, value, room),
        Err(why) => Outcome::refused(why),
    }
}
