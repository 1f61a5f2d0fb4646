// Unaligned PER of dates and times under their types.
#![tactic(auto, using(crate::proofs::Laws::Per::coding), unfolding(answers::specs::Outcomes::outcome_of, answers::specs::Outcomes::room_of))]

ghost use Rattle.std.specs.Prelude.{◌≡◌, true, IfOk};
ghost use Rattle.answers.specs.Outcomes.{outcome_of, room_of};
ghost use Rattle.texts.specs.Texts.{text_of};
ghost use Rattle.rows.specs.Fields.{year_row_of, year_row_of_parts};
ghost use Rattle.held_values.specs.Existence.{exists_value};
ghost use Rattle.per.specs.Per.{per_encoded, per_decoded};
ghost use Rattle.per.specs.Packed.{text_answer};

use crate::packed::{deliver_packed, own_bits};
use answers::{Bits, Outcome, Refusal};
use packing::pack;
use texts::Value;
use types::{Parts, Type, YearRow};
use unpacking::unpack;
use values::{admit, deliver_text, judge};

// How the row of these settings has its years.
fn parts_row(parts: Parts) -> YearRow
    ensures { result ≡ year_row_of_parts parts }
{
    match parts {
        Parts::Date(date) => date.years.row(),
        Parts::Time(_) => YearRow::Year,
        Parts::DateTime(date, _) => date.years.row(),
    }
}

// How a type's row has its years.
fn row_of(t: Type) -> YearRow
    ensures { result ≡ year_row_of t }
{
    match t {
        Type::Listed(parts) => parts_row(parts),
        Type::Date(_) => YearRow::Year,
        Type::TimeOfDay(_) => YearRow::Year,
        Type::DateTime(_, _) => YearRow::Year,
    }
}

// Puts the octets of a text's value under a type at the front of the room, or refuses.
pub fn encode(t: Type, text: &[u8], room: &mut [u8]) -> Outcome
    ensures value { result ≡ outcome_of (per_encoded t text.now) room.old }
    ensures room_after { room.new ≡ room_of (per_encoded t text.now) room.old }
{
    match admit(t, text) {
        Ok(value) => deliver_packed(&pack(row_of(t), value), room),
        Err(why) => Outcome::refused(why),
    }
}

// The value that octets give under a type, with the bits of its encoding, which the octets are; or why they give none.
fn decoded(t: Type, octets: &[u8]) -> Result<(Value, Bits), Refusal>
    ensures answer { text_answer text_of result ≡ per_decoded t octets.now }
    ensures exists { IfOk result (λ r. exists_value r.0 ≡ true) }
{
    if !t.well_formed() {
        return Err(Refusal::Settings);
    }
    let value = unpack(row_of(t), t.form(), octets).ok_or(Refusal::Form)?;
    judge(t, value)?;
    let bits = own_bits(octets, &pack(row_of(t), value))?;
    Ok((value, bits))
}

// Puts the canonical text of the octets' value under a type at the front of the room, or refuses.
pub fn decode(t: Type, octets: &[u8], room: &mut [u8]) -> Outcome
    ensures value { result ≡ outcome_of (per_decoded t octets.now) room.old }
    ensures room_after { room.new ≡ room_of (per_decoded t octets.now) room.old }
{
    match decoded(t, octets) {
        Ok((value, bits)) => deliver_text(value, bits, room),
        Err(why) => Outcome::refused(why),
    }
}
