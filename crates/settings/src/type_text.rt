ghost use Rattle.std.specs.Prelude.{◌≡◌};
ghost use Rattle.std.specs.Option.{option_map};
ghost use Rattle.types.specs.AnyTypes.{found_type};
ghost use Rattle.lists.specs.Several.{few};
ghost use Rattle.settings.specs.Joined.{type_joined};
ghost use Rattle.type_texts.specs.TypeTexts.{joined, lists_of, type_of, type_of_other};

use crate::joining::{join, limited_list};
use answers::Refusal;
use arrayvec::ArrayVec;
use lists::lists::{Settings, read_list};
use octets::{find, same};
use types::types::{Limits, Type, TypeFound, unlimited};
use types::years::Years;

// The most lists of a type.
const MOST: usize = 6;

// The lists of a text, split at its bars, where each can be read and they are not too many.
fn read_all(text: &[u8]) -> Option<ArrayVec<Settings, MOST>>
    ensures { option_map (λ v. v.items) result ≡ few (lists_of text.now) }
{
    let mut lists = ArrayVec::new();
    let mut from = 0;
    while from <= text.len() {
        let end = find(text, from, b'|');
        if lists.is_full() {
            return None;
        }
        lists.push(read_list(&text[from..end])?);
        from = end + 1;
    }
    Some(lists)
}

// The first of a text's lists, with the Years of all, or why they make no type. One list and two are joined as they are read;
// more are kept first.
fn read_lists(text: &[u8], limits: Limits) -> Result<(Settings, Years), Refusal>
    ensures { type_joined limits result ≡ found_type (joined limits (lists_of text.now)) }
{
    let end = text.len();
    let bar = find(text, 0, b'|');
    if end <= bar {
        let Some(list) = read_list(text) else {
            return Err(Refusal::Settings);
        };
        return join(limits, &[list]);
    }
    let next = bar + 1;
    if end <= find(text, next, b'|') {
        let Some(list) = read_list(&text[..bar]) else {
            return Err(Refusal::Settings);
        };
        let Some(other) = read_list(&text[next..]) else {
            return Err(Refusal::Settings);
        };
        return join(limits, &[list, other]);
    }
    let Some(lists) = read_all(text) else {
        return Err(Refusal::Settings);
    };
    join(limits, &lists)
}

// The type of a text that names no point's type, under limits given beside it.
fn read_other(text: &[u8], limits: Limits) -> TypeFound
    ensures { result ≡ found_type (type_of_other limits text.now) }
{
    if same(text, b"DURATION") {
        return unlimited(false, limits);
    }
    match read_lists(text, limits) {
        Ok((list, years)) => limited_list(limits, list, years),
        Err(why) => TypeFound::NoType(why),
    }
}

// The type that a text names or lists, under limits given beside it.
pub fn read_type(text: &[u8], limits: Limits) -> TypeFound
    ensures { result ≡ found_type (type_of limits text.now) }
{
    if same(text, b"DATE") {
        return Type::DATE.limited(limits);
    }
    if same(text, b"TIME-OF-DAY") {
        return Type::TIME_OF_DAY.limited(limits);
    }
    if same(text, b"DATE-TIME") {
        return Type::DATE_TIME.limited(limits);
    }
    read_other(text, limits)
}
