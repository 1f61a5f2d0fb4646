// An element is read here: what its octets give at a form, however they should have been written. Octets after it are left.
ghost use Rattle.std.specs.Prelude.{◌≡◌, cond, ◌+◌, ◌≤◌, length, take, drop, Some, None, IfSome};
ghost use Rattle.std.specs.Char.{is_ascii_digit};
ghost use Rattle.std.specs.List.{list_all};
ghost use Rattle.std.specs.Option.{option_map};
ghost use Rattle.octets.specs.Octets.{eq_list};
ghost use Rattle.octets.specs.Stores.{StoredText};
ghost use Rattle.texts.specs.Texts.{read_of};
ghost use Rattle.types.specs.declared.types.Name.{Name};
ghost use Rattle.held_values.specs.Encodings.{of_text};
ghost use Rattle.der_elements.specs.Elements.{tag_of};
ghost use Rattle.der_elements.specs.Readings.{digits_only, separated, read_contents, read_element, under_tag, within_length};

use crate::tags::tag_of;
use octets::put_octets;
use reading::read_text;
use texts::{Form, Value};
use types::Name;

// Whether all octets are digits.
fn all_digits(octets: &[u8]) -> bool
    ensures { result ≡ list_all is_ascii_digit octets.now }
{
    octets.iter().all(|octet| octet.is_ascii_digit())
}

// Whether the octets are so many digits.
fn digits_only(count: usize, octets: &[u8]) -> bool
    ensures { result ≡ digits_only count octets.now }
{
    octets.len() == count && all_digits(octets)
}

// Puts three fields from a place on, with a separator between them, from their digits: so many for the first, two for the
// second, the rest for the third.
fn put_fields(room: &mut [u8], at: usize, separator: u8, width: usize, digits: &[u8]) -> usize
    requires { (width + 2 ≤ length digits.now) × (at + (length digits.now + 2) ≤ length room.old) }
    ensures { StoredText room.old room.new at (separated separator width digits.now) result }
{
    let first = put_octets(room, at, &digits[..width]);
    room[first] = separator;
    let second = put_octets(room, first + 1, &digits[width..width + 2]);
    room[second] = separator;
    put_octets(room, second + 1, &digits[width + 2..])
}

// Reads a text, however it is spelled.
fn read_value(form: Form, text: &[u8]) -> Option<Value>
    ensures { result ≡ of_text (read_of form text.now) }
{
    let (value, _) = read_text(form, text)?;
    Some(value)
}

// Reads a date or a time from its digits: 4 or 2 for the first field, and two for each of the others.
fn read_fields(form: Form, separator: u8, width: usize, contents: &[u8]) -> Option<Value>
    requires { width ≤ 4 }
    ensures { result ≡ cond (digits_only (width + 4) contents.now)
        (of_text (read_of form (separated separator width contents.now))) None }
{
    if !digits_only(width + 4, contents) {
        return None;
    }
    let mut text = [0u8; 10];
    let end = put_fields(&mut text, 0, separator, width, contents);
    read_value(form, &text[..end])
}

// Reads a date-time from its fourteen digits.
fn read_date_time(form: Form, contents: &[u8]) -> Option<Value>
    ensures { result ≡ read_contents Name.DateTime form contents.now }
{
    if !digits_only(14, contents) {
        return None;
    }
    let mut text = [0u8; 19];
    let place = put_fields(&mut text, 0, b'-', 4, &contents[..8]);
    text[place] = b'T';
    put_fields(&mut text, place + 1, b':', 2, &contents[8..]);
    read_value(form, &text)
}

// Reads the contents.
fn read_contents(name: Name, form: Form, contents: &[u8]) -> Option<Value>
    ensures { result ≡ read_contents name form contents.now }
{
    match name {
        Name::Listed => read_value(form, contents),
        Name::Date => read_fields(form, b'-', 4, contents),
        Name::TimeOfDay => read_fields(form, b':', 2, contents),
        Name::DateTime => read_date_time(form, contents),
        Name::Duration => None,
    }
}

// What follows the tag.
fn after_tag(name: Name, octets: &[u8]) -> Option<&[u8]>
    ensures { option_map (λ rest. rest.now) result ≡ cond (eq_list (take (length (tag_of name)) octets.now) (tag_of name))
        (Some (drop (length (tag_of name)) octets.now)) None }
{
    octets.strip_prefix(tag_of(name))
}

// The contents that a length tells of: none where it is missing, above 127 or above the octets that follow.
fn contents_within(octets: &[u8]) -> Option<&[u8]>
    ensures { option_map (λ contents. contents.now) result ≡ within_length Some octets.now }
{
    let (&count, rest) = octets.split_first()?;
    if 127 < count {
        return None;
    }
    rest.get(..count as usize)
}

// The contents of an element with a tag.
pub(crate) fn contents_under(name: Name, octets: &[u8]) -> Option<&[u8]>
    ensures value { option_map (λ contents. contents.now) result ≡ under_tag name Some octets.now }
    ensures upper_bound { IfSome result (λ contents. length contents.now ≤ 127) }
{
    contents_within(after_tag(name, octets)?)
}

// Reads an element: tag, length and contents.
pub(crate) fn read_element(name: Name, form: Form, octets: &[u8]) -> Option<Value>
    ensures { result ≡ read_element name form octets.now }
{
    read_contents(name, form, contents_under(name, octets)?)
}
