ghost use Rattle.std.specs.Prelude.{◌≡◌};
ghost use Rattle.texts.specs.Forms.{value_form, form_digits};
ghost use Rattle.printing.specs.Canonical.{length_in, buffer_with};

use crate::parts::put_value;
use texts::Value;

// How many octets a buffer for texts has: the longest canonical text, and slack.
pub const TEXT_CAPACITY: usize = 136;

// How many fraction digits a value has.
fn fraction_digits(value: Value) -> u32
    ensures { result ≡ form_digits (value_form value) }
{
    match value {
        Value::Date(_) => 0,
        Value::Time(time) | Value::DateTime(_, time) => time.digits,
    }
}

// The canonical text of a value at the front of a lent buffer of at least TEXT_CAPACITY octets; its length.
// A shorter buffer is untouched and the length is 0, as with more than nine fraction digits, which no value has.
pub fn text_into(value: Value, buffer: &mut [u8]) -> usize
    ensures value { result ≡ length_in value buffer.old }
    ensures buffer_after { buffer.new ≡ buffer_with value buffer.old }
{
    if 9 < fraction_digits(value) {
        return 0;
    }
    if buffer.len() < TEXT_CAPACITY {
        return 0;
    }
    put_value(buffer, 0, value)
}
