// Which value a text gives under a type, or why it gives none.
ghost use Rattle.std.specs.Prelude.{◌≡◌};
ghost use Rattle.held_values.specs.Admission.{judged, admitted};

use crate::existence::value_exists;
use crate::holding::in_type;
use answers::Refusal;
use reading::read_text;
use texts::Value;
use types::Type;

// A value of the type's form: whether it exists, and whether it is in the type.
#[tactic(auto, unfolding(held_values::specs::Admission::judged))]
pub fn judge(t: Type, value: Value) -> Result<(), Refusal>
    ensures { result ≡ judged t value }
{
    if !value_exists(value) {
        return Err(Refusal::Existence);
    }
    if !in_type(t, value) {
        return Err(Refusal::Membership);
    }
    Ok(())
}

// What a text of any octets gives under any type.
#[tactic(auto, unfolding(held_values::specs::Admission::admitted))]
pub fn admit(t: Type, text: &[u8]) -> Result<Value, Refusal>
    ensures { result ≡ admitted t text.now }
{
    if !t.well_formed() {
        return Err(Refusal::Settings);
    }
    let (value, _) = read_text(t.form(), text).ok_or(Refusal::Form)?;
    judge(t, value)?;
    Ok(value)
}
