// Reading a year.
ghost use Rattle.std.specs.Prelude.{◌≡◌, ◌<◌};
ghost use Rattle.calendar.specs.Years.{year_at};
ghost use Rattle.texts.specs.Years.{longest_year, signed_fits, signed_year, get_signed, get_year};
ghost use Rattle.reading.specs.Steps.{seen};

use crate::text_fields::{digits, leading_digits};
use calendar::Year;
use texts::has_digits;

// The most digits of a year that is read.
const LONGEST: usize = 9;

// Whether so many digits that give a number are a year's after a sign.
#[tactic(auto, unfolding(texts::specs::Years::signed_fits))]
fn signed_fits(below: bool, width: usize, number: u32) -> bool
    ensures { result ≡ signed_fits longest_year below width number }
{
    if width < 4 || LONGEST < width {
        return false;
    }
    if width == 4 {
        return below && 0 < number;
    }
    !has_digits(number, (width - 1) as u32)
}

// The year of a sign and a number.
fn signed_year(below: bool, number: u32) -> Year
    requires { 0 < number }
    ensures { result ≡ year_at (signed_year below number) }
{
    if below {
        Year::before_zero(number)
    } else {
        Year::since_zero(number)
    }
}

// A year's digits after its sign.
#[tactic(auto, unfolding(texts::specs::Years::get_signed))]
fn signed(text: &[u8], below: bool) -> Option<(Year, &[u8])>
    ensures { seen result ≡ get_signed longest_year below text.now }
{
    let width = leading_digits(text);
    if LONGEST < width {
        return None;
    }
    let (number, rest) = digits(text, width)?;
    if !signed_fits(below, width, number) {
        return None;
    }
    Some((signed_year(below, number), rest))
}

// A year: four digits, or a sign with its digits.
#[tactic(auto, using(calendar::proofs::Laws::Years::year_is), unfolding(texts::specs::Years::get_year))]
pub(crate) fn year(text: &[u8]) -> Option<(Year, &[u8])>
    ensures { seen result ≡ get_year longest_year text.now }
{
    match text {
        [b'-', rest @ ..] => signed(rest, true),
        [b'+', rest @ ..] => signed(rest, false),
        _ => {
            let (number, rest) = digits(text, 4)?;
            Some((Year::since_zero(number), rest))
        }
    }
}
