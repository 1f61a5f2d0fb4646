ghost use Rattle.std.specs.Prelude.{◌≡◌};
ghost use Rattle.types.specs.Numbers.{clock_at, date_at, zone_at};

use texts::{ClockForm, DateForm, ZoneForm};

// The Date setting with a number; the last one for any number above.
#[tactic(auto, using(std::proofs::lemmas::Bool::Decides::nat_tests), unfolding(crate::specs::Numbers::date_at))]
pub fn date_at(number: u32) -> DateForm
    ensures { result ≡ date_at number }
{
    match number {
        1 => DateForm::Y,
        2 => DateForm::YM,
        3 => DateForm::YMD,
        4 => DateForm::YD,
        5 => DateForm::YW,
        _ => DateForm::YWD,
    }
}

// The Time setting with a number, its fraction aside; the last one for any number above.
#[tactic(auto, using(std::proofs::lemmas::Bool::Decides::nat_tests), unfolding(crate::specs::Numbers::clock_at))]
pub fn clock_at(number: u32) -> ClockForm
    ensures { result ≡ clock_at number }
{
    match number {
        1 => ClockForm::H,
        2 => ClockForm::HM,
        _ => ClockForm::HMS,
    }
}

// The Local-or-UTC setting with a number; the last one for any number above.
#[tactic(auto, using(std::proofs::lemmas::Bool::Decides::nat_tests), unfolding(crate::specs::Numbers::zone_at))]
pub fn zone_at(number: u32) -> ZoneForm
    ensures { result ≡ zone_at number }
{
    match number {
        1 => ZoneForm::L,
        2 => ZoneForm::Z,
        _ => ZoneForm::LD,
    }
}
