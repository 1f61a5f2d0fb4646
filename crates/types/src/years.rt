ghost use Rattle.std.specs.Prelude.{◌≡◌};
ghost use Rattle.types.specs.Years.{row_of_year, some_year, year_setting_at, years_row};

// A Year setting. For Ln a year has n digits after a sign.
#[derive(Clone, Copy, PartialEq, Eq)]
pub enum YearSetting {
    Basic,
    Proleptic,
    Negative,
    L5,
    L6,
    L7,
    L8,
    L9,
}

// How a row of X.691's Table 2 has its years. For Basic and Proleptic it is YEAR-ENCODING (28 bis.2.3), the choice of
// immediate (2005 to 2020), near-future (2021 to 2276), near-past (1749 to 2004) and remainder. For Negative and Ln it is
// ANY-YEAR-ENCODING (28 bis.2.4), an unconstrained whole number.
#[derive(Clone, Copy, PartialEq, Eq)]
pub enum YearRow {
    Year,
    AnyYear,
}

// Which of the Year settings without a sign a type names.
#[derive(Clone, Copy, PartialEq, Eq)]
pub struct PlainYears {
    pub basic: bool,
    pub proleptic: bool,
}

// Which of the Year settings with a sign a type names.
#[derive(Clone, Copy, PartialEq, Eq)]
pub struct SignedYears {
    pub negative: bool,
    pub five: bool,
    pub six: bool,
    pub seven: bool,
    pub eight: bool,
    pub nine: bool,
}

// The Year settings that a type names, of one row.
#[derive(Clone, Copy, PartialEq, Eq)]
pub enum Years {
    Plain(PlainYears),
    Signed(SignedYears),
}

// The Year setting with a number; the last one for any number above.
#[tactic(auto, using(std::proofs::lemmas::Bool::Decides::nat_tests), unfolding(crate::specs::Years::year_setting_at))]
pub fn year_setting_at(number: u32) -> YearSetting
    ensures { result ≡ year_setting_at number }
{
    match number {
        1 => YearSetting::Basic,
        2 => YearSetting::Proleptic,
        3 => YearSetting::Negative,
        4 => YearSetting::L5,
        5 => YearSetting::L6,
        6 => YearSetting::L7,
        7 => YearSetting::L8,
        _ => YearSetting::L9,
    }
}

impl YearSetting {
    // How its row has its years.
    pub fn row(self) -> YearRow
        ensures { result ≡ row_of_year self }
    {
        match self {
            YearSetting::Basic | YearSetting::Proleptic => YearRow::Year,
            YearSetting::Negative
            | YearSetting::L5
            | YearSetting::L6
            | YearSetting::L7
            | YearSetting::L8
            | YearSetting::L9 => YearRow::AnyYear,
        }
    }
}

impl Years {
    // How their row has its years.
    pub fn row(self) -> YearRow
        ensures { result ≡ years_row self }
    {
        match self {
            Years::Plain(_) => YearRow::Year,
            Years::Signed(_) => YearRow::AnyYear,
        }
    }

    // Whether some Year is named.
    #[tactic(auto, using(crate::proofs::Laws::Years::some_plain, crate::proofs::Laws::Years::some_signed))]
    pub fn some(self) -> bool
        ensures { result ≡ some_year self }
    {
        match self {
            Years::Plain(y) => y.basic || y.proleptic,
            Years::Signed(y) => y.negative || y.five || y.six || y.seven || y.eight || y.nine,
        }
    }
}
