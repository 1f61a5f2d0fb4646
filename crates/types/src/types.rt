ghost use Rattle.std.specs.Prelude.{◌≡◌, false, cond, ◌||◌};
ghost use Rattle.answers.specs.declared.refusals.Refusal.{Refusal};
ghost use Rattle.types.specs.declared.types.AnyType.{AnyType};
ghost use Rattle.types.specs.declared.types.TypeFound.{TypeFound};
ghost use Rattle.types.specs.AnyTypes as AnyTypes;
ghost use Rattle.types.specs.AnyTypes.{found_type, limited_to};
ghost use Rattle.types.specs.Types.{carrying, digits_of_parts, every_year, form_of, form_of_parts, fraction_digits, has_date, has_time};
ghost use Rattle.types.specs.Types.{listed, name_of, parts_of, placed, restricted, unlimited_date, unlimited_time};
ghost use Rattle.types.specs.Types.{well_formed, well_parts, with_hour24, with_window};

use crate::years::{PlainYears, Years};
use answers::Refusal;
use calendar::Year;
use texts::{ClockForm, DateForm, Form, TimeForm, ZoneForm};

// What a type says of its dates: their form, their Year settings, and the lowest and the highest year.
#[derive(Clone, Copy)]
pub struct DateType {
    pub form: DateForm,
    pub years: Years,
    pub window: Option<(Year, Year)>,
}

// What a type says of its times: their form, and whether hour 24 is allowed.
#[derive(Clone, Copy)]
pub struct TimeType {
    pub form: TimeForm,
    pub hour24: bool,
}

// What a type says of its dates, of its times, or of both. So only a type with a date has a window of years, and only a
// type with a time says whether hour 24 is allowed.
#[derive(Clone, Copy)]
pub enum Parts {
    Date(DateType),
    Time(TimeType),
    DateTime(DateType, TimeType),
}

// A type description: its settings are listed, or it is a useful time type (X.680 34 bis.4), DATE, TIME-OF-DAY or
// DATE-TIME, of which only the restrictions are kept: the window of years, and whether hour 24 is allowed.
#[derive(Clone, Copy)]
pub enum Type {
    Listed(Parts),
    Date(Option<(Year, Year)>),
    TimeOfDay(bool),
    DateTime(Option<(Year, Year)>, bool),
}

// The type of a point, that is of a date, a time or both; or of a duration: the useful time type DURATION, or its settings
// as they are listed, `Basic=Interval Interval-type=D`. A duration has no restriction.
#[derive(Clone, Copy)]
pub enum AnyType {
    Point(Type),
    Duration,
    ListedDuration,
}

// Which useful time type a type is, or that its settings are listed. The DER tag goes by it.
#[derive(Clone, Copy)]
pub enum Name {
    Listed,
    Date,
    TimeOfDay,
    DateTime,
    Duration,
}

// The restrictions that a type may carry, given beside its text: the lowest and the highest year, and whether hour 24 is
// allowed.
#[derive(Clone, Copy)]
pub struct Limits {
    pub window: Option<(Year, Year)>,
    pub hour24: bool,
}

impl Limits {
    // No restriction at all.
    pub const NONE: Limits = Limits {
        window: None,
        hour24: true,
    };
}

// What a type's text and its limits give: a type, or why there is none. It is what is said of `TypeFound`.
#[derive(Clone, Copy)]
pub enum TypeRead {
    Type(AnyType),
    Unreadable,
    NoRow,
}

// What a type's text and its limits give, as it is handed on: the type of a point by itself; a type of durations, and
// whether its settings are listed; or no type, and why there is none.
#[derive(Clone, Copy)]
pub enum TypeFound {
    Point(Type),
    Duration(bool),
    NoType(Refusal),
}

// Whether a window leaves out no year.
fn every_year(window: Option<(Year, Year)>) -> bool
    ensures { result ≡ every_year window }
{
    window.is_none()
}

// Whether limits have their place beside a date, or a time, or both.
#[tactic(auto, unfolding(crate::specs::Types::placed))]
pub fn has_place(limits: Limits, date: bool, time: bool) -> bool
    ensures { result ≡ placed limits date time }
{
    (every_year(limits.window) || date) && (limits.hour24 || time)
}

// Whether there is a date.
fn has_date(parts: Parts) -> bool
    ensures { result ≡ has_date parts }
{
    matches!(parts, Parts::Date(_) | Parts::DateTime(_, _))
}

// Whether there is a time.
fn has_time(parts: Parts) -> bool
    ensures { result ≡ has_time parts }
{
    matches!(parts, Parts::Time(_) | Parts::DateTime(_, _))
}

// A date with this lowest and highest year, in place of its own.
fn with_window(window: Option<(Year, Year)>, date: DateType) -> DateType
    ensures { result ≡ with_window window date }
{
    DateType { window, ..date }
}

// A time with hour 24 allowed or not, in place of what it had.
fn with_hour24(hour24: bool, time: TimeType) -> TimeType
    ensures { result ≡ with_hour24 hour24 time }
{
    TimeType { hour24, ..time }
}

// Settings with these limits, in place of their own.
fn restrict(limits: Limits, parts: Parts) -> Parts
    ensures { result ≡ restricted limits parts }
{
    match parts {
        Parts::Date(d) => Parts::Date(with_window(limits.window, d)),
        Parts::Time(t) => Parts::Time(with_hour24(limits.hour24, t)),
        Parts::DateTime(d, t) => Parts::DateTime(
            with_window(limits.window, d),
            with_hour24(limits.hour24, t),
        ),
    }
}

// Whether some Year is named and a fraction has at most 9 digits.
fn well_parts(parts: Parts) -> bool
    ensures { result ≡ well_parts parts }
{
    match parts {
        Parts::Date(d) => d.years.some(),
        Parts::Time(t) => t.form.digits <= 9,
        Parts::DateTime(d, t) => d.years.some() && t.form.digits <= 9,
    }
}

// The form of the texts of values with these settings.
fn form_of(parts: Parts) -> Form
    ensures { result ≡ form_of_parts parts }
{
    match parts {
        Parts::Date(d) => Form::Date(d.form),
        Parts::Time(t) => Form::Time(t.form),
        Parts::DateTime(d, t) => Form::DateTime(d.form, t.form),
    }
}

// The number of fraction digits, 0 without a fraction.
fn digits_of(parts: Parts) -> u32
    ensures { result ≡ digits_of_parts parts }
{
    match parts {
        Parts::Date(_) => 0,
        Parts::Time(t) | Parts::DateTime(_, t) => t.form.digits,
    }
}

// A type of durations, or that it is unreadable where there is any limit.
pub fn unlimited(listed: bool, limits: Limits) -> TypeFound
    ensures { result ≡ cond (placed limits false false) (TypeFound.Duration listed) (TypeFound.NoType Refusal.Settings) }
{
    if !has_place(limits, false, false) {
        return TypeFound::NoType(Refusal::Settings);
    }
    TypeFound::Duration(listed)
}

// What DATE stands for: YMD with Year=Basic.
const YMD_BASIC: DateType = DateType {
    form: DateForm::YMD,
    years: Years::Plain(PlainYears {
        basic: true,
        proleptic: false,
    }),
    window: None,
};

// The form of what TIME-OF-DAY stands for: HMS with L.
const HMS_L: TimeForm = TimeForm {
    clock: ClockForm::HMS,
    digits: 0,
    zone: ZoneForm::L,
};

// What TIME-OF-DAY stands for: HMS with L.
const HMS_LOCAL: TimeType = TimeType {
    form: HMS_L,
    hour24: true,
};

impl Type {
    // Year, month and day of the years 1582 to 9999.
    pub const DATE: Type = Type::Date(None);

    // Hours, minutes and seconds of local time.
    pub const TIME_OF_DAY: Type = Type::TimeOfDay(true);

    // Year, month and day with hours, minutes and seconds of local time.
    pub const DATE_TIME: Type = Type::DateTime(None, true);

    // The type of a date with these settings.
    pub fn date(form: DateForm, years: Years) -> Type
        ensures { result ≡ listed (Parts.Date (unlimited_date form years)) }
    {
        Type::Listed(Parts::Date(DateType {
            form,
            years,
            window: None,
        }))
    }

    // The type of a time with these settings.
    pub fn time(form: TimeForm) -> Type
        ensures { result ≡ listed (Parts.Time (unlimited_time form)) }
    {
        Type::Listed(Parts::Time(TimeType { form, hour24: true }))
    }

    // The type of a date with a time with these settings.
    pub fn date_time(form: DateForm, years: Years, time: TimeForm) -> Type
        ensures { result ≡ listed (Parts.DateTime (unlimited_date form years) (unlimited_time time)) }
    {
        let date = DateType {
            form,
            years,
            window: None,
        };
        let clock = TimeType {
            form: time,
            hour24: true,
        };
        Type::Listed(Parts::DateTime(date, clock))
    }

    // The name that stands for the type's settings, or that they are listed.
    pub fn name(self) -> Name
        ensures { result ≡ name_of self }
    {
        match self {
            Type::Listed(_) => Name::Listed,
            Type::Date(_) => Name::Date,
            Type::TimeOfDay(_) => Name::TimeOfDay,
            Type::DateTime(_, _) => Name::DateTime,
        }
    }

    // The settings, listed or those that the name stands for, with the restrictions.
    pub fn settings(self) -> Parts
        ensures { result ≡ parts_of self }
    {
        match self {
            Type::Listed(parts) => parts,
            Type::Date(w) => Parts::Date(with_window(w, YMD_BASIC)),
            Type::TimeOfDay(h) => Parts::Time(with_hour24(h, HMS_LOCAL)),
            Type::DateTime(w, h) => Parts::DateTime(
                with_window(w, YMD_BASIC),
                with_hour24(h, HMS_LOCAL),
            ),
        }
    }

    // The type with these limits in place of its own, whether or not they have their place.
    fn carry(self, limits: Limits) -> Type
        ensures { result ≡ carrying limits self }
    {
        match self {
            Type::Listed(parts) => Type::Listed(restrict(limits, parts)),
            Type::Date(_) => Type::Date(limits.window),
            Type::TimeOfDay(_) => Type::TimeOfDay(limits.hour24),
            Type::DateTime(_, _) => Type::DateTime(limits.window, limits.hour24),
        }
    }

    // The type with these limits in place of its own, or that it is unreadable where one of them has no place.
    #[tactic(auto, unfolding(crate::specs::AnyTypes::limited_to))]
    pub fn limited(self, limits: Limits) -> TypeFound
        ensures { result ≡ found_type (limited_to limits (AnyType.Point self)) }
    {
        let parts = self.settings();
        if !has_place(limits, has_date(parts), has_time(parts)) {
            return TypeFound::NoType(Refusal::Settings);
        }
        TypeFound::Point(self.carry(limits))
    }

    // Whether settings or a name can give the type.
    pub fn well_formed(self) -> bool
        ensures { result ≡ well_formed self }
    {
        match self {
            Type::Listed(parts) => well_parts(parts),
            Type::Date(_) | Type::TimeOfDay(_) | Type::DateTime(_, _) => true,
        }
    }

    // The form of the texts of the type's values.
    pub fn form(self) -> Form
        ensures { result ≡ form_of self }
    {
        match self {
            Type::Listed(parts) => form_of(parts),
            Type::Date(_) => Form::Date(DateForm::YMD),
            Type::TimeOfDay(_) => Form::Time(HMS_L),
            Type::DateTime(_, _) => Form::DateTime(DateForm::YMD, HMS_L),
        }
    }

    // The number of fraction digits, 0 without a fraction.
    pub fn fraction_digits(self) -> u32
        ensures { result ≡ fraction_digits self }
    {
        match self {
            Type::Listed(parts) => digits_of(parts),
            Type::Date(_) | Type::TimeOfDay(_) | Type::DateTime(_, _) => 0,
        }
    }
}

impl AnyType {
    // Any duration.
    pub const DURATION: AnyType = AnyType::Duration;

    // The name that stands for the type's settings, or that they are listed.
    pub fn name(self) -> Name
        ensures { result ≡ AnyTypes.name_of self }
    {
        match self {
            AnyType::Point(t) => t.name(),
            AnyType::Duration => Name::Duration,
            AnyType::ListedDuration => Name::Listed,
        }
    }

    // The type with these limits in place of its own, or that it is unreadable where one of them has no place.
    #[tactic(auto, unfolding(crate::specs::AnyTypes::limited_to))]
    pub fn limited(self, limits: Limits) -> TypeFound
        ensures { result ≡ found_type (limited_to limits self) }
    {
        match self {
            AnyType::Point(t) => t.limited(limits),
            AnyType::Duration => unlimited(false, limits),
            AnyType::ListedDuration => unlimited(true, limits),
        }
    }

    // Whether settings or a name can give the type.
    pub fn well_formed(self) -> bool
        ensures { result ≡ AnyTypes.well_formed self }
    {
        match self {
            AnyType::Point(t) => t.well_formed(),
            AnyType::Duration | AnyType::ListedDuration => true,
        }
    }

    // The number of fraction digits, 0 without a fraction. A duration has its own in each value, and its type none.
    pub fn fraction_digits(self) -> u32
        ensures { result ≡ AnyTypes.fraction_digits self }
    {
        match self {
            AnyType::Point(t) => t.fraction_digits(),
            AnyType::Duration | AnyType::ListedDuration => 0,
        }
    }
}
