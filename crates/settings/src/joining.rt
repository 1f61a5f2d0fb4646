// Lists of a type: whether they make one row, and which Years they name.
ghost use Rattle.std.specs.Prelude.{◌≡◌, ◌||◌, ◌≤◌, not, length, map, Some};
ghost use Rattle.types.specs.AnyTypes.{found_type, limited_to};
ghost use Rattle.lists.specs.Lists.{dated_list, most_lists, timed_list, year_in};
ghost use Rattle.settings.specs.Joined.{type_joined};
ghost use Rattle.type_texts.specs.TypeTexts.{all_of, distinct, equal_lists, joined, list_type, member, one_row, point_type, row_in};
ghost use Rattle.type_texts.specs.TypeTexts.{same_but_year, time_at, usable, years_of};

use answers::Refusal;
use lists::lists::{Settings, list_has_date, list_has_time};
use lists::words::{BASIC, DATE, INTERVAL, TIME, YEAR, ZONE};
use texts::TimeForm;
use types::numbers::{clock_at, date_at, zone_at};
use types::types::{Limits, Type, TypeFound, has_place, unlimited};
use types::years::{PlainYears, SignedYears, YearRow, Years, year_setting_at};

// Whether one of the lists has the Year with this number.
fn named_in(lists: &[Settings], number: u32) -> bool
    ensures { result ≡ member number (map year_in (map Some lists.now)) }
{
    lists.iter().any(|list| list.numbers[YEAR] == number)
}

// The Years that lists of one row name.
#[inline(always)]
#[tactic(auto, unfolding(type_texts::specs::TypeTexts::years_of))]
fn years_of(row: YearRow, lists: &[Settings]) -> Years
    ensures { result ≡ years_of row (map year_in (map Some lists.now)) }
{
    match row {
        YearRow::Year => Years::Plain(PlainYears {
            basic: named_in(lists, 1),
            proleptic: named_in(lists, 2),
        }),
        YearRow::AnyYear => Years::Signed(SignedYears {
            negative: named_in(lists, 3),
            five: named_in(lists, 4),
            six: named_in(lists, 5),
            seven: named_in(lists, 6),
            eight: named_in(lists, 7),
            nine: named_in(lists, 8),
        }),
    }
}

// How the row of a list's Year has its years.
fn list_row(list: Settings) -> YearRow
    ensures { result ≡ row_in (Some list) }
{
    year_setting_at(list.numbers[YEAR]).row()
}

// The form of a time with these settings, by their numbers.
fn time_at(time: u32, zone: u32) -> TimeForm
    ensures { result ≡ time_at time zone }
{
    let clock = clock_at(time % 10);
    let zone = zone_at(zone);
    TimeForm {
        clock,
        digits: time / 10,
        zone,
    }
}

// The type of a point's list, with the Years of all lists of its row.
fn point_type(list: Settings, years: Years) -> Type
    ensures { result ≡ point_type (Some list) years }
{
    let basic = list.numbers[BASIC];
    let date = date_at(list.numbers[DATE]);
    let time = time_at(list.numbers[TIME], list.numbers[ZONE]);
    if basic == 1 {
        return Type::date(date, years);
    }
    if basic == 2 {
        return Type::time(time);
    }
    Type::date_time(date, years, time)
}

// Whether a list is a point's: it has a date or a time.
fn has_point(list: Settings) -> bool
    ensures { result ≡ (dated_list (Some list) || timed_list (Some list)) }
{
    list_has_date(list) || list_has_time(list)
}

// The type of a list under limits, with the Years of all lists of its row.
pub(crate) fn limited_list(limits: Limits, list: Settings, years: Years) -> TypeFound
    ensures { result ≡ found_type (limited_to limits (list_type (Some list) years)) }
{
    if !has_point(list) {
        return unlimited(true, limits);
    }
    point_type(list, years).limited(limits)
}

// Whether the limits have their place in a list.
#[tactic(auto, unfolding(type_texts::specs::TypeTexts::usable))]
fn is_usable(limits: Limits, list: Settings) -> bool
    ensures { result ≡ usable limits (Some list) }
{
    has_place(limits, list_has_date(list), list_has_time(list))
}

// Whether two lists have the same settings, Year aside.
#[tactic(auto, unfolding(type_texts::specs::TypeTexts::same_but_year))]
fn same_but_year(a: Settings, b: Settings) -> bool
    ensures { result ≡ same_but_year (Some a) (Some b) }
{
    a.numbers[BASIC] == b.numbers[BASIC]
        && a.numbers[DATE] == b.numbers[DATE]
        && a.numbers[TIME] == b.numbers[TIME]
        && a.numbers[ZONE] == b.numbers[ZONE]
        && a.numbers[INTERVAL] == b.numbers[INTERVAL]
}

// Whether two lists are equal.
#[tactic(auto, unfolding(type_texts::specs::TypeTexts::equal_lists))]
fn equal(list: Settings, other: Settings) -> bool
    ensures { result ≡ equal_lists (Some list) (Some other) }
{
    list.numbers[YEAR] == other.numbers[YEAR] && same_but_year(list, other)
}

// Whether two lists are of one row.
#[tactic(auto, using(types::proofs::Laws::Years::row_test), unfolding(type_texts::specs::TypeTexts::one_row))]
fn one_row(a: Settings, b: Settings) -> bool
    ensures { result ≡ one_row (Some a) (Some b) }
{
    same_but_year(a, b) && list_row(a) == list_row(b)
}

// Whether the limits have their place in each list.
fn all_usable(limits: Limits, lists: &[Settings]) -> bool
    ensures { result ≡ all_of (usable limits) (map Some lists.now) }
{
    lists.iter().all(|list| is_usable(limits, *list))
}

// Whether a list differs from all others.
fn differs(list: Settings, others: &[Settings]) -> bool
    ensures { result ≡ all_of (λ t. not (equal_lists (Some list) t)) (map Some others.now) }
{
    others.iter().all(|other| !equal(list, *other))
}

// Whether no list comes twice.
fn all_differ(lists: &[Settings]) -> bool
    ensures { result ≡ distinct (map Some lists.now) }
{
    let mut left = lists;
    while let Some((list, others)) = left.split_first() {
        if !differs(*list, others) {
            return false;
        }
        left = others;
    }
    true
}

// Whether all others are of a list's row.
fn in_row(list: Settings, others: &[Settings]) -> bool
    ensures { result ≡ all_of (one_row (Some list)) (map Some others.now) }
{
    others.iter().all(|other| one_row(list, *other))
}

// The first of lists that share a row, with the Years of all, or why they make no type. It is inlined: where the number of lists is known, a
// type is read in fewer instructions so.
#[inline(always)]
pub(crate) fn join(limits: Limits, lists: &[Settings]) -> Result<(Settings, Years), Refusal>
    requires { length lists.now ≤ most_lists }
    ensures { type_joined limits result ≡ found_type (joined limits (map Some lists.now)) }
{
    let Some((first, others)) = lists.split_first() else {
        return Err(Refusal::Settings);
    };
    if !all_usable(limits, lists) {
        return Err(Refusal::Settings);
    }
    if !all_differ(lists) {
        return Err(Refusal::Settings);
    }
    if !in_row(*first, others) {
        return Err(Refusal::Rows);
    }
    Ok((*first, years_of(list_row(*first), lists)))
}
