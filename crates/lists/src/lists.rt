ghost use Rattle.std.specs.Prelude.{◌≡◌, ◌<◌, Some};
ghost use Rattle.octets.specs.Pieces.{split_on};
ghost use Rattle.lists.specs.Lists.{add_pair, add_pairs, complete, dated_list, interval_list, list_of, none_yet, present_if, settings, timed_list};

use crate::words::{BASIC, DATE, INTERVAL, Pair, TIME, YEAR, ZONE, read_pair};
use octets::find;

// The settings of one list: for each property, in the order Basic, Date, Year, Time, Local-or-UTC, Interval-type,
// the number of its setting, 0 where it is missing.
#[derive(Clone, Copy, Default)]
pub struct Settings {
    pub numbers: [u32; 6],
}

// A list before its first pair.
const NONE_YET: Settings = Settings {
    numbers: [0, 0, 0, 0, 0, 0],
};

// One pair more, unless its property has a setting already.
#[tactic(auto, unfolding(crate::specs::Lists::add_pair))]
fn add(list: Settings, pair: Pair) -> Option<Settings>
    requires { pair.property < 6 }
    ensures { result ≡ add_pair (Some list) (Some pair) }
{
    let mut numbers = list.numbers;
    if numbers[pair.property] != 0 {
        return None;
    }
    numbers[pair.property] = pair.setting;
    Some(Settings { numbers })
}

// All pairs of a text, whatever is missing.
fn read_pairs(s: &[u8]) -> Option<Settings>
    ensures { result ≡ add_pairs (settings none_yet) (split_on 32 s.now) }
{
    let mut list = NONE_YET;
    let mut from = 0;
    while from <= s.len() {
        let end = find(s, from, b' ');
        list = add(list, read_pair(&s[from..end])?)?;
        from = end + 1;
    }
    Some(list)
}

// Whether a list has a date.
#[tactic(auto, unfolding(crate::specs::Lists::dated_list))]
pub fn list_has_date(list: Settings) -> bool
    ensures { result ≡ dated_list (Some list) }
{
    list.numbers[BASIC] == 1 || list.numbers[BASIC] == 3
}

// Whether a list has a time.
#[tactic(auto, unfolding(crate::specs::Lists::timed_list))]
pub fn list_has_time(list: Settings) -> bool
    ensures { result ≡ timed_list (Some list) }
{
    list.numbers[BASIC] == 2 || list.numbers[BASIC] == 3
}

// Whether a list is of an interval.
#[tactic(auto, unfolding(crate::specs::Lists::interval_list))]
fn list_has_interval(list: Settings) -> bool
    ensures { result ≡ interval_list (Some list) }
{
    list.numbers[BASIC] == 4
}

// Whether a setting is there exactly if it is wanted.
fn present_if(wanted: bool, number: u32) -> bool
    ensures { result ≡ present_if wanted number }
{
    wanted == (number != 0)
}

// Whether a list has what it must, and nothing else.
#[tactic(auto, unfolding(crate::specs::Lists::complete, crate::specs::Lists::dated_list, crate::specs::Lists::timed_list, crate::specs::Lists::interval_list))]
fn is_complete(list: Settings) -> bool
    ensures { result ≡ complete (Some list) }
{
    let date = list_has_date(list);
    let time = list_has_time(list);
    list.numbers[BASIC] != 0
        && present_if(date, list.numbers[DATE])
        && present_if(date, list.numbers[YEAR])
        && present_if(time, list.numbers[TIME])
        && present_if(time, list.numbers[ZONE])
        && present_if(list_has_interval(list), list.numbers[INTERVAL])
}

// The list that a text is, if it is one.
#[tactic(auto, unfolding(crate::specs::Lists::list_of, crate::specs::Lists::completed))]
pub fn read_list(s: &[u8]) -> Option<Settings>
    ensures { result ≡ list_of s.now }
{
    let list = read_pairs(s)?;
    if !is_complete(list) {
        return None;
    }
    Some(list)
}
