ghost use Rattle.std.specs.Prelude.{◌≡◌, ◌<◌, length, map};
ghost use Rattle.lists.specs.Words.{fraction_number, is_digit_count, pair_of, place_from, time_number, with_setting};

use octets::same;

// The places of the properties.
pub const BASIC: usize = 0;

pub const DATE: usize = 1;

pub const YEAR: usize = 2;

pub const TIME: usize = 3;

pub const ZONE: usize = 4;

pub const INTERVAL: usize = 5;

// The words of each property.
const BASIC_WORDS: [&[u8]; 4] = [
    b"Basic=Date",
    b"Basic=Time",
    b"Basic=Date-Time",
    b"Basic=Interval",
];

const DATE_WORDS: [&[u8]; 6] = [
    b"Date=Y",
    b"Date=YM",
    b"Date=YMD",
    b"Date=YD",
    b"Date=YW",
    b"Date=YWD",
];

const YEAR_WORDS: [&[u8]; 8] = [
    b"Year=Basic",
    b"Year=Proleptic",
    b"Year=Negative",
    b"Year=L5",
    b"Year=L6",
    b"Year=L7",
    b"Year=L8",
    b"Year=L9",
];

const CLOCK_WORDS: [&[u8]; 3] = [b"Time=H", b"Time=HM", b"Time=HMS"];

const FRACTION_WORDS: [&[u8]; 3] = [b"Time=HF", b"Time=HMF", b"Time=HMSF"];

const ZONE_WORDS: [&[u8]; 3] = [b"Local-or-UTC=L", b"Local-or-UTC=Z", b"Local-or-UTC=LD"];

const INTERVAL_WORDS: [&[u8]; 1] = [b"Interval-type=D"];

// One pair of a list: the place of its property, and the number of its setting.
#[derive(Clone, Copy)]
pub struct Pair {
    pub property: usize,
    pub setting: u32,
}

// The place of a text among words, counted from 1, if it is one of them.
#[inline(always)]
fn place_in(words: &[&[u8]], s: &[u8]) -> Option<u32>
    requires { length words.now < 10 }
    ensures { result ≡ place_from 1 (map (λ w. w.now) words.now) s.now }
{
    let place = words.iter().position(|word| same(s, *word))?;
    Some(place as u32 + 1)
}

// Whether an octet is a digit from 1 to 9, a number of fraction digits.
fn is_digit_count(octet: u8) -> bool
    ensures { result ≡ is_digit_count octet }
{
    b'1' <= octet && octet <= b'9'
}

// The number of a Time setting with a fraction, if the text is one.
fn fraction(s: &[u8]) -> Option<u32>
    ensures { result ≡ fraction_number s.now }
{
    let (digit, word) = s.split_last()?;
    if !is_digit_count(*digit) {
        return None;
    }
    let place = place_in(&FRACTION_WORDS, word)?;
    Some((*digit - b'0') as u32 * 10 + place)
}

// The number of a Time setting, if the text is one.
fn time_word(s: &[u8]) -> Option<u32>
    ensures { result ≡ time_number s.now }
{
    match place_in(&CLOCK_WORDS, s) {
        Some(clock) => Some(clock),
        None => fraction(s),
    }
}

// The pair of a property with the number of its setting, if it has one.
fn found(property: usize, setting: Option<u32>) -> Option<Pair>
    ensures { result ≡ with_setting property setting }
{
    let setting = setting?;
    Some(Pair { property, setting })
}

// The pair that a text is. The first octet of a text tells the only property whose words it can be one of.
pub fn read_pair(s: &[u8]) -> Option<Pair>
    ensures { result ≡ pair_of s.now }
{
    if s.is_empty() {
        return None;
    }
    match s[0] {
        b'B' => found(BASIC, place_in(&BASIC_WORDS, s)),
        b'D' => found(DATE, place_in(&DATE_WORDS, s)),
        b'Y' => found(YEAR, place_in(&YEAR_WORDS, s)),
        b'T' => found(TIME, time_word(s)),
        b'L' => found(ZONE, place_in(&ZONE_WORDS, s)),
        _ => found(INTERVAL, place_in(&INTERVAL_WORDS, s)),
    }
}
