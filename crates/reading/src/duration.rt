// Reading a duration.
ghost use Rattle.std.specs.Prelude.{◌≡◌, ◌+◌, ◌<◌, ◌≤◌, Some};
ghost use Rattle.durations.specs.Texts.{fraction_length, get_number, read_duration};
ghost use Rattle.reading.specs.Steps.{seen};
ghost use Rattle.reading.specs.Durations.{Advanced, IsComponent, added_by, designators_in, part_of, tallied, timed_tally, whole_tally, with_part};

use crate::steps::{Component, Progress, Tally};
use crate::text_fields::{after_octet, digits, leading_digits};
use crate::times::fraction;
use durations::Duration;
use texts::has_digits;

// Years, months, weeks, days, hours, minutes, seconds.
const DESIGNATORS: [u8; 7] = *b"YMWDHMS";

// Before the first component.
const NONE_READ: Tally = Tally {
    numbers: [0, 0, 0, 0, 0, 0, 0],
    count: 0,
    weeks: false,
    last: 0,
    digits: 0,
    fraction: 0,
};

// A number of one to nine digits, with no needless leading zero.
#[tactic(auto, unfolding(durations::specs::Texts::get_number, durations::specs::Texts::needless))]
fn number(text: &[u8]) -> Option<(u32, &[u8])>
    ensures { seen result ≡ get_number text.now }
{
    let width = leading_digits(text);
    if width == 0 || 9 < width {
        return None;
    }
    let (number, rest) = digits(text, width)?;
    if 1 < width && has_digits(number, (width - 1) as u32) {
        return None;
    }
    Some((number, rest))
}

// How many digits stand behind a comma or a full stop.
#[tactic(auto, unfolding(durations::specs::Texts::fraction_length))]
fn fraction_length(text: &[u8]) -> usize
    ensures { result ≡ fraction_length text.now }
{
    match text {
        [b',' | b'.', rest @ ..] => leading_digits(rest),
        _ => 0,
    }
}

// The component that a text begins with. One with a fraction ends the text.
#[tactic(auto, unfolding(crate::specs::Durations::IsComponent, durations::specs::Texts::get_present, durations::specs::Texts::get_end))]
fn component(text: &[u8]) -> Option<Component<'_>>
    ensures { IsComponent text.now result }
{
    let (number, rest) = number(text)?;
    let decimals = fraction_length(rest);
    if 9 < decimals {
        return None;
    }
    let (fraction, rest) = fraction(rest, decimals)?;
    let [designator, rest @ ..] = rest else {
        return None;
    };
    if 0 < decimals && !rest.is_empty() {
        return None;
    }
    Some(Component {
        number,
        digits: decimals as u32,
        fraction,
        designator: *designator,
        rest,
    })
}

// One component more, at a place among the seven.
fn add(tally: &mut Tally, place: usize, component: Component)
    requires { (place < 7) × (tally.old.count ≤ place) }
    ensures { tally.new ≡ with_part place (part_of component.entry) tally.old }
{
    tally.numbers[place] = component.number;
    tally.count += 1;
    tally.weeks = place == 2 || tally.weeks;
    tally.last = place as u32;
    tally.digits = component.digits;
    tally.fraction = component.fraction.number;
}

// Reads on at a place among the seven: the component that stands next is read where its designator is that of the place, and
// left otherwise.
fn advance(place: usize, progress: &mut Progress)
    requires { (place < 7) × (progress.old.tally.count ≤ place) × IsComponent progress.old.rest.now progress.old.component }
    ensures count_bound { (progress.new.tally.count ≤ place + 1) × IsComponent progress.new.rest.now progress.new.component }
    ensures advanced { Advanced place progress.old progress.new }
{
    let Some(next) = progress.component else {
        return;
    };
    if next.designator != DESIGNATORS[place] {
        return;
    }
    add(&mut progress.tally, place, next);
    progress.rest = next.rest;
    progress.component = component(next.rest);
}

// The components from a place among the seven on, up to another, added to what was read; and what is left after them. It is
// inlined: a duration is read in less than half the time so.
#[inline(always)]
fn components(text: &[u8], before: Tally, first: usize, end: usize) -> (Tally, &[u8])
    requires { (first ≤ end) × (end ≤ 7) × (before.count ≤ first) }
    ensures text_value { seen (Some result) ≡ added_by (designators_in first end) text.now before first }
    ensures count_le_end { result.0.count ≤ end }
{
    let mut progress = Progress {
        tally: before,
        rest: text,
        component: component(text),
    };
    for place in first..end {
        advance(place, &mut progress);
    }
    (progress.tally, progress.rest)
}

// The duration of what was read.
fn duration_of(tally: Tally) -> Duration
    ensures { result ≡ tallied tally }
{
    let [years, months, weeks, days, hours, minutes, seconds] = tally.numbers;
    Duration {
        last: tally.last,
        years,
        months,
        weeks,
        days,
        hours,
        minutes,
        seconds,
        digits: tally.digits,
        fraction: tally.fraction,
    }
}

// The duration where nothing is left of the text: some component, and weeks alone.
fn whole(text: &[u8], tally: Tally) -> Option<Duration>
    ensures { result ≡ whole_tally tally text.now }
{
    if !text.is_empty() || tally.count == 0 {
        return None;
    }
    if tally.weeks && tally.count != 1 {
        return None;
    }
    Some(duration_of(tally))
}

// The duration whose components before `T` were read: at least one stands behind it.
fn with_times(text: &[u8], before: Tally) -> Option<Duration>
    requires { before.count ≤ 4 }
    ensures { result ≡ timed_tally before (added_by (designators_in 4 7) text.now before 4) }
{
    let (tally, rest) = components(text, before, 4, 7);
    if tally.count == before.count {
        return None;
    }
    whole(rest, tally)
}

// What a text of any octets gives as a duration.
pub fn read_duration(text: &[u8]) -> Option<Duration>
    ensures { result ≡ read_duration text.now }
{
    let (tally, rest) = components(after_octet(text, b'P')?, NONE_READ, 0, 4);
    match after_octet(rest, b'T') {
        Some(times) => with_times(times, tally),
        None => whole(rest, tally),
    }
}
