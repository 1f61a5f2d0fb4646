// Reads lines from standard input and replies to each. A line `=;TYPE;TYPE` asks whether two types select the same rows,
// and for their numbers of fraction digits; a line `=AB;TYPE;TYPE` asks it of types with limits, where A and B are octets
// of a menu, for the first and for the second type. The reply is the number of a refusal where one of them is no type, and
// `?` to any other line. Only so much is read as the buffer holds.
#![tactic(auto)]

ghost use Rattle.std.specs.Prelude.{◌≡◌, ◌≤◌, length, IfOk};

use answers::Refusal;
use calendar::Year;
use octets::find;
use settings::read_type;
use std::io;
use std::io::{Read, Write};
use types::{AnyType, Limits, TypeFound, same_rows};

// Limits with a window of years, and whether hour 24 is allowed.
fn years(lowest: i32, highest: i32, hour24: bool) -> Limits {
    let window = Some((Year::from(lowest), Year::from(highest)));
    Limits { window, hour24 }
}

// Limits without a window.
fn any_year(hour24: bool) -> Limits {
    let window = None;
    Limits { window, hour24 }
}

// Whether an octet is on the menu.
fn on_menu(octet: u8) -> bool {
    octet.is_ascii_digit()
}

// The limits of the menu's octets.
fn limits_of(octet: u8) -> Limits {
    match octet {
        b'0' => any_year(true),
        b'1' => years(2000, 2010, true),
        b'2' => years(1582, 9999, true),
        b'3' => years(-9999, -1, true),
        b'4' => years(2010, 2000, true),
        b'5' => years(-2147483648, 2147483647, true),
        b'6' => years(0, 0, true),
        b'7' => years(-12000, 12000, true),
        b'8' => any_year(false),
        _ => years(2000, 2010, false),
    }
}

// The reply on two types.
fn types_reply(out: &mut impl Write, a: AnyType, b: AnyType) -> io::Result<()> {
    let found = if same_rows(a, b) { "same" } else { "other" };
    writeln!(
        out,
        "0 {found} {} {}",
        a.fraction_digits(),
        b.fraction_digits()
    )
}

// The reply to what asks nothing.
fn unasked_reply(out: &mut impl Write) -> io::Result<()> {
    writeln!(out, "?")
}

// The reply on what is no type.
fn refusal_reply(out: &mut impl Write, refusal: Refusal) -> io::Result<()> {
    writeln!(out, "{}", u32::from(refusal))
}

// The type that was found.
fn type_of(found: TypeFound) -> Result<AnyType, Refusal> {
    match found {
        TypeFound::Point(t) => Ok(AnyType::Point(t)),
        TypeFound::Duration(true) => Ok(AnyType::ListedDuration),
        TypeFound::Duration(false) => Ok(AnyType::DURATION),
        TypeFound::NoType(why) => Err(why),
    }
}

// The types of two texts, each under its limits: where both are none, the first text's refusal.
fn read_types(
    first: &[u8],
    a: Limits,
    second: &[u8],
    b: Limits,
) -> Result<(AnyType, AnyType), Refusal> {
    Ok((
        type_of(read_type(first, a))?,
        type_of(read_type(second, b))?,
    ))
}

// The reply on two types' texts with a semicolon between them, each under its limits.
fn texts_reply(out: &mut impl Write, a: Limits, b: Limits, texts: &[u8]) -> io::Result<()> {
    let end = find(texts, 0, b';');
    if texts.len() <= end {
        return unasked_reply(out);
    }
    match read_types(&texts[..end], a, &texts[end + 1..], b) {
        Ok((first, second)) => types_reply(out, first, second),
        Err(refusal) => refusal_reply(out, refusal),
    }
}

// The reply on two types' texts under the limits of two octets of the menu.
fn limited_reply(out: &mut impl Write, a: u8, b: u8, texts: &[u8]) -> io::Result<()> {
    if !(on_menu(a) && on_menu(b)) {
        return unasked_reply(out);
    }
    texts_reply(out, limits_of(a), limits_of(b), texts)
}

// The reply to a line.
fn reply(out: &mut impl Write, line: &[u8]) -> io::Result<()> {
    match line {
        [b'=', b';', texts @ ..] => limited_reply(out, b'0', b'0', texts),
        [b'=', a, b, b';', texts @ ..] => limited_reply(out, *a, *b, texts),
        _ => unasked_reply(out),
    }
}

// The replies to all lines of a text. The last line needs no newline.
fn reply_all(out: &mut impl Write, text: &[u8]) -> io::Result<()> {
    for line in text.split_inclusive(|octet| *octet == b'\n') {
        reply(out, line.strip_suffix(b"\n").unwrap_or(line))?;
    }
    Ok(())
}

// Room for all lines.
fn buffer() -> [u8; 262144]
    ensures { 262144 ≡ length result }
{
    [0; 262144]
}

// Reads until the room is full or the input ends: how many octets there are.
fn read_full(input: &mut impl Read, room: &mut [u8]) -> io::Result<usize>
    ensures { IfOk result (λ n. n ≤ length room.new) }
{
    let mut done = 0;
    while done < room.len() {
        let got = input.read(&mut room[done..])?;
        if got == 0 {
            break;
        }
        done += got;
    }
    Ok(done)
}

fn main(rt: HostRuntime) -> io::Result<()> {
    let mut input = buffer();
    let n = read_full(&mut rt.reader(), &mut input)?;
    reply_all(&mut io::writer(&rt), &input[..n])
}
