// The replies. Each is stored at the front of the room, and its length is answered.
ghost use Rattle.std.specs.Prelude.{◌≡◌, ◌∷◌, ◌++◌, ◌+◌, ◌*◌, ◌<◌, ◌≤◌, length, Some};
ghost use Rattle.octets.specs.Octets.{bytes};
ghost use Rattle.octets.specs.Stores.{StoredText};
ghost use Rattle.printing.specs.Canonical.{text_capacity};
ghost use Rattle.line_replies.specs.Lines.{asked_of, cut_again, entry_named, gives_octets, longest_line, replied_by, result_shown, unasked, worked};
ghost use Rattle.line_replies.specs.Rooms.{reply_capacity, reply_length, room_with};

use crate::hex::{put_hex, read_hex};
use codec::answer;
use exchanges::Entry;
use octets::{find, put_octets, same};
use types::Limits;
use values::TEXT_CAPACITY;

// How many octets a room for replies has: the longest reply, and slack.
pub const REPLY_CAPACITY: usize = 288;

// The longest line that asks anything, without its newline.
pub const LONGEST: usize = 1024;

// As many octets as the hex of a line can give.
const HEX_CAPACITY: usize = 512;

// `?`: the line asks nothing.
fn unasked_reply(room: &mut [u8]) -> usize
    requires { reply_capacity ≤ length room.old }
    ensures stored_text { StoredText room.old room.new 0 unasked result }
    ensures upper_bound { result ≤ reply_capacity }
{
    room[0] = b'?';
    room[1] = b'\n';
    2
}

// The number of a refusal.
fn number_reply(number: u32, room: &mut [u8]) -> usize
    requires { (number ≤ 7) × (reply_capacity ≤ length room.old) }
    ensures stored_text { StoredText room.old room.new 0 ((48 + number) ∷ bytes "\n") result }
    ensures upper_bound { result ≤ reply_capacity }
{
    room[0] = b'0' + number as u8;
    room[1] = b'\n';
    2
}

// Stores a result from a place of the room on, in hex or as a text, and answers the place after it.
fn put_result(room: &mut [u8], at: usize, hex: bool, res: &[u8]) -> usize
    requires { at + 2 * length res.now ≤ length room.old }
    ensures stored_text { StoredText room.old room.new at (result_shown hex res.now) result }
    ensures upper_bound { result ≤ at + 2 * length res.now }
{
    if hex {
        return put_hex(room, at, res);
    }
    put_octets(room, at, res)
}

// The reply to a result: 0, and the result in hex or as a text.
fn result_reply(hex: bool, res: &[u8], room: &mut [u8]) -> usize
    requires { (length res.now ≤ text_capacity) × (reply_capacity ≤ length room.old) }
    ensures stored_text { StoredText room.old room.new 0 (bytes "0 " ++ result_shown hex res.now ++ bytes "\n") result }
    ensures upper_bound { result ≤ reply_capacity }
{
    let start = put_octets(room, 0, b"0 ");
    let end = put_result(room, start, hex, res);
    put_octets(room, end, b"\n")
}

// Whether an entry point takes a text and gives octets.
fn gives_octets(entry: Entry) -> bool
    ensures { result ≡ gives_octets entry }
{
    matches!(entry, Entry::PerEncode | Entry::DerEncode)
}

// The reply of an entry point to an input.
fn answer_reply(entry: Entry, settings: &[u8], input: &[u8], room: &mut [u8]) -> usize
    requires { reply_capacity ≤ length room.old }
    ensures stored_text { StoredText room.old room.new 0 (replied_by entry settings.now (Some input.now)) result }
    ensures upper_bound { result ≤ reply_capacity }
{
    let mut buffer = [0u8; TEXT_CAPACITY];
    let outcome = answer(entry, settings, Limits::NONE, input, &mut buffer);
    if outcome.number != 0 {
        return number_reply(outcome.number, room);
    }
    result_reply(gives_octets(entry), &buffer[..outcome.length.count], room)
}

// The reply of an entry point to an input that is in hex where it is octets.
fn entry_reply(entry: Entry, settings: &[u8], input: &[u8], room: &mut [u8]) -> usize
    requires { (length input.now ≤ longest_line) × (reply_capacity ≤ length room.old) }
    ensures stored_text { StoredText room.old room.new 0 (asked_of (Some entry) settings.now input.now) result }
    ensures upper_bound { result ≤ reply_capacity }
{
    if gives_octets(entry) {
        return answer_reply(entry, settings, input, room);
    }
    let mut buffer = [0u8; HEX_CAPACITY];
    let Some(count) = read_hex(input, &mut buffer) else {
        return unasked_reply(room);
    };
    answer_reply(entry, settings, &buffer[..count], room)
}

// The entry point that a work names.
fn named(work: &[u8]) -> Option<Entry>
    ensures { result ≡ entry_named work.now }
{
    if same(work, b"per") {
        return Some(Entry::PerEncode);
    }
    if same(work, b"der") {
        return Some(Entry::DerEncode);
    }
    if same(work, b"unper") {
        return Some(Entry::PerDecode);
    }
    if same(work, b"under") {
        return Some(Entry::DerDecode);
    }
    None
}

// The reply to a work, a type's text and an input.
fn work_reply(work: &[u8], settings: &[u8], input: &[u8], room: &mut [u8]) -> usize
    requires { (length input.now ≤ longest_line) × (reply_capacity ≤ length room.old) }
    ensures stored_text { StoredText room.old room.new 0 (worked work.now settings.now input.now) result }
    ensures upper_bound { result ≤ reply_capacity }
{
    let Some(entry) = named(work) else {
        return unasked_reply(room);
    };
    entry_reply(entry, settings, input, room)
}

// The reply to a work and what follows the first semicolon.
fn rest_reply(work: &[u8], rest: &[u8], room: &mut [u8]) -> usize
    requires { (length rest.now ≤ longest_line) × (reply_capacity ≤ length room.old) }
    ensures stored_text { StoredText room.old room.new 0 (cut_again work.now rest.now) result }
    ensures upper_bound { result ≤ reply_capacity }
{
    let second = find(rest, 0, b';');
    if rest.len() <= second {
        return unasked_reply(room);
    }
    work_reply(work, &rest[..second], &rest[second + 1..], room)
}

// Puts the reply to a line, which is given without its newline, at the front of a room of at least REPLY_CAPACITY
// octets, and answers its length. A shorter room is untouched and the length is 0.
pub fn reply(line: &[u8], room: &mut [u8]) -> usize
    ensures value { result ≡ reply_length line.now room.old }
    ensures room_after { room.new ≡ room_with line.now room.old }
    ensures upper_bound { result ≤ length room.old }
{
    if room.len() < REPLY_CAPACITY {
        return 0;
    }
    if LONGEST < line.len() {
        return unasked_reply(room);
    }
    let first = find(line, 0, b';');
    if line.len() <= first {
        return unasked_reply(room);
    }
    rest_reply(&line[..first], &line[first + 1..], room)
}
