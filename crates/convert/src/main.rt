// Reads lines `work;type;input` from standard input and prints the reply to each: the number, and after 0 the hex of an
// encoding or the text of octets. A line ends at a newline or at the end of the input, and the reply to a line that asks
// nothing, or that is too long, is `?`. Replies are written before each read. Where a read or a write fails, the program says
// so on standard error and stops with status 1; a line that the failed read has cut gets no reply.
#![tactic(auto)]

mod failure;
mod output;
mod unfinished;

ghost use Rattle.std.specs.Prelude.{◌-◌, ◌<◌, ◌≤◌, ◌≡◌, take, length, slice_range, IfOk, IfSome};
ghost use Rattle.line_replies.specs.Lines.{longest_line};
ghost use Rattle.convert.specs.Unfinished.{held_of};

use failure::Failure;
use lines::LONGEST;
use octets::find;
use output::Output;
use std::io::{ErrorKind, Read};
use std::process::ExitCode;
use std::rt::Clock;
use std::time::Duration;
use std::{io, thread};
use unfinished::Unfinished;

// Whether the call that failed just now may be made again: a signal came first, or the other end is not ready yet. There is
// no call here that waits until it is, so this waits for a millisecond.
fn may_try_again(rt: &impl Clock, error: io::Error) -> bool {
    match error.kind() {
        ErrorKind::Interrupted => true,
        ErrorKind::WouldBlock => {
            thread::sleep(rt, Duration::from_millis(1));
            true
        }
        _ => false,
    }
}

// One write of replies: how many octets it took. A proved loop has to end, and nothing says that the other end ever is ready:
// this loop and the others that wait count their turns, up to a number that no run uses up.
fn write_some(rt: &(impl Print + Clock), replies: &[u8]) -> Result<usize, Failure>
    ensures taken { IfOk result (λ taken. 0 < taken) }
    ensures within { IfOk result (λ taken. taken ≤ length replies.now) }
{
    for _ in 0..u64::MAX {
        match rt.write_some(replies) {
            Ok(0) => return Err(Failure::NothingTaken),
            Ok(taken) => return Ok(taken),
            Err(error) => {
                if !may_try_again(rt, error) {
                    return Err(Failure::Output(error));
                }
            }
        }
    }
    Err(Failure::Output(io::Error::from(ErrorKind::TimedOut)))
}

// Writes replies out.
fn write_out(rt: &(impl Print + Clock), replies: &[u8]) -> Result<(), Failure> {
    let mut rest = replies;
    while !rest.is_empty() {
        let taken = write_some(rt, rest)?;
        rest = &rest[taken..];
    }
    Ok(())
}

// One read of the input: how many octets it brought, 0 where the input has ended.
fn read_more(rt: &impl Clock, reader: &mut impl Read, room: &mut [u8]) -> Result<usize, Failure>
    ensures { IfOk result (λ got. got ≤ length room.new) }
{
    for _ in 0..u64::MAX {
        match reader.read(room) {
            Ok(got) => return Ok(got),
            Err(error) => {
                if !may_try_again(rt, error) {
                    return Err(Failure::Input(error));
                }
            }
        }
    }
    Err(Failure::Input(io::Error::from(ErrorKind::TimedOut)))
}

// Replies to all lines that end in the text, from a place on. The place after the last of them.
fn reply_all(
    rt: &(impl Print + Clock),
    text: &[u8],
    start: usize,
    output: &mut Output,
) -> Result<usize, Failure>
    requires { start ≤ length text.now }
    ensures { IfOk result (λ place. place ≤ length text.now) }
{
    let mut from = start;
    while from < text.len() {
        let end = find(text, from, b'\n');
        if text.len() <= end {
            break;
        }
        output.put_reply(rt, &text[from..end])?;
        from = end + 1;
    }
    Ok(from)
}

// Moves the octets between two places of the input's buffer to its front.
fn move_front(input: &mut [u8], start: usize, end: usize)
    requires order { start ≤ end }
    requires within { end ≤ length input.old }
    ensures { take (end - start) input.new ≡ slice_range input.old start end }
{
    input.copy_within(start..end, 0);
}

// Writes the replies out, and keeps the start of a line at the front of the input's buffer. Of a line that is too long already, the
// reply is among those, and nothing is kept.
fn keep(
    rt: &(impl Print + Clock),
    input: &mut [u8],
    start: usize,
    end: usize,
    output: &mut Output,
) -> Result<Unfinished, Failure>
    requires order { start ≤ end }
    requires within { end ≤ length input.old }
    ensures { IfOk result (λ line. held_of line ≤ longest_line) }
{
    if LONGEST < end - start {
        output.put_reply(rt, &input[start..end])?;
        output.write(rt)?;
        return Ok(Unfinished::Skipped);
    }
    output.write(rt)?;
    move_front(input, start, end);
    Ok(Unfinished::Held(end - start))
}

// Replies to the lines between two places of the input's buffer, and keeps what follows the last of them.
fn reply_between(
    rt: &(impl Print + Clock),
    input: &mut [u8],
    start: usize,
    end: usize,
    output: &mut Output,
) -> Result<Unfinished, Failure>
    requires order { start ≤ end }
    requires within { end ≤ length input.old }
    ensures { IfOk result (λ line. held_of line ≤ longest_line) }
{
    let place = reply_all(rt, &input[..end], start, output)?;
    keep(rt, input, place, end, output)
}

// Replies to the lines of the input's first octets, behind the rest of a line that is skipped.
fn skip_line(
    rt: &(impl Print + Clock),
    input: &mut [u8],
    end: usize,
    output: &mut Output,
) -> Result<Unfinished, Failure>
    requires { end ≤ length input.old }
    ensures { IfOk result (λ line. held_of line ≤ longest_line) }
{
    let newline = find(&input[..end], 0, b'\n');
    if end <= newline {
        return Ok(Unfinished::Skipped);
    }
    reply_between(rt, input, newline + 1, end, output)
}

// One read of the input behind what is kept of a line, with the replies to the lines that end in it. What is kept then, unless the
// input has ended.
fn read_some(
    rt: &(impl Print + Clock),
    reader: &mut impl Read,
    input: &mut [u8],
    line: Unfinished,
    output: &mut Output,
) -> Result<Option<Unfinished>, Failure>
    requires held { held_of line ≤ longest_line }
    requires room { longest_line < length input.old }
    ensures { IfOk result (λ next. IfSome next (λ line. held_of line ≤ longest_line)) }
{
    let held = line.held();
    let got = read_more(rt, reader, &mut input[held..])?;
    if got == 0 {
        return Ok(None);
    }
    let next = match line {
        Unfinished::Held(_) => reply_between(rt, input, 0, held + got, output)?,
        Unfinished::Skipped => skip_line(rt, input, got, output)?,
    };
    Ok(Some(next))
}

// Reads and replies until the input ends. How many octets are held of a line that lacks its newline.
fn read_all(
    rt: &(impl Print + Clock),
    reader: &mut impl Read,
    input: &mut [u8],
    output: &mut Output,
) -> Result<usize, Failure>
    requires { longest_line < length input.old }
    ensures { IfOk result (λ held. held ≤ longest_line) }
{
    let mut line = Unfinished::Held(0);
    for _ in 0..u64::MAX {
        let Some(next) = read_some(rt, reader, input, line, output)? else {
            break;
        };
        line = next;
    }
    Ok(line.held())
}

// Replies to a last line that lacks its newline.
fn finish(rt: &(impl Print + Clock), line: &[u8], output: &mut Output) -> Result<(), Failure> {
    if line.is_empty() {
        return Ok(());
    }
    output.put_reply(rt, line)?;
    output.write(rt)
}

// Replies to all lines of the input.
fn run(rt: &(impl Print + Clock), reader: &mut impl Read) -> Result<(), Failure> {
    let mut input = [0; 65536];
    let mut output = Output::new();
    let held = read_all(rt, reader, &mut input, &mut output)?;
    finish(rt, &input[..held], &mut output)
}

// A message without the number that std puts behind the system's words, as in ` (os error 28)`.
fn system_words(message: &str) -> &str {
    match message.rsplit_once(" (os error ") {
        Some((words, _)) => words,
        None => message,
    }
}

// Says why the program stops. Where memory for the message is lacking, the number stays behind the system's words.
fn report(rt: &(impl Eprint + AllocGlobal), failure: Failure) -> io::Result<()> {
    match failure.to_string(rt.alloc()) {
        Ok(message) => eprintln!(rt; "convert: {}", system_words(message.as_str())),
        Err(_) => eprintln!(rt; "convert: {failure}"),
    }
}

fn main(rt: HostRuntime) -> ExitCode {
    match run(&rt, &mut rt.reader()) {
        Ok(()) => ExitCode::SUCCESS,
        Err(failure) => {
            let _ = report(&rt, failure);
            ExitCode::FAILURE
        }
    }
}
