// The replies that are to be written.
ghost use Rattle.std.specs.Prelude.{◌+◌, ◌++◌, ◌≡◌, ◌≤◌, drop, length, IfOk};
ghost use Rattle.line_replies.specs.Lines.{reply_of};
ghost use Rattle.line_replies.specs.Rooms.{reply_capacity};
ghost use Rattle.convert.specs.Output.{EndsIn};

use crate::failure::Failure;
use crate::write_out;
use lines::{REPLY_CAPACITY, reply};
use std::rt::Clock;

// How many octets of replies are kept until they are written.
const CAPACITY: usize = 65536;

// Replies that stand one after another at the front of a buffer.
#[derive(Drop)]
pub struct Output {
    buffer: [u8; CAPACITY],
    used: usize,
    ghost within: { used ≤ 65536 },
}

// Puts the reply to a line at the front of room that is enough for any.
#[tactic(auto, unfolding(line_replies::specs::Rooms::reply_length, line_replies::specs::Rooms::room_with))]
fn put(line: &[u8], room: &mut [u8]) -> usize
    requires { reply_capacity ≤ length room.old }
    ensures value { result ≡ length (reply_of line.now) }
    ensures room_after { room.new ≡ reply_of line.now ++ drop (length (reply_of line.now)) room.old }
    ensures within { result ≤ length room.old }
{
    reply(line, room)
}

impl Output {
    // No replies.
    pub fn new() -> Output
        ensures { result.used ≡ 0 }
    {
        Output {
            buffer: [0; CAPACITY],
            used: 0,
        }
    }

    // Writes the replies out.
    pub fn write(&mut self, rt: &(impl Print + Clock)) -> Result<(), Failure>
        ensures { IfOk result (λ _. self.new.used ≡ 0) }
    {
        write_out(rt, &self.buffer[..self.used])?;
        self.used = 0;
        Ok(())
    }

    // Writes the replies out where another might not have its place behind them.
    fn make_place(&mut self, rt: &(impl Print + Clock)) -> Result<(), Failure>
        ensures { IfOk result (λ _. self.new.used + reply_capacity ≤ 65536) }
    {
        if CAPACITY - self.used < REPLY_CAPACITY {
            self.write(rt)?;
        }
        Ok(())
    }

    // Puts the reply to a line behind those that are there, which are written out first where it might not have its place behind them.
    pub fn put_reply(&mut self, rt: &(impl Print + Clock), line: &[u8]) -> Result<(), Failure>
        ensures { IfOk result (λ _. EndsIn (reply_of line.now) self.new.buffer self.new.used) }
    {
        self.make_place(rt)?;
        self.used += put(line, &mut self.buffer[self.used..]);
        Ok(())
    }
}
