//! How a connection's bytes are read and written, and how it is given up.
ghost use Rattle.std.specs.Prelude.{◌≡◌, ℕ, List, [], Option, None, Some, IfSome};
ghost use Rattle.std.specs.Option.{option_map};
ghost use Rattle.std.specs.Io.{ReadsAtMost, WritesAtMost};
ghost use Rattle.std.specs.Io.KnownBytes.{ReadConsumes, WriteAppends};
ghost use Rattle.first_line.specs.Own.{own_part};
ghost use Rattle.tcp_door.specs.Wires.{first_of, IsToldBusy};

use crate::passed::Passed;
use crate::socket::Socket;
use first_line::FirstLine;
use line_inlet::Connection;
use std::alloc::Allocator;
use std::io::{self, ErrorKind};
use std::marker::Model;
use std::time::{Duration, Instant};
use vault_lines::outside_text;
use vault_model::Outside;

// Once no more is answered: for how many milliseconds a client's further bytes are awaited, how many reads there are at most, and how
// many of them in a round.
const LONGEST_WAIT: u64 = 5000;

const MAX_CHUNKS: u32 = 4096;

const CHUNKS_A_ROUND: u32 = 4;

// How many bytes of a connection are heard in a round.
const BYTES_A_ROUND: usize = 8_192;

// How many milliseconds of silence are allowed: to a client that may be about to send more, and to one that has quit and sent nothing
// since.
const WAIT: u64 = 1000;

const SHORT_WAIT: u64 = 100;

/// A stream in both directions. Reading doesn't change what was written, and writing doesn't change what is left to read.
pub trait Stream {
    /// The bytes that are still to come, where they are known.
    ghost remaining: { Self → Option (List ℕ) } = { λ _. None };

    /// The bytes that were written, where they are known.
    ghost contents: { Self → Option (List ℕ) } = { λ _. None };

    /// Reads some bytes to the buffer's front, as `Read::read` does.
    fn read(&mut self, buf: &mut [u8]) -> io::Result<usize>
        ensures bound { ReadsAtMost result buf.new }
        ensures bytes { ReadConsumes (remaining self.old) (remaining self.new) result buf.new }
        ensures same { contents self.new ≡ contents self.old };

    /// Writes some of the bytes, as `Write::write` does.
    fn write(&mut self, buf: &[u8]) -> io::Result<usize>
        ensures bound { WritesAtMost result buf.now }
        ensures bytes { WriteAppends (contents self.old) (contents self.new) result buf.now }
        ensures same { remaining self.new ≡ remaining self.old };

    /// Lets the other side know that no more is written.
    fn end(&mut self) -> io::Result<()>
        ensures same { (remaining self.new ≡ remaining self.old) × (contents self.new ≡ contents self.old) };
}

// Throws away what has come, so that the connection isn't reset.
fn throw_away<S: Stream>(stream: &mut S)
    ensures { S.contents stream.new ≡ S.contents stream.old }
{
    let mut chunk = [0; 4096];
    for _ in 0..CHUNKS_A_ROUND {
        if !stream.read(&mut chunk).is_ok_and(|count| count > 0) {
            return;
        }
    }
}

/// Tells a connection that there is no place for it, and ends it. What it sent by now is read first: a connection that is dropped with
/// bytes unread is reset, and then the client may lose the answer.
pub fn turn_away<A: Allocator + Copy, S: Stream>(alloc: A, stream: &mut S)
    ensures { IsToldBusy (S.contents stream.old) (S.contents stream.new) }
{
    throw_away(stream);
    if let Ok(text) = outside_text(alloc, Outside::Busy) {
        let _ = stream.write(&text);
        drop(text);
    }
    let _ = stream.end();
}

// What is known of a connection's first line before anything came.
fn first_line(refuses_foreign: bool) -> FirstLine
    ensures { result ≡ first_of refuses_foreign }
{
    if refuses_foreign {
        return FirstLine::new();
    }
    FirstLine::Own
}

/// A served connection. It is read until it gives less than was asked for. Then nothing is there, and the kernel says when more is. In
/// one round it gives bytes until there are `BYTES_A_ROUND`, and then says that it has none for now. If its first line is another
/// protocol's, it gives its end in place of the first byte that shows this, and of all after it. Contracts see all that it gave.
#[derive(Drop)]
pub struct Wire<S = Socket> {
    stream: S,
    // All bytes that it gave.
    heard: Passed,
    // Whether nothing is there.
    is_dry: bool,
    // Whether the end may follow what is there: the kernel doesn't say so again.
    is_ending: bool,
    // How many bytes may still be read in this round.
    left: usize,
    // What is known of its first line.
    first: FirstLine,
}

impl<S> Model for Wire<S> {
    ghost use Rattle.tcp_door.specs.Wires.{OnWire};

    ghost Value = { OnWire S };

    ghost view = { λ w. record { stream = w.stream; first = w.first; heard = w.heard.bytes } };
}

impl<S: Stream> Wire<S> {
    /// Nothing was read yet. If `refuses_foreign` is set, another protocol's first line is the end. Else it is a line like any other.
    pub fn new(stream: S, refuses_foreign: bool) -> Wire<S>
        ensures { result ≡ record { stream = stream; first = first_of refuses_foreign; heard = [] } }
    {
        Wire {
            stream,
            heard: Passed::new(),
            is_dry: false,
            is_ending: false,
            left: BYTES_A_ROUND,
            first: first_line(refuses_foreign),
        }
    }

    /// The stream.
    pub fn into_stream(self) -> S
        ensures { result ≡ self.stream }
    {
        self.stream
    }
}

impl<S: Stream> Connection for Wire<S> {
    // Those of the stream, but for another protocol's first line.
    ghost reading = { λ w. record { ahead = option_map (own_part w.first) (S.remaining w.stream); behind = Some w.heard } };

    ghost contents = { λ w. S.contents w.stream };

    fn read(&mut self, buf: &mut [u8]) -> io::Result<usize> {
        if self.first.is_foreign() {
            return Ok(0);
        }
        if self.is_dry || self.left == 0 {
            return Err(io::Error::from(ErrorKind::WouldBlock));
        }
        match self.stream.read(buf) {
            Ok(count) => {
                self.is_dry = count < buf.len() && !self.is_ending;
                self.left = self.left.saturating_sub(count);
                let (own, first) = self.first.take_own(&buf[..count]);
                self.first = first;
                self.heard.note(&buf[..own]);
                Ok(own)
            }
            Err(error) => {
                self.is_dry = error.kind() == ErrorKind::WouldBlock;
                Err(error)
            }
        }
    }

    fn write(&mut self, buf: &[u8]) -> io::Result<usize> {
        self.stream.write(buf)
    }

    fn wake(&mut self, is_ending: bool) {
        self.is_dry = false;
        self.is_ending = self.is_ending || is_ending;
    }

    fn begin_round(&mut self) {
        self.left = BYTES_A_ROUND;
    }

    fn is_spent(&self) -> bool {
        self.left == 0 && !self.is_dry
    }
}

/// What a client may still send, whose connection is over.
#[derive(Debug, Clone, Copy, PartialEq, Eq)]
pub enum Unread {
    /// Little: it has quit.
    Little,
    /// More lines, which aren't answered.
    Lines,
    /// Nothing that is waited for.
    Nothing,
}

/// A connection that is over. What its client still sends is thrown away until nothing has come for a while, but for 5 seconds and 16
/// MiB at most. A connection that is dropped with bytes unread is reset, and then a client that reads late loses replies that were
/// written.
#[derive(Drop)]
pub struct Drain<S = Socket> {
    /// The number of its connection.
    pub number: u32,
    stream: S,
    began: Instant,
    // When something last came, and for how many milliseconds nothing may come now.
    came: Instant,
    wait: u64,
    chunks: u32,
}

impl<S> Model for Drain<S> {
    ghost use Rattle.tcp_door.specs.Wires.{OnDrain};

    ghost Value = { OnDrain S };

    ghost view = { λ d. record { number = d.number; stream = d.stream } };
}

impl<S: Stream + Drop> Drain<S> {
    /// Lets the client know that no more comes. None if nothing is waited for, nobody reads, or the time isn't known.
    pub fn begin(number: u32, stream: S, unread: Unread, now: Option<Instant>) -> Option<Drain<S>>
        ensures { IfSome result (λ drain. (drain.number ≡ number) × (S.contents drain.stream ≡ S.contents stream)) }
    {
        let mut stream = stream;
        let wait = match unread {
            Unread::Little => SHORT_WAIT,
            Unread::Lines => WAIT,
            Unread::Nothing => return None,
        };
        let now = now?;
        if stream.end().is_err() {
            return None;
        }
        Some(Drain {
            number,
            stream,
            began: now,
            came: now,
            wait,
            chunks: 0,
        })
    }

    /// Until when it waits for more.
    pub fn deadline(&self) -> Option<Instant> {
        let silent = self.came.checked_add(Duration::from_millis(self.wait))?;
        let last = self.began.checked_add(Duration::from_millis(LONGEST_WAIT))?;
        Some(if silent < last { silent } else { last })
    }

    /// Throws away what has come. Nothing is written.
    pub fn drain(&mut self, now: Option<Instant>) -> Drained
        ensures { (self.new.number ≡ self.old.number) × (S.contents self.new.stream ≡ S.contents self.old.stream) }
    {
        let mut chunk = [0; 4096];
        for _ in 0..CHUNKS_A_ROUND {
            match self.stream.read(&mut chunk) {
                Ok(0) => return Drained::Over,
                Ok(_) => {
                    self.came = now.unwrap_or(self.came);
                    self.wait = WAIT;
                }
                Err(error) if error.kind() == ErrorKind::Interrupted => {}
                Err(error) if error.kind() == ErrorKind::WouldBlock => return self.rests(now),
                Err(_) => return Drained::Over,
            }
            self.chunks = self.chunks.saturating_add(1);
        }
        if self.chunks >= MAX_CHUNKS {
            return Drained::Over;
        }
        match self.rests(now) {
            Drained::Rests => Drained::GoesOn,
            over => over,
        }
    }

    // Whether more may come in time.
    fn rests(&self, now: Option<Instant>) -> Drained {
        match (now, self.deadline()) {
            (Some(now), Some(deadline)) if now < deadline => Drained::Rests,
            _ => Drained::Over,
        }
    }
}

/// What throwing away came to.
#[derive(Debug, Clone, Copy, PartialEq, Eq)]
pub enum Drained {
    /// Nothing is there, and more may come.
    Rests,
    /// There is more.
    GoesOn,
    /// No more is waited for.
    Over,
}
