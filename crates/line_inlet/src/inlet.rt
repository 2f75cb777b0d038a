//! Bytes and lines from a connection, within bounds.

ghost use Rattle.std.specs.Prelude.{◌≡◌, ◌+◌, ◌≤◌, ◌<◌, List, ℕ, [], ◌∷◌, ◌++◌, length, take, true, vec_capacity};
ghost use Rattle.vault_lines.specs.Limits.{longest_line};
ghost use Rattle.line_inlet.specs.Inflow.{Inflow};
ghost use Rattle.line_inlet.specs.Reading.{Gave};
ghost use Rattle.line_inlet.specs.Incoming.{most_bytes, most_reads, GivesByte, GivesLine, GivesPiece, KeepsLine, ReadsChunk, Fills, TakesByte, TakesMore, TakesPiece};

use crate::connection::Connection;
use memchr::memchr;
use std::alloc::Allocator;
use std::io::ErrorKind;
use std::marker::Model;
use vault_lines::{LONGEST_LINE, MAX_READS};

// The most bytes of a connection that are taken. It ends at the first one after them.
const MAX_BYTES: u64 = 16_777_216;

// How many bytes a read may give: nearly any line comes by one read.
const CHUNK: usize = 4096;

/// What comes next.
#[derive(Debug, Clone, Copy, PartialEq, Eq)]
pub enum NextByte {
    Byte(u8),
    /// The reader has no more.
    End,
    /// The reader failed, or was called too often.
    Fault,
    /// There is a byte, but no more may be taken.
    Limit,
    /// None waits, and more may come.
    NotYet,
}

// What the bytes that wait gave to the line.
enum Piece {
    /// Its end: the line lies in the buffer.
    Whole,
    /// Its end, but it has too many bytes.
    TooLong,
    /// No line feed. Whether it has too many bytes by now.
    More(bool),
    /// The reader has no more.
    End,
    /// The reader failed, or was called too often.
    Fault,
    /// Too many bytes would be taken.
    Limit,
    /// None waits, and more may come.
    NotYet,
}

/// How the next line came.
#[derive(Debug, Clone, Copy, PartialEq, Eq)]
pub enum NextLine {
    /// It lies in the buffer, without its line feed.
    Whole,
    /// It was read up to its line feed, but has too many bytes.
    TooLong,
    /// The reader has no more line feed.
    End,
    /// The reader failed, or was called too often.
    Fault,
    /// Too many bytes would be taken.
    Limit,
    /// It isn't whole, and more may come.
    NotYet,
}

/// What lies between the bytes of a connection and its lines. Contracts see the bytes that wait, and how many were taken.
#[derive(Drop)]
pub struct Inlet {
    /// What the last read gave.
    chunk: [u8; CHUNK],
    /// Where in the chunk the bytes that wait begin.
    at: usize,
    /// Where they end.
    end: usize,
    /// How many bytes were taken out, over all reads.
    taken: u64,
    /// How often it was read.
    reads: u32,
}

impl Model for Inlet {
    ghost use Rattle.std.specs.Prelude.{◌-◌, ◌≤◌, take, drop};
    ghost use Rattle.line_inlet.specs.Inflow.{Inflow};
    ghost use Rattle.line_inlet.specs.Incoming.{most_bytes, most_reads, chunk_size};

    ghost Value = { Inflow };

    ghost view = { λ i. record { pending = take (i.end - i.at) (drop i.at i.chunk); taken = i.taken } };

    // The invariant of lib.rt.
    ghost invariant = { λ i. (i.at ≤ i.end) × (i.end ≤ chunk_size) × (i.taken ≤ most_bytes) × (i.reads ≤ most_reads) };
}

impl Inlet {
    /// Nothing was read.
    pub fn new() -> Inlet
        ensures { result ≡ record { pending = []; taken = 0 } }
    {
        Inlet {
            chunk: [0; CHUNK],
            at: 0,
            end: 0,
            taken: 0,
            reads: 0,
        }
    }

    /// The next byte. A read that is interrupted is tried again, and counts among the reads.
    pub fn next_byte<C: Connection>(&mut self, connection: &mut C) -> NextByte
        ensures given { (given : List ℕ) × Gave (C.reading connection.old) (C.reading connection.new) given
            × GivesByte self.old given result self.new (C.reading connection.new) }
        ensures same { (C.contents connection.new ≡ C.contents connection.old) × (C.names connection.new ≡ C.names connection.old) }
    {
        match self.fill(connection) {
            Filled::Waiting => self.take_byte(),
            Filled::End => NextByte::End,
            Filled::Fault => NextByte::Fault,
            Filled::NotYet => NextByte::NotYet,
        }
    }

    // Reads if no bytes wait.
    fn fill<C: Connection>(&mut self, connection: &mut C) -> Filled
        ensures given { (given : List ℕ) × Gave (C.reading connection.old) (C.reading connection.new) given
            × Fills self.old given result self.new (C.reading connection.new) }
        ensures same { (C.contents connection.new ≡ C.contents connection.old) × (C.names connection.new ≡ C.names connection.old) }
    {
        if self.at < self.end {
            return Filled::Waiting;
        }
        match read_chunk(connection, &mut self.chunk, &mut self.reads) {
            Given::Bytes(0) => Filled::End,
            Given::Bytes(count) => {
                self.at = 0;
                self.end = count;
                Filled::Waiting
            }
            Given::NotYet => Filled::NotYet,
            Given::Fault => Filled::Fault,
        }
    }

    // The first byte that waits.
    fn take_byte(&mut self) -> NextByte
        requires { 0 < length self.old.pending }
        ensures { TakesByte self.old result self.new }
    {
        if self.taken >= MAX_BYTES {
            return NextByte::Limit;
        }
        let byte = self.chunk[self.at];
        self.at += 1;
        self.taken += 1;
        NextByte::Byte(byte)
    }

    // Takes what waits into the line, up to its line feed.
    fn take_piece<A: Allocator>(&mut self, line: &mut Vec<u8, A>, is_long: bool) -> Piece
        requires room { longest_line ≤ vec_capacity line.old }
        ensures room { vec_capacity line.old ≤ vec_capacity line.new }
        ensures taken { (so_far : List ℕ) → KeepsLine so_far line.old.items is_long
            → TakesPiece self.old so_far result line.new.items self.new }
        ensures more { 0 < length self.old.pending → TakesMore self.old result self.new }
    {
        let waiting = &self.chunk[self.at..self.end];
        let left = MAX_BYTES - self.taken;
        match memchr(b'\n', waiting) {
            Some(count) => {
                if left <= count as u64 {
                    return Piece::Limit;
                }
                let is_long = keep(line, is_long, &waiting[..count]);
                self.at += count + 1;
                self.taken += count as u64 + 1;
                if is_long {
                    return Piece::TooLong;
                }
                Piece::Whole
            }
            None => {
                let count = waiting.len() as u64;
                if left < count {
                    return Piece::Limit;
                }
                let is_long = keep(line, is_long, waiting);
                self.at = self.end;
                self.taken += count;
                Piece::More(is_long)
            }
        }
    }

    // The next piece of a line. Reads if no bytes wait.
    fn next_piece<C: Connection, A: Allocator>(
        &mut self,
        connection: &mut C,
        line: &mut Vec<u8, A>,
        is_long: bool,
    ) -> Piece
        requires room { longest_line ≤ vec_capacity line.old }
        ensures room { vec_capacity line.old ≤ vec_capacity line.new }
        ensures given { (so_far : List ℕ) → KeepsLine so_far line.old.items is_long
            → (given : List ℕ) × Gave (C.reading connection.old) (C.reading connection.new) given
            × GivesPiece self.old given so_far is_long result line.new.items self.new (C.reading connection.new) }
        ensures more { TakesMore self.old result self.new }
        ensures same { (C.contents connection.new ≡ C.contents connection.old) × (C.names connection.new ≡ C.names connection.old) }
    {
        match self.fill(connection) {
            Filled::Waiting => self.take_piece(line, is_long),
            Filled::End => Piece::End,
            Filled::Fault => Piece::Fault,
            Filled::NotYet => Piece::NotYet,
        }
    }

    /// The next line, into a buffer that has room for the longest. All bytes of a longer one are taken. If it isn't whole, the buffer
    /// keeps what came, and the next call goes on with it. The caller clears the buffer and the flag once it has used a line.
    pub fn next_line<C: Connection, A: Allocator>(
        &mut self,
        connection: &mut C,
        line: &mut Vec<u8, A>,
        is_long: &mut bool,
    ) -> NextLine
        requires { longest_line ≤ vec_capacity line.old }
        ensures line { (part : List ℕ) → KeepsLine part line.old.items is_long.old
            → (given : List ℕ) × Gave (C.reading connection.old) (C.reading connection.new) given
            × GivesLine self.old given part result line.new.items is_long.new self.new (C.reading connection.new) }
        ensures room { vec_capacity line.old ≤ vec_capacity line.new }
        ensures same { (C.contents connection.new ≡ C.contents connection.old) × (C.names connection.new ≡ C.names connection.old) }
    {
        loop {
            match self.next_piece(connection, line, *is_long) {
                Piece::Whole => return NextLine::Whole,
                Piece::TooLong => return NextLine::TooLong,
                Piece::More(is_longer) => *is_long = is_longer,
                Piece::End => return NextLine::End,
                Piece::Fault => return NextLine::Fault,
                Piece::Limit => return NextLine::Limit,
                Piece::NotYet => return NextLine::NotYet,
            }
        }
    }
}

// Adds more bytes to the line, while it isn't too long. Says whether it is.
fn keep<A: Allocator>(line: &mut Vec<u8, A>, is_long: bool, piece: &[u8]) -> bool
    requires { longest_line ≤ vec_capacity line.old }
    ensures room { vec_capacity line.old ≤ vec_capacity line.new }
    ensures kept { (so_far : List ℕ) → KeepsLine so_far line.old.items is_long → KeepsLine (so_far ++ piece.now) line.new.items result }
{
    if is_long || piece.len() > LONGEST_LINE.saturating_sub(line.len()) {
        return true;
    }
    line.extend_from_slice(piece).is_err()
}

// Whether bytes wait.
enum Filled {
    Waiting,
    End,
    Fault,
    NotYet,
}

// What a read gave.
enum Given {
    Bytes(usize),
    NotYet,
    Fault,
}

// Reads once, and again if the read was interrupted. Gives a fault if the reader failed, or was called too often.
fn read_chunk<C: Connection>(connection: &mut C, chunk: &mut [u8; CHUNK], reads: &mut u32) -> Given
    requires { reads.old ≤ most_reads }
    ensures reads { reads.new ≤ most_reads }
    ensures bytes { ReadsChunk (C.reading connection.old) (C.reading connection.new) chunk.new result }
    ensures same { (C.contents connection.new ≡ C.contents connection.old) × (C.names connection.new ≡ C.names connection.old) }
{
    for _ in 0..MAX_READS {
        if *reads >= MAX_READS {
            return Given::Fault;
        }
        *reads += 1;
        match connection.read(chunk) {
            Ok(count) => return Given::Bytes(count),
            Err(error) => match error.kind() {
                ErrorKind::Interrupted => {}
                ErrorKind::WouldBlock => return Given::NotYet,
                _ => return Given::Fault,
            },
        }
    }
    Given::Fault
}
