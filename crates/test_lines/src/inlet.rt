//! Bytes and lines from a connection that fails, pauses, is interrupted, or never ends.

use line_inlet::{Connection, Inlet, NextByte, NextLine};
use std::alloc::{AllocError, Global};
use std::io::{self, ErrorKind};
use vault_lines::{LONGEST_LINE, MAX_READS};

/// What one read gives.
#[derive(Clone, Copy)]
enum Call {
    Gives(&'static [u8]),
    Fails(ErrorKind),
}

/// A connection whose reads give this, one by one, and then the last one again and again.
#[derive(Drop)]
struct Scripted {
    calls: &'static [Call],
    at: usize,
}

impl Scripted {
    fn new(calls: &'static [Call]) -> Scripted {
        Scripted { calls, at: 0 }
    }
}

impl Connection for Scripted {
    fn read(&mut self, buf: &mut [u8]) -> io::Result<usize> {
        let call = self.calls.get(self.at).or(self.calls.last());
        self.at = self.at.saturating_add(1).min(self.calls.len());
        match call {
            Some(Call::Gives(bytes)) => {
                let count = bytes.len().min(buf.len());
                buf[..count].copy_from_slice(&bytes[..count]);
                Ok(count)
            }
            Some(Call::Fails(kind)) => Err(io::Error::from(*kind)),
            None => Ok(0),
        }
    }

    fn write(&mut self, _buf: &[u8]) -> io::Result<usize> {
        Ok(0)
    }
}

static BYTES: [(&[Call], &[NextByte]); 4] = [
    // The end is reported again and again.
    (
        &[Call::Gives(b"ab"), Call::Gives(b"")],
        &[
            NextByte::Byte(b'a'),
            NextByte::Byte(b'b'),
            NextByte::End,
            NextByte::End,
        ],
    ),
    (
        &[
            Call::Fails(ErrorKind::Interrupted),
            Call::Fails(ErrorKind::Interrupted),
            Call::Gives(b"a"),
        ],
        &[NextByte::Byte(b'a')],
    ),
    // A pause isn't the end.
    (
        &[
            Call::Gives(b"a"),
            Call::Fails(ErrorKind::WouldBlock),
            Call::Gives(b"b"),
            Call::Gives(b""),
        ],
        &[
            NextByte::Byte(b'a'),
            NextByte::NotYet,
            NextByte::Byte(b'b'),
            NextByte::End,
        ],
    ),
    (
        &[Call::Gives(b"a"), Call::Fails(ErrorKind::ConnectionReset)],
        &[NextByte::Byte(b'a'), NextByte::Fault, NextByte::Fault],
    ),
];

fn are_next(calls: &'static [Call], wanted: &[NextByte]) -> bool {
    let mut inlet = Inlet::new();
    let mut reader = Scripted::new(calls);
    for next in wanted {
        if inlet.next_byte(&mut reader) != *next {
            return false;
        }
    }
    true
}

#[test]
fn bytes_of_each_reader(rt: HostRuntime) {
    for (calls, wanted) in &BYTES {
        assert!(rt; are_next(*calls, *wanted), "{wanted:?}");
    }
}

static LINES: [(&[Call], &[NextLine]); 3] = [
    // What comes after the last line feed isn't a line.
    (
        &[Call::Gives(b"a\nb"), Call::Gives(b"")],
        &[NextLine::Whole, NextLine::End],
    ),
    (
        &[
            Call::Gives(b"a"),
            Call::Fails(ErrorKind::WouldBlock),
            Call::Gives(b"b\n"),
            Call::Gives(b""),
        ],
        &[NextLine::NotYet, NextLine::Whole, NextLine::End],
    ),
    (
        &[
            Call::Fails(ErrorKind::Interrupted),
            Call::Gives(b"a\n"),
            Call::Fails(ErrorKind::ConnectionReset),
        ],
        &[NextLine::Whole, NextLine::Fault],
    ),
];

fn are_lines(
    memory: Global,
    calls: &'static [Call],
    wanted: &[NextLine],
) -> Result<bool, AllocError> {
    let mut inlet = Inlet::new();
    let mut reader = Scripted::new(calls);
    let mut line = Vec::with_capacity(memory, LONGEST_LINE)?;
    let mut is_long = false;
    let mut are = true;
    for next in wanted {
        are = are && inlet.next_line(&mut reader, &mut line, &mut is_long) == *next;
    }
    drop(line);
    Ok(are)
}

#[test]
fn lines_of_each_reader(rt: HostRuntime) {
    for (calls, wanted) in &LINES {
        assert_eq!(rt;
            are_lines(rt.alloc(), *calls, *wanted),
            Ok(true),
            "{wanted:?}"
        );
    }
}

/// Whether a reader that never has a byte is called as often as is allowed, and no more.
fn is_counted() -> bool {
    static CALLS: [Call; 1] = [Call::Fails(ErrorKind::WouldBlock)];
    let mut inlet = Inlet::new();
    let mut reader = Scripted::new(&CALLS);
    for _ in 0..MAX_READS {
        if inlet.next_byte(&mut reader) != NextByte::NotYet {
            return false;
        }
    }
    inlet.next_byte(&mut reader) == NextByte::Fault
}

/// Whether a reader that is interrupted each time is given up in the end.
fn is_given_up() -> bool {
    static CALLS: [Call; 1] = [Call::Fails(ErrorKind::Interrupted)];
    let mut inlet = Inlet::new();
    inlet.next_byte(&mut Scripted::new(&CALLS)) == NextByte::Fault
}

#[test]
fn reads_are_counted(rt: HostRuntime) {
    assert!(rt; is_counted());
    assert!(rt; is_given_up());
}
