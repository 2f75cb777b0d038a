//! Scripts from readers and into writers that misbehave.

use std::io::{self, Read, Write};
use std::test::Fail;
use vault_protocol::{LONGEST_SCRIPT, ScriptError, run_script};

/// A reader that gives one byte at a time, and fails at the end if it is broken.
#[derive(Drop)]
pub(super) struct OneByte<'a> {
    pub rest: &'a [u8],
    pub broken: bool,
}

impl Read for OneByte<'_> {
    fn read(&mut self, buf: &mut [u8]) -> io::Result<usize> {
        let Some((first, rest)) = self.rest.split_first() else {
            if self.broken {
                return Err(io::Error::from(io::ErrorKind::Other));
            }
            return Ok(0);
        };
        if buf.is_empty() {
            return Ok(0);
        }
        buf[0] = *first;
        self.rest = rest;
        Ok(1)
    }
}

/// A reader of a comment of `left` bytes. It gives at most `most` bytes per read.
#[derive(Drop)]
struct Comment {
    left: usize,
    most: usize,
}

impl Read for Comment {
    fn read(&mut self, buf: &mut [u8]) -> io::Result<usize> {
        let count = buf.len().min(self.left).min(self.most);
        for byte in &mut buf[..count] {
            *byte = b'#';
        }
        self.left -= count;
        Ok(count)
    }
}

/// A writer that takes `room` bytes in all. Then it takes none, or fails if it is broken.
#[derive(Drop)]
struct Bounded {
    held: Vec<u8>,
    room: usize,
    broken: bool,
}

impl Write for Bounded {
    fn write(&mut self, buf: &[u8]) -> io::Result<usize> {
        if self.room == 0 && self.broken {
            return Err(io::Error::from(io::ErrorKind::Other));
        }
        let count = buf.len().min(self.room);
        let (front, _) = buf.split_at(count);
        self.held.extend_from_slice(front)?;
        self.room -= count;
        Ok(count)
    }

    fn flush(&mut self) -> io::Result<()> {
        Ok(())
    }
}

const SCRIPT: &[u8] = b"@1 hello anna\n@1 make /e\n@2 hello ben\n@2 checkout r:/e\nfoo";

const OUTPUT: &[u8] = b"@1 OK session 1\n@1 OK place 1\n@2 OK session 2\n@2 OK held c1\n! ERR 10\n";

#[test]
fn byte_by_byte_and_a_reader_that_fails_behind_a_line(rt: HostRuntime) {
    for (broken, wanted, output) in [
        (false, Ok(()), OUTPUT),
        (true, Err(ScriptError::Read), b"".as_slice()),
    ] {
        let mut reader = OneByte {
            rest: SCRIPT,
            broken,
        };
        let mut held = Vec::new(rt.alloc());
        let end = run_script(rt.alloc(), &mut reader, &mut held);
        assert_eq!(rt; end, wanted);
        assert_eq!(rt; held.as_slice(), output);
        drop(held);
    }
}

#[test]
fn longest_script(rt: HostRuntime) -> Result<(), Fail> {
    for (left, most, want) in [
        (LONGEST_SCRIPT, LONGEST_SCRIPT, Ok(())),
        (
            LONGEST_SCRIPT + 1,
            LONGEST_SCRIPT,
            Err(ScriptError::TooLong),
        ),
        (100_000, 1, Ok(())),
    ] {
        let mut held = Vec::new(rt.alloc());
        let end = run_script(rt.alloc(), &mut Comment { left, most }, &mut held);
        assert_eq!(rt; end, want);
        assert!(rt; held.is_empty());
    }
    Ok(())
}

#[test]
fn full_writers(rt: HostRuntime) -> Result<(), Fail> {
    for (room, broken) in [(0, false), (16, true), (20, false), (20, true)] {
        let mut reader = SCRIPT;
        let mut writer = Bounded {
            held: Vec::new(rt.alloc()),
            room,
            broken,
        };
        let end = run_script(rt.alloc(), &mut reader, &mut writer);
        assert_eq!(rt; end, Err(ScriptError::Write));
        assert_eq!(rt; writer.held.len(), room);
        assert!(rt; OUTPUT.starts_with(&writer.held));
    }
    Ok(())
}
