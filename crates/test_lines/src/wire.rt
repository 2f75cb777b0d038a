//! A served connection over a stream in memory, and one for which there is no place.

use line_inlet::Connection;
use std::alloc::{AllocError, Global};
use std::io::{self, ErrorKind, Read, Write};
use tcp_door::{Stream, Wire, turn_away};

/// A reader and a writer, as a stream.
#[derive(Drop)]
struct Joined<R, W> {
    reader: R,
    writer: W,
}

impl<R: Read, W: Write> Stream for Joined<R, W> {
    ghost remaining = { λ j. R.remaining j.reader };

    ghost contents = { λ j. W.contents j.writer };

    fn read(&mut self, buf: &mut [u8]) -> io::Result<usize> {
        self.reader.read(buf)
    }

    fn write(&mut self, buf: &[u8]) -> io::Result<usize> {
        self.writer.write(buf)
    }

    fn end(&mut self) -> io::Result<()> {
        Ok(())
    }
}

/// What a connection hands on of these bytes until its end or until it has none for now, and whether it ended.
fn handed_on(
    alloc: Global,
    bytes: &[u8],
    refuses_foreign: bool,
) -> Result<(Vec<u8>, bool), AllocError> {
    let stream = Joined {
        reader: bytes,
        writer: io::sink(),
    };
    let mut wire = Wire::new(stream, refuses_foreign);
    wire.wake(true);
    let mut heard = Vec::new(alloc);
    let mut buffer = [0; 16];
    for _ in 0..1000 {
        match wire.read(&mut buffer) {
            Ok(0) => {
                drop(wire);
                return Ok((heard, true));
            }
            Ok(count) => heard.extend_from_slice(&buffer[..count])?,
            Err(_) => {
                drop(wire);
                return Ok((heard, false));
            }
        }
    }
    drop(wire);
    Ok((heard, false))
}

/// What came, and what is handed on of it where another protocol's first line is refused.
static CAME: [(&[u8], &[u8]); 6] = [
    (b"hello anna\nquit\n", b"hello anna\nquit\n"),
    (b"", b""),
    (b"\x16\x03\x01", b""),
    (b"GET / HTTP/1.1\r\n\r\n", b"GET / HTTP"),
    (
        b"hello anna\nGET / HTTP/1.1\r\n",
        b"hello anna\nGET / HTTP/1.1\r\n",
    ),
    // The mark lies across two reads.
    (b"OPTIONS /abcd HTTP/1.1\r\n", b"OPTIONS /abcd HTTP"),
];

fn is_handed_on(alloc: Global, came: &[u8], wanted: &[u8]) -> Result<bool, AllocError> {
    let (own, ended) = handed_on(alloc, came, true)?;
    let is_own = ended && own.as_slice() == wanted;
    drop(own);
    let (all, ended) = handed_on(alloc, came, false)?;
    let are_all = ended && all.as_slice() == came;
    drop(all);
    Ok(is_own && are_all)
}

#[test]
fn bytes_before_another_protocol(rt: HostRuntime) {
    for (came, wanted) in &CAME {
        assert_eq!(rt;
            is_handed_on(rt.alloc(), *came, *wanted),
            Ok(true),
            "{wanted:?}"
        );
    }
}

/// Whether a connection gives 8,192 bytes in a round, and the others in the next one.
fn gives_rounds() -> bool {
    let bytes = [b'a'; 9000];
    let stream = Joined {
        reader: &bytes[..],
        writer: io::sink(),
    };
    let mut wire = Wire::new(stream, true);
    let mut buffer = [0; 4096];
    let first = wire.read(&mut buffer).is_ok_and(|count| count == 4096);
    let second = wire.read(&mut buffer).is_ok_and(|count| count == 4096);
    let spent = wire.is_spent()
        && wire
            .read(&mut buffer)
            .is_err_and(|error| error.kind() == ErrorKind::WouldBlock);
    wire.begin_round();
    let third = wire.read(&mut buffer).is_ok_and(|count| count == 808);
    // It gave less than was asked for, so nothing is there until it is woken.
    let dry = wire
        .read(&mut buffer)
        .is_err_and(|error| error.kind() == ErrorKind::WouldBlock);
    wire.wake(false);
    let end = wire.read(&mut buffer).is_ok_and(|count| count == 0);
    drop(wire);
    first && second && spent && third && dry && end
}

#[test]
fn rounds_of_a_connection(rt: HostRuntime) {
    assert!(rt; gives_rounds());
}

/// Whether a connection for which there is no place gets `ERR 80`, whatever it sent.
fn is_told_busy(alloc: Global) -> bool {
    let mut stream = Joined {
        reader: &b"hello anna\nmake /engine\n"[..],
        writer: Vec::new(alloc),
    };
    turn_away(alloc, &mut stream);
    let told = stream.writer.as_slice() == b"ERR 80\n".as_slice() && stream.reader.is_empty();
    drop(stream);
    told
}

#[test]
fn no_place(rt: HostRuntime) {
    assert!(rt; is_told_busy(rt.alloc()));
}
