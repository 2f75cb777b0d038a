//! Bytes as rows, and a reader and a writer over them.

use std::alloc::Global;
use std::io::{self, Read, Write};

/// Some bytes, and how often they come. There is at least one byte, and they come at least once.
pub type Piece = (&'static [u8], usize);

// Goes through the bytes of pieces.
#[derive(Clone, Copy)]
struct Cursor {
    pieces: &'static [Piece],
    piece: usize,
    times: usize,
    at: usize,
}

impl Cursor {
    fn new(pieces: &'static [Piece]) -> Cursor {
        Cursor {
            pieces,
            piece: 0,
            times: 0,
            at: 0,
        }
    }

    // The bytes of one piece that come next, at most this many. None at the end.
    fn next(&mut self, most: usize) -> &'static [u8] {
        let Some((bytes, times)) = self.pieces.get(self.piece) else {
            return b"";
        };
        let left = bytes.get(self.at..).unwrap_or(b"");
        let count = left.len().min(most);
        self.at = self.at.saturating_add(count);
        if count == left.len() {
            self.at = 0;
            self.times = self.times.saturating_add(1);
        }
        if self.times >= *times {
            self.times = 0;
            self.piece = self.piece.saturating_add(1);
        }
        &left[..count]
    }
}

/// Whether a text is exactly these pieces.
pub fn is_text(text: &[u8], pieces: &'static [Piece]) -> bool {
    let mut wanted = Cursor::new(pieces);
    for byte in text.chunks(1) {
        if wanted.next(1) != byte {
            return false;
        }
    }
    wanted.next(1).is_empty()
}

/// What a connection's reader and writer are like.
#[derive(Clone, Copy, PartialEq, Eq)]
pub enum Devices {
    /// As they should be.
    Plain,
    /// The reader gives one byte a read, each after a read that was interrupted, and then fails. The writer takes this number of texts,
    /// and then fails.
    Bumpy(u32),
    /// The writer takes one byte a call.
    Dripping,
}

/// Gives the bytes of pieces.
#[derive(Drop)]
pub struct Sender {
    left: Cursor,
    is_bumpy: bool,
    is_calm: bool,
}

impl Sender {
    /// A reader of this kind that gives these bytes.
    pub fn new(pieces: &'static [Piece], devices: Devices) -> Sender {
        Sender {
            left: Cursor::new(pieces),
            is_bumpy: matches!(devices, Devices::Bumpy(_)),
            is_calm: true,
        }
    }
}

impl Read for Sender {
    fn read(&mut self, buf: &mut [u8]) -> io::Result<usize> {
        self.is_calm = !self.is_calm;
        if self.is_bumpy && !self.is_calm {
            return Err(io::Error::from(io::ErrorKind::Interrupted));
        }
        let most = if self.is_bumpy { 1 } else { buf.len() };
        let bytes = self.left.next(most);
        if self.is_bumpy && bytes.is_empty() {
            return Err(io::Error::from(io::ErrorKind::Other));
        }
        let count = bytes.len().min(buf.len());
        buf[..count].copy_from_slice(&bytes[..count]);
        Ok(count)
    }
}

/// Keeps the bytes that it takes.
#[derive(Drop)]
pub struct Hearer {
    pub held: Vec<u8>,
    most: usize,
    calls: u32,
}

impl Hearer {
    /// A writer of this kind.
    pub fn new(alloc: Global, devices: Devices) -> Hearer {
        Hearer {
            held: Vec::new(alloc),
            most: if devices == Devices::Dripping {
                1
            } else {
                usize::MAX
            },
            calls: match devices {
                Devices::Bumpy(texts) => texts,
                _ => u32::MAX,
            },
        }
    }
}

impl Write for Hearer {
    fn write(&mut self, buf: &[u8]) -> io::Result<usize> {
        if self.calls == 0 {
            return Err(io::Error::from(io::ErrorKind::BrokenPipe));
        }
        let count = buf.len().min(self.most);
        self.held.extend_from_slice(&buf[..count])?;
        self.calls -= 1;
        Ok(count)
    }

    fn flush(&mut self) -> io::Result<()> {
        Ok(())
    }
}
