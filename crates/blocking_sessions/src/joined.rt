//! A separate reader and writer, as a connection.
ghost use Rattle.line_inlet.specs.Reading.{to_come};

use line_inlet::Connection;
use std::io::{self, Read, Write};

/// A reader, as the half of a connection that is heard.
pub(crate) struct Ear<'a, R> {
    pub reader: &'a mut R,
}

/// A separate reader and writer, as one connection.
pub(crate) struct Joined<'a, 'b, R, W> {
    pub ear: Ear<'a, R>,
    pub writer: &'b mut W,
}

impl<R: Read, W: Write> Connection for Joined<'_, '_, R, W> {
    ghost reading = { λ j. to_come (R.remaining j.ear.reader.now) };

    ghost contents = { λ j. W.contents j.writer.now };

    ghost names = { λ j. (j.ear.reader.ghost_name, j.writer.ghost_name) };

    #[tactic(auto, using(line_inlet::proofs::Readings::of_reader))]
    fn read(&mut self, buf: &mut [u8]) -> io::Result<usize> {
        self.ear.reader.read(buf)
    }

    fn write(&mut self, buf: &[u8]) -> io::Result<usize> {
        self.writer.write(buf)
    }
}
