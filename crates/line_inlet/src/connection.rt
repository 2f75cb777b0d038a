//! What lines come in by, and what answers go out by.
ghost use Rattle.std.specs.Prelude.{◌≡◌, ℕ, List, Option, None};
ghost use Rattle.std.specs.Io.{ReadsAtMost, WritesAtMost};
ghost use Rattle.std.specs.Io.KnownBytes.{WriteAppends};
ghost use Rattle.line_inlet.specs.Reading.{Reading, ReadGave, unknown};

use std::io;

/// What a conversation is held over: bytes of lines come in by it, and their answers go out. Reading doesn't change what was written, and
/// writing doesn't change what is left to read. If one type has both of std's `Read` and `Write`, these don't say so.
pub trait Connection {
    /// What is known of the bytes that it gave, and of those that are still to come.
    ghost reading: { Self → Reading } = { λ _. unknown };

    /// The bytes that were written, where they are known.
    ghost contents: { Self → Option (List ℕ) } = { λ _. None };

    /// Which references it holds, by their ghost names.
    ghost names: { Self → ℕ × ℕ } = { λ _. (0, 0) };

    /// Reads some bytes to the buffer's front, as `Read::read` does.
    fn read(&mut self, buf: &mut [u8]) -> io::Result<usize>
        ensures bound { ReadsAtMost result buf.new }
        ensures bytes { ReadGave (reading self.old) (reading self.new) result buf.new }
        ensures same { (contents self.new ≡ contents self.old) × (names self.new ≡ names self.old) };

    /// Writes some of the bytes, as `Write::write` does.
    fn write(&mut self, buf: &[u8]) -> io::Result<usize>
        ensures bound { WritesAtMost result buf.now }
        ensures bytes { WriteAppends (contents self.old) (contents self.new) result buf.now }
        ensures same { (reading self.new ≡ reading self.old) × (names self.new ≡ names self.old) };

    /// It has news. `_is_ending` says that its client sends no more than what has arrived.
    fn wake(&mut self, _is_ending: bool)
        ensures same { (reading self.new ≡ reading self.old) × (contents self.new ≡ contents self.old) × (names self.new ≡ names self.old) }
    {}

    /// A new round begins: it may give as many bytes again as it may in one round.
    fn begin_round(&mut self)
        ensures same { (reading self.new ≡ reading self.old) × (contents self.new ≡ contents self.old) × (names self.new ≡ names self.old) }
    {}

    /// Whether it gave as many bytes as it may in one round, and may have more.
    fn is_spent(&self) -> bool {
        false
    }
}
