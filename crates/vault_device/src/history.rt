//! What was done to a device in memory.
ghost use Rattle.std.specs.Prelude.{◌≡◌, IfOk, length};

use std::alloc::{AllocError, Allocator};
use std::marker::Model;

/// What a crash leaves of the bytes that were written since the last sync.
#[derive(Clone, Copy, Debug, PartialEq, Eq)]
pub enum Pick {
    /// The bytes and the length before those writes.
    Old,
    /// All that was written.
    New,
    /// This byte at each offset that was written, with the length that was written.
    Bytes(u8),
}

// The bytes of one write.
#[derive(Drop)]
pub struct Text<A: Allocator> {
    bytes: Vec<u8, A>,
}

impl<A: Allocator> Model for Text<A> {
    ghost use Rattle.std.specs.Prelude.{List, ℕ};

    ghost Value = { List ℕ };

    ghost view = { λ text. text.bytes.items };
}

impl<A: Allocator> Text<A> {
    /// A copy of the bytes, in this memory.
    pub fn copy_of(alloc: A, bytes: &[u8]) -> Result<Text<A>, AllocError>
        ensures { IfOk result (λ text. text ≡ bytes.now) }
    {
        Ok(Text {
            bytes: Vec::from_slice(alloc, bytes)?,
        })
    }

    /// How many bytes there are.
    pub fn len(&self) -> usize
        ensures { result ≡ length self.now }
    {
        self.bytes.len()
    }
}

// One event: a write, a sync or a crash.
#[derive(Drop)]
pub enum Event<Text> {
    Wrote(usize, Text),
    Synced,
    Crashed(Pick),
}
