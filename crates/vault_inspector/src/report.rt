//! What is found in two files.

use std::alloc::{Allocator, Global};
use vault_checkout::Book;
use vault_store::FileVersion;

/// What one of the two files is found to be.
#[derive(Clone, Copy, Debug, PartialEq, Eq)]
pub enum FileState {
    /// It has no whole header, or its head gate is closed.
    Closed,
    /// It is read as the active one, and is whole: its generation, how many frames it has, the offset of its tail gate (the closed
    /// commit mark where its journal ends), and its version.
    Open {
        generation: u64,
        frames: u64,
        tail: u64,
        version: FileVersion,
    },
    /// Its head is right, and of a smaller generation than the other's.
    Older {
        generation: u64,
    },
    /// What stands at this offset is wrong.
    Damaged {
        offset: u64,
    },
}

/// The state of each file, and the book of the vault that both stand for, where they stand for one.
#[derive(Drop)]
pub struct Report<A: Allocator = Global> {
    pub first: FileState,
    pub second: FileState,
    pub book: Option<Book<A>>,
}
