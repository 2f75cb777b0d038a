//! The answer to a line, and why a conversation ended.

use crate::cause::Cause;
use group_commit::Receipt;
use std::alloc::{Allocator, Global};

/// The answer to a line.
#[derive(Drop)]
pub enum Out<A: Allocator = Global> {
    /// Its command got this reply.
    Told(Receipt<A>),
    /// It got no place in the history, or what became of it isn't known.
    Refused(Cause),
}

/// Why a conversation ended.
#[derive(Debug, Clone, Copy, PartialEq, Eq)]
pub enum Ended {
    /// The session left.
    Quit,
    /// The reader has no more lines.
    EndOfInput,
    /// The reader failed, or was called too often, or the dialogue was given up before it wrote an answer.
    Read,
    /// The writer failed, or took nothing, or the dialogue was given up amid an answer.
    Write,
    /// A byte came after the most lines or the most bytes.
    Limit,
    /// An allocation was refused, or the dialogue was given up while it waited for a reply.
    NoMemory,
}
