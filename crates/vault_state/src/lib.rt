//! The types that a vault is made of, and the definition of what a well-formed vault is.
//!
//! Promises: names and paths are read exactly from their spelling (`Name::read`, `Path::read`), and a note is any bytes that are
//! few enough (`Note::read`). A list of items or of names answers as a plain list does (`Items`, `Path`, `Listing`).
//! Stands on: no crate of this repository. Must not know: commands, replies, effects, and what a command does; an allocator in a
//! definition, a device, a line of text, how a tree is indexed.
//!
//! Invariants:
//! 1. `Name`: 1 to 32 bytes of `a-z`, `0-9`, `_`, `-`, and zeros behind them.
//! 2. `Path`: at most seven names, and spare room behind them.
//! 3. `Items`: at most 8 items, and spare room behind them.
//! 4. `Note`: at most 64 bytes, and zeros behind them.
//!
//! Start at: specs/Vault.antt (what a vault is), then specs/Tree.antt and specs/Claims.antt (the queue of claims).
#![tactic(auto)]

mod claims;
mod draft;
mod ids;
mod items;
mod limits;
mod listing;
mod name;
mod note;
mod path;
mod place;
mod session;
pub mod split;

pub use claims::{Claim, Item, Owner, PathItem, Standing};
pub use draft::{Draft, DraftIn, Drafts};
pub use ids::{ClaimId, Intent, PlaceId};
pub use items::Items;
pub use limits::{
    EXTRA_WEIGHT, GREATEST_DEPTH, LAST_NUMBER, LONGEST_CONTENT, LONGEST_NAME, LONGEST_NOTE,
    MAX_CHILDREN, MAX_CLAIMS, MAX_DRAFTS, MAX_ITEMS, MAX_NAMES, MAX_PLACES, MAX_SESSIONS,
    MAX_VERSIONS, MAX_WEIGHT, PART_DEPTH,
};
pub use listing::Listing;
pub use name::Name;
pub use note::Note;
pub use path::Path;
pub use place::{Kind, Place};
pub use session::Session;
use std::alloc::AllocError;
use thiserror::Error;

/// An allocation was refused.
#[derive(Clone, Copy, Debug, PartialEq, Eq, Error)]
#[error("want of memory")]
pub struct NoMemory;

impl From<AllocError> for NoMemory {
    fn from(_error: AllocError) -> NoMemory {
        NoMemory
    }
}
