//! The five lock modes of a tree of places, and groups of them.
//!
//! Promises: compatibility, order and join are the tables of Gray, Lorie, Putzolu and Traiger (1976), with their laws. A
//! group's mode is the join of its members' modes. A group admits the modes that each member is compatible with
//! (`Group`, `laws`).
//! Stands on: no crate. Must not know: places, claims.
//!
//! Invariants: none besides the types. A `Group` is five counts, and contracts see them.
//! Start at: specs/Modes.antt beside mode.rt; then group.rt and laws.rt.
#![tactic(auto)]

mod group;
pub mod laws;
mod mode;

pub use group::{Group, MAX_MEMBERS};
pub use mode::Mode;
