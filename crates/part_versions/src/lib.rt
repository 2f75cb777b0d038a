//! The shelf: the versions of each part.
//!
//! Promises: a shelf holds exactly the lists of contents that the definitions say. Drafts become versions all or none, in order. They
//! are refused at a limit exactly if they would exceed one, and the same list comes back (`append_all`, `laws`). One content may be
//! appended alone (`append`).
//! Stands on: vault_state. Must not know: places of a tree, claims, who saved a draft.
//!
//! Invariants:
//! 1. `Shelf`: it is well formed: contents are short, no part has too many, all together aren't too heavy, the last place of the
//!    list has one.
//! 2. `Shelf`: `weight` is the weight of all contents.
//! 3. `Part`: the ends of its versions rise, the last is the end of its bytes, and between two of them a version is spelled.
//!
//! Only tested: how much memory it takes.
//! Start at: append.rt, `append_all`; then part.rt.
#![tactic(auto)]

mod append;
pub mod laws;
mod limits;
mod part;
mod shelf;

pub use shelf::{AppendError, NotAppended, Shelf};
