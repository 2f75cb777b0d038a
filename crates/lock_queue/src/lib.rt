//! The queue of one place: the claims that have a lock mode there, in order of the queue of claims (the line), with two groups: of all
//! of them, and of the granted (held) ones.
//!
//! Promises: each change of a queue is the same change of its list of requests. Three searches give what a search of that list would,
//! though they ask the groups first: for the first claim in the way of a mode, for the first granted one in the way that isn't a given
//! claim's, and for the first granted one that covers the place (`PlaceQueue`).
//! Stands on: vault_state, lock_modes. Must not know: the tree, whole claims, the line.
//!
//! Invariant, of `PlaceQueue`: both groups count exactly the requests of the queue.
//!
//! Only tested, above it: that the groups are asked first.
//! Start at: queue.rt, specs/Queue.antt.
#![tactic(auto)]

mod queue;

pub use queue::{PlaceQueue, Request, is_same, is_short};
