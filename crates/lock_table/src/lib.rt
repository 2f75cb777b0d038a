//! Lock sets: the modes that a claim has at places. Lock tables: which claims are granted or waiting, by their lock sets.
//!
//! Promises: `lock_set` gives the mode of a claim at each place. Two lock sets conflict exactly if the claims overlap. A
//! table answers as the model's line (queue of claims) does, and a new place changes no standing (`laws`). For each place it gives the
//! group of all claims' modes and that of the granted claims' modes (`group_at`, `held_at`). All short claims leave at once
//! (`release_short`).
//! Stands on: vault_state, design_tree, lock_modes, lock_queue. Must not know: owners, kinds of claims, drafts.
//!
//! Invariants:
//! 1. `LockSet`: no place has two locks.
//! 2. `Table`: no claim has two entries.
//! 3. `Table`: it has at most 256 entries.
//! 4. `Table`: each place has the queue of the claims that have a mode there, and memory for it. lock_queue's type keeps two groups with
//!    it: of exactly these claims, and of the granted ones.
//! 5. `Table`: each entry's blocker, the claim that it waits for, is kept at the entry's position.
//!
//! Only measured: how long a call takes (bench/RESULTS.md).
//! Start at: specs/ClaimModes.antt and locks.rt, `lock_set`; then table.rt, and waits.rt for who waits for whom.
#![tactic(auto)]

mod again;
mod entry;
pub mod laws;
mod locks;
mod queues;
mod table;
mod waits;

pub use entry::{Entry, Extension};
pub use locks::{Lock, LockSet, MAX_LOCKS, lock_set};
pub use table::Table;
