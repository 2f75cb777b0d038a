//! The judge of a vault over two devices in memory. In plain code, it computes what the definitions say of each call, of what a crash
//! leaves, and of any two files.
//!
//! Promises: nothing; it is safe, and it ends. It looks at the vault from outside, as a client that keeps its own list of all
//! commands. The first difference is kept, and nothing is done about it.
//! Stands on: vault_state, vault_model, vault_device, vault_checkout, design_tree, long_locks, vault_store, group_commit, vault_lines,
//! vault_inspector. Must not know: how any of these keeps what it keeps; what is done to a vault.
//! Start at: docs/SIMULATION.md; judge.rt, history.rt and world.rt.
#![tactic(auto)]

mod agreement;
mod books;
mod counts;
mod files;
mod history;
mod judge;
mod plain;
mod talk;
mod tickets;
mod verdict;
mod world;

pub use agreement::agree;
pub use books::are_alike;
pub use counts::{COUNTED, Counts, Met};
pub use files::{Bytes, Files, new_vault};
pub use history::History;
pub use judge::{Judge, are_states};
pub use talk::Talk;
pub use verdict::Verdict;
pub use world::{Left, World};
