//! When a flusher sleeps; for how many entries a commit waits, and how long; when a snapshot begins. It decides when something is done,
//! and never what.
//!
//! Promises: what each call of `Pace` answers and changes, and when a snapshot begins (`begins_snapshot`). For `may_change`,
//! `Commit`, `Gathering` and `Silence` only safety is proved.
//! Only tested: the rule itself, over worked examples of calls.
//! Stands on: vault_store, for what a pump and the start of a snapshot answer. Must not know: a lock, a thread, an entry.
//! Start at: `Pace::lacks`, `begins_snapshot`.
#![tactic(auto)]

mod commit;
mod pace;
mod snapshot;

pub use commit::{Commit, Gathering};
pub use pace::{Pace, UnderWay, may_change};
pub use snapshot::{Silence, begins_snapshot};
