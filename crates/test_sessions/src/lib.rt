//! Tests of conversations through their public calls: conversations in memory, a flusher beside workers, and the pace of commits. Each
//! is a row of a table, and one function checks all rows of a table.
//!
//! Promises: nothing; it has no public function.
//! Only tested: what `vault_sessions` and `flusher_pace` say is only tested.
//! Stands on: vault_sessions, test_fixtures, test_memory, and what they stand on.
//! Start at: talks.rt for a conversation, pair.rt for two side by side, pacing.rt for the pace of commits.
#![tactic(auto)]

#[cfg(test)]
mod filling;
#[cfg(test)]
mod memory;
#[cfg(test)]
mod pacing;
#[cfg(test)]
mod pair;
#[cfg(test)]
mod talk;
#[cfg(test)]
mod talks;
