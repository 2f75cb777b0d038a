//! Tests of devices and of the journal, through their public calls.
//!
//! Promises: nothing; it has no public function.
//! Only tested: the bytes after each possible crash, records and frames against bytes worked out by hand, commits, refused memory.
//! Stands on: vault_device, vault_journal, and what these stand on.
//! Start at: journal/committing.rt for the four steps of a commit.
#![tactic(auto)]

#[cfg(test)]
mod device;
#[cfg(test)]
mod journal;
#[cfg(test)]
mod memory;
