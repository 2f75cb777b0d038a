//! Tests of the store of two files that have to call it themselves. The other tests are rows in vault_scripts/data: what is done to
//! files in memory, and what the store then answers.
//!
//! Promises: nothing; it has no public function.
//! Only tested: each request for memory refused, a vault in two real files, and snapshots of more than one piece.
//! Stands on: vault_store, and what it stands on.
//! Start at: memory.rt.
#![tactic(auto)]

#[cfg(test)]
mod long;
#[cfg(test)]
mod memory;
#[cfg(test)]
mod real_files;
