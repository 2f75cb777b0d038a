//! Tests of the vault with its history, and of the inspector, through their public calls.
//!
//! Promises: nothing; it has no public function.
//! Only tested: creations, worked commits, tickets and pasts, retiring, snapshots, reports on two files, which change neither, and memory
//! that is refused to a vault, to its files and to each command.
//! Stands on: group_commit, vault_inspector, vault_lines, and what these stand on.
//! Start at: vault/scripts.rt, the rows; vault/play.rt, which makes their calls; vault/past.rt for a past of several lives.
#![tactic(auto)]

#[cfg(test)]
mod inspector;
#[cfg(test)]
mod vault;
