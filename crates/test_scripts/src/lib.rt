//! Tests of scripts, with readers, writers and memory that misbehave. Scripts worked out by hand are data of `vault_scripts`.
//!
//! Promises: nothing; it has no public function.
//! Only tested: odd readers and writers of scripts and of reports, when a script's output begins, refused memory.
//! Stands on: vault_protocol, vault_inspector.
//! Start at: streams.rt.
#![tactic(auto)]

#[cfg(test)]
mod memory;
#[cfg(test)]
mod streams;
#[cfg(test)]
mod writers;
