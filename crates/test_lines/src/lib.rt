//! Tests of lines and of texts, through their public calls.
//!
//! Promises: nothing; it has no public function.
//! Only tested: numbers, outside refusals, refused memory, connections that fail, pause or never end, what a connection hands on, and one
//! without a place. Lines and replies worked out by hand are data of `vault_scripts`.
//! Stands on: tcp_door, line_inlet, vault_lines, vault_model.
//! Start at: memory.rt.
#![tactic(auto)]

#[cfg(test)]
mod inlet;
#[cfg(test)]
mod lines;
#[cfg(test)]
mod memory;
#[cfg(test)]
mod wire;
