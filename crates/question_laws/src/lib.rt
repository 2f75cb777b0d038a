//! What the answers to questions mean, in the words of who asks, and how long replies are.
//!
//! Promises: the laws of `laws`, of the definitions in vault_model and vault_lines. `claims` lists the claims with an item at the place,
//! above it or beneath it. `show` tells the items as they were asked for. The parts that `drafts` lists are those that get a version at a
//! check-in. No reply is longer than a table says, in a vault whose names are names; by its type, each name is one.
//! Stands on: vault_state, vault_model, design_tree, vault_lines. Must not know: how a vault is kept, files, threads. Nothing stands on it.
//! Start at: specs/Questions.antt, specs/Longest.antt.
#![tactic(auto)]

pub mod laws;
