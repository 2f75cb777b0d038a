//! Tests of the types, of the tree of places and of the shelf, through their public calls.
//!
//! Promises: nothing; it has no public function.
//! Only tested: names, paths and notes, copies, a tree's and a shelf's calls, and each of their memory requests refused.
//! Stands on: vault_state, vault_model, design_tree, part_versions.
//! Start at: tree.rt, `Step`; then memory.rt.
#![tactic(auto)]

#[cfg(test)]
mod memory;
#[cfg(test)]
mod model;
#[cfg(test)]
mod tree;
#[cfg(test)]
mod versions;
