//! Tests of the running server with hostile clients: beside each kind of them an honest one is served.
//!
//! Promises: nothing; it has no public function.
//! Only tested: what `vault_server` says is only tested.
//! Stands on: vault_server, test_fixtures, test_memory, and what they stand on. It is a crate of its own, since its tests are proved beside
//! those of test_server then.
//! Start at: hostility.rt.
#![tactic(auto)]

#[cfg(test)]
mod hostility;
