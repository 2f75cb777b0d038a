//! Tests of the running server, through its public calls: a server over TCP on this machine. Each is a row of a table, and one function
//! checks all rows of a table.
//!
//! Promises: nothing; it has no public function.
//! Only tested: what `vault_server` says is only tested.
//! Stands on: vault_server, test_fixtures, test_memory, and what they stand on.
//! Start at: serving.rt.
#![tactic(auto)]

#[cfg(test)]
mod holding;
#[cfg(test)]
mod refusing;
#[cfg(test)]
mod server;
#[cfg(test)]
mod serving;
#[cfg(test)]
mod waiting;
