//! Scripts of lines over a vault.
//!
//! Promises: a script, with its commits, pumps, snapshots and crashes, prints exactly the output that its bytes mean, whatever
//! pieces they are read in. If it fails, it has printed a prefix of that output. Each script is a run of the world (`run_script`,
//! `laws`).
//! Stands on: vault_state, vault_model, vault_device, vault_journal, vault_store, group_commit, vault_lines, whose calls it re-exports.
//! Must not know: sockets, files, threads.
//!
//! Invariants:
//! 1. `Connection`: its number is 1 to 64.
//!
//! Neither proved nor tested: that `Read` comes from a reader that fails, and `NoMemory` from an allocation that was refused.
//! Start at: docs/PROTOCOL.md, specs/Talk.antt, specs/Script.antt and runner.rt.
#![tactic(auto)]

mod error;
mod input;
pub mod laws;
mod letting_go;
mod limits;
mod lines;
mod losing;
mod output;
mod reopening;
mod runner;
mod script;
mod waiting;

pub use error::ScriptError;
pub use limits::{LAST_CONNECTION, LONGEST_SCRIPT};
pub use script::run_script;
pub use vault_lines::{LONGEST_LINE, LineError, MAX_READS, outside_text, read_line_of, text_of};
