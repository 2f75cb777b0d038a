//! What the program does with a whole vault, but without threads: `script`, and what `serve` begins and ends with.
//!
//! Promises: it is safe and total. `script` is one call of a crate beneath.
//! Stands on: command_line, vault_device, vault_store, vaultd_files, group_commit, vault_protocol. Must not know: the server, and anything that a
//! contract should say; it is kept thin.
//! Only tested, by `tools/try-program`: statuses, texts and order of failures, closed streams.
//! Neither: what standard input and output are; that a real file is honest.
//! Start at: scripting.rt; opening.rt.
#![tactic(auto)]

mod opening;
mod scripting;

pub use opening::{close_vault, introduce, listen, open_vault};
pub use scripting::script;
