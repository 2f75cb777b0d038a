//! The lines of the vault: commands in, and replies out.
//!
//! Promises: a line is read exactly as the command that it spells, a number exactly from its decimal text, and each reply has its
//! text (`read_line_of`, `read_number`, `text_of`, `outside_text`, `laws`).
//! Stands on: vault_state, vault_model. Must not know: scripts, sockets, files, threads, a vault that runs.
//!
//! Neither proved nor tested: that `NoMemory` comes from an allocation that was refused.
//! Start at: docs/PROTOCOL.md, specs/Grammar.antt and reading.rt.
#![tactic(auto)]

mod digits;
mod error;
mod keyword;
pub mod laws;
mod limits;
mod pieces;
mod reading;
mod split;
mod text;
mod words;

pub use error::LineError;
pub use limits::{LONGEST_LINE, MAX_READS};
pub use reading::read_line_of;
pub use text::{outside_text, text_of};
pub use words::read_number;
