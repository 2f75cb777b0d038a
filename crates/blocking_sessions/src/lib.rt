//! One connection, served to its end by a thread that may block: the steps of a `Dialogue`, one after another.
//!
//! Promises: each line of a connection has its answer at its place, a receipt shows the line's command, and what is written is the texts of
//! the answers, whose receipts are of acknowledged entries (`serve_one`): what `Dialogue::finish` says, of a separate reader and writer.
//! Only tested: what vault_sessions says is only tested of conversations; and `serve_one` with each of its allocations refused.
//! Stands on: vault_sessions, line_inlet. Must not know: what a line says, what a step does.
//! Start at: serve.rt.
#![tactic(auto)]

mod joined;
mod serve;

pub use serve::{Report, serve_one};
