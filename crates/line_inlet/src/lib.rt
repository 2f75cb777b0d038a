//! Lines from a connection, within bounds, and what a conversation is held over.
//!
//! Promises: a line comes as the connection's bytes spell it, up to its line feed, however reads cut them. One with too many bytes is
//! reported as such once its line feed came. That the connection ended, or gave too much, is reported only if it is so. If it has nothing
//! for now, nothing that came is lost (`Inlet::next_line`, `Inlet::next_byte`). No clause says when a fault is reported. What is read
//! from a `Connection` and what is written to it don't change each other. Of its bytes contracts know those that come, those that came, or
//! neither (`Reading`).
//! Stands on: vault_lines, for the length of the longest line. Must not know: what a line says, how a conversation goes, the vault.
//!
//! Invariant, of `Inlet`: the bytes that wait lie within the chunk, and no more bytes were taken, and no more reads made, than the
//! limits allow.
//!
//! Only tested, above it: a read that gives less than was asked for counts as the last one for now.
//! Start at: inlet.rt, `Inlet::next_line`; specs/Incoming.antt; connection.rt.
#![tactic(auto)]

mod connection;
mod inlet;

pub use connection::Connection;
pub use inlet::{Inlet, NextByte, NextLine};
