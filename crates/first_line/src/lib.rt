//! Whether the first line of a connection is of another protocol, as its bytes come.
//!
//! Promises: bytes are another protocol's exactly if the first is TLS's, or ` HTTP/` stands in their first line, however they are cut
//! into pieces (`FirstLine::take_own`, `FirstLine::is_foreign`). Before the first byte that shows it, all bytes are the connection's own (`laws`).
//! Stands on: nothing. Must not know: what a line of the protocol says, conversations, sockets.
//! Start at: `FirstLine::take_own`; specs/Foreign.antt, specs/Own.antt.
#![tactic(auto)]

pub mod laws;
mod line;

pub use line::FirstLine;
