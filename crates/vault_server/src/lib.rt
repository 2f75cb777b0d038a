//! A server over TCP: few threads serve all connections by the steps of their conversations, and commit what these staged.
//!
//! Promises: if a server ends well, its vault came from the one that it was given by acts of calls alone, each allowed where it stood. Its
//! history grew by exactly the commands that its workers staged, and it acknowledged as many as they counted; it is broken, or all of it is
//! durable (`run_server`). Of each connection it gives a report, which contracts alone see (`Reports`): from its first byte on, each line that
//! its wire gave has its answer, in order; each receipt among these is an acknowledged entry of the history that led to the vault that is
//! given back; its socket took just these answers' texts; the session that they leave open has its leave in that history, or the vault is
//! broken. What was counted is what the reports say. For all else here only safety is proved.
//! Stands on: vault_sessions, tcp_door, flusher_pace, and what they stand on. Must not know: what a command does, or what a line says.
//!
//! Invariants: `Account`: each report is so, by what was seen of the vault for it. `Place`, `Returned`: the shares counted what the reports say.
//! `Served`: its dialogue began with the first byte of its connection.
//!
//! Only tested: that each accepted connection is served or told that there is no place; a round over TCP; two sessions share a frame, and a second one is answered while the first waits; a client that reads
//! late gets all its replies, and so does one beside hostile clients; a client that takes too long is ended, and one that waits too
//! long for a place is told so, and ended; a `wait` is answered once its claim is granted, and which ones are answered at once; an
//! accept fault, and that it is reported at once; another protocol's first line; more commands than a history keeps; `run_server` with
//! each of its allocations refused.
//! Neither: that anybody is served or woken; fairness, time; what the channel of connections delivers, and what a TCP peer gets.
//! Start at: server.rt, event_loop.rt (one thread), slot.rt and served.rt (one connection), commits.rt (which thread commits and when).
#![tactic(auto)]

mod account;
mod commits;
mod event_loop;
mod place;
mod reports;
mod returned;
mod served;
mod server;
mod slot;

pub use reports::Reports;
pub use server::{Full, ServerError, ServerOptions, run_server, run_server_on};
pub use slot::Patience;
