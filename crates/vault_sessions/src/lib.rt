//! Conversations over connections, by steps: a `Dialogue` owns its connection, and takes one step after another over one vault under one
//! lock.
//!
//! Promises: once a dialogue has ended, each line of its connection has its answer at its place, a receipt shows the line's command, and
//! what is written is the texts of the answers (`Dialogue::finish`). What it saw of the vault shows that the entry of each receipt was
//! acknowledged. Each step keeps this, whoever takes it, with no premise on the caller.
//! It is over only once the session that its answers leave open has its last leave, or can't get one (`LastLeave`), and what it saw of the
//! vault shows the one or the other. What the next step is
//! for is said, and how each step changes that (`Dialogue::awaits`). For `Dialogue::is_within_line` only safety is proved.
//! Of the vault, its flusher and its shares vault_desk says what is promised, and all that a server needs of them is handed on here.
//! Stands on: vault_desk, and what it stands on. Must not know: what a command does, what a file holds, what a socket is.
//!
//! Invariant: `Dialogue`: what it heard, the session it speaks for, what it wrote and what it counted since it began, by what it does next.
//!
//! Only tested: two sessions share a frame; a second one is answered while the first waits; a dialogue with each of its allocations
//! refused.
//! Start at: dialogue.rt.
#![tactic(auto)]

mod dialogue;
mod last_leave;
mod next;
mod worker;

pub use dialogue::{Awaits, Dialogue, Step};
pub use last_leave::LastLeave;
pub use next::Finished;
pub use vault_desk::{
    Answers, Cause, Desk, Due, Ended, Flushed, Flusher, Gate, NewPast, OpenGate, Out, Point, Share,
    Shared, Sight, Tally, Totals, all_seen, flush, gather, laws, run_flusher,
};
pub use worker::Worker;
