//! One vault under one lock; what a conversation asks of it, line by line; and a flusher that commits what was staged.
//!
//! Promises: whenever the lock is free the vault keeps its laws, the tallies count what was staged and acknowledged, and the vault came
//! from the one that was put there by acts of its calls alone, which are a run (`laws::acts_are_a_run`). A line is heard, staged and
//! answered so that a conversation stands as `StandsAt` says before and after (`Clerk`), and an answer is written as `TellsOn` says
//! (`tell`). A receipt is of an entry that the vault acknowledged, and what a conversation saw (`Sight`) shows that of the vault that is
//! given back (`gather`, `laws::receipts_stand_in_the_history`). An answer that speaks of the vault's state was made from a vault in that state (`Cause`, `NotStaged`). The shares of all
//! workers sum to what the history grew by (`gather`). A pump, the start of a snapshot and the retiring of an entry are one act of the
//! vault each, and change no tally (`Desk`). No more conversations wait for a claim than may. A flusher ends because its vault is broken, or
//! because it was closed and all is durable (`run_flusher`). For `Flusher`, `Clerk::{forget, stops_waiting}` and `Shared::{close, moves,
//! settlings, wait}` only safety is proved.
//! Stands on: group_commit, flusher_pace, vault_lines, line_inlet, and what they stand on. Must not know: what a command does, what a
//! file holds, what a socket is, which step of a conversation comes next.
//!
//! Invariants:
//! 1. `Desk`: the staged tally is the length of the history.
//! 2. `Desk`: the told tally is the number of acknowledged entries.
//! 3. `Desk`: the opening share counts what was there when the desk was opened, and never changes.
//! 4. `Desk`: the vault came from the one that the desk was opened with by acts of its calls alone.
//! 5. `Desk`: on the way it went through all that was seen of it.
//! 6. `Shared`: each ledger has one part for each worker, and one for the opening.
//! 7. `Share`: it has one part of each ledger, whose amount is the share's count.
//! 8. `Sight`: it is of the past that its vault's tallies name, and has as many moments as it counts.
//! 9. `Conversation`: the buffer has room for the longest line.
//!
//! Only tested: the flusher waits for a client that comes back, goes on without one that doesn't, and runs until the desk is closed; it
//! begins a snapshot where one is wanted; if memory for that is refused, it commits and begins the snapshot then; it makes one pump per
//! lock acquisition; a `wait` is staged once its claim is granted or gone; `Shared::new` with each of its allocations refused.
//! Neither: that anybody is served or woken; fairness, time; whom a name belongs to.
//! Start at: desk.rt (what is done under the lock), clerk.rt (what a conversation asks for), flusher.rt (when, by `flusher_pace`).
#![tactic(auto)]

mod answers;
mod cause;
mod clerk;
mod conversation;
mod desk;
mod flusher;
mod gate;
mod last_flush;
pub mod laws;
mod looked;
mod moment;
mod report;
mod shared;
mod sight;
mod tally;
mod turn;
mod waits;

pub use answers::Answers;
pub use cause::{Cause, NotStaged};
pub use clerk::Clerk;
pub use conversation::Conversation;
pub use desk::{Desk, Due};
pub use flusher::{Flushed, Flusher, run_flusher};
pub use gate::{Gate, OpenGate, Point};
pub use last_flush::flush;
pub use report::{Ended, Out};
pub use shared::{Shared, gather};
pub use sight::{NewPast, Sight, all_seen};
pub use tally::{Share, Tally, Totals};
pub use turn::{Telling, Turn, tell};
pub use waits::PendingWait;
