//! A vault in two files: created, committed in four steps, written anew into the other file as a snapshot, and read again after a
//! crash.
//!
//! Promises: after each step of a commit or a snapshot, and at each moment inside it, a crash leaves files that stand for the durable
//! (settled) vault. While a gate is being opened, they stand for that or for the sealed one (`advance`). A snapshot is of the book
//! with all that was noted (`start_snapshot`). A creation, also one that crashed, leaves the new vault or none (`create`). Two files
//! stand for at most one vault, and each durable vault has at most one spelling in each version of the files (`laws`). Both versions
//! are read, and only the second is written. Opening gives that vault, or reports the first thing that is wrong, with its file and
//! offset. It writes nothing (`open`; for one file alone `read_head` and `read_body`).
//! The files of one vault are never what `vault_pairing` reports as those of two: those of a creation are of one vault, each call keeps
//! them so, and whatever a crash leaves of them, also inside a call, isn't reported (`advance`, `laws`).
//! Stands on: vault_state, vault_model, vault_device, vault_journal, vault_format, design_tree, part_versions, vault_checkout. Must not know:
//! commands, replies, sessions, tickets, how many entries there are.
//!
//! Invariants, of `Store`:
//! 1. While a snapshot is under way, its bytes are there, no more of them are left to write, and there is a next generation.
//! 2. The records of the frame under way fit into a frame.
//! 3. If records wait or a frame is under way, the tail gate stands at most one frame past 2^62.
//! 4. The frames have at most as many bytes as stand before the tail gate.
//! 5. A snapshot's bytes are fewer than 2^33.
//! 6. If the active file is honest, it holds on the disk what the phase says: the front up to the tail gate, and the frame under way.
//! 7. The same for the spare file. While nothing of a snapshot is written, it is durable, and its head gate is closed if that is
//!    known. Otherwise it holds, behind that gate, what is written of the snapshot under way.
//!
//! Only tested: two real files; commits and a creation with each kind of crash at each device call, and a snapshot with a crash
//! between its calls; speed and memory of opening.
//! Start at: docs/FORMAT.md, specs/Phases.antt (the table), commit.rt, renewal.rt; for reading vault_format's specs/Files.antt
//! and opening.rt.
#![tactic(auto)]

mod body;
mod calls;
mod commit;
mod creation;
mod front;
mod journal;
pub mod laws;
mod opening;
mod phase;
mod refused;
mod renewal;
mod snapshot;
mod starting;
mod store;

pub use body::{
    Base, Body, BodyError, Contents, ReadError, read_body, read_contents, read_first_base,
};
pub use calls::settle_both;
pub use creation::CreateError;
pub use front::{Head, read_head};
pub use opening::{File, OpenError};
pub use phase::{Advanced, Phase};
pub use refused::Refused;
pub use starting::Started;
pub use store::Store;
pub use vault_format::FileVersion;
