//! What the program does to the two files of a vault before anything serves it: `create`, `check`, `inspect`, and how they are opened. And how
//! each part of the program reports what failed, also the server.
//!
//! Promises: it is safe and total. Each subcommand is one call of a crate beneath. A `WatchedFile` hands on each byte, offset and sync of
//! any honest raw file. `open_pair` gives the files of one vault: a `Pair` is never of two vaults, where no call failed.
//! Stands on: vault_device, vault_store, vault_pairing, vault_inspector. Must not call: shared vaults, scripts, the server. Must not know:
//! anything that a contract should say; it is kept thin.
//! Only tested, by `tools/try-program`: statuses, texts and order of failures, why something failed, `create` and
//! `inspect` on real files and beside their locks, closed streams.
//! Neither: what standard input and output are; that a real file is honest.
//! Start at: the file of a subcommand; files.rt (a file that reports failed calls), teller.rt (what it reports to).
#![tactic(auto)]

mod checking;
mod creating;
mod failure;
mod files;
mod inspecting;
mod pair;
mod reason;
mod standard;
mod streams;
mod survey;
mod teller;
mod told;
mod two_vaults;

pub use checking::check;
pub use creating::create;
pub use failure::Failure;
pub use files::{WatchedDevice, WatchedFile, open_pair};
pub use inspecting::inspect;
pub use pair::Pair;
pub use reason::{Action, Cause, Reason, Subject};
pub use standard::{Input, Output, buffered_output, print_line};
pub use streams::{Streams, take_streams};
pub use survey::{Survey, take_survey};
pub use teller::Teller;
