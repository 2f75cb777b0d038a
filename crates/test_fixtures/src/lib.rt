//! What tests of conversations and of the server begin with: new vaults, readers and writers of bytes, and a wait that ends.
//!
//! Promises: nothing.
//! Stands on: group_commit, test_memory, and what they stand on. It is a crate of its own, since a crate with tests is proved twice, and
//! tests of the server needn't wait for those of conversations then.
//! Start at: creation.rt.
#![tactic(auto)]

mod creation;
mod devices;
mod turns;

pub use creation::{Begun, CREATION, CREATION_BESIDE, created};
pub use devices::{Devices, Hearer, Piece, Sender, is_text};
pub use turns::{TURNS, is_reached_within};
