//! The bytes of a vault's two files: the grammar of a file, its head, its snapshot and its frames, and the readers and writers of the
//! snapshot's fields.
//!
//! Promises: places with the versions of parts, and claims with their drafts, are read exactly from their spelling in a version of the
//! files. Bytes that don't begin with such a spelling are refused as not well formed, unless memory runs out (`read_places`,
//! `read_claims`). If the bytes end within a place, the whole places before it are read (`read_places_on`). Each writer adds the one
//! spelling of its field (`fields`). Four bytes give a version exactly if they are its number (`version_of`). Each durable vault has at
//! most one spelling in each version of the files (`laws`).
//! Stands on: vault_state, vault_model, vault_journal, design_tree, part_versions. Must not know: devices, books, commits, which file is active.
//!
//! Only tested: that memory is allocated only where a field needs it.
//! Start at: docs/FORMAT.md; specs/Files.antt, the two files; specs/Snapshot.antt, the spelling of a vault; places.rt and claims.rt.
#![tactic(auto)]

mod claims;
mod error;
pub mod fields;
pub mod laws;
mod places;
mod sizes;
mod version;

pub use claims::read_claims;
pub use error::SnapshotError;
pub use places::{Places, read_places, read_places_on};
pub use sizes::{FRAME_EXTRA, HEADER, MAX_RECORDS, MAX_SNAPSHOT};
pub use version::{FileVersion, version_of};
