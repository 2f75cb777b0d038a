//! Why bytes are no snapshot.
ghost use Rattle.std.specs.Prelude.{◌≡◌};
ghost use Rattle.vault_format.specs.declared.error.SnapshotError.TheVariants as errors;

use std::alloc::{AllocError, AllocFailed};
use vault_model::NoMemory;

/// Why bytes were not read as a snapshot.
#[derive(Clone, Copy, Debug, PartialEq, Eq)]
pub enum SnapshotError {
    NotWellFormed,
    NoMemory,
}

impl From<AllocError> for SnapshotError {
    ghost from_gives = { λ _ e. e ≡ errors.NoMemory };

    fn from(_error: AllocError) -> SnapshotError {
        SnapshotError::NoMemory
    }
}

impl From<NoMemory> for SnapshotError {
    ghost from_gives = { λ _ e. e ≡ errors.NoMemory };

    fn from(_error: NoMemory) -> SnapshotError {
        SnapshotError::NoMemory
    }
}

impl<T: Drop> From<AllocFailed<T>> for SnapshotError {
    ghost from_gives = { λ _ e. e ≡ errors.NoMemory };

    fn from(_error: AllocFailed<T>) -> SnapshotError {
        SnapshotError::NoMemory
    }
}
