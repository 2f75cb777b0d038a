//! Why a script stops.

ghost use Rattle.std.specs.Prelude.{◌≡◌};
ghost use Rattle.vault_protocol.specs.declared.error.ScriptError.TheVariants.{NoMemory};

use std::alloc::AllocError;
use thiserror::Error;

/// Why a script stops.
#[derive(Clone, Copy, Debug, PartialEq, Eq, Error)]
pub enum ScriptError {
    /// The reader failed, or didn't come to its end in `MAX_READS` calls. Nothing is written.
    #[error("read fault")]
    Read,
    /// The writer failed, or took no byte.
    #[error("write fault")]
    Write,
    /// The script has more bytes than a script may have. Nothing is written.
    #[error("script too long")]
    TooLong,
    /// Out of memory: an allocation was refused.
    #[error("want of memory")]
    NoMemory,
}

impl From<vault_model::NoMemory> for ScriptError {
    ghost from_gives = { λ _ e. e ≡ NoMemory };

    fn from(_error: vault_model::NoMemory) -> ScriptError {
        ScriptError::NoMemory
    }
}

impl From<AllocError> for ScriptError {
    ghost from_gives = { λ _ e. e ≡ NoMemory };

    fn from(_error: AllocError) -> ScriptError {
        ScriptError::NoMemory
    }
}
