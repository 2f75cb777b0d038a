//! Why the program ends with status 1.

use std::alloc::AllocError;
use thiserror::Error;
use vault_inspector::{InspectError, PrintError};
use vault_store::{CreateError, File, OpenError};

/// What went wrong; its text is one line.
#[derive(Clone, Copy, Debug, Error)]
pub enum Failure {
    #[error(transparent)]
    Create(#[from] CreateError),
    #[error(transparent)]
    Inspect(#[from] InspectError),
    #[error(transparent)]
    Print(#[from] PrintError),
    /// Another program has a file of the vault, or one file was given twice.
    #[error("vault in use")]
    InUse,
    /// Neither file is open.
    #[error("no vault")]
    NoVault,
    /// The first fault stands in the first file, at this offset.
    #[error("file a damaged at {0}")]
    FirstDamaged(u64),
    /// The first fault stands in the second file, at this offset.
    #[error("file b damaged at {0}")]
    SecondDamaged(u64),
    /// The older file belongs to another vault than the newer one.
    #[error("files of two vaults")]
    TwoVaults,
    /// A file can't be opened, made, read or written.
    #[error("device fault")]
    Device,
    /// A file of the served vault failed. The server said so at once.
    #[error("device fault")]
    Broken,
    /// The system lets the program have fewer descriptors than its workers need.
    #[error("want of descriptors: {needed} are needed, and the limit is {limit}")]
    Descriptors { needed: u64, limit: u64 },
    #[error("want of memory")]
    NoMemory,
    /// The address can't be bound.
    #[error("read fault")]
    Bind,
    /// No more connections can be accepted, for good. The server said so at once.
    #[error("read fault")]
    Accept,
    /// Standard input failed, or had no end in as many calls as a script may take.
    #[error("read fault")]
    Read,
    /// Standard output failed.
    #[error("write fault")]
    Write,
    /// The script has more bytes than a script may have.
    #[error("script too long")]
    TooLong,
}

impl From<AllocError> for Failure {
    fn from(_error: AllocError) -> Failure {
        Failure::NoMemory
    }
}

impl From<OpenError> for Failure {
    fn from(error: OpenError) -> Failure {
        match error {
            OpenError::NoVault => Failure::NoVault,
            OpenError::Damaged {
                file: File::First,
                offset,
            } => Failure::FirstDamaged(offset),
            OpenError::Damaged {
                file: File::Second,
                offset,
            } => Failure::SecondDamaged(offset),
            OpenError::Device => Failure::Device,
            OpenError::NoMemory => Failure::NoMemory,
        }
    }
}
