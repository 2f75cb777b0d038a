//! Whether two files would be served, and what they are in words.
ghost use Rattle.std.specs.Prelude.{◌≡◌, Some};
ghost use Rattle.vault_inspector.specs.Checks.{beside_closed, first_fault, open_sentence, second_fault, sentence_of, why_of};

use crate::FileState;
use std::fmt;
use vault_store::{File, OpenError};

// The length of a file's head. A fault at this offset or after it stands behind the head.
const HEAD: u64 = 20;

// Which fault of two files is reported, where the first file has one at this offset.
fn first_fault(first: u64, second: FileState) -> OpenError
    ensures { result ≡ first_fault first second }
{
    match second {
        FileState::Damaged { offset } if first >= HEAD && offset < HEAD => OpenError::Damaged {
            file: File::Second,
            offset,
        },
        _ => OpenError::Damaged {
            file: File::First,
            offset: first,
        },
    }
}

// The fault of the second file, where the first has none.
fn second_fault(second: FileState) -> Option<OpenError>
    ensures { result ≡ second_fault second }
{
    match second {
        FileState::Damaged { offset } => Some(OpenError::Damaged {
            file: File::Second,
            offset,
        }),
        FileState::Closed | FileState::Open { .. } | FileState::Older { .. } => None,
    }
}

// Why two files aren't opened, where the first is closed.
fn beside_closed(second: FileState) -> Option<OpenError>
    ensures { result ≡ beside_closed second }
{
    match second {
        FileState::Closed => Some(OpenError::NoVault),
        FileState::Damaged { .. } | FileState::Open { .. } | FileState::Older { .. } => {
            second_fault(second)
        }
    }
}

/// Why two files of these states aren't opened, or `None` if they are. A fault in a head comes before one behind a head.
pub fn why_of(first: FileState, second: FileState) -> Option<OpenError>
    ensures { result ≡ why_of first second }
{
    match first {
        FileState::Damaged { offset } => Some(first_fault(offset, second)),
        FileState::Closed => beside_closed(second),
        FileState::Open { .. } | FileState::Older { .. } => second_fault(second),
    }
}

// What an active file is, in words.
#[derive(Clone, Copy)]
struct ActiveText {
    generation: u64,
    frames: u64,
    tail: u64,
}

impl fmt::Display for ActiveText {
    ghost output = { λ text. Some (open_sentence text.generation text.frames text.tail) };

    fn fmt<W: fmt::Write>(&self, f: &mut fmt::Formatter<W>) -> fmt::Result {
        let ActiveText {
            generation,
            frames,
            tail,
        } = *self;
        write!(
            f,
            "is the active file: generation {generation}, {frames} commits behind its snapshot, up to byte {tail}"
        )
    }
}

impl fmt::Display for FileState {
    ghost output = { λ state. Some (sentence_of state) };

    fn fmt<W: fmt::Write>(&self, f: &mut fmt::Formatter<W>) -> fmt::Result {
        match *self {
            FileState::Closed => write!(f, "is closed: nothing in it counts"),
            FileState::Open {
                generation,
                frames,
                tail,
                version: _,
            } => {
                let active = ActiveText {
                    generation,
                    frames,
                    tail,
                };
                write!(f, "{active}")
            }
            FileState::Older { generation } => write!(
                f,
                "is the file before: generation {generation}; the next snapshot is written over it"
            ),
            FileState::Damaged { offset } => write!(f, "is damaged at {offset}"),
        }
    }
}
