//! Reading two files for a report.
ghost use Rattle.std.specs.Prelude.{◌≡◌, ◌⊎◌, IsTrue, IfOk, IfErr};
ghost use Rattle.vault_store.specs.Calls.{HasCause, IsQuiet, AreQuiet};
ghost use Rattle.vault_format.specs.Files.{HasHead};
ghost use Rattle.vault_store.specs.Read.{AreReads};
ghost use Rattle.vault_inspector.specs.Found.{IsActiveRead, active_among, beside, found, head_state, right_in};
ghost use Rattle.vault_inspector.specs.States.{IsFirstState, IsSecondState, IsVaultFound};
ghost use Rattle.vault_inspector.specs.declared.inspecting.InspectError.TheVariants.{Device as DeviceFailed, NoMemory as Wanted};

use crate::{FileState, Report};
use std::alloc::Allocator;
use thiserror::Error;
use vault_checkout::Book;
use vault_device::{Device, Fault};
use vault_store::{Body, BodyError, FileVersion, Head, read_body, read_head};

/// Why two files were not inspected.
#[derive(Clone, Copy, Debug, PartialEq, Eq, Error)]
pub enum InspectError {
    #[error("device fault")]
    Device,
    #[error("want of memory")]
    NoMemory,
}

impl From<Fault> for InspectError {
    ghost from_gives = { λ _ e. e ≡ DeviceFailed };

    fn from(_fault: Fault) -> InspectError {
        InspectError::Device
    }
}

impl From<BodyError> for InspectError {
    ghost use Rattle.vault_inspector.specs.Found.{told};

    ghost from_gives = { λ error e. e ≡ told error };

    fn from(error: BodyError) -> InspectError {
        match error {
            BodyError::Device => InspectError::Device,
            BodyError::NoMemory => InspectError::NoMemory,
        }
    }
}

/// What a right head says.
#[derive(Clone, Copy)]
struct Right {
    version: FileVersion,
    generation: u64,
}

/// The file that is read as the active one, with what its head says.
#[derive(Clone, Copy)]
enum Active {
    Neither,
    First(Right),
    Second(Right),
}

/// What is read of the active file.
#[derive(Drop)]
struct Read<A: Allocator> {
    state: FileState,
    book: Option<Book<A>>,
}

// What a head says, where it is right.
fn right_in(head: Head) -> Option<Right>
    ensures { result ≡ right_in head }
{
    match head {
        Head::Open {
            version,
            generation,
        } => Some(Right {
            version,
            generation,
        }),
        Head::Closed | Head::Damaged(_) => None,
    }
}

// The file of the greater generation; the first where both are equal.
fn active_among(first: Option<Right>, second: Option<Right>) -> Active
    ensures { result ≡ active_among first second }
{
    match (first, second) {
        (Some(own), Some(other)) if own.generation < other.generation => Active::Second(other),
        (Some(own), _) => Active::First(own),
        (None, Some(other)) => Active::Second(other),
        (None, None) => Active::Neither,
    }
}

// The state of a file by its head alone, where the head isn't right.
fn head_state(head: Head) -> FileState
    ensures { result ≡ head_state head }
{
    match head {
        Head::Damaged(offset) => FileState::Damaged { offset },
        Head::Closed | Head::Open { .. } => FileState::Closed,
    }
}

// The state of a file by its head, where the other file is the active one and has this generation.
fn beside(head: Head, active: u64) -> FileState
    ensures { result ≡ beside head active }
{
    match head {
        Head::Open {
            version: _,
            generation,
        } if generation == active => FileState::Damaged { offset: 12 },
        Head::Open {
            version: _,
            generation,
        } => FileState::Older { generation },
        Head::Closed | Head::Damaged(_) => head_state(head),
    }
}

// The book of the active file, or none where the other file is damaged.
fn found<A: Allocator>(book: Option<Book<A>>, other: FileState) -> Option<Book<A>>
    ensures { result ≡ found book other }
{
    match other {
        FileState::Damaged { offset: _ } => None,
        _ => book,
    }
}

// Reads the active file, whose head says this.
fn read_active<D: Device, A: Allocator + Copy>(
    alloc: A,
    device: &mut D,
    right: Right,
) -> Result<Read<A>, InspectError>
    ensures reads { AreReads (D.disk device.old) (D.disk device.new) }
    ensures read { IsTrue (D.disk device.old).honest → HasHead right.version right.generation (D.disk device.old).shown
        → IfOk result (λ read. IsActiveRead right (D.disk device.old).shown read.state read.book) }
    ensures cause { IfErr result (λ why. why ≡ DeviceFailed → HasCause (D.disk device.old) (D.disk device.new)) }
    ensures memory { IfErr result (λ why. why ≡ Wanted → IsQuiet (D.disk device.old) (D.disk device.new)) }
{
    match read_body(alloc, device)? {
        Body::Whole(book, frames, tail) => Ok(Read {
            state: FileState::Open {
                generation: right.generation,
                frames,
                tail,
                version: right.version,
            },
            book: Some(book),
        }),
        Body::Damaged(offset) => Ok(Read {
            state: FileState::Damaged { offset },
            book: None,
        }),
    }
}

/// Reports on the two files of a vault. It only reads, and changes neither device. It reads the head of each file, and the whole
/// active file, where there is one. In addition to the book it takes memory for the bytes of a snapshot, and for the bytes and the
/// effects of one frame at a time.
pub fn inspect<D: Device, A: Allocator + Copy>(
    alloc: A,
    first: &mut D,
    second: &mut D,
) -> Result<Report<A>, InspectError>
    ensures first_unchanged { AreReads (D.disk first.old) (D.disk first.new) }
    ensures second_unchanged { AreReads (D.disk second.old) (D.disk second.new) }
    ensures first { IsTrue (D.disk first.old).honest → IsTrue (D.disk second.old).honest
        → IfOk result (λ report. IsFirstState (D.disk first.old).shown (D.disk second.old).shown report.first) }
    ensures second { IsTrue (D.disk first.old).honest → IsTrue (D.disk second.old).honest
        → IfOk result (λ report. IsSecondState (D.disk first.old).shown (D.disk second.old).shown report.second) }
    ensures vault { IsTrue (D.disk first.old).honest → IsTrue (D.disk second.old).honest
        → IfOk result (λ report. IsVaultFound (D.disk first.old).shown (D.disk second.old).shown report.book) }
    ensures cause { IfErr result
        (λ why. why ≡ DeviceFailed → HasCause (D.disk first.old) (D.disk first.new) ⊎ HasCause (D.disk second.old) (D.disk second.new)) }
    ensures memory { IfErr result
        (λ why. why ≡ Wanted → AreQuiet (D.disk first.old) (D.disk second.old) (D.disk first.new) (D.disk second.new)) }
{
    let a = read_head(first)?;
    let b = read_head(second)?;
    match active_among(right_in(a), right_in(b)) {
        Active::First(right) => {
            let Read { state, book } = read_active(alloc, first, right)?;
            let other = beside(b, right.generation);
            Ok(Report {
                first: state,
                second: other,
                book: found(book, other),
            })
        }
        Active::Second(right) => {
            let Read { state, book } = read_active(alloc, second, right)?;
            let other = beside(a, right.generation);
            Ok(Report {
                first: other,
                second: state,
                book: found(book, other),
            })
        }
        Active::Neither => Ok(Report {
            first: head_state(a),
            second: head_state(b),
            book: None,
        }),
    }
}
