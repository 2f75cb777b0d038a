//! Reads what stands behind the head of a file: its snapshot and its frames.
ghost use Rattle.std.specs.Prelude.{◌≡◌, ◌≤◌, ℕ, IfOk, IfErr, IsTrue, length, OnOk};
ghost use Rattle.vault_format.specs.declared.version.FileVersion.{FileVersion};
ghost use Rattle.vault_store.specs.declared.body.BodyError.TheVariants.{Device as DeviceFailed, NoMemory as Wanted};
ghost use Rattle.vault_store.specs.declared.body.ReadError.TheVariants as errors;
ghost use Rattle.vault_store.specs.Calls.{HasCause, IsQuiet};
ghost use Rattle.vault_format.specs.Files.{header, HasHead};
ghost use Rattle.vault_store.specs.Parts.{IsBody};
ghost use Rattle.vault_store.specs.Read.{AreReads, IsWhy, IsBaseRead, IsBaseFault, AreContents, IsFaultBehindHead};

use crate::journal::{number_in, read_frames};
use crate::snapshot::read_book;
use std::alloc::Allocator;
use thiserror::Error;
use vault_checkout::Book;
use vault_device::{Device, Fault};
use vault_format::{FileVersion, HEADER, MAX_SNAPSHOT, version_of};

/// What stands behind the head of a file.
#[derive(Drop)]
pub enum Body<A: Allocator> {
    /// The vault, how many frames the file has, and where its tail gate stands.
    Whole(Book<A>, u64, u64),
    /// The offset of the first fault.
    Damaged(u64),
}

/// Why a body wasn't read.
#[derive(Clone, Copy, Debug, PartialEq, Eq, Error)]
pub enum BodyError {
    #[error("device fault")]
    Device,
    #[error("want of memory")]
    NoMemory,
}

/// The first fault of a file behind its head, or why it wasn't read.
#[derive(Clone, Copy, Debug, PartialEq, Eq)]
pub enum ReadError {
    Damaged(u64),
    Device,
    NoMemory,
}

impl From<Fault> for ReadError {
    ghost from_gives = { λ _ e. e ≡ errors.Device };

    fn from(_fault: Fault) -> ReadError {
        ReadError::Device
    }
}

/// The snapshot of a file.
#[derive(Drop)]
pub struct Base<A: Allocator> {
    /// The version that the head gives.
    pub version: FileVersion,
    /// The vault that the snapshot is of.
    pub book: Book<A>,
    /// Where the frames begin behind it.
    pub end: u64,
}

// Behind the head: the snapshot, the frames, and the tail gate. The head has at 8 the version, which says how the snapshot is spelled,
// and at 20 the length n of the snapshot.
//
//   offset  bytes
//       20      4  n
//       24      n  the snapshot
//   24 + n         frames, one behind another, and then a gate byte that isn't 1
//
// Reads the snapshot of a file.
fn read_base<D: Device, A: Allocator + Copy>(
    alloc: A,
    device: &mut D,
    len: u64,
) -> Result<Base<A>, ReadError>
    requires long { header ≤ len }
    requires len { IsTrue (D.disk device.old).honest → len ≡ length (D.disk device.old).shown }
    ensures reads { AreReads (D.disk device.old) (D.disk device.new) }
    ensures base { IfOk result (λ base. IsBaseRead (D.disk device.old) len base.version base.book base.end) }
    ensures refused { IfErr result (λ why. IsWhy (D.disk device.old) (D.disk device.new) (IsBaseFault (D.disk device.old).shown) why) }
    ensures quiet { OnOk result (IsQuiet (D.disk device.old) (D.disk device.new)) }
{
    let mut bytes = [0; 16];
    device.read_at(8, &mut bytes)?;
    let Some(version) = version_of(&bytes[..4]) else {
        return Err(ReadError::Damaged(8));
    };
    let length = number_in(&[bytes[12], bytes[13], bytes[14], bytes[15]]);
    if len - HEADER <= u64::from(length) {
        return Err(ReadError::Damaged(20));
    }
    // No vault's snapshot is so long, so no memory is requested for it.
    if length > MAX_SNAPSHOT {
        return Err(ReadError::Damaged(HEADER));
    }
    match read_book(alloc, version, device, length)? {
        Some(book) => Ok(Base {
            version,
            book,
            end: HEADER + u64::from(length),
        }),
        None => Err(ReadError::Damaged(HEADER)),
    }
}

/// Reads the snapshot of a file. The head must be right, as for `read_body`, and the cost is that of `read_body` without the frames.
pub fn read_first_base<D: Device, A: Allocator + Copy>(
    alloc: A,
    device: &mut D,
) -> Result<Base<A>, ReadError>
    ensures reads { AreReads (D.disk device.old) (D.disk device.new) }
    ensures base { IsTrue (D.disk device.old).honest
        → IfOk result (λ base. IsBaseRead (D.disk device.old) (length (D.disk device.old).shown) base.version base.book base.end) }
    ensures refused { IfErr result (λ why. IsWhy (D.disk device.old) (D.disk device.new) (IsBaseFault (D.disk device.old).shown) why) }
    ensures quiet { OnOk result (IsQuiet (D.disk device.old) (D.disk device.new)) }
{
    let len = device.len()?;
    if len < HEADER {
        return Err(ReadError::Damaged(20));
    }
    read_base(alloc, device, len)
}

/// What stands in a file behind its head.
#[derive(Drop)]
pub struct Contents<A: Allocator> {
    /// The version that the head gives.
    pub version: FileVersion,
    /// The vault that the snapshot and the frames lead to.
    pub book: Book<A>,
    /// How many frames there are.
    pub frames: u64,
    /// Where the tail gate stands.
    pub tail: u64,
    /// How many bytes the frames have.
    pub journal_length: u64,
}

/// Reads what stands in a file behind its head, as `read_body` does, and says more of it.
pub fn read_contents<D: Device, A: Allocator + Copy>(
    alloc: A,
    device: &mut D,
) -> Result<Contents<A>, ReadError>
    ensures reads { AreReads (D.disk device.old) (D.disk device.new) }
    ensures contents { IfOk result
        (λ contents. AreContents (D.disk device.old) contents.version contents.book contents.frames contents.tail
        contents.journal_length) }
    ensures refused { IfErr result
        (λ why. IsWhy (D.disk device.old) (D.disk device.new) (IsFaultBehindHead (D.disk device.old).shown) why) }
    ensures quiet { OnOk result (IsQuiet (D.disk device.old) (D.disk device.new)) }
{
    let len = device.len()?;
    if len < HEADER {
        return Err(ReadError::Damaged(20));
    }
    let Base {
        version,
        mut book,
        end,
    } = read_base(alloc, device, len)?;
    match read_frames(alloc, device, len, end, &mut book) {
        Ok(frames) => Ok(Contents {
            version,
            book,
            frames: frames.count,
            tail: frames.tail,
            journal_length: frames.tail - end,
        }),
        Err(why) => {
            drop(book);
            Err(why)
        }
    }
}

/// Reads a file behind its head. The head must be right; otherwise the result isn't specified. It makes reads only.
///
/// Up to the tail gate it makes two device calls, one for the snapshot and three for a frame. For a snapshot of more than 2 MiB it
/// makes one for each piece, and two more; a snapshot that can't be read in pieces is then read whole. Beside the book it takes memory
/// for the bytes of the snapshot, or of a piece and of the check-outs, and for the bytes and the effects of one frame at a time.
pub fn read_body<D: Device, A: Allocator + Copy>(
    alloc: A,
    device: &mut D,
) -> Result<Body<A>, BodyError>
    ensures reads { AreReads (D.disk device.old) (D.disk device.new) }
    ensures body { IsTrue (D.disk device.old).honest
        → IfOk result (λ body. (version : FileVersion) (generation : ℕ) → HasHead version generation (D.disk device.old).shown
        → IsBody version generation (D.disk device.old).shown body) }
    ensures cause { IfErr result (λ why. why ≡ DeviceFailed → HasCause (D.disk device.old) (D.disk device.new)) }
    ensures memory { IfErr result (λ why. why ≡ Wanted → IsQuiet (D.disk device.old) (D.disk device.new)) }
{
    match read_contents(alloc, device) {
        Ok(contents) => {
            let Contents {
                version: _,
                book,
                frames,
                tail,
                journal_length: _,
            } = contents;
            Ok(Body::Whole(book, frames, tail))
        }
        Err(ReadError::Damaged(at)) => Ok(Body::Damaged(at)),
        Err(ReadError::Device) => Err(BodyError::Device),
        Err(ReadError::NoMemory) => Err(BodyError::NoMemory),
    }
}
