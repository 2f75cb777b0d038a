//! Reads the snapshot of a vault.
ghost use Rattle.std.specs.Prelude.{◌≡◌, ◌≢◌, ◌+◌, ◌≤◌, Err, IfOk, IfErr, IsTrue, length, OnOk};
ghost use Rattle.vault_state.specs.Vault.{Vault};
ghost use Rattle.vault_format.specs.declared.error.SnapshotError.TheVariants as errors;
ghost use Rattle.vault_format.specs.Files.{header};
ghost use Rattle.vault_format.specs.Snapshot.{spelling_of, HasSpelling};
ghost use Rattle.vault_store.specs.Calls.{IsQuiet};
ghost use Rattle.vault_store.specs.Front.{IsSnapshotOrNone};
ghost use Rattle.vault_store.specs.Read.{AreReads, IsWhy};

mod file;
mod pieces;
mod spelling;

use crate::body::ReadError;
use crate::journal::read_bytes;
pub use file::spell_file;
use pieces::{PIECE, read_in_pieces};
use std::alloc::Allocator;
use vault_checkout::{Book, FromPartsError};
use vault_device::Device;
use vault_format::{FileVersion, HEADER, SnapshotError, read_claims, read_places};
use vault_journal::u32_at;

// A snapshot: the last number given to a check-out in 4 bytes, the places and the check-outs, as vault_format has them, and no byte more.

// The book whose snapshot these bytes are, in the spelling of this version.
//
// The work grows with the bytes that are read. Beside the book it takes memory for the list of claims, and for one version or draft
// at a time.
fn read_snapshot<A: Allocator + Copy>(
    alloc: A,
    version: FileVersion,
    bytes: &[u8],
) -> Result<Book<A>, SnapshotError>
    ensures ok { IfOk result (λ book. HasSpelling version book × (bytes.now ≡ spelling_of version book)) }
    ensures refused { result ≡ Err errors.NotWellFormed → (v : Vault) → HasSpelling version v → bytes.now ≢ spelling_of version v }
{
    let Some((last_long, rest)) = u32_at(bytes) else {
        return Err(SnapshotError::NotWellFormed);
    };
    let places = read_places(alloc, version, rest)?;
    let mut claims = Vec::new(alloc);
    let mut drafts = Vec::new(alloc);
    let end = read_claims(alloc, version, &mut claims, &mut drafts, places.rest)?;
    if !end.is_empty() {
        return Err(SnapshotError::NotWellFormed);
    }
    match Book::from_parts(places.tree, places.shelf, last_long, claims, drafts) {
        Ok(book) => Ok(book),
        Err(FromPartsError::NotWellFormed) => Err(SnapshotError::NotWellFormed),
        Err(FromPartsError::NoMemory) => Err(SnapshotError::NoMemory),
    }
}

// Reads a whole snapshot of `count` bytes, and makes its book. `None`: no vault has this spelling.
fn read_whole<D: Device, A: Allocator + Copy>(
    alloc: A,
    version: FileVersion,
    device: &mut D,
    count: u32,
) -> Result<Option<Book<A>>, ReadError>
    requires { IsTrue (D.disk device.old).honest → header + count ≤ length (D.disk device.old).shown }
    ensures reads { AreReads (D.disk device.old) (D.disk device.new) }
    ensures book { IfOk result (λ found. IsSnapshotOrNone (D.disk device.old) version (header + count) found) }
    ensures refused { IfErr result (λ why. IsWhy (D.disk device.old) (D.disk device.new) (λ offset. ⊥) why) }
    ensures quiet { OnOk result (IsQuiet (D.disk device.old) (D.disk device.new)) }
{
    let bytes = read_bytes(alloc, device, HEADER, count)?;
    match read_snapshot(alloc, version, &bytes) {
        Ok(book) => Ok(Some(book)),
        Err(SnapshotError::NotWellFormed) => Ok(None),
        Err(SnapshotError::NoMemory) => Err(ReadError::NoMemory),
    }
}

/// The book of the snapshot of `count` bytes behind a file's header. `None`: no vault has this spelling.
///
/// A long one of today's version is read piece by piece. One that can't be read so is read whole, and that reading decides. The work
/// grows with the bytes that are read. Beside the book it takes memory for the list of claims, for one version or draft at a time, and
/// for a piece and the bytes of the check-outs, or for the bytes of the whole.
pub(crate) fn read_book<D: Device, A: Allocator + Copy>(
    alloc: A,
    version: FileVersion,
    device: &mut D,
    count: u32,
) -> Result<Option<Book<A>>, ReadError>
    requires { IsTrue (D.disk device.old).honest → header + count ≤ length (D.disk device.old).shown }
    ensures reads { AreReads (D.disk device.old) (D.disk device.new) }
    ensures book { IfOk result (λ found. IsSnapshotOrNone (D.disk device.old) version (header + count) found) }
    ensures refused { IfErr result (λ why. IsWhy (D.disk device.old) (D.disk device.new) (λ offset. ⊥) why) }
    ensures quiet { OnOk result (IsQuiet (D.disk device.old) (D.disk device.new)) }
{
    match version {
        FileVersion::Two if count > PIECE => {}
        FileVersion::One | FileVersion::Two => return read_whole(alloc, version, device, count),
    }
    match read_in_pieces(alloc, device, HEADER + u64::from(count))? {
        Some(book) => Ok(Some(book)),
        None => read_whole(alloc, version, device, count),
    }
}
