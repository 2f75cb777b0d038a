//! Reads a long snapshot of today's version piece by piece.
ghost use Rattle.std.specs.Prelude.{◌≡◌, ◌≢◌, ◌++◌, ◌+◌, ◌^◌, ◌<◌, ◌≤◌, [], None, IfOk, IfErr, IfSome, IsTrue, true, false, length, slice_range, OnOk};
ghost use Rattle.vault_format.specs.Files.{header};
ghost use Rattle.vault_format.specs.Snapshot.{current_version};
ghost use Rattle.vault_format.specs.Places.{ArePlaces};
ghost use Rattle.vault_journal.specs.Spelling.{in_four};
ghost use Rattle.vault_store.specs.Calls.{IsQuiet};
ghost use Rattle.vault_store.specs.Front.{IsFrontRead, IsReadOn, AreFewerInPieces, IsBackRead, IsNoBackRead, IsSnapshotRead, IsNoneInPieces};
ghost use Rattle.vault_store.specs.Read.{AreReads, IsWhy};

use crate::body::ReadError;
use crate::journal::read_bytes;
use design_tree::Tree;
use part_versions::Shelf;
use std::alloc::Allocator;
use vault_checkout::{Book, FromPartsError};
use vault_device::Device;
use vault_format::{FileVersion, HEADER, SnapshotError, read_claims, read_places_on};
use vault_journal::u32_at;

/// The most bytes of a piece. A snapshot with a longer place isn't read in pieces.
pub(crate) const PIECE: u32 = 1 << 21;

// Reads `count` bytes, which replace those in the buffer.
fn read_over<D: Device, A: Allocator>(
    device: &mut D,
    at: u64,
    count: u32,
    bytes: &mut Vec<u8, A>,
) -> Result<(), ReadError>
    requires { IsTrue (D.disk device.old).honest → at + count ≤ length (D.disk device.old).shown }
    ensures reads { AreReads (D.disk device.old) (D.disk device.new) }
    ensures size { OnOk result (length bytes.new.items ≡ count) }
    ensures bytes { IsTrue (D.disk device.old).honest
        → OnOk result (bytes.new.items ≡ slice_range (D.disk device.old).shown at (at + count)) }
    ensures refused { IfErr result (λ why. IsWhy (D.disk device.old) (D.disk device.new) (λ offset. ⊥) why) }
    ensures quiet { OnOk result (IsQuiet (D.disk device.old) (D.disk device.new)) }
{
    bytes
        .resize(count as usize, 0)
        .map_err(|_| ReadError::NoMemory)?;
    device.read_at(at, bytes)?;
    Ok(())
}

// The extent of a snapshot: how many places it has, the library included, and where it ends.
#[derive(Clone, Copy)]
struct Extent {
    count: u32,
    end: u64,
}

// The places of a snapshot as far as they were read, and where the next one stands.
#[derive(Drop)]
struct Front<A: Allocator> {
    tree: Tree<A>,
    shelf: Shelf<A>,
    at: u64,
}

// Reads a piece, and adds its places to those read before. Whether there was one. If not, and more are wanted, the next place doesn't
// fit into a piece, or the bytes aren't those places.
fn read_on<D: Device, A: Allocator + Copy>(
    device: &mut D,
    extent: Extent,
    piece: &mut Vec<u8, A>,
    front: &mut Front<A>,
) -> Result<bool, ReadError>
    requires within { front.old.at ≤ extent.end }
    requires are { ArePlaces current_version front.old.tree front.old.shelf }
    requires len { IsTrue (D.disk device.old).honest → extent.end ≤ length (D.disk device.old).shown }
    ensures reads { AreReads (D.disk device.old) (D.disk device.new) }
    ensures on { IfOk result (λ has_read. has_read ≡ true → IsReadOn (D.disk device.old) current_version extent.end front.old.at
        front.old.tree front.old.shelf front.new.tree front.new.shelf front.new.at) }
    ensures few { IfOk result (λ has_read. has_read ≡ true
        → length front.old.tree < extent.count → length front.new.tree < extent.count) }
    ensures off { IfOk result (λ has_read. has_read ≡ false → length front.old.tree + 1 < extent.count
        → AreFewerInPieces (D.disk device.old) extent.count extent.end front.old.at front.old.tree front.old.shelf) }
    ensures refused { IfErr result (λ why. IsWhy (D.disk device.old) (D.disk device.new) (λ offset. ⊥) why) }
    ensures quiet { OnOk result (IsQuiet (D.disk device.old) (D.disk device.new)) }
{
    let count = (extent.end - front.at).min(u64::from(PIECE)) as u32;
    read_over(device, front.at, count, piece)?;
    let taken = match read_places_on(extent.count, &mut front.tree, &mut front.shelf, piece) {
        Ok(rest) => count as usize - rest.len(),
        Err(SnapshotError::NotWellFormed) => return Ok(false),
        Err(SnapshotError::NoMemory) => return Err(ReadError::NoMemory),
    };
    front.at += taken as u64;
    Ok(taken > 0)
}

// Reads all places, from an offset on. `None`: one doesn't fit into a piece, or the bytes aren't these places.
fn read_front<D: Device, A: Allocator + Copy>(
    alloc: A,
    device: &mut D,
    extent: Extent,
    from: u64,
) -> Result<Option<Front<A>>, ReadError>
    requires within { from ≤ extent.end }
    requires len { IsTrue (D.disk device.old).honest → extent.end ≤ length (D.disk device.old).shown }
    ensures reads { AreReads (D.disk device.old) (D.disk device.new) }
    ensures front { IfOk result (λ found. IfSome found
        (λ front. IsFrontRead (D.disk device.old) current_version from front.tree front.shelf front.at)) }
    ensures count { IfOk result (λ found. IfSome found (λ front. length front.tree + 1 ≡ extent.count)) }
    ensures within { IfOk result (λ found. IfSome found (λ front. front.at ≤ extent.end)) }
    ensures none { IfOk result (λ found. found ≡ None → AreFewerInPieces (D.disk device.old) extent.count extent.end from [] []) }
    ensures refused { IfErr result (λ why. IsWhy (D.disk device.old) (D.disk device.new) (λ offset. ⊥) why) }
    ensures quiet { OnOk result (IsQuiet (D.disk device.old) (D.disk device.new)) }
{
    let Ok(tree) = Tree::new(alloc) else {
        return Err(ReadError::NoMemory);
    };
    let mut front = Front {
        tree,
        shelf: Shelf::new(alloc),
        at: from,
    };
    let mut piece = Vec::new(alloc);
    while front.tree.len() < extent.count as usize {
        match read_on(device, extent, &mut piece, &mut front) {
            Ok(true) => {}
            Ok(false) => {
                drop(front);
                return Ok(None);
            }
            Err(why) => {
                drop(front);
                return Err(why);
            }
        }
    }
    if front.tree.len() != extent.count as usize {
        drop(front);
        return Ok(None);
    }
    Ok(Some(front))
}

// Reads the check-outs of a snapshot that ends here, and makes its book. `None`: the bytes aren't check-outs, or the whole is no vault.
fn read_back<D: Device, A: Allocator + Copy>(
    alloc: A,
    last_long: u32,
    device: &mut D,
    front: Front<A>,
    end: u64,
) -> Result<Option<Book<A>>, ReadError>
    requires are { ArePlaces current_version front.tree front.shelf }
    requires within { front.at ≤ end }
    requires short { end < front.at + 2 ^ 32 }
    requires len { IsTrue (D.disk device.old).honest → end ≤ length (D.disk device.old).shown }
    ensures reads { AreReads (D.disk device.old) (D.disk device.new) }
    ensures book { IfOk result (λ found. IfSome found
        (λ book. IsBackRead (D.disk device.old) current_version last_long front.tree front.shelf front.at end book)) }
    ensures none { IfOk result (λ found. found ≡ None
        → IsNoBackRead (D.disk device.old) last_long front.tree front.shelf front.at end) }
    ensures refused { IfErr result (λ why. IsWhy (D.disk device.old) (D.disk device.new) (λ offset. ⊥) why) }
    ensures quiet { OnOk result (IsQuiet (D.disk device.old) (D.disk device.new)) }
{
    let Front { tree, shelf, at } = front;
    let bytes = match read_bytes(alloc, device, at, (end - at) as u32) {
        Ok(bytes) => bytes,
        Err(why) => {
            drop(tree);
            drop(shelf);
            return Err(why);
        }
    };
    let mut claims = Vec::new(alloc);
    let mut drafts = Vec::new(alloc);
    let rest = match read_claims(alloc, FileVersion::Two, &mut claims, &mut drafts, &bytes) {
        Ok(rest) => rest,
        Err(SnapshotError::NotWellFormed) => {
            drop(bytes);
            drop(tree);
            drop(shelf);
            drop(claims);
            drop(drafts);
            return Ok(None);
        }
        Err(SnapshotError::NoMemory) => {
            drop(bytes);
            drop(tree);
            drop(shelf);
            drop(claims);
            drop(drafts);
            return Err(ReadError::NoMemory);
        }
    };
    if !rest.is_empty() {
        drop(bytes);
        drop(tree);
        drop(shelf);
        drop(claims);
        drop(drafts);
        return Ok(None);
    }
    match Book::from_parts(tree, shelf, last_long, claims, drafts) {
        Ok(book) => Ok(Some(book)),
        Err(FromPartsError::NotWellFormed) => Ok(None),
        Err(FromPartsError::NoMemory) => Err(ReadError::NoMemory),
    }
}

// The two numbers that these bytes spell.
fn two_numbers(bytes: &[u8]) -> Option<(u32, u32)>
    requires { length bytes.now ≡ 8 }
    ensures numbers { IfSome result (λ numbers. bytes.now ≡ in_four numbers.0 ++ in_four numbers.1) }
    ensures fit { IfSome result (λ numbers. (numbers.0 < 2 ^ 32) × (numbers.1 < 2 ^ 32)) }
    ensures some { result ≢ None }
{
    let (first, rest) = u32_at(bytes)?;
    let (second, _) = u32_at(rest)?;
    Some((first, second))
}

/// The book of a snapshot of today's version that ends here, read piece by piece. `None`: a place doesn't fit into a piece, or the
/// bytes spell no vault.
///
/// Beside the book it takes memory for one piece, for the bytes of the check-outs, and for their list.
pub(crate) fn read_in_pieces<D: Device, A: Allocator + Copy>(
    alloc: A,
    device: &mut D,
    end: u64,
) -> Result<Option<Book<A>>, ReadError>
    requires long { header + 8 ≤ end }
    requires short { end < header + 2 ^ 32 }
    requires len { IsTrue (D.disk device.old).honest → end ≤ length (D.disk device.old).shown }
    ensures reads { AreReads (D.disk device.old) (D.disk device.new) }
    ensures book { IfOk result (λ found. IfSome found (λ book. IsSnapshotRead (D.disk device.old) current_version book end)) }
    ensures none { IfOk result (λ found. found ≡ None → IsNoneInPieces (D.disk device.old) end) }
    ensures refused { IfErr result (λ why. IsWhy (D.disk device.old) (D.disk device.new) (λ offset. ⊥) why) }
    ensures quiet { OnOk result (IsQuiet (D.disk device.old) (D.disk device.new)) }
{
    let mut numbers = [0; 8];
    device.read_at(HEADER, &mut numbers)?;
    let Some((last_long, count)) = two_numbers(&numbers) else {
        return Ok(None);
    };
    let extent = Extent { count, end };
    let Some(front) = read_front(alloc, device, extent, HEADER + 8)? else {
        return Ok(None);
    };
    read_back(alloc, last_long, device, front, end)
}
