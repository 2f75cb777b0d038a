//! The places of a snapshot, with the versions of parts.
ghost use Rattle.std.specs.Prelude.{◌≡◌, ◌+◌, ◌<◌, ◌≤◌, ◌++◌, List, ℕ, [], None, Err, IfOk, IfSome, length};
ghost use Rattle.vault_state.specs.Shelf.{IsShelf};
ghost use Rattle.vault_state.specs.Vault.{AreVersions};
ghost use Rattle.vault_format.specs.declared.error.SnapshotError.TheVariants.{NotWellFormed};
ghost use Rattle.vault_format.specs.Snapshot.{current_version};
ghost use Rattle.vault_format.specs.Places.{told_of, ArePlacesAt, BeginsWithNoPlaces, AreReadOn, ArePlaces, IsVersionRead, BeginsWithNoVersion, AreVersionsRead, BeginsWithNoVersions, no_part_under, kind_before, IsPlaceAdded, BeginsWithNoName, IsPlaceRead, BeginsWithNoPlace, AreContentsAt, BeginsWithFewerContents, AreFieldsAt, BeginsWithNoFields, BeginsWithFewerPlaces};
ghost use Rattle.vault_journal.specs.Reading.{Reads};

use crate::error::SnapshotError;
use crate::fields::kind_byte;
use crate::version::FileVersion;
use design_tree::{AddError, Tree};
use part_versions::{AppendError, Shelf};
use std::alloc::Allocator;
use vault_journal::{content_at, name_at, u8_at, u16_at, u32_at};
use vault_model::{Kind, PlaceId};

/// The places of a snapshot, the versions of their parts, and the bytes behind them.
#[derive(Drop)]
pub struct Places<'a, A: Allocator> {
    pub tree: Tree<A>,
    pub shelf: Shelf<A>,
    pub rest: &'a [u8],
}

impl From<AddError> for SnapshotError {
    ghost from_gives = { λ error told. told ≡ told_of error };

    fn from(error: AddError) -> SnapshotError {
        match error {
            AddError::WrongKind | AddError::Exists | AddError::Limit => {
                SnapshotError::NotWellFormed
            }
            AddError::NoMemory => SnapshotError::NoMemory,
        }
    }
}

// The places of a snapshot, one field after another:
//
//   bytes
//       4  how many places there are, with the library
//          then for each place from number 1 on:
//       4  its parent, which has a smaller number
//   1 + n  its name: n, 1 to 32, and n bytes
//       1  its kind: 1 for a part, 0 for another place: a project right under the library, an assembly elsewhere; not in version 1
//          and for a part:
//       2  how many versions it has
//   2 + n  each version: n, at most 1,024, and n bytes

// Reads one version of a part onto the shelf. Returns the bytes behind it. `behind` is how many bytes follow the part's last version:
// the shelf allocates room for all bytes before them.
fn read_version<'a, A: Allocator + Copy>(
    part: PlaceId,
    behind: usize,
    shelf: &mut Shelf<A>,
    bytes: &'a [u8],
) -> Result<&'a [u8], SnapshotError>
    ensures read { IfOk result (λ rest. IsVersionRead part shelf.old shelf.new bytes.now rest.now) }
    ensures shelf { IfOk result (λ rest. IsShelf shelf.new) }
    ensures refused { result ≡ Err NotWellFormed → BeginsWithNoVersion part shelf.old bytes.now }
{
    let Some((content, rest)) = content_at(bytes) else {
        return Err(SnapshotError::NotWellFormed);
    };
    match shelf.append(part, content, bytes.len().saturating_sub(behind)) {
        Ok(()) => Ok(rest),
        Err(AppendError::Limit) => Err(SnapshotError::NotWellFormed),
        Err(AppendError::NoMemory) => Err(SnapshotError::NoMemory),
    }
}

// How many bytes stand behind the first `count` versions. It counts all bytes if a version is missing.
fn length_behind(count: u16, bytes: &[u8]) -> usize {
    match behind_versions(count, bytes) {
        Some(rest) => rest.len(),
        None => bytes.len(),
    }
}

// Reads the versions of a part onto the shelf. Returns the bytes behind them.
fn read_versions<'a, A: Allocator + Copy>(
    part: PlaceId,
    shelf: &mut Shelf<A>,
    bytes: &'a [u8],
) -> Result<&'a [u8], SnapshotError>
    requires { IsShelf shelf.old }
    ensures read { IfOk result (λ rest. AreVersionsRead part shelf.old shelf.new bytes.now rest.now) }
    ensures refused { result ≡ Err NotWellFormed → BeginsWithNoVersions part shelf.old bytes.now }
{
    let Some((count, after)) = u16_at(bytes) else {
        return Err(SnapshotError::NotWellFormed);
    };
    let behind = length_behind(count, after);
    let mut rest = after;
    for _ in 0..count {
        rest = read_version(part, behind, shelf, rest)?;
    }
    Ok(rest)
}

// The kind of a place under one of this kind, if it is no part.
fn no_part_under(kind: Kind) -> Kind
    ensures { result ≡ no_part_under kind }
{
    match kind {
        Kind::Library => Kind::Project,
        Kind::Project | Kind::Assembly | Kind::Part => Kind::Assembly,
    }
}

// The kind at the front, for a place under this parent, and the bytes behind it. In version 1 it follows from the place's depth.
fn kind_before<'a, A: Allocator>(
    version: FileVersion,
    tree: &Tree<A>,
    parent: PlaceId,
    bytes: &'a [u8],
) -> Option<(Kind, &'a [u8])>
    requires { parent ≤ length tree.now }
    ensures { Reads (λ x. (x.0, x.1.now)) result (kind_before version tree.now parent bytes.now) }
{
    if version == FileVersion::One {
        return Some((tree.kind_under(parent), bytes));
    }
    let (byte, rest) = u8_at(bytes)?;
    if byte == kind_byte(true) {
        return Some((Kind::Part, rest));
    }
    if byte == kind_byte(false) {
        return Some((no_part_under(tree.kind(parent)), rest));
    }
    None
}

// Reads the parent, the name and the kind of a place, and adds it to the tree. Returns the bytes behind them.
fn read_name<'a, A: Allocator + Copy>(
    version: FileVersion,
    tree: &mut Tree<A>,
    bytes: &'a [u8],
) -> Result<&'a [u8], SnapshotError>
    ensures read { IfOk result (λ rest. IsPlaceAdded version tree.old tree.new bytes.now rest.now) }
    ensures refused { result ≡ Err NotWellFormed → BeginsWithNoName version tree.old bytes.now }
{
    let Some((parent, rest)) = u32_at(bytes) else {
        return Err(SnapshotError::NotWellFormed);
    };
    let Some(named) = name_at(rest) else {
        return Err(SnapshotError::NotWellFormed);
    };
    if tree.len() <= parent as usize {
        return Err(SnapshotError::NotWellFormed);
    }
    let Some(kind) = kind_before(version, tree, PlaceId(parent), named.1) else {
        return Err(SnapshotError::NotWellFormed);
    };
    tree.add(PlaceId(parent), named.0, kind.0)?;
    Ok(kind.1)
}

// Reads the place with this number, and its versions if it is a part. Returns the bytes behind it.
fn read_place<'a, A: Allocator + Copy>(
    version: FileVersion,
    place: PlaceId,
    tree: &mut Tree<A>,
    shelf: &mut Shelf<A>,
    bytes: &'a [u8],
) -> Result<&'a [u8], SnapshotError>
    requires next { place ≡ length tree.old + 1 }
    requires versions { AreVersions tree.old shelf.old }
    ensures read { IfOk result (λ rest. IsPlaceRead version tree.old shelf.old tree.new shelf.new bytes.now rest.now) }
    ensures refused { result ≡ Err NotWellFormed → BeginsWithNoPlace version tree.old shelf.old bytes.now }
{
    let rest = read_name(version, tree, bytes)?;
    if !tree.is_part(place) {
        return Ok(rest);
    }
    read_versions(place, shelf, rest)
}

// The bytes behind the first `count` versions, if all of them are there.
fn behind_versions(count: u16, bytes: &[u8]) -> Option<&[u8]>
    ensures there { IfSome result (λ rest. AreContentsAt count bytes.now rest.now) }
    ensures none { result ≡ None → BeginsWithFewerContents count bytes.now }
{
    let mut rest = bytes;
    for _ in 0..usize::from(count) {
        let Some((_, behind)) = content_at(rest) else {
            return None;
        };
        rest = behind;
    }
    Some(rest)
}

// The bytes behind the place at the front, spelled as in today's version, if its fields are all there.
fn behind_place(bytes: &[u8]) -> Option<&[u8]>
    ensures there { IfSome result (λ rest. AreFieldsAt bytes.now rest.now) }
    ensures none { result ≡ None → BeginsWithNoFields bytes.now }
{
    let (_, rest) = u32_at(bytes)?;
    let Some(named) = name_at(rest) else {
        return None;
    };
    let (kind, rest) = u8_at(named.1)?;
    if kind != kind_byte(true) {
        return Some(rest);
    }
    let (count, rest) = u16_at(rest)?;
    behind_versions(count, rest)
}

/// Reads more places, behind those that the tree has, until there are `count` with the library, or the fields of the next one aren't all
/// there. Returns the bytes behind them. `NotWellFormed`: these bytes don't begin `count` places, whatever follows them.
///
/// The places are spelled as in today's version. The work grows with the bytes that are read, the bytes of one more place and, for each
/// place, with the number of its siblings. It allocates memory only for the tree and the shelf, and for all versions of a part at once.
/// After an error the tree and the shelf may have part of a place.
pub fn read_places_on<'a, A: Allocator + Copy>(
    count: u32,
    tree: &mut Tree<A>,
    shelf: &mut Shelf<A>,
    bytes: &'a [u8],
) -> Result<&'a [u8], SnapshotError>
    requires { ArePlaces current_version tree.old shelf.old }
    ensures read { IfOk result (λ rest. AreReadOn current_version tree.old shelf.old tree.new shelf.new bytes.now rest.now) }
    ensures few { IfOk result (λ rest. length tree.old < count → length tree.new < count) }
    ensures all { IfOk result (λ rest. length tree.new + 1 < count → BeginsWithNoFields rest.now) }
    ensures refused { result ≡ Err NotWellFormed
        → (more : List ℕ) → BeginsWithFewerPlaces current_version count tree.old shelf.old (bytes.now ++ more) }
{
    let mut rest = bytes;
    for number in tree.len() as u32..count {
        if behind_place(rest).is_none() {
            return Ok(rest);
        }
        rest = read_place(FileVersion::Two, PlaceId(number), tree, shelf, rest)?;
    }
    Ok(rest)
}

// Reads the number of places, and each place. Returns the bytes behind them.
fn read_each_place<'a, A: Allocator + Copy>(
    version: FileVersion,
    tree: &mut Tree<A>,
    shelf: &mut Shelf<A>,
    bytes: &'a [u8],
) -> Result<&'a [u8], SnapshotError>
    requires tree { tree.old ≡ [] }
    requires shelf { shelf.old ≡ [] }
    ensures read { IfOk result (λ rest. ArePlacesAt version bytes.now tree.new shelf.new rest.now) }
    ensures refused { result ≡ Err NotWellFormed → BeginsWithNoPlaces version bytes.now }
{
    let Some((count, after)) = u32_at(bytes) else {
        return Err(SnapshotError::NotWellFormed);
    };
    if count == 0 {
        return Err(SnapshotError::NotWellFormed);
    }
    let mut rest = after;
    for number in 1..count {
        rest = read_place(version, PlaceId(number), tree, shelf, rest)?;
    }
    Ok(rest)
}

/// Reads the places from the front of the bytes, spelled as in this version, with the versions of the parts.
///
/// The work grows with the bytes that are read and, for each place, with the number of its siblings. It allocates memory only for the
/// tree and the shelf, and for all versions of a part at once: each version is copied once.
pub fn read_places<'a, A: Allocator + Copy>(
    alloc: A,
    version: FileVersion,
    bytes: &'a [u8],
) -> Result<Places<'a, A>, SnapshotError>
    ensures read { IfOk result (λ places. ArePlacesAt version bytes.now places.tree places.shelf places.rest.now) }
    ensures refused { result ≡ Err NotWellFormed → BeginsWithNoPlaces version bytes.now }
{
    let mut tree = Tree::new(alloc)?;
    let mut shelf = Shelf::new(alloc);
    let rest = read_each_place(version, &mut tree, &mut shelf, bytes)?;
    Ok(Places { tree, shelf, rest })
}
