//! The claims of a snapshot, with their drafts.
ghost use Rattle.std.specs.Prelude.{◌≡◌, [], Err, IfOk};
ghost use Rattle.vault_format.specs.declared.error.SnapshotError.TheVariants.{NotWellFormed};
ghost use Rattle.vault_journal.specs.Reading.{Reads};
ghost use Rattle.vault_format.specs.Claims.{note_before, IsDraftRead, BeginsWithNoDraft, AreDraftsRead, BeginsWithNoDrafts, IsClaimRead, BeginsWithNoClaim, AreClaimsRead, BeginsWithNoClaims};

use crate::error::SnapshotError;
use crate::version::FileVersion;
use std::alloc::Allocator;
use vault_journal::{content_at, items_at, name_at, note_at, u8_at, u16_at, u32_at};
use vault_model::{
    Claim, ClaimId, Draft, DraftIn, Drafts, Listing, MAX_CLAIMS, MAX_DRAFTS, Note, Owner, PlaceId,
};

// The check-outs of a snapshot, in the order of the queue of claims, one field after another:
//
//   bytes
//       2  how many there are, at most 256
//          then for each:
//       4  its number
//   1 + n  its owner's name: n, 1 to 32, and n bytes
//   1 + n  its note: n, at most 64, and n bytes; not in version 1
//       1  how many items it has, 1 to 8
//       5  each item: 0 to look or 1 to change, and its place in 4
//       1  how many drafts it has, at most 64
//   6 + n  each draft, by rising place: its place in 4, n in 2, and n bytes

// Reads a draft and appends it to the others. Returns the bytes behind it.
fn read_draft<'a, A: Allocator + Copy>(
    alloc: A,
    drafts: &mut Vec<DraftIn<A>, A>,
    bytes: &'a [u8],
) -> Result<&'a [u8], SnapshotError>
    ensures read { IfOk result (λ rest. IsDraftRead drafts.old.items drafts.new.items bytes.now rest.now) }
    ensures refused { result ≡ Err NotWellFormed → BeginsWithNoDraft bytes.now }
{
    let Some((place, rest)) = u32_at(bytes) else {
        return Err(SnapshotError::NotWellFormed);
    };
    let Some((content, after)) = content_at(rest) else {
        return Err(SnapshotError::NotWellFormed);
    };
    let content = Listing::from_vec(Vec::from_slice(alloc, content)?);
    drafts.push(Draft {
        place: PlaceId(place),
        content,
    })?;
    Ok(after)
}

// Reads the drafts of a check-out. Returns the bytes behind them.
fn read_drafts<'a, A: Allocator + Copy>(
    alloc: A,
    drafts: &mut Vec<DraftIn<A>, A>,
    bytes: &'a [u8],
) -> Result<&'a [u8], SnapshotError>
    requires { drafts.old.items ≡ [] }
    ensures read { IfOk result (λ rest. AreDraftsRead drafts.new.items bytes.now rest.now) }
    ensures refused { result ≡ Err NotWellFormed → BeginsWithNoDrafts bytes.now }
{
    let Some((count, after)) = u8_at(bytes) else {
        return Err(SnapshotError::NotWellFormed);
    };
    if usize::from(count) > MAX_DRAFTS {
        return Err(SnapshotError::NotWellFormed);
    }
    let mut rest = after;
    for _ in 0..count {
        rest = read_draft(alloc, drafts, rest)?;
    }
    Ok(rest)
}

// The note at the front of the bytes, and the bytes behind it. Version 1 has no notes.
fn note_before(version: FileVersion, bytes: &[u8]) -> Option<(Note, &[u8])>
    ensures { Reads (λ x. (x.0, x.1.now)) result (note_before version bytes.now) }
{
    match version {
        FileVersion::One => Some((Note::new(), bytes)),
        FileVersion::Two => note_at(bytes),
    }
}

// Reads a claim and its drafts, and appends both to the others. Returns the bytes behind them.
fn read_claim<'a, A: Allocator + Copy>(
    alloc: A,
    version: FileVersion,
    claims: &mut Vec<Claim, A>,
    drafts: &mut Vec<Drafts<A>, A>,
    bytes: &'a [u8],
) -> Result<&'a [u8], SnapshotError>
    ensures read { IfOk result
        (λ rest. IsClaimRead version claims.old.items claims.new.items drafts.old.items drafts.new.items bytes.now rest.now) }
    ensures refused { result ≡ Err NotWellFormed → BeginsWithNoClaim version bytes.now }
{
    let Some((number, rest)) = u32_at(bytes) else {
        return Err(SnapshotError::NotWellFormed);
    };
    let Some(named) = name_at(rest) else {
        return Err(SnapshotError::NotWellFormed);
    };
    let Some(noted) = note_before(version, named.1) else {
        return Err(SnapshotError::NotWellFormed);
    };
    let Some(held) = items_at(noted.1) else {
        return Err(SnapshotError::NotWellFormed);
    };
    let mut own = Vec::new(alloc);
    let after = read_drafts(alloc, &mut own, held.1)?;
    claims.push(Claim {
        id: ClaimId::Long(number),
        owner: Owner::Designer(named.0),
        items: held.0,
        note: noted.0,
    })?;
    drafts.push(Listing::from_vec(own))?;
    Ok(after)
}

/// Reads the number of claims, and each claim with its drafts. Returns the bytes behind them.
///
/// The work grows with the bytes that are read.
pub fn read_claims<'a, A: Allocator + Copy>(
    alloc: A,
    version: FileVersion,
    claims: &mut Vec<Claim, A>,
    drafts: &mut Vec<Drafts<A>, A>,
    bytes: &'a [u8],
) -> Result<&'a [u8], SnapshotError>
    requires claims { claims.old.items ≡ [] }
    requires drafts { drafts.old.items ≡ [] }
    ensures read { IfOk result (λ rest. AreClaimsRead version claims.new.items drafts.new.items bytes.now rest.now) }
    ensures refused { result ≡ Err NotWellFormed → BeginsWithNoClaims version bytes.now }
{
    let Some((count, after)) = u16_at(bytes) else {
        return Err(SnapshotError::NotWellFormed);
    };
    if usize::from(count) > MAX_CLAIMS {
        return Err(SnapshotError::NotWellFormed);
    }
    let mut rest = after;
    for _ in 0..count {
        rest = read_claim(alloc, version, claims, drafts, rest)?;
    }
    Ok(rest)
}
