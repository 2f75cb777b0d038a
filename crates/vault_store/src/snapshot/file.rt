//! The bytes of a snapshot's file.
ghost use Rattle.std.specs.Prelude.{◌≡◌, ◌≤◌, ◌-◌, ◌++◌, [], ◌∷◌, IfOk, length};
ghost use Rattle.vault_state.specs.Vault.{IsVault, durable};
ghost use Rattle.vault_device.specs.Disk.{overwritten};
ghost use Rattle.vault_journal.specs.Spelling.{in_four, in_eight};
ghost use Rattle.vault_format.specs.Snapshot.{current_version, HasSnapshot};
ghost use Rattle.vault_format.specs.Files.{mark, version_number, behind_gate};
ghost use Rattle.vault_format.specs.Adds.{Adds};

use super::spelling::{claim_at, spell_snapshot};
use std::alloc::Allocator;
use vault_checkout::Book;
use vault_format::fields::{put, put_u32};
use vault_model::{Claim, ClaimId, DraftIn, NoMemory};

// The offsets behind the head gate of the snapshot's length and of the snapshot.
const LENGTH_AT: usize = 19;

const SNAPSHOT_AT: usize = 23;

// The most bytes that a place has beside its versions, a check-out beside its drafts, and a draft beside its content.
const MAX_OF_PLACE: usize = 40;

const MAX_OF_CLAIM: usize = 144;

const MAX_OF_DRAFT: usize = 6;

// The bytes that a file has behind its head gate beside its places and check-outs.
const MAX_BESIDE: usize = 34;

// The most bytes that drafts are spelled in.
fn room_of_drafts<B: Allocator>(drafts: &[DraftIn<B>]) -> usize {
    let mut room = 0usize;
    for draft in drafts {
        room = room.saturating_add(draft.content.as_slice().len().saturating_add(MAX_OF_DRAFT));
    }
    room
}

// The most bytes that a claim and its drafts are spelled in.
fn room_of_claim<B: Allocator + Copy>(book: &Book<B>, claim: &Claim) -> usize {
    match claim.id {
        ClaimId::Long(number) => {
            room_of_drafts(book.drafts(number)).saturating_add(MAX_OF_CLAIM)
        }
        ClaimId::Short(_) => 0,
    }
}

// The most bytes that claims and their drafts are spelled in.
fn room_of_claims<B: Allocator + Copy>(book: &Book<B>) -> usize {
    let mut room = 0usize;
    for position in 0..book.line().len() {
        room = room.saturating_add(room_of_claim(book, claim_at(book, position)));
    }
    room
}

// The most bytes that stand behind the head gate.
fn room_of<B: Allocator + Copy>(book: &Book<B>) -> usize {
    let places = book.tree().len().saturating_mul(MAX_OF_PLACE);
    places
        .saturating_add(book.shelf().weight())
        .saturating_add(room_of_claims(book))
        .saturating_add(MAX_BESIDE)
}

// Adds what stands before the snapshot, with a length of 0.
fn put_front<A: Allocator>(out: &mut Vec<u8, A>, generation: u64) -> Result<(), NoMemory>
    ensures { Adds out.old.items out.new.items (mark ++ in_four (version_number current_version) ++ in_eight generation ++ in_four 0)
        result }
{
    put(out, b"LLVAULT")?;
    put_u32(out, 2)?;
    put(out, &generation.to_be_bytes())?;
    put_u32(out, 0)
}

// Writes the snapshot's length before the snapshot.
fn put_length<A: Allocator>(bytes: &mut Vec<u8, A>, count: u32)
    requires { 23 ≤ length bytes.old.items }
    ensures { bytes.new.items ≡ overwritten bytes.old.items 19 (in_four count) }
{
    let _ = vault_journal::put_u32(bytes.as_mut_slice(), LENGTH_AT, count);
}

/// Replaces these bytes by what a snapshot writes behind the head gate of a file of this generation.
pub fn spell_file<A: Allocator, B: Allocator + Copy>(
    mut bytes: Vec<u8, A>,
    generation: u64,
    book: &Book<B>,
) -> Result<Vec<u8, A>, NoMemory>
    requires vault { IsVault book.now }
    requires spelled { HasSnapshot (durable book.now) }
    ensures { IfOk result (λ bytes. bytes.items ≡ behind_gate generation (durable book.now)) }
{
    bytes.clear();
    bytes.reserve_exact(room_of(book))?;
    put_front(&mut bytes, generation)?;
    spell_snapshot(&mut bytes, book)?;
    let count = bytes.len() - SNAPSHOT_AT;
    put_length(&mut bytes, count as u32);
    put(&mut bytes, &[0])?;
    Ok(bytes)
}
