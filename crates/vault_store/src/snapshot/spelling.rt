//! Spells the snapshot of a vault.
#![tactic(auto, using(vault_format::proofs::Adding::adds_after))]

ghost use Rattle.std.specs.Prelude.{◌≡◌, ◌<◌, ◌≤◌, ◌-◌, ◌∷◌, [], length, slice_get, Some};
ghost use Rattle.std.specs.List.{flat_map};
ghost use Rattle.vault_state.specs.Claims.{without_short};
ghost use Rattle.vault_state.specs.Tree.{IsTree};
ghost use Rattle.vault_state.specs.Vault.{AreDrafts, IsVault, durable};
ghost use Rattle.vault_state.specs.declared.place.Place.{Place};
ghost use Rattle.vault_format.specs.Snapshot.{current_version, snapshot_of, claim_bytes, place_bytes, places_bytes};
ghost use Rattle.vault_format.specs.Adds.{Adds};

use std::alloc::Allocator;
use vault_checkout::Book;
use vault_format::fields::{
    number_of, place_at, put_drafts, put_items, put_kind, put_name, put_note, put_owner, put_u16,
    put_u32,
};
use vault_model::{Claim, ClaimId, NoMemory, PlaceId};

// Adds the place of this number.
fn put_place<A: Allocator, B: Allocator + Copy>(
    out: &mut Vec<u8, A>,
    book: &Book<B>,
    number: u32,
) -> Result<(), NoMemory>
    requires some { 0 < number }
    requires there { number ≤ length book.now.tree }
    ensures { (place : Place) → slice_get book.now.tree (number - 1) ≡ Some place
        → Adds out.old.items out.new.items (place_bytes current_version book.now number place) result }
{
    let (parent, name) = place_at(book.tree(), number);
    put_u32(out, parent.number())?;
    put_name(out, &name)?;
    put_kind(out, book.tree(), book.shelf(), PlaceId(number))
}

// Adds each place from 1 on.
fn put_each_place<A: Allocator, B: Allocator + Copy>(
    out: &mut Vec<u8, A>,
    book: &Book<B>,
) -> Result<(), NoMemory>
    requires { IsTree book.now.tree }
    ensures { Adds out.old.items out.new.items (places_bytes current_version book.now 1 book.now.tree) result }
{
    for number in 1..book.tree().len() {
        put_place(out, book, number as u32)?;
    }
    Ok(())
}

// Adds a check-out with its drafts.
fn put_claim<A: Allocator, B: Allocator + Copy>(
    out: &mut Vec<u8, A>,
    book: &Book<B>,
    claim: &Claim,
) -> Result<(), NoMemory>
    requires { AreDrafts book.now.tree book.now.line book.now.drafts }
    ensures { Adds out.old.items out.new.items (claim_bytes current_version book.now claim.now) result }
{
    let number = number_of(claim.id);
    put_u32(out, number)?;
    put_owner(out, &claim.owner)?;
    put_note(out, &claim.note)?;
    put_items(out, claim.items.as_slice())?;
    put_drafts(out, book.drafts(number))
}

/// The claim at a position of the queue (line), counted from 0.
pub fn claim_at<B: Allocator + Copy>(book: &Book<B>, position: usize) -> &Claim
    requires { position < length book.now.line }
    ensures { slice_get book.now.line position ≡ Some result.now }
{
    book.line().at(position).unwrap()
}

// Adds a claim if it is a check-out.
fn put_long<A: Allocator, B: Allocator + Copy>(
    out: &mut Vec<u8, A>,
    book: &Book<B>,
    claim: &Claim,
) -> Result<(), NoMemory>
    requires { AreDrafts book.now.tree book.now.line book.now.drafts }
    ensures { Adds out.old.items out.new.items (flat_map (claim_bytes current_version book.now) (without_short (claim.now ∷ []))) result }
{
    match claim.id {
        ClaimId::Long(_) => put_claim(out, book, claim),
        ClaimId::Short(_) => Ok(()),
    }
}

// Adds each check-out, in the order of the queue.
fn put_claims<A: Allocator, B: Allocator + Copy>(
    out: &mut Vec<u8, A>,
    book: &Book<B>,
) -> Result<(), NoMemory>
    requires { AreDrafts book.now.tree book.now.line book.now.drafts }
    ensures { Adds out.old.items out.new.items (flat_map (claim_bytes current_version book.now) (without_short book.now.line)) result }
{
    for position in 0..book.line().len() {
        put_long(out, book, claim_at(book, position))?;
    }
    Ok(())
}

// One for a check-out, none for a hold.
fn as_count(claim: &Claim) -> usize
    ensures count { result ≡ length (without_short (claim.now ∷ [])) }
    ensures least { result ≤ 1 }
{
    match claim.id {
        ClaimId::Long(_) => 1,
        ClaimId::Short(_) => 0,
    }
}

// How many check-outs there are.
fn long_count<B: Allocator + Copy>(book: &Book<B>) -> usize
    ensures count { result ≡ length (without_short book.now.line) }
    ensures few { result ≤ length book.now.line }
{
    let mut count = 0;
    for position in 0..book.line().len() {
        count += as_count(claim_at(book, position));
    }
    count
}

/// Adds the snapshot of what a restart would leave of a vault.
pub(crate) fn spell_snapshot<A: Allocator, B: Allocator + Copy>(
    out: &mut Vec<u8, A>,
    book: &Book<B>,
) -> Result<(), NoMemory>
    requires { IsVault book.now }
    ensures { Adds out.old.items out.new.items (snapshot_of (durable book.now)) result }
{
    put_u32(out, book.line().last_long())?;
    put_u32(out, book.tree().len() as u32)?;
    put_each_place(out, book)?;
    put_u16(out, long_count(book) as u16)?;
    put_claims(out, book)
}
