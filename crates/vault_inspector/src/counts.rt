//! How much there is in a vault.
ghost use Rattle.std.specs.Prelude.{◌≡◌};
ghost use Rattle.vault_inspector.specs.Counts.{draft_count, own_drafts, version_count};

use crate::claims::claim_at;
use std::alloc::Allocator;
use vault_checkout::Book;
use vault_model::{ClaimId, PlaceId};

/// How many versions there are, of all places.
pub(crate) fn version_count<A: Allocator + Copy>(book: &Book<A>) -> usize
    ensures { result ≡ version_count book.now }
{
    let (tree, shelf) = (book.tree(), book.shelf());
    tree.see_whole();
    let mut total = 0;
    for place in 0..tree.len() {
        total += shelf.count(PlaceId(place as u32)) as usize;
    }
    total
}

/// How many drafts a claim has.
pub(crate) fn own_drafts<A: Allocator + Copy>(book: &Book<A>, id: ClaimId) -> usize
    ensures { result ≡ own_drafts book.now.drafts id }
{
    match id {
        ClaimId::Long(number) => book.drafts(number).len(),
        ClaimId::Short(_) => 0,
    }
}

/// How many drafts there are, of all claims.
pub(crate) fn draft_count<A: Allocator + Copy>(book: &Book<A>) -> u128
    ensures { result ≡ draft_count book.now }
{
    let mut total = 0;
    for position in 0..book.line().len() {
        total += own_drafts(book, claim_at(book, position).id) as u128;
    }
    total
}
