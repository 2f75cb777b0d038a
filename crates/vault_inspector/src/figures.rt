//! How full a vault is.
ghost use Rattle.std.specs.Prelude.{◌≡◌, ◌+◌, ◌<◌, ◌≤◌, IfOk, length};
ghost use Rattle.vault_state.specs.Limits.{most_weight};
ghost use Rattle.vault_state.specs.Shelf.{drafts_weight, weight};
ghost use Rattle.vault_inspector.specs.Figures.{AreFigures, IsGreatest, children_at, draft_weight, drafts_at, own_weight, stands, standing_count, versions_at};
ghost use Rattle.vault_state.specs.Claims.{standing_of};

use crate::claims::{claim_at, standing_in};
use crate::counts::{draft_count, own_drafts, version_count};
use std::alloc::Allocator;
use vault_checkout::Book;
use vault_model::{ClaimId, DraftIn, EXTRA_WEIGHT, NoMemory, PlaceId, Standing};

/// What is used of each of a vault's limits that its files show.
#[derive(Clone, Copy, Debug, PartialEq, Eq)]
pub struct Figures {
    /// With the library.
    pub places: usize,
    pub projects: usize,
    /// The most places right beneath one place.
    pub children: usize,
    pub versions: usize,
    /// The most versions of one part.
    pub part_versions: u32,
    pub claims: usize,
    pub held: usize,
    pub waiting: usize,
    pub drafts: u128,
    /// The most drafts of one check-out.
    pub claim_drafts: usize,
    /// What all versions and drafts weigh.
    pub weight: usize,
    /// The last number given to a check-out, or 0.
    pub last_check_out: u32,
}

// Whether a claim is granted (if `held`), or whether it waits (if not).
fn stands(standing: Option<Standing>, held: bool) -> bool
    ensures { result ≡ stands held standing }
{
    match standing {
        Some(Standing::Held) => held,
        Some(Standing::Queued(_)) => !held,
        None => false,
    }
}

// How many claims are granted (if `held`), or how many wait (if not).
fn standing_count<A: Allocator + Copy>(book: &Book<A>, held: bool) -> usize
    ensures { result ≡ standing_count held book.now }
{
    let mut count = 0;
    for position in 0..book.line().len() {
        if stands(standing_in(book, claim_at(book, position).id), held) {
            count += 1;
        }
    }
    count
}

// What some drafts weigh.
fn weight_of<A: Allocator>(drafts: &[DraftIn<A>]) -> usize
    requires { drafts_weight drafts.now ≤ most_weight }
    ensures { result ≡ drafts_weight drafts.now }
{
    let mut total = 0;
    for draft in drafts {
        total += draft.content.as_slice().len() + EXTRA_WEIGHT;
    }
    total
}

// What the drafts of a claim weigh.
fn own_weight<A: Allocator + Copy>(book: &Book<A>, id: ClaimId) -> usize
    requires { own_weight book.now.drafts id ≤ most_weight }
    ensures { result ≡ own_weight book.now.drafts id }
{
    match id {
        ClaimId::Long(number) => weight_of(book.drafts(number)),
        ClaimId::Short(_) => 0,
    }
}

// What all drafts weigh.
fn draft_weight<A: Allocator + Copy>(book: &Book<A>) -> usize
    ensures weight { result ≡ draft_weight book.now }
    ensures light { weight book.now.shelf + result ≤ most_weight }
{
    // The invariant of a book bounds each sum below.
    let _ = book.check_out_of(0);
    let mut total = 0;
    for position in 0..book.line().len() {
        total += own_weight(book, claim_at(book, position).id);
    }
    total
}

// How many places stand right beneath a place.
fn children_at<A: Allocator + Copy>(book: &Book<A>, place: usize) -> Result<usize, NoMemory>
    requires { place < length book.now.tree + 1 }
    ensures { IfOk result (λ count. count ≡ children_at book.now place) }
{
    book.tree().see_whole();
    let children = book.tree().children(PlaceId(place as u32))?;
    Ok(children.len())
}

// The most places right beneath one place.
fn most_children<A: Allocator + Copy>(book: &Book<A>) -> Result<usize, NoMemory>
    ensures { IfOk result (λ most. IsGreatest (children_at book.now) (length book.now.tree + 1) most) }
{
    let mut most = 0;
    for place in 0..book.tree().len() {
        let count = children_at(book, place)?;
        if count > most {
            most = count;
        }
    }
    Ok(most)
}

// The most versions of one part.
fn most_versions<A: Allocator + Copy>(book: &Book<A>) -> u32
    ensures { IsGreatest (versions_at book.now) (length book.now.tree + 1) result }
{
    book.tree().see_whole();
    let mut most = 0;
    for place in 0..book.tree().len() {
        let count = book.shelf().count(PlaceId(place as u32));
        if count > most {
            most = count;
        }
    }
    most
}

// The most drafts of one check-out.
fn most_drafts<A: Allocator + Copy>(book: &Book<A>) -> usize
    ensures { IsGreatest (drafts_at book.now) (length book.now.line) result }
{
    let mut most = 0;
    for position in 0..book.line().len() {
        let count = own_drafts(book, claim_at(book, position).id);
        if count > most {
            most = count;
        }
    }
    most
}

/// A vault's figures. The work grows with its places and claims. It takes memory for the numbers of one place's children at a time.
pub fn figures_of<A: Allocator + Copy>(book: &Book<A>) -> Result<Figures, NoMemory>
    ensures { IfOk result (λ figures. AreFigures book.now figures) }
{
    Ok(Figures {
        places: book.tree().len(),
        projects: children_at(book, 0)?,
        children: most_children(book)?,
        versions: version_count(book),
        part_versions: most_versions(book),
        claims: book.line().len(),
        held: standing_count(book, true),
        waiting: standing_count(book, false),
        drafts: draft_count(book),
        claim_drafts: most_drafts(book),
        weight: book.shelf().weight() + draft_weight(book),
        last_check_out: book.line().last_long(),
    })
}
