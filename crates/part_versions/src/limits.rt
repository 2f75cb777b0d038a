//! Whether drafts may be appended.
ghost use Rattle.std.specs.Prelude.{◌≡◌, ℕ, List, [], ◌∷◌, ◌+◌, ◌≤◌, nat_le, length, All};
ghost use Rattle.vault_state.specs.Shelf.{draft_at, versions_of};
ghost use Rattle.vault_state.specs.Limits.{most_versions, most_weight};
ghost use Rattle.part_versions.specs.Rooms.{count_of, weight_with, have_room};

use crate::part::Part;
use std::alloc::Allocator;
use vault_state::{DraftIn, EXTRA_WEIGHT, LONGEST_CONTENT, MAX_VERSIONS, MAX_WEIGHT, PlaceId};

/// The weight of a shelf of this weight once the drafts are added, if no content is too long and
/// the sum isn't too much.
pub(crate) fn weight_with<B: Allocator>(weight: usize, drafts: &[DraftIn<B>]) -> Option<usize>
    requires { weight ≤ most_weight }
    ensures { result ≡ weight_with weight drafts.now }
{
    let mut sum = weight;
    for draft in drafts {
        let len = draft.content.as_slice().len();
        if len > LONGEST_CONTENT {
            return None;
        }
        sum += len + EXTRA_WEIGHT;
        if sum > MAX_WEIGHT {
            return None;
        }
    }
    Some(sum)
}

/// The weight of a shelf of this weight once one content is added, if that isn't too long and the sum
/// isn't too much.
pub(crate) fn weight_with_one(weight: usize, content: &[u8]) -> Option<usize>
    requires { weight ≤ most_weight }
    ensures { (place : ℕ) → result ≡ weight_with weight (draft_at place content.now ∷ []) }
{
    let len = content.len();
    if len > LONGEST_CONTENT {
        return None;
    }
    let sum = weight + (len + EXTRA_WEIGHT);
    if sum > MAX_WEIGHT {
        return None;
    }
    Some(sum)
}

/// How many versions a place has.
pub(crate) fn count_in<A: Allocator>(parts: &[Part<A>], place: PlaceId) -> usize
    ensures { result ≡ length (versions_of parts.now place) }
{
    match parts.get(place.number() as usize) {
        Some(part) => part.len(),
        None => 0,
    }
}

// How many of the drafts are for a place.
fn count_of<B: Allocator>(drafts: &[DraftIn<B>], place: PlaceId) -> usize
    ensures { result ≡ count_of drafts.now place }
{
    drafts.iter().filter(|draft| draft.place == place).count()
}

// Whether a place has room for all its drafts. They are counted only if the list has more drafts
// than the place has room for.
fn has_room<A: Allocator, B: Allocator>(
    parts: &[Part<A>],
    drafts: &[DraftIn<B>],
    place: PlaceId,
) -> bool
    requires { All (λ versions. length versions ≤ most_versions) parts.now }
    ensures { result ≡ nat_le (length (versions_of parts.now place) + count_of drafts.now place) most_versions }
{
    let room = MAX_VERSIONS - count_in(parts, place);
    drafts.len() <= room || count_of(drafts, place) <= room
}

/// Whether a place has room for one more version.
pub(crate) fn has_room_for_one<A: Allocator>(parts: &[Part<A>], place: PlaceId) -> bool
    requires { All (λ versions. length versions ≤ most_versions) parts.now }
    ensures { (content : List ℕ) → result ≡ have_room parts.now (draft_at place content ∷ []) }
{
    count_in(parts, place) < MAX_VERSIONS
}

/// Whether each draft's place has room for all drafts of that place.
pub(crate) fn have_room<A: Allocator, B: Allocator>(
    parts: &[Part<A>],
    drafts: &[DraftIn<B>],
) -> bool
    requires { All (λ versions. length versions ≤ most_versions) parts.now }
    ensures { result ≡ have_room parts.now drafts.now }
{
    drafts
        .iter()
        .all(|draft| has_room(parts, drafts, draft.place))
}
