//! Whether two books are alike.

use vault_checkout::Book;
use vault_model::{ClaimId, PlaceId};

fn is_place_alike(one: &Book, other: &Book, place: PlaceId) -> bool {
    let number = place.number() as usize;
    if number >= one.tree().len() || number >= other.tree().len() {
        return false;
    }
    one.tree().parent(place) == other.tree().parent(place)
        && one.tree().name_of(place) == other.tree().name_of(place)
        && one.shelf().count(place) == other.shelf().count(place)
}

fn are_versions_alike(one: &Book, other: &Book, place: PlaceId) -> bool {
    for before in 0..one.shelf().count(place) {
        let version = before.saturating_add(1);
        if one.shelf().fetch(place, version) != other.shelf().fetch(place, version) {
            return false;
        }
    }
    true
}

fn are_places_alike(one: &Book, other: &Book) -> bool {
    for number in 0..u32::try_from(one.tree().len()).unwrap_or(0) {
        let place = PlaceId(number);
        if !is_place_alike(one, other, place) || !are_versions_alike(one, other, place) {
            return false;
        }
    }
    one.tree().len() == other.tree().len()
}

fn is_claim_alike(one: &Book, other: &Book, position: usize) -> bool {
    let Some(claim) = one.line().at(position) else {
        return false;
    };
    if other.line().at(position) != Some(claim) {
        return false;
    }
    if one.line().standing(claim.id) != other.line().standing(claim.id) {
        return false;
    }
    match claim.id {
        ClaimId::Long(number) => one.drafts(number) == other.drafts(number),
        ClaimId::Short(_) => true,
    }
}

fn are_lines_alike(one: &Book, other: &Book) -> bool {
    for position in 0..one.line().len() {
        if !is_claim_alike(one, other, position) {
            return false;
        }
    }
    one.line().len() == other.line().len()
}

/// Whether both have the same places, versions, claims and drafts, and have given the same numbers to claims. Sessions aside.
pub fn are_alike(one: &Book, other: &Book) -> bool {
    one.line().last_long() == other.line().last_long()
        && one.line().last_short() == other.line().last_short()
        && are_lines_alike(one, other)
        && are_places_alike(one, other)
}
