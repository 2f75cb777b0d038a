//! The rules of claims, checked by plain walks over the lists.

use design_tree::Tree;
use long_locks::Line;
use vault_checkout::Book;
use vault_model::{Claim, ClaimId, GREATEST_DEPTH, Intent, Item, PlaceId, Standing};

/// Whether a place is the top, or lies under it.
fn is_under(tree: &Tree, place: PlaceId, top: PlaceId) -> bool {
    let mut at = place;
    for _ in 0..GREATEST_DEPTH {
        if at == top || at.number() as usize >= tree.len() {
            break;
        }
        at = tree.parent(at).unwrap_or(at);
    }
    at == top
}

/// Whether one item asks to change a place that the other asks for, too.
fn meet(tree: &Tree, one: &Item, other: &Item) -> bool {
    if one.intent == Intent::Look && other.intent == Intent::Look {
        return false;
    }
    is_under(tree, one.place, other.place) || is_under(tree, other.place, one.place)
}

fn meets_any(tree: &Tree, one: &Item, others: &[Item]) -> bool {
    for other in others {
        if meet(tree, one, other) {
            return true;
        }
    }
    false
}

/// Whether one of two claims changes a place that the other looks at or changes.
fn overlap(tree: &Tree, one: &Claim, other: &Claim) -> bool {
    for item in one.items.as_slice() {
        if meets_any(tree, item, other.items.as_slice()) {
            return true;
        }
    }
    false
}

/// How the claim at a position stands: granted, or waiting behind the first claim before it that it overlaps.
fn standing_at(tree: &Tree, line: &Line, claim: &Claim, position: usize) -> Standing {
    for earlier in 0..position {
        if let Some(other) = line.at(earlier) {
            if overlap(tree, claim, other) {
                return Standing::Queued(other.id);
            }
        }
    }
    Standing::Held
}

/// Whether each claim stands by the rules of the queue. So a granted one overlaps none before it, and no two granted ones overlap.
pub(crate) fn stand(book: &Book) -> bool {
    let line = book.line();
    for position in 0..line.len() {
        let Some(claim) = line.at(position) else {
            return false;
        };
        let standing = standing_at(book.tree(), line, claim, position);
        if line.standing(claim.id) != Some(standing) {
            return false;
        }
    }
    true
}

/// Whether the queue after a restart has just the long claims of the queue before it, in the same order.
pub(crate) fn keeps_long_claims(before: &Line, after: &Line) -> bool {
    let mut kept = 0usize;
    for position in 0..before.len() {
        let Some(claim) = before.at(position) else {
            return false;
        };
        if let ClaimId::Long(_) = claim.id {
            if after.at(kept) != Some(claim) {
                return false;
            }
            kept = kept.saturating_add(1);
        }
    }
    kept == after.len()
}
