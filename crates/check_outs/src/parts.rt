//! Whether a vault may have these versions and drafts.
ghost use Rattle.std.specs.Prelude.{◌≡◌, ◌+◌, ◌<◌, ◌↔◌, IsTrue, IfSome, IsNone};
ghost use Rattle.vault_state.specs.Shelf.{drafts_weight};
ghost use Rattle.vault_state.specs.Vault.{AreVersions};
ghost use Rattle.check_outs.specs.CheckOuts.{IsRising};
ghost use Rattle.check_outs.specs.Parts.{MayBe, AreLight};

use crate::places::may_change;
use design_tree::Tree;
use part_versions::Shelf;
use std::alloc::Allocator;
use vault_model::{DraftIn, Drafts, EXTRA_WEIGHT, Items, LONGEST_CONTENT, MAX_WEIGHT, PlaceId};

/// Whether all versions are of parts of the tree.
pub fn are_of_parts<A: Allocator>(tree: &Tree<A>, shelf: &Shelf<A>) -> bool
    ensures { IsTrue result ↔ AreVersions tree.now shelf.now }
{
    tree.see_whole();
    if shelf.len() > tree.len() {
        return false;
    }
    for number in 0..shelf.len() {
        let place = PlaceId(number as u32);
        if shelf.count(place) > 0 && !tree.is_part(place) {
            return false;
        }
    }
    true
}

/// Whether drafts are in order of rising place.
pub fn are_rising<A: Allocator>(drafts: &[DraftIn<A>]) -> bool
    ensures { IsTrue result ↔ IsRising drafts.now }
{
    for index in 1..drafts.len() {
        if drafts[index].place.number() <= drafts[index - 1].place.number() {
            return false;
        }
    }
    true
}

/// Whether a granted claim of these items may have this draft.
pub fn may_be<A: Allocator>(tree: &Tree<A>, items: &Items, draft: &DraftIn<A>) -> bool
    ensures { IsTrue result ↔ MayBe tree.now items.now draft.now }
{
    draft.content.as_slice().len() <= LONGEST_CONTENT && may_change(tree, items, draft.place)
}

// The weight left of this room after these drafts, if they fit.
fn left_beside<A: Allocator>(room: usize, drafts: &[DraftIn<A>]) -> Option<usize>
    ensures left { IfSome result (λ left. left + drafts_weight drafts.now ≡ room) }
    ensures none { IsNone result → room < drafts_weight drafts.now }
{
    let mut left = room;
    for draft in drafts {
        left = left.checked_sub(EXTRA_WEIGHT)?;
        left = left.checked_sub(draft.content.as_slice().len())?;
    }
    Some(left)
}

/// Whether versions and drafts together aren't too heavy.
pub fn are_light<A: Allocator>(shelf: &Shelf<A>, drafts: &[Drafts<A>]) -> bool
    ensures { IsTrue result ↔ AreLight shelf.now drafts.now }
{
    let mut room = MAX_WEIGHT - shelf.weight();
    for own in drafts {
        let Some(left) = left_beside(room, own.as_slice()) else {
            return false;
        };
        room = left;
    }
    true
}
