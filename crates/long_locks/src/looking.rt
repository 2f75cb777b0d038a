//! Which claims look at a place, or at one under it.
ghost use Rattle.std.specs.Prelude.{◌≡◌, ◌<◌, ◌≤◌, ◌+◌, All, IfOk, OnOk, take, length};
ghost use Rattle.std.specs.List.{list_any};
ghost use Rattle.vault_state.specs.declared.claims.Claim.{Claim};
ghost use Rattle.vault_state.specs.Tree.{is_under};
ghost use Rattle.vault_state.specs.Claims.{look_set, meet, claims_at};
ghost use Rattle.vault_state.specs.Vault.{AreThere};
ghost use Rattle.long_locks.specs.InLine.{is_in_line};

use crate::claims::Claims;
use design_tree::Tree;
use std::alloc::Allocator;
use vault_state::{ClaimId, Item, NoMemory, PlaceId};

/// Whether an item's place and another place are the same, or one lies under the other.
fn is_in_line<A: Allocator>(tree: &Tree<A>, item: &Item, place: PlaceId) -> bool
    requires item { item.now.place ≤ length tree.now }
    requires place { place ≤ length tree.now }
    ensures { result ≡ is_in_line tree.now place item.now }
{
    tree.is_under(place, item.place) || tree.is_under(item.place, place)
}

/// The same for at least one of these items.
fn are_in_line<A: Allocator>(tree: &Tree<A>, items: &[Item], place: PlaceId) -> bool
    requires items { AreThere tree.now items.now }
    requires place { place ≤ length tree.now }
    ensures { result ≡ list_any (is_in_line tree.now place) items.now }
{
    for item in items {
        if is_in_line(tree, item, place) {
            return true;
        }
    }
    false
}

/// Whether the look set of some items has this place or one under it.
fn look_into<A: Allocator>(tree: &Tree<A>, items: &[Item], place: PlaceId) -> bool
    requires items { AreThere tree.now items.now }
    requires place { place ≤ length tree.now }
    ensures { result ≡ meet tree.now (look_set tree.now items.now) (λ q. is_under tree.now q place) }
{
    tree.see_whole();
    are_in_line(tree, items, place)
}

/// Appends the id of the claim at a position of the line, if the claim looks at the place or at one
/// under it.
fn put_at<A: Allocator>(
    ids: &mut Vec<ClaimId, A>,
    claims: &Claims<A>,
    tree: &Tree<A>,
    place: PlaceId,
    position: usize,
) -> Result<(), NoMemory>
    requires claims { All (λ (c : Claim). AreThere tree.now c.items) claims.now.claims }
    requires place { place ≤ length tree.now }
    requires within { position < length claims.now.claims }
    ensures { OnOk result (ids.old.items ≡ claims_at tree.now (take position claims.now.claims) place
        → ids.new.items ≡ claims_at tree.now (take (position + 1) claims.now.claims) place) }
{
    let claim = claims.at(position).unwrap();
    if !look_into(tree, claim.items.as_slice(), place) {
        return Ok(());
    }
    match ids.push(claim.id) {
        Ok(()) => Ok(()),
        Err(_) => Err(NoMemory),
    }
}

/// The claims that look at a place or at one under it, in line order.
pub(crate) fn claims_at<A: Allocator>(
    alloc: A,
    claims: &Claims<A>,
    tree: &Tree<A>,
    place: PlaceId,
) -> Result<Vec<ClaimId, A>, NoMemory>
    requires claims { All (λ (c : Claim). AreThere tree.now c.items) claims.now.claims }
    requires place { place ≤ length tree.now }
    ensures { IfOk result (λ ids. ids.items ≡ claims_at tree.now claims.now.claims place) }
{
    let mut ids = Vec::new(alloc);
    for position in 0..claims.len() {
        put_at(&mut ids, claims, tree, place, position)?;
    }
    Ok(ids)
}
