//! Items given by paths, and their places.
ghost use Rattle.std.specs.Prelude.{◌≡◌, ◌+◌, ◌≤◌, ◌&&◌, ◌++◌, nat_le, length, IfSome};
ghost use Rattle.vault_state.specs.Vault.{AreThere};
ghost use Rattle.vault_state.specs.Claims.{is_change, change_set};
ghost use Rattle.vault_model.specs.After.{are_there};
ghost use Rattle.vault_state.specs.Tree.{is_part};
ghost use Rattle.vault_model.specs.Step.{placed};
ghost use Rattle.vault_state.specs.Limits.{most_items};

use design_tree::Tree;
use std::alloc::Allocator;
use vault_model::{Intent, Item, Items, PathItem, PlaceId};

/// The items by their places, if each path leads to a place.
pub fn places_of<A: Allocator>(tree: &Tree<A>, wanted: &[PathItem]) -> Option<Items>
    requires { length wanted.now ≤ most_items }
    ensures placed { result ≡ placed tree.now wanted.now }
    ensures there { IfSome result (λ items. AreThere tree.now items) }
{
    let mut items = Items::new();
    for item in wanted {
        let place = tree.find(&item.path)?;
        items.push(Item {
            intent: item.intent,
            place,
        });
    }
    Some(items)
}

/// Some items, followed by others.
pub fn joined(items: Items, more: &Items) -> Items
    requires { length items + length more.now ≤ most_items }
    ensures { result ≡ items ++ more.now }
{
    let mut joined = items;
    for item in more.as_slice() {
        joined.push(*item);
    }
    joined
}

fn is_for_change(intent: Intent) -> bool
    ensures { result ≡ is_change intent }
{
    intent == Intent::Change
}

/// Whether a place is at or under an item for change.
pub fn is_changed_by<A: Allocator>(tree: &Tree<A>, items: &[Item], place: PlaceId) -> bool
    requires { place ≤ length tree.now }
    ensures { result ≡ change_set tree.now items.now place }
{
    for item in items {
        if is_for_change(item.intent) && tree.is_under(place, item.place) {
            return true;
        }
    }
    false
}

fn is_there<A: Allocator>(tree: &Tree<A>, item: &Item) -> bool
    ensures { result ≡ nat_le item.now.place (length tree.now) }
{
    (item.place.number() as usize) < tree.len()
}

/// Whether all these items name places of the tree.
pub fn are_there<A: Allocator>(tree: &Tree<A>, items: &[Item]) -> bool
    ensures { result ≡ are_there tree.now items.now }
{
    items.iter().all(|item| is_there(tree, item))
}

/// Whether a place is a part that these items change.
pub fn may_change<A: Allocator>(tree: &Tree<A>, items: &Items, place: PlaceId) -> bool
    ensures { result ≡ (nat_le place (length tree.now) && is_part tree.now place && change_set tree.now items.now place) }
{
    (place.number() as usize) < tree.len()
        && tree.is_part(place)
        && is_changed_by(tree, items.as_slice(), place)
}
