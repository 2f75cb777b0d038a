ghost use Rattle.std.specs.Prelude.{◌↔◌, ◌≤◌, IsTrue, length};
ghost use Rattle.vault_state.specs.Vault.{AreThere};

use Kind::{Assembly, Part, Project};
use design_tree::Tree;
use std::alloc::Allocator;
use std::process::Abort;
use test_memory::Outcome;
use vault_state::{Intent, Item, Items, Kind, Name, NoMemory, PlaceId};

/// The number of a place, a name, and the kinds of new places under it: each in the one before, all of this name.
pub(crate) type Chain = (u32, &'static str, &'static [Kind]);

/// A project, an assembly in it, and two parts in that.
pub(crate) static SMALL: [Chain; 4] = SMALL_CHAINS;

pub(crate) const SMALL_CHAINS: [Chain; 4] = [
    (0, "e", &[Project]),
    (1, "b", &[Assembly]),
    (2, "p1", &[Part]),
    (2, "p2", &[Part]),
];

fn make<A: Allocator + Copy>(
    rt: &impl Abort,
    tree: &mut Tree<A>,
    parent: u32,
    name: &str,
    kind: Kind,
) -> u32 {
    assert!(rt; (parent as usize) < tree.len());
    let name = Name::read(name.as_bytes()).expect(rt, "a name");
    let place = tree.add(PlaceId(parent), name, kind);
    place.expect(rt, "a place").number()
}

/// The tree of these chains.
pub(crate) fn tree_of<A: Allocator + Copy>(rt: &impl Abort, alloc: A, chains: &[Chain]) -> Tree<A> {
    let mut tree = Tree::new(alloc).expect(rt, "memory");
    for (top, name, kinds) in chains {
        let mut parent = *top;
        for kind in *kinds {
            parent = make(rt, &mut tree, parent, name, *kind);
        }
    }
    tree
}

/// An intent, and the number of the place that it is for.
pub(crate) type Wish = (Intent, u32);

/// The items of these wishes.
pub(crate) fn items_of(rt: &impl Abort, wishes: &[Wish]) -> Items {
    let mut items = Items::new();
    for (intent, place) in wishes {
        assert!(rt; items.len() < 8);
        items.push(Item {
            intent: *intent,
            place: PlaceId(*place),
        });
    }
    items
}

/// Whether items name places of the tree.
pub(crate) fn are_there<A: Allocator>(tree: &Tree<A>, items: &[Item]) -> bool
    ensures { IsTrue result ↔ AreThere tree.now items.now }
{
    let count = tree.len();
    items
        .iter()
        .all(|item| (item.place.number() as usize) < count)
}

/// The places that items look at, and those that they change, one bit each. A changed place is looked at, too.
pub(crate) type Reach = (u32, u32);

// Whether a place is another, or lies under it, by walking up from parent to parent.
fn leads_to<A: Allocator>(tree: &Tree<A>, place: PlaceId, top: PlaceId) -> bool
    requires { place ≤ length tree.now }
{
    if place == top {
        return true;
    }
    match tree.parent(place) {
        Some(parent) => leads_to(tree, parent, top),
        None => false,
    }
}

// The places at or under one, one bit each.
fn places_under<A: Allocator>(tree: &Tree<A>, top: PlaceId) -> u32 {
    let mut places = 0;
    for number in 0..32u32 {
        if (number as usize) < tree.len() && leads_to(tree, PlaceId(number), top) {
            places |= 1 << number;
        }
    }
    places
}

pub(crate) fn reach_of<A: Allocator>(tree: &Tree<A>, items: &[Item]) -> Reach {
    let mut looks = 0;
    let mut changes = 0;
    for item in items {
        let places = places_under(tree, item.place);
        looks |= places;
        if item.intent == Intent::Change {
            changes |= places;
        }
    }
    (looks, changes)
}

/// Whether one changes a place that the other looks at.
pub(crate) fn overlap(one: Reach, other: Reach) -> bool {
    one.0 & other.1 != 0 || one.1 & other.0 != 0
}

/// Whether a call gives the wanted answer.
pub(crate) fn answers<T: PartialEq + Copy>(told: Result<T, NoMemory>, wanted: T) -> Outcome {
    match told {
        Ok(told) => Outcome::done(told == wanted),
        Err(NoMemory) => Outcome::Refused,
    }
}

/// The name of a worked case, and its rows.
pub(crate) type Worked<R> = (&'static str, &'static [R]);
