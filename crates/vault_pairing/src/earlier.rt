//! Whether one vault may be an earlier state of another.
ghost use Rattle.std.specs.Prelude.{◌≡◌, ◌↔◌, ◌-◌, ◌<◌, ◌≤◌, ℕ, IsTrue, length, slice_get};
ghost use Rattle.vault_state.specs.Shelf.{numbered, versions_of};
ghost use Rattle.vault_state.specs.Tree.{IsTree};
ghost use Rattle.vault_state.specs.Vault.{IsVault};
ghost use Rattle.vault_store.specs.Earlier.{BeginsWith, IsEarlier};

use design_tree::Tree;
use part_versions::Shelf;
use std::alloc::Allocator;
use vault_checkout::Book;
use vault_model::PlaceId;

// Whether a place is the same in two trees: its parent, its name and its kind.
fn is_same_place<A: Allocator>(earlier: &Tree<A>, later: &Tree<A>, number: u32) -> bool
    requires some { 0 < number }
    requires there { number ≤ length earlier.now }
    requires there_later { number ≤ length later.now }
    ensures { IsTrue result ↔ (slice_get later.now (number - 1) ≡ slice_get earlier.now (number - 1)) }
{
    let place = PlaceId(number);
    later.parent(place) == earlier.parent(place)
        && later.name_of(place) == earlier.name_of(place)
        && later.kind(place) == earlier.kind(place)
}

// Whether a tree begins with the places of another.
fn are_first_places<A: Allocator>(earlier: &Tree<A>, later: &Tree<A>) -> bool
    requires { IsTree earlier.now }
    ensures { IsTrue result ↔ BeginsWith later.now earlier.now }
{
    if later.len() < earlier.len() {
        return false;
    }
    for number in 1..earlier.len() {
        if !is_same_place(earlier, later, number as u32) {
            return false;
        }
    }
    true
}

// Whether a version of a place is the same on two shelves.
fn is_same_version<A: Allocator>(
    earlier: &Shelf<A>,
    later: &Shelf<A>,
    place: PlaceId,
    version: u32,
) -> bool
    ensures { IsTrue result ↔ (numbered (versions_of later.now place) version ≡ numbered (versions_of earlier.now place) version) }
{
    later.fetch(place, version) == earlier.fetch(place, version)
}

// Whether the versions of a place are the first ones on another shelf.
fn are_first_versions<A: Allocator>(earlier: &Shelf<A>, later: &Shelf<A>, place: PlaceId) -> bool
    ensures { IsTrue result ↔ BeginsWith (versions_of later.now place) (versions_of earlier.now place) }
{
    for index in 0..earlier.count(place) {
        if !is_same_version(earlier, later, place, index + 1) {
            return false;
        }
    }
    true
}

// Whether the versions of each place are the first ones in another vault.
fn are_all_first_versions<A: Allocator + Copy>(earlier: &Book<A>, later: &Book<A>) -> bool
    requires { IsVault earlier.now }
    ensures { IsTrue result ↔ ((place : ℕ) → BeginsWith (versions_of later.now.shelf place) (versions_of earlier.now.shelf place)) }
{
    for number in 0..earlier.tree().len() {
        if !are_first_versions(earlier.shelf(), later.shelf(), PlaceId(number as u32)) {
            return false;
        }
    }
    true
}

/// Whether `earlier` may be an earlier state of `later`: all that no command takes away is still in `later`, unchanged. The work grows
/// with the places and versions of `earlier`, and it takes no memory.
pub fn is_earlier<A: Allocator + Copy>(earlier: &Book<A>, later: &Book<A>) -> bool
    ensures { IsTrue result ↔ IsEarlier earlier.now later.now }
{
    let _ = earlier.check_out_of(0);
    earlier.line().last_long() <= later.line().last_long()
        && are_first_places(earlier.tree(), later.tree())
        && are_all_first_versions(earlier, later)
}
