//! Whether parts are those of a durable vault.
ghost use Rattle.std.specs.Prelude.{[], ◌↔◌, All, IsTrue};
ghost use Rattle.vault_state.specs.Vault.{AreThere};
ghost use Rattle.check_outs.specs.Parts.{AreAllThere, OverlapsNone, MayBe, MayHave, EachMayHave, AreFit};

use crate::changes::overlaps_locks;
use check_outs::{are_light, are_of_parts, are_rising, are_there, may_be};
use design_tree::Tree;
use lock_table::lock_set;
use part_versions::Shelf;
use std::alloc::Allocator;
use vault_model::{Claim, DraftIn, Drafts, Items, MAX_DRAFTS};

fn has_places<A: Allocator>(tree: &Tree<A>, claim: &Claim) -> bool
    ensures { IsTrue result ↔ AreThere tree.now claim.now.items }
{
    are_there(tree, claim.items.as_slice())
}

fn have_places<A: Allocator>(tree: &Tree<A>, claims: &[Claim]) -> bool
    ensures { IsTrue result ↔ AreAllThere tree.now claims.now }
{
    claims.iter().all(|claim| has_places(tree, claim))
}

fn may_all_be<A: Allocator>(tree: &Tree<A>, items: &Items, drafts: &[DraftIn<A>]) -> bool
    ensures { IsTrue result ↔ All (MayBe tree.now items.now) drafts.now }
{
    drafts.iter().all(|draft| may_be(tree, items, draft))
}

fn is_apart<A: Allocator>(tree: &Tree<A>, claims: &[Claim], items: &Items) -> bool
    requires claims { AreAllThere tree.now claims.now }
    requires items { AreThere tree.now items.now }
    ensures { IsTrue result ↔ OverlapsNone tree.now claims.now items.now }
{
    let locks = lock_set(tree, items.as_slice());
    for claim in claims {
        if overlaps_locks(tree, &locks, &claim.items) {
            return false;
        }
    }
    true
}

fn may_have<A: Allocator>(
    tree: &Tree<A>,
    before: &[Claim],
    items: &Items,
    drafts: &[DraftIn<A>],
) -> bool
    requires before { AreAllThere tree.now before.now }
    requires items { AreThere tree.now items.now }
    ensures { IsTrue result ↔ MayHave tree.now before.now items.now drafts.now }
{
    if drafts.is_empty() {
        return true;
    }
    if drafts.len() > MAX_DRAFTS || !are_rising(drafts) {
        return false;
    }
    may_all_be(tree, items, drafts) && is_apart(tree, before, items)
}

fn each_may_have<A: Allocator>(tree: &Tree<A>, claims: &[Claim], drafts: &[Drafts<A>]) -> bool
    requires { AreAllThere tree.now claims.now }
    ensures { IsTrue result ↔ EachMayHave tree.now [] claims.now drafts.now }
{
    if claims.len() != drafts.len() {
        return false;
    }
    for index in 0..claims.len() {
        let items = claims[index].items;
        if !may_have(tree, &claims[..index], &items, drafts[index].as_slice()) {
            return false;
        }
    }
    true
}

/// Whether these are parts of a vault, provided that the claims are a queue of long ones.
pub(crate) fn are_fit<A: Allocator>(
    tree: &Tree<A>,
    shelf: &Shelf<A>,
    claims: &[Claim],
    drafts: &[Drafts<A>],
) -> bool
    ensures { IsTrue result ↔ AreFit tree.now shelf.now claims.now drafts.now }
{
    if !have_places(tree, claims) {
        return false;
    }
    if !are_of_parts(tree, shelf) || !each_may_have(tree, claims, drafts) {
        return false;
    }
    are_light(shelf, drafts)
}
