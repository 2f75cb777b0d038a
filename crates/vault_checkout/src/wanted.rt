//! What a new claim asks for.
ghost use Rattle.std.specs.Prelude.{◌≡◌, ◌+◌, ◌<◌, ◌≤◌, ◌==◌, ◌||◌, nat_lt, not, length, IfOk, OnOk};
ghost use Rattle.vault_state.specs.Limits.{most_items, most_claims, last_number};
ghost use Rattle.vault_state.specs.Vault.{AreThere};
ghost use Rattle.vault_checkout.specs.Wanted.{wanted_items};

use check_outs::places_of;
use design_tree::Tree;
use std::alloc::Allocator;
use vault_model::{Items, LAST_NUMBER, MAX_CLAIMS, MAX_ITEMS, PathItem, Refusal};

/// Whether a claim that has so many items may ask for `count` more.
pub(crate) fn may_ask_for(count: usize, own: usize) -> bool
    requires { own ≤ most_items }
    ensures { not result ≡ ((count == 0) || nat_lt most_items (own + count)) }
{
    0 < count && count <= MAX_ITEMS - own
}

/// The items that a new claim asks for, where so many claims stand already, and this number was the last one given to a claim of its kind.
#[tactic(auto, unfolding(crate::specs::Wanted::wanted_items, vault_model::specs::Step::chained))]
pub(crate) fn wanted_items<A: Allocator>(
    tree: &Tree<A>,
    claims: usize,
    last: u32,
    wanted: &[PathItem],
) -> Result<Items, Refusal>
    ensures decided { result ≡ wanted_items tree.now claims last wanted.now }
    ensures some { IfOk result (λ items. 0 < length items) }
    ensures few { IfOk result (λ items. length items ≤ most_items) }
    ensures there { IfOk result (λ items. AreThere tree.now items) }
    ensures room { OnOk result (claims < most_claims) }
    ensures number { OnOk result (last < last_number) }
{
    if wanted.is_empty() || wanted.len() > MAX_ITEMS {
        return Err(Refusal::ItemCount);
    }
    let Some(items) = places_of(tree, wanted) else {
        return Err(Refusal::NoPlace);
    };
    if claims >= MAX_CLAIMS || last == LAST_NUMBER {
        return Err(Refusal::Limit);
    }
    Ok(items)
}
