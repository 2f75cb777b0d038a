//! Whether one more draft may be saved.
ghost use Rattle.std.specs.Prelude.{◌≡◌, ℕ, ◌+◌, ◌≤◌, ◌==◌, true, not, count_by};
ghost use Rattle.vault_state.specs.Limits.{most_weight};
ghost use Rattle.vault_state.specs.Shelf.{Draft, weight, drafts_weight};
ghost use Rattle.vault_state.specs.Drafts.{saved_weight, new_draft};
ghost use Rattle.vault_state.specs.Vault.{new_vault};
ghost use Rattle.vault_model.specs.Step.{may_save};
ghost use Rattle.check_outs.specs.CheckOuts.{beside};
ghost use Rattle.check_outs.specs.Typed.{saved, is_open, drafts_at, IsAscending};

use crate::any::{AnyCheckOut, drafts_at};
use part_versions::Shelf;
use std::alloc::Allocator;
use vault_model::{DraftIn, EXTRA_WEIGHT, LONGEST_CONTENT, MAX_DRAFTS, MAX_WEIGHT, PlaceId};

fn weight_of<A: Allocator>(drafts: &[DraftIn<A>]) -> usize
    requires { drafts_weight drafts.now ≤ most_weight }
    ensures { result ≡ drafts_weight drafts.now }
{
    let mut sum = 0;
    for draft in drafts {
        sum += draft.content.as_slice().len() + EXTRA_WEIGHT;
    }
    sum
}

fn weight_beside<A: Allocator>(drafts: &[DraftIn<A>], place: PlaceId) -> usize
    requires { drafts_weight drafts.now ≤ most_weight }
    ensures result { result ≡ drafts_weight (beside drafts.now place) }
    ensures less { result ≤ drafts_weight drafts.now }
{
    let mut sum = 0;
    for draft in drafts {
        if draft.place != place {
            sum += draft.content.as_slice().len() + EXTRA_WEIGHT;
        }
    }
    sum
}

fn count_beside<A: Allocator>(drafts: &[DraftIn<A>], place: PlaceId) -> usize
    ensures { result ≡ count_by (λ (draft : Draft). not (draft.place == place)) drafts.now }
{
    drafts.iter().filter(|draft| draft.place != place).count()
}

fn saved_weight<A: Allocator>(check_outs: &[AnyCheckOut<A>]) -> usize
    requires { saved_weight (saved check_outs.now) ≤ most_weight }
    ensures { result ≡ saved_weight (saved check_outs.now) }
{
    let mut sum = 0;
    for check_out in check_outs {
        sum += weight_of(check_out.drafts());
    }
    sum
}

/// Whether the check-out of this number may save this content of a place: the content is short
/// enough, and with it neither the check-out's number of drafts nor the total weight is too great.
///
/// It reads every draft of all check-outs once, and those of this check-out up to four times.
pub fn may_save<A: Allocator>(
    shelf: &Shelf<A>,
    check_outs: &[AnyCheckOut<A>],
    number: u32,
    place: PlaceId,
    content: &[u8],
) -> bool
    requires ascending { IsAscending check_outs.now }
    requires held { is_open check_outs.now number ≡ true }
    requires light { weight shelf.now + saved_weight (saved check_outs.now) ≤ most_weight }
    ensures { result ≡ may_save (record new_vault { shelf = shelf.now; drafts = saved check_outs.now })
        (new_draft number place content.now) }
{
    if content.len() > LONGEST_CONTENT {
        return false;
    }
    let own = drafts_at(check_outs, number);
    if count_beside(own, place) >= MAX_DRAFTS {
        return false;
    }
    let others = saved_weight(check_outs) - weight_of(own) + weight_beside(own, place);
    shelf.weight() + others + content.len() + EXTRA_WEIGHT <= MAX_WEIGHT
}
