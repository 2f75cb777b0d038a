//! Check-outs are granted and recalled (wait again) as their claims stand.
ghost use Rattle.std.specs.Prelude.{◌≡◌, List, map};
ghost use Rattle.vault_state.specs.declared.place.Place.{Place};
ghost use Rattle.vault_state.specs.Tree.{IsTree};
ghost use Rattle.long_locks.specs.Lines.{IsGrownFrom};
ghost use Rattle.check_outs.specs.Typed.{is_holding, granted, recalled};

use check_outs::{AnyCheckOut, grant_one, recall_one};
use long_locks::Line;
use std::alloc::Allocator;
use vault_model::{ClaimId, Standing};

fn holds<A: Allocator>(line: &Line<A>, number: u32) -> bool
    ensures { (tree : List Place) → IsTree tree → IsGrownFrom line.now.tree tree →
        result ≡ is_holding tree line.now.claims number }
{
    line.standing(ClaimId::Long(number)) == Some(Standing::Held)
}

fn grant_held_one<A: Allocator>(check_out: &mut AnyCheckOut<A>, alloc: A, line: &Line<A>)
    ensures { (tree : List Place) → IsTree tree → IsGrownFrom line.now.tree tree →
        check_out.new ≡ granted tree line.now.claims check_out.old }
{
    if let AnyCheckOut::Waiting(waiting) = check_out {
        let holds = holds(line, waiting.number());
        grant_one(check_out, alloc, holds);
    }
}

fn recall_queued_one<A: Allocator + Copy>(check_out: &mut AnyCheckOut<A>, alloc: A, line: &Line<A>)
    ensures { (tree : List Place) → IsTree tree → IsGrownFrom line.now.tree tree →
        check_out.new ≡ recalled tree line.now.claims check_out.old }
{
    let holds = holds(line, check_out.number());
    recall_one(check_out, alloc, holds);
}

/// Grants each waiting check-out whose claim is granted.
///
/// It asks the queue for the standing of each waiting check-out, and of no other.
pub(crate) fn grant_held<A: Allocator + Copy>(
    check_outs: &mut Vec<AnyCheckOut<A>, A>,
    line: &Line<A>,
)
    ensures { (tree : List Place) → IsTree tree → IsGrownFrom line.now.tree tree →
        check_outs.new.items ≡ map (granted tree line.now.claims) check_outs.old.items }
{
    let alloc = *check_outs.allocator();
    for check_out in check_outs.iter_mut() {
        grant_held_one(check_out, alloc, line);
    }
}

/// Recalls each granted check-out without drafts whose claim isn't granted any more: it waits again.
pub(crate) fn recall_queued<A: Allocator + Copy>(
    check_outs: &mut Vec<AnyCheckOut<A>, A>,
    line: &Line<A>,
)
    ensures { (tree : List Place) → IsTree tree → IsGrownFrom line.now.tree tree →
        check_outs.new.items ≡ map (recalled tree line.now.claims) check_outs.old.items }
{
    let alloc = *check_outs.allocator();
    for check_out in check_outs.iter_mut() {
        recall_queued_one(check_out, alloc, line);
    }
}
