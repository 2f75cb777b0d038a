//! Claims that end together.
ghost use Rattle.std.specs.Prelude.{◌≡◌, ◌==◌, ◌+◌, List, map, true, false};
ghost use Rattle.std.specs.List.{IsDistinct};
ghost use Rattle.vault_state.specs.declared.place.Place.{Place};
ghost use Rattle.vault_state.specs.declared.claims.Claim.{Claim};
ghost use Rattle.vault_state.specs.Claims.{same_id};
ghost use Rattle.lock_table.specs.Tables.{IsTableOf};
ghost use Rattle.long_locks.specs.declared.ending.Ending.{Ending};
ghost use Rattle.long_locks.specs.Lines.{ends, left_by, left_behind};

use crate::claims::Claims;
use lock_table::Table;
use std::alloc::Allocator;
use vault_state::{Claim, ClaimId, Owner};

/// Which claims end: those of a session, or all short ones.
#[derive(Clone, Copy)]
pub(crate) enum Ending {
    Session(u32),
    AllShort,
}

/// Whether a claim is one of those that end.
pub(crate) fn ends(ending: Ending, claim: &Claim) -> bool
    ensures { result ≡ ends ending claim.now }
{
    match ending {
        Ending::Session(session) => match claim.owner {
            Owner::Designer(_) => false,
            Owner::Session(number) => number == session,
        },
        Ending::AllShort => match claim.id {
            ClaimId::Long(_) => false,
            ClaimId::Short(_) => true,
        },
    }
}

// Removes the claim at a position from the table, if it ends. The ending claims behind it are gone.
fn release_at<A: Allocator>(
    claims: &Claims<A>,
    table: &mut Table<A>,
    ending: Ending,
    position: usize,
)
    requires { IsDistinct same_id (map (λ (c : Claim). c.id) claims.now.claims) }
    ensures { (tree : List Place) → IsTableOf tree (left_behind ending (position + 1) claims.now.claims) table.old
        → IsTableOf tree (left_behind ending position claims.now.claims) table.new }
{
    let Some(claim) = claims.at(position) else {
        return;
    };
    if ends(ending, claim) {
        table.release(claim.id);
    }
}

// Removes all ending claims from the table. The last one leaves first: none of those still to leave
// waits for it, so none of them is weighed again.
fn release_each<A: Allocator>(claims: &Claims<A>, table: &mut Table<A>, ending: Ending)
    requires { IsDistinct same_id (map (λ (c : Claim). c.id) claims.now.claims) }
    ensures { (tree : List Place) → IsTableOf tree claims.now.claims table.old
        → IsTableOf tree (left_by ending claims.now.claims) table.new }
{
    let mut position = claims.len();
    while position > 0 {
        position -= 1;
        release_at(claims, table, ending, position);
    }
}

// Removes all ending claims from the table: a session's one after another, all short ones together.
fn release_all<A: Allocator>(claims: &Claims<A>, table: &mut Table<A>, ending: Ending)
    requires { IsDistinct same_id (map (λ (c : Claim). c.id) claims.now.claims) }
    ensures { (tree : List Place) → IsTableOf tree claims.now.claims table.old
        → IsTableOf tree (left_by ending claims.now.claims) table.new }
{
    match ending {
        Ending::Session(_) => release_each(claims, table, ending),
        Ending::AllShort => table.release_short(),
    }
}

/// Removes all ending claims from both.
pub(crate) fn drop_all<A: Allocator>(claims: &mut Claims<A>, table: &mut Table<A>, ending: Ending)
    requires { IsDistinct same_id (map (λ (c : Claim). c.id) claims.old.claims) }
    ensures claims { claims.new.claims ≡ left_by ending claims.old.claims }
    ensures table { (tree : List Place) → IsTableOf tree claims.old.claims table.old → IsTableOf tree claims.new.claims table.new }
{
    release_all(claims, table, ending);
    claims.remove_ending(ending);
}
