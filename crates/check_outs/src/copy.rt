//! Copies of check-outs.
ghost use Rattle.std.specs.Prelude.{◌≡◌, IfOk};

use crate::any::AnyCheckOut;
use crate::check_out::CheckOut;
use std::alloc::Allocator;
use vault_model::{Draft, DraftIn, Listing, NoMemory};

fn copy_drafts<A: Allocator + Copy>(
    alloc: A,
    drafts: &[DraftIn<A>],
) -> Result<Vec<DraftIn<A>, A>, NoMemory>
    ensures { IfOk result (λ copies. copies.items ≡ drafts.now) }
{
    let mut copies = Vec::with_capacity(alloc, drafts.len())?;
    for draft in drafts {
        let place = draft.place;
        let content = draft.content.copy(alloc)?;
        copies.push(Draft { place, content }).or(Err(NoMemory))?;
    }
    Ok(copies)
}

impl<A: Allocator + Copy> AnyCheckOut<A> {
    /// A copy of the check-out, in memory from this allocator.
    pub fn copy(&self, alloc: A) -> Result<AnyCheckOut<A>, NoMemory>
        ensures { IfOk result (λ copy. copy ≡ self.now) }
    {
        match self {
            AnyCheckOut::Waiting(waiting) => Ok(AnyCheckOut::Waiting(CheckOut::asked(
                alloc,
                waiting.number(),
            ))),
            AnyCheckOut::Held(held) => {
                let drafts = copy_drafts(alloc, held.drafts())?;
                Ok(AnyCheckOut::Held(CheckOut::reopened(held.number(), Listing::from_vec(drafts))))
            }
        }
    }
}

/// Copies of the check-outs, in memory from this allocator.
pub fn copy_check_outs<A: Allocator + Copy>(
    alloc: A,
    check_outs: &[AnyCheckOut<A>],
) -> Result<Vec<AnyCheckOut<A>, A>, NoMemory>
    ensures { IfOk result (λ copies. copies.items ≡ check_outs.now) }
{
    let mut copies = Vec::with_capacity(alloc, check_outs.len())?;
    for check_out in check_outs {
        copies.push(check_out.copy(alloc)?).or(Err(NoMemory))?;
    }
    Ok(copies)
}
