//! Check-outs made of stored claims and drafts.
ghost use Rattle.std.specs.Prelude.{◌≡◌, ◌+◌, ◌<◌, ◌≤◌, nat_lt, position, vec_len, vec_capacity};
ghost use Rattle.check_outs.specs.CheckOuts.{IsRising};
ghost use Rattle.check_outs.specs.Parts.{number_in, opened, put_in};
ghost use Rattle.check_outs.specs.Typed.{number_of};

use crate::any::AnyCheckOut;
use crate::check_out::CheckOut;
use std::alloc::Allocator;
use vault_model::{ClaimId, Drafts};

/// The number of a claim.
pub fn number_in(id: ClaimId) -> u32
    ensures { result ≡ number_in id }
{
    match id {
        ClaimId::Long(number) | ClaimId::Short(number) => number,
    }
}

/// A check-out with these drafts: granted if there are any, else waiting.
pub fn opened<A: Allocator>(alloc: A, number: u32, drafts: Drafts<A>) -> AnyCheckOut<A>
    requires { IsRising drafts }
    ensures { result ≡ opened number drafts }
{
    if drafts.as_slice().is_empty() {
        AnyCheckOut::Waiting(CheckOut::asked(alloc, number))
    } else {
        AnyCheckOut::Held(CheckOut::reopened(number, drafts))
    }
}

fn first_above<A: Allocator>(check_outs: &[AnyCheckOut<A>], number: u32) -> Option<usize>
    ensures { result ≡ position (λ c. nat_lt number (number_of c)) check_outs.now }
{
    check_outs
        .iter()
        .position(|check_out| number < check_out.number())
}

/// Puts a check-out before the first of a higher number. There must be room.
pub fn put_in<A: Allocator>(check_outs: &mut Vec<AnyCheckOut<A>, A>, check_out: AnyCheckOut<A>)
    requires { vec_len check_outs.old < vec_capacity check_outs.old }
    ensures items { check_outs.new.items ≡ put_in check_out check_outs.old.items }
    ensures len { vec_len check_outs.new ≡ vec_len check_outs.old + 1 }
    ensures capacity { vec_capacity check_outs.old ≤ vec_capacity check_outs.new }
{
    let index = first_above(check_outs, check_out.number()).unwrap_or(check_outs.len());
    check_outs.insert(index, check_out).unwrap();
}
