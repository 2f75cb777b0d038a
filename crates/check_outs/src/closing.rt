//! Closing a check-out: its drafts become new versions.
ghost use Rattle.std.specs.Prelude.{◌≡◌, ◌<◌, ◌≤◌, true, length, insert, vec_len, vec_capacity, IfOk, IfErr, OnOk, OnErr};
ghost use Rattle.vault_state.specs.Limits.{most_drafts};
ghost use Rattle.vault_state.specs.Shelf.{is_shelvable, shelved_all};
ghost use Rattle.check_outs.specs.Closed.{IsCloseRefusal};
ghost use Rattle.check_outs.specs.Typed.{is_open, drafts_at, without_check_out, IsAscending};
ghost use Rattle.check_outs.specs.declared.any.AnyCheckOut.TheVariants as typed;

use crate::any::{AnyCheckOut, index_of};
use crate::check_out::{CheckOut, Held};
use crate::stop::Stop;
use part_versions::{NotAppended, Shelf};
use std::alloc::Allocator;
use vault_model::Refusal;

// Removes the check-out of this number. Returns the index where it was, too.
fn take_held<A: Allocator>(
    check_outs: &mut Vec<AnyCheckOut<A>, A>,
    number: u32,
) -> (usize, CheckOut<Held<A>>)
    requires ascending { IsAscending check_outs.old.items }
    requires held { is_open check_outs.old.items number ≡ true }
    ensures place { result.0 ≤ vec_len check_outs.new }
    ensures room { vec_len check_outs.new < vec_capacity check_outs.new }
    ensures taken { check_outs.new.items ≡ without_check_out check_outs.old.items number }
    ensures number { result.1.number ≡ number }
    ensures drafts { result.1.state ≡ drafts_at check_outs.old.items number }
    ensures back { insert check_outs.new.items result.0 (typed.Held result.1) ≡ check_outs.old.items }
{
    let Some(index) = index_of(check_outs, number) else {
        unreachable!()
    };
    match check_outs.remove(index) {
        AnyCheckOut::Held(held) => (index, held),
        AnyCheckOut::Waiting(_) => unreachable!(),
    }
}

// Puts a check-out back at the index that it was taken from. There must be room.
fn put_back<A: Allocator>(
    check_outs: &mut Vec<AnyCheckOut<A>, A>,
    index: usize,
    held: CheckOut<Held<A>>,
)
    requires there { index ≤ vec_len check_outs.old }
    requires room { vec_len check_outs.old < vec_capacity check_outs.old }
    ensures { check_outs.new.items ≡ insert check_outs.old.items index (typed.Held held) }
{
    check_outs.insert(index, AnyCheckOut::Held(held)).unwrap();
}

/// Closes the check-out of this number, which must be granted: its drafts become versions, all or
/// none. A refusal leaves it as it was.
pub fn close_at<A: Allocator + Copy>(
    check_outs: &mut Vec<AnyCheckOut<A>, A>,
    shelf: &mut Shelf<A>,
    number: u32,
) -> Result<u32, Stop>
    requires ascending { IsAscending check_outs.old.items }
    requires held { is_open check_outs.old.items number ≡ true }
    requires few { length (drafts_at check_outs.old.items number) ≤ most_drafts }
    ensures allowed { OnOk result (is_shelvable shelf.old (drafts_at check_outs.old.items number) ≡ true) }
    ensures count { IfOk result (λ count. count ≡ length (drafts_at check_outs.old.items number)) }
    ensures shelved { OnOk result (shelf.new ≡ shelved_all shelf.old (drafts_at check_outs.old.items number)) }
    ensures closed { OnOk result (check_outs.new.items ≡ without_check_out check_outs.old.items number) }
    ensures refused { IfErr result (IsCloseRefusal (is_shelvable shelf.old (drafts_at check_outs.old.items number))) }
    ensures unchanged { OnErr result (check_outs.new.items ≡ check_outs.old.items) }
    ensures same_shelf { OnErr result (shelf.new ≡ shelf.old) }
{
    let (index, held) = take_held(check_outs, number);
    let drafts = held.close();
    let count = drafts.as_slice().len() as u32;
    match shelf.append_all(drafts) {
        Ok(()) => Ok(count),
        Err(NotAppended::Limit(drafts)) => {
            put_back(check_outs, index, CheckOut::reopened(number, drafts));
            Err(Stop::Refused(Refusal::Limit))
        }
        Err(NotAppended::NoMemory(drafts)) => {
            put_back(check_outs, index, CheckOut::reopened(number, drafts));
            Err(Stop::OutOfMemory)
        }
    }
}
