//! The check-outs of a book, each typed by its standing, by rising number.
ghost use Rattle.std.specs.Prelude.{◌≡◌, ◌<◌, ◌==◌, true, ◌∷◌, [], ◌++◌, vec_len, vec_capacity, length, position, slice_get, Some, IfSome, OnOk, OnErr};
ghost use Rattle.std.specs.Option.{option_copied};
ghost use Rattle.check_outs.specs.Typed.{number_of, own_drafts, check_out_of, is_held_standing, granted_if, recalled_unless, is_open, drafts_at, with_saved, without_check_out, IsAscending};
ghost use Rattle.check_outs.specs.declared.any.AnyCheckOut.TheVariants as typed;

use crate::check_out::{CheckOut, Held, Waiting};
use std::alloc::Allocator;
use std::mem::replace;
use vault_model::{DraftIn, NoMemory, Standing};

/// A check-out, typed by its standing.
#[derive(Drop)]
pub enum AnyCheckOut<A: Allocator> {
    Waiting(CheckOut<Waiting<A>>),
    Held(CheckOut<Held<A>>),
}

impl<A: Allocator> AnyCheckOut<A> {
    /// The number of its claim.
    pub fn number(&self) -> u32
        ensures { result ≡ number_of self.now }
    {
        match self {
            AnyCheckOut::Waiting(waiting) => waiting.number(),
            AnyCheckOut::Held(held) => held.number(),
        }
    }

    /// Its drafts, by rising place.
    pub fn drafts(&self) -> &[DraftIn<A>]
        ensures { result.now ≡ own_drafts self.now }
    {
        match self {
            AnyCheckOut::Waiting(_) => &[],
            AnyCheckOut::Held(held) => held.drafts(),
        }
    }

    /// Gives it up, with its drafts. Returns the number of its claim.
    pub fn withdraw(self) -> u32
        ensures { result ≡ number_of self }
    {
        match self {
            AnyCheckOut::Waiting(waiting) => waiting.withdraw(),
            AnyCheckOut::Held(held) => held.withdraw(),
        }
    }
}

impl<A: Allocator> AnyCheckOut<A> {
    /// A new check-out, typed by its claim's standing.
    pub fn asked(alloc: A, number: u32, standing: Standing) -> AnyCheckOut<A>
        ensures { result ≡ granted_if (is_held_standing (Some standing)) (typed.Waiting (record { number = number; state = tt })) }
    {
        let waiting = CheckOut::asked(alloc, number);
        match standing {
            Standing::Held => AnyCheckOut::Held(waiting.grant()),
            Standing::Queued(_) => AnyCheckOut::Waiting(waiting),
        }
    }

    /// The check-out. A waiting one becomes granted (`Held`), if its claim is.
    pub fn granted_if(self, holds: bool) -> AnyCheckOut<A>
        ensures { result ≡ granted_if holds self }
    {
        match self {
            AnyCheckOut::Waiting(waiting) if holds => AnyCheckOut::Held(waiting.grant()),
            other => other,
        }
    }
}

impl<A: Allocator + Copy> AnyCheckOut<A> {
    /// The check-out. One without drafts is recalled (`Waiting` again), if its claim isn't granted.
    pub fn recalled_unless(self, holds: bool) -> AnyCheckOut<A>
        ensures { result ≡ recalled_unless holds self }
    {
        match self {
            AnyCheckOut::Held(held) if !holds && held.drafts().is_empty() => {
                AnyCheckOut::Waiting(held.recall())
            }
            other => other,
        }
    }
}

fn position_of<A: Allocator>(check_outs: &[AnyCheckOut<A>], number: u32) -> Option<usize>
    ensures { result ≡ position (λ c. number_of c == number) check_outs.now }
{
    check_outs
        .iter()
        .position(|check_out| check_out.number() == number)
}

/// The index of the check-out of this number.
pub fn index_of<A: Allocator>(check_outs: &[AnyCheckOut<A>], number: u32) -> Option<usize>
    ensures bound { IfSome result (λ i. i < length check_outs.now) }
    ensures there { IfSome result (λ i. slice_get check_outs.now i ≡ check_out_of check_outs.now number) }
    ensures index { result ≡ position (λ c. number_of c == number) check_outs.now }
{
    position_of(check_outs, number)
}

/// The check-out of this number.
pub fn check_out_at<A: Allocator>(
    check_outs: &[AnyCheckOut<A>],
    number: u32,
) -> Option<&AnyCheckOut<A>>
    ensures { option_copied result ≡ check_out_of check_outs.now number }
{
    check_outs
        .iter()
        .find(|check_out| check_out.number() == number)
}

/// The drafts of the check-out of this number, by rising place; none if there is no such one.
pub fn drafts_at<A: Allocator>(check_outs: &[AnyCheckOut<A>], number: u32) -> &[DraftIn<A>]
    ensures { result.now ≡ drafts_at check_outs.now number }
{
    match check_out_at(check_outs, number) {
        Some(check_out) => check_out.drafts(),
        None => &[],
    }
}

/// Saves a draft in the check-out of this number, which must be granted.
pub fn save_at<A: Allocator>(
    check_outs: &mut Vec<AnyCheckOut<A>, A>,
    number: u32,
    draft: DraftIn<A>,
) -> Result<(), NoMemory>
    requires { is_open check_outs.old.items number ≡ true }
    ensures ok { OnOk result (check_outs.new.items ≡ with_saved check_outs.old.items number draft) }
    ensures err { OnErr result (check_outs.new.items ≡ check_outs.old.items) }
{
    let Some(index) = index_of(check_outs, number) else {
        unreachable!()
    };
    match &mut check_outs[index] {
        AnyCheckOut::Held(held) => held.save(draft),
        AnyCheckOut::Waiting(_) => unreachable!(),
    }
}

// Moves a check-out out of its slot. The caller puts there what becomes of it.
fn taken<A: Allocator>(check_out: &mut AnyCheckOut<A>, alloc: A) -> AnyCheckOut<A>
    ensures { result ≡ check_out.old }
{
    replace(check_out, AnyCheckOut::Waiting(CheckOut::asked(alloc, 0)))
}

/// Grants a waiting check-out, if its claim is granted.
pub fn grant_one<A: Allocator>(check_out: &mut AnyCheckOut<A>, alloc: A, holds: bool)
    ensures { check_out.new ≡ granted_if holds check_out.old }
{
    *check_out = taken(check_out, alloc).granted_if(holds);
}

/// Recalls a granted check-out without drafts (it waits again), unless its claim is granted.
pub fn recall_one<A: Allocator + Copy>(check_out: &mut AnyCheckOut<A>, alloc: A, holds: bool)
    ensures { check_out.new ≡ recalled_unless holds check_out.old }
{
    *check_out = taken(check_out, alloc).recalled_unless(holds);
}

/// Puts a new check-out last, typed by its claim's standing. There must be room.
pub fn put_last<A: Allocator + Copy>(
    check_outs: &mut Vec<AnyCheckOut<A>, A>,
    number: u32,
    standing: Standing,
)
    requires { vec_len check_outs.old < vec_capacity check_outs.old }
    ensures { check_outs.new.items ≡ check_outs.old.items
        ++ granted_if (is_held_standing (Some standing)) (typed.Waiting (record { number = number; state = tt })) ∷ [] }
{
    let check_out = AnyCheckOut::asked(*check_outs.allocator(), number, standing);
    check_outs.push(check_out).unwrap();
}

/// Removes the check-out of this number, with its drafts.
pub fn withdraw_at<A: Allocator>(check_outs: &mut Vec<AnyCheckOut<A>, A>, number: u32)
    requires { IsAscending check_outs.old.items }
    ensures { check_outs.new.items ≡ without_check_out check_outs.old.items number }
{
    if let Some(index) = index_of(check_outs, number) {
        check_outs.remove(index).withdraw();
    }
}
