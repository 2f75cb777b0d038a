//! The past of a served vault, as far as it was seen.
ghost use Rattle.std.specs.Prelude.{◌≡◌, [], ◌∷◌, ◌++◌, length, IfSome, IsTrue};
ghost use mathlib.Core.List.{IsPrefix};
ghost use Rattle.vault_desk.specs.Sights.{head_of, seen_by};

use crate::moment::{Add, Law, Moment, Nothing};
use crate::tally::Tally;
use group_commit::Vault;
use logbook::{Offer, Seen, Start, Word};
use std::alloc::Allocator;
use std::marker::{Model, PhantomData};
use std::sync::Wait;
use vault_device::Device;

/// A past with nothing in it, which no type stands for yet. Contracts see the book that it is kept in.
#[derive(Drop)]
pub struct NewPast {
    head: Word<Moment, u64, Law>,
    seen: Seen<Moment, u64, Law>,
}

impl Model for NewPast {
    ghost use Rattle.std.specs.Prelude.{◌≡◌, []};
    ghost use Rattle.logbook.specs.Pages.{Book};
    ghost use Rattle.vault_desk.specs.Sights.{head_of};

    ghost Value = { Book };

    ghost view = { λ p. p.seen.book };

    ghost invariant = { λ p. (p.seen.log ≡ []) × (p.head ≡ head_of p.seen.book) };
}

impl NewPast {
    /// A new one.
    pub fn new() -> NewPast {
        let (seen, mut first, _second) = Seen::open(Start::alone(), 0, 0);
        NewPast {
            head: Word::tracked(0, &mut first),
            seen,
        }
    }

    // The past of the vault of these tallies, and all that was seen of it: nothing.
    pub(crate) fn begin<S: Tally>(self) -> (Past<S>, Sight<S>)
        requires { self ≡ S.book }
        ensures { result.1 ≡ [] }
    {
        let NewPast { head, seen } = self;
        (
            Past {
                head,
                of: PhantomData,
            },
            Sight {
                count: 0,
                seen,
                of: PhantomData,
            },
        )
    }
}

/// The past of a vault. It lies with the vault under its lock, and has the number of moments that were added.
#[derive(Drop)]
pub(crate) struct Past<S: Tally> {
    head: Word<Moment, u64, Law>,
    of: PhantomData<S>,
    ghost head_is: { head ≡ head_of S.book },
}

/// A beginning of the past of a vault, which was seen. Contracts see it as the views of the vault at its moments, the earliest first.
#[derive(Drop)]
pub struct Sight<S: Tally> {
    count: u64,
    seen: Seen<Moment, u64, Law>,
    of: PhantomData<S>,
}

impl<S: Tally> Model for Sight<S> {
    ghost use Rattle.std.specs.Prelude.{◌≡◌, List, length};
    ghost use Rattle.group_commit.specs.View.{View};

    ghost Value = { List View };

    ghost view = { λ s. s.seen.log };

    // Invariant 8 of lib.rt.
    ghost invariant = { λ s. (s.count ≡ length s.seen.log) × (s.seen.book ≡ S.book) };
}

impl<S: Tally> Sight<S> {
    // The same.
    pub(crate) fn again(&self) -> Sight<S>
        ensures { result ≡ self.now }
    {
        Sight {
            count: self.count,
            seen: self.seen.again(),
            of: PhantomData,
        }
    }

    // The longer one of two, which the other one begins.
    pub(crate) fn longer(&self, other: &Sight<S>) -> Sight<S>
        ensures this { IsPrefix self.now result }
        ensures that { IsPrefix other.now result }
    {
        let mut both = self.seen.again();
        both.learn(&other.seen);
        if self.count < other.count {
            other.again()
        } else {
            self.again()
        }
    }

    // All that was seen, and then the vault as it is. Only who has the past adds to it, so the first try succeeds.
    pub(crate) fn and<D: Device, A: Allocator, H: Wait>(
        &self,
        rt: &H,
        past: &Past<S>,
        vault: &Vault<D, A>,
    ) -> Sight<S>
        ensures { result ≡ self.now ++ vault.now.view ∷ [] }
    {
        for _ in rt.forever() {
            if let Some(sight) = self.try_and(past, vault) {
                return sight;
            }
        }
        unreachable!()
    }

    // The same. None where more was added than was seen.
    fn try_and<D: Device, A: Allocator>(
        &self,
        past: &Past<S>,
        vault: &Vault<D, A>,
    ) -> Option<Sight<S>>
        ensures { IfSome result (λ sight. sight ≡ self.now ++ vault.now.view ∷ []) }
    {
        let next = self.count.checked_add(1)?;
        let mut seen = self.seen.again();
        let mut offer: Offer<Moment, u64, Law, Nothing> = seen.plain::<Nothing, Vault<D, A>, Add>(
            vault,
        );
        let mut pen = seen.no_pen();
        let found = past
            .head
            .compare_exchange::<Add, Nothing>(self.count, next, &mut seen, &mut offer, &mut pen);
        if found != self.count {
            return None;
        }
        Some(Sight {
            count: next,
            seen,
            of: PhantomData,
        })
    }

    /// Whether all that somebody saw was seen here, too. None: nothing was seen.
    pub fn covers(&self, other: &Option<Sight<S>>) -> bool
        ensures { IsTrue result → IsPrefix (seen_by other.now) self.now }
    {
        match other {
            Some(other) => self.begins_with(other),
            None => true,
        }
    }

    // The same of what was seen.
    fn begins_with(&self, other: &Sight<S>) -> bool
        ensures { IsTrue result → IsPrefix other.now self.now }
    {
        let mut both = self.seen.again();
        both.learn(&other.seen);
        other.count <= self.count
    }
}

/// All that was seen by either. Of two sights of one vault, one begins the other.
pub fn all_seen<S: Tally>(one: Option<Sight<S>>, other: Option<Sight<S>>) -> Option<Sight<S>>
    ensures one { IsPrefix (seen_by one) (seen_by result) }
    ensures other { IsPrefix (seen_by other) (seen_by result) }
{
    match other {
        Some(more) => {
            let mut all = one;
            add_to(&mut all, more);
            all
        }
        None => one,
    }
}

// What was seen before, and this, too.
pub(crate) fn add_to<S: Tally>(sight: &mut Option<Sight<S>>, more: Sight<S>)
    ensures same { IsPrefix (seen_by sight.old) (seen_by sight.new) }
    ensures more { IsPrefix more (seen_by sight.new) }
{
    let all = joined(sight, more);
    *sight = Some(all);
}

fn joined<S: Tally>(sight: &Option<Sight<S>>, more: Sight<S>) -> Sight<S>
    ensures same { IsPrefix (seen_by sight.now) result }
    ensures more { IsPrefix more result }
{
    match sight {
        Some(sight) => sight.longer(&more),
        None => more,
    }
}
