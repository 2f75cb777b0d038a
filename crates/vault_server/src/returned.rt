//! What the threads of a server give back.
ghost use Rattle.std.specs.Prelude.{◌≡◌};
ghost use Rattle.vault_sessions.specs.Reports.{AreCounted, sums_of};

use crate::account::Account;
use crate::place::Place;
use std::alloc::Allocator;
use vault_sessions::{Share, Tally};

/// The shares of places that came back, and what the connections of all these came to.
#[derive(Drop)]
pub(crate) struct Returned<S: Tally, T: Tally, A: Allocator> {
    pub shares: Vec<Share<S, T>, A>,
    pub account: Account<S, A>,
    ghost counted: { AreCounted account.reports (sums_of shares.items) },
}

impl<S: Tally, T: Tally, A: Allocator + Copy> Returned<S, T, A> {
    /// None yet, with room for as many. None where memory is refused.
    pub fn with_room(alloc: A, count: usize) -> Option<Returned<S, T, A>> {
        let mut shares = Vec::new(alloc);
        let Ok(()) = shares.reserve(count) else {
            return None;
        };
        Some(Returned {
            shares,
            account: Account::new(),
        })
    }

    /// These, and that of one more place. It is left out where there is no room for it.
    #[tactic(auto, using(vault_sessions::proofs::Reporting::counted_beside))]
    pub fn and(self, place: Place<S, T, A>) -> Returned<S, T, A> {
        let Returned {
            mut shares,
            account,
        } = self;
        let Place {
            share,
            account: more,
        } = place;
        if shares.push(share).is_err() {
            return Returned { shares, account };
        }
        Returned {
            shares,
            account: account.and(more),
        }
    }
}
