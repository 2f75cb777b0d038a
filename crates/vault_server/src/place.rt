//! A place, at which connections are served one after another.
ghost use Rattle.std.specs.Prelude.{◌≡◌};
ghost use Rattle.vault_sessions.specs.Reports.{AreCounted};

use crate::account::Account;
use std::alloc::Allocator;
use vault_sessions::{Share, Tally};

/// A place, at which connections are served one after another: its share, and what its connections came to, which is what the share
/// counted.
#[derive(Drop)]
pub(crate) struct Place<S: Tally, T: Tally, A: Allocator> {
    pub share: Share<S, T>,
    pub account: Account<S, A>,
    ghost counted: { AreCounted account.reports share },
}

impl<S: Tally, T: Tally, A: Allocator> Place<S, T, A> {
    /// One at which nobody was served yet.
    pub fn new(share: Share<S, T>) -> Place<S, T, A>
        requires { (share.staged ≡ 0) × (share.told ≡ 0) }
    {
        Place {
            share,
            account: Account::new(),
        }
    }
}
