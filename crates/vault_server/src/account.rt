//! What the connections of a place came to, and what was seen of the vault for them.
ghost use Rattle.std.specs.Prelude.{◌≡◌, ◌++◌, ◌∷◌, [], All, IfSome};
ghost use Rattle.group_commit.specs.View.{View};
ghost use Rattle.vault_sessions.specs.Sights.{WentThrough, seen_by};
ghost use Rattle.vault_sessions.specs.Reports.{IsReported, IsServed, reported};

use crate::reports::Reports;
use std::alloc::Allocator;
use std::marker::Model;
use tcp_door::Wire;
use vault_sessions::{Answers, Ended, Sight, Tally, all_seen};

/// What the connections of a place came to, and what was seen of the vault for them.
#[derive(Drop)]
pub(crate) struct Account<S: Tally, A: Allocator> {
    reports: Reports<A>,
    sight: Option<Sight<S>>,
}

impl<S: Tally, A: Allocator> Model for Account<S, A> {
    ghost use Rattle.std.specs.Prelude.{All};
    ghost use Rattle.vault_sessions.specs.Sights.{seen_by};
    ghost use Rattle.vault_server.specs.AtAccount.{AtAccount};
    ghost use Rattle.vault_sessions.specs.Reports.{IsReported};

    ghost Value = { AtAccount A };

    ghost view = { λ a. record { reports = a.reports; seen = seen_by a.sight } };

    // The invariant of lib.rt.
    ghost invariant = { λ a. All (IsReported (seen_by a.sight)) a.reports };
}

impl<S: Tally, A: Allocator> Account<S, A> {
    /// No connection was served.
    pub fn new() -> Account<S, A>
        ensures { result ≡ record { reports = []; seen = [] } }
    {
        Account {
            reports: Reports::none(),
            sight: None,
        }
    }

    /// One more connection was served: it has this wire, these answers and this end, and its conversation saw this.
    pub fn with(
        self,
        wire: &Wire,
        answers: &Answers<A>,
        ended: Ended,
        sight: Option<Sight<S>>,
    ) -> Account<S, A>
        requires { IsReported (seen_by sight) (reported wire.now.heard wire.now.stream answers.now ended) }
        ensures { result.reports ≡ self.reports ++ reported wire.now.heard wire.now.stream answers.now ended ∷ [] }
    {
        let Account {
            reports,
            sight: before,
        } = self;
        Account {
            reports: reports.with(wire, answers, ended),
            sight: all_seen(before, sight),
        }
    }

    /// What these connections came to, and others.
    pub fn and(self, other: Account<S, A>) -> Account<S, A>
        ensures { result.reports ≡ self.reports ++ other.reports }
    {
        let Account { reports, sight } = self;
        let Account {
            reports: more,
            sight: seen,
        } = other;
        Account {
            reports: reports.and(more),
            sight: all_seen(sight, seen),
        }
    }

    /// The reports, of a vault of which this is all that was seen. None where more was seen for these connections, which never is.
    pub fn of_vault(self, sight: &Sight<S>) -> Option<Reports<A>>
        ensures same { IfSome result (λ reports. reports ≡ self.reports) }
        ensures served { IfSome result (λ reports. (old new : View) → WentThrough old new sight.now → All (IsServed old new) reports) }
    {
        let Account {
            reports,
            sight: seen,
        } = self;
        if sight.covers(&seen) {
            Some(reports)
        } else {
            None
        }
    }
}
