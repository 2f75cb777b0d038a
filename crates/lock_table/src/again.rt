//! Which claims are weighed again after a change of the line.
ghost use Rattle.std.specs.Prelude.{◌≡◌};
ghost use Rattle.lock_table.specs.Queues.{is_taken};

use lock_queue::{is_same, is_short};
use vault_state::ClaimId;

/// The claims that waited for one claim, those that waited for any short one, or all.
#[derive(Clone, Copy)]
pub(crate) enum Again {
    Behind(ClaimId),
    BehindShort,
    Everyone,
}

impl Again {
    /// Whether a claim with this blocker is weighed again.
    pub(crate) fn takes(self, blocker: Option<ClaimId>) -> bool
        ensures { result ≡ is_taken self blocker }
    {
        match (self, blocker) {
            (Again::Everyone, _) => true,
            (Again::Behind(id), Some(other)) => is_same(other, id),
            (Again::BehindShort, Some(other)) => is_short(other),
            (Again::Behind(_) | Again::BehindShort, None) => false,
        }
    }
}
