//! What each connection that was served came to, as contracts see it.
ghost use Rattle.std.specs.Prelude.{◌≡◌, ◌++◌, ◌∷◌, []};
ghost use Rattle.vault_sessions.specs.Reports.{reported};

use std::alloc::Allocator;
use std::marker::Model;
use std::snapshot::Snapshot;
use tcp_door::Wire;
use vault_sessions::{Answers, Ended};

// Reports as contracts see them.
#[derive(Drop)]
pub(crate) enum Log<A: Allocator> {
    Empty,
    // Those before it; and the wire of the last connection as it was at its end, its answers, and why it ended.
    More(Snapshot<Log<A>>, Snapshot<Wire>, Snapshot<Answers<A>>, Ended),
    // Some, and others.
    Both(Snapshot<Log<A>>, Snapshot<Log<A>>),
}

/// What each connection that was served came to. Contracts alone see it, and it takes no memory.
#[derive(Drop)]
pub struct Reports<A: Allocator> {
    log: Snapshot<Log<A>>,
}

impl<A: Allocator> Model for Reports<A> {
    ghost use Rattle.std.specs.Prelude.{List};
    ghost use Rattle.vault_sessions.specs.Reports.{Report};
    ghost use Rattle.vault_server.specs.Logs.{logged};

    ghost Value = { List (Report A) };

    ghost view = { λ r. logged r.log.value };
}

impl<A: Allocator> Reports<A> {
    /// None.
    pub(crate) fn none() -> Reports<A>
        ensures { result ≡ [] }
    {
        Reports {
            log: Snapshot::of(&Log::Empty),
        }
    }

    /// These, and one more: of a connection with this wire, these answers and this end.
    pub(crate) fn with(self, wire: &Wire, answers: &Answers<A>, ended: Ended) -> Reports<A>
        ensures { result ≡ self ++ reported wire.now.heard wire.now.stream answers.now ended ∷ [] }
    {
        let Reports { log } = self;
        let more = Log::More(log, Snapshot::of(wire), Snapshot::of(answers), ended);
        Reports {
            log: Snapshot::of(&more),
        }
    }

    /// These, and others.
    pub(crate) fn and(self, others: Reports<A>) -> Reports<A>
        ensures { result ≡ self ++ others }
    {
        let Reports { log } = self;
        let Reports { log: more } = others;
        let both = Log::Both(log, more);
        Reports {
            log: Snapshot::of(&both),
        }
    }
}
