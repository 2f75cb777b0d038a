//! What a dialogue does next, and what it came to.
ghost use Rattle.std.specs.Prelude.{◌≡◌};

use crate::last_leave::LastLeave;
use std::alloc::{Allocator, Global};
use vault_desk::{Answers, Ended, Share, Sight, Tally, Turn};

// What a dialogue does next.
pub(crate) enum Next<A: Allocator> {
    // This turn. If the conversation is over, an open session gets a last leave.
    Takes(Turn<A>),
    // It was given up, and ended so. If there is a further step, an open session gets a last leave.
    GivenUp(Ended),
    // Nothing. The open session, if there was one, has its last leave, or can't get one.
    Done(Ended, LastLeave),
    // Its turn is taken out, and comes back in a moment.
    TakenOut,
}

/// What a dialogue came to.
#[derive(Drop)]
pub struct Finished<S: Tally, T: Tally, A: Allocator = Global> {
    /// The answers to its lines.
    pub answers: Answers<A>,
    /// The worker's share.
    pub share: Share<S, T>,
    /// What it saw of the vault.
    pub sight: Option<Sight<S>>,
    /// Why it ended.
    pub ended: Ended,
    /// How it left its session. None if it was given up before that.
    pub left: Option<LastLeave>,
}

impl<S: Tally, T: Tally, A: Allocator + Copy> Finished<S, T, A> {
    /// The share, and why it ended.
    pub fn into_share(self) -> (Share<S, T>, Ended)
        ensures { (result.0 ≡ self.share) × (result.1 ≡ self.ended) }
    {
        let Finished {
            answers,
            share,
            sight: _,
            ended,
            left: _,
        } = self;
        drop(answers);
        (share, ended)
    }
}
