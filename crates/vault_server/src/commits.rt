//! Committing, by the threads that serve connections: a thread commits if it finds that a commit is due, and that no other thread
//! commits.
//!
//! Each thread asks once in each of its rounds, whatever else it has to do. `Desk::due` says whether a commit or a snapshot is due.

use flusher_pace::{Gathering, Silence};
use std::alloc::Allocator;
use std::sync::{Mutex, Wait};
use std::time::{Clock, Duration};
use vault_device::Device;
use vault_sessions::{Due, Flusher, Gate, Tally};

/// The thread that has it commits. No other thread sleeps to get it.
#[derive(Debug, Clone, Copy, PartialEq, Eq)]
pub(crate) struct CommitToken;

/// One thread's part in committing.
#[derive(Drop)]
pub(crate) struct Committer<'a, D: Device, S: Tally, T: Tally, A: Allocator, G: Gate, H> {
    /// What it commits by.
    pub flusher: Flusher<'a, D, S, T, A, G, H>,
    token: &'a Mutex<CommitToken>,
    gathering: Gathering,
    silence: Silence,
}

/// What a try to commit came to.
#[derive(Debug, Clone, Copy, PartialEq, Eq)]
pub(crate) enum CommitTry {
    /// There is nothing to commit, or another thread commits.
    NotNow,
    /// It is better to wait, for this long at most.
    Early(Duration),
    /// Nothing became durable.
    InVain,
    /// There is room again, questions became durable without a device call, a snapshot is done, or the vault is broken now.
    Settled,
    /// A commit.
    Committed,
}

impl CommitTry {
    /// Whether an entry may be durable now, or the token is free again that another thread found taken.
    pub fn may_settle(self) -> bool {
        matches!(
            self,
            CommitTry::InVain | CommitTry::Settled | CommitTry::Committed
        )
    }
}

impl<'a, D: Device, S: Tally, T: Tally, A: Allocator + Copy, G: Gate, H: Wait + Clock> Committer<
    'a,
    D,
    S,
    T,
    A,
    G,
    H,
> {
    /// It commits by this flusher.
    pub fn new(
        flusher: Flusher<'a, D, S, T, A, G, H>,
        token: &'a Mutex<CommitToken>,
    ) -> Committer<'a, D, S, T, A, G, H> {
        Committer {
            flusher,
            token,
            gathering: Gathering::new(),
            silence: Silence::new(),
        }
    }

    /// Does what is due, unless another thread is doing so. That thread rings this one's bell once it is done.
    pub fn commit(&mut self) -> CommitTry {
        let due = self.flusher.due(&mut self.gathering, &mut self.silence);
        match due {
            Due::Nothing => return CommitTry::NotNow,
            Due::In(left) => return CommitTry::Early(left),
            Due::Snapshot | Due::Commit(_) => {}
        }
        let Some(token) = self.token.try_lock() else {
            return CommitTry::NotNow;
        };
        self.gathering = Gathering::new();
        let tried = match due {
            Due::Commit(settled) => self.commit_behind(settled),
            _ if self.flusher.renew() => CommitTry::Settled,
            _ => CommitTry::InVain,
        };
        drop(token);
        tried
    }

    // Commits what is staged. `settled` is the number of entries that are durable already.
    fn commit_behind(&self, settled: u64) -> CommitTry {
        let has_room = self.flusher.retire();
        if self.flusher.commit(settled) {
            return CommitTry::Committed;
        }
        if has_room || self.flusher.settled() != Some(settled) {
            CommitTry::Settled
        } else {
            CommitTry::InVain
        }
    }
}
