//! The flusher commits what the workers staged.
ghost use Rattle.std.specs.Prelude.{IfErr};
ghost use Rattle.vault_desk.specs.Flushes.{HasFlushed};

use crate::desk::Due;
use crate::gate::{Gate, Point};
use crate::shared::Shared;
use crate::tally::Tally;
use flusher_pace::{Commit, Gathering, Silence};
use group_commit::{Pumped, Retired, Started};
use std::alloc::Allocator;
use std::sync::Wait;
use std::time::{Clock, Instant};
use vault_device::Device;

/// Why a flusher ended.
#[derive(Debug, Clone, Copy, PartialEq, Eq)]
pub enum Flushed {
    /// `Shared::close` was called, every entry is durable, and no snapshot is under way.
    Closed,
    /// A device call failed.
    Broken,
}

/// Commits while something isn't durable and sleeps otherwise, until the desk is closed or the vault is broken. `Desk` says what is due
/// when. The lock is held for one pump at a time, which makes at most one device call. Workers are woken only after a pump that made
/// entries durable or failed. A snapshot is begun in a lock acquisition of its own, and pumped to its end. If the memory for it is
/// refused, it is begun after the next commit. Before each commit, the durable entries whose tickets aren't out are discarded, one per
/// lock acquisition.
pub fn run_flusher<D: Device, S: Tally, T: Tally, A: Allocator + Copy, G: Gate, H: Wait + Clock>(
    rt: &H,
    shared: &Shared<D, S, T, A>,
    gate: &G,
) -> Flushed
    ensures { HasFlushed S.beginning result }
{
    let flusher = Flusher::new(rt, shared, gate);
    let mut silence = Silence::new();
    for _ in rt.forever() {
        match flusher.wait(&mut silence) {
            Ok(Due::Snapshot) => flusher.renew(),
            Ok(Due::Commit(settled)) => {
                flusher.retire();
                flusher.commit(settled)
            }
            Ok(Due::Nothing | Due::In(_)) => false,
            Err(flushed) => return flushed,
        };
    }
    unreachable!()
}

/// The steps of a flusher: for `run_flusher`, and for threads that serve connections and commit in between.
#[derive(Drop)]
pub struct Flusher<'a, D: Device, S: Tally, T: Tally, A: Allocator, G: Gate, H> {
    rt: &'a H,
    shared: &'a Shared<D, S, T, A>,
    gate: &'a G,
}

impl<'a, D: Device, S: Tally, T: Tally, A: Allocator + Copy, G: Gate, H: Wait + Clock> Flusher<
    'a,
    D,
    S,
    T,
    A,
    G,
    H,
> {
    /// A flusher of what lies under this lock.
    pub fn new(
        rt: &'a H,
        shared: &'a Shared<D, S, T, A>,
        gate: &'a G,
    ) -> Flusher<'a, D, S, T, A, G, H> {
        Flusher { rt, shared, gate }
    }

    // Waits until something is due. Else it says why the flusher ends.
    fn wait(&self, silence: &mut Silence) -> Result<Due, Flushed>
        ensures { IfErr result (λ flushed. HasFlushed S.beginning flushed) }
    {
        let shared = self.shared;
        let mut gathering = Gathering::new();
        let mut desk = shared.desk.lock(self.rt);
        for _ in self.rt.forever() {
            let left = match desk.due(self.rt, &mut gathering, silence) {
                Due::Nothing => None,
                Due::In(left) => Some(left),
                due => {
                    drop(desk);
                    return Ok(due);
                }
            };
            if let (None, Some(flushed)) = (left, desk.flushed()) {
                drop(desk);
                return Err(flushed);
            }
            let was_quiet = desk.is_quiet();
            let work = &shared.work;
            desk = match left {
                None => work.wait_while(self.rt, desk, |desk| desk.sleeps(was_quiet)),
                Some(left) => work
                    .wait_timeout_while(self.rt, desk, left, |desk| desk.sleeps(was_quiet))
                    .0,
            };
        }
        drop(desk);
        Ok(Due::Nothing)
    }

    /// Discards the durable entries whose tickets aren't out, the oldest first. Says whether there were any. By now the clients that
    /// the last commit answered wait for the next one, and not for the lock.
    pub fn retire(&self) -> bool {
        let shared = self.shared;
        let mut had_one = false;
        for _ in self.rt.forever() {
            let retired = shared.desk.lock(self.rt).makes_room();
            if retired == Retired::Nothing {
                return had_one;
            }
            had_one = true;
        }
        had_one
    }

    /// Makes a snapshot, unless it can't be begun. Says whether it was begun.
    pub fn renew(&self) -> bool {
        let shared = self.shared;
        let started = shared.desk.lock(self.rt).start_on();
        let has_begun = started == Ok(Started::Yes);
        if has_begun {
            self.settle();
        }
        has_begun
    }

    /// Commits what is staged. `settled` is the number of entries that are durable already. Says whether it called the device.
    pub fn commit(&self, settled: u64) -> bool {
        let shared = self.shared;
        let Some(commit) = self.settle() else {
            return false;
        };
        shared.desk.lock(self.rt).committed(settled, commit);
        true
    }

    // Pumps until entries are durable, or a device call failed, and wakes the workers that wait at the desk. Gives the commit, if it
    // called the device.
    fn settle(&self) -> Option<Commit> {
        let shared = self.shared;
        let began = Instant::now(self.rt).ok();
        let mut was_moved = false;
        for _ in self.rt.forever() {
            self.gate.at(Point::Pump);
            let pumped = shared.desk.lock(self.rt).pump_on();
            if pumped != Ok(Pumped::Moved) {
                break;
            }
            was_moved = true;
        }
        shared.settled.notify_all();
        if was_moved {
            Some(Commit::since(self.rt, began))
        } else {
            None
        }
    }

    /// What is to be done at the files, for threads that do it between steps of connections.
    pub fn due(&self, gathering: &mut Gathering, silence: &mut Silence) -> Due {
        let shared = self.shared;
        shared.desk.lock(self.rt).due(self.rt, gathering, silence)
    }

    /// The number of durable entries. None if the vault is broken.
    pub fn settled(&self) -> Option<u64> {
        let shared = self.shared;
        shared.desk.lock(self.rt).settled()
    }

    /// Lets the next commit wait for `coming` more entries, beyond those that the last one made durable and those staged since it
    /// began. These are the lines that have come and aren't heard yet. To be called before any client is answered: an answered one
    /// comes back, and would be counted twice.
    pub fn expects_more(&self, coming: u64) {
        let shared = self.shared;
        shared.desk.lock(self.rt).expects_more(coming);
    }
}
