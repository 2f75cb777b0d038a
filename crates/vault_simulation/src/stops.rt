//! The long run, stopped by a crash inside each device call. Each pair of files that the crashes can leave is opened.

use crate::long_run::{LONG_RUN, Start, Step, play, play_all, prepared};
use group_commit::{File, OpenError, Pumped, Started, Vault};
use std::alloc::Global;
use test_oracle::{Bytes, Files, Judge, Left, Talk, Verdict, World, are_alike, are_states};
use vault_checkout::Book;
use vault_device::{MemDevice, Pick};

// What a crash may leave of a device's unsynced bytes.
const PICKS: [Pick; 6] = [
    Pick::Old,
    Pick::New,
    Pick::Bytes(0),
    Pick::Bytes(1),
    Pick::Bytes(7),
    Pick::Bytes(255),
];

// More device calls of a file than the long run makes.
const MAX_CALLS: u64 = 1000;

// More pumps than a snapshot takes.
const MAX_PUMPS: u32 = 100;

// What is done after a fault: the vault takes no command and makes no device call, but still answers what is durable.
const BROKEN: [Step; 5] = [
    Step::Say(1, "list /"),
    Step::Pump,
    Step::Snapshot,
    Step::Redeem,
    Step::Retire,
];

/// The device call that the long run is crashed inside. The count includes the calls of its opening.
#[derive(Clone, Copy)]
pub(crate) struct Cut {
    pub(crate) start: Start,
    pub(crate) which: File,
    pub(crate) call: u64,
}

/// What a crash left, if both devices keep their unsynced bytes in the same way (`pick`).
#[derive(Drop)]
struct Stop {
    pick: Pick,
    // Whether the device call was made.
    made: bool,
    world: World,
    settled: Talk,
    sealed: Talk,
    bytes: Bytes,
}

/// What the crashes of the long run covered.
#[derive(Clone, Copy)]
pub(crate) struct Covered {
    pub(crate) calls: u64,
    /// How many pairs of files were opened, and how many of these gave entries that were sealed but not durable.
    pub(crate) pairs: u64,
    pub(crate) sealed: u64,
    /// How many acknowledged commands were found again, over all pairs.
    pub(crate) told: u64,
}

fn play_broken(judge: &mut Judge, vault: &mut Vault<MemDevice>) {
    for step in BROKEN {
        play(judge, vault, step);
    }
}

// The long run in these files, up to where a device call fails.
fn played(judge: &mut Judge, files: Files) -> Files {
    match files.open(judge.alloc, judge.world.life) {
        Ok(mut vault) => {
            play_all(judge, &mut vault, &LONG_RUN);
            play_broken(judge, &mut vault);
            Files::of(vault)
        }
        Err((why, files)) => {
            let told_to = why == OpenError::Device && judge.armed.is_some();
            judge.armed = None;
            judge.verdict.sure(told_to, "opening was refused");
            files
        }
    }
}

// The durable vaults after the durable entries, and after all entries that a crash may keep.
fn prefixes(judge: &Judge) -> Option<(Talk, Talk)> {
    let settled = judge.history.prefix(judge.world.settled)?;
    match judge.history.prefix(judge.world.most_left()) {
        Some(sealed) => Some((settled, sealed)),
        None => {
            drop(settled);
            None
        }
    }
}

// What is left of these files, if both devices keep their unsynced bytes in the same way.
fn left_by(judge: &mut Judge, files: Files, pick: Pick) -> Option<Stop> {
    let mut files = files;
    files.crash(Left::Crashed(pick), Left::Crashed(pick));
    let (settled, sealed) = match prefixes(judge) {
        Some(both) => both,
        None => {
            drop(files);
            return None;
        }
    };
    let bytes = files.bytes(judge.alloc);
    drop(files);
    Some(Stop {
        pick,
        made: judge.armed.is_none(),
        world: judge.world,
        settled,
        sealed,
        bytes,
    })
}

fn stopped_by(judge: &mut Judge, cut: Cut, pick: Pick) -> Option<Stop> {
    let mut files = prepared(judge, cut.start)?;
    files.fail_at(cut.which, cut.call);
    judge.armed = Some(cut.which);
    let files = played(judge, files);
    let has_told = judge.history.has_told(judge.world.settled);
    judge
        .verdict
        .sure(has_told, "a told command is not in what a stop leaves");
    left_by(judge, files, pick)
}

fn stopped(verdict: &mut Verdict, alloc: Global, cut: Cut, pick: Pick) -> Option<Stop> {
    let mut judge = Judge::new(alloc, *verdict)?;
    let stop = stopped_by(&mut judge, cut, pick);
    *verdict = judge.close();
    stop
}

// The durable vault after this number of entries: the durable or the sealed ones.
fn prefix(stop: &Stop, kept: u64) -> &Book {
    if kept == stop.world.settled {
        stop.settled.book()
    } else {
        stop.sealed.book()
    }
}

// Has a vault that was just opened write a snapshot, which shows all that it holds. Whether it began as a new life does, and the
// snapshot became durable.
fn is_written(vault: &mut Vault<MemDevice>) -> bool {
    let is_new = (vault.len(), vault.told(), vault.is_broken()) == (0, 0, false);
    if vault.start_snapshot() != Ok(Started::Yes) {
        return false;
    }
    for _ in 0..MAX_PUMPS {
        if vault.pump() == Ok(Pumped::Settled) {
            return is_new;
        }
    }
    false
}

// Whether the files open as this vault. The snapshot that it writes shows what it holds.
fn is_opened(alloc: Global, life: u64, want: &Book, files: Files) -> bool {
    let mut vault = match files.open(alloc, life) {
        Ok(vault) => vault,
        Err((_, files)) => {
            drop(files);
            return false;
        }
    };
    let is_written = is_written(&mut vault);
    let mut files = Files::of(vault);
    files.crash(Left::Crashed(Pick::Old), Left::Crashed(Pick::Old));
    let (read, files) = files.read(alloc);
    drop(files);
    match read {
        Ok(book) => {
            let same = are_alike(&book, want);
            drop(book);
            is_written && same
        }
        Err(_) => false,
    }
}

// Whether the files are reported as they were left, and open as this vault.
fn is_found(alloc: Global, world: &World, want: &Book, files: Files) -> bool {
    let mut files = files;
    let states = match files.report(alloc) {
        Some(report) => {
            let states = are_states(world, &report);
            drop(report);
            states
        }
        None => false,
    };
    is_opened(alloc, world.life, want, files) && states
}

// Whether the first file of one crash and the second of another open as the durable prefix, or as the sealed one if that is kept.
fn judge_pair(alloc: Global, covered: &mut Covered, one: &Stop, other: &Stop) -> bool {
    let mut world = one.world;
    let kept = world.stop(Left::Crashed(one.pick), Left::Crashed(other.pick));
    covered.pairs = covered.pairs.saturating_add(1);
    covered.told = covered.told.saturating_add(one.world.told);
    if kept != one.world.settled {
        covered.sealed = covered.sealed.saturating_add(1);
    }
    let first = one.bytes.first.as_slice();
    let second = other.bytes.second.as_slice();
    match Files::with(alloc, first, second) {
        Some(files) => is_found(alloc, &world, prefix(one, kept), files),
        None => false,
    }
}

fn judge_beside(alloc: Global, covered: &mut Covered, one: &Stop, stops: &[Stop]) -> bool {
    let mut sound = true;
    for other in stops {
        if !judge_pair(alloc, covered, one, other) {
            sound = false;
        }
    }
    sound
}

fn judge_pairs(verdict: &mut Verdict, alloc: Global, covered: &mut Covered, stops: &[Stop]) {
    for one in stops {
        let sound = judge_beside(alloc, covered, one, stops);
        verdict.sure(sound, "the files hold another vault than a prefix");
    }
}

// Adds what a crash inside a call left, if the call is made.
fn push_stop(verdict: &mut Verdict, alloc: Global, stops: &mut Vec<Stop>, cut: Cut, pick: Pick) {
    match stopped(verdict, alloc, cut, pick) {
        Some(stop) => {
            if stop.made {
                drop(stops.push(stop));
                return;
            }
            drop(stop);
        }
        None => verdict.sure(false, "a stop can't be made"),
    }
}

// What crashes inside a call leave: one for each pick, which both devices keep.
fn stopped_each(verdict: &mut Verdict, alloc: Global, cut: Cut) -> Vec<Stop> {
    let mut stops = Vec::new(alloc);
    for pick in PICKS {
        push_stop(verdict, alloc, &mut stops, cut, pick);
    }
    stops
}

/// Judges the long run, crashed inside a call, with all pairs. Whether the call is made.
pub(crate) fn judge_cut(
    verdict: &mut Verdict,
    alloc: Global,
    covered: &mut Covered,
    cut: Cut,
) -> bool {
    let stops = stopped_each(verdict, alloc, cut);
    let made = stops.len() == PICKS.len();
    if made {
        covered.calls = covered.calls.saturating_add(1);
        judge_pairs(verdict, alloc, covered, stops.as_slice());
    }
    drop(stops);
    made
}

/// Judges the long run from this start, crashed inside each device call of a file. Gives what was covered.
pub(crate) fn judge_calls(
    verdict: &mut Verdict,
    alloc: Global,
    start: Start,
    which: File,
) -> Covered {
    let mut covered = Covered {
        calls: 0,
        pairs: 0,
        sealed: 0,
        told: 0,
    };
    for call in 1..MAX_CALLS {
        let cut = Cut { start, which, call };
        if !judge_cut(verdict, alloc, &mut covered, cut) {
            return covered;
        }
    }
    covered
}
