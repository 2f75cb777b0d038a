//! How many entries a commit waits for, and when a snapshot is begun.

use flusher_pace::{Commit, Gathering, Pace, Silence, begins_snapshot, may_change};
use group_commit::{FileVersion, Pumped, Started};
use std::io;
use std::sync::atomic::{AtomicU64, Ordering};
use std::time::{Clock, Duration, Instant};
use vault_lines::read_line_of;
use vault_model::NoMemory;

/// What is done to a pace, and what it answers then.
#[derive(Clone, Copy)]
enum Step {
    /// A commit. This many entries became durable by it, or came meanwhile.
    Commit(u64),
    /// Questions became durable: nothing changed the vault.
    Settled,
    /// A snapshot was begun.
    Snapshot,
    /// A snapshot wasn't begun: memory was refused, or it wasn't the time.
    NoSnapshot,
    /// Whether a snapshot is put off.
    PutOff(bool),
    /// This many entries wait now, and whether the last one may change the vault. Then whether the flusher is woken.
    Staged(u64, bool, bool),
    /// It sleeps until this many entries wait.
    Sleeps(u64),
    /// Whether it waits for more, while this many wait.
    Lacks(u64, bool),
    /// A ticket is forgotten.
    Forgets,
    /// Whether a client isn't answered yet, if this many entries are durable and this many were acknowledged.
    Owes(u64, u64, bool),
}

// Whether a pace answers a step as it says.
fn is_answered(pace: &mut Pace, step: Step) -> bool {
    match step {
        Step::Commit(group) => {
            for _step in 0..3 {
                pace.pumped(Ok(Pumped::Moved));
            }
            pace.pumped(Ok(Pumped::Settled));
            pace.expects(group);
        }
        Step::Settled => pace.pumped(Ok(Pumped::Settled)),
        Step::Snapshot => {
            pace.started(Ok(Started::Yes));
            pace.pumped(Ok(Pumped::Moved));
            pace.pumped(Ok(Pumped::Settled));
        }
        Step::NoSnapshot => {
            pace.started(Err(NoMemory));
            pace.started(Ok(Started::NotNow));
        }
        Step::PutOff(is_put_off) => return pace.is_put_off == is_put_off,
        Step::Staged(waiting, may_change, wakes) => {
            return pace.staged(waiting, may_change) == wakes;
        }
        Step::Sleeps(least) => return pace.sleeps(true, least),
        Step::Lacks(waiting, lacks) => return pace.lacks(waiting) == lacks,
        Step::Forgets => pace.forgets(),
        Step::Owes(settled, told, owes) => return pace.owes(settled, told) == owes,
    }
    true
}

static ROWS: [(&str, &[Step]); 7] = [
    (
        "behind a commit of three it waits for three, then without one that stays away for two, and behind one alone for none",
        &[
            Step::Staged(1, true, false),
            Step::Lacks(1, false),
            Step::Commit(3),
            Step::Lacks(0, false),
            Step::Staged(1, true, false),
            Step::Lacks(1, true),
            Step::Staged(2, true, false),
            Step::Lacks(2, true),
            Step::Staged(3, true, false),
            Step::Lacks(3, false),
            Step::Commit(2),
            Step::Staged(1, true, false),
            Step::Lacks(1, true),
            Step::Lacks(2, false),
            Step::Commit(1),
            Step::Staged(1, true, false),
            Step::Lacks(1, false),
        ],
    ),
    (
        "what only asks is pumped at once, and is no commit; behind a change it waits with it",
        &[
            Step::Commit(3),
            Step::Staged(1, false, false),
            Step::Lacks(1, false),
            Step::Settled,
            Step::Staged(1, true, false),
            Step::Staged(2, false, false),
            Step::Lacks(2, true),
        ],
    ),
    (
        "behind a snapshot it waits for as many as before",
        &[
            Step::Commit(3),
            Step::Staged(1, true, false),
            Step::Snapshot,
            Step::Lacks(1, false),
            Step::Staged(1, true, false),
            Step::Lacks(1, true),
            Step::Lacks(3, false),
        ],
    ),
    (
        "a snapshot that isn't begun is put off until a commit, and changes nothing else",
        &[
            Step::Commit(3),
            Step::Staged(1, true, false),
            Step::PutOff(false),
            Step::NoSnapshot,
            Step::PutOff(true),
            Step::Lacks(1, true),
            Step::Settled,
            Step::PutOff(true),
            Step::Commit(3),
            Step::PutOff(false),
        ],
    ),
    (
        "a flusher that sleeps since nothing is to be done is woken once, by whatever is staged",
        &[
            Step::Staged(1, true, false),
            Step::Sleeps(1),
            Step::Staged(2, true, true),
            Step::Staged(3, true, false),
        ],
    ),
    (
        "a flusher that sleeps until three are there is woken by the third, and at once by a question that no change waits with",
        &[
            Step::Commit(3),
            Step::Staged(1, true, false),
            Step::Sleeps(3),
            Step::Staged(2, false, false),
            Step::Staged(3, true, true),
            Step::Commit(3),
            Step::Sleeps(3),
            Step::Staged(1, false, true),
        ],
    ),
    (
        "whoever is settled and neither told nor forgotten is waited for, where a change waits",
        &[
            Step::Owes(3, 2, false),
            Step::Staged(1, false, false),
            Step::Owes(3, 2, false),
            Step::Staged(2, true, false),
            Step::Owes(3, 2, true),
            Step::Owes(3, 3, false),
            Step::Forgets,
            Step::Owes(3, 2, false),
            Step::Owes(4, 2, true),
            Step::Owes(4, 3, false),
        ],
    ),
];

// A clock that stands still until it is moved on, so that no test depends on how long a thread sleeps. It shows milliseconds.
#[derive(Drop)]
struct Moved {
    millis: AtomicU64,
}

impl Moved {
    // It shows an hour.
    fn new() -> Moved {
        Moved {
            millis: AtomicU64::new(3_600_000),
        }
    }

    // Moves it on by this many milliseconds.
    fn pass(&self, millis: u64) {
        self.millis.fetch_add(millis, Ordering::SeqCst);
    }
}

impl Clock for Moved {
    fn monotonic(&self) -> io::Result<Duration> {
        Ok(Duration::from_millis(self.millis.load(Ordering::SeqCst)))
    }

    fn since_1970(&self) -> io::Result<Duration> {
        self.monotonic()
    }
}

// Some milliseconds that are still left.
fn left(millis: u64) -> Option<Duration> {
    Some(Duration::from_millis(millis))
}

// A commit that ended now and took this many milliseconds.
fn commit_of(clock: &Moved, millis: u64) -> Commit {
    let began = match Instant::now(clock) {
        Ok(now) => now.checked_sub(Duration::from_millis(millis)),
        Err(_) => None,
    };
    Commit::since(clock, began)
}

// Whether, after a commit that took a second, a thread waits an eighth of that from one look to the next.
fn is_eighth_waited(clock: &Moved) -> bool {
    let commit = commit_of(clock, 1000);
    let mut gathering = Gathering::new();
    let first = gathering.left(clock, &commit, 1, false);
    clock.pass(124);
    let rest = gathering.left(clock, &commit, 1, false);
    clock.pass(2);
    let second = gathering.left(clock, &commit, 1, false);
    first == left(125) && rest == left(1) && second == left(124)
}

// Whether a thread goes on if for a whole part of a commit no entry came and none was acknowledged, but waits if more came, or if a
// client isn't answered yet. The second look is over after 200 milliseconds, and the last one after 800.
fn is_waited_for_more(clock: &Moved) -> bool {
    let commit = commit_of(clock, 800);
    let mut gathering = Gathering::new();
    if gathering.left(clock, &commit, 3, false) != left(100) {
        return false;
    }
    clock.pass(199);
    if gathering.left(clock, &commit, 3, false) != left(1) {
        return false;
    }
    clock.pass(51);
    let (mut quiet, mut moved, mut owed) = (gathering, gathering, gathering);
    quiet.left(clock, &commit, 3, false).is_none()
        && moved.left(clock, &commit, 4, false) == left(50)
        && owed.left(clock, &commit, 3, true) == left(50)
}

// Whether nobody is waited for once a commit has been over for as long as it took, or for three milliseconds and a bit if it took less: a
// client that isn't answered holds nobody up for long.
fn is_waited_for_no_longer(clock: &Moved) -> bool {
    let long = commit_of(clock, 800);
    clock.pass(799);
    let last = Gathering::new().left(clock, &long, 1, true);
    clock.pass(2);
    let none = Gathering::new().left(clock, &long, 1, true);
    let short = commit_of(clock, 1);
    clock.pass(3);
    let still = Gathering::new().left(clock, &short, 1, true);
    clock.pass(1);
    let over = Gathering::new().left(clock, &short, 1, true);
    last == left(1) && none.is_none() && still.is_some() && over.is_none()
}

#[test]
fn a_thread_waits_for_a_part_of_a_commit(rt: HostRuntime) {
    let clock = Moved::new();
    let mut gathering = Gathering::new();
    let waits = gathering.left(&clock, &Commit::none(), 1, true).is_some();
    let is_eighth = is_eighth_waited(&clock);
    let is_for_more = is_waited_for_more(&clock);
    let is_no_longer = is_waited_for_no_longer(&clock);
    drop(clock);
    assert!(rt; !waits);
    assert!(rt; is_eighth);
    assert!(rt; is_for_more);
    assert!(rt; is_no_longer);
}

// Whether a snapshot is begun: of a file of this version, with a journal and a snapshot of these numbers of bytes, and whether nobody
// asks just now. Then the answer.
static SNAPSHOTS: [(FileVersion, u64, u64, bool, bool); 7] = [
    (FileVersion::Two, 1_048_576, 34, false, true),
    (FileVersion::Two, 1_048_576, 2_097_153, false, true),
    (FileVersion::Two, 1_048_576, 2_097_154, false, false),
    (FileVersion::Two, 1_048_576, 2_097_154, true, true),
    (FileVersion::Two, 8_388_607, 16_777_216, false, false),
    (FileVersion::Two, 8_388_608, 16_777_216, false, true),
    (FileVersion::One, 0, 16_777_216, false, true),
];

// Whether a silence begins at the first look, and anew with each command, and is over after a tenth of a second.
fn is_silent(clock: &Moved) -> bool {
    let mut silence = Silence::new();
    let first = silence.left(clock, 7);
    clock.pass(99);
    let last = silence.left(clock, 7);
    clock.pass(2);
    let none = silence.left(clock, 7);
    let anew = silence.left(clock, 8);
    first == left(100) && last == left(1) && none.is_none() && anew == left(100)
}

#[test]
fn a_snapshot_is_begun_as_the_rows_say(rt: HostRuntime) {
    for (version, journal, snapshot, is_quiet, begins) in &SNAPSHOTS {
        assert_eq!(rt;
            begins_snapshot(*version, *journal, *snapshot, *is_quiet),
            *begins
        );
    }
    let clock = Moved::new();
    let is_so = is_silent(&clock);
    drop(clock);
    assert!(rt; is_so);
}

// What may change the vault.
static CHANGES: [(&[u8], bool); 8] = [
    (b"state c1", false),
    (b"note c1", false),
    (b"show c1", false),
    (b"claims /", false),
    (b"drafts c1", false),
    (b"draft c1 /e", false),
    (b"wait c1", false),
    (b"abandon c1", true),
];

#[test]
fn the_flusher_waits_as_the_rows_say(rt: HostRuntime) {
    for (name, steps) in &ROWS {
        let mut pace = Pace::new();
        for step in *steps {
            assert!(rt; is_answered(&mut pace, *step), "{name}");
        }
    }
    for (line, changes) in &CHANGES {
        let command = read_line_of(rt.alloc(), line).expect(&rt, "a command");
        assert!(rt; may_change(&command) == *changes);
        drop(command);
    }
}
