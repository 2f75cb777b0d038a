//! How long a commit waits for other clients.

use std::time::{Clock, Duration, Instant};

// The least number of looks for the clients that the last commit answered. They are an eighth of that commit's time apart.
const LOOKS: u32 = 8;

// The shortest part (the time between two looks), in microseconds: a client on the same machine needs as long to come back.
const MIN_PART: u64 = 100;

// The longest time that a thread goes on looking, in microseconds, unless the commit took longer than this.
const MAX_LOOKING: u64 = 3200;

/// When a commit ended, the time between two looks, and the number of looks.
#[derive(Debug, Clone, Copy, PartialEq, Eq)]
pub struct Commit {
    // None: the clock couldn't be read, or there was no commit yet. Then nobody is waited for.
    ended: Option<Instant>,
    // The time between two looks.
    part: Duration,
    // The number of looks.
    looks: u32,
}

impl Commit {
    /// There was no commit.
    pub fn none() -> Commit {
        Commit {
            ended: None,
            part: Duration::from_micros(MIN_PART),
            looks: LOOKS,
        }
    }

    /// A commit that began then and ended now.
    pub fn since(clock: &impl Clock, began: Option<Instant>) -> Commit {
        match (began, Instant::now(clock)) {
            (Some(began), Ok(ended)) => {
                let took = ended.duration_since(began);
                let part = part_of(took);
                Commit {
                    ended: Some(ended),
                    part,
                    looks: looks_of(took, part),
                }
            }
            _ => Commit::none(),
        }
    }

    // How long it is until this look. None where its time has passed.
    fn left(&self, clock: &impl Clock, look: u32) -> Option<Duration> {
        let passed = self.ended?.elapsed(clock).ok()?;
        self.part.saturating_mul(look).checked_sub(passed)
    }
}

/// How far a thread is in its wait for other clients, look by look.
#[derive(Debug, Clone, Copy, PartialEq, Eq)]
pub struct Gathering {
    // The number of staged plus acknowledged entries, when it last found more than before.
    seen: u64,
    // The look by which a whole part has passed since then.
    until: u32,
}

impl Gathering {
    /// It has just begun.
    pub fn new() -> Gathering {
        Gathering { seen: 0, until: 0 }
    }

    /// The time until its next look. `moved` is the number of staged plus acknowledged entries. None: all looks are over, or from one to
    /// the next no entry came and none was acknowledged, and none has still to be (`is_owed`).
    pub fn left(
        &mut self,
        clock: &impl Clock,
        last: &Commit,
        moved: u64,
        is_owed: bool,
    ) -> Option<Duration> {
        for look in 1..last.looks.saturating_add(1) {
            let Some(left) = last.left(clock, look) else {
                continue;
            };
            if moved > self.seen {
                self.seen = moved;
                self.until = look + 1;
            }
            return if look > self.until && !is_owed {
                None
            } else {
                Some(left)
            };
        }
        None
    }
}

// The number of looks, with this part between two: after a short commit they go on for eight times as long as it took, but for a few
// milliseconds at most.
fn looks_of(took: Duration, part: Duration) -> u32 {
    let most = Duration::from_micros(MAX_LOOKING);
    let eight = took.saturating_mul(LOOKS);
    let whole = if eight < most { eight } else { most };
    match whole.as_micros().checked_div(part.as_micros()) {
        Some(looks) => u32::try_from(looks).unwrap_or(LOOKS).max(LOOKS),
        None => LOOKS,
    }
}

// The time between two looks after a commit that took this long.
fn part_of(took: Duration) -> Duration {
    let least = Duration::from_micros(MIN_PART);
    match took.checked_div(LOOKS) {
        Some(part) if part > least => part,
        _ => least,
    }
}
