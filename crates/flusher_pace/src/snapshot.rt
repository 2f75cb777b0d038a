//! When a wanted snapshot begins.
ghost use Rattle.std.specs.Prelude.{◌≡◌, ◌/◌, ◌||◌, nat_le};
ghost use Rattle.vault_store.specs.Seen.{is_old};

use std::time::{Clock, Duration, Instant};
use vault_store::FileVersion;

// A snapshot begins early once nobody has asked for anything for this many milliseconds.
const QUIET: u64 = 100;

/// Whether a wanted snapshot begins now: nobody is asking just then, or the file has an old version, or its journal is at least half
/// as long as its header and snapshot. So a full vault is written anew once in eight MiB of journal, and the lack of a pause never
/// makes the journal longer than that.
pub fn begins_snapshot(version: FileVersion, journal: u64, snapshot: u64, is_quiet: bool) -> bool
    ensures { result ≡ (is_quiet || is_old version || nat_le (snapshot / 2) journal) }
{
    is_quiet || version == FileVersion::One || snapshot / 2 <= journal
}

/// Since when nobody has asked for anything, as far as one thread sees it.
#[derive(Debug, Clone, Copy, PartialEq, Eq)]
pub struct Silence {
    // The number of staged commands at the last look.
    staged: u64,
    // When that number was seen first.
    since: Option<Instant>,
}

impl Silence {
    /// It was never looked at.
    pub fn new() -> Silence {
        Silence {
            staged: 0,
            since: None,
        }
    }

    /// The time until nobody has asked for anything for a tenth of a second; `staged` commands were staged by now. None: that time is
    /// over, or the clock can't be read.
    pub fn left(&mut self, clock: &impl Clock, staged: u64) -> Option<Duration> {
        if staged != self.staged || self.since.is_none() {
            self.staged = staged;
            self.since = Instant::now(clock).ok();
        }
        let passed = self.since?.elapsed(clock).ok()?;
        Duration::from_millis(QUIET).checked_sub(passed)
    }
}
