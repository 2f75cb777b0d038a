//! A wait that ends.

use std::sync::atomic::{AtomicU64, Ordering};
use std::thread;

/// How many turns a test waits for something that has to come.
pub const TURNS: u64 = 1_000_000_000;

/// Whether a count is reached within this number of turns.
pub fn is_reached_within(count: &AtomicU64, least: u64, turns: u64) -> bool {
    for _ in 0..turns {
        if count.load(Ordering::SeqCst) >= least {
            return true;
        }
        thread::yield_now();
    }
    false
}
