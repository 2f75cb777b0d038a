//! A gate that holds threads by a table.

use std::sync::atomic::{AtomicBool, AtomicU64, Ordering};
use std::time::{Clock, Duration};
use std::{io, thread};
use test_fixtures::{TURNS, is_reached_within};
use vault_sessions::{Gate, Point};

/// Points, and how often each was passed at least.
pub type Passed = &'static [(Point, u64)];

/// A thread that comes to the point `at`, once the points `once` were passed, waits there until the points `until` were. If the rule
/// rests, the second one that it applies to goes on two seconds later.
pub struct Rule {
    pub at: Point,
    pub once: Passed,
    pub until: Passed,
    pub rests: bool,
}

// How often the first two connections kept a `wait`, staged a command and got a receipt, and the number of pumps.
#[derive(Drop)]
struct Counts {
    kept: [AtomicU64; 2],
    staged: [AtomicU64; 2],
    told: [AtomicU64; 2],
    pumps: AtomicU64,
}

impl Counts {
    // The counter of those who passed a point.
    fn of(&self, point: Point) -> Option<&AtomicU64> {
        match point {
            Point::Kept(1) => Some(&self.kept[0]),
            Point::Kept(2) => Some(&self.kept[1]),
            Point::Staged(1) => Some(&self.staged[0]),
            Point::Staged(2) => Some(&self.staged[1]),
            Point::Told(1) => Some(&self.told[0]),
            Point::Told(2) => Some(&self.told[1]),
            Point::Pump => Some(&self.pumps),
            _ => None,
        }
    }

    // Whether these points were passed within this number of turns.
    fn are_passed_within(&self, passed: Passed, turns: u64) -> bool {
        for (point, least) in passed {
            let Some(count) = self.of(*point) else {
                return false;
            };
            if !is_reached_within(count, *least, turns) {
                return false;
            }
        }
        true
    }
}

/// Holds threads by rules.
#[derive(Drop)]
pub struct Holding<'a, H: Clock> {
    rt: &'a H,
    rules: &'static [Rule],
    counts: Counts,
    rests: AtomicU64,
    deaf: AtomicU64,
    gave_up: AtomicBool,
}

impl<H: Clock> Holding<'_, H> {
    /// Holds by these rules.
    pub(crate) fn new<'a>(rt: &'a H, rules: &'static [Rule]) -> Holding<'a, H> {
        Holding {
            rt,
            rules,
            counts: Counts {
                kept: [AtomicU64::new(0), AtomicU64::new(0)],
                staged: [AtomicU64::new(0), AtomicU64::new(0)],
                told: [AtomicU64::new(0), AtomicU64::new(0)],
                pumps: AtomicU64::new(0),
            },
            rests: AtomicU64::new(0),
            deaf: AtomicU64::new(0),
            gave_up: AtomicBool::new(false),
        }
    }

    /// Whether these points were passed before a test has waited long enough.
    pub(crate) fn are_passed(&self, passed: Passed) -> bool {
        self.counts.are_passed_within(passed, TURNS)
    }

    /// Whether a server reported within this number of turns that it accepts no more connections.
    pub(crate) fn is_deaf_within(&self, turns: u64) -> bool {
        is_reached_within(&self.deaf, 1, turns)
    }

    /// How many times the first two connections kept a `wait`.
    pub(crate) fn kept(&self) -> u64 {
        let [first, second] = &self.counts.kept;
        first
            .load(Ordering::SeqCst)
            .saturating_add(second.load(Ordering::SeqCst))
    }

    /// How many pumps there were. None if a thread waited too long.
    pub(crate) fn pumps(&self) -> Option<u64> {
        if self.gave_up.load(Ordering::SeqCst) {
            None
        } else {
            Some(self.counts.pumps.load(Ordering::SeqCst))
        }
    }
}

impl<H: Clock> Gate for Holding<'_, H> {
    fn at(&self, point: Point) {
        let counts = &self.counts;
        if let Some(count) = counts.of(point) {
            count.fetch_add(1, Ordering::SeqCst);
        }
        for rule in self.rules {
            if rule.at != point || !counts.are_passed_within(rule.once, 1) {
                continue;
            }
            if !counts.are_passed_within(rule.until, TURNS) {
                self.gave_up.store(true, Ordering::SeqCst);
            }
            if rule.rests && self.rests.fetch_add(1, Ordering::SeqCst) == 1 {
                thread::sleep(self.rt, Duration::from_secs(2));
            }
        }
    }

    fn accepts_no_more(&self, _why: io::Error) {
        self.deaf.fetch_add(1, Ordering::SeqCst);
    }
}
