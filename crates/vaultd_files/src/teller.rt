//! Reports on standard error what failed.

use crate::failure::Failure;
use crate::reason::{Action, Cause, Reason, Subject};
use std::io;
use std::sync::Mutex;
use std::sync::atomic::{AtomicBool, Ordering};

/// Says in one line what failed, and in a second line why, if the program is asked to.
#[derive(Drop)]
pub struct Teller<'p, R> {
    rt: &'p R,
    verbose: bool,
    /// Why something failed last.
    last: Mutex<Option<Reason<'p>>>,
    /// Whether a vault is served. If it is, a file's fault breaks it.
    serves: AtomicBool,
    /// Whether it was said that the vault broke.
    has_broken: AtomicBool,
}

impl<'p, R: Eprint> Teller<'p, R> {
    /// A teller. Nothing has failed yet.
    pub fn new(rt: &'p R, verbose: bool) -> Teller<'p, R> {
        Teller {
            rt,
            verbose,
            last: Mutex::new(None),
            serves: AtomicBool::new(false),
            has_broken: AtomicBool::new(false),
        }
    }

    /// Whether the program is asked to say more than what failed.
    pub fn is_verbose(&self) -> bool {
        self.verbose
    }

    /// A vault is served from now on.
    pub fn begin_serving(&self) {
        self.serves.store(true, Ordering::SeqCst);
    }

    /// Whether it was said that the vault broke.
    pub fn has_broken(&self) -> bool {
        self.has_broken.load(Ordering::SeqCst)
    }

    /// Something failed. While a vault is served, this breaks it, and the first such failure is said at once. Else the last failure is
    /// kept as the reason that `tell` gives.
    pub fn note(&self, subject: Subject<'p>, action: Action, cause: Cause) {
        let reason = Reason {
            subject,
            action,
            cause,
        };
        if self.serves.load(Ordering::SeqCst) {
            if !self.has_broken.swap(true, Ordering::SeqCst) {
                self.say(Failure::Broken, Some(reason));
            }
        } else if let Some(mut last) = self.last.try_lock() {
            *last = Some(reason);
        }
    }

    /// No more connections can be accepted at this address, which is said at once.
    pub fn accepts_no_more(&self, address: &'p str, error: io::Error) {
        let reason = Reason {
            subject: Subject::Address(address),
            action: Action::Accepted,
            cause: Cause::System(error),
        };
        self.say(Failure::Accept, Some(reason));
    }

    /// Says why the program ends, unless that was said as soon as it happened.
    pub fn tell(&self, failure: Failure) {
        if !matches!(failure, Failure::Accept | Failure::Broken) {
            let last = self.last.try_lock().and_then(|last| *last);
            self.say(failure, last);
        }
    }

    fn say(&self, failure: Failure, reason: Option<Reason<'_>>) {
        let _ = match reason {
            Some(reason) if self.verbose => eprintln!(self.rt; "{failure}\n{reason}"),
            _ => eprintln!(self.rt; "{failure}"),
        };
    }
}
