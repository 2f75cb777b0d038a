//! A connection that is served at a place.
ghost use Rattle.std.specs.Prelude.{◌≡◌, [], Some, true};
ghost use Rattle.vault_sessions.specs.Reports.{AreCounted, came};

use crate::account::Account;
use crate::place::Place;
use crate::slot::{Patience, Progress};
use std::alloc::Allocator;
use std::sync::Wait;
use std::time::{Duration, Instant};
use tcp_door::{Accepted, Wire, first_of};
use vault_device::Device;
use vault_sessions::{Awaits, Dialogue, Ended, Finished, Gate, Step, Tally, Worker};

// How many steps a connection takes in a round at most. A line that spells no command takes two, a `wait` that is kept four, and any
// other three.
const STEPS_A_ROUND: u32 = 4;

/// A connection that is served, and what those before it at its place came to. Its dialogue began with its first byte.
pub(crate) struct Served<S: Tally, T: Tally, A: Allocator> {
    // The number of its connection.
    number: u32,
    dialogue: Dialogue<Wire, S, T, A>,
    account: Account<S, A>,
    // Whether the next step may come to something.
    is_ready: bool,
    // Whether its client sends no more than what has arrived.
    is_ending: bool,
    // When it began, when the last step was taken, and when a line began that isn't whole.
    began: Option<Instant>,
    moved: Option<Instant>,
    line_began: Option<Instant>,
    ghost begun: { (dialogue.began.reading ≡ came []) × (dialogue.began.contents ≡ Some []) },
    ghost counted: { AreCounted account.reports dialogue.began.counted },
}

impl<S: Tally, T: Tally, A: Allocator + Copy> Served<S, T, A> {
    /// Begins to serve a connection at a place. Where memory is refused, both come back.
    pub fn begin(
        alloc: A,
        connection: Accepted,
        refuses_foreign: bool,
        place: Place<S, T, A>,
        now: Option<Instant>,
    ) -> Result<Served<S, T, A>, (Wire, Place<S, T, A>)> {
        let Accepted { number, stream } = connection;
        let Place { share, account } = place;
        let wire = Wire::new(stream, refuses_foreign);
        match Dialogue::new(alloc, number, wire, share, false) {
            Ok(dialogue) => Ok(Served {
                number,
                dialogue,
                account,
                is_ready: true,
                is_ending: false,
                began: now,
                moved: now,
                line_began: None,
            }),
            Err((wire, share)) => Err((wire, Place { share, account })),
        }
    }

    /// The number of its connection.
    pub fn number(&self) -> u32 {
        self.number
    }

    /// What the next step of its dialogue is for.
    pub fn awaits(&self) -> Awaits {
        self.dialogue.awaits()
    }

    /// Whether its client sent something that isn't heard.
    pub fn has_news(&self) -> bool {
        self.is_ready && self.awaits() == Awaits::Line
    }

    /// Whether its next step waits for what its client does, or the kernel, and not for the server alone.
    pub fn is_outside(&self) -> bool {
        !matches!(
            self.awaits(),
            Awaits::Reply | Awaits::Leave | Awaits::Nothing
        )
    }

    /// The kernel has news of it, and says whether its client sends no more. That is nothing to one that waits for the server alone: it is
    /// looked at in a step that comes after.
    pub fn wake(&mut self, is_ending: bool) {
        self.is_ready = self.is_ready || self.is_outside();
        self.is_ending = self.is_ending || is_ending;
        self.dialogue.wake(is_ending);
    }

    /// Its next step looks again, where it waits for a reply or for room for a last leave.
    pub fn look_again(&mut self) {
        let awaits = self.awaits();
        self.is_ready = self.is_ready || matches!(awaits, Awaits::Reply | Awaits::Leave);
    }

    /// Its next step looks again, where it waits for a claim.
    pub fn look_for_claim(&mut self) {
        self.is_ready = self.is_ready || self.awaits() == Awaits::Claim;
    }

    /// Since when its client says nothing, or takes nothing of a reply. None while it waits for the server.
    pub fn silent_since(&self) -> Option<Instant> {
        match self.awaits() {
            Awaits::Line | Awaits::Telling => self.moved,
            Awaits::Claim | Awaits::Reply | Awaits::Leave | Awaits::Nothing => None,
        }
    }

    /// Until when its client has time, or waits for a claim. One without a session has as long for its last reply as it had for `hello`.
    pub fn deadline(&self, patience: Patience) -> Option<Instant> {
        let hello = if self.dialogue.has_session() {
            None
        } else {
            patience.hello
        };
        match self.awaits() {
            Awaits::Claim => behind(self.moved, patience.wait),
            Awaits::Telling => first_of(
                behind(self.moved, patience.idle),
                behind(self.moved, hello),
            ),
            Awaits::Line => first_of(
                behind(self.moved, patience.idle),
                first_of(
                    behind(self.began, hello),
                    behind(self.line_began, patience.line),
                ),
            ),
            Awaits::Reply | Awaits::Leave | Awaits::Nothing => None,
        }
    }

    fn is_late(&self, patience: Patience, now: Option<Instant>) -> bool {
        match (self.deadline(patience), now) {
            (Some(deadline), Some(now)) => deadline <= now,
            _ => false,
        }
    }

    /// Takes steps if one may come to something. If its client took too long, it loses patience.
    pub fn turn<D: Device, G: Gate, H: Wait>(
        &mut self,
        worker: &Worker<'_, D, S, T, A, G, H>,
        patience: Patience,
        now: Option<Instant>,
    ) -> Progress {
        let progress = if self.is_ready {
            self.steps(worker, patience, now)
        } else {
            Progress::Rests
        };
        self.is_ready = progress == Progress::On;
        if progress != Progress::Over && self.is_late(patience, now) {
            self.lose_patience(worker);
            return Progress::On;
        }
        progress
    }

    // Its time is over: if it keeps a `wait`, that is staged next. Else its client took too long, and it is given up.
    fn lose_patience<D: Device, G: Gate, H: Wait>(
        &mut self,
        worker: &Worker<'_, D, S, T, A, G, H>,
    ) {
        if self.awaits() == Awaits::Claim {
            self.dialogue.let_go();
            self.is_ready = true;
        } else {
            self.give_up(worker);
        }
    }

    /// Reads and writes nothing more. What is left is done in the next round.
    pub fn give_up<D: Device, G: Gate, H: Wait>(&mut self, worker: &Worker<'_, D, S, T, A, G, H>) {
        self.dialogue.give_up(worker);
        self.is_ready = true;
    }

    // Takes steps until the next one comes to nothing, or it took as many, or heard as much, as it may in a round.
    fn steps<D: Device, G: Gate, H: Wait>(
        &mut self,
        worker: &Worker<'_, D, S, T, A, G, H>,
        patience: Patience,
        now: Option<Instant>,
    ) -> Progress {
        self.dialogue.begin_round();
        for _ in 0..STEPS_A_ROUND {
            if self.is_ending {
                // A client that sends no more may be gone. It must not keep others from waiting.
                self.dialogue.let_go();
            }
            match self.dialogue.step(worker) {
                Step::Went => {
                    self.moved = now;
                    self.line_began = None;
                    if self.is_late(patience, now) {
                        self.lose_patience(worker);
                    }
                    if self.awaits() == Awaits::Reply {
                        // What was staged just now isn't durable yet.
                        return Progress::Rests;
                    }
                }
                Step::Dry => return self.runs_dry(now),
                Step::Waits | Step::Full => return Progress::Rests,
                Step::Over => return Progress::Over,
            }
        }
        Progress::On
    }

    // There is no whole line for now, or not in this round.
    fn runs_dry(&mut self, now: Option<Instant>) -> Progress {
        if self.line_began.is_none() && self.dialogue.is_within_line() {
            self.line_began = now;
        }
        if self.dialogue.is_spent() {
            Progress::On
        } else {
            Progress::Rests
        }
    }

    /// Its connection, its place, and why it ended, once it is over. Until then it comes back: there is no way to end it before its session
    /// has its last leave, or can't get one.
    pub fn end(self) -> Result<(Wire, Place<S, T, A>, Ended), Served<S, T, A>> {
        if self.dialogue.awaits() != Awaits::Nothing {
            return Err(self);
        }
        let Served {
            number: _,
            dialogue,
            account,
            is_ready: _,
            is_ending: _,
            began: _,
            moved: _,
            line_began: _,
        } = self;
        Ok(parts_of(dialogue, account))
    }
}

// Its connection, its place with the report of it, and why it ended.
fn parts_of<S: Tally, T: Tally, A: Allocator + Copy>(
    dialogue: Dialogue<Wire, S, T, A>,
    account: Account<S, A>,
) -> (Wire, Place<S, T, A>, Ended)
    requires over { dialogue.is_over ≡ true }
    requires ended { dialogue.has_ended ≡ true }
    requires begun { (dialogue.began.reading ≡ came []) × (dialogue.began.contents ≡ Some []) }
    requires counted { AreCounted account.reports dialogue.began.counted }
{
    let (wire, finished) = dialogue.finish();
    let Finished {
        answers,
        share,
        sight,
        ended,
        left: _,
    } = finished;
    let account = account.with(&wire, &answers, ended, sight);
    drop(answers);
    (wire, Place { share, account }, ended)
}

// This time after a moment.
fn behind(moment: Option<Instant>, time: Option<Duration>) -> Option<Instant> {
    moment?.checked_add(time?)
}
