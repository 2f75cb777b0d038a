//! A place for one connection at a time, among those that a thread serves.
ghost use Rattle.std.specs.Prelude.{◌≡◌};
ghost use Rattle.vault_server.specs.declared.slot.Slot.TheVariants as slots;

use crate::place::Place;
use crate::served::Served;
use std::alloc::Allocator;
use std::mem;
use std::sync::Wait;
use std::time::{Duration, Instant};
use tcp_door::{Accepted, Drain, Drained, Unread, Wire};
use vault_device::Device;
use vault_sessions::{Awaits, Ended, Gate, Tally, Worker};

/// For how long a client may take. None: for ever.
#[derive(Debug, Clone, Copy, PartialEq, Eq)]
pub struct Patience {
    /// From one line, or from one reply that it took, to the next line or reply.
    pub idle: Option<Duration>,
    /// Until it has a session.
    pub hello: Option<Duration>,
    /// From the first byte of a line to its end.
    pub line: Option<Duration>,
    /// From a `wait` to its answer, if its claim waits that long.
    pub wait: Option<Duration>,
}

/// A place for one connection at a time.
pub(crate) enum Slot<S: Tally, T: Tally, A: Allocator> {
    Free(Place<S, T, A>),
    Served(Served<S, T, A>),
    Drained(Drain, Place<S, T, A>),
    /// What it holds is taken out, and is put back in a moment.
    TakenOut,
}

/// What a turn of a slot came to.
#[derive(Debug, Clone, Copy, PartialEq, Eq)]
pub(crate) enum Progress {
    /// Nothing is to be done until something happens.
    Rests,
    /// There is more to do.
    On,
    /// Its connection is over.
    Over,
}

// The slot of a connection that is to be served.
fn serve<S: Tally, T: Tally, A: Allocator + Copy>(
    alloc: A,
    connection: Accepted,
    refuses_foreign: bool,
    place: Place<S, T, A>,
    now: Option<Instant>,
) -> Slot<S, T, A> {
    let number = connection.number;
    match Served::begin(alloc, connection, refuses_foreign, place, now) {
        Ok(served) => Slot::Served(served),
        Err((wire, place)) => left(number, wire, place, Ended::NoMemory, now),
    }
}

// What the client of a connection that ended so may still send, as far as that is waited for. One that was given up ended as `Read` or
// `Write`: its place is free at once.
fn unread_of(ended: Ended) -> Unread {
    match ended {
        Ended::Quit => Unread::Little,
        Ended::Limit | Ended::NoMemory => Unread::Lines,
        Ended::EndOfInput | Ended::Read | Ended::Write => Unread::Nothing,
    }
}

// What becomes of the place of a connection that is over.
fn left<S: Tally, T: Tally, A: Allocator>(
    number: u32,
    wire: Wire,
    place: Place<S, T, A>,
    ended: Ended,
    now: Option<Instant>,
) -> Slot<S, T, A> {
    match Drain::begin(number, wire.into_stream(), unread_of(ended), now) {
        Some(drain) => Slot::Drained(drain, place),
        None => Slot::Free(place),
    }
}

impl<S: Tally, T: Tally, A: Allocator + Copy> Slot<S, T, A> {
    /// Whether a connection may have it.
    pub fn is_free(&self) -> bool {
        matches!(self, Slot::Free(_))
    }

    /// The number of the connection that has it.
    pub fn number(&self) -> Option<u32> {
        match self {
            Slot::Served(served) => Some(served.number()),
            Slot::Drained(drain, _) => Some(drain.number),
            Slot::Free(_) | Slot::TakenOut => None,
        }
    }

    /// Serves a connection from now on, if it is free. Else the connection is dropped.
    pub fn serve<D: Device, G: Gate, H: Wait>(
        &mut self,
        worker: &Worker<'_, D, S, T, A, G, H>,
        connection: Accepted,
        refuses_foreign: bool,
        now: Option<Instant>,
    ) {
        let served = match mem::replace(self, Slot::TakenOut) {
            Slot::Free(place) => serve(worker.alloc, connection, refuses_foreign, place, now),
            other => {
                drop(connection);
                other
            }
        };
        self.put_back(served);
    }

    // Puts back what it holds from now on.
    fn put_back(&mut self, slot: Slot<S, T, A>)
        requires { self.old ≡ slots.TakenOut }
        ensures { self.new ≡ slot }
    {
        match mem::replace(self, slot) {
            Slot::TakenOut => {}
            Slot::Free(_place) => unreachable!(),
            Slot::Served(_served) => unreachable!(),
            Slot::Drained(_drain, _place) => unreachable!(),
        }
    }

    /// The kernel has news of its connection, and says whether its client sends no more.
    pub fn wake(&mut self, is_ending: bool) {
        if let Slot::Served(served) = self {
            served.wake(is_ending);
        }
    }

    /// Whether its client sent something that isn't heard.
    pub fn has_news(&self) -> bool {
        match self {
            Slot::Served(served) => served.has_news(),
            Slot::Free(_) | Slot::Drained(_, _) | Slot::TakenOut => false,
        }
    }

    /// Whether its next step waits for what its client does, or the kernel, and not for the server alone.
    pub fn is_outside(&self) -> bool {
        match self {
            Slot::Served(served) => served.is_outside(),
            Slot::Drained(_, _) => true,
            Slot::Free(_) | Slot::TakenOut => false,
        }
    }

    /// Entries may be durable now: if it waits for a reply or for room for a last leave, its next step looks again.
    pub fn look_again(&mut self) {
        if let Slot::Served(served) = self {
            served.look_again();
        }
    }

    /// Whether a connection may have it, now or soon: its own was ended.
    pub fn is_free_soon(&self) -> bool {
        match self {
            Slot::Served(served) => served.awaits() == Awaits::Leave,
            Slot::Free(_) | Slot::Drained(_, _) => true,
            Slot::TakenOut => false,
        }
    }

    /// Whether it waits for a claim.
    pub fn waits_for_claim(&self) -> bool {
        match self {
            Slot::Served(served) => served.awaits() == Awaits::Claim,
            Slot::Free(_) | Slot::Drained(_, _) | Slot::TakenOut => false,
        }
    }

    /// The queue of claims may have moved: if it waits for a claim, its next step looks again.
    pub fn look_for_claim(&mut self) {
        if let Slot::Served(served) = self {
            served.look_for_claim();
        }
    }

    /// Until when nothing is to be done, if nothing happens.
    pub fn deadline(&self, patience: Patience) -> Option<Instant> {
        match self {
            Slot::Free(_) | Slot::TakenOut => None,
            Slot::Served(served) => served.deadline(patience),
            Slot::Drained(drain, _) => drain.deadline(),
        }
    }

    /// Since when its client says nothing, and takes nothing.
    pub fn silent_since(&self) -> Option<Instant> {
        match self {
            Slot::Served(served) => served.silent_since(),
            Slot::Free(_) | Slot::Drained(_, _) | Slot::TakenOut => None,
        }
    }

    /// Gives its connection up.
    pub fn give_up<D: Device, G: Gate, H: Wait>(&mut self, worker: &Worker<'_, D, S, T, A, G, H>) {
        if let Slot::Served(served) = self {
            served.give_up(worker);
        }
    }

    /// Does what is to be done.
    pub fn turn<D: Device, G: Gate, H: Wait>(
        &mut self,
        worker: &Worker<'_, D, S, T, A, G, H>,
        patience: Patience,
        now: Option<Instant>,
    ) -> Progress {
        let progress = match self {
            Slot::Free(_) | Slot::TakenOut => return Progress::Over,
            Slot::Served(served) => served.turn(worker, patience, now),
            Slot::Drained(drain, _) => match drain.drain(now) {
                Drained::Rests => Progress::Rests,
                Drained::GoesOn => Progress::On,
                Drained::Over => Progress::Over,
            },
        };
        if progress == Progress::Over {
            self.end(now)
        } else {
            progress
        }
    }

    // Goes on with a connection that is over. It is a function of its own, since it takes room on the stack for a whole slot.
    #[cold]
    #[inline(never)]
    fn end(&mut self, now: Option<Instant>) -> Progress {
        let left = mem::replace(self, Slot::TakenOut).over(now);
        self.put_back(left);
        if self.is_free() {
            Progress::Over
        } else {
            Progress::On
        }
    }

    // What is left of a connection that is over. Until it is over it is served on.
    fn over(self, now: Option<Instant>) -> Slot<S, T, A> {
        match self {
            Slot::Free(place) => Slot::Free(place),
            Slot::Served(served) => {
                let number = served.number();
                match served.end() {
                    Ok((wire, place, ended)) => left(number, wire, place, ended, now),
                    Err(served) => Slot::Served(served),
                }
            }
            Slot::Drained(drain, place) => {
                drop(drain);
                Slot::Free(place)
            }
            Slot::TakenOut => Slot::TakenOut,
        }
    }

    /// Its place. A connection that isn't over yet comes back.
    pub fn into_place(self) -> Result<Option<Place<S, T, A>>, Slot<S, T, A>> {
        match self.over(None) {
            Slot::Free(place) => Ok(Some(place)),
            Slot::TakenOut => Ok(None),
            other => Err(other),
        }
    }
}
