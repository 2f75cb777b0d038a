//! One thread that serves several connections, and commits what they staged.

use crate::commits::{CommitToken, CommitTry, Committer};
use crate::place::Place;
use crate::slot::{Patience, Progress, Slot};
use crossbeam_channel::{Receiver, Sender};
use mio::unix::SourceFd;
use mio::{Events, Interest, Poll, Registry, Token};
use std::alloc::Allocator;
use std::sync::{Mutex, Wait};
use std::thread::yield_now;
use std::time::{Clock, Duration, Instant};
use tcp_door::{Accepted, Bell, Crowd, News, first_of, ring_others, turn_away};
use vault_device::Device;
use vault_sessions::{Flusher, Gate, Tally, Worker};

// How many events one look at the kernel gives at most.
const MAX_EVENTS: usize = 65;

// The kernel waits for whole milliseconds. For less than this, in microseconds, a thread polls again and again.
const SHORTEST_WAIT: u64 = 200;

/// A thread's part of a server.
#[derive(Drop)]
pub(crate) struct EventLoop<'a, D: Device, S: Tally, T: Tally, A: Allocator, G: Gate, H: Wait> {
    pub worker: Worker<'a, D, S, T, A, G, H>,
    /// The thread that has it commits.
    pub token: &'a Mutex<CommitToken>,
    /// What wakes it.
    pub bell: &'a Bell,
    /// What wakes each thread.
    pub bells: &'a Vec<Bell, A>,
    /// Its number among the threads.
    pub number: usize,
    /// The connections that come to it.
    pub coming: Receiver<Accepted, A>,
    /// Where it says that a place is free, or that it can't serve since memory was refused.
    pub says: Sender<News, A>,
    /// Those who wait for a place.
    pub crowd: &'a Crowd,
    /// For how long clients may take.
    pub patience: Patience,
    /// Whether another protocol's first line ends a connection.
    pub refuses_foreign: bool,
    /// How long a connection has to be silent before it may be ended for one that waits for a place. None: none is ended.
    pub silence: Option<Duration>,
}

// For how long a thread waits until the next round.
#[derive(Debug, Clone, Copy, PartialEq, Eq)]
enum Pause {
    // There is more to do.
    Nothing,
    // Others may come so soon that the kernel can't wait for so short a time. A client may be waiting for the processor, too.
    Blink,
    // Until something happens, but this long at most.
    AtMost(Duration),
    // Until something happens.
    Long,
}

impl Pause {
    // The pause after such a turn of all connections and such a try to commit.
    fn behind(progress: Progress, tried: CommitTry) -> Pause {
        if progress == Progress::On {
            return Pause::Nothing;
        }
        match tried {
            CommitTry::NotNow => Pause::Long,
            CommitTry::Early(left) if left < Duration::from_micros(SHORTEST_WAIT) => Pause::Blink,
            CommitTry::Early(left) => Pause::AtMost(left),
            // If room is wanted, it tries again soon: another connection's ticket is still out.
            CommitTry::InVain => Pause::AtMost(Duration::from_millis(1)),
            CommitTry::Settled | CommitTry::Committed => Pause::Nothing,
        }
    }
}

impl<D: Device, S: Tally, T: Tally, A: Allocator + Copy, G: Gate, H: Wait + Clock> EventLoop<
    '_,
    D,
    S,
    T,
    A,
    G,
    H,
> {
    /// Serves connections, as many at a time as there are places, until no more come. The places come back.
    pub fn run(&self, poll: Poll, places: Vec<Place<S, T, A>, A>) -> Vec<Place<S, T, A>, A> {
        let mut places = places;
        let Ok(mut events) = Events::with_capacity(self.worker.alloc, MAX_EVENTS) else {
            self.say(News::Lacks);
            return places;
        };
        let Some(mut slots) = slots_of(self.worker.alloc, &mut places) else {
            self.say(News::Lacks);
            return places;
        };
        for _ in 0..slots.len() {
            self.say(News::Place(self.number));
        }
        let mut poll = poll;
        let flusher = Flusher::new(self.worker.rt, self.worker.shared, self.worker.gate);
        let mut committer = Committer::new(flusher, self.token);
        self.serve(&mut committer, &mut poll, &mut events, &mut slots);
        self.take_back(&mut committer, slots, &mut places);
        places
    }

    // Takes all places back out of the slots.
    fn take_back(
        &self,
        committer: &mut Committer<'_, D, S, T, A, G, H>,
        slots: Vec<Slot<S, T, A>, A>,
        places: &mut Vec<Place<S, T, A>, A>,
    ) {
        let mut slots = slots;
        while let Some(slot) = slots.pop() {
            if let Some(place) = self.end(committer, slot) {
                let _ = places.push(place);
            }
        }
        slots.destroy_empty();
    }

    // The place of a slot. By now it is free. Else its connection would be given up, and have its last leave first.
    fn end(
        &self,
        committer: &mut Committer<'_, D, S, T, A, G, H>,
        slot: Slot<S, T, A>,
    ) -> Option<Place<S, T, A>> {
        let mut slot = slot;
        for _ in self.worker.rt.forever() {
            match slot.into_place() {
                Ok(place) => return place,
                Err(back) => slot = back,
            }
            slot.give_up(&self.worker);
            let _ = slot.turn(&self.worker, self.patience, None);
            let _ = committer.commit();
        }
        unreachable!()
    }

    // Says that a place is free, or that it can't serve.
    fn say(&self, news: News) {
        let _ = self.says.send(self.worker.rt, news);
        self.crowd.ring();
    }

    fn now(&self) -> Option<Instant> {
        Instant::now(self.worker.rt).ok()
    }

    // Serves connections until no more come. In each round it polls the kernel, lets each connection take its steps, and commits if
    // that is due, whatever else there is to do.
    fn serve(
        &self,
        committer: &mut Committer<'_, D, S, T, A, G, H>,
        poll: &mut Poll,
        events: &mut Events<A>,
        slots: &mut Vec<Slot<S, T, A>, A>,
    ) {
        let mut tried = CommitTry::NotNow;
        // A snapshot may be due before anybody comes.
        let mut pause = Pause::Nothing;
        let mut moves = 0;
        for _ in self.worker.rt.forever() {
            self.look(poll, events, slots, pause);
            self.announce(committer, slots, tried);
            let now = self.now();
            let may_come = self.take(poll.registry(), slots, now);
            let mut progress = self.turn(slots, now);
            if self.line_moved(slots, &mut moves) {
                progress = self.turn(slots, now);
            }
            if self.make_room(slots, now) {
                progress = Progress::On;
            }
            tried = committer.commit();
            if tried.may_settle() {
                look_again(slots);
            }
            pause = Pause::behind(progress, tried);
            if progress == Progress::Over && pause == Pause::Long {
                self.bell.attend(false);
                if !may_come {
                    return;
                }
            }
        }
    }

    // Whether a connection waits for a claim, and the queue of claims may have moved since this was asked last. Then each one that
    // waits has something to do, so that its `wait` joins the commit of the command that moved the queue.
    fn line_moved(&self, slots: &mut Vec<Slot<S, T, A>, A>, seen: &mut u64) -> bool {
        if !one_waits(slots) {
            return false;
        }
        let moves = self.worker.shared.moves(self.worker.rt);
        if moves == *seen {
            return false;
        }
        *seen = moves;
        for slot in slots.as_mut_slice() {
            slot.look_for_claim();
        }
        true
    }

    // To be called after a commit, before any client is answered or heard. What came meanwhile is counted: a client that is answered
    // comes back, and would be counted twice. The other threads are woken: hearing a line may hold this thread up.
    fn announce(
        &self,
        committer: &Committer<'_, D, S, T, A, G, H>,
        slots: &Vec<Slot<S, T, A>, A>,
        tried: CommitTry,
    ) {
        if tried == CommitTry::Committed {
            committer.flusher.expects_more(lines_of(slots));
        }
        if tried.may_settle() {
            ring_others(self.bells, self.number);
        }
    }

    // If there is nothing to do, waits until something happens. Notes what happened. The kernel isn't asked if there is something to
    // do, and no connection waits for its client or the kernel (`Slot::is_outside`).
    fn look(
        &self,
        poll: &mut Poll,
        events: &mut Events<A>,
        slots: &mut Vec<Slot<S, T, A>, A>,
        pause: Pause,
    ) {
        if pause == Pause::Nothing && !one_is_outside(slots) {
            return;
        }
        let wait = self.time_for(slots, pause);
        let has_failed = poll.poll(events, wait).is_err();
        let is_rung = wake(slots, events);
        if has_failed || is_rung {
            look_again(slots);
        }
    }

    // How long it may wait for what the kernel says. None: for ever.
    fn time_for(&self, slots: &Vec<Slot<S, T, A>, A>, pause: Pause) -> Option<Duration> {
        match pause {
            Pause::Nothing => Some(Duration::ZERO),
            Pause::Blink => {
                yield_now();
                Some(Duration::ZERO)
            }
            Pause::AtMost(left) => Some(self.wait_for(slots).map_or(left, |wait| wait.min(left))),
            Pause::Long => self.wait_for(slots),
        }
    }

    // How long it may wait if nothing happens. None: for ever.
    fn wait_for(&self, slots: &Vec<Slot<S, T, A>, A>) -> Option<Duration> {
        let mut first = None;
        for slot in slots {
            first = first_of(first, slot.deadline(self.patience));
        }
        if let Some(silence) = self.pressing_silence(slots) {
            let ends = longest_silent(slots).and_then(|since| since.checked_add(silence));
            first = first_of(first, ends);
        }
        Some(first?.saturating_duration_since(self.now()?))
    }

    // How long a silence ends a connection now, if somebody waits for a place, and none is free or becomes so. None: no connection is
    // ended.
    fn pressing_silence(&self, slots: &Vec<Slot<S, T, A>, A>) -> Option<Duration> {
        let silence = self.silence?;
        if self.crowd.presses() && !slots.iter().any(|slot| slot.is_free_soon()) {
            Some(silence)
        } else {
            None
        }
    }

    // Ends the connection that has been silent longest, if somebody waits for its place, and it was silent for long enough. Says whether
    // it ended one. To be called after each had its turn: what a client has sent by then is heard.
    fn make_room(&self, slots: &mut Vec<Slot<S, T, A>, A>, now: Option<Instant>) -> bool {
        let Some(silence) = self.pressing_silence(slots) else {
            return false;
        };
        let last = now.and_then(|now| now.checked_sub(silence));
        let (Some(first), Some(last)) = (longest_silent(slots), last) else {
            return false;
        };
        if first > last || !self.crowd.claims() {
            return false;
        }
        for slot in slots.as_mut_slice() {
            if slot.silent_since() == Some(first) {
                slot.give_up(&self.worker);
                return true;
            }
        }
        false
    }

    // Puts the connections that have come into free places. Says whether more may come.
    fn take(
        &self,
        registry: &Registry,
        slots: &mut Vec<Slot<S, T, A>, A>,
        now: Option<Instant>,
    ) -> bool {
        for (number, slot) in slots.iter_mut().enumerate() {
            if slot.is_free() {
                match self.coming.try_recv(self.worker.rt) {
                    Ok(connection) => self.begin(registry, number, slot, connection, now),
                    Err(error) => return !error.is_disconnected(),
                }
            }
        }
        true
    }

    // Serves a connection in a place, unless the kernel can't watch it.
    fn begin(
        &self,
        registry: &Registry,
        number: usize,
        slot: &mut Slot<S, T, A>,
        connection: Accepted,
        now: Option<Instant>,
    ) {
        let fd = connection.stream.fd();
        let both = Interest::READABLE | Interest::WRITABLE;
        if registry
            .register(&mut SourceFd(&fd), Token(number), both)
            .is_err()
        {
            let Accepted {
                number: over,
                mut stream,
            } = connection;
            turn_away(self.worker.alloc, &mut stream);
            drop(stream);
            self.say(News::Over(self.number, over));
            return;
        }
        self.bell.attend(true);
        let over = News::Over(self.number, connection.number);
        slot.serve(&self.worker, connection, self.refuses_foreign, now);
        if slot.is_free() {
            self.say(over);
        }
    }

    // Lets each connection do what it has to do. `On`: there is more to do, or a place became free. `Rests`: there is a connection at
    // least. `Over`: there is none.
    fn turn(&self, slots: &mut Vec<Slot<S, T, A>, A>, now: Option<Instant>) -> Progress {
        let mut all = Progress::Over;
        for slot in slots.as_mut_slice() {
            let Some(connection) = slot.number() else {
                continue;
            };
            match slot.turn(&self.worker, self.patience, now) {
                Progress::On => all = Progress::On,
                Progress::Rests if all == Progress::Over => all = Progress::Rests,
                Progress::Rests => {}
                Progress::Over => {
                    self.say(News::Over(self.number, connection));
                    all = Progress::On;
                }
            }
        }
        all
    }
}

// Notes for each connection what the kernel says of it. Whether the bell rang.
fn wake<S: Tally, T: Tally, A: Allocator + Copy>(
    slots: &mut Vec<Slot<S, T, A>, A>,
    events: &Events<A>,
) -> bool {
    let mut is_rung = false;
    for event in events.iter() {
        let token = event.token();
        if Bell::is_token(token) {
            is_rung = true;
        } else if let Some(slot) = slots.as_mut_slice().get_mut(token.0) {
            slot.wake(event.is_read_closed() || event.is_error());
        }
    }
    is_rung
}

// Entries that connections wait for may be durable.
fn look_again<S: Tally, T: Tally, A: Allocator + Copy>(slots: &mut Vec<Slot<S, T, A>, A>) {
    for slot in slots.as_mut_slice() {
        slot.look_again();
    }
}

// Since when the connection that is silent longest is silent.
fn longest_silent<S: Tally, T: Tally, A: Allocator + Copy>(
    slots: &Vec<Slot<S, T, A>, A>,
) -> Option<Instant> {
    let mut first = None;
    for slot in slots {
        first = first_of(first, slot.silent_since());
    }
    first
}

// Whether a connection waits for a claim.
fn one_waits<S: Tally, T: Tally, A: Allocator + Copy>(slots: &Vec<Slot<S, T, A>, A>) -> bool {
    slots.iter().any(|slot| slot.waits_for_claim())
}

// Whether the next step of a connection waits for its client, or the kernel.
fn one_is_outside<S: Tally, T: Tally, A: Allocator + Copy>(slots: &Vec<Slot<S, T, A>, A>) -> bool {
    slots.iter().any(|slot| slot.is_outside())
}

// How many connections have sent something that isn't heard yet.
fn lines_of<S: Tally, T: Tally, A: Allocator + Copy>(slots: &Vec<Slot<S, T, A>, A>) -> u64 {
    let mut lines = 0u64;
    for slot in slots {
        if slot.has_news() {
            lines = lines.saturating_add(1);
        }
    }
    lines
}

// A free slot for each place, unless there is no memory for them.
fn slots_of<S: Tally, T: Tally, A: Allocator + Copy>(
    alloc: A,
    places: &mut Vec<Place<S, T, A>, A>,
) -> Option<Vec<Slot<S, T, A>, A>> {
    let mut slots = Vec::new(alloc);
    let Ok(()) = slots.reserve(places.len()) else {
        slots.destroy_empty();
        return None;
    };
    while let Some(place) = places.pop() {
        slots.push_reserved(Slot::Free(place));
    }
    Some(slots)
}
