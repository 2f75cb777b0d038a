//! Accepts connections, which wait here for a place.

use crate::accepted::Accepted;
use crate::bells::Bell;
use crate::moments::first_of;
use crate::socket::Socket;
use crate::stream::turn_away;
use crossbeam_channel::{Receiver, Sender};
use mio::unix::SourceFd;
use mio::{Events, Interest, Poll, Token};
use std::alloc::Allocator;
use std::io::{self, ErrorKind};
use std::net::{IpAddr, SocketAddr, TcpListener, TcpStream};
use std::os::fd::AsRawFd;
use std::sync::Wait;
use std::sync::atomic::{AtomicBool, Ordering};
use std::time::{Clock, Duration, Instant};
use thiserror::Error;

// How many connections wait for a place at most. The kernel keeps some more that aren't accepted yet.
const MAX_WAITING: usize = 64;

// How many connections wait, or are served, at most.
const MAX_HERE: usize = 128;

// How many accepts may fail in a row, and for how many milliseconds nobody is accepted after each.
const MAX_FAULTS: u32 = 20;

const REST: u64 = 50;

// The system's error numbers: out of memory, out of descriptors for all programs, out of descriptors for this one, out of buffers.
const WANTS: [i32; 4] = [libc::ENOMEM, 23, libc::EMFILE, 105];

// The listener's token in the kernel's events. The crowd's bell has another.
const LISTENER: Token = Token(0);

const MAX_EVENTS: usize = 4;

/// Why a door lets nobody in any more.
#[derive(Debug, Clone, Copy, PartialEq, Eq, Error)]
pub enum DoorError {
    /// Accepting connections failed for good.
    #[error("read fault")]
    Accept,
    /// An allocation was refused, here or by a thread that serves, or the system gives nothing to wait by.
    #[error("want of memory")]
    NoMemory,
}

/// Whom a door lets in.
#[derive(Debug, Clone, Copy, PartialEq, Eq)]
pub struct DoorOptions {
    /// How many places the threads have in all.
    pub places: usize,
    /// After how many connections it lets nobody in, including those that were turned away. None: it goes on.
    pub connections: Option<u32>,
    /// For how long a connection waits for a place. Then it is answered `Busy`, and ended. None: as long as it takes.
    pub wait: Option<Duration>,
    /// How many connections there may be at once from one address, except from a loopback's. None: any number.
    pub per_address: Option<u32>,
}

/// What a serving thread says to the door.
#[derive(Debug, Clone, Copy, PartialEq, Eq)]
pub enum News {
    /// This thread has one place more.
    Place(usize),
    /// This thread has one place more, since the connection of this number is over.
    Over(usize, u32),
    /// A thread can't serve, since memory was refused.
    Lacks,
}

/// Those who wait for a place, as the serving threads see them.
#[derive(Drop)]
pub struct Crowd {
    bell: Bell,
    // Whether somebody waits for a place, and another connection may be ended for that.
    presses: AtomicBool,
}

impl Crowd {
    /// Nobody waits. The door waits by this poll.
    pub fn new(poll: &Poll) -> io::Result<Crowd> {
        Ok(Crowd {
            bell: Bell::new(poll)?,
            presses: AtomicBool::new(false),
        })
    }

    /// Whether somebody waits for a place, and another connection may be ended for that.
    pub fn presses(&self) -> bool {
        self.presses.load(Ordering::SeqCst)
    }

    /// The same, of one thread at most: whoever is told so ends a connection.
    pub fn claims(&self) -> bool {
        self.presses.swap(false, Ordering::SeqCst)
    }

    /// Wakes the door: there is news.
    pub fn ring(&self) {
        self.bell.ring();
    }
}

// A connection that waits, and until when.
#[derive(Drop)]
struct Waiting {
    connection: Accepted,
    until: Option<Instant>,
}

// Who has come, and who may come.
#[derive(Drop)]
struct Queue<A: Allocator> {
    waiting: Vec<Waiting, A>,
    // The threads of the free places, in the order in which these were reported.
    places: Vec<usize, A>,
    // The number and the address of each connection that waits or is served.
    here: Vec<(u32, IpAddr), A>,
    // Whether somebody came to wait, or waits no longer, since the threads were told last whether somebody does.
    is_changed: bool,
    // The number of the last connection that came.
    number: u32,
    faults: u32,
    // Whether more connections may be there by now than were accepted.
    may_more: bool,
    // Whether nobody is accepted any more: enough were, or accepting failed for good.
    closed: Option<Result<(), DoorError>>,
}

/// Accepts connections, and hands them to the threads that serve.
#[derive(Drop)]
pub struct Door<'a, A: Allocator, H> {
    /// What it waits by, and what tells the time.
    pub rt: &'a H,
    /// Where its memory is from.
    pub alloc: A,
    /// Where connections come.
    pub listener: &'a TcpListener,
    /// How each thread gets its connections.
    pub senders: &'a Vec<Sender<Accepted, A>, A>,
    /// What wakes each thread.
    pub bells: &'a Vec<Bell, A>,
    /// What the threads say.
    pub news: &'a Receiver<News, A>,
    /// Those who wait, as the threads see them.
    pub crowd: &'a Crowd,
    /// Whom it lets in.
    pub options: DoorOptions,
}

impl<A: Allocator + Copy, H: Wait + Clock> Door<'_, A, H> {
    /// Hands connections out until there were enough, or no more can be accepted. A connection that came by then is served, or told
    /// that there is no place. `report` is called at once where accepting fails for good, with the system's error.
    pub fn keep<F: Fn(io::Error)>(&self, poll: Poll, report: F) -> Result<(), DoorError>
        requires { F.IsAlwaysCallable report }
    {
        let mut poll = poll;
        let mut queue = self.queue()?;
        let fd = self.listener.as_raw_fd();
        let mut events = Events::with_capacity(self.alloc, MAX_EVENTS).or(Err(
            DoorError::NoMemory,
        ))?;
        let is_ready = self.listener.set_nonblocking(true).is_ok()
            && poll
                .registry()
                .register(&mut SourceFd(&fd), LISTENER, Interest::READABLE)
                .is_ok();
        if !is_ready {
            return Err(DoorError::NoMemory);
        }
        for _ in self.rt.forever() {
            let now = Instant::now(self.rt).ok();
            let is_faulty = self.accept(&mut queue, now, &report);
            self.listen(&mut queue)?;
            self.hand_out(&mut queue)?;
            self.turn_late_away(&mut queue, now);
            self.press(&mut queue);
            if let (Some(closed), true) = (queue.closed, queue.waiting.is_empty()) {
                return closed;
            }
            let wait = self.wait_for(&queue, now, is_faulty);
            let _ = poll.poll(&mut events, wait);
            queue.may_more = queue.may_more || events.iter().any(|event| event.token() == LISTENER);
        }
        Err(DoorError::NoMemory)
    }

    // An empty queue.
    fn queue(&self) -> Result<Queue<A>, DoorError> {
        let mut queue = Queue {
            waiting: Vec::new(self.alloc),
            places: Vec::new(self.alloc),
            here: Vec::new(self.alloc),
            is_changed: false,
            number: 0,
            faults: 0,
            may_more: true,
            closed: if self.options.connections == Some(0) {
                Some(Ok(()))
            } else {
                None
            },
        };
        let has_room = queue.waiting.reserve(MAX_WAITING).is_ok()
            && queue.places.reserve(self.options.places).is_ok()
            && queue.here.reserve(MAX_HERE).is_ok();
        if has_room {
            Ok(queue)
        } else {
            drop(queue);
            Err(DoorError::NoMemory)
        }
    }

    // Accepts the connections that are there, while there is room to wait. Says whether an accept failed.
    fn accept<F: Fn(io::Error)>(
        &self,
        queue: &mut Queue<A>,
        now: Option<Instant>,
        report: &F,
    ) -> bool
        requires { F.IsAlwaysCallable report.now }
    {
        for _ in 0..MAX_WAITING {
            if !queue.may_more || queue.closed.is_some() || queue.waiting.len() >= MAX_WAITING {
                return false;
            }
            match self.listener.accept() {
                Ok((stream, address)) => self.admit(queue, stream, address, now),
                Err(error) if error.kind() == ErrorKind::Interrupted => {}
                Err(error) if error.kind() == ErrorKind::WouldBlock => queue.may_more = false,
                Err(error) => {
                    self.fail(queue, error, report);
                    return true;
                }
            }
        }
        false
    }

    // Notes a failed accept. Accepting fails for good after more than `MAX_FAULTS` in a row. But where descriptors or memory are short,
    // they come free when other connections end: that is waited for as long as it takes.
    fn fail<F: Fn(io::Error)>(&self, queue: &mut Queue<A>, error: io::Error, report: &F)
        requires { F.IsAlwaysCallable report.now }
    {
        let is_want = error
            .raw_os_error()
            .is_some_and(|code| WANTS.contains(&code));
        if is_want {
            return;
        }
        queue.faults = queue.faults.saturating_add(1);
        if queue.faults > MAX_FAULTS {
            queue.closed = Some(Err(DoorError::Accept));
            report(error);
        }
    }

    // Lets a connection wait, unless its address already has as many here as it may have.
    fn admit(
        &self,
        queue: &mut Queue<A>,
        stream: TcpStream,
        address: SocketAddr,
        now: Option<Instant>,
    ) {
        queue.faults = 0;
        queue.number = queue.number.wrapping_add(1);
        let connection = Accepted {
            number: queue.number,
            stream: Socket::new(stream),
        };
        if self.options.connections == Some(queue.number) {
            queue.closed = Some(Ok(()));
        }
        let from = address.ip().to_canonical();
        if connection.stream.prepare().is_err() {
            drop(connection);
        } else if self.are_enough(queue, from) {
            let mut stream = connection.stream;
            turn_away(self.alloc, &mut stream);
            drop(stream);
        } else {
            let _ = queue.here.push((connection.number, from));
            let until = now.and_then(|now| now.checked_add(self.options.wait?));
            let _ = queue.waiting.push(Waiting { connection, until });
            queue.is_changed = true;
        }
    }

    // Whether this address has as many connections here as it may have. A loopback's may have any number.
    fn are_enough(&self, queue: &Queue<A>, from: IpAddr) -> bool {
        let Some(most) = self.options.per_address else {
            return false;
        };
        let count = queue.here.iter().filter(|(_, ip)| *ip == from).count();
        !from.is_loopback() && count >= most as usize
    }

    // Hears what the threads say.
    fn listen(&self, queue: &mut Queue<A>) -> Result<(), DoorError> {
        for _ in 0..MAX_HERE {
            match self.news.try_recv(self.rt) {
                Ok(News::Place(thread)) => {
                    let _ = queue.places.push(thread);
                }
                Ok(News::Over(thread, number)) => {
                    queue.here.retain(|(here, _)| *here != number);
                    let _ = queue.places.push(thread);
                }
                Ok(News::Lacks) => return Err(DoorError::NoMemory),
                Err(_) => return Ok(()),
            }
        }
        Ok(())
    }

    // Hands those who wait to the threads of free places.
    fn hand_out(&self, queue: &mut Queue<A>) -> Result<(), DoorError> {
        for _ in 0..MAX_WAITING {
            if queue.waiting.is_empty() || queue.places.is_empty() {
                return Ok(());
            }
            let Waiting {
                connection,
                until: _,
            } = queue.waiting.remove(0);
            let thread = queue.places.remove(0);
            queue.is_changed = true;
            if queue.waiting.is_empty() {
                // The thread that takes it must not end another one for it.
                self.crowd.presses.store(false, Ordering::SeqCst);
            }
            let (Some(sender), Some(bell)) = (self.senders.get(thread), self.bells.get(thread))
            else {
                return Err(DoorError::NoMemory);
            };
            if sender.send(self.rt, connection).is_err() {
                return Err(DoorError::NoMemory);
            }
            bell.ring();
        }
        Ok(())
    }

    // Tells those who waited for too long that there is no place. The queue is in order of arrival.
    fn turn_late_away(&self, queue: &mut Queue<A>, now: Option<Instant>) {
        for _ in 0..MAX_WAITING {
            let is_late = match (queue.waiting.first(), now) {
                (Some(first), Some(now)) => first.until.is_some_and(|until| until <= now),
                _ => false,
            };
            if !is_late {
                return;
            }
            let Waiting {
                connection,
                until: _,
            } = queue.waiting.remove(0);
            let Accepted { number, mut stream } = connection;
            queue.is_changed = true;
            queue.here.retain(|(here, _)| *here != number);
            turn_away(self.alloc, &mut stream);
            drop(stream);
        }
    }

    // Says whether somebody waits for a place, and another connection may be ended for that. If this is new, it wakes the threads. One
    // that ends a connection takes it back (`Crowd::claims`), so it is said again only once others wait.
    fn press(&self, queue: &mut Queue<A>) {
        if self.options.wait.is_none() || !queue.is_changed {
            return;
        }
        queue.is_changed = false;
        let presses = !queue.waiting.is_empty();
        let did = self.crowd.presses.swap(presses, Ordering::SeqCst);
        if presses && !did {
            for bell in self.bells {
                bell.ring();
            }
        }
    }

    // For how long nothing is to be done, if nothing happens. None: for ever.
    fn wait_for(
        &self,
        queue: &Queue<A>,
        now: Option<Instant>,
        is_faulty: bool,
    ) -> Option<Duration> {
        let has_room = queue.closed.is_none() && queue.waiting.len() < MAX_WAITING;
        if has_room && queue.may_more && !is_faulty {
            return Some(Duration::ZERO);
        }
        let now = now?;
        let again = if is_faulty {
            now.checked_add(Duration::from_millis(REST))
        } else {
            None
        };
        let late = queue.waiting.first().and_then(|first| first.until);
        Some(first_of(late, again)?.saturating_duration_since(now))
    }
}
