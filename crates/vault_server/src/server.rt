//! A server over TCP.
ghost use Rattle.std.specs.Prelude.{◌≡◌, ◌+◌, ◌<◌, ◌≤◌, ◌⊎◌, true, All, IfOk, IfSome};
ghost use Rattle.std.specs.Thread.{IsSend, IsSync};
ghost use Rattle.vault_sessions.specs.Tallies.{HasGrown};
ghost use Rattle.vault_sessions.specs.Acts.{GoesOn};
ghost use Rattle.vault_sessions.specs.Pumping.{IsAtRest};
ghost use Rattle.vault_sessions.specs.Reports.{AreCounted, IsServed};
ghost use denote.Param.Send.{Frees};

use crate::commits::CommitToken;
use crate::event_loop::EventLoop;
use crate::place::Place;
use crate::reports::Reports;
use crate::returned::Returned;
use crate::slot::Patience;
use crossbeam_channel::{Receiver, Sender, bounded};
use group_commit::Vault;
use mio::Poll;
use std::alloc::Allocator;
use std::marker::Brand;
use std::net::{Net, TcpListener};
use std::sync::ledger::Blank;
use std::sync::{Mutex, Wait};
use std::thread::{self, JoinHandle, Scope, Threads};
use std::time::{Clock, Duration};
use tcp_door::{Accepted, Bell, Crowd, Door, DoorError, DoorOptions, News};
use thiserror::Error;
use vault_device::Device;
use vault_sessions::{
    Gate, NewPast, Share, Shared, Tally, Totals, Worker, flush, gather, run_flusher,
};

// By how many threads a server serves at most, if no options say it.
const MAX_THREADS: usize = 2;

/// Why a server stopped.
#[derive(Debug, Clone, Copy, PartialEq, Eq, Error)]
pub enum ServerError {
    /// Accepting connections failed for good.
    #[error("read fault")]
    Accept,
    /// An allocation was refused, a thread can't be started, or the system gives it nothing to wait by.
    #[error("want of memory")]
    NoMemory,
}

impl From<DoorError> for ServerError {
    fn from(error: DoorError) -> ServerError {
        match error {
            DoorError::Accept => ServerError::Accept,
            DoorError::NoMemory => ServerError::NoMemory,
        }
    }
}

/// The options of a server.
#[derive(Debug, Clone, Copy, PartialEq, Eq)]
pub struct ServerOptions {
    /// How many connections are served at a time: 1 to 64.
    pub workers: usize,
    /// By how many threads at most, each with an equal part of the places: one at least, and no more than `workers`. Connections go to
    /// free places in the order in which the threads reported these.
    pub threads: usize,
    /// After how many connections it ends, including those that were turned away. None: it serves on.
    pub connections: Option<u32>,
    /// For how long clients may take. After that a connection is ended, as if its reader or writer had failed.
    pub patience: Patience,
    /// How many connections may wait at once, by `wait`, until their claim is granted or gone. Each further `wait` is answered at once,
    /// like `state`.
    pub waits: usize,
    /// Whether a connection whose first line is another protocol's is ended, as if nothing of that line had come.
    pub refuses_foreign: bool,
    /// What becomes of those for whom there is no place. None: they wait as long as it takes.
    pub full: Option<Full>,
    /// How many connections there may be at once from one address, except from a loopback's. None: any number.
    pub per_address: Option<u32>,
}

/// What becomes of those for whom there is no place.
#[derive(Debug, Clone, Copy, PartialEq, Eq)]
pub struct Full {
    /// For how long one waits. Then it is answered `Busy`, and ended.
    pub wait: Duration,
    /// How long a connection must have been silent before it is ended for one that waits. It is the one of its thread that was silent
    /// longest.
    pub silence: Duration,
}

/// Serves `workers` connections at a time, by one thread or, for two workers and more, by two. Each of them commits what was staged.
/// They have ended when it returns. If a number of connections is given, it ends once these were served, and gives the vault, what
/// was counted, and what each connection came to: one for which memory was refused before its first byte was read isn't among these. Connections are numbered from 1, and the number wraps. At an error the connections that were handed to the threads are
/// served to their end first. With a broken vault it goes on, and every command is answered `Broken`.
pub fn run_server<
    D: Device + Drop + Send,
    A: Allocator + Copy + Send + Sync,
    G: Gate + Sync,
    H: Threads + Wait + Clock + Net + Sync,
>(
    rt: &H,
    alloc: A,
    listener: TcpListener,
    vault: Vault<D, A>,
    workers: usize,
    connections: Option<u32>,
    gate: &G,
) -> Result<(Vault<D, A>, Totals, Reports<A>), ServerError>
    requires workers { (0 < workers) × (workers ≤ 64) }
    requires frees { Frees A.Allocator A.dealloc_token }
    ensures grown { IfOk result (λ served. HasGrown vault.view served.0.view served.1) }
    ensures acts { IfOk result (λ served. GoesOn vault.view served.0.view) }
    ensures flushed { IfOk result (λ served. (served.0.view.broken ≡ true) ⊎ IsAtRest served.0.view) }
    ensures counted { IfOk result (λ served. AreCounted served.2 served.1) }
    ensures served { IfOk result (λ served. All (IsServed vault.view served.0.view) served.2) }
{
    let options = ServerOptions {
        workers,
        threads: workers.min(MAX_THREADS),
        connections,
        patience: Patience {
            idle: None,
            hello: None,
            line: None,
            wait: None,
        },
        waits: 0,
        refuses_foreign: false,
        full: None,
        per_address: None,
    };
    run_server_on(rt, alloc, listener, vault, &options, gate)
}

/// The same, with these options. If there are several threads, one at a time commits, for all. If no more connections can be accepted,
/// that is reported to the gate at once.
pub fn run_server_on<
    D: Device + Drop + Send,
    A: Allocator + Copy + Send + Sync,
    G: Gate + Sync,
    H: Threads + Wait + Clock + Net + Sync,
>(
    rt: &H,
    alloc: A,
    listener: TcpListener,
    vault: Vault<D, A>,
    options: &ServerOptions,
    gate: &G,
) -> Result<(Vault<D, A>, Totals, Reports<A>), ServerError>
    requires workers { (0 < options.now.workers) × (options.now.workers ≤ 64) }
    requires frees { Frees A.Allocator A.dealloc_token }
    ensures grown { IfOk result (λ served. HasGrown vault.view served.0.view served.1) }
    ensures acts { IfOk result (λ served. GoesOn vault.view served.0.view) }
    ensures flushed { IfOk result (λ served. (served.0.view.broken ≡ true) ⊎ IsAtRest served.0.view) }
    ensures counted { IfOk result (λ served. AreCounted served.2 served.1) }
    ensures served { IfOk result (λ served. All (IsServed vault.view served.0.view) served.2) }
{
    let parts = options.workers as u64 + 1;
    let (staged, told) = (Blank::new(parts), Blank::new(parts));
    run::<D, A, G, H, Brand, Brand>(
        rt,
        alloc,
        NewPast::new(),
        staged,
        told,
        listener,
        vault,
        options,
        gate,
    )
}

// The same, over the ledgers of one run.
fn run<
    D: Device + Drop + Send,
    A: Allocator + Copy + Send + Sync,
    G: Gate + Sync,
    H: Threads + Wait + Clock + Net + Sync,
    S: Tally + Send + Sync,
    T: Tally + Send + Sync,
>(
    rt: &H,
    alloc: A,
    past: NewPast,
    staged: Blank,
    told: Blank,
    listener: TcpListener,
    vault: Vault<D, A>,
    options: &ServerOptions,
    gate: &G,
) -> Result<(Vault<D, A>, Totals, Reports<A>), ServerError>
    requires workers { (0 < options.now.workers) × (options.now.workers ≤ 64) }
    requires frees { Frees A.Allocator A.dealloc_token }
    requires whole { (S.all ≡ S.parts) × (T.all ≡ T.parts) }
    requires staged { (staged.name ≡ S.name) × (staged.parts ≡ S.parts) × (S.all ≡ options.now.workers + 1)
        × (S.beginning ≡ vault.view) }
    requires told { (told.name ≡ T.name) × (told.parts ≡ T.parts) × (T.all ≡ options.now.workers + 1) × (T.beginning ≡ vault.view) }
    requires past { past ≡ S.book }
    ensures grown { IfOk result (λ served. HasGrown vault.view served.0.view served.1) }
    ensures acts { IfOk result (λ served. GoesOn vault.view served.0.view) }
    ensures flushed { IfOk result (λ served. (served.0.view.broken ≡ true) ⊎ IsAtRest served.0.view) }
    ensures counted { IfOk result (λ served. AreCounted served.2 served.1) }
    ensures served { IfOk result (λ served. All (IsServed vault.view served.0.view) served.2) }
{
    let workers = options.workers;
    let polls = match polls_of(rt, alloc, workers.min(options.threads).max(1)) {
        Ok(polls) => polls,
        Err(error) => {
            close(vault);
            return Err(error);
        }
    };
    let made = share_out::<D, S, T, A>(alloc, past, staged, told, vault, workers);
    let (shared, places) = match made {
        Ok(made) => made,
        Err(vault) => {
            close(vault);
            drop(polls);
            return Err(ServerError::NoMemory);
        }
    };
    let returned = match serve_shared(rt, alloc, &shared, places, polls, &listener, options, gate) {
        Ok(returned) => returned,
        Err(error) => {
            close(shared.into_vault());
            return Err(error);
        }
    };
    let Returned { shares, account } = returned;
    match gather(shared, shares) {
        Ok((vault, totals, sight)) => {
            let Some(reports) = account.of_vault(&sight) else {
                close(vault);
                return Err(ServerError::NoMemory);
            };
            let mut vault = vault;
            flush(rt, gate, &mut vault);
            Ok((vault, totals, reports))
        }
        Err((shared, shares)) => {
            close(shared.into_vault());
            drop(shares);
            drop(account);
            Err(ServerError::NoMemory)
        }
    }
}

// Puts a vault under a lock, with a place for each worker. Where memory is refused, the vault comes back.
fn share_out<D: Device, S: Tally, T: Tally, A: Allocator + Copy>(
    alloc: A,
    past: NewPast,
    staged: Blank,
    told: Blank,
    vault: Vault<D, A>,
    workers: usize,
) -> Result<(Shared<D, S, T, A>, Vec<Place<S, T, A>, A>), Vault<D, A>>
    requires workers { (0 < workers) × (workers ≤ 64) }
    requires whole { (S.all ≡ S.parts) × (T.all ≡ T.parts) }
    requires staged { (staged.name ≡ S.name) × (staged.parts ≡ S.parts) × (S.all ≡ workers + 1) × (S.beginning ≡ vault.view) }
    requires told { (told.name ≡ T.name) × (told.parts ≡ T.parts) × (T.all ≡ workers + 1) × (T.beginning ≡ vault.view) }
    requires past { past ≡ S.book }
{
    let (shared, shares) = match Shared::new(alloc, past, staged, told, vault, workers) {
        Ok(made) => made,
        Err(vault) => return Err(vault),
    };
    match places_of(alloc, shares) {
        Some(places) => Ok((shared, places)),
        None => Err(shared.into_vault()),
    }
}

// A place for each share, none of which counted anything. None where memory is refused.
fn places_of<S: Tally, T: Tally, A: Allocator + Copy>(
    alloc: A,
    shares: Vec<Share<S, T>, A>,
) -> Option<Vec<Place<S, T, A>, A>>
    requires { All (λ share. (share.staged ≡ 0) × (share.told ≡ 0)) shares.items }
{
    let mut shares = shares;
    let mut places = Vec::new(alloc);
    let Ok(()) = places.reserve(shares.len()) else {
        return None;
    };
    while let Some(share) = shares.pop() {
        places.push_reserved(Place::new(share));
    }
    Some(places)
}

// Closes a vault's files. Dropping the vault itself would be proved anew here.
fn close<D: Device + Drop, A: Allocator + Copy>(vault: Vault<D, A>) {
    let (first, second) = vault.into_devices();
    drop(first);
    drop(second);
}

// Serves what lies under this lock, by these polls.
fn serve_shared<
    D: Device + Drop + Send,
    A: Allocator + Copy + Send + Sync,
    G: Gate + Sync,
    H: Threads + Wait + Clock + Sync,
    S: Tally + Send + Sync,
    T: Tally + Send + Sync,
>(
    rt: &H,
    alloc: A,
    shared: &Shared<D, S, T, A>,
    places: Vec<Place<S, T, A>, A>,
    polls: Polls<A>,
    listener: &TcpListener,
    options: &ServerOptions,
    gate: &G,
) -> Result<Returned<S, T, A>, ServerError>
    requires { Frees A.Allocator A.dealloc_token }
{
    let Polls {
        threads,
        bells,
        door,
        crowd,
    } = polls;
    let token = Mutex::new(CommitToken);
    let server = Server {
        rt,
        alloc,
        shared,
        gate,
        bells: &bells,
        crowd: &crowd,
        token: &token,
        options: *options,
    };
    let returned = server.serve_all(Beginning {
        places,
        threads,
        door,
        listener,
    });
    drop(bells);
    drop(crowd);
    returned
}

// What the threads and the door wait by, and what wakes them.
#[derive(Drop)]
struct Polls<A: Allocator> {
    threads: Vec<Poll, A>,
    bells: Vec<Bell, A>,
    door: Poll,
    crowd: Crowd,
}

// A poll and a bell for each of `count` threads, and the door's.
fn polls_of<A: Allocator + Copy, H: Net>(
    rt: &H,
    alloc: A,
    count: usize,
) -> Result<Polls<A>, ServerError> {
    let mut threads = Vec::new(alloc);
    let mut bells = Vec::new(alloc);
    for _ in 0..count {
        let poll = Poll::new(rt).or(Err(ServerError::NoMemory))?;
        let bell = Bell::new(&poll).or(Err(ServerError::NoMemory))?;
        if threads.push(poll).is_err() || bells.push(bell).is_err() {
            return Err(ServerError::NoMemory);
        }
    }
    let door = Poll::new(rt).or(Err(ServerError::NoMemory))?;
    let crowd = Crowd::new(&door).or(Err(ServerError::NoMemory))?;
    Ok(Polls {
        threads,
        bells,
        door,
        crowd,
    })
}

// What each thread of a server has.
#[derive(Drop)]
struct Server<'a, D: Device, A: Allocator, G: Gate, H, S: Tally, T: Tally> {
    rt: &'a H,
    alloc: A,
    shared: &'a Shared<D, S, T, A>,
    gate: &'a G,
    bells: &'a Vec<Bell, A>,
    crowd: &'a Crowd,
    // The thread that has it commits.
    token: &'a Mutex<CommitToken>,
    options: ServerOptions,
}

// What a server begins with: its places, what each thread and the door wait by, and where connections come.
#[derive(Drop)]
struct Beginning<'a, S: Tally, T: Tally, A: Allocator> {
    places: Vec<Place<S, T, A>, A>,
    threads: Vec<Poll, A>,
    door: Poll,
    listener: &'a TcpListener,
}

// The threads that serve connections: how each gets them, and what it gives back.
#[derive(Drop)]
struct Running<S: Tally, T: Tally, A: Allocator> {
    senders: Vec<Sender<Accepted, A>, A>,
    handles: Handles<S, T, A>,
}

type Handles<S, T, A> = Vec<JoinHandle<Vec<Place<S, T, A>, A>>, A>;

impl<
    D: Device + Drop + Send,
    A: Allocator + Copy + Send + Sync,
    G: Gate + Sync,
    H: Threads + Wait + Clock + Sync,
    S: Tally + Send + Sync,
    T: Tally + Send + Sync,
> Server<'_, D, A, G, H, S, T> {
    // Serves by threads of its own, all of which have ended when it returns.
    fn serve_all(&self, beginning: Beginning<'_, S, T, A>) -> Result<Returned<S, T, A>, ServerError>
        requires { Frees A.Allocator A.dealloc_token }
    {
        thread::scope(
            thread::scope_env(),
            self.rt,
            |scope| -> Result<Returned<S, T, A>, ServerError>
                requires { IsSend D.row × IsSend A.row × IsSync A.row × Frees A.Allocator A.dealloc_token × IsSync G.row × IsSync H.row
                    × IsSend S.row × IsSync S.row × IsSend T.row × IsSync T.row }
            { self.serve_within(scope, beginning) },
        )
    }

    // Starts the threads, hands the connections out, joins the threads, and commits what is left.
    fn serve_within<'s, E>(
        &'s self,
        scope: &'s Scope<'s, E>,
        beginning: Beginning<'_, S, T, A>,
    ) -> Result<Returned<S, T, A>, ServerError>
        requires { Frees A.Allocator A.dealloc_token }
    {
        let Some(returned) = Returned::with_room(self.alloc, beginning.places.len()) else {
            drop(beginning);
            return Err(ServerError::NoMemory);
        };
        let (handles, accepted) = self.start_and_accept(scope, beginning);
        for bell in self.bells {
            bell.ring();
        }
        let returned = join_all(self.rt, handles, returned);
        self.shared.close(self.rt);
        let _ = run_flusher(self.rt, self.shared, self.gate);
        match accepted {
            Ok(()) => Ok(returned),
            Err(error) => {
                drop(returned);
                Err(error)
            }
        }
    }

    // Starts the threads, and hands the connections out to them until no more come. Their handles come back.
    fn start_and_accept<'s, E>(
        &'s self,
        scope: &'s Scope<'s, E>,
        beginning: Beginning<'_, S, T, A>,
    ) -> (Handles<S, T, A>, Result<(), ServerError>)
        requires { Frees A.Allocator A.dealloc_token }
    {
        let Beginning {
            places,
            threads,
            door,
            listener,
        } = beginning;
        let most_said = places.len().saturating_add(threads.len());
        let Ok((says, news)) = bounded::<News, A>(self.alloc, most_said) else {
            drop(threads);
            drop(door);
            drop(places);
            return (Vec::new(self.alloc), Err(ServerError::NoMemory));
        };
        let mut running = Running {
            senders: Vec::new(self.alloc),
            handles: Vec::new(self.alloc),
        };
        let started = self.start_all(scope, threads, places, &says, &mut running);
        drop(says);
        let Running { senders, handles } = running;
        let accepted = match started {
            Ok(()) => self.accept_all(listener, &senders, &news, door),
            Err(error) => {
                drop(door);
                Err(error)
            }
        };
        drop(senders);
        drop(news);
        (handles, accepted)
    }

    // Accepts connections, and hands them to the threads.
    fn accept_all(
        &self,
        listener: &TcpListener,
        senders: &Vec<Sender<Accepted, A>, A>,
        news: &Receiver<News, A>,
        poll: Poll,
    ) -> Result<(), ServerError> {
        let gate = self.gate;
        let door = Door {
            rt: self.rt,
            alloc: self.alloc,
            listener,
            senders,
            bells: self.bells,
            news,
            crowd: self.crowd,
            options: DoorOptions {
                places: self.options.workers,
                connections: self.options.connections,
                wait: self.options.full.map(|full| full.wait),
                per_address: self.options.per_address,
            },
        };
        door.keep(poll, |why| gate.accepts_no_more(why))?;
        Ok(())
    }

    // Starts a thread for each poll, with an equal part of the places, unless there is no memory for one.
    fn start_all<'s, E>(
        &'s self,
        scope: &'s Scope<'s, E>,
        polls: Vec<Poll, A>,
        places: Vec<Place<S, T, A>, A>,
        says: &Sender<News, A>,
        running: &mut Running<S, T, A>,
    ) -> Result<(), ServerError>
        requires { Frees A.Allocator A.dealloc_token }
    {
        let mut places = places;
        let threads = polls.len();
        for (number, poll) in polls.into_iter().enumerate() {
            let own = part_of(self.alloc, &mut places, threads.saturating_sub(number))?;
            self.start_one(scope, number, poll, own, says, running)?;
        }
        Ok(())
    }

    // Starts the thread of this number, and keeps its handle.
    fn start_one<'s, E>(
        &'s self,
        scope: &'s Scope<'s, E>,
        number: usize,
        poll: Poll,
        own: Vec<Place<S, T, A>, A>,
        says: &Sender<News, A>,
        running: &mut Running<S, T, A>,
    ) -> Result<(), ServerError>
        requires { Frees A.Allocator A.dealloc_token }
    {
        let event_loop = match self.event_loop_of(number, own.len(), says, &mut running.senders) {
            Ok(event_loop) => event_loop,
            Err(error) => {
                drop(poll);
                drop(own);
                return Err(error);
            }
        };
        let Some(handle) = self.start(scope, event_loop, poll, own) else {
            return Err(ServerError::NoMemory);
        };
        running.handles.push(handle).or(Err(ServerError::NoMemory))
    }

    // Starts a thread, unless there is no memory for it.
    fn start<'s, E>(
        &'s self,
        scope: &'s Scope<'s, E>,
        event_loop: EventLoop<'s, D, S, T, A, G, H>,
        poll: Poll,
        places: Vec<Place<S, T, A>, A>,
    ) -> Option<JoinHandle<Vec<Place<S, T, A>, A>>>
        requires { Frees A.Allocator A.dealloc_token }
    {
        scope.spawn(move || event_loop.run(poll, places)).ok()
    }

    // The event loop of a thread that has this number of places.
    fn event_loop_of<'s>(
        &'s self,
        number: usize,
        places: usize,
        says: &Sender<News, A>,
        senders: &mut Vec<Sender<Accepted, A>, A>,
    ) -> Result<EventLoop<'s, D, S, T, A, G, H>, ServerError> {
        let Some(bell) = self.bells.as_slice().get(number) else {
            return Err(ServerError::NoMemory);
        };
        let Ok((sender, coming)) = bounded::<Accepted, A>(self.alloc, places) else {
            return Err(ServerError::NoMemory);
        };
        let says = says.clone().or(Err(ServerError::NoMemory))?;
        if senders.push(sender).is_err() {
            return Err(ServerError::NoMemory);
        }
        Ok(EventLoop {
            worker: Worker {
                rt: self.rt,
                alloc: self.alloc,
                shared: self.shared,
                gate: self.gate,
                most_waits: self.options.waits,
            },
            token: self.token,
            bells: self.bells,
            bell,
            number,
            coming,
            says,
            crowd: self.crowd,
            patience: self.options.patience,
            refuses_foreign: self.options.refuses_foreign,
            silence: self.options.full.map(|full| full.silence),
        })
    }
}

// An equal part of the places, if they go to this number of threads.
fn part_of<S: Tally, T: Tally, A: Allocator>(
    alloc: A,
    places: &mut Vec<Place<S, T, A>, A>,
    threads: usize,
) -> Result<Vec<Place<S, T, A>, A>, ServerError> {
    let count = places.len() / threads.max(1);
    let mut own = Vec::new(alloc);
    for _ in 0..count {
        if let Some(place) = places.pop() {
            own.push(place).or(Err(ServerError::NoMemory))?;
        }
    }
    Ok(own)
}

// Waits for the threads, and adds what their places came to.
fn join_all<A: Allocator + Copy, H: Threads, S: Tally, T: Tally>(
    rt: &H,
    handles: Handles<S, T, A>,
    returned: Returned<S, T, A>,
) -> Returned<S, T, A> {
    let mut returned = returned;
    for handle in handles {
        for place in handle.join(rt) {
            returned = returned.and(place);
        }
    }
    returned
}
