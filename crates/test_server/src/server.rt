//! A server over TCP on this machine, and its clients. The clients' lines wait for it.

ghost use Rattle.std.specs.Prelude.{◌<◌, ◌≤◌, IfSome};

use crate::holding::{Holding, Rule};
use libc::net::{SHUT_RD, listen, shutdown};
use std::alloc::Global;
use std::io;
use std::net::{Net, Shutdown, TcpListener, TcpStream};
use std::os::fd::AsRawFd;
use std::process::Abort;
use std::sync::Wait;
use std::thread::{self, Threads};
use std::time::{Clock, Duration};
use test_fixtures::{Begun, CREATION, Devices, Piece, Sender, TURNS, created};
use test_memory::Refusing;
use vault_device::{Device, MemDevice, Pick};
use vault_server::{Full, Patience, ServerError, ServerOptions, run_server, run_server_on};
use vault_sessions::{Point, Totals};

/// How long a client waits before it comes, in milliseconds.
const WAIT: u64 = 300;

// Clients that may take as long as they like.
const PATIENT: Patience = Patience {
    idle: None,
    hello: None,
    line: None,
    wait: None,
};

// How many connections may wait at a listener.
const BACKLOG: i32 = 16;

/// The length of a new vault's first file, with its tail gate. One place takes 12 bytes more, and two in one frame 19.
pub const HEAD: u64 = 35;

/// What a client sends, and whether it might send more.
pub struct Client {
    pub says: &'static [Piece],
    pub may_say_more: bool,
}

/// A server, its clients, and what it comes to.
pub struct Serving {
    pub name: &'static str,
    /// Which device call after the vault's creation fails.
    pub failing: u64,
    pub has_two_workers: bool,
    /// Whether one thread serves both.
    pub has_one_thread: bool,
    pub connections: Option<u32>,
    /// After how many milliseconds it ends a connection that says nothing, has no session, or doesn't end its line.
    pub idle: Option<u64>,
    pub hello: Option<u64>,
    pub line: Option<u64>,
    /// How many connections may wait for a claim, and for how many milliseconds.
    pub waits: usize,
    pub wait: Option<u64>,
    /// After how many milliseconds it turns away a connection that waits for a place, and for how many another one must have been
    /// silent to be ended for it.
    pub full: Option<(u64, u64)>,
    /// Whether another protocol's first line ends a connection.
    pub refuses_foreign: bool,
    /// Whether nobody can be accepted any more, once the first connection got a reply; or before one that comes late.
    pub is_shut: bool,
    /// Whether one client comes once it runs.
    pub is_late: bool,
    /// Whether its clients say that no more comes only once it reported that no more can be accepted.
    pub is_patient: bool,
    pub rules: &'static [Rule],
    pub clients: &'static [Client],
    /// What the clients hear to their ends, one after the other, may be one of these.
    pub hears: &'static [&'static [Piece]],
    /// What the first commit of two clients writes is one of these.
    pub frames: &'static [[u8; 20]],
    pub pumps: Option<u64>,
    /// How many times a `wait` is kept.
    pub kept: u64,
    pub came: Outcome,
}

impl Serving {
    fn workers(&self) -> usize
        ensures { (0 < result) × (result ≤ 64) }
    {
        if self.has_two_workers { 2 } else { 1 }
    }

    // Its options, if it isn't a plain server.
    fn options(&self) -> Option<ServerOptions>
        ensures { IfSome result (λ options. (0 < options.workers) × (options.workers ≤ 64)) }
    {
        let is_plain = self.idle.is_none()
            && self.hello.is_none()
            && self.line.is_none()
            && self.waits == 0
            && self.full.is_none()
            && !self.refuses_foreign
            && !self.has_one_thread
            && !self.is_patient;
        if is_plain {
            return None;
        }
        Some(ServerOptions {
            workers: self.workers(),
            threads: if self.has_one_thread { 1 } else { 2 },
            connections: self.connections,
            patience: Patience {
                idle: self.idle.map(Duration::from_millis),
                hello: self.hello.map(Duration::from_millis),
                line: self.line.map(Duration::from_millis),
                wait: self.wait.map(Duration::from_millis),
            },
            waits: self.waits,
            refuses_foreign: self.refuses_foreign,
            full: self.full.map(|(wait, silence)| Full {
                wait: Duration::from_millis(wait),
                silence: Duration::from_millis(silence),
            }),
            per_address: None,
        })
    }
}

/// What a server came to.
#[derive(Debug, Clone, Copy, PartialEq, Eq)]
pub struct Outcome {
    pub error: Option<ServerError>,
    pub totals: Totals,
    pub is_broken: bool,
    pub has_frame: bool,
    /// How many calls of the first file there were, and how many bytes of it a crash would leave.
    pub calls: u64,
    pub length: u64,
}

/// What a server over a new vault comes to if nothing is changed.
pub const ENDED: Outcome = Outcome {
    error: None,
    totals: Totals { staged: 0, told: 0 },
    is_broken: false,
    has_frame: true,
    calls: CREATION,
    length: HEAD,
};

/// A server of one worker, for one connection.
pub const PLAIN: Serving = Serving {
    name: "",
    failing: 0,
    has_two_workers: false,
    has_one_thread: false,
    connections: Some(1),
    idle: None,
    hello: None,
    line: None,
    waits: 0,
    wait: None,
    full: None,
    refuses_foreign: false,
    is_shut: false,
    is_late: false,
    is_patient: false,
    rules: &[],
    clients: &[],
    hears: &[],
    frames: &[],
    pumps: None,
    kept: 0,
    came: ENDED,
};

// A client that has sent its lines.
fn connected<R: Net<Listener = TcpListener, Stream = TcpStream> + Abort>(
    rt: &R,
    listener: &TcpListener,
    client: &Client,
) -> TcpStream {
    let address = listener.local_addr().expect(rt, "an address");
    let mut stream = TcpStream::connect(rt, address).expect(rt, "a client");
    let mut lines = Sender::new(client.says, Devices::Plain);
    assert!(rt; io::copy(&mut lines, &mut stream).is_ok());
    assert!(rt; client.may_say_more || stream.shutdown(Shutdown::Write).is_ok());
    drop(lines);
    stream
}

// The clients that have sent their lines by now.
fn all_connected<R: Net<Listener = TcpListener, Stream = TcpStream> + Abort>(
    rt: &R,
    global: Global,
    listener: &TcpListener,
    clients: &[Client],
) -> Vec<TcpStream> {
    let mut streams = Vec::new(global);
    for client in clients {
        streams
            .push(connected(rt, listener, client))
            .expect(rt, "memory");
    }
    streams
}

// Adds what clients hear, one after the other. What one hears to its end is followed by a line `end`.
fn hear(rt: &impl Abort, global: Global, streams: Vec<TcpStream>, text: &mut String) {
    for stream in streams {
        let mut stream = stream;
        if let Ok(told) = io::read_to_string(global, &mut stream) {
            text.push_str(told.as_str()).expect(rt, "memory");
            text.push_str("end\n").expect(rt, "memory");
            drop(told);
        }
        drop(stream);
    }
}

// Whether one of these frames follows the head of a new vault, if any are given.
fn has_one_of(file: &mut MemDevice, frames: &[[u8; 20]]) -> bool {
    if frames.is_empty() {
        return true;
    }
    let mut bytes = [0; 20];
    file.len() == Ok(54) && file.read_at(34, &mut bytes).is_ok() && frames.contains(&bytes)
}

// What a server over a new vault comes to, while this request for memory is refused.
fn comes_to<H: Net + Threads + Wait + Clock + Sync + Abort>(
    rt: &H,
    global: Global,
    memory: &Refusing<Global>,
    listener: TcpListener,
    serving: &Serving,
    gate: &Holding<'_, H>,
    request: u64,
) -> Outcome {
    let vault = created(global, memory, serving.failing).expect(rt, "a new vault");
    let (workers, connections) = (serving.workers(), serving.connections);
    memory.refuse(request);
    let served = match serving.options() {
        Some(options) => run_server_on(rt, memory, listener, vault, &options, gate),
        None => run_server(rt, memory, listener, vault, workers, connections, gate),
    };
    match served {
        Ok((vault, totals, _)) => left(rt, vault, totals, serving),
        Err(error) => Outcome {
            error: Some(error),
            totals: Totals { staged: 0, told: 0 },
            is_broken: false,
            has_frame: false,
            calls: 0,
            length: 0,
        },
    }
}

// What a server that ended left.
fn left(rt: &impl Abort, vault: Begun<'_>, totals: Totals, serving: &Serving) -> Outcome {
    let is_broken = vault.is_broken();
    let (mut first, second) = vault.into_devices();
    let calls = first.calls();
    let has_frame = has_one_of(&mut first, serving.frames);
    first.crash(Pick::Old);
    let length = first.len().expect(rt, "a length");
    drop(first);
    drop(second);
    Outcome {
        error: None,
        totals,
        is_broken,
        has_frame,
        calls,
        length,
    }
}

// The client that comes once the server runs, if one does.
fn late<R: Net<Listener = TcpListener, Stream = TcpStream> + Clock + Abort>(
    rt: &R,
    global: Global,
    listener: &TcpListener,
    serving: &Serving,
) -> Vec<TcpStream> {
    if !serving.is_late {
        return Vec::new(global);
    }
    thread::sleep(rt, Duration::from_millis(WAIT));
    assert!(rt; listen(listener.as_raw_fd(), BACKLOG) == 0);
    all_connected(rt, global, listener, serving.clients)
}

// Makes every accept at this listener fail.
fn shut(listener: &TcpListener) {
    let _ = shutdown(listener.as_raw_fd(), SHUT_RD);
}

// Shuts the listener once the first connection got a reply, if it is to be shut. If its clients are patient, they say that no more
// comes once the server reported that no more can be accepted.
fn part<H: Clock>(
    serving: &Serving,
    gate: &Holding<'_, H>,
    listener: &TcpListener,
    streams: &Vec<TcpStream>,
) {
    if serving.is_late || !serving.is_shut || !gate.are_passed(&[(Point::Told(1), 1)]) {
        return;
    }
    shut(listener);
    if serving.is_patient && gate.is_deaf_within(TURNS) {
        for stream in streams {
            let _ = stream.shutdown(Shutdown::Write);
        }
    }
}

/// What a server comes to, while this request for memory is refused, what its clients hear, how many pumps there were (none if a thread
/// waited too long), and how many times a `wait` was kept.
pub(crate) fn served<
    R: Net<Listener = TcpListener, Stream = TcpStream> + Threads + Wait + Clock + Sync + Abort,
>(
    rt: &R,
    global: Global,
    memory: &Refusing<Global>,
    serving: &Serving,
    request: u64,
) -> (Outcome, String, Option<u64>, u64) {
    let listener = TcpListener::bind(rt, "127.0.0.1:0").expect(rt, "a listener");
    let again = listener.try_clone().expect(rt, "the same listener");
    let early = if serving.is_late {
        &[]
    } else {
        serving.clients
    };
    let streams = all_connected(rt, global, &again, early);
    if serving.is_late {
        shut(&again);
    }
    let gate = Holding::new(rt, serving.rules);
    let (outcome, last) = thread::join(
        rt,
        || { comes_to(rt, global, memory, listener, serving, &gate, request) },
        || {
            part(serving, &gate, &again, &streams);
            late(rt, global, &again, serving)
        },
    );
    drop(again);
    let mut text = String::new(global);
    hear(rt, global, streams, &mut text);
    hear(rt, global, last, &mut text);
    let (pumps, kept) = (gate.pumps(), gate.kept());
    drop(gate);
    (outcome, text, pumps, kept)
}
