//! An honest client that is served beside hostile ones.

use libc::net::{SHUT_RD, shutdown};
use std::alloc::Global;
use std::io::{self, ErrorKind, Read, Write};
use std::net::{Net, SocketAddr, TcpListener, TcpStream};
use std::os::fd::AsRawFd;
use std::process::Abort;
use std::sync::Wait;
use std::sync::atomic::{AtomicBool, AtomicU64, Ordering};
use std::thread::{self, Threads};
use std::time::{Clock, Duration};
use test_fixtures::{TURNS, created, is_reached_within};
use test_memory::Refusing;
use vault_server::{Patience, ServerError, ServerOptions, run_server_on};
use vault_sessions::{Gate, Point};

// How many places there are.
const WORKERS: usize = 8;

// How many steps a connection takes in a round at most, as slot.rt of vault_server says.
const STEPS_A_ROUND: u64 = 4;

// For how many rounds a command may wait for its commit: others are waited for a little. A loop that commits at rest alone lets others be
// heard some 16,000 times meanwhile.
const ROUNDS: u64 = 8;

// How often others may be heard between a command of the honest client and its reply. One thread serves all places, and each has one turn a
// round, since no connection waits for a claim.
const MAX_HEARD: u64 = ROUNDS * WORKERS as u64 * STEPS_A_ROUND;

// How many calls of its connection a hostile client makes before it connects again.
const CALLS: usize = 20_000;

// For how many seconds the honest one waits for a reply.
const LONGEST_WAIT: u64 = 30;

// How often the hostile ones are heard before it says anything.
const BEGUN: u64 = 64;

// What it says, and the last two lines that it hears. The numbers in those before depend on who else comes.
const SAID: &[u8] = b"hello anna\nmake /e\nlist /e\nquit\n";

const TOLD: &str = "OK list 0\nOK left\n";

// What makes a list of 540 bytes. 4,000 of them are more than the kernel holds for a client that reads none.
const LONG: &[u8] = b"hello ben\nmake /h\n\
make /h/aaaaaaaaaaaaaaaaaaaaaaaaaaaaaaa1\nmake /h/aaaaaaaaaaaaaaaaaaaaaaaaaaaaaaa2\n\
make /h/aaaaaaaaaaaaaaaaaaaaaaaaaaaaaaa3\nmake /h/aaaaaaaaaaaaaaaaaaaaaaaaaaaaaaa4\n\
make /h/aaaaaaaaaaaaaaaaaaaaaaaaaaaaaaa5\nmake /h/aaaaaaaaaaaaaaaaaaaaaaaaaaaaaaa6\n\
make /h/aaaaaaaaaaaaaaaaaaaaaaaaaaaaaaa7\nmake /h/aaaaaaaaaaaaaaaaaaaaaaaaaaaaaaa8\n\
make /h/bbbbbbbbbbbbbbbbbbbbbbbbbbbbbbb1\nmake /h/bbbbbbbbbbbbbbbbbbbbbbbbbbbbbbb2\n\
make /h/bbbbbbbbbbbbbbbbbbbbbbbbbbbbbbb3\nmake /h/bbbbbbbbbbbbbbbbbbbbbbbbbbbbbbb4\n\
make /h/bbbbbbbbbbbbbbbbbbbbbbbbbbbbbbb5\nmake /h/bbbbbbbbbbbbbbbbbbbbbbbbbbbbbbb6\n\
make /h/bbbbbbbbbbbbbbbbbbbbbbbbbbbbbbb7\nmake /h/bbbbbbbbbbbbbbbbbbbbbbbbbbbbbbb8\n";

// What a hostile client does over and over, until the honest one got its answers.
struct Hostility {
    name: &'static str,
    // It sends the first bytes once, and then these, this often, in writes of at most this many bytes. If it sends none, it closes.
    first: &'static [u8],
    says: &'static [u8],
    times: usize,
    most: usize,
    // Whether it reads its answers.
    reads: bool,
}

const X: &[u8] = &[b'x'; 4096];

static ROWS: [Hostility; 6] = [
    Hostility {
        name: "lines that are refused without end, and connecting again",
        first: b"",
        says: b"\n",
        times: 4097,
        most: 4097,
        reads: true,
    },
    Hostility {
        name: "connecting and closing",
        first: b"",
        says: b"",
        times: 0,
        most: 0,
        reads: false,
    },
    Hostility {
        name: "16 MiB without a line feed",
        first: b"",
        says: X,
        times: 4097,
        most: 4096,
        reads: true,
    },
    Hostility {
        name: "a byte at a time",
        first: b"",
        says: b"foo\n",
        times: 4096,
        most: 1,
        reads: true,
    },
    Hostility {
        name: "reading no reply",
        first: LONG,
        says: b"list /h\n",
        times: 4000,
        most: 32_768,
        reads: false,
    },
    Hostility {
        name: "4,096 lines in one packet, and one more",
        first: b"",
        says: b"list /\n",
        times: 4097,
        most: 28_679,
        reads: true,
    },
];

// Counts how often others are heard: in all, and between a command of the honest client and its reply. The honest one is the first to
// connect, so its number is 1.
#[derive(Drop)]
struct Counting {
    heard: AtomicU64,
    // How many commands of the honest one were staged, and how many were answered.
    staged: AtomicU64,
    told: AtomicU64,
    // How often others were heard since its last command was staged, and the most for any of them.
    since: AtomicU64,
    most: AtomicU64,
}

impl Counting {
    fn new() -> Counting {
        Counting {
            heard: AtomicU64::new(0),
            staged: AtomicU64::new(0),
            told: AtomicU64::new(0),
            since: AtomicU64::new(0),
            most: AtomicU64::new(0),
        }
    }

    // Another one is heard.
    fn hear(&self) {
        self.heard.fetch_add(1, Ordering::SeqCst);
        if self.staged.load(Ordering::SeqCst) == self.told.load(Ordering::SeqCst) {
            return;
        }
        let since = self.since.fetch_add(1, Ordering::SeqCst).saturating_add(1);
        if since > self.most.load(Ordering::SeqCst) {
            self.most.store(since, Ordering::SeqCst);
        }
    }
}

impl Gate for Counting {
    fn at(&self, point: Point) {
        match point {
            Point::Staged(1) => {
                self.since.store(0, Ordering::SeqCst);
                self.staged.fetch_add(1, Ordering::SeqCst);
            }
            Point::Told(1) => {
                self.told.fetch_add(1, Ordering::SeqCst);
            }
            Point::Read(number) if number != 1 => self.hear(),
            _ => {}
        }
    }
}

// Whether a call of a connection went well, or may go well later.
fn goes_on(called: io::Result<usize>) -> bool {
    match called {
        Ok(count) => count > 0,
        Err(error) => error.kind() == ErrorKind::WouldBlock,
    }
}

// Sends the next of the bytes, after the first `sent` of them. Says how many it sent.
fn send(stream: &mut TcpStream, said: &[u8], sent: usize, most: usize) -> io::Result<usize> {
    let left = said.get(sent..).unwrap_or(b"");
    stream.write(&left[..left.len().min(most)])
}

// One connection of a hostile client. It gives this up once the honest one got its answers.
fn act(stream: &mut TcpStream, row: &Hostility, said: &[u8], is_over: &AtomicBool) {
    let mut chunk = [0; 4096];
    let mut sent = 0usize;
    for _ in 0..CALLS {
        if is_over.load(Ordering::SeqCst) || (row.reads && !goes_on(stream.read(&mut chunk))) {
            return;
        }
        if sent < said.len() {
            match send(stream, said, sent, row.most) {
                Ok(count) => sent = sent.saturating_add(count),
                Err(error) if error.kind() == ErrorKind::WouldBlock => {}
                Err(_) => return,
            }
        } else if said.is_empty() {
            return;
        }
        thread::yield_now();
    }
}

// A hostile client. It connects again and again until the honest one got its answers.
fn be_hostile<R: Net<Listener = TcpListener, Stream = TcpStream> + Wait + Abort>(
    rt: &R,
    global: Global,
    address: SocketAddr,
    row: &Hostility,
    is_over: &AtomicBool,
) {
    let mut said = Vec::new(global);
    said.extend_from_slice(row.first).expect(rt, "memory");
    for _ in 0..row.times {
        said.extend_from_slice(row.says).expect(rt, "memory");
    }
    for _ in rt.forever() {
        if is_over.load(Ordering::SeqCst) {
            break;
        }
        if let Ok(mut stream) = TcpStream::connect(rt, address) {
            if stream.set_nonblocking(true).is_ok() {
                act(&mut stream, row, &said, is_over);
            }
            drop(stream);
        }
    }
    drop(said);
}

// What an honest client hears beside them, to its end, from its list on. Nothing, if it heard nothing for too long.
fn ask(rt: &impl Abort, global: Global, honest: TcpStream, gate: &Counting) -> String {
    let mut stream = honest;
    let wait = Some(Duration::from_secs(LONGEST_WAIT));
    assert!(rt; stream.set_read_timeout(wait).is_ok());
    assert!(rt;
        is_reached_within(&gate.heard, BEGUN, TURNS),
        "nobody else is heard"
    );
    assert!(rt; stream.write_all(SAID).is_ok());
    let told = io::read_to_string(global, &mut stream);
    drop(stream);
    told.unwrap_or(String::new(global))
}

// What the honest client hears beside two hostile ones of a row. Then these end, and nobody is accepted any more.
fn ask_beside<
    R: Net<Listener = TcpListener, Stream = TcpStream> + Threads + Wait + Clock + Sync + Abort,
>(
    rt: &R,
    global: Global,
    listener: &TcpListener,
    honest: TcpStream,
    row: &Hostility,
    gate: &Counting,
) -> String {
    let address = listener.local_addr().expect(rt, "an address");
    let is_over = AtomicBool::new(false);
    let (told, _) = thread::join(
        rt,
        || {
            let told = ask(rt, global, honest, gate);
            is_over.store(true, Ordering::SeqCst);
            told
        },
        || {
            thread::join(
                rt,
                || be_hostile(rt, global, address, row, &is_over),
                || be_hostile(rt, global, address, row, &is_over),
            )
        },
    );
    // Each accept fails from now on.
    let _ = shutdown(listener.as_raw_fd(), SHUT_RD);
    told
}

// How a server over a new vault ends.
fn serves<H: Net + Threads + Wait + Clock + Sync + Abort>(
    rt: &H,
    global: Global,
    memory: &Refusing<Global>,
    listener: TcpListener,
    gate: &Counting,
) -> Option<ServerError> {
    let vault = created(global, memory, 0).expect(rt, "a new vault");
    let options = ServerOptions {
        workers: WORKERS,
        threads: 1,
        connections: None,
        patience: Patience {
            idle: None,
            hello: None,
            line: None,
            wait: None,
        },
        waits: 0,
        refuses_foreign: false,
        full: None,
        per_address: None,
    };
    let served = run_server_on(rt, memory, listener, vault, &options, gate);
    match served {
        Ok((vault, _, _)) => {
            let (first, second) = vault.into_devices();
            drop(first);
            drop(second);
            None
        }
        Err(error) => Some(error),
    }
}

// How a server ends, and what the honest client hears beside two hostile ones of a row. It connects before they do.
fn ends_beside<
    R: Net<Listener = TcpListener, Stream = TcpStream> + Threads + Wait + Clock + Sync + Abort,
>(
    rt: &R,
    global: Global,
    memory: &Refusing<Global>,
    row: &Hostility,
    gate: &Counting,
) -> (Option<ServerError>, String) {
    let listener = TcpListener::bind(rt, "127.0.0.1:0").expect(rt, "a listener");
    let again = listener.try_clone().expect(rt, "the same listener");
    let address = listener.local_addr().expect(rt, "an address");
    let honest = TcpStream::connect(rt, address).expect(rt, "a client");
    let ended = thread::join(
        rt,
        || serves(rt, global, memory, listener, gate),
        || ask_beside(rt, global, &again, honest, row, gate),
    );
    drop(again);
    ended
}

// Beside each row's clients, all commands of the honest one are answered, and none waits while others are heard again and again.
#[test]
fn a_client_is_told_all_beside_others_that_go_on_until_then(rt: HostRuntime) {
    let memory = Refusing::new(rt.alloc());
    for row in &ROWS {
        let gate = Counting::new();
        let (ended, heard) = ends_beside(&rt, rt.alloc(), &memory, row, &gate);
        let (told, most) = (
            gate.told.load(Ordering::SeqCst),
            gate.most.load(Ordering::SeqCst),
        );
        drop(gate);
        assert_eq!(&rt; ended, Some(ServerError::Accept), "{}", row.name);
        assert!(&rt; heard.as_str().ends_with(TOLD), "{}", row.name);
        drop(heard);
        assert_eq!(&rt; told, 4, "{}", row.name);
        assert!(&rt; most <= MAX_HEARD, "{}: {most}", row.name);
    }
}
