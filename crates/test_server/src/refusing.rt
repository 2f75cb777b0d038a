//! A server whose requests for memory are refused, one in each run. Which request has which number depends on the threads, so none is
//! named. Whichever is refused, the server ends in a way that is allowed, and nothing that was acknowledged to a client is lost.

use crate::server::{Client, ENDED, HEAD, Outcome as Came, PLAIN, Serving, served};
use std::alloc::Global;
use std::net::{Net, TcpListener, TcpStream};
use std::process::Abort;
use std::sync::Wait;
use std::thread::Threads;
use std::time::Clock;
use test_fixtures::CREATION;
use test_memory::{Outcome, Refusing, requests};
use vault_server::ServerError;
use vault_sessions::Totals;

static REFUSED: Serving = Serving {
    name: "each request refused",
    clients: &[Client {
        says: &[(b"hello anna\nmake /e\nquit\n", 1)],
        may_say_more: false,
    }],
    hears: &[&[(b"", 1)]],
    came: Came {
        totals: Totals { staged: 3, told: 3 },
        calls: CREATION + 4,
        length: HEAD + 12,
        ..ENDED
    },
    ..PLAIN
};

const TOLD: &str = "OK session 1\nOK place 1\nOK left\nend\n";

// What the client may hear of a server that ends out of memory, line by line: if memory for the first was refused, the others speak
// for no session.
static MAY_BE: [[&str; 3]; 4] = [
    ["OK session 1", "ERR 81", "ERR 81"],
    ["OK place 1", "ERR 81", "ERR 11"],
    ["OK left", "ERR 81", "ERR 11"],
    ["end", "end", "end"],
];

// Whether a client may hear this. If a worker ends early, and leaves lines unread, the client may hear nothing, and no end.
fn may_be_heard(heard: &str) -> bool {
    for (line, texts) in heard.lines().zip(&MAY_BE) {
        if line != "end" && !texts.contains(&line) {
            return false;
        }
    }
    heard.lines().count() <= 4
}

// What a server may come to that goes on: what the client hears, what is counted, and whether the place is committed. Either one line is
// answered 81, nothing is staged for it, and what comes after it is answered as if it hadn't been said; or memory ends the connection:
// before its first line, or where the text of a reply is to be made, which is counted and not heard. A session that is open in the end
// gets a last leave.
static GOES_ON: [(&str, Totals, bool); 7] = [
    (
        "ERR 81\nERR 11\nERR 11\nend\n",
        Totals { staged: 2, told: 2 },
        false,
    ),
    (
        "OK session 1\nERR 81\nOK left\nend\n",
        Totals { staged: 2, told: 2 },
        false,
    ),
    (
        "OK session 1\nOK place 1\nERR 81\nend\n",
        Totals { staged: 3, told: 2 },
        true,
    ),
    ("end\n", Totals { staged: 0, told: 0 }, false),
    ("end\n", Totals { staged: 2, told: 1 }, false),
    ("OK session 1\nend\n", Totals { staged: 3, told: 2 }, true),
    (
        "OK session 1\nOK place 1\nend\n",
        Totals { staged: 3, told: 3 },
        true,
    ),
];

// Whether a server that goes on comes to one of these. If the client heard of the place, it is in what a crash would leave.
fn may_go_on(came: Came, heard: &str) -> bool {
    for (text, totals, is_kept) in &GOES_ON {
        let kept = if *is_kept { REFUSED.came } else { ENDED };
        let wanted = Came {
            totals: *totals,
            ..kept
        };
        if came == wanted && heard == *text {
            return true;
        }
    }
    false
}

// Serves one connection, with this request refused.
fn serves<
    R: Net<Listener = TcpListener, Stream = TcpStream> + Threads + Wait + Clock + Sync + Abort,
>(rt: &R, global: Global, memory: &Refusing<Global>, request: u64) -> Outcome {
    let (came, heard, _, _) = served(rt, global, memory, &REFUSED, request);
    let has_refused = memory.has_refused();
    let goes_on = may_go_on(came, heard.as_str());
    let is_so = may_be_heard(heard.as_str());
    let is_whole = came == REFUSED.came && heard.as_str() == TOLD;
    drop(heard);
    match came.error {
        None if has_refused => Outcome::refused(goes_on),
        None => Outcome::done(is_whole),
        Some(error) => Outcome::refused(has_refused && is_so && error == ServerError::NoMemory),
    }
}

#[test]
fn each_request_of_a_server_is_refused(rt: HostRuntime) {
    let memory = Refusing::new(rt.alloc());
    let made = requests(|request| serves(&rt, rt.alloc(), &memory, request));
    assert!(rt; made.is_some_and(|made| made > 9), "run_server");
}
