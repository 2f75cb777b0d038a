//! The allocations of a conversation, refused in turn, and that of a snapshot.

use crate::filling::{COMMITS, Start};
use crate::talk::{COMMIT, Came, Flusher, NOTHING, PLAIN, SNAPSHOT, Talk, come_to_that, talked};
use std::alloc::Global;
use std::process::Abort;
use std::sync::Wait;
use std::thread::Threads;
use std::time::Clock;
use test_fixtures::{CREATION, CREATION_BESIDE, Devices, Piece};
use test_memory::{Outcome, Refusing, requests};
use vault_sessions::{Ended, Flushed, Totals};

// If the memory for a snapshot is refused, what was staged is committed, and the snapshot is begun after that. The first request is for
// the share, and the second for the snapshot.
static LATER: [Talk; 1] = [Talk {
    name: "a refused snapshot is begun later",
    start: Start::Long,
    came: Came {
        entries: 1020,
        calls: (
            CREATION + (COMMITS + 1) * COMMIT,
            CREATION_BESIDE + SNAPSHOT,
        ),
        ..NOTHING
    },
    ..PLAIN
}];

// Without memory for the share the vault comes back as it was, with all entries and the command that isn't durable: with ample memory
// its flusher then begins the snapshot at once.
static NO_SHARE: Talk = Talk {
    name: "a vault that comes back",
    start: Start::Long,
    came: Came {
        entries: 1020,
        calls: (CREATION + COMMITS * COMMIT, CREATION_BESIDE + SNAPSHOT),
        ..NOTHING
    },
    ..PLAIN
};

static ASKED: Talk = Talk {
    name: "each request refused",
    says: &[&[(b"hello anna\nmake /e\nlist /\n", 1)]],
    hears: &[(b"OK session 1\nOK place 1\nOK list 1 e\n", 1)],
    came: Came {
        ended: Some(Ended::EndOfInput),
        answers: 3,
        totals: Totals { staged: 4, told: 3 },
        entries: 4,
        calls: (CREATION + COMMIT, CREATION_BESIDE),
        ..NOTHING
    },
    ..PLAIN
};

const TOLD: &[u8] = b"OK session 1\nOK place 1\nOK list 1 e\n";

// What a conversation may come to that is refused one request behind the share's: what is heard, how it ends, how many lines are
// answered, what is counted, and how many calls of the first file there are. Either one line is answered 81, nothing is staged for it,
// and what comes after it is answered as if it hadn't been said; or memory ends the conversation there. A session that is open in the
// end gets a last leave.
static REFUSALS: [(&[u8], Ended, usize, Totals, u64); 8] = [
    (
        b"ERR 81\nERR 11\nERR 11\n",
        Ended::EndOfInput,
        3,
        Totals { staged: 2, told: 2 },
        CREATION,
    ),
    (
        b"OK session 1\nERR 81\nOK list 0\n",
        Ended::EndOfInput,
        3,
        Totals { staged: 3, told: 2 },
        CREATION,
    ),
    (
        b"OK session 1\nOK place 1\nERR 81\n",
        Ended::EndOfInput,
        3,
        Totals { staged: 3, told: 2 },
        CREATION + COMMIT,
    ),
    // There is no room for a line, or for its answer.
    (
        b"",
        Ended::NoMemory,
        0,
        Totals { staged: 0, told: 0 },
        CREATION,
    ),
    // The reply can't be copied for the client.
    (
        b"OK session 1\nOK place 1\n",
        Ended::NoMemory,
        2,
        Totals { staged: 4, told: 2 },
        CREATION + COMMIT,
    ),
    // There is no room for the reply's text. The line counts as answered.
    (
        b"",
        Ended::NoMemory,
        1,
        Totals { staged: 2, told: 1 },
        CREATION,
    ),
    (
        b"OK session 1\n",
        Ended::NoMemory,
        2,
        Totals { staged: 3, told: 2 },
        CREATION + COMMIT,
    ),
    (
        b"OK session 1\nOK place 1\n",
        Ended::NoMemory,
        3,
        Totals { staged: 4, told: 3 },
        CREATION + COMMIT,
    ),
];

// Whether a conversation that was refused a request comes to one of these.
fn shows_refusal(came: Came, heard: &[u8]) -> bool {
    for (text, ended, answers, totals, calls) in &REFUSALS {
        let wanted = Came {
            ended: Some(*ended),
            answers: *answers,
            totals: *totals,
            entries: totals.staged,
            calls: (*calls, CREATION_BESIDE),
            ..NOTHING
        };
        if came == wanted && heard == *text {
            return true;
        }
    }
    false
}

// Tries a conversation over a new vault. Each entry is committed in the worker's own thread. Where there was no memory for the share, the
// conversation over the vault that came back has to be whole.
fn talks<H: Threads + Wait + Clock + Sync + Abort>(
    rt: &H,
    global: Global,
    memory: &Refusing<Global>,
    request: u64,
) -> Outcome {
    let (has_share, came, heard) = talked(rt, global, memory, &ASKED, request);
    let shows = shows_refusal(came, &heard);
    let is_whole = came == ASKED.came && heard.as_slice() == TOLD;
    drop(heard);
    if !has_share {
        return Outcome::refused(is_whole);
    }
    if memory.has_refused() {
        Outcome::refused(shows)
    } else {
        Outcome::done(is_whole)
    }
}

#[test]
fn each_request_of_a_conversation_is_refused(rt: HostRuntime) {
    let memory = Refusing::new(rt.alloc());
    come_to_that(&rt, rt.alloc(), &memory, &LATER, 2);
    assert!(rt; !memory.is_waiting());
    // The first is for the share.
    let made = requests(|number| talks(&rt, rt.alloc(), &memory, number));
    assert_eq!(rt; made, Some(17), "serve_one");
}

#[test]
fn a_vault_comes_back_where_there_is_no_memory_for_a_share(rt: HostRuntime) {
    let memory = Refusing::new(rt.alloc());
    let (has_share, came, heard) = talked(&rt, rt.alloc(), &memory, &NO_SHARE, 1);
    let is_right = !has_share && came == NO_SHARE.came && heard.is_empty();
    drop(heard);
    assert!(rt; is_right, "{}: {has_share} {came:?}", NO_SHARE.name);
}
