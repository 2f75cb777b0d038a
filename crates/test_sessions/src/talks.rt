//! Conversations on one connection, and on several, one after the other; a flusher with nothing to do, and one that makes a snapshot.

use crate::filling::{COMMITS, MAX_KEPT, Start};
use crate::talk::{COMMIT, Came, Flusher, NOTHING, PLAIN, SNAPSHOT, Talk, come_to_that};
use test_fixtures::{CREATION, CREATION_BESIDE, Devices, Piece};
use test_memory::Refusing;
use vault_sessions::{Ended, Flushed, Totals};

const HELLO: &[Piece] = &[(b"hello anna\n", 1)];

// Session 11's commands, and its last leave, are its own.
const ELEVENTH: &[&[Piece]] = &[
    HELLO,
    HELLO,
    HELLO,
    HELLO,
    HELLO,
    HELLO,
    HELLO,
    HELLO,
    HELLO,
    HELLO,
    &[(
        b"hello ben\nmake /e\nhold w:/e\ncheckout r:/e\nstate c1\nlist /\n",
        1,
    )],
    &[(b"state c1\nhello ada\nstate c1\nquit\n", 1)],
];

const HEARD_ELEVENTH: &[Piece] = &[
    (
        b"OK session 1\nOK session 2\nOK session 3\nOK session 4\nOK session 5\nOK session 6\n",
        1,
    ),
    (
        b"OK session 7\nOK session 8\nOK session 9\nOK session 10\nOK session 11\nOK place 1\n",
        1,
    ),
    (
        b"OK held h1\nOK queued c1 behind h1\nOK queued c1 behind h1\nOK list 1 e\nERR 11\n",
        1,
    ),
    (b"OK session 12\nOK held c1\nOK left\n", 1),
];

// Lines that a single byte makes bad, then one that has the most bytes, and the same with one more.
const STRANGE: &[Piece] = &[
    (b"list /\r\nlist /\xff\n\n", 1),
    (b"checkout", 1),
    (b" r:/", 1022),
    (b"\ncheckout", 1),
    (b" r:/", 1022),
    (b"x\n", 1),
];

const X_64: &[u8] = b"xxxxxxxxxxxxxxxxxxxxxxxxxxxxxxxxxxxxxxxxxxxxxxxxxxxxxxxxxxxxxxxx";

const X_63: &[u8] = b"xxxxxxxxxxxxxxxxxxxxxxxxxxxxxxxxxxxxxxxxxxxxxxxxxxxxxxxxxxxxxxx";

static TALKS: [Talk; 13] = [
    Talk {
        name: "lines beside a flusher",
        flusher: Flusher::Beside,
        says: &[&[(b"foo\nlist /\nhello anna\nmake /e\nlist /", 1)]],
        hears: &[(b"ERR 10\nERR 11\nOK session 1\nOK place 1\n", 1)],
        came: Came {
            ended: Some(Ended::EndOfInput),
            answers: 4,
            totals: Totals { staged: 4, told: 3 },
            entries: 4,
            calls: (CREATION + COMMIT, CREATION_BESIDE),
            ..NOTHING
        },
        ..PLAIN
    },
    Talk {
        name: "a flusher that tells a broken vault",
        start: Start::New(1),
        flusher: Flusher::Beside,
        says: &[&[(b"hello anna\nmake /e\nlist /\n", 1)]],
        hears: &[(b"OK session 1\nERR 82\nERR 82\n", 1)],
        came: Came {
            ended: Some(Ended::EndOfInput),
            answers: 3,
            totals: Totals { staged: 2, told: 1 },
            entries: 2,
            flushed: Some(Flushed::Broken),
            calls: (CREATION + 1, CREATION_BESIDE),
        },
        ..PLAIN
    },
    Talk {
        name: "a flusher that stays where there is nothing to do",
        flusher: Flusher::Beside,
        ..PLAIN
    },
    // Nothing is staged, so the flusher sleeps until it is asked for room.
    Talk {
        name: "one that is told that there is no room gets it",
        start: Start::Full,
        flusher: Flusher::Awaited,
        says: &[&[(b"hello anna\nhello anna\nquit\n", 1)]],
        hears: &[(b"ERR 80\nOK session 1\nOK left\n", 1)],
        came: Came {
            ended: Some(Ended::Quit),
            answers: 3,
            totals: Totals { staged: 2, told: 2 },
            entries: MAX_KEPT + 2,
            ..NOTHING
        },
        ..PLAIN
    },
    Talk {
        name: "a hold goes with its connection",
        says: &[
            &[(b"hello anna\nhold w:/\n", 1)],
            &[(b"hello ben\ncheckout w:/\nquit\nlist /\n", 1)],
        ],
        hears: &[(
            b"OK session 1\nOK held h1\nOK session 2\nOK held c1\nOK left\n",
            1,
        )],
        came: Came {
            ended: Some(Ended::Quit),
            answers: 3,
            totals: Totals { staged: 6, told: 5 },
            entries: 6,
            calls: (CREATION + COMMIT, CREATION_BESIDE),
            ..NOTHING
        },
        ..PLAIN
    },
    Talk {
        name: "ten sessions come and go before the eleventh",
        says: ELEVENTH,
        hears: HEARD_ELEVENTH,
        came: Came {
            ended: Some(Ended::Quit),
            answers: 4,
            totals: Totals {
                staged: 31,
                told: 20,
            },
            entries: 31,
            calls: (CREATION + 2 * COMMIT, CREATION_BESIDE),
            ..NOTHING
        },
        ..PLAIN
    },
    Talk {
        name: "bad lines",
        says: &[STRANGE],
        hears: &[(b"ERR 10\nERR 10\nERR 10\nERR 11\nERR 10\n", 1)],
        came: Came {
            ended: Some(Ended::EndOfInput),
            answers: 5,
            totals: Totals { staged: 1, told: 1 },
            entries: 1,
            ..NOTHING
        },
        ..PLAIN
    },
    Talk {
        name: "a broken vault",
        start: Start::New(1),
        says: &[&[(b"hello anna\nmake /e\nlist /\n", 1)]],
        hears: &[(b"OK session 1\nERR 82\nERR 82\n", 1)],
        came: Came {
            ended: Some(Ended::EndOfInput),
            answers: 3,
            totals: Totals { staged: 2, told: 1 },
            entries: 2,
            flushed: Some(Flushed::Broken),
            calls: (CREATION + 1, CREATION_BESIDE),
        },
        ..PLAIN
    },
    Talk {
        name: "a reader that fails",
        devices: Devices::Bumpy(9),
        says: &[&[(b"hello anna\nstate c1\nlist /", 1)]],
        hears: &[(b"OK session 1\nERR 30\n", 1)],
        came: Came {
            ended: Some(Ended::Read),
            answers: 2,
            totals: Totals { staged: 3, told: 2 },
            entries: 3,
            ..NOTHING
        },
        ..PLAIN
    },
    Talk {
        name: "a writer that fails",
        devices: Devices::Bumpy(1),
        says: &[&[(b"hello anna\nstate c1\nlist /", 1)]],
        hears: &[(b"OK session 1\n", 1)],
        came: Came {
            ended: Some(Ended::Write),
            answers: 2,
            totals: Totals { staged: 3, told: 2 },
            entries: 3,
            ..NOTHING
        },
        ..PLAIN
    },
    Talk {
        name: "a writer of single bytes",
        devices: Devices::Dripping,
        says: &[&[(b"hello anna\nmake /e\nlist /\nquit\n", 1)]],
        hears: &[(b"OK session 1\nOK place 1\nOK list 1 e\nOK left\n", 1)],
        came: Came {
            ended: Some(Ended::Quit),
            answers: 4,
            totals: Totals { staged: 4, told: 4 },
            entries: 4,
            calls: (CREATION + COMMIT, CREATION_BESIDE),
            ..NOTHING
        },
        ..PLAIN
    },
    // The snapshot makes durable what was staged before, in six calls of the other file, without a commit.
    Talk {
        name: "a flusher that begins a snapshot",
        start: Start::Long,
        came: Came {
            entries: 1020,
            calls: (CREATION + COMMITS * COMMIT, CREATION_BESIDE + SNAPSHOT),
            ..NOTHING
        },
        ..PLAIN
    },
    // Nothing is staged, and the vault is written into the other file all the same: three calls open that, and six write it.
    Talk {
        name: "a flusher that writes version 1 anew",
        start: Start::Version1,
        came: Came {
            calls: (11, 3 + SNAPSHOT),
            ..NOTHING
        },
        ..PLAIN
    },
];

// Conversations as long as one may be.
static LONG_TALKS: [Talk; 4] = [
    Talk {
        name: "one line too many",
        says: &[&[(b"list /\n", 4097)]],
        hears: &[(b"ERR 11\n", 4096)],
        came: Came {
            ended: Some(Ended::Limit),
            answers: 4096,
            totals: Totals {
                staged: 4096,
                told: 4096,
            },
            entries: 4096,
            ..NOTHING
        },
        ..PLAIN
    },
    // The session that is still open then gets its last leave, and the next connection is answered.
    Talk {
        name: "more commands than a history keeps, since those that were told are let go",
        says: &[
            &[(b"hello anna\n", 1), (b"list /\n", 4095)],
            &[(b"hello ben\nfoo\nlist /\n", 1)],
        ],
        hears: &[
            (b"OK session 1\n", 1),
            (b"OK list 0\n", 4095),
            (b"OK session 2\nERR 10\nOK list 0\n", 1),
        ],
        came: Came {
            ended: Some(Ended::EndOfInput),
            answers: 3,
            totals: Totals {
                staged: 4100,
                told: 4098,
            },
            entries: 4100,
            ..NOTHING
        },
        ..PLAIN
    },
    Talk {
        name: "as many bytes as a connection may send, 16,777,216, as one line",
        says: &[&[(X_64, 262_143), (X_63, 1), (b"\n", 1)]],
        hears: &[(b"ERR 10\n", 1)],
        came: Came {
            ended: Some(Ended::EndOfInput),
            answers: 1,
            ..NOTHING
        },
        ..PLAIN
    },
    Talk {
        name: "one byte too many",
        says: &[&[(X_64, 262_144), (b"\n", 1)]],
        came: Came {
            ended: Some(Ended::Limit),
            ..NOTHING
        },
        ..PLAIN
    },
];

#[test]
fn each_conversation_comes_to_what_its_row_says(rt: HostRuntime) {
    let memory = Refusing::new(rt.alloc());
    come_to_that(&rt, rt.alloc(), &memory, &TALKS, 0);
}

#[test]
fn each_long_conversation_comes_to_what_its_row_says(rt: HostRuntime) {
    let memory = Refusing::new(rt.alloc());
    come_to_that(&rt, rt.alloc(), &memory, &LONG_TALKS, 0);
}
