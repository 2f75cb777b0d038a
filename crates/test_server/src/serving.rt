//! A server over TCP on this machine: what it answers, which threads wait for which, and what ends a connection.

use crate::holding::Rule;
use crate::server::{Client, ENDED, HEAD, Outcome, PLAIN, Serving, served};
use std::alloc::Global;
use std::net::{Net, TcpListener, TcpStream};
use std::process::Abort;
use std::sync::Wait;
use std::thread::Threads;
use std::time::Clock;
use test_fixtures::{CREATION, Piece, is_text};
use test_memory::Refusing;
use vault_server::ServerError;
use vault_sessions::{Point, Totals};

// The clients of one server.
const ANNA_AND_BEN: &[Client] = &[
    Client {
        says: &[(b"hello anna\nquit\n", 1)],
        may_say_more: false,
    },
    Client {
        says: &[(b"hello ben\nquit\n", 1)],
        may_say_more: false,
    },
];

const TWO_MAKERS: &[Client] = &[
    Client {
        says: &[(b"hello anna\nmake /e\nquit\n", 1)],
        may_say_more: false,
    },
    Client {
        says: &[(b"hello ben\nmake /f\nquit\n", 1)],
        may_say_more: false,
    },
];

const TWO_TWICE: &[Client] = &[
    Client {
        says: &[(b"hello anna\nmake /e\nmake /e/a\nquit\n", 1)],
        may_say_more: false,
    },
    Client {
        says: &[(b"hello ben\nmake /f\nmake /f/b\nquit\n", 1)],
        may_say_more: false,
    },
];

// The flusher is held until both connections have staged a second command. That commit takes two seconds.
const FLUSHER_WAITS: Rule = Rule {
    at: Point::Pump,
    once: &[(Point::Told(1), 1), (Point::Told(2), 1)],
    until: &[(Point::Staged(1), 2), (Point::Staged(2), 2)],
    rests: true,
};

// Each connection is held until both got their first reply.
const FIRST_WAITS: Rule = Rule {
    at: Point::Read(1),
    once: &[(Point::Told(1), 1)],
    until: &[(Point::Told(2), 1)],
    rests: false,
};

const SECOND_WAITS: Rule = Rule {
    at: Point::Read(2),
    once: &[(Point::Told(2), 1)],
    until: &[(Point::Told(1), 1)],
    rests: false,
};

// Then the second connection is held until the first has staged its third command.
const ONE_THAT_COMES: &[Rule] = &[
    FLUSHER_WAITS,
    FIRST_WAITS,
    SECOND_WAITS,
    Rule {
        at: Point::Read(2),
        once: &[(Point::Told(2), 2)],
        until: &[(Point::Staged(1), 3)],
        rests: false,
    },
];

// Or until the first got the reply to its third command.
const ONE_THAT_STAYS_AWAY: &[Rule] = &[
    FLUSHER_WAITS,
    FIRST_WAITS,
    SECOND_WAITS,
    Rule {
        at: Point::Read(2),
        once: &[(Point::Told(2), 2)],
        until: &[(Point::Told(1), 3)],
        rests: false,
    },
];

// The frame of both places, in either order, with its gate (the commit mark) and the tail gate after it.
const FRAMES: &[[u8; 20]] = &[
    *b"\x01\0\0\0\x0e\x01\0\0\0\0\x01e\x01\0\0\0\0\x01f\0",
    *b"\x01\0\0\0\x0e\x01\0\0\0\0\x01f\x01\0\0\0\0\x01e\0",
];

// What two clients hear if each makes a place: a session and a place each, not the same.
const SHARED: &[&[Piece]] = &[
    &[(
        b"OK session 1\nOK place 1\nOK left\nend\nOK session 2\nOK place 2\nOK left\nend\n",
        1,
    )],
    &[(
        b"OK session 1\nOK place 2\nOK left\nend\nOK session 2\nOK place 1\nOK left\nend\n",
        1,
    )],
    &[(
        b"OK session 2\nOK place 1\nOK left\nend\nOK session 1\nOK place 2\nOK left\nend\n",
        1,
    )],
    &[(
        b"OK session 2\nOK place 2\nOK left\nend\nOK session 1\nOK place 1\nOK left\nend\n",
        1,
    )],
];

// The same if each makes another one after that, the first client before the second.
const SHARED_TWICE: &[&[Piece]] = &[
    &[(
        b"OK session 1\nOK place 1\nOK place 3\nOK left\nend\nOK session 2\nOK place 2\nOK place 4\nOK left\nend\n",
        1,
    )],
    &[(
        b"OK session 1\nOK place 2\nOK place 3\nOK left\nend\nOK session 2\nOK place 1\nOK place 4\nOK left\nend\n",
        1,
    )],
    &[(
        b"OK session 2\nOK place 1\nOK place 3\nOK left\nend\nOK session 1\nOK place 2\nOK place 4\nOK left\nend\n",
        1,
    )],
    &[(
        b"OK session 2\nOK place 2\nOK place 3\nOK left\nend\nOK session 1\nOK place 1\nOK place 4\nOK left\nend\n",
        1,
    )],
];

static SERVINGS: [Serving; 7] = [
    Serving {
        name: "a round over tcp",
        has_two_workers: true,
        clients: &[Client {
            says: &[(b"hello anna\nmake /e\nlist /\nquit\n", 1)],
            may_say_more: false,
        }],
        hears: &[&[(b"OK session 1\nOK place 1\nOK list 1 e\nOK left\nend\n", 1)]],
        came: Outcome {
            totals: Totals { staged: 4, told: 4 },
            calls: CREATION + 4,
            length: HEAD + 12,
            ..ENDED
        },
        ..PLAIN
    },
    Serving {
        name: "the second is answered while the first waits",
        has_two_workers: true,
        connections: Some(2),
        rules: &[Rule {
            at: Point::Read(1),
            once: &[],
            until: &[(Point::Told(2), 1)],
            rests: false,
        }],
        clients: ANNA_AND_BEN,
        hears: &[&[(
            b"OK session 2\nOK left\nend\nOK session 1\nOK left\nend\n",
            1,
        )]],
        came: Outcome {
            totals: Totals { staged: 4, told: 4 },
            ..ENDED
        },
        ..PLAIN
    },
    Serving {
        name: "the first is answered while the second waits",
        has_two_workers: true,
        connections: Some(2),
        rules: &[Rule {
            at: Point::Read(2),
            once: &[],
            until: &[(Point::Told(1), 1)],
            rests: false,
        }],
        clients: ANNA_AND_BEN,
        hears: &[&[(
            b"OK session 1\nOK left\nend\nOK session 2\nOK left\nend\n",
            1,
        )]],
        came: Outcome {
            totals: Totals { staged: 4, told: 4 },
            ..ENDED
        },
        ..PLAIN
    },
    // Two commits of two effects each: the second one waits for the connection that comes back a little later.
    Serving {
        name: "the flusher waits for one that comes",
        has_two_workers: true,
        connections: Some(2),
        rules: ONE_THAT_COMES,
        clients: TWO_TWICE,
        hears: SHARED_TWICE,
        came: Outcome {
            totals: Totals { staged: 8, told: 8 },
            calls: CREATION + 8,
            length: HEAD + 38,
            ..ENDED
        },
        ..PLAIN
    },
    // Three commits: it goes on without the connection that doesn't come back before the first one got its reply.
    Serving {
        name: "the flusher goes on without one that stays away",
        has_two_workers: true,
        connections: Some(2),
        rules: ONE_THAT_STAYS_AWAY,
        clients: TWO_TWICE,
        hears: SHARED_TWICE,
        came: Outcome {
            totals: Totals { staged: 8, told: 8 },
            calls: CREATION + 12,
            length: HEAD + 43,
            ..ENDED
        },
        ..PLAIN
    },
    Serving {
        name: "two sessions, one frame",
        has_two_workers: true,
        connections: Some(2),
        rules: ONE_THAT_COMES,
        clients: TWO_MAKERS,
        hears: SHARED,
        frames: FRAMES,
        came: Outcome {
            totals: Totals { staged: 6, told: 6 },
            calls: CREATION + 4,
            length: HEAD + 19,
            ..ENDED
        },
        ..PLAIN
    },
    Serving {
        name: "a broken server goes on",
        failing: 1,
        connections: Some(2),
        clients: &[
            Client {
                says: &[(b"hello anna\nmake /e\nquit\n", 1)],
                may_say_more: false,
            },
            Client {
                says: &[(b"hello ben\n", 1)],
                may_say_more: false,
            },
        ],
        hears: &[&[(b"OK session 1\nERR 82\nERR 82\nend\nERR 82\nend\n", 1)]],
        came: Outcome {
            totals: Totals { staged: 2, told: 1 },
            is_broken: true,
            calls: CREATION + 1,
            ..ENDED
        },
        ..PLAIN
    },
];

// More of them.
static MORE_SERVINGS: [Serving; 7] = [
    // Each lock acquisition makes one step: a commit with an effect takes four, of one device call each, and one without takes one.
    Serving {
        name: "one pump per lock acquisition",
        clients: &[Client {
            says: &[(b"hello anna\nmake /e\nquit\n", 1)],
            may_say_more: false,
        }],
        hears: &[&[(b"OK session 1\nOK place 1\nOK left\nend\n", 1)]],
        pumps: Some(6),
        came: Outcome {
            totals: Totals { staged: 3, told: 3 },
            calls: CREATION + 4,
            length: HEAD + 12,
            ..ENDED
        },
        ..PLAIN
    },
    // A client that has sent more lines than are answered, and reads only once the server has ended, gets all replies.
    Serving {
        name: "a late reader is told all",
        clients: &[Client {
            says: &[(b"list /\n", 4400)],
            may_say_more: true,
        }],
        hears: &[&[(b"ERR 11\n", 4096), (b"end\n", 1)]],
        came: Outcome {
            totals: Totals {
                staged: 4096,
                told: 4096,
            },
            ..ENDED
        },
        ..PLAIN
    },
    // After the idle time, with a last leave.
    Serving {
        name: "a silent client is ended",
        idle: Some(300),
        clients: &[Client {
            says: &[(b"hello anna\nhold w:/\n", 1)],
            may_say_more: true,
        }],
        hears: &[&[(b"OK session 1\nOK held h1\nend\n", 1)]],
        came: Outcome {
            totals: Totals { staged: 3, told: 2 },
            ..ENDED
        },
        ..PLAIN
    },
    Serving {
        name: "a client without a session is ended",
        hello: Some(300),
        clients: &[Client {
            says: &[(b"list /\n", 1)],
            may_say_more: true,
        }],
        hears: &[&[(b"ERR 11\nend\n", 1)]],
        came: Outcome {
            totals: Totals { staged: 1, told: 1 },
            ..ENDED
        },
        ..PLAIN
    },
    Serving {
        name: "a client whose line doesn't end is ended, with a last leave",
        hello: Some(60_000),
        line: Some(300),
        clients: &[Client {
            says: &[(b"hello anna\nlist", 1)],
            may_say_more: true,
        }],
        hears: &[&[(b"OK session 1\nend\n", 1)]],
        came: Outcome {
            totals: Totals { staged: 2, told: 1 },
            ..ENDED
        },
        ..PLAIN
    },
    Serving {
        name: "one that waits for a place is turned away",
        connections: Some(2),
        idle: Some(2_000),
        full: Some((300, 60_000)),
        clients: &[
            Client {
                says: &[(b"hello anna\n", 1)],
                may_say_more: true,
            },
            Client {
                says: &[(b"hello ben\nquit\n", 1)],
                may_say_more: true,
            },
        ],
        hears: &[&[(b"OK session 1\nend\nERR 80\nend\n", 1)]],
        came: Outcome {
            totals: Totals { staged: 2, told: 1 },
            ..ENDED
        },
        ..PLAIN
    },
    // With its session and its hold.
    Serving {
        name: "one that is silent is ended for one that waits for a place",
        connections: Some(2),
        full: Some((60_000, 300)),
        clients: &[
            Client {
                says: &[(b"hello anna\nhold w:/\n", 1)],
                may_say_more: true,
            },
            Client {
                says: &[(b"hello ben\nhold w:/\nquit\n", 1)],
                may_say_more: false,
            },
        ],
        hears: &[&[(
            b"OK session 1\nOK held h1\nend\nOK session 2\nOK held h2\nOK left\nend\n",
            1,
        )]],
        came: Outcome {
            totals: Totals { staged: 6, told: 5 },
            ..ENDED
        },
        ..PLAIN
    },
];

// And the last ones.
static LAST_SERVINGS: [Serving; 6] = [
    // Nothing is staged, and nothing is answered.
    Serving {
        name: "another protocol's first line ends a connection",
        connections: Some(2),
        refuses_foreign: true,
        clients: &[
            Client {
                says: &[(b"POST / HTTP/1.1\r\n\r\nhello anna\nmake /e\nquit\n", 1)],
                may_say_more: true,
            },
            Client {
                says: &[(b"POST / HTTP\nhello ben\nmake / HTTP/\nquit\n", 1)],
                may_say_more: false,
            },
        ],
        hears: &[&[(b"end\nERR 10\nOK session 1\nERR 10\nOK left\nend\n", 1)]],
        came: Outcome {
            totals: Totals { staged: 2, told: 2 },
            ..ENDED
        },
        ..PLAIN
    },
    Serving {
        name: "another protocol's first line is a line as any other where it isn't refused",
        clients: &[Client {
            says: &[(b"POST / HTTP/1.1\nhello anna\nquit\n", 1)],
            may_say_more: false,
        }],
        hears: &[&[(b"ERR 10\nOK session 1\nOK left\nend\n", 1)]],
        came: Outcome {
            totals: Totals { staged: 2, told: 2 },
            ..ENDED
        },
        ..PLAIN
    },
    // The second waits for what the first holds, so it is served while the first is still there.
    Serving {
        name: "one thread serves one beside another that is silent",
        has_two_workers: true,
        has_one_thread: true,
        connections: Some(2),
        idle: Some(2_000),
        clients: &[
            Client {
                says: &[(b"hello anna\nhold w:/\n", 1)],
                may_say_more: true,
            },
            Client {
                says: &[(b"hello ben\nhold w:/\nquit\n", 1)],
                may_say_more: false,
            },
        ],
        hears: &[&[(
            b"OK session 1\nOK held h1\nend\nOK session 2\nOK queued h2 behind h1\nOK left\nend\n",
            1,
        )]],
        came: Outcome {
            totals: Totals { staged: 6, told: 5 },
            ..ENDED
        },
        ..PLAIN
    },
    // If accepting fails for good, the connections that were accepted are served to their end.
    Serving {
        name: "an accept fault ends the server",
        connections: None,
        is_shut: true,
        clients: &[Client {
            says: &[(b"hello anna\nquit\n", 1)],
            may_say_more: false,
        }],
        hears: &[&[(b"OK session 1\nOK left\nend\n", 1)]],
        came: Outcome {
            error: Some(ServerError::Accept),
            totals: Totals { staged: 0, told: 0 },
            has_frame: false,
            calls: 0,
            length: 0,
            ..ENDED
        },
        ..PLAIN
    },
    // The server reports that at once. Only then the client says that no more comes.
    Serving {
        name: "an accept fault is told at once",
        connections: None,
        is_shut: true,
        is_patient: true,
        clients: &[Client {
            says: &[(b"hello anna\n", 1)],
            may_say_more: true,
        }],
        hears: &[&[(b"OK session 1\nend\n", 1)]],
        came: Outcome {
            error: Some(ServerError::Accept),
            totals: Totals { staged: 0, told: 0 },
            has_frame: false,
            calls: 0,
            length: 0,
            ..ENDED
        },
        ..PLAIN
    },
    // A listener at which nobody can be accepted for a while.
    Serving {
        name: "an accept fault that passes",
        is_shut: true,
        is_late: true,
        clients: &[Client {
            says: &[(b"hello anna\nquit\n", 1)],
            may_say_more: false,
        }],
        hears: &[&[(b"OK session 1\nOK left\nend\n", 1)]],
        came: Outcome {
            totals: Totals { staged: 2, told: 2 },
            ..ENDED
        },
        ..PLAIN
    },
];

// Whether a text is one of these, each of some pieces.
fn is_one_of(text: &[u8], texts: &'static [&'static [Piece]]) -> bool {
    for pieces in texts {
        if is_text(text, pieces) {
            return true;
        }
    }
    false
}

// Whether a server comes to what its row says.
pub(crate) fn comes_as_said<
    R: Net<Listener = TcpListener, Stream = TcpStream> + Threads + Wait + Clock + Sync + Abort,
>(rt: &R, global: Global, memory: &Refusing<Global>, serving: &Serving) {
    let (came, heard, pumps, kept) = served(rt, global, memory, serving, 0);
    let is_right = came == serving.came
        && kept == serving.kept
        && is_one_of(heard.as_bytes(), serving.hears)
        && (pumps == serving.pumps || serving.pumps.is_none() && pumps.is_some());
    assert!(rt;
        is_right,
        "{}: {came:?} {pumps:?} {kept} {heard}",
        serving.name
    );
    drop(heard);
}

#[test]
fn each_server_comes_to_what_its_row_says(rt: HostRuntime) {
    let memory = Refusing::new(rt.alloc());
    for serving in &SERVINGS {
        comes_as_said(&rt, rt.alloc(), &memory, serving);
    }
}

#[test]
fn each_further_server_comes_to_what_its_row_says(rt: HostRuntime) {
    let memory = Refusing::new(rt.alloc());
    for serving in &MORE_SERVINGS {
        comes_as_said(&rt, rt.alloc(), &memory, serving);
    }
}

#[test]
fn each_last_server_comes_to_what_its_row_says(rt: HostRuntime) {
    let memory = Refusing::new(rt.alloc());
    for serving in &LAST_SERVINGS {
        comes_as_said(&rt, rt.alloc(), &memory, serving);
    }
}
