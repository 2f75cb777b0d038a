//! Connections that wait for a claim: until it is granted, for how long, beside how many others, and until who ends.

use crate::holding::Rule;
use crate::server::{Client, ENDED, Outcome, PLAIN, Serving};
use crate::serving::comes_as_said;
use test_fixtures::CREATION;
use test_memory::Refusing;
use vault_server::ServerError;
use vault_sessions::{Point, Totals};

// The second connection is held until the first has a claim on all.
const SECOND_COMES_LATER: Rule = Rule {
    at: Point::Read(2),
    once: &[],
    until: &[(Point::Told(1), 2)],
    rests: false,
};

// The first connection, which holds all, goes on once the second one waits.
const SECOND_WAITS: &[Rule] = &[
    SECOND_COMES_LATER,
    Rule {
        at: Point::Read(1),
        once: &[(Point::Told(1), 2)],
        until: &[(Point::Kept(2), 1)],
        rests: false,
    },
];

// The second connection is held until the first waits.
const FIRST_WAITS: &[Rule] = &[Rule {
    at: Point::Read(2),
    once: &[],
    until: &[(Point::Kept(1), 1)],
    rests: false,
}];

// One that waits for its own claim, and says nothing after that, and another that waits for the same.
const TWO_FOR_ONE: &[Client] = &[
    Client {
        says: &[(b"hello anna\nhold w:/\nhold w:/\nwait h2\n", 1)],
        may_say_more: true,
    },
    Client {
        says: &[(b"hello ben\nwait h2\nquit\n", 1)],
        may_say_more: true,
    },
];

const HEARD_BY_TWO: &[u8] =
    b"OK session 1\nOK held h1\nOK queued h2 behind h1\nOK queued h2 behind h1\nend\nOK session 2\nOK queued h2 behind h1\nOK left\nend\n";

// Two connections, each to its end.
const TWO: Serving = Serving {
    has_two_workers: true,
    connections: Some(2),
    ..PLAIN
};

static WAITINGS: [Serving; 4] = [
    // For ever, if need be.
    Serving {
        name: "one that waits is answered once the other gives its claim up",
        waits: 1,
        rules: SECOND_WAITS,
        clients: &[
            Client {
                says: &[(b"hello anna\nhold w:/\nrelease h1\nquit\n", 1)],
                may_say_more: true,
            },
            Client {
                says: &[(b"hello ben\nhold w:/\nwait h2\nquit\n", 1)],
                may_say_more: true,
            },
        ],
        hears: &[&[(
            b"OK session 1\nOK held h1\nOK released\nOK left\nend\nOK session 2\nOK queued h2 behind h1\nOK held h2\nOK left\nend\n",
            1,
        )]],
        kept: 1,
        came: Outcome {
            totals: Totals { staged: 8, told: 8 },
            ..ENDED
        },
        ..TWO
    },
    Serving {
        name: "one that waits is answered once the vault is broken",
        failing: 1,
        idle: Some(500),
        waits: 1,
        rules: SECOND_WAITS,
        clients: &[
            Client {
                says: &[(b"hello anna\nhold w:/\ncheckout w:/\n", 1)],
                may_say_more: false,
            },
            Client {
                says: &[(b"hello ben\nhold w:/\nwait h2\n", 1)],
                may_say_more: true,
            },
        ],
        hears: &[&[(
            b"OK session 1\nOK held h1\nERR 82\nend\nOK session 2\nOK queued h2 behind h1\nERR 82\nend\n",
            1,
        )]],
        kept: 1,
        came: Outcome {
            totals: Totals { staged: 5, told: 4 },
            is_broken: true,
            calls: CREATION + 1,
            ..ENDED
        },
        ..TWO
    },
    Serving {
        name: "both wait, and are answered once their time is over",
        waits: 2,
        wait: Some(300),
        idle: Some(1_000),
        rules: FIRST_WAITS,
        clients: TWO_FOR_ONE,
        hears: &[&[(HEARD_BY_TWO, 1)]],
        kept: 2,
        came: Outcome {
            totals: Totals { staged: 8, told: 7 },
            ..ENDED
        },
        ..TWO
    },
    // The one that waits does so until the other, which was answered, gives its claim up.
    Serving {
        name: "one beyond those that may wait is answered at once",
        waits: 1,
        wait: Some(20_000),
        rules: SECOND_WAITS,
        clients: &[
            Client {
                says: &[(
                    b"hello anna\nhold w:/\nhold w:/\nwait h3\nrelease h1\nquit\n",
                    1,
                )],
                may_say_more: true,
            },
            Client {
                says: &[(b"hello ben\nhold w:/\nwait h2\nquit\n", 1)],
                may_say_more: true,
            },
        ],
        hears: &[&[(
            b"OK session 1\nOK held h1\nOK queued h3 behind h1\nOK queued h3 behind h1\nOK released\nOK left\nend\nOK session 2\nOK queued h2 behind h1\nOK held h2\nOK left\nend\n",
            1,
        )]],
        kept: 1,
        came: Outcome {
            totals: Totals {
                staged: 10,
                told: 10,
            },
            ..ENDED
        },
        ..TWO
    },
];

static FURTHER_WAITINGS: [Serving; 3] = [
    // One place, and a wait without end: the second one could neither come nor wait.
    Serving {
        name: "one that sends no more waits no longer, and another may wait in its place",
        connections: Some(2),
        waits: 1,
        clients: &[
            Client {
                says: &[(b"hello anna\nhold w:/\nhold w:/\nwait h2\n", 1)],
                may_say_more: false,
            },
            Client {
                says: &[(b"hello ben\nhold w:/\nhold w:/\nwait h4\n", 1)],
                may_say_more: false,
            },
        ],
        hears: &[&[(
            b"OK session 1\nOK held h1\nOK queued h2 behind h1\nOK queued h2 behind h1\nend\nOK session 2\nOK held h3\nOK queued h4 behind h3\nOK queued h4 behind h3\nend\n",
            1,
        )]],
        kept: 2,
        came: Outcome {
            totals: Totals {
                staged: 10,
                told: 8,
            },
            ..ENDED
        },
        ..PLAIN
    },
    // Also one for a claim that is granted or gone.
    Serving {
        name: "a wait without a session is answered at once",
        waits: 1,
        clients: &[Client {
            says: &[(
                b"wait h1\nhello anna\nhold w:/\nwait h1\nwait h2\nquit\n",
                1,
            )],
            may_say_more: true,
        }],
        hears: &[&[(
            b"ERR 11\nOK session 1\nOK held h1\nOK held h1\nERR 30\nOK left\nend\n",
            1,
        )]],
        came: Outcome {
            totals: Totals { staged: 6, told: 6 },
            ..ENDED
        },
        ..PLAIN
    },
    Serving {
        name: "a server that accepts no more ends once who waits was answered",
        connections: None,
        is_shut: true,
        waits: 1,
        wait: Some(1_500),
        clients: &[Client {
            says: &[(b"hello anna\nhold w:/\nhold w:/\nwait h2\nquit\n", 1)],
            may_say_more: true,
        }],
        hears: &[&[(
            b"OK session 1\nOK held h1\nOK queued h2 behind h1\nOK queued h2 behind h1\nOK left\nend\n",
            1,
        )]],
        kept: 1,
        came: Outcome {
            error: Some(ServerError::Accept),
            totals: Totals { staged: 0, told: 0 },
            has_frame: false,
            calls: 0,
            length: 0,
            ..ENDED
        },
        ..PLAIN
    },
];

#[test]
fn each_that_waits_hears_what_its_row_says(rt: HostRuntime) {
    let memory = Refusing::new(rt.alloc());
    for serving in &WAITINGS {
        comes_as_said(&rt, rt.alloc(), &memory, serving);
    }
}

#[test]
fn each_further_one_that_waits_hears_what_its_row_says(rt: HostRuntime) {
    let memory = Refusing::new(rt.alloc());
    for serving in &FURTHER_WAITINGS {
        comes_as_said(&rt, rt.alloc(), &memory, serving);
    }
}
