//! Pasts of several lives, and the vault of the last one.

use crate::inspector::{OLD_WITH_E, holding};
use crate::vault::call::Call::{Broken, Pump, Redeem, Stage};
use crate::vault::call::Fate::{Place, Refused, Session};
use crate::vault::call::Hand::Left;
use crate::vault::call::Said::{Hello, Make};
use crate::vault::call::{Call, Row, Said};
use crate::vault::past::{Beginning, Stop, inside_a_pump, three_lives, two_lives};
use crate::vault::play::{Hands, answered, command, device, end, is_told};
use group_commit::Pumped::{Moved, Settled};
use group_commit::{Receipt, Vault};
use std::alloc::Global;
use std::process::Abort;
use vault_device::{MemDevice, Pick};
use vault_model::CommandIn;
use vault_model::Refusal::Exists;

/// The lives, and where they crash.
#[derive(Clone, Copy)]
pub(crate) enum Lives {
    Two(Beginning, Stop),
    /// Two, the first of which crashes inside a pump, while a place is being made.
    InsideAPump,
    Three,
}

/// A past, what each of its crashes leaves of what isn't synced, and calls of the vault after it. The first session's receipt was kept.
pub(crate) struct Past {
    pub name: &'static str,
    pub lives: Lives,
    pub pick: Pick,
    pub calls: &'static [Row],
}

// What a new life has.
const NOTHING: Call = Call::Numbers([0, 0, 0, 0]);

// The place /e is there.
const WITH_E: &[Row] = &[
    (1, NOTHING),
    (1, Broken(false)),
    (1, Stage(Left, 0, Hello(b"anna"))),
    (1, Pump(Ok(Settled))),
    (1, Redeem(Left, Session(1))),
    (1, Stage(Left, 1, Make(b"/e"))),
    (1, Pump(Ok(Settled))),
    (1, Redeem(Left, Refused(Exists))),
];

const TWO: Past = Past {
    name: "two lives",
    lives: Lives::Two(Beginning::Made, Stop::BetweenCalls),
    pick: Pick::Old,
    calls: &[(1, NOTHING), (1, Broken(false))],
};

// The headline holds over a vault that an earlier program filled, beginning with what its files stand for.
const OVER_FILES: Past = Past {
    name: "over files of version 1",
    lives: Lives::Two(Beginning::TakenOver, Stop::BetweenCalls),
    calls: WITH_E,
    ..TWO
};

// The place that was being made isn't there, after the frame whose commit mark (gate) was being written.
const INSIDE_A_PUMP: Past = Past {
    name: "a stop inside a pump",
    lives: Lives::InsideAPump,
    calls: &[
        (1, NOTHING),
        (1, Broken(false)),
        (1, Stage(Left, 0, Hello(b"anna"))),
        (1, Pump(Ok(Settled))),
        (1, Redeem(Left, Session(1))),
        (1, Stage(Left, 1, Make(b"/e"))),
        (3, Pump(Ok(Moved))),
        (1, Pump(Ok(Settled))),
        (1, Redeem(Left, Place(1))),
    ],
    ..TWO
};

const INSIDE_AN_OPENING: Past = Past {
    pick: Pick::Bytes(1),
    ..TWO
};

pub(crate) static PASTS: [Past; 13] = [
    TWO,
    Past {
        name: "two lives, new bytes",
        pick: Pick::New,
        ..TWO
    },
    OVER_FILES,
    Past {
        name: "over files of version 1, new bytes",
        pick: Pick::New,
        ..OVER_FILES
    },
    INSIDE_A_PUMP,
    Past {
        name: "a stop inside a pump, other bytes",
        pick: Pick::Bytes(9),
        ..INSIDE_A_PUMP
    },
    Past {
        name: "a stop inside a pump, new bytes",
        pick: Pick::New,
        calls: WITH_E,
        ..INSIDE_A_PUMP
    },
    Past {
        name: "a stop inside an opening, at call 1",
        lives: Lives::Two(Beginning::Made, Stop::InAnOpening(1)),
        ..INSIDE_AN_OPENING
    },
    Past {
        name: "a stop inside an opening, at call 2",
        lives: Lives::Two(Beginning::Made, Stop::InAnOpening(2)),
        ..INSIDE_AN_OPENING
    },
    Past {
        name: "a stop inside an opening, at call 3",
        lives: Lives::Two(Beginning::Made, Stop::InAnOpening(3)),
        ..INSIDE_AN_OPENING
    },
    Past {
        name: "a stop inside an opening, at call 4",
        lives: Lives::Two(Beginning::Made, Stop::InAnOpening(4)),
        ..INSIDE_AN_OPENING
    },
    Past {
        name: "a stop inside an opening, at call 5",
        lives: Lives::Two(Beginning::Made, Stop::InAnOpening(5)),
        ..INSIDE_AN_OPENING
    },
    Past {
        name: "three lives",
        lives: Lives::Three,
        ..TWO
    },
];

fn said(rt: &impl Abort, alloc: Global, said: Said) -> CommandIn<Global> {
    command(alloc, said).expect(rt, "a command")
}

fn files(rt: &impl Abort, alloc: Global, lives: Lives) -> (MemDevice, MemDevice) {
    let first = match lives {
        Lives::Two(Beginning::TakenOver, _) => holding(rt, alloc, OLD_WITH_E),
        _ => device(rt, alloc),
    };
    (first, device(rt, alloc))
}

// The vault of the last life, and a receipt of the first.
fn lived(rt: &impl Abort, alloc: Global, lives: Lives, pick: Pick) -> (Vault<MemDevice>, Receipt) {
    let files = files(rt, alloc, lives);
    let anna = said(rt, alloc, Hello(b"anna"));
    match lives {
        Lives::Two(beginning, stop) => two_lives(rt, alloc, (beginning, stop), files, anna, pick),
        Lives::InsideAPump => {
            let e = said(rt, alloc, Make(b"/e"));
            inside_a_pump(rt, alloc, files, anna, e, pick)
        }
        Lives::Three => {
            let ben = said(rt, alloc, Hello(b"ben"));
            let (vault, early, late) = three_lives(rt, alloc, files, anna, ben, pick);
            assert!(rt; is_told(late.reply(), Session(1)));
            drop(late);
            (vault, early)
        }
    }
}

/// How many of its calls are answered as they say. The receipt is the first session's.
pub(crate) fn found(rt: &impl Abort, alloc: Global, past: &Past) -> usize {
    let (mut vault, receipt) = lived(rt, alloc, past.lives, past.pick);
    assert!(rt; is_told(receipt.reply(), Session(1)));
    drop(receipt);
    let mut hands = Hands::empty();
    let count = answered(&mut vault, &mut hands, alloc, past.calls);
    hands.end(&mut vault);
    end(vault);
    count
}
