//! The mood of a run: what it does often, and what seldom or never.

use crate::dice::Dice;

// Lines. One that stands here twice is drawn twice as often. A capital stands for a random word (speech.rt).
const LINES: [&str; 47] = [
    "hello N",
    "make P",
    "make P",
    "make P",
    "make P K",
    "nest P",
    "nest P K",
    "checkout I",
    "checkout I",
    "checkout I",
    "checkout I",
    "checkout I",
    "checkout I",
    "extend C I",
    "extend C I",
    "extend C I",
    "extend C I",
    "extend C I",
    "save K P X",
    "save K D X",
    "save K D X",
    "save K D X",
    "save K D X",
    "save K D X",
    "checkin K",
    "checkin K",
    "abandon K",
    "abandon K",
    "hold I",
    "hold I",
    "release H",
    "give K N",
    "give K N",
    "note K T",
    "note K T",
    "note K",
    "state C",
    "state C",
    "list P",
    "fetch P V",
    "count P",
    "show C",
    "claims P",
    "drafts K",
    "draft K D",
    "wait C",
    "quit",
];

/// What a run begins with.
#[derive(Clone, Copy, PartialEq)]
pub(crate) enum Beginning {
    /// Two sessions, nothing else.
    Bare,
    /// Places, too.
    Places,
    /// Places and claims: check-outs with drafts and notes, one of them given away, and holds; some of them wait.
    Claims,
    /// Places, and so many versions that a snapshot is written in two pieces.
    Versions,
    /// More records than the open buffer has room for.
    FullBuffer,
    /// Enough frames that a snapshot is wanted.
    LongJournal,
    /// As many entries as are kept.
    FullHistory,
    /// Files that a program of version 1 wrote.
    FirstVersion,
}

/// The mood of a run.
#[derive(Clone, Copy)]
pub(crate) struct Mood {
    pub(crate) beginning: Beginning,
    /// The lines that it draws from. One that is there twice is drawn twice as often.
    lines: [&'static str; 16],
    /// At most this many pumps follow a command.
    pub(crate) pumps: u32,
    /// Before one pump in this many a snapshot is begun.
    pub(crate) snapshot: u32,
    /// After one command in this many the machine crashes.
    pub(crate) stop: u32,
    /// At one opening in this many a device call is made to fail.
    pub(crate) fault: u32,
    /// One ticket in this many is forgotten.
    pub(crate) forget: u32,
    /// After one command in this many, entries are trimmed.
    pub(crate) retire: u32,
    /// One path in this many is of a place that nobody made yet.
    pub(crate) fresh: u32,
    /// One item in this many is for change.
    pub(crate) change: u32,
    /// Whether contents are long.
    pub(crate) long: bool,
}

fn lines(dice: &mut Dice) -> [&'static str; 16] {
    let mut lines = ["hello N"; 16];
    for line in lines.iter_mut() {
        *line = dice.word(&LINES);
    }
    lines[0] = "hello N";
    lines[1] = "make P";
    lines[2] = "checkout I";
    lines
}

fn drawn_beginning(dice: &mut Dice) -> Beginning {
    match dice.below(120) {
        0..10 => Beginning::Bare,
        10 => Beginning::FullBuffer,
        11 => Beginning::LongJournal,
        12 => Beginning::FullHistory,
        13..33 => Beginning::Versions,
        33..53 => Beginning::FirstVersion,
        53..83 => Beginning::Claims,
        _ => Beginning::Places,
    }
}

impl Mood {
    /// A random mood.
    pub(crate) fn new(dice: &mut Dice) -> Mood {
        Mood {
            beginning: drawn_beginning(dice),
            lines: lines(dice),
            pumps: dice.number(&[0, 1, 1, 2, 2, 3, 3, 4, 6, 9]),
            snapshot: dice.number(&[2, 5, 10, 40, 20_000]),
            stop: dice.number(&[2, 3, 4, 6, 8, 12, 25, 20_000]),
            fault: dice.number(&[2, 4, 8, 1000]),
            forget: dice.number(&[4, 30, 1000]),
            retire: dice.number(&[1, 3, 10, 20_000]),
            fresh: dice.number(&[2, 8, 100, 1000]),
            change: dice.number(&[1, 2, 3, 8]),
            long: dice.one_in(6),
        }
    }

    /// The words of a random line.
    pub(crate) fn words(&self, dice: &mut Dice) -> &'static str {
        dice.word(&self.lines)
    }
}
