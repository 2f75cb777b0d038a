//! The long run: what is said and done in it, and what it begins with.

use crate::beginning::{fill, make_places};
use crate::line::Line;
use group_commit::Vault;
use test_oracle::{Files, Judge, Left, new_vault};
use vault_device::{MemDevice, Pick};

/// A step of the long run.
#[derive(Clone, Copy)]
pub(crate) enum Step {
    /// A session says a line.
    Say(u32, &'static str),
    Pump,
    /// A snapshot is begun.
    Snapshot,
    /// Each ticket is redeemed.
    Redeem,
    /// All entries that may be trimmed are trimmed.
    Retire,
}

// A snapshot whose file's gate is written open, and not yet durable.
const UNSETTLED: [Step; 7] = [
    Step::Snapshot,
    Step::Pump,
    Step::Pump,
    Step::Pump,
    Step::Pump,
    Step::Pump,
    Step::Pump,
];

/// Two sessions and their claims, a commit, a snapshot with commands between its pieces, two commits in the other file, and a
/// snapshot back into the first one.
pub(crate) const LONG_RUN: [Step; 78] = [
    Step::Say(0, "hello anna"),
    Step::Say(0, "hello ben"),
    Step::Say(1, "make /g"),
    Step::Say(2, "make /g/a"),
    Step::Say(1, "checkout w:/e"),
    Step::Say(2, "checkout r:/e/b"),
    Step::Say(2, "hold r:/f"),
    Step::Say(1, "state c12"),
    Step::Redeem,
    Step::Pump,
    Step::Pump,
    Step::Pump,
    Step::Redeem,
    Step::Pump,
    Step::Redeem,
    Step::Retire,
    Step::Say(1, "save c11 /e/b/p 6162"),
    Step::Snapshot,
    Step::Say(2, "make /g/b"),
    Step::Pump,
    Step::Pump,
    Step::Pump,
    Step::Say(1, "save c11 /e/b/q 63"),
    Step::Say(2, "list /g"),
    Step::Pump,
    Step::Redeem,
    Step::Pump,
    Step::Pump,
    Step::Snapshot,
    Step::Pump,
    Step::Redeem,
    Step::Retire,
    Step::Pump,
    Step::Pump,
    Step::Pump,
    Step::Pump,
    Step::Redeem,
    Step::Retire,
    Step::Say(1, "extend c11 r:/g"),
    Step::Say(1, "checkin c11"),
    Step::Say(2, "note c12 6e"),
    Step::Pump,
    Step::Say(2, "make /g/c"),
    Step::Pump,
    Step::Pump,
    Step::Pump,
    Step::Redeem,
    Step::Say(1, "checkout w:/e/c/p"),
    Step::Snapshot,
    Step::Say(2, "give c12 anna"),
    Step::Pump,
    Step::Pump,
    Step::Pump,
    Step::Say(2, "release h1"),
    Step::Pump,
    Step::Pump,
    Step::Pump,
    Step::Redeem,
    Step::Pump,
    Step::Redeem,
    Step::Retire,
    Step::Pump,
    Step::Pump,
    Step::Pump,
    Step::Pump,
    Step::Redeem,
    Step::Retire,
    Step::Say(1, "abandon c12"),
    Step::Say(1, "save c13 /e/c/p 64"),
    Step::Say(1, "checkin c13"),
    Step::Say(1, "quit"),
    Step::Pump,
    Step::Pump,
    Step::Pump,
    Step::Pump,
    Step::Redeem,
    Step::Pump,
    Step::Retire,
];

/// What the long run begins with.
#[derive(Clone, Copy)]
pub(crate) enum Start {
    /// An empty spare file.
    EmptySpare,
    /// A closed spare file with a newer header.
    ClosedSpare,
}

/// Makes a step, and compares it with the definitions.
pub(crate) fn play(judge: &mut Judge, vault: &mut Vault<MemDevice>, step: Step) {
    match step {
        Step::Say(session, line) => judge.say(vault, session, line.as_bytes()),
        Step::Pump => judge.pump(vault),
        Step::Snapshot => judge.start(vault),
        Step::Redeem => judge.redeem_all(vault),
        Step::Retire => judge.retire_all(vault),
    }
    judge.count(vault);
}

/// Makes these steps, up to a fault.
pub(crate) fn play_all(judge: &mut Judge, vault: &mut Vault<MemDevice>, steps: &[Step]) {
    for step in steps {
        if judge.world.broken {
            return;
        }
        play(judge, vault, *step);
    }
}

// Ends a vault's life. Gives its files for the next life, which keep this.
fn next_life(judge: &mut Judge, vault: Vault<MemDevice>, left: Left) -> Files {
    let mut files = Files::of(vault);
    judge.stop(&mut files, left, left);
    files
}

// The files of a vault with an empty spare file. Its snapshot takes two pieces.
fn filled(judge: &mut Judge) -> Option<Files> {
    let mut vault = new_vault(judge.alloc, 1)?;
    let mut line = Line::new(judge.alloc);
    judge.say(&mut vault, 0, b"hello anna");
    make_places(judge, &mut vault);
    fill(judge, &mut vault, &mut line);
    drop(line);
    judge.commit(&mut vault);
    judge.redeem_all(&mut vault);
    judge.retire_all(&mut vault);
    Some(next_life(judge, vault, Left::Shown))
}

// The same files, after a crash lost a snapshot whose gate was written and not yet durable.
fn filled_beside(judge: &mut Judge) -> Option<Files> {
    let files = filled(judge)?;
    match files.open(judge.alloc, judge.world.life) {
        Ok(mut vault) => {
            play_all(judge, &mut vault, &UNSETTLED);
            Some(next_life(judge, vault, Left::Crashed(Pick::Old)))
        }
        Err((_, files)) => {
            drop(files);
            None
        }
    }
}

/// The files that the long run begins with.
pub(crate) fn prepared(judge: &mut Judge, start: Start) -> Option<Files> {
    match start {
        Start::EmptySpare => filled(judge),
        Start::ClosedSpare => filled_beside(judge),
    }
}
