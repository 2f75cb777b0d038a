//! The beginning of a run: sessions, places and more.

use crate::line::Line;
use crate::mood::Beginning;
use crate::run::Run;
use crate::speech::PARTS;
use group_commit::Vault;
use test_oracle::{Files, Judge, Left, new_vault};
use vault_device::MemDevice;

// What most runs begin with.
const PLACES: [&str; 18] = [
    "make /e",
    "make /f",
    "make /e/b",
    "make /e/c",
    "make /f/b",
    "make /e/b/p",
    "make /e/b/q",
    "make /e/b/r",
    "make /e/c/p",
    "make /e/c/q",
    "make /f/b/p",
    "make /f/b/q",
    "nest /e/b/n",
    "make /e/b/n/p",
    "nest /e/b/n/o",
    "nest /e/b/n/o/q",
    "nest /e/b/n/o/q/r",
    "make /e/b/n/o/q/r/z",
];

// Claims of each kind, granted and waiting, with drafts and notes: who says what.
const CLAIMS: [(u32, &str); 13] = [
    (1, "checkout w:/e/b"),
    (1, "save c1 /e/b/p 6162"),
    (1, "save c1 /e/b/q -"),
    (1, "note c1 6e6f"),
    (2, "checkout r:/e/c w:/e/b/p"),
    (2, "note c2 71"),
    (2, "checkout w:/f/b/q"),
    (2, "save c3 /f/b/q 63"),
    (2, "give c3 anna"),
    (1, "extend c1 r:/e/c"),
    (1, "checkout w:/e/c/p"),
    (1, "hold r:/f/b/p"),
    (2, "hold r:/e/c"),
];

// What the files of version 1 hold.
const WRITTEN: [&str; 2] = ["make /e", "checkout w:/e"];

// The files as a program of version 1 wrote them: the first has generation 1 and one frame, the second a snapshot of generation 2.
const FIRST_FILE: [u8; 47] = [
    1, b'L', b'L', b'V', b'A', b'U', b'L', b'T', 0, 0, 0, 1, 0, 0, 0, 0, 0, 0, 0, 1, 0, 0, 0, 10,
    0, 0, 0, 0, 0, 0, 0, 1, 0, 0, 1, 0, 0, 0, 7, 1, 0, 0, 0, 0, 1, b'e', 0,
];

const SECOND_FILE: [u8; 57] = [
    1, b'L', b'L', b'V', b'A', b'U', b'L', b'T', 0, 0, 0, 1, 0, 0, 0, 0, 0, 0, 0, 2, 0, 0, 0, 32,
    0, 0, 0, 1, 0, 0, 0, 2, 0, 0, 0, 0, 1, b'e', 0, 1, 0, 0, 0, 1, 4, b'a', b'n', b'n', b'a', 1, 1,
    0, 0, 0, 1, 0, 0,
];

// A number of versions of seven parts that don't fit into one piece of a snapshot.
const VERSIONS: u32 = 10;

// A number of drafts of the greatest length that a buffer has no room for, and one that makes a long journal.
const BUFFER: u32 = 256;

const JOURNAL: u32 = 1030;

// More entries than are kept.
const ENTRIES: u32 = 4099;

// A session saves a draft of the greatest length of each part.
fn save_all(judge: &mut Judge, vault: &mut Vault<MemDevice>, line: &mut Line, claim: u32) {
    for part in &PARTS {
        line.save(claim, part, 1024, b'x');
        judge.say(vault, 1, line.as_slice());
    }
}

/// Session 1 makes a few versions of the greatest length of each part.
pub(crate) fn fill(judge: &mut Judge, vault: &mut Vault<MemDevice>, line: &mut Line) {
    for _ in 0..VERSIONS {
        judge.say(vault, 1, b"checkout w:/");
        let claim = judge.history.book().line().last_long();
        save_all(judge, vault, line, claim);
        line.of_check_out("checkin", claim);
        judge.say(vault, 1, line.as_slice());
    }
}

/// Session 1 makes the places.
pub(crate) fn make_places(judge: &mut Judge, vault: &mut Vault<MemDevice>) {
    for place in &PLACES {
        judge.say(vault, 1, place.as_bytes());
    }
    judge.commit(vault);
}

impl Run {
    // Session 1 saves a draft of the greatest length, this number of times. If it commits, no save is refused.
    fn save_often(&mut self, vault: &mut Vault<MemDevice>, times: u32, commits: bool) {
        self.tell(vault, 1, "checkout w:/e/b/p");
        let claim = self.judge.history.book().line().last_long();
        for _ in 0..times {
            if commits && self.judge.world.refusal().is_some() {
                self.judge.commit(vault);
            }
            self.line.save(claim, "/e/b/p", 1024, b'y');
            self.say(vault, 1);
        }
    }

    // The sessions make claims. In about every second run a snapshot of them is begun.
    fn make_claims(&mut self, vault: &mut Vault<MemDevice>) {
        for (session, line) in &CLAIMS {
            self.tell(vault, *session, line);
        }
        self.judge.commit(vault);
        if self.dice.one_in(2) {
            self.judge.start(vault);
        }
    }

    // A connection without a session asks this number of questions, and the tickets are given up.
    fn ask_often(&mut self, vault: &mut Vault<MemDevice>, times: u32) {
        for _ in 0..times {
            self.tell(vault, 0, "state c1");
            self.judge.forget_first(vault);
        }
    }

    // Does in a new vault what the files of version 1 hold, then replaces its files by these, and opens them.
    fn opened_first_version(&mut self, vault: Vault<MemDevice>) -> Option<Vault<MemDevice>> {
        let mut vault = vault;
        self.tell(&mut vault, 0, "hello anna");
        for line in &WRITTEN {
            self.tell(&mut vault, 1, line);
        }
        self.judge.commit(&mut vault);
        let mut files = Files::of(vault);
        self.judge.stop(&mut files, Left::Shown, Left::Shown);
        self.speakers.restart();
        drop(files);
        let mut files = Files::with(self.judge.alloc, &FIRST_FILE, &SECOND_FILE)?;
        self.judge
            .world
            .take_first_version(SECOND_FILE.len() as u64 - 1);
        self.judge.inspect(&mut files);
        self.must_open(files)
    }

    /// The vault that the run begins with, by its mood, and two sessions. None if a difference is found, or out of memory.
    pub(crate) fn begun(&mut self) -> Option<Vault<MemDevice>> {
        let mut vault = new_vault(self.judge.alloc, 1)?;
        if self.mood.beginning == Beginning::FirstVersion {
            vault = self.opened_first_version(vault)?;
        }
        self.furnish(&mut vault);
        Some(vault)
    }

    // Makes two sessions, and what the run begins with, by its mood.
    fn furnish(&mut self, vault: &mut Vault<MemDevice>) {
        self.tell(vault, 0, "hello anna");
        self.tell(vault, 0, "hello ben");
        if self.mood.beginning != Beginning::Bare {
            make_places(&mut self.judge, vault);
        }
        match self.mood.beginning {
            Beginning::Bare | Beginning::Places | Beginning::FirstVersion => {}
            Beginning::Claims => self.make_claims(vault),
            Beginning::Versions => fill(&mut self.judge, vault, &mut self.line),
            Beginning::FullBuffer => self.save_often(vault, BUFFER, false),
            Beginning::LongJournal => self.save_often(vault, JOURNAL, true),
            Beginning::FullHistory => self.ask_often(vault, ENTRIES),
        }
    }
}
