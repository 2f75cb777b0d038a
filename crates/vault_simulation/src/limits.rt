//! Limits, reached by calls: one more is refused, and changes nothing.

use crate::line::Line;
use design_tree::Tree;
use part_versions::Shelf;
use std::alloc::Global;
use test_oracle::{Talk, Verdict, are_alike};
use vault_checkout::Book;
use vault_lines::read_line_of;
use vault_model::{ClaimId, Command, LAST_NUMBER, Refusal, Reply};

/// A limit that calls can reach.
#[derive(Clone, Copy)]
pub(crate) enum Limit {
    Places,
    Versions,
    Weight,
    CheckOut,
    EachSession,
    EachHold,
    EachCheckOut,
}

/// Those that are reached in a second or two.
pub(crate) const LIMITS: [Limit; 4] = [
    Limit::Places,
    Limit::Versions,
    Limit::Weight,
    Limit::CheckOut,
];

/// Those that take hours.
pub(crate) const NUMBERS: [Limit; 3] = [Limit::EachSession, Limit::EachHold, Limit::EachCheckOut];

/// A book that is given commands, and its next line.
#[derive(Drop)]
struct Asking {
    alloc: Global,
    talk: Talk,
    line: Line,
    verdict: Verdict,
}

// Whether this reply is right: past the limit it must be a refusal by the limit, else no refusal.
fn is_as_wanted(reply: &Reply, is_past: bool) -> bool {
    match reply {
        Reply::Refused(refusal) => is_past && *refusal == Refusal::Limit,
        _ => !is_past,
    }
}

// Gives a command. Whether its reply is right: past the limit it must be a refusal by the limit, else no refusal.
fn is_told(talk: &mut Talk, session: u32, command: &Command, is_past: bool) -> bool {
    match talk.tell(session, command) {
        Some((reply, effect)) => {
            let told = is_as_wanted(&reply, is_past);
            drop(reply);
            drop(effect);
            told
        }
        None => false,
    }
}

// Gives a command. Whether it is refused by a limit, and changes nothing.
fn is_refused(talk: &mut Talk, session: u32, command: &Command) -> bool {
    let Ok(before) = talk.book().copy() else {
        return false;
    };
    let told = is_told(talk, session, command, true);
    let same = are_alike(talk.book(), &before);
    drop(before);
    told && same
}

// Which session gives up what a reply gave, and by which command.
fn given_up(reply: &Reply) -> Option<(u32, Command)> {
    match reply {
        Reply::Session(number) => Some((*number, Command::Leave)),
        Reply::Held(ClaimId::Short(number)) => Some((1, Command::Release(*number))),
        Reply::Held(ClaimId::Long(number)) => Some((1, Command::Abandon(*number))),
        _ => None,
    }
}

// Gives up what a reply gave. Whether it gave something, and that could be given up.
fn gives_up(talk: &mut Talk, reply: &Reply) -> bool {
    match given_up(reply) {
        Some((session, command)) => {
            let done = is_told(talk, session, &command, false);
            drop(command);
            done
        }
        None => false,
    }
}

// Gives a command, and gives up what its reply gives. Whether it gave something that could be given up.
fn is_spent(talk: &mut Talk, session: u32, command: &Command) -> bool {
    match talk.tell(session, command) {
        Some((reply, effect)) => {
            drop(effect);
            let spent = gives_up(talk, &reply);
            drop(reply);
            spent
        }
        None => false,
    }
}

// Gives a command again and again, and gives up each number that it gives. How many there were.
fn spend(talk: &mut Talk, session: u32, command: &Command) -> u32 {
    for spent in 0..LAST_NUMBER {
        if !is_spent(talk, session, command) {
            return spent;
        }
    }
    LAST_NUMBER
}

// A book in which check-outs have used all numbers up to this one.
fn spent_up_to(alloc: Global, last_long: u32) -> Option<Talk> {
    let tree = Tree::new(alloc).ok()?;
    let shelf = Shelf::new(alloc);
    match Book::from_parts(tree, shelf, last_long, Vec::new(alloc), Vec::new(alloc)) {
        Ok(book) => Some(Talk::over(book)),
        Err(_) => None,
    }
}

impl Asking {
    // Says the line. Past the limit, the limit must refuse it, and nothing may change; else it must be done.
    fn ask(&mut self, session: u32, is_past: bool) {
        let sound = match read_line_of(self.alloc, self.line.as_slice()) {
            Ok(command) => {
                let sound = if is_past {
                    is_refused(&mut self.talk, session, &command)
                } else {
                    is_told(&mut self.talk, session, &command, false)
                };
                drop(command);
                sound
            }
            Err(_) => false,
        };
        self.verdict.sure(sound, "a limit lies elsewhere");
    }

    // Says a line that must be done.
    fn does(&mut self, session: u32, line: &str) {
        self.line.begin(line);
        self.ask(session, false);
    }

    // Says a line that a limit must refuse.
    fn is_past(&mut self, session: u32, line: &str) {
        self.line.begin(line);
        self.ask(session, true);
    }

    // Makes session 1 and the part /e/b/p.
    fn start(&mut self) {
        self.does(0, "hello anna");
        self.does(1, "make /e");
        self.does(1, "make /e/b");
        self.does(1, "make /e/b/p");
    }

    // Makes the next place: a project, or an assembly in the last project, which then has 63.
    fn make_place(&mut self, number: u32, is_past: bool) {
        self.line.begin("make /");
        self.line.put_number(number / 64);
        if number % 64 != 0 {
            self.line.put("/");
            self.line.put_number(number % 64);
        }
        self.ask(1, is_past);
    }

    // With the library there are 4,096 places. Then the longest list of names must be answered, too.
    fn reach_places(&mut self) {
        self.does(0, "hello anna");
        for number in 0..4095 {
            self.make_place(number, false);
        }
        self.make_place(4095, true);
        self.does(1, "list /");
        self.does(1, "list /63");
    }

    // Session 1 makes one more version of a part.
    fn make_version(&mut self, claim: u32, len: u32) {
        self.does(1, "checkout w:/e/b/p");
        self.line.save(claim, "/e/b/p", len, b'v');
        self.ask(1, false);
        self.line.of_check_out("checkin", claim);
        self.ask(1, false);
    }

    fn make_versions(&mut self, count: u32, len: u32) {
        self.start();
        for before in 0..count {
            self.make_version(before.saturating_add(1), len);
        }
    }

    fn reach_versions(&mut self) {
        self.make_versions(65_535, 0);
        self.does(1, "checkout w:/e/b/p");
        self.does(1, "save c65536 /e/b/p -");
        self.is_past(1, "checkin c65536");
        self.does(1, "abandon c65536");
    }

    // Each of 16,256 versions weighs 1,032; the last one has room for 1,016 bytes.
    fn reach_weight(&mut self) {
        self.make_versions(16_256, 1024);
        self.does(1, "checkout w:/e/b/p");
        self.line.save(16_257, "/e/b/p", 1017, b'v');
        self.ask(1, true);
        self.line.save(16_257, "/e/b/p", 1016, b'v');
        self.ask(1, false);
        self.does(1, "checkin c16257");
        self.does(1, "checkout w:/e/b/p");
        self.is_past(1, "save c16258 /e/b/p -");
    }

    // Reaches the last number of a check-out, in a book that was made from parts.
    fn reach_check_out(&mut self) {
        self.does(0, "hello anna");
        self.does(1, "checkout r:/");
        self.is_past(1, "checkout r:/");
        self.does(1, "hold r:/");
        self.does(1, "abandon c4294967295");
        self.is_past(1, "checkout r:/");
    }

    // Uses up all numbers that a line gives, one after another.
    fn reach_each(&mut self, session: u32, line: &str, numbers: u32) {
        self.does(0, "hello anna");
        let spent = match read_line_of(self.alloc, line.as_bytes()) {
            Ok(command) => {
                let spent = spend(&mut self.talk, session, &command);
                drop(command);
                spent
            }
            Err(_) => 0,
        };
        self.verdict.sure(
            spent == numbers,
            "a number is given that had to be refused, or not",
        );
        self.is_past(session, line);
    }
}

impl Limit {
    /// Its name in the report.
    pub(crate) fn words(self) -> &'static str {
        match self {
            Limit::Places => "4096 places",
            Limit::Versions => "65535 versions of a part",
            Limit::Weight => "a weight of 16777216",
            Limit::CheckOut => "check-out 4294967295, by parts",
            Limit::EachSession => "session 4294967295, after all before it",
            Limit::EachHold => "hold 4294967295, after all before it",
            Limit::EachCheckOut => "check-out 4294967295, after all before it",
        }
    }

    // The book that it is reached from.
    fn talk(self, alloc: Global) -> Option<Talk> {
        match self {
            Limit::CheckOut => spent_up_to(alloc, LAST_NUMBER - 1),
            _ => Talk::new(alloc),
        }
    }

    fn reach(self, asking: &mut Asking) {
        match self {
            Limit::Places => asking.reach_places(),
            Limit::Versions => asking.reach_versions(),
            Limit::Weight => asking.reach_weight(),
            Limit::CheckOut => asking.reach_check_out(),
            Limit::EachSession => asking.reach_each(0, "hello ben", LAST_NUMBER - 1),
            Limit::EachHold => asking.reach_each(1, "hold r:/", LAST_NUMBER),
            Limit::EachCheckOut => asking.reach_each(1, "checkout r:/", LAST_NUMBER),
        }
    }

    /// Reaches it: what passes it must be refused.
    pub(crate) fn judge(self, verdict: &mut Verdict, alloc: Global) {
        let Some(talk) = self.talk(alloc) else {
            verdict.sure(false, "no book to begin with");
            return;
        };
        let mut asking = Asking {
            alloc,
            talk,
            line: Line::new(alloc),
            verdict: *verdict,
        };
        self.reach(&mut asking);
        *verdict = asking.verdict;
        drop(asking);
    }
}
