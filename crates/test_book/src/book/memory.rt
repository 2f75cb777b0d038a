//! Each memory request refused in turn: the book must then be as it was.
use super::Talk;
use super::alike::are_alike;
use super::effects::{MADE, NESTED, NONE, Row};
use super::parts::{OWN, remakes_from};
use super::steps::List::{Anna, Durable, New, Told};
use super::steps::Step::{Applies, Says};
use super::steps::{List, Step};
use std::alloc::{Allocator, Global};
use std::process::Abort;
use test_memory::{Outcome, Refusing, requests};
use vault_checkout::{Book, FromPartsError};
use vault_model::Intent::{Change, Look};
use vault_model::NoMemory;

/// Lines that show whether two books have the same sessions: the check-outs show the designer of each session, and which
/// number a new session gets.
static PROBES: [(u32, &str); 7] = [
    (0, "checkout r:/"),
    (1, "checkout r:/"),
    (0, "hello zoe"),
    (1, "checkout r:/"),
    (2, "checkout r:/"),
    (3, "checkout r:/"),
    (4, "checkout r:/"),
];

impl<A: Allocator + Copy> Talk<A> {
    /// A copy that was given these lines.
    fn probed(&self, memory: Global) -> Option<Talk<A>> {
        let Some(mut copy) = self.copy() else {
            return None;
        };
        for (session, line) in &PROBES {
            copy.hears(memory, *session, line, ("", NONE));
        }
        Some(copy)
    }
}

/// Whether two talks have the same books, with the same sessions.
fn are_same<A: Allocator + Copy>(memory: Global, talk: &Talk<A>, other: &Talk<A>) -> bool {
    let Some(probed) = talk.probed(memory) else {
        return false;
    };
    let Some(like) = other.probed(memory) else {
        drop(probed);
        return false;
    };
    let is_same = are_alike(&probed.book, &like.book) && are_alike(&probed.durable, &like.durable);
    drop(probed);
    drop(like);
    is_same
}

/// Tries a step. If it is refused, the books must be as their twins still, and the next try must succeed.
fn does<A: Allocator + Copy>(
    memory: &Refusing<Global>,
    aside: Global,
    talk: &mut Talk<A>,
    twin: &Talk<A>,
    step: &Step,
    number: u64,
) -> Outcome {
    memory.refuse(number);
    let tried = talk.does(aside, step);
    let has_refused = memory.has_refused();
    if tried != Outcome::Refused {
        return tried.and(!has_refused);
    }
    let is_kept = are_same(aside, talk, twin);
    tried.and(has_refused && is_kept && talk.does(aside, step) == Outcome::Done)
}

/// Tries a step after others. It takes its memory from the first allocator; a twin takes the same steps in ample memory. At
/// the end both must be the same.
fn does_from<A: Allocator + Copy>(
    memory: &Refusing<Global>,
    aside: Global,
    (asked, ample): (A, A),
    start: List,
    step: &Step,
    number: u64,
) -> Outcome {
    let (of_book, of_durable) = match step {
        Applies(_) => (ample, asked),
        _ => (asked, ample),
    };
    let Some(mut talk) = Talk::from(of_book, of_durable, aside, start) else {
        return Outcome::Wrong;
    };
    let Some(mut twin) = Talk::from(ample, ample, aside, start) else {
        drop(talk);
        return Outcome::Wrong;
    };
    let tried = does(memory, aside, &mut talk, &twin, step, number);
    let is_like = twin.does(aside, step) == Outcome::Done && are_same(aside, &talk, &twin);
    drop(talk);
    drop(twin);
    tried.and(is_like)
}

/// Whether a book is like another. `None` if there was no memory for it.
fn is_like<A: Allocator + Copy>(book: Result<Book<A>, NoMemory>, other: &Book<A>) -> Option<bool> {
    let Ok(book) = book else {
        return None;
    };
    let is_like = are_alike(&book, other);
    drop(book);
    Some(is_like)
}

/// Whether a new book, or a copy, is like the book after these steps.
fn makes<A: Allocator + Copy>(
    memory: &Refusing<Global>,
    aside: Global,
    alloc: A,
    (start, is_new): (List, bool),
    number: u64,
) -> Option<bool> {
    let Some(talk) = Talk::from(alloc, alloc, aside, start) else {
        return Some(false);
    };
    memory.refuse(number);
    let told = if is_new {
        is_like(Book::new(alloc), &talk.book)
    } else {
        is_like(talk.book.copy(), &talk.book)
    };
    drop(talk);
    told
}

/// Whether a book made of another's parts is like that one.
fn is_remade(
    rt: &impl Abort,
    memory: &Refusing<Global>,
    aside: Global,
    number: u64,
) -> Option<bool> {
    match remakes_from(rt, (memory, aside), memory, (Told, &OWN), number) {
        Err(FromPartsError::NoMemory) => None,
        told => Some(told == Ok(true)),
    }
}

/// What is tried.
#[derive(Clone, Copy)]
enum Call {
    New,
    Copy,
    FromParts,
    /// A step after others.
    Does(List, Step),
}

/// Tries a call with its request of this number refused.
fn tries(
    rt: &impl Abort,
    (memory, ample): (&Refusing<Global>, &Refusing<Global>),
    aside: Global,
    call: &Call,
    number: u64,
) -> Outcome {
    let told = match call {
        Call::Does(start, step) => {
            return does_from(memory, aside, (memory, ample), *start, step, number);
        }
        Call::New => makes(memory, aside, memory, (New, true), number),
        Call::Copy => makes(memory, aside, memory, (Anna, false), number),
        Call::FromParts => is_remade(rt, memory, aside, number),
    };
    memory.outcome(told)
}

#[test]
fn each_request_of_a_book_is_refused(rt: HostRuntime) {
    let (alloc, memory) = (rt.alloc(), Refusing::new(rt.alloc()));
    let ample = Refusing::new(alloc);
    for (name, call, wanted) in &WANTED {
        let made = requests(|number| tries(&rt, (&memory, &ample), alloc, call, number));
        assert_eq!(rt; made, Some(*wanted), "{name}");
    }
}

/// A name, a call, and the number of requests that it makes.
static WANTED: [(&str, Call, u64); 36] = [
    (
        "Book::apply, Made",
        Call::Does(Durable, Applies(Row::Made(2, "p3"))),
        1,
    ),
    (
        "Book::apply, Nested",
        Call::Does(Durable, Applies(Row::Nested(2, "s"))),
        1,
    ),
    (
        "Book::apply, Asked",
        Call::Does(Durable, Applies(Row::Asked(4, 1, Look, 1))),
        2,
    ),
    (
        "Book::apply, Extended",
        Call::Does(Durable, Applies(Row::Extended(2, 1, Change, 3))),
        1,
    ),
    (
        "Book::apply, Saved",
        Call::Does(Durable, Applies(Row::Saved(3, 4, 2))),
        1,
    ),
    (
        "Book::apply, CheckedIn",
        Call::Does(Durable, Applies(Row::CheckedIn(3))),
        3,
    ),
    (
        "Book::apply, Abandoned",
        Call::Does(Durable, Applies(Row::Abandoned(1))),
        0,
    ),
    (
        "Book::apply, Given",
        Call::Does(Durable, Applies(Row::Given(1))),
        0,
    ),
    (
        "Book::apply, Noted",
        Call::Does(Durable, Applies(Row::Noted(1))),
        0,
    ),
    (
        "Book::act, Join",
        Call::Does(New, Says(0, "hello anna", "OK session 1", NONE)),
        1,
    ),
    (
        "Book::act, Make",
        Call::Does(Anna, Says(1, "make /f", "OK place 4", MADE)),
        1,
    ),
    (
        "Book::act, Make in a check-out",
        Call::Does(Anna, Says(1, "make /e/f c2", "OK place 4", MADE)),
        1,
    ),
    (
        "Book::act, Nest",
        Call::Does(Anna, Says(1, "nest /e/b/s c2", "OK place 4", NESTED)),
        1,
    ),
    (
        "Book::act, CheckOut",
        Call::Does(
            Anna,
            Says(1, "checkout r:/", "OK queued c5 behind c2", ("Asked", 5)),
        ),
        5,
    ),
    (
        "Book::act, Extend",
        Call::Does(
            Anna,
            Says(1, "extend c2 w:/", "OK held c2", ("Extended", 2)),
        ),
        2,
    ),
    (
        "Book::act, Save",
        Call::Does(
            Anna,
            Says(1, "save c2 /e/b/p 7468697264", "OK saved", ("Saved", 2)),
        ),
        2,
    ),
    (
        "Book::act, CheckIn",
        Call::Does(
            Anna,
            Says(1, "checkin c2", "OK checked in 1", ("CheckedIn", 2)),
        ),
        1,
    ),
    (
        "Book::act, Hold",
        Call::Does(Anna, Says(1, "hold r:/", "OK queued h2 behind c2", NONE)),
        5,
    ),
    (
        "Book::act, List",
        Call::Does(Anna, Says(1, "list /", "OK list 1 e", NONE)),
        1,
    ),
    (
        "Book::act, Fetch",
        Call::Does(
            Anna,
            Says(1, "fetch /e/b/p 1", "OK content 6669727374", NONE),
        ),
        1,
    ),
    (
        "Book::act, Abandon",
        Call::Does(
            Anna,
            Says(1, "abandon c2", "OK abandoned", ("Abandoned", 2)),
        ),
        0,
    ),
    (
        "Book::act, Release",
        Call::Does(Anna, Says(1, "release h1", "OK released", NONE)),
        0,
    ),
    (
        "Book::act, State",
        Call::Does(Anna, Says(1, "state h1", "OK queued h1 behind c2", NONE)),
        0,
    ),
    (
        "Book::act, Count",
        Call::Does(Anna, Says(1, "count /e/b/p", "OK versions 1", NONE)),
        0,
    ),
    (
        "Book::act, Give",
        Call::Does(Anna, Says(1, "give c2 ben", "OK given", ("Given", 2))),
        0,
    ),
    (
        "Book::act, Note",
        Call::Does(Anna, Says(1, "note c2 61", "OK noted", ("Noted", 2))),
        0,
    ),
    (
        "Book::act, ReadNote",
        Call::Does(Anna, Says(1, "note c2", "OK note -", NONE)),
        0,
    ),
    (
        "Book::act, Show",
        Call::Does(
            Anna,
            Says(1, "show h1", "OK claim h1 anna queued behind c2 r:/", NONE),
        ),
        1,
    ),
    (
        "Book::act, Claims",
        Call::Does(Anna, Says(1, "claims /e", "OK claims 4 c2 h1 c3 c4", NONE)),
        1,
    ),
    (
        "Book::act, Drafts",
        Call::Does(Anna, Says(1, "drafts c2", "OK drafts 1 /e/b/p", NONE)),
        1,
    ),
    (
        "Book::act, Draft",
        Call::Does(
            Anna,
            Says(1, "draft c2 /e/b/p", "OK content 7365636f6e64", NONE),
        ),
        1,
    ),
    (
        "Book::act, Await",
        Call::Does(Anna, Says(1, "wait h1", "OK queued h1 behind c2", NONE)),
        0,
    ),
    (
        "Book::act, Leave",
        Call::Does(Anna, Says(1, "quit", "OK left", NONE)),
        0,
    ),
    ("Book::new", Call::New, 2),
    ("Book::copy", Call::Copy, 29),
    ("Book::from_parts", Call::FromParts, 20),
];
