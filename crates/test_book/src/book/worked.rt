//! What is done to books, step by step.

use super::effects::{MADE, NESTED, NONE, Row};
use super::steps::Step::{
    Applies, Counts, HasDrafts, HasHold, HasNone, IsDurable, IsRefused, Join, Reopens, Says,
    SaysUnspelled, Stands,
};
use super::steps::{List, Step, Unspelled};
use super::{C1, C2, C3, H1, H2, Talk};
use std::alloc::{Allocator, Global};
use test_memory::Refusing;
use vault_model::ClaimId;
use vault_model::Intent::{Change, Look};
use vault_model::Standing::{Held, Queued};

/// Anna and ben join, and anna makes `/e`, `/e/b` and the parts `p1` and `p2` in it.
pub(super) static STARTED: [Step; 6] = [
    Says(0, "hello anna", "OK session 1", NONE),
    Says(0, "hello ben", "OK session 2", NONE),
    Says(1, "make /e", "OK place 1", MADE),
    Says(1, "make /e/b", "OK place 2", MADE),
    Says(1, "make /e/b/p1", "OK place 3", MADE),
    Says(1, "make /e/b/p2", "OK place 4", MADE),
];

/// Anna has a part with a version and a draft, and claims that wait.
pub(super) static ANNA: [Step; 12] = [
    Says(0, "hello anna", "OK session 1", NONE),
    Says(1, "make /e", "OK place 1", MADE),
    Says(1, "make /e/b", "OK place 2", MADE),
    Says(1, "make /e/b/p", "OK place 3", MADE),
    Says(1, "checkout w:/e", "OK held c1", ("Asked", 1)),
    Says(1, "save c1 /e/b/p 6669727374", "OK saved", ("Saved", 1)),
    Says(1, "checkin c1", "OK checked in 1", ("CheckedIn", 1)),
    Says(1, "checkout w:/e", "OK held c2", ("Asked", 2)),
    Says(1, "save c2 /e/b/p 7365636f6e64", "OK saved", ("Saved", 2)),
    Says(1, "hold r:/", "OK queued h1 behind c2", NONE),
    Says(1, "checkout r:/", "OK queued c3 behind c2", ("Asked", 3)),
    Says(1, "checkout r:/", "OK queued c4 behind c2", ("Asked", 4)),
];

/// A part `/e/b/p` with a version, and beside it `/e/b/q`. The line is c3 (granted, with a draft of p), c2 (granted, looks at
/// q) and c4 (waiting).
pub(super) static TOLD: [Step; 20] = [
    Says(0, "hello anna", "OK session 1", NONE),
    Says(1, "make /e", "OK place 1", MADE),
    Says(1, "make /e/b", "OK place 2", MADE),
    Says(1, "make /e/b/p", "OK place 3", MADE),
    Says(1, "make /e/b/q", "OK place 4", MADE),
    Says(1, "checkout w:/e/b/p", "OK held c1", ("Asked", 1)),
    Says(1, "save c1 /e/b/p 6669727374", "OK saved", ("Saved", 1)),
    Says(1, "checkin c1", "OK checked in 1", ("CheckedIn", 1)),
    Says(1, "checkout r:/e/b/q", "OK held c2", ("Asked", 2)),
    Says(1, "checkout w:/e/b/p", "OK held c3", ("Asked", 3)),
    Says(1, "save c3 /e/b/p 0707", "OK saved", ("Saved", 3)),
    Says(1, "extend c3 r:/e/b/q", "OK held c3", ("Extended", 3)),
    Says(1, "checkout w:/e", "OK queued c4 behind c3", ("Asked", 4)),
    Reopens,
    IsDurable,
    Stands(C3, Some(Held)),
    Stands(ClaimId::Long(4), Some(Queued(C3))),
    HasDrafts(3, 1),
    HasDrafts(2, 0),
    HasDrafts(4, 0),
];

/// What anna and ben say, with drafts of both at its end.
pub(super) static DRAFTED: [Step; 19] = [
    Says(0, "hello anna", "OK session 1", NONE),
    Says(1, "make /e", "OK place 1", MADE),
    Says(1, "make /e/b", "OK place 2", MADE),
    Says(1, "make /e/b/p1", "OK place 3", MADE),
    Says(1, "make /e/b/p2", "OK place 4", MADE),
    Says(1, "checkout w:/e/b", "OK held c1", ("Asked", 1)),
    Says(1, "save c1 /e/b/p1 6162", "OK saved", ("Saved", 1)),
    Says(1, "save c1 /e/b/p1 63", "OK saved", ("Saved", 1)),
    Says(1, "save c1 /e/b/p2 -", "OK saved", ("Saved", 1)),
    Says(1, "checkin c1", "OK checked in 2", ("CheckedIn", 1)),
    Says(1, "checkout w:/e/b/p1", "OK held c2", ("Asked", 2)),
    Says(1, "save c2 /e/b/p1 64", "OK saved", ("Saved", 2)),
    Says(1, "checkout w:/e/b/p2", "OK held c3", ("Asked", 3)),
    Says(1, "save c3 /e/b/p2 65", "OK saved", ("Saved", 3)),
    Says(1, "abandon c3", "OK abandoned", ("Abandoned", 3)),
    Says(1, "note c2 6162", "OK noted", ("Noted", 2)),
    Says(1, "give c2 ben", "OK given", ("Given", 2)),
    Says(0, "hello ben", "OK session 2", NONE),
    Says(2, "note c2 63", "OK noted", ("Noted", 2)),
];

/// Effects that make `/e`, `/e/b`, `/e/b/p1`, `/e/b/p2`, two check-outs that look at the first part, and one that changes the
/// second and has a draft of it.
pub(super) static DURABLE: [Step; 8] = [
    Applies(Row::Made(0, "e")),
    Applies(Row::Made(1, "b")),
    Applies(Row::Made(2, "p1")),
    Applies(Row::Made(2, "p2")),
    Applies(Row::Asked(1, 1, Look, 3)),
    Applies(Row::Asked(2, 1, Look, 3)),
    Applies(Row::Asked(3, 1, Change, 4)),
    Applies(Row::Saved(3, 4, 1024)),
];

/// Does the steps of a list after those of another. Returns the number done before the first that isn't, and the number of all.
fn count_done<A: Allocator + Copy>(
    alloc: A,
    memory: Global,
    start: List,
    list: List,
) -> (usize, usize) {
    let steps = list.steps();
    let Some(mut talk) = Talk::from(alloc, alloc, memory, start) else {
        return (0, steps.len());
    };
    let count = talk.does_all(memory, steps);
    drop(talk);
    (count, steps.len())
}

#[test]
fn each_kind_of_command_has_its_effect(rt: HostRuntime) {
    let memory = Refusing::new(rt.alloc());
    for (name, start, list) in &WORKED {
        let (done, all) = count_done(&memory, rt.alloc(), *start, *list);
        assert_eq!(rt; done, all, "{name}");
    }
}

static WORKED: [(&str, List, List); 10] = [
    ("the line is read", List::Started, List::Read),
    ("each kind of command", List::Started, List::EachKind),
    (
        "commands that no line spells",
        List::Started,
        List::Unspelled,
    ),
    ("as many sessions as may be", List::New, List::Full),
    ("a life that leaves little", List::New, List::Left),
    ("a durable book opened", List::Drafted, List::Opened),
    ("the book itself restarted", List::Drafted, List::Restarted),
    (
        "claims are not judged again",
        List::Durable,
        List::NotJudged,
    ),
    (
        "what is not applicable changes nothing",
        List::Durable,
        List::NotApplicable,
    ),
    (
        "drafts that are not applicable change nothing",
        List::Durable,
        List::NoDrafts,
    ),
];

/// The line is read by the book's calls, first without a claim and then with two.
pub(super) static READ: [Step; 9] = [
    HasNone(0),
    Says(1, "checkout r:/e/b", "OK held c1", ("Asked", 1)),
    Says(
        2,
        "hold r:/e/b/p1 w:/e/b/p2",
        "OK queued h1 behind c1",
        NONE,
    ),
    Counts(5, 2, 1, 1),
    Stands(C1, Some(Held)),
    Stands(H1, Some(Queued(C1))),
    Stands(C2, None),
    HasNone(2),
    HasHold,
];

/// Claims are not judged again: effects are applied without a check for overlap.
pub(super) static NOT_JUDGED: [Step; 4] = [
    Applies(Row::Extended(2, 1, Change, 3)),
    Reopens,
    Stands(C2, Some(Held)),
    Stands(C1, Some(Queued(C2))),
];

/// Each kind of command that has an effect, then those that have none, then a refusal of each kind that may have an effect.
pub(super) static EACH_KIND: [Step; 31] = [
    Says(1, "nest /e/b/s", "OK place 5", NESTED),
    Says(1, "make /e/b/s/p", "OK place 6", MADE),
    Says(1, "checkout w:/e/b/s", "OK held c1", ("Asked", 1)),
    Says(
        2,
        "checkout r:/e/b/s/p",
        "OK queued c2 behind c1",
        ("Asked", 2),
    ),
    Says(1, "nest /e/b/s/t c1", "OK place 7", NESTED),
    Says(1, "make /e/b/s/q c1", "OK place 8", MADE),
    Says(1, "extend c1 w:/e/b/p1", "OK held c1", ("Extended", 1)),
    Says(1, "save c1 /e/b/s/p 00", "OK saved", ("Saved", 1)),
    Says(1, "note c1 6162", "OK noted", ("Noted", 1)),
    Says(1, "give c1 ben", "OK given", ("Given", 1)),
    Says(1, "note c1", "OK note 6162", NONE),
    Says(2, "checkin c1", "OK checked in 1", ("CheckedIn", 1)),
    Says(2, "state c2", "OK held c2", NONE),
    Says(2, "abandon c2", "OK abandoned", ("Abandoned", 2)),
    Says(1, "hold r:/e", "OK held h1", NONE),
    Says(2, "hold w:/e/b", "OK queued h2 behind h1", NONE),
    Says(1, "extend h1 r:/e/b", "OK held h1", NONE),
    Says(1, "release h1", "OK released", NONE),
    Says(1, "list /e/b/s", "OK list 3 p t q", NONE),
    Says(1, "fetch /e/b/s/p 1", "OK content 00", NONE),
    Says(1, "count /e/b/s/p", "OK versions 1", NONE),
    Says(2, "make /", "ERR 21", NONE),
    Says(2, "nest /", "ERR 21", NONE),
    Says(2, "checkout r:/x", "ERR 20", NONE),
    Says(2, "extend c1 r:/e", "ERR 30", NONE),
    Says(2, "save c1 /e/b/s/p 00", "ERR 30", NONE),
    Says(2, "checkin c1", "ERR 30", NONE),
    Says(2, "abandon c1", "ERR 30", NONE),
    Says(2, "give c1 anna", "ERR 30", NONE),
    Says(2, "note c1 00", "ERR 30", NONE),
    Says(2, "quit", "OK left", NONE),
];

/// Commands that no line spells, after claims of both sessions. Where several refusals apply, the first is the answer. There is
/// no session 9.
pub(super) static UNSPELLED: [Step; 17] = [
    Says(1, "make /f", "OK place 5", MADE),
    Says(1, "checkout r:/e w:/e/b", "OK held c1", ("Asked", 1)),
    Says(
        2,
        "checkout w:/e/b/p1",
        "OK queued c2 behind c1",
        ("Asked", 2),
    ),
    Says(1, "hold r:/f", "OK held h1", NONE),
    Says(9, "hello anna", "ERR 11", NONE),
    Says(9, "quit", "ERR 11", NONE),
    SaysUnspelled(0, Unspelled::CheckOut, NO_SESSION),
    SaysUnspelled(0, Unspelled::Hold, NO_SESSION),
    SaysUnspelled(1, Unspelled::CheckOut, ITEM_COUNT),
    SaysUnspelled(1, Unspelled::Hold, ITEM_COUNT),
    SaysUnspelled(0, Unspelled::Extend(C1), NO_SESSION),
    SaysUnspelled(1, Unspelled::Extend(ClaimId::Long(9)), NO_CLAIM),
    SaysUnspelled(1, Unspelled::Extend(H2), NO_CLAIM),
    SaysUnspelled(1, Unspelled::Extend(C2), NOT_YOURS),
    SaysUnspelled(2, Unspelled::Extend(H1), NOT_YOURS),
    SaysUnspelled(2, Unspelled::Extend(C2), NOT_HELD),
    SaysUnspelled(1, Unspelled::Extend(C1), ITEM_COUNT),
];

const NO_SESSION: &str = "ERR 11";

const ITEM_COUNT: &str = "ERR 36";

const NO_CLAIM: &str = "ERR 30";

const NOT_YOURS: &str = "ERR 31";

const NOT_HELD: &str = "ERR 32";

/// The answers to the first 64 sessions.
const SESSIONS: [&str; 64] = [
    "OK session 1",
    "OK session 2",
    "OK session 3",
    "OK session 4",
    "OK session 5",
    "OK session 6",
    "OK session 7",
    "OK session 8",
    "OK session 9",
    "OK session 10",
    "OK session 11",
    "OK session 12",
    "OK session 13",
    "OK session 14",
    "OK session 15",
    "OK session 16",
    "OK session 17",
    "OK session 18",
    "OK session 19",
    "OK session 20",
    "OK session 21",
    "OK session 22",
    "OK session 23",
    "OK session 24",
    "OK session 25",
    "OK session 26",
    "OK session 27",
    "OK session 28",
    "OK session 29",
    "OK session 30",
    "OK session 31",
    "OK session 32",
    "OK session 33",
    "OK session 34",
    "OK session 35",
    "OK session 36",
    "OK session 37",
    "OK session 38",
    "OK session 39",
    "OK session 40",
    "OK session 41",
    "OK session 42",
    "OK session 43",
    "OK session 44",
    "OK session 45",
    "OK session 46",
    "OK session 47",
    "OK session 48",
    "OK session 49",
    "OK session 50",
    "OK session 51",
    "OK session 52",
    "OK session 53",
    "OK session 54",
    "OK session 55",
    "OK session 56",
    "OK session 57",
    "OK session 58",
    "OK session 59",
    "OK session 60",
    "OK session 61",
    "OK session 62",
    "OK session 63",
    "OK session 64",
];

/// A 65th session is refused until one has left.
pub(super) static FULL: [Step; 7] = [
    Counts(1, 0, 0, 0),
    Join(&SESSIONS),
    Says(0, "hello ben", "ERR 50", NONE),
    Says(7, "quit", "OK left", NONE),
    Says(0, "hello ben", "OK session 65", NONE),
    Says(0, "hello ben", "ERR 50", NONE),
    Says(65, "make /e", "OK place 1", MADE),
];

/// What anna says before her session ends, and what is left of it.
pub(super) static LEFT: [Step; 16] = [
    Says(0, "hello anna", "OK session 1", NONE),
    Says(1, "make /e", "OK place 1", MADE),
    Says(1, "make /e/b", "OK place 2", MADE),
    Says(1, "make /e/b/p1", "OK place 3", MADE),
    Says(1, "make /e/b", "ERR 21", NONE),
    Says(1, "checkout r:/e/b/p1", "OK held c1", ("Asked", 1)),
    Says(1, "hold w:/e", "OK queued h1 behind c1", NONE),
    Says(
        1,
        "checkout w:/e/b/p1",
        "OK queued c2 behind c1",
        ("Asked", 2),
    ),
    Says(1, "checkout r:/e/b", "OK queued c3 behind h1", ("Asked", 3)),
    Says(1, "extend c1 r:/", "OK held c1", ("Extended", 1)),
    Says(1, "abandon c2", "OK abandoned", ("Abandoned", 2)),
    Says(1, "quit", "OK left", NONE),
    Reopens,
    IsDurable,
    Counts(4, 2, 3, 0),
    Stands(C3, Some(Held)),
];

/// What the durable book answers when it is opened.
pub(super) static OPENED: [Step; 14] = [
    Reopens,
    IsDurable,
    Counts(5, 1, 3, 0),
    Stands(C2, Some(Held)),
    Says(0, "hello anna", "OK session 1", NONE),
    Says(1, "count /e/b/p1", "OK versions 1", NONE),
    Says(1, "fetch /e/b/p1 1", "OK content 63", NONE),
    Says(1, "fetch /e/b/p2 1", "OK content -", NONE),
    Says(1, "note c2", "OK note 63", NONE),
    Says(1, "checkin c2", "ERR 31", NONE),
    Says(0, "hello ben", "OK session 2", NONE),
    Says(2, "checkin c2", "OK checked in 1", ("CheckedIn", 2)),
    Says(1, "fetch /e/b/p1 2", "OK content 64", NONE),
    Says(1, "count /e/b/p2", "OK versions 1", NONE),
];

/// The same, answered by the book itself when it is restarted.
pub(super) static RESTARTED: [Step; 12] = [
    Reopens,
    Reopens,
    Says(0, "hello anna", "OK session 1", NONE),
    Says(1, "count /e/b/p1", "OK versions 1", NONE),
    Says(1, "fetch /e/b/p1 1", "OK content 63", NONE),
    Says(1, "fetch /e/b/p2 1", "OK content -", NONE),
    Says(1, "note c2", "OK note 63", NONE),
    Says(1, "checkin c2", "ERR 31", NONE),
    Says(0, "hello ben", "OK session 2", NONE),
    Says(2, "checkin c2", "OK checked in 1", ("CheckedIn", 2)),
    Says(1, "fetch /e/b/p1 2", "OK content 64", NONE),
    Says(1, "count /e/b/p2", "OK versions 1", NONE),
];

/// A claim that waits for one of the others.
const QUEUED: Step = Applies(Row::Asked(4, 1, Change, 2));

/// Places that can't be made, claims that can't be asked for or extended, and effects on a claim that isn't there.
pub(super) static NOT_APPLICABLE: [Step; 22] = [
    QUEUED,
    IsRefused(Row::Made(9, "x")),
    IsRefused(Row::Made(3, "x")),
    IsRefused(Row::Made(0, "e")),
    IsRefused(Row::Nested(0, "x")),
    IsRefused(Row::Nested(1, "x")),
    IsRefused(Row::Nested(3, "x")),
    IsRefused(Row::Nested(2, "p1")),
    IsRefused(Row::Asked(0, 1, Look, 1)),
    IsRefused(Row::Asked(4, 1, Look, 1)),
    IsRefused(Row::Asked(6, 1, Look, 1)),
    IsRefused(Row::Asked(5, 0, Look, 1)),
    IsRefused(Row::Asked(5, 1, Look, 5)),
    IsRefused(Row::Extended(9, 1, Look, 1)),
    IsRefused(Row::Extended(4, 1, Look, 1)),
    IsRefused(Row::Extended(1, 8, Look, 1)),
    IsRefused(Row::Extended(1, 1, Look, 5)),
    IsRefused(Row::Abandoned(9)),
    IsRefused(Row::Given(9)),
    IsRefused(Row::Noted(9)),
    Reopens,
    Counts(5, 4, 4, 0),
];

/// Drafts of claims that aren't granted, of places that a claim doesn't change, and one that is too long; check-ins of claims
/// that aren't granted.
pub(super) static NO_DRAFTS: [Step; 16] = [
    QUEUED,
    IsRefused(Row::Saved(9, 4, 1)),
    IsRefused(Row::Saved(4, 4, 1)),
    IsRefused(Row::Saved(1, 3, 1)),
    IsRefused(Row::Saved(3, 3, 1)),
    IsRefused(Row::Saved(3, 2, 1)),
    IsRefused(Row::Saved(3, 5, 1)),
    IsRefused(Row::Saved(3, 4, 1025)),
    IsRefused(Row::CheckedIn(9)),
    IsRefused(Row::CheckedIn(4)),
    IsRefused(Row::Extended(1, 1, Look, 4)),
    Reopens,
    Stands(C3, Some(Held)),
    Reopens,
    Applies(Row::CheckedIn(3)),
    IsRefused(Row::CheckedIn(3)),
];
