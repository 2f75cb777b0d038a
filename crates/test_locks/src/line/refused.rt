//! Each memory request of a line's calls refused in turn.
ghost use Rattle.long_locks.specs.Lines.{IsGrownFrom};

use super::calls::{Memory, Row, act, line_behind};
use super::worked::THREE;
use super::{C1, C2, is_same};
use crate::places::{SMALL, Worked, tree_of};
use Intent::{Change, Look};
use Standing::{Held, Queued};
use design_tree::Tree;
use lock_table::Extension::Done;
use long_locks::Line;
use std::process::Abort;
use test_memory::{Outcome, Refusing, requests};
use vault_state::{ClaimId, Intent, Standing};

// Tries a row. If it is refused, the line must be as its twin still, and the next try must succeed.
fn takes<'a>(
    rt: &impl Abort,
    memories: (Memory<'a>, Memory<'a>),
    line: &mut Line<Memory<'a>>,
    twin: &Line<Memory<'a>>,
    tree: &Tree<Memory<'a>>,
    number: u64,
    row: &Row,
) -> Outcome
    requires { IsGrownFrom line.old.tree tree.now }
{
    memories.0.refuse(number);
    let tried = act(rt, memories, line, tree, row);
    let has_refused = memories.0.has_refused();
    if tried != Outcome::Refused {
        return tried.and(!has_refused);
    }
    let is_kept = is_same(line, twin);
    tried.and(has_refused && is_kept && act(rt, memories, line, tree, row) == Outcome::Done)
}

// Tries a row after others. A twin line takes the same rows with ample memory. At the end both must be the same.
fn takes_behind<'a>(
    rt: &impl Abort,
    (memory, ample): (Memory<'a>, Memory<'a>),
    number: u64,
    worked: Worked<Row>,
    row: &Row,
) -> Outcome {
    let tree = tree_of(rt, ample, &SMALL);
    let mut line = line_behind(rt, (memory, ample), &tree, worked);
    let mut twin = line_behind(rt, (ample, ample), &tree, worked);
    let tried = takes(rt, (memory, ample), &mut line, &twin, &tree, number, row);
    let is_done = act(rt, (ample, ample), &mut twin, &tree, row) == Outcome::Done;
    let is_like = is_same(&line, &twin);
    drop(line);
    drop(twin);
    drop(tree);
    tried.and(is_done && is_like)
}

#[test]
fn each_request_of_a_line_is_refused(rt: HostRuntime) {
    let memory = Refusing::new(rt.alloc());
    let ample = Refusing::new(rt.alloc());
    for (name, rows, row, wanted) in &WANTED {
        let made = requests(|number| {
            takes_behind(&rt, (&memory, &ample), number, (*name, *rows), row)
        });
        assert_eq!(rt; made, Some(*wanted), "{name}");
    }
}

/// A check-out that looks at the first project, and is granted.
const ASKED: Row = Row::CheckOut(&[(Look, 1)], Held);

const FOUR: [Row; 4] = [ASKED; 4];

const SIXTEEN: [Row; 16] = [ASKED; 16];

const THIRTY_TWO: [Row; 32] = [ASKED; 32];

/// Two check-outs, a short claim and one more check-out. The second and the third claim wait.
const QUEUED: [Row; 4] = [
    Row::CheckOut(&[(Look, 3)], Held),
    Row::CheckOut(&[(Change, 3)], Queued(C1)),
    Row::Hold(2, &[(Look, 2)], Queued(C2)),
    Row::CheckOut(&[(Look, 4)], Held),
];

/// Calls, what comes before them, and the number of requests that each makes. A copy makes eight for the claims (four for their
/// index, one for each claim) and thirteen for their modes; a line of claims seven and twelve; the first claim five and six. A move
/// to the front makes all its requests for the claim's modes.
static WANTED: [(&str, &[Row], Row, u64); 11] = [
    ("Line::new", &[], Row::New, 1),
    ("Line::ask_long", &[], ASKED, 11),
    ("Line::ask_short", &[], Row::Hold(1, &[(Look, 1)], Held), 11),
    (
        "Line::extend",
        &FOUR,
        Row::Extend(C2, &[(Look, 2)], Done),
        4,
    ),
    (
        "Line::put_first",
        &FOUR,
        Row::PutFirst(C2, &[(Look, 1), (Change, 3)]),
        5,
    ),
    ("Line::ask_long, behind 4", &FOUR, ASKED, 6),
    ("Line::ask_long, behind 16", &SIXTEEN, ASKED, 6),
    ("Line::ask_long, behind 32", &THIRTY_TWO, ASKED, 6),
    ("Line::copy", &QUEUED, Row::Copy, 21),
    (
        "Line::claims_at",
        &QUEUED,
        Row::ClaimsAt(3, &[C1, C2, ClaimId::Short(1)]),
        1,
    ),
    (
        "Line::from_claims",
        &[],
        Row::FromClaims(7, &THREE, None),
        19,
    ),
];
