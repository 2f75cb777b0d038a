//! Each memory request of a table's calls refused in turn.
use super::calls::{C1, C2, C3, Row, act, is_same, table_behind};
use crate::places::{SMALL, Worked, tree_of};
use Intent::{Change, Look};
use Standing::{Held, Queued};
use design_tree::Tree;
use lock_table::Extension::Done;
use lock_table::Table;
use std::alloc::Global;
use std::process::Abort;
use test_memory::{Outcome, Refusing, requests};
use vault_state::{ClaimId, Intent, Standing};

// Tries a row. If it is refused, the table must be as its twin still, and the next try must succeed.
fn takes<'a>(
    rt: &impl Abort,
    memory: &'a Refusing<Global>,
    tree: &Tree,
    table: &mut Table<&'a Refusing<Global>>,
    twin: &Table<&'a Refusing<Global>>,
    number: u64,
    row: &Row,
) -> Outcome {
    memory.refuse(number);
    let tried = act(rt, memory, tree, table, row);
    let has_refused = memory.has_refused();
    if tried != Outcome::Refused {
        return tried.and(!has_refused);
    }
    let is_kept = is_same(tree, table, twin);
    tried.and(has_refused && is_kept && act(rt, memory, tree, table, row) == Outcome::Done)
}

// Tries a row after others. A twin table takes the same rows with ample memory. At the end both must be the same.
fn takes_behind<'a>(
    rt: &impl Abort,
    (memory, ample): (&'a Refusing<Global>, &'a Refusing<Global>),
    tree: &Tree,
    number: u64,
    worked: Worked<Row>,
    row: &Row,
) -> Outcome {
    let mut table = table_behind(rt, memory, tree, worked);
    let mut twin = table_behind(rt, ample, tree, worked);
    let tried = takes(rt, memory, tree, &mut table, &twin, number, row);
    let is_done = act(rt, ample, tree, &mut twin, row) == Outcome::Done;
    let is_like = is_same(tree, &table, &twin);
    drop(table);
    drop(twin);
    tried.and(is_done && is_like)
}

#[test]
fn each_request_of_a_table_is_refused(rt: HostRuntime) {
    let memory = Refusing::new(rt.alloc());
    let ample = Refusing::new(rt.alloc());
    let tree = tree_of(&rt, rt.alloc(), &SMALL);
    for (name, rows, row, wanted) in &WANTED {
        let made = requests(|number| {
            takes_behind(&rt, (&memory, &ample), &tree, number, (*name, *rows), row)
        });
        assert_eq!(rt; made, Some(*wanted), "{name}");
    }
    drop(tree);
}

/// The first claim, which is to look at the first project.
const LOOKING: Row = Row::Ask(C1, &[(Look, 1)], Held);

/// Calls, the claims before them, and the number of requests that each makes. The first claim makes them for its entry and for the
/// queues of two places.
static WANTED: [(&str, &[Row], Row, u64); 7] = [
    ("Table::new", &[], Row::New(None), 0),
    (
        "Table::copy",
        &[
            Row::Ask(C1, &[(Look, 1)], Held),
            Row::Ask(C2, &[(Change, 2)], Queued(C1)),
            Row::Ask(C3, &[(Look, 2)], Queued(C2)),
        ],
        Row::Copy(Some(Held)),
        9,
    ),
    ("Table::ask", &[], LOOKING, 6),
    ("Table::ask, behind 8", &EIGHT, LOOKING, 5),
    ("Table::ask, behind 32", &THIRTY_TWO, LOOKING, 5),
    (
        "Table::extend",
        &[Row::Ask(C1, &[(Look, 3)], Held)],
        Row::Extend(C1, &[(Look, 2)], Done),
        1,
    ),
    (
        "Table::put_first",
        &[
            Row::Ask(C1, &[(Look, 3)], Held),
            Row::Ask(C2, &[(Look, 3)], Held),
        ],
        Row::PutFirst(C2, &[(Change, 3)]),
        1,
    ),
];

const EIGHT: [Row; 8] = [
    Row::Ask(ClaimId::Long(100), &[(Look, 1)], Held),
    Row::Ask(ClaimId::Long(99), &[(Look, 1)], Held),
    Row::Ask(ClaimId::Long(98), &[(Look, 1)], Held),
    Row::Ask(ClaimId::Long(97), &[(Look, 1)], Held),
    Row::Ask(ClaimId::Long(96), &[(Look, 1)], Held),
    Row::Ask(ClaimId::Long(95), &[(Look, 1)], Held),
    Row::Ask(ClaimId::Long(94), &[(Look, 1)], Held),
    Row::Ask(ClaimId::Long(93), &[(Look, 1)], Held),
];

const THIRTY_TWO: [Row; 32] = [
    Row::Ask(ClaimId::Long(100), &[(Look, 1)], Held),
    Row::Ask(ClaimId::Long(99), &[(Look, 1)], Held),
    Row::Ask(ClaimId::Long(98), &[(Look, 1)], Held),
    Row::Ask(ClaimId::Long(97), &[(Look, 1)], Held),
    Row::Ask(ClaimId::Long(96), &[(Look, 1)], Held),
    Row::Ask(ClaimId::Long(95), &[(Look, 1)], Held),
    Row::Ask(ClaimId::Long(94), &[(Look, 1)], Held),
    Row::Ask(ClaimId::Long(93), &[(Look, 1)], Held),
    Row::Ask(ClaimId::Long(92), &[(Look, 1)], Held),
    Row::Ask(ClaimId::Long(91), &[(Look, 1)], Held),
    Row::Ask(ClaimId::Long(90), &[(Look, 1)], Held),
    Row::Ask(ClaimId::Long(89), &[(Look, 1)], Held),
    Row::Ask(ClaimId::Long(88), &[(Look, 1)], Held),
    Row::Ask(ClaimId::Long(87), &[(Look, 1)], Held),
    Row::Ask(ClaimId::Long(86), &[(Look, 1)], Held),
    Row::Ask(ClaimId::Long(85), &[(Look, 1)], Held),
    Row::Ask(ClaimId::Long(84), &[(Look, 1)], Held),
    Row::Ask(ClaimId::Long(83), &[(Look, 1)], Held),
    Row::Ask(ClaimId::Long(82), &[(Look, 1)], Held),
    Row::Ask(ClaimId::Long(81), &[(Look, 1)], Held),
    Row::Ask(ClaimId::Long(80), &[(Look, 1)], Held),
    Row::Ask(ClaimId::Long(79), &[(Look, 1)], Held),
    Row::Ask(ClaimId::Long(78), &[(Look, 1)], Held),
    Row::Ask(ClaimId::Long(77), &[(Look, 1)], Held),
    Row::Ask(ClaimId::Long(76), &[(Look, 1)], Held),
    Row::Ask(ClaimId::Long(75), &[(Look, 1)], Held),
    Row::Ask(ClaimId::Long(74), &[(Look, 1)], Held),
    Row::Ask(ClaimId::Long(73), &[(Look, 1)], Held),
    Row::Ask(ClaimId::Long(72), &[(Look, 1)], Held),
    Row::Ask(ClaimId::Long(71), &[(Look, 1)], Held),
    Row::Ask(ClaimId::Long(70), &[(Look, 1)], Held),
    Row::Ask(ClaimId::Long(69), &[(Look, 1)], Held),
];
