//! Tables of claims, by rows of calls with their answers.
use super::locks_of;
use crate::places::{SMALL, Wish, Worked, answers, tree_of};
use Extension::{Done, InTheWay};
use Intent::{Change, Look};
use Mode::{IS, IX, S, SIX, X};
use Standing::{Held, Queued};
use design_tree::Tree;
use lock_modes::Mode;
use lock_table::{Extension, Table};
use std::alloc::Allocator;
use std::process::Abort;
use test_memory::Outcome;
use vault_state::{ClaimId, Intent, NoMemory, PlaceId, Standing};

pub(super) const C1: ClaimId = ClaimId::Long(1);

pub(super) const C2: ClaimId = ClaimId::Long(2);

pub(super) const C3: ClaimId = ClaimId::Long(3);

const H1: ClaimId = ClaimId::Short(1);

const H2: ClaimId = ClaimId::Short(2);

/// A call of a table, with what it has to answer.
#[derive(Clone, Copy)]
pub(super) enum Row {
    Ask(ClaimId, &'static [Wish], Standing),
    Extend(ClaimId, &'static [Wish], Extension),
    PutFirst(ClaimId, &'static [Wish]),
    Release(ClaimId),
    ReleaseShort,
    /// Another table is made, like this one but independent of it: when C1 has left the other one, C2 has this standing there.
    New(Option<Standing>),
    Copy(Option<Standing>),
    Stands(ClaimId, Option<Standing>),
    /// The modes of the group of all claims at a place, and of the group of the granted ones.
    Groups(u32, Option<Mode>, Option<Mode>),
    Covered(u32, Option<ClaimId>),
}

// Whether a claim has this standing.
fn stands<A: Allocator>(table: &Table<A>, id: ClaimId, standing: Option<Standing>) -> bool {
    let blocker = match standing {
        Some(Standing::Queued(first)) => Some(first),
        _ => None,
    };
    table.standing(id) == standing && table.blocker(id) == blocker
}

// Whether two tables have the same groups at a place, and the same granted claim that covers it.
fn is_same_at<A: Allocator>(tree: &Tree, one: &Table<A>, other: &Table<A>, place: PlaceId) -> bool {
    (place.number() as usize) < tree.len()
        && one.group_at(place) == other.group_at(place)
        && one.held_at(place) == other.held_at(place)
        && one.held_over(tree, place) == other.held_over(tree, place)
}

/// Whether two tables answer alike about the claims of numbers 0 to 4 and all places.
pub(super) fn is_same<A: Allocator>(tree: &Tree, one: &Table<A>, other: &Table<A>) -> bool {
    for number in 0..5u32 {
        let id = ClaimId::Long(number);
        if !is_same_at(tree, one, other, PlaceId(number))
            || one.standing(id) != other.standing(id)
            || one.blocker(id) != other.blocker(id)
        {
            return false;
        }
    }
    true
}

// Whether a new table is like this one, and C2 has this standing in it once C1 has left.
fn is_like<A: Allocator>(
    tree: &Tree,
    made: Result<Table<A>, NoMemory>,
    table: &Table<A>,
    second: Option<Standing>,
) -> Outcome {
    match made {
        Ok(mut made) => {
            let is_like = is_same(tree, &made, table);
            made.release(C1);
            let is_apart = stands(&made, C2, second);
            drop(made);
            Outcome::done(is_like && is_apart)
        }
        Err(NoMemory) => Outcome::Refused,
    }
}

// Whether the table shows what a row says.
fn shows<A: Allocator>(tree: &Tree, table: &Table<A>, row: &Row) -> bool {
    match *row {
        Row::Stands(id, standing) => stands(table, id, standing),
        Row::Groups(number, all, held) => {
            let place = PlaceId(number);
            table.group_at(place).mode() == all && table.held_at(place).mode() == held
        }
        Row::Covered(place, id) => {
            (place as usize) < tree.len() && table.held_over(tree, PlaceId(place)) == id
        }
        _ => false,
    }
}

// Asks for a claim. The answer must be this standing, and the claim must have it then.
fn ask<A: Allocator + Copy>(
    rt: &impl Abort,
    tree: &Tree,
    table: &mut Table<A>,
    id: ClaimId,
    wishes: &[Wish],
    standing: Standing,
) -> Outcome {
    assert!(rt; table.standing(id).is_none());
    assert!(rt; !table.is_full());
    match answers(table.ask(id, locks_of(rt, tree, wishes)), standing) {
        Outcome::Done => Outcome::done(stands(table, id, Some(standing))),
        tried => tried,
    }
}

// Whether the table answers as a row says.
pub(super) fn act<A: Allocator + Copy>(
    rt: &impl Abort,
    alloc: A,
    tree: &Tree,
    table: &mut Table<A>,
    row: &Row,
) -> Outcome {
    match *row {
        Row::Ask(id, wishes, standing) => ask(rt, tree, table, id, wishes, standing),
        Row::Extend(id, wishes, told) => {
            let Some(Standing::Held) = table.standing(id) else {
                panic!(rt; "a held claim");
            };
            answers(table.extend(id, locks_of(rt, tree, wishes)), told)
        }
        Row::PutFirst(id, wishes) => {
            assert!(rt; table.standing(id).is_some());
            answers(table.put_first(id, locks_of(rt, tree, wishes)), ())
        }
        Row::Release(id) => {
            table.release(id);
            Outcome::done(stands(table, id, None))
        }
        Row::ReleaseShort => {
            table.release_short();
            Outcome::Done
        }
        Row::New(second) => is_like(tree, Table::new(alloc), table, second),
        Row::Copy(second) => is_like(tree, table.copy(), table, second),
        _ => Outcome::done(shows(tree, table, row)),
    }
}

/// A table after these rows, each answered as it must be. A failure names the row.
pub(super) fn table_behind<A: Allocator + Copy>(
    rt: &impl Abort,
    alloc: A,
    tree: &Tree,
    (name, rows): Worked<Row>,
) -> Table<A> {
    let mut table = Table::new(alloc).expect(rt, "memory");
    for (index, row) in rows.iter().enumerate() {
        let tried = act(rt, alloc, tree, &mut table, row);
        assert!(rt; tried == Outcome::Done, "{name}, row {index}");
    }
    table
}

static TABLES: [Worked<Row>; 13] = [
    ("a new table", &[Row::Stands(C1, None)]),
    (
        "a newcomer waits for a change above",
        &[
            Row::Ask(C1, &[(Change, 1)], Held),
            Row::Ask(C2, &[(Look, 1)], Queued(C1)),
        ],
    ),
    (
        "two parts change",
        &[
            Row::Ask(C1, &[(Change, 3)], Held),
            Row::Ask(C2, &[(Change, 4)], Held),
        ],
    ),
    (
        "a newcomer waits for a change of its part alone",
        &[
            Row::Ask(C1, &[(Look, 2), (Change, 3)], Held),
            Row::Ask(C2, &[(Look, 4)], Held),
            Row::Ask(C3, &[(Look, 3)], Queued(C1)),
        ],
    ),
    (
        "a newcomer waits for the waiting",
        &[
            Row::Ask(C1, &[(Look, 1)], Held),
            Row::Ask(C2, &[(Change, 2)], Queued(C1)),
            Row::Ask(C3, &[(Look, 2)], Queued(C2)),
            Row::Release(C1),
            Row::Stands(C2, Some(Held)),
            Row::Stands(C3, Some(Queued(C2))),
        ],
    ),
    (
        "a held claim is in the way of an extension",
        &[
            Row::Ask(C1, &[(Look, 3)], Held),
            Row::Ask(C2, &[(Look, 3)], Held),
            Row::Extend(C1, &[(Look, 3), (Change, 3)], InTheWay(C2)),
            Row::Stands(C1, Some(Held)),
            Row::Stands(C2, Some(Held)),
        ],
    ),
    (
        "a claim waits for an extension",
        &[
            Row::Ask(C1, &[(Look, 3)], Held),
            Row::Ask(C2, &[(Look, 4)], Held),
            Row::Ask(C3, &[(Change, 2)], Queued(C1)),
            Row::Extend(C2, &[(Look, 4), (Change, 4)], Done),
            Row::Stands(C3, Some(Queued(C2))),
        ],
    ),
    (
        "an extension is not weighed against the waiting",
        &[
            Row::Ask(C1, &[(Change, 2)], Held),
            Row::Ask(C2, &[(Look, 1)], Queued(C1)),
            Row::Ask(C3, &[(Look, 0)], Queued(C1)),
            Row::Extend(C1, &[(Change, 2), (Look, 1)], Done),
            Row::Stands(C2, Some(Queued(C1))),
            Row::Stands(C3, Some(Queued(C1))),
        ],
    ),
    (
        "a claim put first is not weighed",
        &[
            Row::Ask(C1, &[(Look, 3)], Held),
            Row::Ask(C2, &[(Look, 3)], Held),
            Row::PutFirst(C2, &[(Change, 3)]),
            Row::Stands(C2, Some(Held)),
            Row::Stands(C1, Some(Queued(C2))),
        ],
    ),
    (
        "held claims cover what lies under them",
        &[
            Row::Ask(C1, &[(Look, 1)], Held),
            Row::Covered(2, Some(C1)),
            Row::Covered(0, None),
        ],
    ),
    (
        "groups of a line",
        &[
            Row::Ask(C1, &[(Look, 1)], Held),
            Row::Ask(C2, &[(Change, 2)], Queued(C1)),
            Row::Ask(C3, &[(Look, 2)], Queued(C2)),
            Row::Groups(0, Some(IX), Some(IS)),
            Row::Groups(1, Some(SIX), Some(S)),
            Row::Groups(2, Some(X), None),
            Row::Groups(3, None, None),
            Row::Groups(9, None, None),
            Row::Release(C1),
            Row::Groups(1, Some(IX), Some(IX)),
            Row::Groups(2, Some(X), Some(X)),
        ],
    ),
    (
        "short claims leave together",
        &[
            Row::Ask(H1, &[(Look, 1)], Held),
            Row::Ask(C1, &[(Change, 2)], Queued(H1)),
            Row::Ask(H2, &[(Look, 3)], Queued(C1)),
            Row::Ask(C2, &[(Look, 2)], Queued(C1)),
            Row::ReleaseShort,
            Row::Stands(H1, None),
            Row::Stands(H2, None),
            Row::Stands(C1, Some(Held)),
            Row::Stands(C2, Some(Queued(C1))),
            Row::Groups(0, Some(IX), Some(IX)),
            Row::Groups(1, Some(IX), Some(IX)),
            Row::Groups(2, Some(X), Some(X)),
            Row::Groups(3, None, None),
            Row::Ask(H1, &[(Look, 3)], Queued(C1)),
        ],
    ),
    (
        "a claim sent back is counted as held no more",
        &[
            Row::Ask(C1, &[(Look, 2)], Held),
            Row::Ask(C2, &[(Look, 2)], Held),
            Row::Ask(C3, &[(Change, 2)], Queued(C1)),
            Row::PutFirst(C2, &[(Change, 2)]),
            Row::Stands(C1, Some(Queued(C2))),
            Row::Stands(C3, Some(Queued(C2))),
            Row::Groups(2, Some(X), Some(X)),
            Row::Groups(1, Some(IX), Some(IX)),
            Row::Release(C2),
            Row::Groups(2, Some(X), Some(S)),
            Row::Stands(C3, Some(Queued(C1))),
            Row::Release(C1),
            Row::Groups(2, Some(X), Some(X)),
            Row::Release(C3),
            Row::Groups(2, None, None),
        ],
    ),
];

#[test]
fn worked_tables(rt: HostRuntime) {
    let tree = tree_of(&rt, rt.alloc(), &SMALL);
    for worked in &TABLES {
        drop(table_behind(&rt, rt.alloc(), &tree, *worked));
    }
    drop(tree);
}
