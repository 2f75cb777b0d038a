mod calls;
mod refused;

use crate::places::{
    Chain, SMALL, SMALL_CHAINS, Wish, are_there, items_of, overlap, reach_of, tree_of,
};
use Intent::{Change, Look};
use Kind::{Assembly, Part, Project};
use Mode::{IS, IX, S, SIX, X};
use design_tree::Tree;
use lock_modes::Mode;
use lock_table::{LockSet, lock_set};
use std::alloc::Global;
use std::process::Abort;
use vault_state::{Intent, Kind, PlaceId};

fn locks_of(rt: &impl Abort, tree: &Tree, wishes: &[Wish]) -> LockSet {
    let items = items_of(rt, wishes);
    assert!(rt; are_there(tree, items.as_slice()));
    lock_set(tree, items.as_slice())
}

/// A place, and its mode in a lock set.
type Locked = (u32, Option<Mode>);

/// A name, a tree, wishes, the number of their locks, and some of these.
static LOCKS: [(&str, &[Chain], &[Wish], usize, &[Locked]); 2] = [
    (
        "a look at an assembly and a change of a part",
        &SMALL_CHAINS,
        &[(Look, 2), (Change, 3)],
        4,
        &[
            (0, Some(IX)),
            (1, Some(IX)),
            (2, Some(SIX)),
            (3, Some(X)),
            (4, None),
        ],
    ),
    (
        "eight parts fill the room",
        &[
            (0, "a", &DEEP),
            (0, "b", &DEEP),
            (0, "c", &DEEP),
            (0, "d", &DEEP),
            (0, "e", &DEEP),
            (0, "f", &DEEP),
            (0, "g", &DEEP),
            (0, "h", &DEEP),
        ],
        &[
            (Look, 7),
            (Look, 14),
            (Look, 21),
            (Look, 28),
            (Look, 35),
            (Look, 42),
            (Look, 49),
            (Look, 56),
        ],
        57,
        &[(0, Some(IS)), (55, Some(IS)), (56, Some(S))],
    ),
];

/// A part at the greatest depth, in assemblies in a project of its own.
const DEEP: [Kind; 7] = [
    Project, Assembly, Assembly, Assembly, Assembly, Assembly, Part,
];

// Whether these wishes have this number of locks, with these modes.
fn are_locks(
    rt: &impl Abort,
    tree: &Tree,
    wishes: &[Wish],
    count: usize,
    modes: &[Locked],
) -> bool {
    let locks = locks_of(rt, tree, wishes);
    let mut holds = locks.as_slice().len() == count;
    for (place, mode) in modes {
        holds &= locks.mode_at(PlaceId(*place)) == *mode;
    }
    drop(locks);
    holds
}

#[test]
fn worked_lock_sets(rt: HostRuntime) {
    for (name, chains, wishes, count, modes) in &LOCKS {
        let tree = tree_of(&rt, rt.alloc(), chains);
        assert!(rt; are_locks(&rt, &tree, wishes, *count, modes), "{name}");
        drop(tree);
    }
}

static WISHES: [Wish; 10] = [
    (Look, 0),
    (Look, 1),
    (Look, 2),
    (Look, 3),
    (Look, 4),
    (Change, 0),
    (Change, 1),
    (Change, 2),
    (Change, 3),
    (Change, 4),
];

// Whether the lock sets of two wishes conflict exactly if one changes a place that the other looks at.
fn agree(rt: &impl Abort, tree: &Tree, one: Wish, other: Wish) -> bool {
    let locks = locks_of(rt, tree, &[one]);
    let others = locks_of(rt, tree, &[other]);
    let found = locks.conflicts(&others);
    drop(others);
    drop(locks);
    let reach = reach_of(tree, items_of(rt, &[one]).as_slice());
    found == overlap(reach, reach_of(tree, items_of(rt, &[other]).as_slice()))
}

// The same for one wish and each of all.
fn all_agree(rt: &impl Abort, alloc: Global, one: Wish) -> bool {
    let tree = tree_of(rt, alloc, &SMALL);
    let mut holds = true;
    for other in &WISHES {
        holds &= agree(rt, &tree, one, *other);
    }
    drop(tree);
    holds
}

#[test]
fn modes_agree_with_overlap(rt: HostRuntime) {
    for (intent, place) in &WISHES {
        assert!(rt;
            all_agree(&rt, rt.alloc(), (*intent, *place)),
            "{intent:?} {place}"
        );
    }
}
