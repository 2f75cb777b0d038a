use Mode::{IS, IX, S, SIX, X};
use lock_modes::{Group, Mode};

// Two modes, whether they are compatible, whether the first is at least the second, and their join.
static TABLE: [(Mode, Mode, bool, bool, Mode); 25] = [
    (IS, IS, true, true, IS),
    (IS, IX, true, false, IX),
    (IS, S, true, false, S),
    (IS, SIX, true, false, SIX),
    (IS, X, false, false, X),
    (IX, IS, true, true, IX),
    (IX, IX, true, true, IX),
    (IX, S, false, false, SIX),
    (IX, SIX, false, false, SIX),
    (IX, X, false, false, X),
    (S, IS, true, true, S),
    (S, IX, false, false, SIX),
    (S, S, true, true, S),
    (S, SIX, false, false, SIX),
    (S, X, false, false, X),
    (SIX, IS, true, true, SIX),
    (SIX, IX, false, true, SIX),
    (SIX, S, false, true, SIX),
    (SIX, SIX, false, true, SIX),
    (SIX, X, false, false, X),
    (X, IS, false, true, X),
    (X, IX, false, true, X),
    (X, S, false, true, X),
    (X, SIX, false, true, X),
    (X, X, false, true, X),
];

// Whether a row is true of its two modes.
fn is_so(row: &(Mode, Mode, bool, bool, Mode)) -> bool {
    let (m, n, compatible, at_least, join) = *row;
    m.compatible(n) == compatible && m.at_least(n) == at_least && m.join(n) == join
}

#[test]
fn matrix_order_and_join(rt: HostRuntime) {
    for row in &TABLE {
        assert!(rt; is_so(row), "{:?} and {:?}", row.0, row.1);
    }
}

// Whether a group of two IS and one IX has the right mode and admits the right modes, and again without the IX.
fn groups_intentions() -> bool {
    let mut group = Group::empty();
    let is_empty = group.mode() == None;
    group.add(IS);
    group.add(IS);
    group.add(IX);
    let is_full = group.mode() == Some(IX) && group.admits(IX) && !group.admits(S);
    group.remove(IX);
    is_empty && is_full && group.admits(SIX)
}

#[test]
fn group_of_intentions(rt: HostRuntime) {
    assert!(rt; groups_intentions());
}
