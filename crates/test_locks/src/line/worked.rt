//! Worked lines, by rows.
use super::calls::{Listed, Row, line_behind};
use super::{C1, C2, C3, H1, H2};
use crate::places::{SMALL, Worked, tree_of};
use Intent::{Change, Look};
use Standing::{Held, Queued};
use lock_table::Extension;
use long_locks::FromClaimsError;
use std::alloc::Global;
use std::process::Abort;
use test_memory::Refusing;
use vault_state::{ClaimId, Intent, Standing};

static LINES: [Worked<Row>; 11] = [
    ("a new line", &[Row::Counts(0, 0, 0)]),
    (
        "long and short claims",
        &[
            Row::Hold(2, &[(Look, 3)], Held),
            Row::CheckOut(&[(Change, 3)], Queued(H1)),
            Row::Drop(H1),
            Row::Stands(C1, Some(Held)),
            Row::Hold(2, &[(Look, 3)], Queued(C1)),
            Row::Counts(2, 1, 2),
            Row::DropSession(2),
            Row::Stands(H2, None),
            Row::Counts(1, 1, 2),
        ],
    ),
    (
        "short claims end with the life",
        &[
            Row::Hold(2, &[(Change, 2)], Held),
            Row::CheckOut(&[(Look, 3)], Queued(H1)),
            Row::Restart,
            Row::Stands(C1, Some(Held)),
            Row::Stands(H1, None),
            Row::Counts(1, 1, 0),
        ],
    ),
    (
        "an extension is not weighed against the waiting",
        &[
            Row::CheckOut(&[(Change, 2)], Held),
            Row::CheckOut(&[(Look, 1)], Queued(C1)),
            Row::CheckOut(&[(Look, 0)], Queued(C1)),
            Row::Extend(C1, &[(Change, 2), (Look, 1)], Extension::Done),
            Row::Stands(C1, Some(Held)),
            Row::Stands(C2, Some(Queued(C1))),
            Row::Stands(C3, Some(Queued(C1))),
        ],
    ),
    (
        "extensions of held claims",
        &[
            Row::CheckOut(&[(Look, 3)], Held),
            Row::CheckOut(&[(Look, 3)], Held),
            Row::Extend(C1, &[(Look, 3), (Change, 3)], Extension::InTheWay(C2)),
            Row::Stands(C1, Some(Held)),
            Row::Stands(C2, Some(Held)),
            Row::CheckOut(&[(Change, 2)], Queued(C1)),
            Row::Extend(C2, &[(Look, 3), (Change, 4)], Extension::Done),
            Row::Stands(C3, Some(Queued(C2))),
            Row::At(0, C2, "anna", &[(Look, 3), (Change, 4)], ""),
        ],
    ),
    (
        "held claims cover places",
        &[
            Row::CheckOut(&[(Look, 1)], Held),
            Row::Covered(2, Some(C1)),
            Row::Covered(0, None),
        ],
    ),
    (
        "a claim put first is not weighed",
        &[
            Row::CheckOut(&[(Look, 3)], Held),
            Row::CheckOut(&[(Look, 3)], Held),
            Row::PutFirst(C2, &[(Look, 3), (Change, 3)]),
            Row::At(0, C2, "anna", &[(Look, 3), (Change, 3)], ""),
            Row::Stands(C1, Some(Queued(C2))),
        ],
    ),
    (
        "a check-out is given and noted in its place with no memory, and one that is not there is not",
        &[
            Row::CheckOut(&[(Change, 2)], Held),
            Row::CheckOut(&[(Look, 3)], Queued(C1)),
            Row::NoMemoryFrom,
            Row::Give(2, "ben"),
            Row::SetNote(2, "next"),
            Row::Give(3, "ben"),
            Row::SetNote(3, "next"),
            Row::NoMemoryTo,
            Row::At(1, C2, "ben", &[(Look, 3)], "next"),
            Row::At(0, C1, "anna", &[(Change, 2)], ""),
            Row::Counts(2, 2, 0),
            Row::Stands(C1, Some(Held)),
            Row::Stands(C2, Some(Queued(C1))),
        ],
    ),
    (
        "a line is made of claims in their order",
        &[Row::FromClaims(7, &THREE, None)],
    ),
    (
        "what no line has is told with no memory",
        &[
            Row::NoMemoryFrom,
            Row::FromClaims(4, &THREE, NOT_WELL_FORMED),
            Row::NoMemoryTo,
        ],
    ),
    (
        "a claim beside the last one: right, above the last, none, given twice, of no place, of nothing, a short one",
        &[
            Row::FromClaims(7, &[LAST, (C1, &[(Look, 4)], Held)], None),
            Row::FromClaims(
                7,
                &[LAST, (ClaimId::Long(8), &[(Look, 4)], Held)],
                NOT_WELL_FORMED,
            ),
            Row::FromClaims(
                7,
                &[LAST, (ClaimId::Long(0), &[(Look, 4)], Held)],
                NOT_WELL_FORMED,
            ),
            Row::FromClaims(
                7,
                &[LAST, (ClaimId::Long(7), &[(Look, 4)], Held)],
                NOT_WELL_FORMED,
            ),
            Row::FromClaims(7, &[LAST, (C1, &[(Look, 5)], Held)], NOT_WELL_FORMED),
            Row::FromClaims(7, &[LAST, (C1, &[], Held)], NOT_WELL_FORMED),
            Row::FromClaims(7, &[LAST, (H1, &[(Look, 4)], Held)], NOT_WELL_FORMED),
        ],
    ),
];

/// Three claims, not by number.
pub(super) const THREE: [Listed; 3] = [
    (C2, &[(Look, 3)], Held),
    (C1, &[(Change, 3)], Queued(C2)),
    (ClaimId::Long(5), &[(Look, 4)], Held),
];

/// The check-out with the last number.
const LAST: Listed = (ClaimId::Long(7), &[(Look, 3)], Held);

const NOT_WELL_FORMED: Option<FromClaimsError> = Some(FromClaimsError::NotWellFormed);

// Makes lines that answer so.
fn work(rt: &impl Abort, memory: &Refusing<Global>, ample: &Refusing<Global>) {
    let tree = tree_of(rt, ample, &SMALL);
    for worked in &LINES {
        drop(line_behind(rt, (memory, ample), &tree, *worked));
    }
    drop(tree);
}

#[test]
fn worked_lines(rt: HostRuntime) {
    let memory = Refusing::new(rt.alloc());
    let ample = Refusing::new(rt.alloc());
    work(&rt, &memory, &ample);
}
