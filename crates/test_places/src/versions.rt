//! What is done to a shelf of versions, and what it has to show.

use Step::{Appends, Copies, Counts, Fetches, IsLimit, Spells, Weighs};
use part_versions::{NotAppended, Shelf};
use std::alloc::{Allocator, Global};
use std::process::Abort;
use test_memory::{Outcome, Refusing};
use vault_model::{Draft, Drafts, Listing, PlaceId};

/// A number of drafts, their place, the first bytes of each content, and its length: the rest of it is `x`.
pub(crate) type Saved = (usize, u32, &'static [u8], usize);

/// What is done to a shelf, or looked at.
pub(crate) enum Step {
    /// Drafts are appended.
    Appends(&'static [Saved]),
    /// Drafts are refused at a limit, and come back.
    IsLimit(&'static [Saved]),
    /// A copy shows the same.
    Copies,
    /// A place's version of this number has this content, if there is one.
    Fetches(u32, u32, Option<&'static [u8]>),
    /// A place's versions have this spelling, one after another.
    Spells(u32, &'static [u8]),
    /// A place has this number of versions.
    Counts(u32, u32),
    /// The weight of all versions, and the number of places up to the last that has a version.
    Weighs(usize, usize),
}

/// The drafts of rows.
fn drafts_of(rt: &impl Abort, alloc: Global, rows: &[Saved]) -> Drafts<Global> {
    let mut drafts = Vec::new(alloc);
    for (count, place, text, len) in rows {
        for _ in 0..*count {
            let mut content = vec![in alloc; b'x'; *len].expect(rt, "memory");
            assert!(rt; text.len() <= content.len());
            content[..text.len()].copy_from_slice(text);
            let draft = Draft {
                place: PlaceId(*place),
                content: Listing::from_vec(content),
            };
            assert!(rt; drafts.push(draft).is_ok());
        }
    }
    Listing::from_vec(drafts)
}

/// Whether drafts are those of rows.
fn are_drafts(rt: &impl Abort, alloc: Global, drafts: Drafts<Global>, rows: &[Saved]) -> bool {
    let same = drafts_of(rt, alloc, rows);
    let are_same = drafts == same;
    drop(drafts);
    drop(same);
    are_same
}

/// Tries to append drafts; `is_limit` says whether a limit must refuse them. Refused drafts must come back.
fn appends<A: Allocator + Copy>(
    rt: &impl Abort,
    alloc: Global,
    shelf: &mut Shelf<A>,
    rows: &[Saved],
    is_limit: bool,
) -> Outcome {
    match shelf.append_all(drafts_of(rt, alloc, rows)) {
        Ok(()) => Outcome::done(!is_limit),
        Err(NotAppended::Limit(back)) => {
            Outcome::done(are_drafts(rt, alloc, back, rows) && is_limit)
        }
        Err(NotAppended::NoMemory(back)) => Outcome::refused(are_drafts(rt, alloc, back, rows)),
    }
}

/// Whether two shelves answer alike about the first eight places.
fn is_same<A: Allocator, B: Allocator>(one: &Shelf<A>, other: &Shelf<B>) -> bool {
    for number in 0..64 {
        let (place, version) = (PlaceId(number / 8), number % 8);
        if one.count(place) != other.count(place)
            || one.fetch(place, version) != other.fetch(place, version)
        {
            return false;
        }
    }
    one.weight() == other.weight()
}

/// Tries to copy a shelf.
fn copies<A: Allocator + Copy>(shelf: &Shelf<A>) -> Outcome {
    let Ok(copy) = shelf.copy() else {
        return Outcome::Refused;
    };
    let is_copied = is_same(&copy, shelf);
    drop(copy);
    Outcome::done(is_copied)
}

/// Tries a step.
fn does<A: Allocator + Copy>(
    rt: &impl Abort,
    alloc: Global,
    shelf: &mut Shelf<A>,
    step: &Step,
) -> Outcome {
    match *step {
        Appends(rows) => appends(rt, alloc, shelf, rows, false),
        IsLimit(rows) => appends(rt, alloc, shelf, rows, true),
        Copies => copies(shelf),
        Fetches(place, version, want) => Outcome::done(
            shelf.fetch(PlaceId(place), version) == want,
        ),
        Spells(place, want) => Outcome::done(shelf.spelled(PlaceId(place)) == want),
        Counts(place, want) => Outcome::done(shelf.count(PlaceId(place)) == want),
        Weighs(weight, len) => Outcome::done(shelf.weight() == weight && shelf.len() == len),
    }
}

/// Does all steps to a new shelf.
fn does_all(rt: &impl Abort, alloc: Global, steps: &[Step]) {
    let mut shelf = Shelf::new(alloc);
    for (index, step) in steps.iter().enumerate() {
        let tried = does(rt, alloc, &mut shelf, step);
        assert!(rt; tried == Outcome::Done, "step {index}");
    }
    drop(shelf);
}

#[test]
fn versions_are_fetched(rt: HostRuntime) {
    does_all(&rt, rt.alloc(), &FETCHED);
}

#[test]
fn long_contents_are_refused(rt: HostRuntime) {
    does_all(&rt, rt.alloc(), &LONG);
}

#[test]
fn weight_is_limited(rt: HostRuntime) {
    does_all(&rt, rt.alloc(), &HEAVY);
}

#[test]
fn versions_are_limited(rt: HostRuntime) {
    does_all(&rt, rt.alloc(), &MANY);
}

/// Versions of two places.
static FETCHED: [Step; 26] = [
    Weighs(0, 0),
    Appends(&[(1, 3, b"ab", 2)]),
    Fetches(3, 1, Some(b"ab")),
    Counts(3, 1),
    Weighs(10, 4),
    Appends(&[(1, 3, b"c", 1), (1, 1, b"", 0), (1, 3, b"", 0)]),
    Fetches(3, 0, None),
    Fetches(3, 1, Some(b"ab")),
    Fetches(3, 2, Some(b"c")),
    Fetches(3, 3, Some(b"")),
    Fetches(3, 4, None),
    Fetches(1, 1, Some(b"")),
    Fetches(1, 2, None),
    Fetches(0, 1, None),
    Fetches(2, 1, None),
    Fetches(4, 1, None),
    Spells(1, b"\0\0"),
    Spells(3, b"\0\x02ab\0\x01c\0\0"),
    Spells(2, b""),
    Spells(4, b""),
    Counts(0, 0),
    Counts(1, 1),
    Counts(2, 0),
    Counts(3, 3),
    Counts(4, 0),
    Weighs(35, 4),
];

/// A content that is too long, and the longest.
static LONG: [Step; 4] = [
    IsLimit(&[(1, 3, b"", 1025)]),
    Weighs(0, 0),
    Appends(&[(1, 3, b"", 1024)]),
    Weighs(1032, 4),
];

/// As much as a shelf may hold, and more.
static HEAVY: [Step; 10] = [
    Appends(&[(16256, 3, b"", 1024)]),
    Weighs(16_776_192, 4),
    IsLimit(&[(1, 4, b"", 1017)]),
    Counts(4, 0),
    Appends(&[(1, 4, b"", 1016)]),
    Weighs(16_777_216, 5),
    IsLimit(&[(1, 5, b"", 0)]),
    Weighs(16_777_216, 5),
    Counts(3, 16256),
    Counts(4, 1),
];

/// As many versions as a place may have. One more is refused, also after a draft of another place; that draft is refused with it.
static MANY: [Step; 11] = [
    IsLimit(&[(65536, 3, b"", 0)]),
    Counts(3, 0),
    Appends(&[(65535, 3, b"", 0)]),
    Counts(3, 65535),
    Fetches(3, 65535, Some(b"")),
    Fetches(3, 65536, None),
    IsLimit(&[(1, 4, b"a", 1), (1, 3, b"", 0)]),
    Counts(4, 0),
    Appends(&[(1, 4, b"a", 1)]),
    Counts(4, 1),
    Weighs(65535 * 8 + 9, 5),
];

/// Tries a step after others. A twin in ample memory takes the same steps. If the step is refused, the shelf must be as its twin
/// still, and the next try must succeed. At the end both must be the same.
pub(crate) fn does_from(
    rt: &impl Abort,
    memory: &Refusing<Global>,
    alloc: Global,
    (start, step): (&[Saved], &Step),
    number: u64,
) -> Outcome {
    let mut shelf = Shelf::new(memory);
    let mut ample = Shelf::new(alloc);
    let is_ready = appends(rt, alloc, &mut shelf, start, false) == Outcome::Done
        && appends(rt, alloc, &mut ample, start, false) == Outcome::Done;
    memory.refuse(number);
    let tried = does(rt, alloc, &mut shelf, step);
    let is_refused = tried == Outcome::Refused;
    let is_told = memory.has_refused() == is_refused;
    let is_kept = !is_refused
        || (is_same(&shelf, &ample) && does(rt, alloc, &mut shelf, step) == Outcome::Done);
    let is_like = does(rt, alloc, &mut ample, step) == Outcome::Done && is_same(&shelf, &ample);
    drop(shelf);
    drop(ample);
    tried.and(is_ready && is_told && is_kept && is_like)
}

/// Tries to make a shelf.
pub(crate) fn makes(memory: &Refusing<Global>) -> Outcome {
    let shelf = Shelf::new(memory);
    let is_new = shelf.weight() == 0 && shelf.len() == 0;
    drop(shelf);
    Outcome::done(is_new)
}
