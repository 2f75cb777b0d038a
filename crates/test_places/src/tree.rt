//! What is done to a tree of places, and what it has to show.
ghost use Rattle.std.specs.Prelude.{◌≤◌, length};

use Step::{
    Adds, Counts, Has, HasChild, HasNames, Is, IsFull, IsUnder, Lacks, MayHave, Projects, Pushes,
    Small,
};
use design_tree::AddError::{Exists, Limit, WrongKind};
use design_tree::{AddError, Tree};
use std::alloc::{Allocator, Global};
use test_memory::{Outcome, Refusing};
use vault_model::Kind::{Assembly, Library, Part, Project};
use vault_model::{Kind, Name, NoMemory, Path, PlaceId};

/// What is done to a place of a tree, or looked at.
pub(crate) enum Step {
    /// The project `/e`, its assembly `/e/b`, and two parts `/e/b/p1` and `/e/b/p2` are made: places 1 to 4.
    Small,
    /// This number of projects is made.
    Projects(u8),
    /// A child is added, or refused.
    Adds(&'static [u8], Kind, Result<u32, AddError>),
    /// A child that may be made is pushed.
    Pushes(&'static [u8], Kind, u32),
    /// The place has this path, parent and kind, and is found by the path.
    Is(&'static [u8], Option<u32>, Kind),
    /// The place has these children.
    Has(&'static [u32]),
    /// Its children have the names of this path.
    HasNames(&'static [u8]),
    /// It has this child by a name.
    HasChild(&'static [u8], Option<u32>),
    /// Whether it is another, or lies under it.
    IsUnder(u32, bool),
    /// Whether an assembly may be asked for under it, whether it may have a part, and the kind that is made
    /// under it by default.
    MayHave(bool, bool, Kind),
    /// It is full, with this number of children.
    IsFull(usize),
    /// The tree has this number of places, with the library.
    Counts(usize),
    /// There is no place by this path.
    Lacks(&'static [u8]),
}

/// The number of a place, and what is done to it.
pub(crate) type Row = (u32, Step);

/// Tries to add a child. A new one must get the old count of places as its number; a refused one must leave
/// that count as it was.
fn adds<A: Allocator + Copy>(
    tree: &mut Tree<A>,
    parent: u32,
    text: &[u8],
    kind: Kind,
    want: Result<u32, AddError>,
) -> Outcome {
    let Some(name) = Name::read(text) else {
        return Outcome::Wrong;
    };
    let count = tree.len();
    if parent as usize >= count {
        return Outcome::Wrong;
    }
    match tree.add(PlaceId(parent), name, kind) {
        Ok(place) => Outcome::done(want == Ok(place.number()) && place.number() as usize == count),
        Err(AddError::NoMemory) => Outcome::Refused,
        Err(error) => Outcome::done(want == Err(error) && tree.len() == count),
    }
}

/// Tries to make the small tree, in a new one.
fn adds_small<A: Allocator + Copy>(tree: &mut Tree<A>) -> Outcome {
    for (place, parent, text, kind) in &SMALL {
        let tried = adds(tree, *parent, text, *kind, Ok(*place));
        if tried != Outcome::Done {
            return tried;
        }
    }
    Outcome::done(tree.len() == 5)
}

/// The places of the small tree: the parent, the name and the kind of each.
static SMALL: [(u32, u32, &[u8], Kind); 4] = [
    (1, 0, b"e", Project),
    (2, 1, b"b", Assembly),
    (3, 2, b"p1", Part),
    (4, 2, b"p2", Part),
];

/// Tries to make this number of projects, 63 at most, in a tree of five places at most.
fn adds_projects<A: Allocator + Copy>(tree: &mut Tree<A>, count: u8) -> Outcome {
    let first = tree.len();
    if first > 5 {
        return Outcome::Wrong;
    }
    for index in 0..count.min(63) {
        let number = index + 1;
        let name = [b'a' + number / 8, b'0' + number % 8];
        let place = first as u32 + u32::from(index);
        let tried = adds(tree, 0, &name, Project, Ok(place));
        if tried != Outcome::Done {
            return tried;
        }
    }
    Outcome::Done
}

/// Tries to push a child that may be made.
fn pushes<A: Allocator + Copy>(
    tree: &mut Tree<A>,
    parent: PlaceId,
    text: &[u8],
    kind: Kind,
    want: u32,
) -> Outcome
    requires { parent ≤ length tree.old }
{
    let Some(name) = Name::read(text) else {
        return Outcome::Wrong;
    };
    let may_have = tree.may_have(parent, kind);
    if !may_have || tree.is_full(parent) || tree.child(parent, &name).is_some() {
        return Outcome::Wrong;
    }
    match tree.push(parent, name, kind) {
        Ok(place) => Outcome::done(place.number() == want),
        Err(NoMemory) => Outcome::Refused,
    }
}

/// The place of this number, if there is one.
fn placed(number: Option<u32>) -> Option<PlaceId> {
    Some(PlaceId(number?))
}

/// Whether a place has this path, parent and kind, and room for a child, and is found by the path.
fn is_place<A: Allocator>(
    tree: &Tree<A>,
    place: PlaceId,
    text: &[u8],
    parent: Option<u32>,
    kind: Kind,
) -> bool
    requires { place ≤ length tree.now }
{
    let Some(path) = Path::read(text) else {
        return false;
    };
    tree.find(&path) == Some(place)
        && tree.find_names(path.names()) == Some(place)
        && tree.path_of(place) == path
        && tree.parent(place) == placed(parent)
        && tree.name_of(place) == path.names().last().copied()
        && tree.kind(place) == kind
        && tree.is_part(place) == (kind == Part)
        && !tree.is_full(place)
}

/// Whether places have these numbers.
fn are_numbered(places: &[PlaceId], numbers: &[u32]) -> bool {
    if places.len() != numbers.len() {
        return false;
    }
    for (index, place) in places.iter().enumerate() {
        if place.number() != numbers[index] {
            return false;
        }
    }
    true
}

/// Tries to list the children of a place.
fn has_children<A: Allocator + Copy>(tree: &Tree<A>, place: PlaceId, want: &[u32]) -> Outcome
    requires { place ≤ length tree.now }
{
    let Ok(children) = tree.children(place) else {
        return Outcome::Refused;
    };
    let are_so = are_numbered(children.as_slice(), want);
    drop(children);
    Outcome::done(are_so)
}

/// Tries to list the children of a place, which must be full with this number of them.
fn is_full<A: Allocator + Copy>(tree: &Tree<A>, place: PlaceId, want: usize) -> Outcome
    requires { place ≤ length tree.now }
{
    let Ok(children) = tree.children(place) else {
        return Outcome::Refused;
    };
    let count = children.len();
    drop(children);
    Outcome::done(count == want && tree.is_full(place))
}

/// Tries to list the names of a place's children.
fn has_names<A: Allocator + Copy>(tree: &Tree<A>, place: PlaceId, text: &[u8]) -> Outcome
    requires { place ≤ length tree.now }
{
    let Some(want) = Path::read(text) else {
        return Outcome::Wrong;
    };
    let Ok(names) = tree.names_under(place) else {
        return Outcome::Refused;
    };
    let are_so = names.as_slice() == want.names();
    drop(names);
    Outcome::done(are_so)
}

/// Whether a place has this child by a name.
fn has_child<A: Allocator>(tree: &Tree<A>, place: PlaceId, text: &[u8], want: Option<u32>) -> bool
    requires { place ≤ length tree.now }
{
    let Some(name) = Name::read(text) else {
        return false;
    };
    tree.child(place, &name) == placed(want)
}

/// Whether there is no place by this path.
fn is_nowhere<A: Allocator>(tree: &Tree<A>, text: &[u8]) -> bool {
    let Some(path) = Path::read(text) else {
        return false;
    };
    tree.find(&path).is_none()
}

/// Tries a step.
fn does<A: Allocator + Copy>(tree: &mut Tree<A>, row: &Row) -> Outcome {
    let (number, step) = row;
    if *number as usize >= tree.len() {
        return Outcome::Wrong;
    }
    let place = PlaceId(*number);
    match *step {
        Small => adds_small(tree),
        Projects(count) => adds_projects(tree, count),
        Adds(text, kind, want) => adds(tree, *number, text, kind, want),
        Pushes(text, kind, want) => pushes(tree, place, text, kind, want),
        Is(text, parent, kind) => Outcome::done(is_place(tree, place, text, parent, kind)),
        Has(want) => has_children(tree, place, want),
        HasNames(text) => has_names(tree, place, text),
        HasChild(text, want) => Outcome::done(has_child(tree, place, text, want)),
        IsUnder(top, want) => Outcome::done(tree.is_under(place, PlaceId(top)) == want),
        MayHave(nests, parts, kind) => Outcome::done(
            tree.may_nest_under(place) == nests
                && tree.may_have(place, Part) == parts
                && tree.kind_under(place) == kind,
        ),
        IsFull(count) => is_full(tree, place, count),
        Counts(count) => Outcome::done(tree.len() == count),
        Lacks(text) => Outcome::done(is_nowhere(tree, text)),
    }
}

/// The number of steps that are done before the first that isn't.
fn does_all<A: Allocator + Copy>(tree: &mut Tree<A>, steps: &[Row]) -> usize {
    for (index, row) in steps.iter().enumerate() {
        if does(tree, row) != Outcome::Done {
            return index;
        }
    }
    steps.len()
}

#[test]
fn trees_answer(rt: HostRuntime) {
    for (name, steps, looks) in &STORIES {
        let mut tree = Tree::new(rt.alloc()).expect(&rt, "memory");
        let done = (does_all(&mut tree, steps), does_all(&mut tree, looks));
        drop(tree);
        assert_eq!(rt; done, (steps.len(), looks.len()), "{name}");
    }
}

/// What the small tree shows.
const SHOWN: &[Row] = &[
    (0, Counts(5)),
    (0, Is(b"/", None, Library)),
    (1, Is(b"/e", Some(0), Project)),
    (2, Is(b"/e/b", Some(1), Assembly)),
    (3, Is(b"/e/b/p1", Some(2), Part)),
    (4, Is(b"/e/b/p2", Some(2), Part)),
    (0, Has(&[1])),
    (1, Has(&[2])),
    (2, Has(&[3, 4])),
    (3, Has(&[])),
    (4, Has(&[])),
];

/// What is done to a new tree, step by step, and what it shows then.
static STORIES: [(&str, &[Row], &[Row]); 5] = [
    (
        "a small tree",
        &[
            (0, Small),
            (0, Lacks(b"/e/b/p3")),
            (0, Lacks(b"/b")),
            (2, HasChild(b"p2", Some(4))),
            (1, HasChild(b"p2", None)),
            (3, IsUnder(3, true)),
            (3, IsUnder(2, true)),
            (3, IsUnder(1, true)),
            (3, IsUnder(0, true)),
            (3, IsUnder(4, false)),
            (2, IsUnder(3, false)),
            (0, IsUnder(1, false)),
        ],
        SHOWN,
    ),
    (
        "additions are refused in order",
        &[
            (0, Small),
            (3, Adds(b"p1", Part, Err(WrongKind))),
            (3, Adds(b"p1", Assembly, Err(WrongKind))),
            (0, Adds(b"p1", Library, Err(WrongKind))),
            (0, Adds(b"p1", Assembly, Err(WrongKind))),
            (0, Adds(b"p1", Part, Err(WrongKind))),
            (1, Adds(b"p1", Project, Err(WrongKind))),
            (1, Adds(b"p1", Part, Err(WrongKind))),
            (2, Adds(b"p1", Library, Err(WrongKind))),
            (2, Adds(b"p1", Project, Err(WrongKind))),
            (0, Counts(5)),
            (2, Adds(b"p1", Part, Err(Exists))),
        ],
        SHOWN,
    ),
    (
        "a place is pushed",
        &[(0, Small), (2, Pushes(b"p3", Part, 5))],
        &[(5, Is(b"/e/b/p3", Some(2), Part))],
    ),
    (
        "assemblies stand down to the sixth name",
        &[
            (0, MayHave(false, false, Project)),
            (0, Adds(b"x", Project, Ok(1))),
            (1, MayHave(false, false, Assembly)),
            (1, Adds(b"x", Assembly, Ok(2))),
            (2, MayHave(true, true, Part)),
            (2, Adds(b"x", Assembly, Ok(3))),
            (3, MayHave(true, true, Part)),
            (3, Adds(b"x", Assembly, Ok(4))),
            (4, MayHave(true, true, Part)),
            (4, Adds(b"x", Assembly, Ok(5))),
            (5, MayHave(true, true, Part)),
            (5, Adds(b"x", Assembly, Ok(6))),
            (6, MayHave(false, true, Part)),
            (6, Adds(b"x", Part, Ok(7))),
        ],
        &[
            (0, Counts(8)),
            (6, Is(b"/x/x/x/x/x/x", Some(5), Assembly)),
            (7, Is(b"/x/x/x/x/x/x/x", Some(6), Part)),
            (7, MayHave(false, false, Part)),
            (7, IsUnder(1, true)),
        ],
    ),
    (
        "a place has at most 64 children",
        &[
            (0, Small),
            (0, Projects(63)),
            (0, IsFull(64)),
            (0, Adds(b"x", Project, Err(Limit))),
            (0, Adds(b"e", Project, Err(Exists))),
        ],
        &[(0, IsFull(64)), (0, Counts(68))],
    ),
];

/// Whether a place has the same path and the same children in two trees.
fn is_alike<A: Allocator + Copy, B: Allocator + Copy>(
    one: &Tree<A>,
    other: &Tree<B>,
    place: PlaceId,
) -> bool
    requires { (place ≤ length one.now) × (place ≤ length other.now) }
{
    let Ok(children) = one.children(place) else {
        return false;
    };
    let Ok(others) = other.children(place) else {
        drop(children);
        return false;
    };
    let has_same = children.as_slice() == others.as_slice();
    drop(children);
    drop(others);
    has_same && one.path_of(place) == other.path_of(place)
}

/// Whether two trees answer alike.
fn is_same<A: Allocator + Copy, B: Allocator + Copy>(one: &Tree<A>, other: &Tree<B>) -> bool {
    if one.len() != other.len() || one.len() > 4096 {
        return false;
    }
    for number in 0..one.len() {
        if !is_alike(one, other, PlaceId(number as u32)) {
            return false;
        }
    }
    true
}

/// A new tree, after this step.
fn tree_from<A: Allocator + Copy>(alloc: A, start: &Row) -> Option<Tree<A>> {
    let Ok(mut tree) = Tree::new(alloc) else {
        return None;
    };
    if does(&mut tree, start) != Outcome::Done {
        drop(tree);
        return None;
    }
    Some(tree)
}

/// Tries a step. If it is refused, the tree must be as its twin still, and the next try must succeed.
fn does_beside<A: Allocator + Copy, B: Allocator + Copy>(
    memory: &Refusing<Global>,
    tree: &mut Tree<A>,
    twin: &Tree<B>,
    step: &Row,
    number: u64,
) -> Outcome {
    memory.refuse(number);
    let tried = does(tree, step);
    let has_refused = memory.has_refused();
    if tried != Outcome::Refused {
        return tried.and(!has_refused);
    }
    let is_kept = is_same(tree, twin);
    tried.and(has_refused && is_kept && does(tree, step) == Outcome::Done)
}

/// Tries a step after another. A twin does the same in ample memory. At the end both must be the same.
pub(crate) fn does_from(
    memory: &Refusing<Global>,
    alloc: Global,
    (start, step): (&Row, &Row),
    number: u64,
) -> Outcome {
    let Some(mut tree) = tree_from(memory, start) else {
        return Outcome::Wrong;
    };
    let Some(mut ample) = tree_from(alloc, start) else {
        drop(tree);
        return Outcome::Wrong;
    };
    let tried = does_beside(memory, &mut tree, &ample, step, number);
    let is_like = does(&mut ample, step) == Outcome::Done && is_same(&tree, &ample);
    drop(tree);
    drop(ample);
    tried.and(is_like)
}

/// Tries to make a tree.
pub(crate) fn makes(memory: &Refusing<Global>) -> Outcome {
    let Ok(tree) = Tree::new(memory) else {
        return Outcome::Refused;
    };
    let is_new = tree.len() == 1;
    drop(tree);
    Outcome::done(is_new)
}

/// Tries to copy the small tree.
pub(crate) fn copies(memory: &Refusing<Global>, alloc: Global, number: u64) -> Outcome {
    let Some(tree) = tree_from(memory, &(0, Small)) else {
        return Outcome::Wrong;
    };
    let Some(ample) = tree_from(alloc, &(0, Small)) else {
        drop(tree);
        return Outcome::Wrong;
    };
    memory.refuse(number);
    let copy = tree.copy();
    let has_refused = memory.has_refused();
    let is_kept = is_same(&tree, &ample);
    drop(tree);
    let Ok(copy) = copy else {
        drop(ample);
        return Outcome::refused(has_refused && is_kept);
    };
    let is_copied = is_same(&copy, &ample);
    drop(copy);
    drop(ample);
    Outcome::done(!has_refused && is_kept && is_copied)
}
