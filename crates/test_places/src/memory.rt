//! Each memory request of a copy, a tree and a shelf refused in turn.

use crate::model::{Copied, copies};
use crate::tree::Step::{Adds, Has, HasNames, Projects, Pushes, Small};
use crate::versions::Saved;
use crate::versions::Step::{Appends, Copies};
use crate::{tree, versions};
use std::alloc::Global;
use std::process::Abort;
use test_memory::{Outcome, Refusing, requests};
use vault_model::Kind::Project;

/// What is tried.
enum Call {
    Copies(Copied),
    MakesTree,
    CopiesTree,
    /// A step of a tree, after another.
    Tree(tree::Row, tree::Row),
    MakesShelf,
    /// A step of a shelf, after drafts.
    Shelf(&'static [Saved], versions::Step),
}

/// Tries a call with its request of this number refused.
fn tries(
    rt: &impl Abort,
    memory: &Refusing<Global>,
    alloc: Global,
    call: &Call,
    number: u64,
) -> Outcome {
    let tried = match call {
        Call::CopiesTree => return tree::copies(memory, alloc, number),
        Call::Tree(start, step) => return tree::does_from(memory, alloc, (start, step), number),
        Call::Shelf(start, step) => {
            return versions::does_from(rt, memory, alloc, (start, step), number);
        }
        Call::Copies(copied) => {
            memory.refuse(number);
            copies(rt, memory, alloc, *copied)
        }
        Call::MakesTree => {
            memory.refuse(number);
            tree::makes(memory)
        }
        Call::MakesShelf => {
            memory.refuse(number);
            versions::makes(memory)
        }
    };
    tried.and(memory.has_refused() == (tried == Outcome::Refused))
}

#[test]
fn each_request_of_a_place_is_refused(rt: HostRuntime) {
    let memory = Refusing::new(rt.alloc());
    for (name, call, wanted) in &WANTED {
        let made = requests(|number| tries(&rt, &memory, rt.alloc(), call, number));
        assert_eq!(rt; made, Some(*wanted), "{name}");
    }
}

/// A name, a call, and the number of its requests. A copied tree requests memory for the places, the list of lists, and three
/// lists that have children; a copied shelf for the parts, and for the bytes and the ends of places 1 and 3. When drafts are
/// appended, the bytes of place 3 grow twice, the bytes and the ends of 5, 0 and 7 begin, and the list of parts grows.
static WANTED: [(&str, Call, u64); 26] = [
    ("Listing::copy", Call::Copies(Copied::List), 1),
    ("Command::copy, CheckOut", Call::Copies(Copied::CheckOut), 1),
    ("Command::copy, Extend", Call::Copies(Copied::Extend), 1),
    ("Command::copy, Save", Call::Copies(Copied::Save), 1),
    ("Command::copy, Hold", Call::Copies(Copied::Hold), 1),
    ("Command::copy, Leave", Call::Copies(Copied::Leave), 0),
    ("Command::copy, Make", Call::Copies(Copied::Make), 0),
    ("Reply::copy, Children", Call::Copies(Copied::Children), 1),
    ("Reply::copy, Content", Call::Copies(Copied::Content), 1),
    ("Reply::copy, Refused", Call::Copies(Copied::Refused), 0),
    ("Effect::copy, Saved", Call::Copies(Copied::Saved), 1),
    (
        "Effect::copy, CheckedIn",
        Call::Copies(Copied::CheckedIn),
        0,
    ),
    ("Tree::new", Call::MakesTree, 1),
    (
        "Tree::children",
        Call::Tree((0, Small), (2, Has(&[3, 4]))),
        1,
    ),
    (
        "Tree::names_under",
        Call::Tree((0, Small), (2, HasNames(b"/p1/p2"))),
        1,
    ),
    (
        "Tree::names_under, none",
        Call::Tree((0, Small), (4, HasNames(b"/"))),
        0,
    ),
    ("Tree::copy", Call::CopiesTree, 5),
    (
        "Tree::add",
        Call::Tree((0, Projects(4)), (0, Adds(b"z", Project, Ok(5)))),
        2,
    ),
    (
        "Tree::push",
        Call::Tree((0, Projects(4)), (0, Pushes(b"z", Project, 5))),
        2,
    ),
    (
        "Tree::add, behind none",
        Call::Tree((0, Projects(0)), (0, Adds(b"z", Project, Ok(1)))),
        2,
    ),
    (
        "Tree::add, behind 1",
        Call::Tree((0, Projects(1)), (0, Adds(b"z", Project, Ok(2)))),
        0,
    ),
    (
        "Tree::add, behind 3",
        Call::Tree((0, Projects(3)), (0, Adds(b"z", Project, Ok(4)))),
        1,
    ),
    (
        "Tree::push, behind 16",
        Call::Tree((0, Projects(16)), (0, Pushes(b"z", Project, 17))),
        2,
    ),
    ("Shelf::new", Call::MakesShelf, 0),
    ("Shelf::copy", Call::Shelf(COPIED, Copies), 5),
    ("Shelf::append_all", Call::Shelf(FIRST, Appends(SECOND)), 9),
];

/// The drafts of a shelf that is copied.
const COPIED: &[Saved] = &[(1, 3, b"ab", 2), (1, 1, b"", 0), (1, 3, b"c", 1)];

/// The drafts after which others are appended.
const FIRST: &[Saved] = &[(1, 3, b"ab", 2), (1, 1, b"", 0)];

const SECOND: &[Saved] = &[
    (1, 3, b"cdefghijkl", 10),
    (1, 5, b"e", 1),
    (1, 3, b"fg", 2),
    (1, 0, b"", 0),
    (1, 7, b"h", 1),
];
