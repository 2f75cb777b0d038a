//! Books made of the parts of a vault, and parts of no vault.

use super::Talk;
use super::alike::are_alike;
use super::steps::List;
use design_tree::Tree;
use part_versions::Shelf;
use std::alloc::{Allocator, Global};
use std::process::Abort;
use test_memory::Refusing;
use vault_checkout::FromPartsError::NotWellFormed;
use vault_checkout::{Book, FromPartsError};
use vault_model::ClaimId::{Long, Short};
use vault_model::{
    Claim, ClaimId, Draft, DraftIn, Drafts, Intent, Item, Items, Listing, Name, NoMemory, Note,
    Owner, PlaceId,
};

/// A place, the number of bytes saved for it (each is 7), how often, and how far each next place number is below the last.
type Saved = (u32, usize, u32, u32);

const NONE: Saved = (0, 0, 0, 0);

/// What a book is made of, besides the tree and the claims of another.
#[derive(Clone, Copy)]
pub(super) struct Parts {
    /// The drafts of each claim, in the order of the line.
    drafts: &'static [Saved],
    /// One more claim at the end of the line, its session, and the place that it looks at. It is anna's if the session is 0.
    claim: Option<(ClaimId, u32, u32)>,
    last_long: u32,
    /// Whether the tree is a new one, instead of the other's.
    has_new_tree: bool,
    /// Whether the shelf is a new one, instead of the other's.
    has_new_shelf: bool,
    /// What is put on the shelf.
    versions: Saved,
}

fn drafts_of<A: Allocator + Copy>(alloc: A, (place, len, times, back): Saved) -> Option<Drafts<A>> {
    let mut drafts = Vec::new(alloc);
    for index in 0..times {
        if !push_draft(
            alloc,
            &mut drafts,
            place.saturating_sub(index.saturating_mul(back)),
            len,
        ) {
            drop(drafts);
            return None;
        }
    }
    Some(Listing::from_vec(drafts))
}

/// Appends a draft to a list.
fn push_draft<A: Allocator + Copy>(
    alloc: A,
    drafts: &mut Vec<DraftIn<A>, A>,
    place: u32,
    len: usize,
) -> bool {
    let Ok(bytes) = vec![in alloc; 7u8; len] else {
        return false;
    };
    let draft = Draft {
        place: PlaceId(place),
        content: Listing::from_vec(bytes),
    };
    drafts.push(draft).is_ok()
}

/// Appends the drafts of each claim to a list.
fn push_all_drafts<A: Allocator + Copy>(
    alloc: A,
    all: &mut Vec<Drafts<A>, A>,
    rows: &[Saved],
) -> bool {
    for saved in rows {
        let Some(drafts) = drafts_of(alloc, *saved) else {
            return false;
        };
        if all.push(drafts).is_err() {
            return false;
        }
    }
    true
}

/// Puts versions on a shelf.
fn put_versions<A: Allocator + Copy>(alloc: A, shelf: &mut Shelf<A>, saved: Saved) -> bool {
    let Some(versions) = drafts_of(alloc, saved) else {
        return false;
    };
    shelf.append_all(versions).is_ok()
}

/// Appends a claim that looks at a place to a list. It is anna's if the session is 0, else the session's.
fn push_other<A: Allocator>(
    claims: &mut Vec<Claim, A>,
    (id, session, place): (ClaimId, u32, u32),
) -> bool {
    let Some(anna) = Name::read(b"anna") else {
        return false;
    };
    let owner = if session == 0 {
        Owner::Designer(anna)
    } else {
        Owner::Session(session)
    };
    let item = Item {
        intent: Intent::Look,
        place: PlaceId(place),
    };
    let claim = Claim {
        id,
        owner,
        items: Items::new().with(item),
        note: Note::new(),
    };
    claims.push(claim).is_ok()
}

/// Appends the claims of a book to a list, and then the other claim, if there is one.
fn push_claims<A: Allocator + Copy>(
    claims: &mut Vec<Claim, A>,
    book: &Book<A>,
    other: Option<(ClaimId, u32, u32)>,
) -> bool {
    let line = book.line();
    for position in 0..line.len() {
        let Some(claim) = line.at(position) else {
            return false;
        };
        if claims.push(*claim).is_err() {
            return false;
        }
    }
    match other {
        Some(other) => push_other(claims, other),
        None => true,
    }
}

fn tree_of<A: Allocator + Copy>(
    alloc: A,
    book: &Book<A>,
    is_new: bool,
) -> Result<Tree<A>, NoMemory> {
    if is_new {
        return Tree::new(alloc);
    }
    book.tree().copy()
}

fn shelf_of<A: Allocator + Copy>(
    alloc: A,
    book: &Book<A>,
    is_new: bool,
) -> Result<Shelf<A>, NoMemory> {
    if is_new {
        return Ok(Shelf::new(alloc));
    }
    book.shelf().copy()
}

/// Makes a book of another's parts, with this request refused. Returns whether the two show the same, or the error.
fn remakes<A: Allocator + Copy>(
    rt: &impl Abort,
    memory: &Refusing<Global>,
    (alloc, book): (A, &Book<A>),
    parts: &Parts,
    number: u64,
) -> Result<bool, FromPartsError> {
    let tree = tree_of(alloc, book, parts.has_new_tree).expect(rt, "memory");
    let mut shelf = shelf_of(alloc, book, parts.has_new_shelf).expect(rt, "memory");
    let mut claims = Vec::new(alloc);
    let mut drafts = Vec::new(alloc);
    let is_ready = put_versions(alloc, &mut shelf, parts.versions)
        && push_claims(&mut claims, book, parts.claim)
        && push_all_drafts(alloc, &mut drafts, parts.drafts);
    assert!(rt; is_ready);
    memory.refuse(number);
    match Book::from_parts(tree, shelf, parts.last_long, claims, drafts) {
        Ok(made) => {
            let is_like = are_alike(&made, book);
            drop(made);
            Ok(is_like)
        }
        Err(error) => Err(error),
    }
}

/// The same for the durable book after these steps.
pub(super) fn remakes_from<A: Allocator + Copy>(
    rt: &impl Abort,
    (memory, aside): (&Refusing<Global>, Global),
    alloc: A,
    (start, parts): (List, &Parts),
    number: u64,
) -> Result<bool, FromPartsError> {
    let talk = Talk::from(alloc, alloc, aside, start).expect(rt, "a book");
    let told = remakes(rt, memory, (alloc, &talk.durable), parts, number);
    drop(talk);
    told
}

#[test]
fn parts_of_a_vault_make_a_book(rt: HostRuntime) {
    let memory = Refusing::new(rt.alloc());
    for (name, start, parts, want) in &ROWS {
        let told = remakes_from(&rt, (&memory, rt.alloc()), &memory, (*start, parts), 0);
        assert_eq!(rt; told, *want, "{name}");
    }
}

/// The parts of the durable book after the steps of `TOLD`.
pub(super) const OWN: Parts = Parts {
    drafts: &[(3, 2, 1, 0), NONE, NONE],
    claim: None,
    last_long: 4,
    has_new_tree: false,
    has_new_shelf: false,
    versions: NONE,
};

/// The same with another claim.
const LONGER: Parts = Parts {
    drafts: &[(3, 2, 1, 0), NONE, NONE, NONE],
    last_long: 5,
    ..OWN
};

/// The same without drafts.
const UNSAVED: Parts = Parts {
    drafts: &[NONE, NONE, NONE],
    ..OWN
};

/// The parts of a new book.
const NOTHING: Parts = Parts {
    drafts: &[],
    last_long: 0,
    ..OWN
};

/// A name, the steps to the book whose parts are taken, the parts, and whether the book that is made of them is like that one.
type Row = (&'static str, List, Parts, Result<bool, FromPartsError>);

static ROWS: [Row; 28] = [
    (
        "a new book's, made new",
        List::New,
        Parts {
            has_new_tree: true,
            has_new_shelf: true,
            ..NOTHING
        },
        Ok(true),
    ),
    ("a new book's", List::New, NOTHING, Ok(true)),
    ("a book's", List::Told, OWN, Ok(true)),
    ("no drafts", List::Told, UNSAVED, Ok(false)),
    (
        "a long draft",
        List::Told,
        Parts {
            drafts: &[(3, 1024, 1, 0), NONE, NONE],
            ..OWN
        },
        Ok(false),
    ),
    (
        "a draft under a queued claim",
        List::Told,
        Parts {
            drafts: &[(3, 2, 1, 0), NONE, (3, 1, 1, 0)],
            ..OWN
        },
        Err(NotWellFormed),
    ),
    (
        "of a part that is looked at",
        List::Told,
        Parts {
            drafts: &[(4, 1, 1, 0), NONE, NONE],
            ..OWN
        },
        Err(NotWellFormed),
    ),
    (
        "under a look",
        List::Told,
        Parts {
            drafts: &[(3, 2, 1, 0), (4, 1, 1, 0), NONE],
            ..OWN
        },
        Err(NotWellFormed),
    ),
    (
        "of no part",
        List::Told,
        Parts {
            drafts: &[(2, 1, 1, 0), NONE, NONE],
            ..OWN
        },
        Err(NotWellFormed),
    ),
    (
        "of no place",
        List::Told,
        Parts {
            drafts: &[(5, 1, 1, 0), NONE, NONE],
            ..OWN
        },
        Err(NotWellFormed),
    ),
    (
        "too long",
        List::Told,
        Parts {
            drafts: &[(3, 1025, 1, 0), NONE, NONE],
            ..OWN
        },
        Err(NotWellFormed),
    ),
    (
        "twice",
        List::Told,
        Parts {
            drafts: &[(3, 5, 2, 0), NONE, NONE],
            ..OWN
        },
        Err(NotWellFormed),
    ),
    (
        "falling",
        List::Told,
        Parts {
            drafts: &[(4, 7, 2, 1), NONE, NONE],
            ..OWN
        },
        Err(NotWellFormed),
    ),
    (
        "fewer drafts than claims",
        List::Told,
        Parts {
            drafts: &[NONE, NONE],
            ..OWN
        },
        Err(NotWellFormed),
    ),
    (
        "a claim",
        List::Told,
        Parts {
            claim: Some((Long(5), 0, 4)),
            ..LONGER
        },
        Ok(false),
    ),
    (
        "a claim to no place",
        List::Told,
        Parts {
            claim: Some((Long(5), 0, 5)),
            ..LONGER
        },
        Err(NotWellFormed),
    ),
    (
        "a number twice",
        List::Told,
        Parts {
            claim: Some((Long(3), 0, 4)),
            ..LONGER
        },
        Err(NotWellFormed),
    ),
    (
        "number 0",
        List::Told,
        Parts {
            claim: Some((Long(0), 0, 4)),
            ..LONGER
        },
        Err(NotWellFormed),
    ),
    (
        "a number to come",
        List::Told,
        Parts {
            claim: Some((Long(6), 0, 4)),
            ..LONGER
        },
        Err(NotWellFormed),
    ),
    (
        "a session's",
        List::Told,
        Parts {
            claim: Some((Long(5), 1, 4)),
            ..LONGER
        },
        Err(NotWellFormed),
    ),
    (
        "a hold",
        List::Told,
        Parts {
            claim: Some((Short(1), 1, 4)),
            ..LONGER
        },
        Err(NotWellFormed),
    ),
    (
        "a version of a part",
        List::Told,
        Parts {
            versions: (3, 1, 1, 0),
            ..UNSAVED
        },
        Ok(false),
    ),
    (
        "of another part",
        List::Told,
        Parts {
            versions: (4, 1, 1, 0),
            ..UNSAVED
        },
        Ok(false),
    ),
    (
        "of an assembly",
        List::Told,
        Parts {
            versions: (2, 1, 1, 0),
            ..UNSAVED
        },
        Err(NotWellFormed),
    ),
    (
        "of the library",
        List::Told,
        Parts {
            versions: (0, 1, 1, 0),
            ..UNSAVED
        },
        Err(NotWellFormed),
    ),
    (
        "of no place that is there",
        List::Told,
        Parts {
            versions: (5, 1, 1, 0),
            ..UNSAVED
        },
        Err(NotWellFormed),
    ),
    (
        "as heavy as may be",
        List::Told,
        Parts {
            drafts: &[(3, 1016, 1, 0), NONE, NONE],
            has_new_shelf: true,
            versions: (4, 1024, 16_256, 0),
            ..OWN
        },
        Ok(false),
    ),
    (
        "too heavy",
        List::Told,
        Parts {
            drafts: &[(3, 1017, 1, 0), NONE, NONE],
            has_new_shelf: true,
            versions: (4, 1024, 16_256, 0),
            ..OWN
        },
        Err(NotWellFormed),
    ),
];
