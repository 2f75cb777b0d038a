ghost use Rattle.std.specs.Prelude.{◌<◌, List, IsTrue, length};
ghost use Rattle.vault_state.specs.declared.place.Place.{Place};
ghost use Rattle.vault_state.specs.Vault.{AreThere};
ghost use Rattle.vault_state.specs.Limits.{most_claims, last_number};
ghost use Rattle.long_locks.specs.Lines.{IsGrownFrom};

mod calls;
mod random_lines;
mod refused;
mod worked;

use crate::places::are_there;
use design_tree::Tree;
use lock_table::Extension;
use long_locks::Line;
use std::alloc::Allocator;
use std::process::Abort;
use vault_state::{Claim, ClaimId, Items, Name, NoMemory, Note, Owner, PlaceId, Standing};

const C1: ClaimId = ClaimId::Long(1);

const C2: ClaimId = ClaimId::Long(2);

const C3: ClaimId = ClaimId::Long(3);

const H1: ClaimId = ClaimId::Short(1);

const H2: ClaimId = ClaimId::Short(2);

fn new_line<A: Allocator + Copy>(rt: &impl Abort, alloc: A) -> Line<A>
    ensures { (tree : List Place) → IsGrownFrom result.tree tree }
{
    Line::new(alloc).expect(rt, "memory")
}

// Whether a line may take one more claim, and all these items name places of the tree.
fn is_ready<A: Allocator>(line: &Line<A>, tree: &Tree<A>, items: &Items) -> bool
    ensures there { IsTrue result → AreThere tree.now items.now }
    ensures room { IsTrue result → length line.now.claims < most_claims }
    ensures long { IsTrue result → line.now.last_long < last_number }
    ensures short { IsTrue result → line.now.last_short < last_number }
{
    let is_there = are_there(tree, items.as_slice());
    is_there && line.len() < 256 && line.last_long() < 1000 && line.last_short() < 1000
}

// Asks for a check-out of anna's if the session is 0, else for a hold of the session's.
fn ask<A: Allocator + Copy>(
    rt: &impl Abort,
    line: &mut Line<A>,
    tree: &Tree<A>,
    session: u32,
    items: Items,
) -> Result<Standing, NoMemory>
    requires { IsGrownFrom line.old.tree tree.now }
    ensures { IsGrownFrom line.new.tree tree.now }
{
    assert!(rt; is_ready(line, tree, &items));
    if session != 0 {
        return line.ask_short(tree, session, items);
    }
    let anna = Name::read(b"anna").expect(rt, "a name");
    line.ask_long(tree, anna, items)
}

fn extend<A: Allocator + Copy>(
    rt: &impl Abort,
    line: &mut Line<A>,
    tree: &Tree<A>,
    id: ClaimId,
    items: Items,
) -> Result<Extension, NoMemory>
    requires { IsGrownFrom line.old.tree tree.now }
    ensures { IsGrownFrom line.new.tree tree.now }
{
    assert!(rt; is_ready(line, tree, &items));
    tree.parent(PlaceId(0));
    let Some(Standing::Held) = line.standing(id) else {
        panic!(rt; "a held claim");
    };
    line.extend(tree, id, items)
}

// A claim of a session, or of a designer if the session is 0.
fn claim_of(
    rt: &impl Abort,
    id: ClaimId,
    (session, designer): (u32, &str),
    items: Items,
    note: &str,
) -> Claim {
    let owner = if session == 0 {
        Owner::Designer(Name::read(designer.as_bytes()).expect(rt, "a name"))
    } else {
        Owner::Session(session)
    };
    Claim {
        id,
        owner,
        items,
        note: Note::read(note.as_bytes()).expect(rt, "a note"),
    }
}

// Whether a line has this claim at a position, and finds it.
fn has_claim<A: Allocator>(line: &Line<A>, position: usize, claim: &Claim) -> bool {
    line.at(position) == Some(claim) && line.get(claim.id) == Some(claim)
}

// Whether two lines have the same claim at a position, with the same standing.
fn is_same_at<A: Allocator, B: Allocator>(one: &Line<A>, other: &Line<B>, position: usize) -> bool {
    match one.at(position) {
        Some(claim) => {
            has_claim(other, position, claim) && one.standing(claim.id) == other.standing(claim.id)
        }
        None => false,
    }
}

// Whether two lines answer alike.
fn is_same<A: Allocator, B: Allocator>(one: &Line<A>, other: &Line<B>) -> bool {
    for position in 0..one.len() {
        if !is_same_at(one, other, position) {
            return false;
        }
    }
    one.len() == other.len()
        && one.last_long() == other.last_long()
        && one.last_short() == other.last_short()
}
