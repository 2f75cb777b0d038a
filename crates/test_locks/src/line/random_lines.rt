//! Random lines, against a plain program that judges claims place by place.
ghost use Rattle.std.specs.Prelude.{◌<◌, List};
ghost use Rattle.vault_state.specs.declared.place.Place.{Place};
ghost use Rattle.long_locks.specs.Lines.{IsGrownFrom};

use super::{ask, claim_of, extend, has_claim, new_line};
use crate::places::{Chain, Reach, overlap, reach_of, tree_of};
use Kind::{Assembly, Part, Project};
use design_tree::Tree;
use lock_table::Extension;
use long_locks::Line;
use std::alloc::Allocator;
use std::process::Abort;
use vault_state::{Claim, ClaimId, Intent, Item, Items, Kind, Owner, PlaceId, Standing};

/// Numbers that look random, the same in each run.
#[derive(Drop)]
struct Random(u32);

impl Random {
    fn below(&mut self, bound: u32) -> u32
        requires { 0 < bound }
        ensures { result < bound }
    {
        self.0 = self.0.wrapping_mul(1_664_525).wrapping_add(1_013_904_223);
        (self.0 >> 16) % bound
    }
}

/// A claim as the plain program keeps it.
#[derive(Clone, Copy)]
struct Plain {
    claim: Claim,
    reach: Reach,
}

/// What random lines have shown, one bit each.
const HELD: u32 = 1;

const QUEUED: u32 = 2;

const DONE: u32 = 4;

const IN_THE_WAY: u32 = 8;

/// The library, two projects, two assemblies in each, and two parts in each of these.
static WIDE: [Chain; 14] = [
    (0, "d", &[Project]),
    (1, "a", &[Assembly]),
    (2, "p1", &[Part]),
    (2, "p2", &[Part]),
    (1, "b", &[Assembly]),
    (5, "p1", &[Part]),
    (5, "p2", &[Part]),
    (0, "e", &[Project]),
    (8, "a", &[Assembly]),
    (9, "p1", &[Part]),
    (9, "p2", &[Part]),
    (8, "b", &[Assembly]),
    (12, "p1", &[Part]),
    (12, "p2", &[Part]),
];

fn plain_standing(plain: &[Plain], id: ClaimId, reach: Reach) -> Standing {
    for before in plain {
        if before.claim.id == id {
            return Standing::Held;
        }
        if overlap(before.reach, reach) {
            return Standing::Queued(before.claim.id);
        }
    }
    Standing::Held
}

fn plain_extension(plain: &[Plain], id: ClaimId, reach: Reach) -> Extension {
    for other in plain {
        let own = other.claim.id;
        if own != id
            && overlap(other.reach, reach)
            && plain_standing(plain, own, other.reach) == Standing::Held
        {
            return Extension::InTheWay(own);
        }
    }
    Extension::Done
}

fn items_at_random(rt: &impl Abort, random: &mut Random) -> Items {
    let mut items = Items::new();
    for _ in 0..random.below(4) + 1 {
        let intent = if random.below(3) == 0 {
            Intent::Change
        } else {
            Intent::Look
        };
        let place = PlaceId(random.below(15));
        assert!(rt; items.len() < 8);
        items.push(Item { intent, place });
    }
    items
}

fn index_at_random(rt: &impl Abort, plain: &[Plain], random: &mut Random) -> Option<usize> {
    let count = plain.len();
    if count == 0 {
        return None;
    }
    assert!(rt; count < 256);
    Some(random.below(count as u32) as usize)
}

fn ask_at_random<A: Allocator + Copy>(
    rt: &impl Abort,
    tree: &Tree<A>,
    line: &mut Line<A>,
    plain: &mut Vec<Plain, A>,
    random: &mut Random,
)
    requires { IsGrownFrom line.old.tree tree.now }
    ensures { IsGrownFrom line.new.tree tree.now }
{
    let items = items_at_random(rt, random);
    let session = random.below(4);
    let told = ask(rt, line, tree, session, items);
    let id = if session == 0 {
        ClaimId::Long(line.last_long())
    } else {
        ClaimId::Short(line.last_short())
    };
    let reach = reach_of(tree, items.as_slice());
    assert!(rt; told == Ok(plain_standing(plain, id, reach)));
    let claim = claim_of(rt, id, (session, "anna"), items, "");
    assert!(rt; plain.push(Plain { claim, reach }).is_ok());
}

fn extend_at_random<A: Allocator + Copy>(
    rt: &impl Abort,
    tree: &Tree<A>,
    line: &mut Line<A>,
    plain: &mut Vec<Plain, A>,
    random: &mut Random,
) -> u32
    requires { IsGrownFrom line.old.tree tree.now }
    ensures { IsGrownFrom line.new.tree tree.now }
{
    let Some(index) = index_at_random(rt, plain, random) else {
        return 0;
    };
    assert!(rt; index < plain.len());
    let id = plain[index].claim.id;
    let Some(Standing::Held) = line.standing(id) else {
        return 0;
    };
    let items = items_at_random(rt, random);
    let reach = reach_of(tree, items.as_slice());
    let expected = plain_extension(plain, id, reach);
    assert!(rt; extend(rt, line, tree, id, items) == Ok(expected));
    if expected != Extension::Done {
        return IN_THE_WAY;
    }
    let mut first = plain.remove(index);
    first.claim.items = items;
    first.reach = reach;
    assert!(rt; plain.insert(0, first).is_ok());
    DONE
}

fn drop_at_random<A: Allocator + Copy>(
    rt: &impl Abort,
    line: &mut Line<A>,
    plain: &mut Vec<Plain, A>,
    random: &mut Random,
)
    ensures { (tree : List Place) → IsGrownFrom line.old.tree tree → IsGrownFrom line.new.tree tree }
{
    if random.below(8) == 0 {
        line.drop_session(1);
        plain.retain(|plain| plain.claim.owner != Owner::Session(1));
        return;
    }
    if let Some(index) = index_at_random(rt, plain, random) {
        assert!(rt; index < plain.len());
        line.drop_claim(plain.remove(index).claim.id);
    }
}

// Whether the line has the plain program's claims, each with the standing that this program gives it.
fn agrees<A: Allocator>(line: &Line<A>, plain: &[Plain], seen: &mut u32) -> bool {
    for (position, Plain { claim, reach }) in plain.iter().enumerate() {
        let standing = plain_standing(plain, claim.id, *reach);
        if !has_claim(line, position, claim) || line.standing(claim.id) != Some(standing) {
            return false;
        }
        *seen |= if standing == Standing::Held {
            HELD
        } else {
            QUEUED
        };
    }
    line.len() == plain.len()
}

fn take_turn<A: Allocator + Copy>(
    rt: &impl Abort,
    tree: &Tree<A>,
    line: &mut Line<A>,
    plain: &mut Vec<Plain, A>,
    random: &mut Random,
) -> u32
    requires { IsGrownFrom line.old.tree tree.now }
    ensures { IsGrownFrom line.new.tree tree.now }
{
    let choice = random.below(8);
    if choice < 2 {
        return extend_at_random(rt, tree, line, plain, random);
    }
    if choice == 2 || plain.len() == 40 {
        drop_at_random(rt, line, plain, random);
        return 0;
    }
    ask_at_random(rt, tree, line, plain, random);
    0
}

// Runs a random line, and returns what it has shown.
fn random_line<A: Allocator + Copy>(rt: &impl Abort, alloc: A, seed: u32) -> u32 {
    let tree = tree_of(rt, alloc, &WIDE);
    let mut line = new_line(rt, alloc);
    let mut plain = Vec::new(alloc);
    let mut random = Random(seed);
    let mut seen = 0;
    for _ in 0..80 {
        seen |= take_turn(rt, &tree, &mut line, &mut plain, &mut random);
        assert!(rt; agrees(&line, &plain, &mut seen));
    }
    drop(plain);
    drop(line);
    drop(tree);
    seen
}

#[test]
fn random_lines_stand_as_a_plain_program_says(rt: HostRuntime) {
    let mut seen = 0;
    for seed in 1..9u32 {
        seen |= random_line(&rt, rt.alloc(), seed);
    }
    assert_eq!(rt; seen, HELD | QUEUED | DONE | IN_THE_WAY);
}
