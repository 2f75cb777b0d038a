//! Calls of a line, each with what it has to answer.
ghost use Rattle.long_locks.specs.Lines.{IsGrownFrom};

use super::{ask, claim_of, extend, has_claim, is_ready, is_same, new_line};
use crate::places::{Wish, Worked, answers, items_of};
use design_tree::Tree;
use lock_table::Extension;
use long_locks::{FromClaimsError, Line};
use std::alloc::Global;
use std::process::Abort;
use test_memory::{Outcome, Refusing};
use vault_state::{Claim, ClaimId, Name, NoMemory, Note, PlaceId, Standing};

/// The memory of a line.
pub(super) type Memory<'a> = &'a Refusing<Global>;

/// A claim for a line to be made of, and its standing there. A long one is anna's, a short one the first session's.
pub(super) type Listed = (ClaimId, &'static [Wish], Standing);

/// A call of a line, with what it has to answer.
#[derive(Clone, Copy)]
pub(super) enum Row {
    CheckOut(&'static [Wish], Standing),
    Hold(u32, &'static [Wish], Standing),
    Extend(ClaimId, &'static [Wish], Extension),
    PutFirst(ClaimId, &'static [Wish]),
    Drop(ClaimId),
    DropSession(u32),
    Restart,
    Give(u32, &'static str),
    SetNote(u32, &'static str),
    /// Another line is made, and is like this one.
    New,
    Copy,
    /// Another line is made of these claims with this last number, or is refused with this error.
    FromClaims(u32, &'static [Listed], Option<FromClaimsError>),
    /// From here on no memory is requested.
    NoMemoryFrom,
    /// Up to here.
    NoMemoryTo,
    Covered(u32, Option<ClaimId>),
    /// The claims that look at a place or at one under it.
    ClaimsAt(u32, &'static [ClaimId]),
    Stands(ClaimId, Option<Standing>),
    /// The check-out at a position, its designer, its items and its note.
    At(usize, ClaimId, &'static str, &'static [Wish], &'static str),
    /// The number of claims, and the last numbers given to long and to short ones.
    Counts(usize, u32, u32),
}

fn put_first<'a>(
    rt: &impl Abort,
    line: &mut Line<Memory<'a>>,
    tree: &Tree<Memory<'a>>,
    id: ClaimId,
    wishes: &[Wish],
) -> Outcome
    requires { IsGrownFrom line.old.tree tree.now }
    ensures { IsGrownFrom line.new.tree tree.now }
{
    let items = items_of(rt, wishes);
    assert!(rt; is_ready(line, tree, &items));
    assert!(rt; line.get(id).is_some());
    answers(line.put_first(tree, id, items), ())
}

// Whether a new line is like this one.
fn is_like(made: Result<Line<Memory<'_>>, NoMemory>, line: &Line<Memory<'_>>) -> Outcome {
    match made {
        Ok(made) => {
            let is_like = is_same(&made, line);
            drop(made);
            Outcome::done(is_like)
        }
        Err(NoMemory) => Outcome::Refused,
    }
}

fn listed(rt: &impl Abort, (id, wishes, _): &Listed) -> Claim {
    let session = match id {
        ClaimId::Long(_) => 0,
        ClaimId::Short(_) => 1,
    };
    claim_of(rt, *id, (session, "anna"), items_of(rt, wishes), "")
}

// Whether a line has just these claims, in this order, with these standings.
fn keeps(rt: &impl Abort, line: &Line<Memory<'_>>, last_long: u32, claims: &[Listed]) -> bool {
    for (position, claim) in claims.iter().enumerate() {
        let is_there = has_claim(line, position, &listed(rt, claim));
        if !is_there || line.standing(claim.0) != Some(claim.2) {
            return false;
        }
    }
    line.len() == claims.len() && line.last_long() == last_long && line.last_short() == 0
}

// Makes a line of claims. The list of these is in ample memory.
fn is_made<'a>(
    rt: &impl Abort,
    (memory, ample): (Memory<'a>, Memory<'a>),
    tree: &Tree<Memory<'a>>,
    last_long: u32,
    claims: &[Listed],
    wanted: Option<FromClaimsError>,
) -> Outcome {
    let mut list = Vec::new(ample);
    for claim in claims {
        assert!(rt; list.push(listed(rt, claim)).is_ok());
    }
    match Line::from_claims(memory, tree, last_long, list) {
        Ok(line) => {
            let is_right = wanted.is_none() && keeps(rt, &line, last_long, claims);
            drop(line);
            Outcome::done(is_right)
        }
        Err(FromClaimsError::NoMemory) => Outcome::Refused,
        Err(error) => Outcome::done(wanted == Some(error)),
    }
}

// Whether the claims that look at a place or at one under it are these.
fn lists<'a>(
    rt: &impl Abort,
    line: &Line<Memory<'a>>,
    tree: &Tree<Memory<'a>>,
    place: u32,
    ids: &[ClaimId],
) -> Outcome
    requires { IsGrownFrom line.now.tree tree.now }
{
    assert!(rt; (place as usize) < tree.len());
    match line.claims_at(tree, PlaceId(place)) {
        Ok(told) => {
            let is_right = told.as_slice() == ids;
            drop(told);
            Outcome::done(is_right)
        }
        Err(NoMemory) => Outcome::Refused,
    }
}

// Whether the line has this check-out at a position, with this designer, these items and this note.
fn is_at(
    rt: &impl Abort,
    line: &Line<Memory<'_>>,
    position: usize,
    (id, designer): (ClaimId, &str),
    wishes: &[Wish],
    note: &str,
) -> bool {
    let claim = claim_of(rt, id, (0, designer), items_of(rt, wishes), note);
    has_claim(line, position, &claim)
}

// Whether the line shows what a row says.
fn shows<'a>(
    rt: &impl Abort,
    memory: Memory<'a>,
    line: &Line<Memory<'a>>,
    tree: &Tree<Memory<'a>>,
    row: &Row,
) -> bool
    requires { IsGrownFrom line.now.tree tree.now }
{
    match *row {
        Row::NoMemoryFrom => {
            memory.refuse(1);
            true
        }
        Row::NoMemoryTo => !memory.has_refused(),
        Row::Covered(place, id) => {
            assert!(rt; (place as usize) < tree.len());
            line.covers(tree, PlaceId(place)) == id
        }
        Row::Stands(id, standing) => {
            line.standing(id) == standing && line.get(id).is_some() == standing.is_some()
        }
        Row::At(position, id, designer, wishes, note) => {
            is_at(rt, line, position, (id, designer), wishes, note)
        }
        Row::Counts(len, long, short) => {
            (line.len(), line.last_long(), line.last_short()) == (len, long, short)
        }
        _ => false,
    }
}

// Whether the line answers as a row says.
pub(super) fn act<'a>(
    rt: &impl Abort,
    memories: (Memory<'a>, Memory<'a>),
    line: &mut Line<Memory<'a>>,
    tree: &Tree<Memory<'a>>,
    row: &Row,
) -> Outcome
    requires { IsGrownFrom line.old.tree tree.now }
    ensures { IsGrownFrom line.new.tree tree.now }
{
    match *row {
        Row::CheckOut(wishes, told) => {
            answers(ask(rt, line, tree, 0, items_of(rt, wishes)), told)
        }
        Row::Hold(session, wishes, told) => {
            answers(ask(rt, line, tree, session, items_of(rt, wishes)), told)
        }
        Row::Extend(id, wishes, told) => {
            answers(extend(rt, line, tree, id, items_of(rt, wishes)), told)
        }
        Row::PutFirst(id, wishes) => put_first(rt, line, tree, id, wishes),
        Row::ClaimsAt(place, ids) => lists(rt, line, tree, place, ids),
        Row::Drop(id) => {
            line.drop_claim(id);
            Outcome::Done
        }
        Row::DropSession(session) => {
            line.drop_session(session);
            Outcome::Done
        }
        Row::Restart => {
            line.restart();
            Outcome::Done
        }
        Row::Give(number, designer) => {
            line.give(number, Name::read(designer.as_bytes()).expect(rt, "a name"));
            Outcome::Done
        }
        Row::SetNote(number, note) => {
            line.set_note(number, Note::read(note.as_bytes()).expect(rt, "a note"));
            Outcome::Done
        }
        Row::New => is_like(Line::new(memories.0), line),
        Row::Copy => is_like(line.copy(), line),
        Row::FromClaims(last_long, claims, wanted) => {
            is_made(rt, memories, tree, last_long, claims, wanted)
        }
        _ => Outcome::done(shows(rt, memories.0, line, tree, row)),
    }
}

/// A line after these rows, each answered as it must be. Its tree is in ample memory. A failure names the row.
pub(super) fn line_behind<'a>(
    rt: &impl Abort,
    memories: (Memory<'a>, Memory<'a>),
    tree: &Tree<Memory<'a>>,
    worked: Worked<Row>,
) -> Line<Memory<'a>>
    ensures { IsGrownFrom result.tree tree.now }
{
    let (name, rows) = worked;
    let mut line = new_line(rt, memories.0);
    for (index, row) in rows.iter().enumerate() {
        let tried = act(rt, memories, &mut line, tree, row);
        assert!(rt; tried == Outcome::Done, "{name}, row {index}");
    }
    line
}
