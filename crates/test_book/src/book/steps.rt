//! What is done to a book, and what it has to show.

use super::alike::{are_alike, counts};
use super::effects::{Kind, NONE, Row, applies};
use super::worked::{
    ANNA, DRAFTED, DURABLE, EACH_KIND, FULL, LEFT, NO_DRAFTS, NOT_APPLICABLE, NOT_JUDGED, OPENED,
    READ, RESTARTED, STARTED, TOLD, UNSPELLED,
};
use super::{C2, H1, Talk};
use std::alloc::{Allocator, Global};
use test_memory::Outcome;
use vault_checkout::ApplyError::NotApplicable;
use vault_checkout::Book;
use vault_model::{ClaimId, Command, Listing, Note, Owner, Standing};

/// A command on no items, which no line spells.
#[derive(Clone, Copy)]
pub(super) enum Unspelled {
    CheckOut,
    Hold,
    Extend(ClaimId),
}

/// The command, on no items.
fn command(memory: Global, unspelled: Unspelled) -> Command {
    let nothing = Listing::from_vec(Vec::new(memory));
    match unspelled {
        Unspelled::CheckOut => Command::CheckOut(nothing),
        Unspelled::Hold => Command::Hold(nothing),
        Unspelled::Extend(claim) => Command::Extend(claim, nothing),
    }
}

/// What is done to a book and its durable book, or looked at.
#[derive(Clone, Copy)]
pub(super) enum Step {
    /// A session says a line, is answered with another, and the effect is of this kind.
    Says(u32, &'static str, &'static str, Kind),
    /// A session gives a command that no line spells, and is answered with this line.
    SaysUnspelled(u32, Unspelled, &'static str),
    /// Sessions of anna's join, and are answered with these lines.
    Join(&'static [&'static str]),
    /// A restart: the book and the durable book change places.
    Reopens,
    /// The durable book shows the same as the book, apart from sessions.
    IsDurable,
    /// An effect is applied to the durable book.
    Applies(Row),
    /// An effect is not applicable to the durable book.
    IsRefused(Row),
    /// The standing of a claim of the book, if it is there.
    Stands(ClaimId, Option<Standing>),
    /// A check-out of the book has this number of drafts.
    HasDrafts(u32, usize),
    /// The number of places and of claims in the book, and the last numbers given to long and to short claims.
    Counts(usize, usize, u32, u32),
    /// There is no claim at this position of the line.
    HasNone(usize),
    /// The second claim is the hold of session 2, on two places, and there is no second check-out.
    HasHold,
}

/// A list of steps.
#[derive(Clone, Copy)]
pub(super) enum List {
    New,
    Started,
    Anna,
    Told,
    Drafted,
    Durable,
    EachKind,
    Unspelled,
    Full,
    Left,
    Opened,
    Restarted,
    NotJudged,
    NotApplicable,
    NoDrafts,
    Read,
}

impl List {
    /// Its steps.
    pub(super) fn steps(self) -> &'static [Step] {
        match self {
            List::New => &[],
            List::Started => &STARTED,
            List::Anna => &ANNA,
            List::Told => &TOLD,
            List::Drafted => &DRAFTED,
            List::Durable => &DURABLE,
            List::EachKind => &EACH_KIND,
            List::Unspelled => &UNSPELLED,
            List::Full => &FULL,
            List::Left => &LEFT,
            List::Opened => &OPENED,
            List::Restarted => &RESTARTED,
            List::NotJudged => &NOT_JUDGED,
            List::NotApplicable => &NOT_APPLICABLE,
            List::NoDrafts => &NO_DRAFTS,
            List::Read => &READ,
        }
    }
}

/// Whether a book's second claim is the hold of session 2, on two places, and is found by its number, and there is no second
/// check-out.
fn has_hold<A: Allocator + Copy>(book: &Book<A>) -> bool {
    let line = book.line();
    let Some(claim) = line.at(1) else {
        return false;
    };
    claim.id == H1
        && claim.owner == Owner::Session(2)
        && claim.items.len() == 2
        && claim.note == Note::new()
        && line.get(H1) == Some(claim)
        && line.get(C2).is_none()
}

impl<A: Allocator + Copy> Talk<A> {
    /// A new book and its durable book, each in memory of its own, after these steps.
    pub(super) fn from(alloc: A, beside: A, memory: Global, start: List) -> Option<Talk<A>> {
        let Some(mut talk) = Talk::new(alloc, beside) else {
            return None;
        };
        let steps = start.steps();
        if talk.does_all(memory, steps) < steps.len() {
            drop(talk);
            return None;
        }
        Some(talk)
    }

    fn says_unspelled(
        &mut self,
        memory: Global,
        session: u32,
        unspelled: Unspelled,
        want: &str,
    ) -> Outcome {
        let command = command(memory, unspelled);
        let tried = self.answers(memory, session, &command, (want, NONE));
        drop(command);
        tried
    }

    /// Tries to let sessions of anna's join. They must be answered with these lines.
    fn join(&mut self, memory: Global, wants: &[&str]) -> Outcome {
        for want in wants {
            if self.hears(memory, 0, "hello anna", (want, NONE)) != Outcome::Done {
                return Outcome::Wrong;
            }
        }
        Outcome::Done
    }

    /// Tries a step.
    pub(super) fn does(&mut self, memory: Global, step: &Step) -> Outcome {
        match *step {
            Step::Says(session, line, want, kind) => {
                self.hears(memory, session, line, (want, kind))
            }
            Step::SaysUnspelled(session, unspelled, want) => {
                self.says_unspelled(memory, session, unspelled, want)
            }
            Step::Join(wants) => self.join(memory, wants),
            Step::Reopens => self.reopen(),
            Step::IsDurable => Outcome::done(are_alike(&self.book, &self.durable)),
            Step::Applies(row) => applies(memory, &mut self.durable, row, Ok(())),
            Step::IsRefused(row) => { applies(memory, &mut self.durable, row, Err(NotApplicable)) }
            Step::Stands(id, standing) => {
                Outcome::done(self.book.line().standing(id) == standing)
            }
            Step::HasDrafts(number, count) => Outcome::done(
                self.book.drafts(number).len() == count,
            ),
            Step::Counts(places, claims, long, short) => {
                Outcome::done(counts(&self.book) == (places, claims, long, short))
            }
            Step::HasNone(position) => Outcome::done(self.book.line().at(position).is_none()),
            Step::HasHold => Outcome::done(has_hold(&self.book)),
        }
    }

    /// The number of steps that are done before the first that isn't.
    pub(super) fn does_all(&mut self, memory: Global, steps: &[Step]) -> usize {
        for (index, step) in steps.iter().enumerate() {
            if self.does(memory, step) != Outcome::Done {
                return index;
            }
        }
        steps.len()
    }
}
