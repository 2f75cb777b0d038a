//! The book, given commands line by line and looked at between the lines.
ghost use Rattle.std.specs.Prelude.{◌+◌};
ghost use Rattle.vault_state.specs.Vault.{CountsBelow};

mod alike;
mod effects;
mod memory;
mod parts;
mod steps;
mod worked;

use effects::{Kind, NONE, kind_of};
use std::alloc::{Allocator, Global};
use std::mem;
use test_memory::Outcome;
use vault_checkout::Book;
use vault_lines::{read_line_of, text_of};
use vault_model::{ClaimId, Command, EffectIn, ReplyIn};

const C1: ClaimId = ClaimId::Long(1);

const C2: ClaimId = ClaimId::Long(2);

const C3: ClaimId = ClaimId::Long(3);

const H1: ClaimId = ClaimId::Short(1);

const H2: ClaimId = ClaimId::Short(2);

/// Whether a reply's text is this line.
fn is_told<A: Allocator>(memory: Global, reply: &ReplyIn<A>, line: &str) -> bool {
    let Ok(text) = text_of(memory, reply) else {
        return false;
    };
    let is_so = text.as_slice().strip_suffix(b"\n") == Some(line.as_bytes());
    drop(text);
    is_so
}

/// Whether an effect is of this kind, and applies to the durable book. It is applied.
fn is_made<A: Allocator + Copy>(
    durable: &mut Book<A>,
    effect: &Option<EffectIn<A>>,
    kind: Kind,
) -> bool {
    match effect {
        Some(effect) => kind_of(effect) == kind && durable.apply(effect) == Ok(()),
        None => kind == NONE,
    }
}

/// A book, the durable book that its effects make, and the number of commands that the book was given.
#[derive(Drop)]
struct Talk<A: Allocator> {
    book: Book<A>,
    durable: Book<A>,
    said: u32,
    ghost counts: { CountsBelow (said + 1) book },
}

impl<A: Allocator + Copy> Talk<A> {
    /// A new book, and its durable book in memory of its own.
    fn new(alloc: A, beside: A) -> Option<Talk<A>> {
        let Ok(book) = Book::new(alloc) else {
            return None;
        };
        let Ok(durable) = Book::new(beside) else {
            drop(book);
            return None;
        };
        Some(Talk {
            book,
            durable,
            said: 0,
        })
    }

    /// A copy, with two books of its own.
    fn copy(&self) -> Option<Talk<A>> {
        let Ok(book) = self.book.copy() else {
            return None;
        };
        let Ok(durable) = self.durable.copy() else {
            drop(book);
            return None;
        };
        Some(Talk {
            book,
            durable,
            said: self.said,
        })
    }

    /// A restart. The book and the durable book change places, so that the durable one is given the commands from now on.
    fn reopen(&mut self) -> Outcome {
        mem::swap(&mut self.book, &mut self.durable);
        self.book.restart();
        self.durable.restart();
        self.said = 0;
        Outcome::Done
    }

    /// Tries a command: whether its reply is this line, and its effect is of this kind and applies to the durable book.
    fn answers(
        &mut self,
        memory: Global,
        session: u32,
        command: &Command,
        (want, kind): (&str, Kind),
    ) -> Outcome {
        if self.said == u32::MAX {
            return Outcome::Wrong;
        }
        let Ok((reply, effect)) = self.book.act(session, command) else {
            return Outcome::Refused;
        };
        self.said += 1;
        let is_made = is_made(&mut self.durable, &effect, kind);
        drop(effect);
        let is_told = is_told(memory, &reply, want);
        drop(reply);
        Outcome::done(is_made && is_told)
    }

    /// Tries a line in the same way.
    fn hears(&mut self, memory: Global, session: u32, line: &str, want: (&str, Kind)) -> Outcome {
        let Ok(command) = read_line_of(memory, line.as_bytes()) else {
            return Outcome::Wrong;
        };
        let tried = self.answers(memory, session, &command, want);
        drop(command);
        tried
    }
}
