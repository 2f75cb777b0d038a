//! A book that is given commands.
ghost use Rattle.std.specs.Prelude.{◌+◌};
ghost use Rattle.vault_state.specs.Vault.{CountsBelow};

use std::alloc::Global;
use vault_checkout::Book;
use vault_model::{Command, Effect, Reply};

// How many commands a book is given at most before it is restarted.
const MAX_SAID: u64 = 1 << 40;

/// A book, and how many commands it was given since it was made or restarted.
#[derive(Drop)]
pub struct Talk {
    book: Book,
    said: u64,
    ghost counts: { CountsBelow (said + 1) book },
}

impl Talk {
    /// The book of a new vault.
    pub fn new(alloc: Global) -> Option<Talk> {
        match Book::new(alloc) {
            Ok(book) => Some(Talk { book, said: 0 }),
            Err(_) => None,
        }
    }

    /// This book, restarted as opening does it.
    pub fn over(book: Book) -> Talk {
        let mut book = book;
        book.restart();
        Talk { book, said: 0 }
    }

    /// The book itself.
    pub fn book(&self) -> &Book {
        &self.book
    }

    /// Gives the book a session's command: the reply and its effect. None if out of memory.
    pub fn tell(&mut self, session: u32, command: &Command) -> Option<(Reply, Option<Effect>)> {
        if self.said >= MAX_SAID {
            return None;
        }
        let told = self.book.act(session, command).ok()?;
        self.said += 1;
        Some(told)
    }

    /// Restarts the book.
    pub fn restart(&mut self) {
        self.book.restart();
        self.said = 0;
    }
}
