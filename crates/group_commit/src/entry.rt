//! An entry of the history, as it is kept.
ghost use Rattle.std.specs.Prelude.{◌≡◌, IfOk};
ghost use Rattle.vault_state.specs.Vault.{Vault};
ghost use Rattle.group_commit.specs.History.{number_of};
ghost use Rattle.group_commit.specs.Entries.{Entry as Given, opened};

use crate::Mark;
use std::alloc::Allocator;
use std::marker::Model;
use std::snapshot::Snapshot;
use vault_checkout::Book;
use vault_model::{CommandIn, NoMemory, ReplyIn};

/// The reply to a session's command, and what became of its ticket. The session, its command and the book before the command are
/// for contracts alone, and take no memory. That book gives the command its number in the session.
#[derive(Drop)]
pub(crate) struct Entry<A: Allocator> {
    session: Snapshot<u32>,
    before: Snapshot<Book<A>>,
    command: Snapshot<CommandIn<A>>,
    reply: ReplyIn<A>,
    mark: Mark,
}

impl<A: Allocator> Model for Entry<A> {
    ghost use Rattle.group_commit.specs.Entries.{Kept};

    ghost Value = { Kept };

    ghost use Rattle.group_commit.specs.History.{number_of};

    ghost view = { λ e. record {
      entry = record {
        session = e.session.value;
        number = number_of e.before.value e.session.value;
        command = e.command.value;
        reply = e.reply;
      };
      mark = e.mark;
    } };
}

impl<A: Allocator> Entry<A> {
    /// An entry whose ticket is outstanding.
    pub fn open(
        session: u32,
        before: Snapshot<Book<A>>,
        command: &CommandIn<A>,
        reply: ReplyIn<A>,
    ) -> Entry<A>
        ensures { result ≡ opened
            (record { session = session; number = number_of before.value session; command = command.now; reply = reply }) }
    {
        Entry {
            session: Snapshot::of(&session),
            before,
            command: Snapshot::of(command),
            reply,
            mark: Mark::Open,
        }
    }

    /// What became of its ticket.
    pub fn mark(&self) -> Mark
        ensures { result ≡ self.now.mark }
    {
        self.mark
    }

    /// The same entry, closed.
    pub fn close(&mut self, mark: Mark)
        ensures { self.new ≡ record self.old { mark = mark } }
    {
        self.mark = mark;
    }

    /// A copy of the reply.
    pub fn reply<B: Allocator>(&self, alloc: B) -> Result<ReplyIn<B>, NoMemory>
        ensures { IfOk result (λ reply. reply ≡ self.now.entry.reply) }
    {
        self.reply.copy(alloc)
    }
}
