//! Tickets and receipts.
ghost use Rattle.std.specs.Prelude.{◌≡◌};
ghost use Rattle.group_commit.specs.Ticket.{ticket_of, told_for};

use crate::entry::Entry;
use std::alloc::{Allocator, Global};
use std::marker::Model;
use std::snapshot::Snapshot;
use vault_model::ReplyIn;

/// Stands for an open entry of a vault's history. It can't be dropped: it ends by being acknowledged or forgotten.
pub struct Ticket<A: Allocator = Global> {
    life: u64,
    position: u64,
    entry: Snapshot<Entry<A>>,
}

impl<A: Allocator> Model for Ticket<A> {
    ghost use Rattle.group_commit.specs.Ticket.{TicketSeen, ticket_of};

    ghost Value = { TicketSeen };

    ghost view = { λ t. ticket_of t.life t.position t.entry.value.entry };
}

impl<A: Allocator> Ticket<A> {
    pub(crate) fn issue(life: u64, position: u64, entry: &Entry<A>) -> Ticket<A>
        ensures { result ≡ ticket_of life position entry.now.entry }
    {
        Ticket {
            life,
            position,
            entry: Snapshot::of(entry),
        }
    }

    /// Where its entry stands in the history, counted from the life's start.
    pub fn position(&self) -> u64
        ensures { result ≡ self.now.position }
    {
        self.position
    }

    pub(crate) fn life(&self) -> u64
        ensures { result ≡ self.now.life }
    {
        self.life
    }

    pub(crate) fn discard(self) {
        let Ticket {
            life: _,
            position: _,
            entry: _,
        } = self;
    }

    pub(crate) fn into_receipt(self, reply: ReplyIn<A>) -> Receipt<A>
        ensures { result ≡ told_for self reply }
    {
        let Ticket {
            life: _,
            position,
            entry,
        } = self;
        Receipt {
            position,
            entry,
            reply,
        }
    }
}

/// The reply of a durable entry.
#[derive(Drop)]
pub struct Receipt<A: Allocator = Global> {
    position: u64,
    entry: Snapshot<Entry<A>>,
    reply: ReplyIn<A>,
}

impl<A: Allocator> Model for Receipt<A> {
    ghost use Rattle.group_commit.specs.Ticket.{Told};

    ghost Value = { Told };

    ghost view = { λ r. record {
      position = r.position;
      session = r.entry.value.entry.session;
      number = r.entry.value.entry.number;
      command = r.entry.value.entry.command;
      reply = r.reply;
    } };
}

impl<A: Allocator> Receipt<A> {
    /// The reply to the session.
    pub fn reply(&self) -> &ReplyIn<A>
        ensures { result.now ≡ self.now.reply }
    {
        &self.reply
    }
}
