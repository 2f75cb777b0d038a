//! Tickets are redeemed, or forgotten.
ghost use Rattle.std.specs.Prelude.{◌≡◌, ◌<◌, ◌-◌, length, IfSome, IfNone, Some};
ghost use Rattle.group_commit.specs.Entries.{mark_at};
ghost use Rattle.group_commit.specs.Seen.{snapshot_length};
ghost use Rattle.group_commit.specs.Calls.{NamesOpen, IsRedeemed, IsForgotten};
ghost use Rattle.group_commit.specs.Pasts.{IsAnswered};

use crate::{Forgotten, Mark, Redeemed, Ticket, Vault};
use std::alloc::Allocator;
use vault_device::Device;
use vault_model::NoMemory;

impl<D: Device, A: Allocator + Copy> Vault<D, A> {
    // Where the open entry that a ticket names is kept.
    fn open_position(&self, ticket: &Ticket<A>) -> Option<usize>
        ensures some { IfSome result (λ position. NamesOpen self.now ticket.now × (position ≡ ticket.now.position - self.now.view.retired)
            × (position < length self.now.view.kept)) }
        ensures none { IfNone result (NamesOpen self.now ticket.now → ⊥) }
    {
        if ticket.life() != self.life || ticket.position() < self.retired {
            return None;
        }
        let position = (ticket.position() - self.retired) as usize;
        match self.kept.mark_at(position) {
            Some(Mark::Open) => Some(position),
            _ => None,
        }
    }

    /// The reply of the entry that a ticket names, once that is durable: the entry is then closed. Else the ticket comes
    /// back, and nothing changes. No device call.
    pub fn redeem(&mut self, ticket: Ticket<A>) -> Redeemed<A>
        ensures told { IsRedeemed self.old self.new ticket result }
        ensures answered { IsAnswered self.old self.new }
    {
        let Some(position) = self.open_position(&ticket) else {
            return Redeemed::Stranger(ticket);
        };
        if ticket.position() >= self.settled {
            return if self.broken {
                Redeemed::Unknown(ticket)
            } else {
                Redeemed::NotYet(ticket)
            };
        }
        match self.kept.reply_at(position) {
            Ok(reply) => {
                self.kept.close(position, Mark::Told);
                self.told += 1;
                Redeemed::Told(ticket.into_receipt(reply))
            }
            Err(NoMemory) => Redeemed::NoMemory(ticket),
        }
    }

    /// Spends a ticket without its reply, and closes its entry. No allocation and no device call.
    pub fn forget(&mut self, ticket: Ticket<A>) -> Forgotten
        ensures closed { IsForgotten self.old self.new ticket result }
        ensures answered { IsAnswered self.old self.new }
    {
        let Some(position) = self.open_position(&ticket) else {
            ticket.discard();
            return Forgotten::Stranger;
        };
        ticket.discard();
        self.kept.close(position, Mark::Forgotten);
        Forgotten::Here
    }
}
