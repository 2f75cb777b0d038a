//! A command gets its position in the history.
ghost use Rattle.std.specs.Prelude.{◌≡◌, ◌++◌, IfOk, IfErr, OnOk, OnErr};
ghost use Rattle.vault_model.specs.Step.{step};
ghost use Rattle.group_commit.specs.History.{entry_of};
ghost use Rattle.group_commit.specs.World.{Stage};
ghost use Rattle.group_commit.specs.View.{length_of, book_of, ViewAllows, view_acted};
ghost use Rattle.group_commit.specs.Ticket.{ticket_of};
ghost use Rattle.group_commit.specs.Seen.{snapshot_length};
ghost use Rattle.group_commit.specs.Calls.{IsBusy, IsReason, noted};
ghost use Rattle.group_commit.specs.Companions.{StaysOfOneVault};
ghost use Rattle.group_commit.specs.Pasts.{IsAnswered};

use crate::entry::Entry;
use crate::noting::note_any;
use crate::window::MAX_KEPT;
use crate::{Ticket, Vault};
use std::alloc::Allocator;
use std::snapshot::Snapshot;
use vault_device::Device;
use vault_model::{CommandIn, NoMemory, Outside};

impl<D: Device, A: Allocator + Copy> Vault<D, A> {
    /// Gives a session's command a position in the history, and a ticket for its reply. A refusal hands the command back, and
    /// nothing changes. No device call.
    pub fn stage(
        &mut self,
        session: u32,
        command: CommandIn<A>,
    ) -> Result<Ticket<A>, (Outside, CommandIn<A>)>
        ensures allowed { OnOk result (ViewAllows snapshot_length self.old.view (Stage session command)) }
        ensures room { OnOk result (IsBusy self.old → ⊥) }
        ensures staged { OnOk result (self.new.view ≡ view_acted snapshot_length self.old.view (Stage session command)) }
        ensures noted { OnOk result (self.new.store ≡ noted (step (book_of self.old.view) session command).effect self.old.store) }
        ensures life { self.new.life ≡ self.old.life }
        ensures ticket { IfOk result
            (λ ticket. ticket ≡ ticket_of self.old.life (length_of self.old.view) (entry_of (book_of self.old.view) session command)) }
        ensures refused { OnErr result (self.new ≡ self.old) }
        ensures handed_back { IfErr result (λ refusal. refusal.1 ≡ command) }
        ensures reason { IfErr result (λ refusal. IsReason self.old refusal.0) }
        ensures answered { IsAnswered self.old self.new }
        ensures one_vault { StaysOfOneVault D.disk self.old self.new }
    {
        if self.broken {
            return Err((Outside::Broken, command));
        }
        let position = self.len();
        if self.kept.len() >= MAX_KEPT || !self.store.room() || position == u64::MAX {
            return Err((Outside::Busy, command));
        }
        let before = Snapshot::of(&self.book);
        let (reply, effect) = match self.book.act(session, &command) {
            Ok(acted) => acted,
            Err(NoMemory) => return Err((Outside::NoMemory, command)),
        };
        note_any(&mut self.store, effect);
        let entry = Entry::open(session, before, &command, reply);
        let ticket = Ticket::issue(self.life, position, &entry);
        self.kept.push(entry);
        Ok(ticket)
    }
}
