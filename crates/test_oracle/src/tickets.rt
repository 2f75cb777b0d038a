//! Tickets that are out.

use crate::files::new_vault;
use group_commit::{Ticket, Vault};
use std::alloc::Global;
use std::collections::VecDeque;
use vault_device::MemDevice;

// A life that no ticket belongs to.
const NOBODY: u64 = 0;

/// A ticket, its life, and the position that its command was staged at.
pub(crate) struct Held {
    pub life: u64,
    pub position: u64,
    pub ticket: Ticket,
}

/// Tickets that are out, of this life and of earlier ones. They end by `close`, since a ticket can't be dropped.
pub(crate) struct Tickets {
    held: VecDeque<Held>,
    // A vault that no ticket belongs to. Each ticket can be given up there.
    nobody: Vault<MemDevice>,
}

// Spends a ticket, at a vault that it doesn't belong to.
fn give_up(nobody: &mut Vault<MemDevice>, held: Held) {
    let Held {
        life: _,
        position: _,
        ticket,
    } = held;
    let _ = nobody.forget(ticket);
}

fn give_all_up(nobody: &mut Vault<MemDevice>, mut tickets: VecDeque<Held>) {
    while let Some(held) = tickets.pop_front() {
        give_up(nobody, held);
    }
    tickets.destroy_empty();
}

impl Tickets {
    /// No tickets.
    pub(crate) fn new(alloc: Global) -> Option<Tickets> {
        let nobody = new_vault(alloc, NOBODY)?;
        Some(Tickets {
            held: VecDeque::new(alloc),
            nobody,
        })
    }

    /// How many tickets there are.
    pub(crate) fn len(&self) -> usize {
        self.held.len()
    }

    /// Adds a ticket at the end. If out of memory, it is spent.
    pub(crate) fn push(&mut self, held: Held) {
        if let Err(refused) = self.held.push_back(held) {
            self.give_up(refused.value);
        }
    }

    /// Takes the first ticket.
    pub(crate) fn take(&mut self) -> Option<Held> {
        self.held.pop_front()
    }

    /// Spends a ticket.
    pub(crate) fn give_up(&mut self, held: Held) {
        give_up(&mut self.nobody, held);
    }

    /// Spends all tickets.
    pub(crate) fn close(self) {
        let Tickets { held, mut nobody } = self;
        give_all_up(&mut nobody, held);
        drop(nobody);
    }
}
