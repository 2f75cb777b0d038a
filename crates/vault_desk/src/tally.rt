//! Two tallies: how many commands were staged, and how many replies were handed out.
ghost use Rattle.std.specs.Prelude.{◌≡◌, ℕ, ◌+◌, ◌≤◌};
ghost use Rattle.vault_state.specs.Vault.{new_vault};
ghost use Rattle.group_commit.specs.View.{View, opened_view};

use std::marker::{Brand, Model};
use std::sync::ledger::{Book as LedgerBook, Ledger, Share as Part};

/// A ledger that counts for one `Shared`.
pub trait Tally: Ledger {
    ghost use Rattle.logbook.specs.Pages.{Book};

    /// The view of the vault when that was made: what it had then isn't counted.
    ghost beginning: { View };

    /// All its parts: one for each worker, and one for what was counted before.
    ghost all: { ℕ };

    /// What the vault's past is kept in (`NewPast`).
    ghost book: { Book };
}

impl Tally for Brand {
    ghost beginning = { opened_view new_vault };

    ghost all = { 0 };

    ghost book = { record { number = 0; log_name = 0; cells_name = 0 } };
}

/// How many commands were staged, and how many replies were handed out.
#[derive(Debug, Clone, Copy, PartialEq, Eq)]
pub struct Totals {
    /// Commands that got a ticket.
    pub staged: u64,
    /// Receipts.
    pub told: u64,
}

/// A worker's part of both tallies: it counts the tickets and the receipts that the worker got. It can't be copied, and only
/// `Shared::new` makes one.
#[derive(Drop)]
pub struct Share<S: Tally, T: Tally> {
    pub(crate) counts: Totals,
    pub(crate) staged: Part<S>,
    pub(crate) told: Part<T>,
}

impl<S: Tally, T: Tally> Model for Share<S, T> {
    ghost use Rattle.std.specs.Prelude.{◌≡◌};
    ghost use Rattle.vault_desk.specs.declared.tally.Totals.{Totals};

    ghost Value = { Totals };

    ghost view = { λ s. s.counts };

    // Invariant 7 of lib.rt.
    ghost invariant = { λ s. (s.staged.parts ≡ 1) × (s.staged.amount ≡ s.counts.staged)
        × (s.told.parts ≡ 1) × (s.told.amount ≡ s.counts.told) };
}

impl<S: Tally, T: Tally> Share<S, T> {
    /// What it counted.
    pub fn counts(&self) -> Totals
        ensures { result ≡ self.now }
    {
        self.counts
    }

    /// What this share and another one count is at most the total of each book.
    pub(crate) fn audit_beside(
        &mut self,
        other: &mut Share<S, T>,
        staged: &mut LedgerBook<S>,
        told: &mut LedgerBook<T>,
    )
        ensures same { (self.new ≡ self.old) × (other.new ≡ other.old) }
        ensures books { (staged.new.total ≡ staged.old.total) × (told.new.total ≡ told.old.total) }
        ensures staged { self.new.staged + other.new.staged ≤ staged.new.total }
        ensures told { self.new.told + other.new.told ≤ told.new.total }
    {
        audit_both(
            staged,
            &mut self.staged,
            &mut other.staged,
            other.counts.staged,
        );
        audit_both(told, &mut self.told, &mut other.told, other.counts.told);
    }
}

// What two parts have is at most the book's total.
fn audit_both<L: Ledger>(
    book: &mut LedgerBook<L>,
    mine: &mut Part<L>,
    other: &mut Part<L>,
    amount: u64,
)
    requires parts { (mine.old.parts ≡ 1) × (other.old.parts ≡ 1) }
    requires amount { other.old.amount ≡ amount }
    ensures book { book.new.total ≡ book.old.total }
    ensures mine { (mine.new.parts ≡ mine.old.parts) × (mine.new.amount ≡ mine.old.amount) }
    ensures other { (other.new.parts ≡ other.old.parts) × (other.new.amount ≡ other.old.amount) }
    ensures within { mine.old.amount + other.old.amount ≤ book.old.total }
{
    other.give(mine, 1, amount);
    book.audit(mine);
    mine.give(other, 1, amount);
}
