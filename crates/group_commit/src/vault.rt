//! A vault with the history of its present life.
ghost use Rattle.std.specs.Prelude.{◌≡◌, ◌-◌, length};
ghost use Rattle.vault_state.specs.Claims.{standing_of};
ghost use Rattle.vault_store.specs.Seen.{first_of, second_of};

use crate::bygone::Bygone;
use crate::entry::Entry;
use crate::window::Window;
use crate::{FileVersion, Phase};
use std::alloc::{Allocator, Global};
use std::marker::Model;
use std::snapshot::Snapshot;
use vault_checkout::Book;
use vault_device::Device;
use vault_model::{ClaimId, Standing};
use vault_store::Store;

/// A vault in two files, with the history of its present life. Positions count from the life's start.
#[derive(Drop)]
pub struct Vault<D: Device, A: Allocator = Global> {
    /// The two files.
    pub(crate) store: Store<D, A>,
    /// The book with which this life began. It takes no bytes.
    pub(crate) base: Snapshot<Book<A>>,
    /// The entries that were retired. They take no bytes.
    pub(crate) bygone: Bygone<Entry<A>>,
    /// The vault after all entries.
    pub(crate) book: Book<A>,
    /// The entries of this life that aren't retired, each with what became of its ticket.
    pub(crate) kept: Window<A>,
    /// How many entries were retired.
    pub(crate) retired: u64,
    /// How many entries are durable.
    pub(crate) settled: u64,
    /// During a commit: how many entries are in frames, including that commit's. During a snapshot: how many are in it.
    pub(crate) sealed: u64,
    /// How many receipts were given.
    pub(crate) told: u64,
    /// Whether a device call failed. No command is taken then.
    pub(crate) broken: bool,
    /// The number of this life, by which a ticket of another one is recognized.
    pub(crate) life: u64,
}

impl<D: Device, A: Allocator> Model for Vault<D, A> {
    ghost use Rattle.group_commit.specs.Seen.{VaultSeen};

    ghost Value = { VaultSeen D };

    ghost use Rattle.group_commit.specs.Inside.{seen_of, IsSoundVault, AreGone};

    ghost view = { seen_of };

    ghost invariant = { λ v. IsSoundVault D.disk (seen_of v) v.book × AreGone v.bygone.items v.kept v.retired v.told };
}

impl<D: Device, A: Allocator + Copy> Vault<D, A> {
    ghost use Rattle.group_commit.specs.View.{length_of, book_of};

    /// How many entries this life has.
    pub fn len(&self) -> u64
        ensures { result ≡ length_of self.now.view }
    {
        self.retired + self.kept.len() as u64
    }

    /// How many of them are durable.
    pub fn durable(&self) -> u64
        ensures { result ≡ self.now.view.settled }
    {
        self.settled
    }

    /// How many entries are kept.
    pub fn kept(&self) -> u64
        ensures { result ≡ length self.now.view.kept }
    {
        self.kept.len() as u64
    }

    /// How many entries were acknowledged in this life.
    pub fn told(&self) -> u64
        ensures { result ≡ self.now.view.told }
    {
        self.told
    }

    /// The number of this life.
    pub fn life(&self) -> u64
        ensures { result ≡ self.now.life }
    {
        self.life
    }

    /// Which step of a commit or of a snapshot comes next.
    pub fn phase(&self) -> Phase
        ensures { result ≡ self.now.view.phase }
    {
        self.store.phase()
    }

    /// The version of the active file.
    pub fn version(&self) -> FileVersion
        ensures { result ≡ self.now.store.version }
    {
        self.store.version()
    }

    /// How many bytes of frames the active file has.
    pub fn journal_len(&self) -> u64
        ensures { result ≡ self.now.store.journal_length }
    {
        self.store.journal_len()
    }

    /// How many bytes the active file had before its first frame: its header and its snapshot.
    pub fn snapshot_len(&self) -> u64
        ensures { result ≡ self.now.store.tail - self.now.store.journal_length }
    {
        self.store.snapshot_len()
    }

    /// Whether a device call failed.
    pub fn is_broken(&self) -> bool
        ensures { result ≡ self.now.view.broken }
    {
        self.broken
    }

    /// How a claim stands after all entries. None where there is no such claim.
    pub fn standing(&self, id: ClaimId) -> Option<Standing>
        ensures { result ≡ standing_of (book_of self.now.view).tree (book_of self.now.view).line id }
    {
        standing(&self.book, id)
    }

    /// The devices. What isn't durable is lost.
    pub fn into_devices(self) -> (D, D)
        ensures first { result.0 ≡ first_of self.store }
        ensures second { result.1 ≡ second_of self.store }
    {
        let Vault {
            store,
            base: _base,
            bygone: _bygone,
            book,
            kept,
            retired: _,
            settled: _,
            sealed: _,
            told: _,
            broken: _,
            life: _,
        } = self;
        drop(book);
        drop(kept);
        store.into_devices()
    }
}

// How a claim stands in a book.
fn standing<A: Allocator + Copy>(book: &Book<A>, id: ClaimId) -> Option<Standing>
    ensures { result ≡ standing_of book.now.tree book.now.line id }
{
    // The contract of this call says that the book is well formed, and so its tree.
    let _ = book.check_out_of(0);
    book.line().standing(id)
}
