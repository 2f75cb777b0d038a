//! The first call of a snapshot.
ghost use Rattle.std.specs.Prelude.{◌≡◌, Ok, OnErr};
ghost use Rattle.vault_state.specs.Vault.{IsVault, durable};
ghost use Rattle.vault_store.specs.declared.starting.Started.TheVariants as answers;
ghost use Rattle.vault_format.specs.Snapshot.{HasSnapshot};
ghost use Rattle.vault_store.specs.Companions.{IsOfOneVault};
ghost use Rattle.vault_store.specs.State.{StoreState, started};
ghost use Rattle.vault_store.specs.Seen.{Keeps, MayStart, started_seen, wants_snapshot};

use crate::snapshot::spell_file;
use crate::{FileVersion, Phase, Store};
use std::alloc::Allocator;
use vault_checkout::Book;
use vault_device::Device;
use vault_model::NoMemory;

// A snapshot is wanted from this many bytes of frames on.
const LONG_JOURNAL: u64 = 1_048_576;

/// Whether a snapshot was begun.
#[derive(Clone, Copy, Debug, PartialEq, Eq)]
pub enum Started {
    Yes,
    /// Something is under way, a device call failed, or there is no next generation.
    NotNow,
}

impl<D: Device, A: Allocator> Store<D, A> {
    /// Whether nothing is under way, and a snapshot is wanted: the active file has 1 MiB of frames or more, or it isn't of today's
    /// version.
    pub fn wants_snapshot(&self) -> bool
        ensures { result ≡ wants_snapshot self.now }
    {
        self.phase == Phase::Idle
            && (self.journal_length >= LONG_JOURNAL || self.version == FileVersion::One)
    }

    /// Begins a snapshot of what a restart would leave of this book. The book must have made all effects that were noted. No device
    /// call. It takes memory for all bytes of the snapshot's file at once, about as many as the book's contents and names have, less
    /// the buffer that was kept of the last snapshot.
    pub fn start_snapshot<B: Allocator + Copy>(
        &mut self,
        alloc: A,
        book: &Book<B>,
    ) -> Result<Started, NoMemory>
        requires vault { IsVault book.now }
        requires spelled { HasSnapshot (durable book.now) }
        ensures may { result ≡ Ok answers.Yes → MayStart self.old }
        ensures yes { result ≡ Ok answers.Yes → self.new ≡ started_seen self.old (durable book.now) }
        ensures kept { (s : StoreState) → result ≡ Ok answers.Yes → Keeps D.disk self.old s → s.noted ≡ durable book.now
            → Keeps D.disk self.new (started s) }
        ensures one_vault { result ≡ Ok answers.Yes → IsOfOneVault D.disk self.old → IsOfOneVault D.disk self.new }
        ensures may_not { result ≡ Ok answers.NotNow → MayStart self.old → ⊥ }
        ensures not_now { result ≡ Ok answers.NotNow → self.new ≡ self.old }
        ensures refused { OnErr result (self.new ≡ self.old) }
        ensures memory { OnErr result (MayStart self.old) }
    {
        if self.broken || self.phase != Phase::Idle || self.generation == u64::MAX {
            return Ok(Started::NotNow);
        }
        let room = self.room.take().unwrap_or(Vec::new(alloc));
        let rest = spell_file(room, self.generation + 1, book)?;
        self.rest = Some(rest);
        self.frame.clear();
        self.phase = Phase::Start;
        Ok(Started::Yes)
    }
}
