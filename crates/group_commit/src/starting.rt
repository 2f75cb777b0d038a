//! A snapshot is begun.
ghost use Rattle.std.specs.Prelude.{◌≡◌, Ok, OnErr};
ghost use Rattle.vault_state.specs.Vault.{durable};
ghost use Rattle.vault_store.specs.declared.starting.Started.TheVariants as answers;
ghost use Rattle.vault_store.specs.Seen.{started_seen, wants_snapshot};
ghost use Rattle.group_commit.specs.World.{StartSnapshot};
ghost use Rattle.group_commit.specs.View.{book_of, view_acted};
ghost use Rattle.group_commit.specs.Seen.{snapshot_length};
ghost use Rattle.group_commit.specs.Calls.{MayStart};
ghost use Rattle.group_commit.specs.Companions.{StaysOfOneVault};
ghost use Rattle.group_commit.specs.Pasts.{IsAnswered};

use crate::{Started, Vault};
use std::alloc::Allocator;
use vault_device::Device;
use vault_model::NoMemory;
use vault_store::laws::what_is_noted_is_spelled;

impl<D: Device, A: Allocator + Copy> Vault<D, A> {
    /// Whether a snapshot is wanted: nothing is under way, and the active file has 1,048,576 bytes or more of frames, which an opening
    /// would read, or isn't of the current version.
    pub fn wants_snapshot(&self) -> bool
        ensures { result ≡ wants_snapshot self.now.store }
    {
        self.store.wants_snapshot()
    }

    /// Begins a snapshot: what was staged so far is sealed, and the next pumps write the durable vault after it into the other file.
    /// No device call. The memory for all bytes of that file is taken here, in one request at most, and kept for the next snapshot.
    /// `NotNow` and a refusal change nothing.
    pub fn start_snapshot(&mut self) -> Result<Started, NoMemory>
        ensures started { result ≡ Ok answers.Yes → self.new.view ≡ view_acted snapshot_length self.old.view StartSnapshot }
        ensures store { result ≡ Ok answers.Yes → self.new.store ≡ started_seen self.old.store (durable (book_of self.old.view)) }
        ensures may { result ≡ Ok answers.Yes → MayStart self.old }
        ensures may_not { result ≡ Ok answers.NotNow → MayStart self.old → ⊥ }
        ensures not_now { result ≡ Ok answers.NotNow → self.new ≡ self.old }
        ensures refused { OnErr result (self.new ≡ self.old) }
        ensures memory { OnErr result (MayStart self.old) }
        ensures life { self.new.life ≡ self.old.life }
        ensures answered { IsAnswered self.old self.new }
        ensures one_vault { StaysOfOneVault D.disk self.old self.new }
    {
        what_is_noted_is_spelled::<D>();
        let alloc = self.kept.allocator();
        let all = self.len();
        match self.store.start_snapshot(alloc, &self.book) {
            Ok(Started::Yes) => {
                self.sealed = all;
                Ok(Started::Yes)
            }
            Ok(Started::NotNow) => Ok(Started::NotNow),
            Err(error) => Err(error),
        }
    }
}
