//! The oldest entries are dropped.
ghost use Rattle.std.specs.Prelude.{◌≡◌};
ghost use Rattle.group_commit.specs.View.{length_of};
ghost use Rattle.group_commit.specs.Calls.{IsRetired};
ghost use Rattle.group_commit.specs.Pasts.{IsAnswered};

use crate::{Retired, Vault};
use std::alloc::Allocator;
use vault_device::Device;

impl<D: Device, A: Allocator + Copy> Vault<D, A> {
    /// Drops the oldest kept entry, where it is durable and its ticket isn't outstanding. This makes room for another. No allocation and
    /// no device call; its cost doesn't grow with the number of kept entries.
    pub fn retire(&mut self) -> Retired
        ensures retired { IsRetired self.old self.new result }
        ensures same { (length_of self.new.view ≡ length_of self.old.view) × (self.new.view.told ≡ self.old.view.told) }
        ensures answered { IsAnswered self.old self.new }
    {
        if self.retired == self.settled {
            return Retired::Nothing;
        }
        if self.kept.first_is_open() {
            return Retired::Nothing;
        }
        let entry = self.kept.pop();
        self.bygone = self.bygone.and(&entry);
        self.retired += 1;
        Retired::One
    }
}
