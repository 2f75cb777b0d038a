//! Acknowledged entries are dropped.

ghost use Rattle.std.specs.Prelude.{◌≡◌, ◌<◌, length, true, false};
ghost use Rattle.vault_protocol.specs.Talk.{all_gone};

use group_commit::promises::a_vault_keeps_its_history;
use group_commit::{Retired, Vault};
use std::alloc::Allocator;
use vault_device::Device;

// Drops the oldest entry, if it may be dropped. Whether it did.
fn let_one_go<D: Device, A: Allocator + Copy>(vault: &mut Vault<D, A>) -> bool
    ensures goes_on { result ≡ true → all_gone vault.new.view ≡ all_gone vault.old.view }
    ensures fewer { result ≡ true → length vault.new.view.kept < length vault.old.view.kept }
    ensures ends { result ≡ false → vault.new.view ≡ all_gone vault.old.view }
    ensures same { vault.new ≡ record vault.old { view = vault.new.view } }
{
    a_vault_keeps_its_history(vault);
    match vault.retire() {
        Retired::One => true,
        Retired::Nothing => false,
    }
}

/// Drops all entries that are durable and whose tickets aren't out, up to the first that isn't so.
pub(crate) fn let_go<D: Device, A: Allocator + Copy>(vault: &mut Vault<D, A>)
    ensures { vault.new ≡ record vault.old { view = all_gone vault.old.view } }
{
    while let_one_go(vault) {}
}
