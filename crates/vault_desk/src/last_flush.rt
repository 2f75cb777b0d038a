//! The last commit, of a vault that nobody shares any more.
ghost use Rattle.std.specs.Prelude.{◌≡◌, ◌⊎◌, IsTrue, true};
ghost use Rattle.group_commit.specs.View.{View, length_of};
ghost use Rattle.vault_desk.specs.Acts.{GoesOn};
ghost use Rattle.vault_desk.specs.Pumping.{IsAtRest};

use crate::gate::{Gate, Point};
use group_commit::{Phase, Vault};
use std::alloc::Allocator;
use std::sync::Wait;
use vault_device::Device;

/// Makes every entry durable and ends what is under way, unless a device call failed or fails.
pub fn flush<D: Device, A: Allocator + Copy, G: Gate, H: Wait>(
    rt: &H,
    gate: &G,
    vault: &mut Vault<D, A>,
)
    ensures flushed { (vault.new.view.broken ≡ true) ⊎ IsAtRest vault.new.view }
    ensures same { (length_of vault.new.view ≡ length_of vault.old.view) × (vault.new.view.told ≡ vault.old.view.told) }
    ensures acts { (first : View) → GoesOn first vault.old.view → GoesOn first vault.new.view }
{
    for _ in rt.forever() {
        if vault.is_broken() || is_at_rest(vault) {
            return;
        }
        gate.at(Point::Pump);
        let _ = vault.pump();
    }
    unreachable!()
}

// Whether every entry is durable, and neither a commit nor a snapshot is under way.
fn is_at_rest<D: Device, A: Allocator + Copy>(vault: &Vault<D, A>) -> bool
    ensures { IsTrue result → IsAtRest vault.now.view }
{
    vault.durable() == vault.len() && vault.phase() == Phase::Idle
}
