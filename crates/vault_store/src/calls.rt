//! Calls of one device.
ghost use Rattle.std.specs.Prelude.{◌≡◌, ◌<◌, ◌≤◌, ◌+◌, ◌^◌, [], ◌↔◌, ◌⊎◌, IsTrue, IsErr, IfOk, OnOk, length};
ghost use Rattle.vault_device.specs.Disk.{IsSync, IsTornImage, LeavesSince, overwritten};
ghost use Rattle.vault_store.specs.Calls.{AreCalls, HasCause, AreQuiet};
ghost use Rattle.vault_store.specs.Opening.{IsHandedOn, AreSettled};
ghost use Rattle.vault_store.specs.OnDisk.{IsSettled};
ghost use Rattle.vault_store.specs.Read.{AreReads};

use vault_device::{Device, Fault};

/// Whether a device has no bytes. One device call.
pub fn is_empty<D: Device>(device: &mut D) -> Result<bool, Fault>
    ensures calls { AreCalls (D.disk device.old) (D.disk device.new) result }
    ensures reads { AreReads (D.disk device.old) (D.disk device.new) }
    ensures shown { IsTrue (D.disk device.old).honest → (D.disk device.new).shown ≡ (D.disk device.old).shown }
    ensures moments { IsTrue (D.disk device.old).honest → LeavesSince (D.disk device.old) (D.disk device.new) (D.disk device.old).IsImage }
    ensures empty { IsTrue (D.disk device.old).honest → IfOk result (λ empty. IsTrue empty ↔ ((D.disk device.old).shown ≡ [])) }
{
    Ok(device.len()? == 0)
}

/// Makes what a read gives durable. One device call.
pub fn settle<D: Device>(device: &mut D) -> Result<(), Fault>
    ensures calls { AreCalls (D.disk device.old) (D.disk device.new) result }
    ensures shown { IsTrue (D.disk device.old).honest → (D.disk device.new).shown ≡ (D.disk device.old).shown }
    ensures moments { IsTrue (D.disk device.old).honest → LeavesSince (D.disk device.old) (D.disk device.new) (D.disk device.old).IsImage }
    ensures settled { IsTrue (D.disk device.old).honest → OnOk result (IsSettled (D.disk device.new)) }
{
    device.sync()
}

/// Writes bytes and syncs them. Two device calls.
pub fn write_settled<D: Device>(device: &mut D, at: u64, bytes: &[u8]) -> Result<(), Fault>
    requires begin { IsTrue (D.disk device.old).honest → at ≤ length (D.disk device.old).shown }
    requires end { IsTrue (D.disk device.old).honest → at + length bytes.now < 2 ^ 63 }
    ensures calls { AreCalls (D.disk device.old) (D.disk device.new) result }
    ensures shown { IsTrue (D.disk device.old).honest
        → OnOk result ((D.disk device.new).shown ≡ overwritten (D.disk device.old).shown at bytes.now) }
    ensures moments { IsTrue (D.disk device.old).honest
        → LeavesSince (D.disk device.old) (D.disk device.new) (IsTornImage (D.disk device.old) at (length bytes.now)) }
    ensures settled { IsTrue (D.disk device.old).honest → OnOk result (IsSettled (D.disk device.new)) }
{
    device.write_at(at, bytes)?;
    settle(device)
}

/// Makes what two devices show durable. Two device calls.
pub fn settle_both<D: Device>(first: &mut D, second: &mut D) -> Result<(), Fault>
    ensures first { IsHandedOn (D.disk first.old) (D.disk first.new) }
    ensures second { IsHandedOn (D.disk second.old) (D.disk second.new) }
    ensures settled { OnOk result (AreSettled (D.disk first.new) (D.disk second.new)) }
    ensures quiet { OnOk result (AreQuiet (D.disk first.old) (D.disk second.old) (D.disk first.new) (D.disk second.new)) }
    ensures cause { IsErr result → HasCause (D.disk first.old) (D.disk first.new) ⊎ HasCause (D.disk second.old) (D.disk second.new) }
{
    settle(first)?;
    settle(second)
}
