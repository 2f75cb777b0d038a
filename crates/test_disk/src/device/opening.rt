//! What the disk model is for: bytes that a crash at any moment leaves out or leaves whole.
ghost use Rattle.std.specs.Prelude.{◌≡◌, ◌+◌, ◌<◌, ◌≤◌, ◌^◌, ◌⊎◌, ◌++◌, List, ℕ, IsTrue, IsErr, OnOk, length};
ghost use Rattle.vault_device.specs.Disk.{LeavesSince, last_count};
ghost use Rattle.vault_device.specs.SettledByte.{stands_for, IsShut, IsOldOrNew};

use vault_device::{Device, Fault};

/// Writes the bytes behind a closed gate byte, syncs, opens the gate and syncs again.
pub(crate) fn append_behind<D: Device>(device: &mut D, gate: u64, bytes: &[u8]) -> Result<(), Fault>
    requires end { gate + 1 + length bytes.now < 2 ^ 63 }
    requires shut { IsTrue (D.disk device.old).honest → IsShut gate (D.disk device.old) }
    ensures any_moment { IsTrue (D.disk device.old).honest
        → LeavesSince (D.disk device.old) (D.disk device.new) (IsOldOrNew gate (D.disk device.old).shown bytes.now) }
    ensures images { IsTrue (D.disk device.old).honest → (x : List ℕ) → (D.disk device.new).IsImage x
        → IsOldOrNew gate (D.disk device.old).shown bytes.now x }
    ensures done { IsTrue (D.disk device.old).honest
        → OnOk result ((x : List ℕ) → (D.disk device.new).IsImage x
        → stands_for gate x ≡ stands_for gate (D.disk device.old).shown ++ bytes.now) }
    ensures cause { IsErr result → ((D.disk device.old).faults < (D.disk device.new).faults) ⊎ ((D.disk device.new).faults ≡ last_count) }
{
    device.write_at(gate + 1, bytes)?;
    device.sync()?;
    device.write_at(gate, &[1])?;
    device.sync()
}
