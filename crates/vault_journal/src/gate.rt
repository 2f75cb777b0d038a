//! A commit's last two device calls: one opens the commit mark (the gate), one syncs it.
ghost use Rattle.std.specs.Prelude.{◌≡◌, ◌<◌, ◌+◌, ◌^◌, [], ◌∷◌, List, ℕ, IsTrue, OnOk, length, slice_set};
ghost use Rattle.vault_device.specs.Disk.{IsOneCall, IsWrite, IsSync, LeavesOnly, LeavesSince};
ghost use Rattle.vault_journal.specs.Gate.{IsOpening, SameBut};

use vault_device::{Device, Fault};

/// Writes 1 into the commit mark. All that stands on the disk has to be durable before. One device call.
pub fn open_gate<D: Device>(device: &mut D, gate: u64) -> Result<(), Fault>
    requires end { gate + 1 < 2 ^ 63 }
    requires stands { IsTrue (D.disk device.old).honest → gate < length (D.disk device.old).shown }
    requires settled { IsTrue (D.disk device.old).honest → LeavesOnly (D.disk device.old) (D.disk device.old).shown }
    ensures one_call { IsOneCall (D.disk device.old) (D.disk device.new) result }
    ensures write { IsTrue (D.disk device.old).honest → IsWrite gate (1 ∷ []) result (D.disk device.old) (D.disk device.new) }
    ensures opened { IsTrue (D.disk device.old).honest
        → OnOk result ((D.disk device.new).shown ≡ slice_set (D.disk device.old).shown gate 1) }

    // A crash during the call or after it leaves the durable bytes, but for the commit mark, which is open or closed.
    ensures moments { IsTrue (D.disk device.old).honest
        → LeavesSince (D.disk device.old) (D.disk device.new) (IsOpening gate (D.disk device.old).shown) }
    ensures images { IsTrue (D.disk device.old).honest → (x : List ℕ) → (D.disk device.new).IsImage x
        → IsOpening gate (D.disk device.old).shown x }
    ensures read { IsTrue (D.disk device.old).honest → (x : List ℕ) → (D.disk device.new).IsImage x
        → SameBut gate (D.disk device.new).shown x }
{
    device.write_at(gate, &[1])
}

/// Syncs the open commit mark. One device call.
pub fn settle_gate<D: Device>(device: &mut D) -> Result<(), Fault>
    ensures one_call { IsOneCall (D.disk device.old) (D.disk device.new) result }
    ensures sync { IsTrue (D.disk device.old).honest → IsSync result (D.disk device.old) (D.disk device.new) }
    ensures moments { IsTrue (D.disk device.old).honest → LeavesSince (D.disk device.old) (D.disk device.new) (D.disk device.old).IsImage }
{
    device.sync()
}
