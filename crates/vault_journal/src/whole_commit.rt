//! A whole commit, for a caller that does nothing between its four device calls.
ghost use Rattle.std.specs.Prelude.{◌≡◌, ◌<◌, ◌+◌, ◌^◌, ◌⊎◌, IsTrue, IsErr, OnOk, slice_set};
ghost use Rattle.vault_device.specs.Disk.{LeavesOnly, LeavesSince, overwritten, last_count};
ghost use Rattle.vault_journal.specs.Gate.{body_of, frame_room, StaysClosed, IsCommitting};

use crate::{Frame, open_gate, settle_body, settle_gate, write_body};
use std::alloc::Allocator;
use vault_device::{Device, Fault};

/// Writes a frame behind the commit mark (the gate), syncs, opens the mark, and syncs. Four device calls, or fewer at a fault.
pub fn commit<D: Device, A: Allocator>(
    device: &mut D,
    gate: u64,
    frame: &Frame<A>,
) -> Result<(), Fault>
    requires end { gate + 1 + frame_room < 2 ^ 63 }
    requires closed { IsTrue (D.disk device.old).honest → StaysClosed gate (D.disk device.old) }
    ensures moments { IsTrue (D.disk device.old).honest
        → LeavesSince (D.disk device.old) (D.disk device.new) (IsCommitting gate (body_of frame.now) (D.disk device.old)) }
    ensures done { IsTrue (D.disk device.old).honest
        → OnOk result (LeavesOnly (D.disk device.new)
        (slice_set (overwritten (D.disk device.old).shown (gate + 1) (body_of frame.now)) gate 1)) }
    ensures cause { IsErr result → ((D.disk device.old).faults < (D.disk device.new).faults) ⊎ ((D.disk device.new).faults ≡ last_count) }
{
    write_body(device, gate, frame)?;
    settle_body(device)?;
    open_gate(device, gate)?;
    settle_gate(device)
}
