//! A commit's first two device calls: one writes the frame's body behind the commit mark (the gate), one syncs it.
ghost use Rattle.std.specs.Prelude.{◌<◌, ◌+◌, ◌^◌, List, ℕ, IsTrue};
ghost use Rattle.vault_device.specs.Disk.{IsOneCall, IsWrite, IsSync, LeavesSince};
ghost use Rattle.vault_journal.specs.Gate.{body_of, frame_room, StaysClosed, IsBehind};

use crate::Frame;
use std::alloc::Allocator;
use vault_device::{Device, Fault};

/// Writes the records' length, the records and a closed mark behind the frame's own commit mark, which has to be durable and
/// closed. One device call.
pub fn write_body<D: Device, A: Allocator>(
    device: &mut D,
    gate: u64,
    frame: &Frame<A>,
) -> Result<(), Fault>
    requires end { gate + 1 + frame_room < 2 ^ 63 }
    requires closed { IsTrue (D.disk device.old).honest → StaysClosed gate (D.disk device.old) }
    ensures one_call { IsOneCall (D.disk device.old) (D.disk device.new) result }
    ensures write { IsTrue (D.disk device.old).honest
        → IsWrite (gate + 1) (body_of frame.now) result (D.disk device.old) (D.disk device.new) }

    // A crash during the call or after it leaves the commit mark closed, and up to it what a crash before the call could leave.
    ensures moments { IsTrue (D.disk device.old).honest
        → LeavesSince (D.disk device.old) (D.disk device.new) (IsBehind gate (D.disk device.old)) }
    ensures images { IsTrue (D.disk device.old).honest → (x : List ℕ) → (D.disk device.new).IsImage x
        → IsBehind gate (D.disk device.old) x }
{
    device.write_at(gate + 1, frame.body())
}

/// Syncs the body. One device call.
pub fn settle_body<D: Device>(device: &mut D) -> Result<(), Fault>
    ensures one_call { IsOneCall (D.disk device.old) (D.disk device.new) result }
    ensures sync { IsTrue (D.disk device.old).honest → IsSync result (D.disk device.old) (D.disk device.new) }
    ensures moments { IsTrue (D.disk device.old).honest → LeavesSince (D.disk device.old) (D.disk device.new) (D.disk device.old).IsImage }
{
    device.sync()
}
