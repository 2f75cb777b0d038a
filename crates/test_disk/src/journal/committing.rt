ghost use Rattle.std.specs.Prelude.{IsTrue};
ghost use Rattle.vault_journal.specs.Gate.{StaysClosed};

use crate::device::shows;
use std::alloc::Global;
use std::process::Abort;
use vault_device::{Device, Fault, MemDevice, Pick};
use vault_journal::{Frame, commit, open_gate, settle_body, write_body};
use vault_model::{Effect, EffectIn, Name, PlaceId};

// A frame with one record.
fn framed(rt: &impl Abort, memory: Global) -> Frame {
    let name = Name::read(b"e").expect(rt, "a name");
    let made: EffectIn<Global> = Effect::Made(PlaceId(0), name);
    let mut frame = Frame::new(memory).expect(rt, "a frame");
    frame.push_effect(&made);
    drop(made);
    frame
}

/// Does the first `steps` of a commit's four steps: 1 (the body), 3 (all but the last) or 4 (all).
fn does<D: Device>(device: &mut D, frame: &Frame, steps: u8) -> Result<(), Fault>
    requires closed { IsTrue (D.disk device.old).honest → StaysClosed 0 (D.disk device.old) }
{
    if steps == 4 {
        return commit(device, 0, frame);
    }
    write_body(device, 0, frame)?;
    if steps == 1 {
        return Ok(());
    }
    settle_body(device)?;
    open_gate(device, 0)
}

/// Whether the first `steps` of a commit, and then the crash (if any), leave these bytes. The device begins with a durable 0.
pub(crate) fn leaves(
    rt: &impl Abort,
    memory: Global,
    steps: u8,
    crash: Option<Pick>,
    expected: &[u8],
) -> bool {
    let frame = framed(rt, memory);
    let mut device = MemDevice::new(memory).expect(rt, "a device");
    let Ok(()) = device.write_at(0, &[0]) else {
        panic!(rt; "a write");
    };
    let Ok(()) = device.sync() else {
        panic!(rt; "a sync");
    };
    let is_done = does(&mut device, &frame, steps).is_ok();
    drop(frame);
    if let Some(pick) = crash {
        device.crash(pick);
    }
    let is_left = shows(&mut device, expected);
    drop(device);
    is_done && is_left
}
