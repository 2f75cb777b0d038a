mod opening;
mod short_file;

use opening::append_behind;
use short_file::ShortFile;
use std::alloc::{Allocator, Global};
use std::fs;
use test_memory::{Outcome, Refusing};
use vault_device::{Device, Fault, FileDevice, MemDevice, Pick};

/// Bytes, and where they are written.
type Write = (u64, &'static [u8]);

/// Whether the device shows these bytes.
pub(crate) fn shows<D: Device>(device: &mut D, expected: &[u8]) -> bool {
    let mut read = [0; 104];
    let len = expected.len();
    if len > 104 || device.len() != Ok(len as u64) {
        return false;
    }
    device.read_at(0, &mut read[..len]).is_ok() && &read[..len] == expected
}

/// Writes where that is inside the device or at its end, and says whether it did.
fn writes<D: Device>(device: &mut D, at: u64, bytes: &[u8]) -> bool {
    if at > 1000 || bytes.len() > 1000 {
        return false;
    }
    match device.len() {
        Ok(len) if len >= at => device.write_at(at, bytes).is_ok(),
        _ => false,
    }
}

/// Whether all this is written.
fn writes_all<D: Device>(device: &mut D, rows: &[Write]) -> bool {
    for (at, bytes) in rows {
        if !writes(device, *at, bytes) {
            return false;
        }
    }
    true
}

/// Whether all this is written and synced, and the device then shows these bytes.
fn keeps<D: Device>(device: &mut D, rows: &[Write], expected: &[u8]) -> bool {
    writes_all(device, rows) && device.sync().is_ok() && shows(device, expected)
}

/// Whether these writes over `abc` and a crash with this pick leave these bytes, and they are durable.
fn leaves(memory: Global, rows: &[Write], pick: Pick, left: &[u8]) -> bool {
    let Ok(mut device) = MemDevice::new(memory) else {
        return false;
    };
    let is_written = keeps(&mut device, &[(0, b"abc")], b"abc") && writes_all(&mut device, rows);
    device.crash(pick);
    let is_left = shows(&mut device, left);
    device.crash(Pick::Old);
    let is_settled = shows(&mut device, left);
    drop(device);
    is_written && is_left && is_settled
}

#[test]
fn picks(rt: HostRuntime) {
    for (rows, pick, left) in &PICKS {
        assert!(rt; leaves(rt.alloc(), rows, *pick, left), "{pick:?} {left:?}");
    }
}

/// What is written over `abc`, what a crash keeps of it (`Pick`), and the bytes left.
static PICKS: [(&[Write], Pick, &[u8]); 23] = [
    (&[], Pick::Old, b"abc"),
    (&[], Pick::New, b"abc"),
    (&[], Pick::Bytes(b'-'), b"abc"),
    (&[(1, b"X")], Pick::Old, b"abc"),
    (&[(1, b"X")], Pick::New, b"aXc"),
    (&[(1, b"X")], Pick::Bytes(b'-'), b"a-c"),
    (&[(1, b"XY"), (2, b"Z")], Pick::Old, b"abc"),
    (&[(1, b"XY"), (2, b"Z")], Pick::New, b"aXZ"),
    (&[(1, b"XY"), (2, b"Z")], Pick::Bytes(b'-'), b"a--"),
    (&[(0, b"X"), (2, b"Y")], Pick::Old, b"abc"),
    (&[(0, b"X"), (2, b"Y")], Pick::New, b"XbY"),
    (&[(0, b"X"), (2, b"Y")], Pick::Bytes(b'-'), b"-b-"),
    (&[(2, b"XYZ")], Pick::Old, b"abc"),
    (&[(2, b"XYZ")], Pick::New, b"abXYZ"),
    (&[(2, b"XYZ")], Pick::Bytes(b'-'), b"ab---"),
    (&[(3, b"XY"), (4, b"ZWV")], Pick::Old, b"abc"),
    (&[(3, b"XY"), (4, b"ZWV")], Pick::New, b"abcXZWV"),
    (&[(3, b"XY"), (4, b"ZWV")], Pick::Bytes(b'-'), b"abc----"),
    (&[(1, b"\x01")], Pick::Old, b"abc"),
    (&[(1, b"\x01")], Pick::New, b"a\x01c"),
    (&[(1, b"\x01")], Pick::Bytes(0), b"a\x00c"),
    (&[(1, b"\x01")], Pick::Bytes(1), b"a\x01c"),
    (&[(1, b"\x01")], Pick::Bytes(2), b"a\x02c"),
];

/// Whether a new device whose sync failed shows what was written, and nothing of it after a crash.
fn fails_to_sync<A: Allocator + Copy>(device: &mut MemDevice<A>) -> bool {
    device.fail_at(2);
    let is_failed = device.write_at(0, b"written").is_ok()
        && device.sync() == Err(Fault)
        && device.calls() == 2
        && shows(device, b"written");
    device.crash(Pick::Old);
    is_failed && shows(device, b"")
}

/// Whether each call of a new device fails when it should.
fn fails_each_call<A: Allocator + Copy>(device: &mut MemDevice<A>) -> bool {
    device.fail_at(1);
    let has_no_len = device.len() == Err(Fault);
    device.fail_at(1);
    let is_unread = device.read_at(0, &mut []) == Err(Fault);
    device.fail_at(1);
    let is_unwritten = device.write_at(0, b"in place") == Err(Fault);
    device.fail_at(1);
    let is_unsettled = device.sync() == Err(Fault);
    has_no_len && is_unread && is_unwritten && is_unsettled && device.calls() == 4
}

/// Whether a device whose write failed shows the bytes once no call is to fail, and nothing of them after a crash.
fn shows_failed_write<A: Allocator + Copy>(device: &mut MemDevice<A>) -> bool {
    device.fail_at(1);
    device.fail_at(0);
    let is_shown = shows(device, b"in place") && device.refused() == 0;
    device.crash(Pick::Old);
    is_shown && device.len() == Ok(0)
}

#[test]
fn calls_fail_when_they_should(rt: HostRuntime) {
    let mut device = MemDevice::new(rt.alloc()).expect(&rt, "a device");
    assert!(rt; fails_to_sync(&mut device));
    drop(device);
    let mut other = MemDevice::new(rt.alloc()).expect(&rt, "a device");
    assert!(rt; fails_each_call(&mut other) && shows_failed_write(&mut other));
    drop(other);
}

/// Tries to make a device.
pub(crate) fn makes_device(memory: &Refusing<Global>) -> Outcome {
    let made = MemDevice::new(memory);
    let has_refused = memory.has_refused();
    let Ok(device) = made else {
        return Outcome::refused(has_refused);
    };
    let is_new = (device.calls(), device.refused()) == (0, 0);
    drop(device);
    Outcome::done(!has_refused && is_new)
}

/// Four bytes, and 100 behind them.
static GROWN: &[u8; 104] =
    b"oooonnnnnnnnnnnnnnnnnnnnnnnnnnnnnnnnnnnnnnnnnnnnnnnnnnnnnnnnnnnnnnnnnnnnnnnnnnnnnnnnnnnnnnnnnnnnnnnnnnnn";

/// Tries a write of 100 bytes that grows each buffer. A refused request is a counted fault and writes nothing; the next try
/// writes all.
fn puts<A: Allocator + Copy>(
    memory: &Refusing<Global>,
    device: &mut MemDevice<A>,
    number: u64,
) -> Outcome {
    let grown = &GROWN[..];
    let before = device.calls();
    memory.refuse(number);
    let is_put = writes(device, 4, &grown[4..]);
    let has_refused = memory.has_refused();
    let is_counted = device.calls().checked_sub(before) == Some(2);
    if is_put {
        return Outcome::done(!has_refused && is_counted && device.refused() == 0);
    }
    let is_told = is_counted && device.refused() == 1 && shows(device, &grown[..4]);
    Outcome::refused(has_refused && is_told && writes(device, 4, &grown[4..]))
}

/// Tries such a write to a device with four bytes, each written and synced on its own.
pub(crate) fn grows<A: Allocator + Copy>(
    memory: &Refusing<Global>,
    alloc: A,
    number: u64,
) -> Outcome {
    memory.refuse(0);
    let Ok(mut device) = MemDevice::new(alloc) else {
        return Outcome::Wrong;
    };
    let is_ready = settles_each(&mut device);
    let tried = puts(memory, &mut device, number);
    let is_put = shows(&mut device, &GROWN[..]);
    drop(device);
    tried.and(is_ready && is_put)
}

/// Whether four bytes are written and synced one by one.
fn settles_each<D: Device>(device: &mut D) -> bool {
    for at in 0..4u64 {
        if !writes(device, at, b"o") || device.sync().is_err() {
            return false;
        }
    }
    true
}

#[test]
fn file_in_short_parts(rt: HostRuntime) {
    let memory = MemDevice::new(rt.alloc()).expect(&rt, "a device");
    let mut device = FileDevice::over(ShortFile::over(memory));
    assert!(rt;
        keeps(
            &mut device,
            &[(0, b"0123456789"), (8, b"abcd")],
            b"01234567abcd"
        )
    );
    drop(device);
}

#[test]
fn bytes_behind_a_settled_byte(rt: HostRuntime) {
    let mut device = MemDevice::new(rt.alloc()).expect(&rt, "a device");
    let Ok(()) = device.write_at(0, &[0]) else {
        panic!(rt; "a write");
    };
    let Ok(()) = device.sync() else {
        panic!(rt; "a sync");
    };
    assert!(rt; append_behind(&mut device, 0, b"whole").is_ok());
    device.crash(Pick::Old);
    assert!(rt; shows(&mut device, b"\x01whole"));
    drop(device);
}

#[test]
fn real_file(rt: HostRuntime) {
    let name = "device_of_a_test";
    let mut device = FileDevice::over(fs::create(&rt, name).expect(&rt, "a file"));
    assert!(rt; writes(&mut device, 0, b"durable") && device.sync().is_ok());
    drop(device);
    let mut reader = FileDevice::over(fs::open(&rt, name).expect(&rt, "the file"));
    assert!(rt;
        shows(&mut reader, b"durable")
            && reader.write_at(0, b"x") == Err(Fault)
            && reader.read_at(0, &mut [0; 9]) == Err(Fault)
            && reader.len() == Ok(7)
    );
    drop(reader);
    assert!(rt; fs::remove_file(&rt, name).is_ok());
}
