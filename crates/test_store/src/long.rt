//! Snapshots of more than one piece: parts with many versions of a thousand bytes, as bytes of a file.

use std::alloc::{Allocator, Global};
use std::process::Abort;
use test_memory::Refusing;
use vault_checkout::Book;
use vault_device::{Device, MemDevice};
use vault_format::MAX_SNAPSHOT;
use vault_model::PlaceId;
use vault_store::{Body, BodyError, read_body};

// How long each version is.
const VERSION: u16 = 1000;

// The project, the assembly and the library beside the parts.
const ABOVE: u8 = 3;

// An upper bound on the bytes of a row's file.
const MAX_BYTES: usize = 17_000_000;

// An upper bound on the bytes of a file whose snapshot is one byte longer than any vault's.
const LONGEST_FILE: usize = 40_000_000;

// A snapshot.
struct Long {
    name: &'static str,
    version: u8,
    parts: u8,
    versions: u16,
    // The low byte of the number of check-outs behind the last part; 0 is right, since there are none.
    behind: u8,
    // Whether it is a vault's snapshot.
    is_whole: bool,
}

static ROWS: [Long; 5] = [
    Long {
        name: "two pieces",
        version: 2,
        parts: 2,
        versions: 1100,
        behind: 0,
        is_whole: true,
    },
    Long {
        name: "two pieces, a check-out that isn't there",
        version: 2,
        parts: 2,
        versions: 1100,
        behind: 1,
        is_whole: false,
    },
    Long {
        name: "three pieces",
        version: 2,
        parts: 9,
        versions: 300,
        behind: 0,
        is_whole: true,
    },
    Long {
        name: "a part that is longer than a piece",
        version: 2,
        parts: 1,
        versions: 2200,
        behind: 0,
        is_whole: true,
    },
    Long {
        name: "two pieces, in version 1",
        version: 1,
        parts: 2,
        versions: 1100,
        behind: 0,
        is_whole: true,
    },
];

// Its versions weigh more than a vault's may. Each weighs 8 more than its length.
static HEAVY: Long = Long {
    name: "versions that are too heavy",
    version: 2,
    parts: 9,
    versions: 1850,
    behind: 0,
    is_whole: false,
};

// Adds bytes.
fn put(rt: &impl Abort, bytes: &mut Vec<u8>, more: &[u8]) {
    bytes.extend_from_slice(more).expect(rt, "memory");
}

// Adds a place without its versions. In version 1 of the files it has no kind.
fn put_place(rt: &impl Abort, bytes: &mut Vec<u8>, long: &Long, parent: u8, letter: u8, kind: u8) {
    put(rt, bytes, &[0, 0, 0, parent, 1, letter]);
    if long.version != 1 {
        put(rt, bytes, &[kind]);
    }
}

// Adds a part with its versions, each filled with the part's letter.
fn put_part(rt: &impl Abort, bytes: &mut Vec<u8>, long: &Long, letter: u8) {
    put_place(rt, bytes, long, 2, letter, 1);
    put(rt, bytes, &long.versions.to_be_bytes());
    for _ in 0..long.versions {
        put(rt, bytes, &VERSION.to_be_bytes());
        put(rt, bytes, &[letter; VERSION as usize]);
    }
}

// A file with this snapshot, of generation 1.
fn device_of(rt: &impl Abort, alloc: Global, long: &Long) -> MemDevice {
    let mut bytes = Vec::new(alloc);
    put(rt, &mut bytes, b"\0\0\0\0\0\0\0");
    put(rt, &mut bytes, &[long.parts.saturating_add(ABOVE)]);
    put_place(rt, &mut bytes, long, 0, b'e', 0);
    put_place(rt, &mut bytes, long, 1, b'b', 0);
    for part in 0..long.parts {
        put_part(rt, &mut bytes, long, b'a'.saturating_add(part));
    }
    put(rt, &mut bytes, &[0, long.behind, 0]);
    assert!(rt; bytes.len() < MAX_BYTES);
    let mut head = Vec::new(alloc);
    put(rt, &mut head, b"\x01LLVAULT\0\0\0");
    put(rt, &mut head, &[long.version, 0, 0, 0, 0, 0, 0, 0, 1]);
    put(
        rt,
        &mut head,
        &(bytes.len().saturating_sub(1) as u32).to_be_bytes(),
    );
    assert!(rt; head.len() == 24);
    let mut device = MemDevice::new(alloc).expect(rt, "a device");
    assert!(rt; device.write_at(0, &head).is_ok() && device.write_at(24, &bytes).is_ok());
    assert!(rt; device.sync().is_ok());
    device
}

// Whether a book has a row's places, and all versions of the last part.
fn holds<A: Allocator + Copy>(book: &Book<A>, long: &Long) -> bool {
    let places = u32::from(long.parts) + u32::from(ABOVE);
    let last = PlaceId(places - 1);
    let count = book.shelf().count(last);
    let Some(content) = book.shelf().fetch(last, count) else {
        return false;
    };
    book.tree().len() == places as usize
        && count == u32::from(long.versions)
        && content.len() == usize::from(VERSION)
}

// Whether a body is what a row says: its vault, or damage where the snapshot begins.
fn is_right<A: Allocator + Copy>(body: &Body<A>, long: &Long) -> bool {
    match body {
        Body::Damaged(at) => !long.is_whole && *at == 24,
        Body::Whole(book, frames, _) => long.is_whole && *frames == 0 && holds(book, long),
    }
}

// Reads a row's file with the request of this number refused, if it makes that many. Whether the reading gives what the row says, or
// reports that it is out of memory exactly if a request was refused.
fn reads_without(
    rt: &impl Abort,
    memory: &Refusing<Global>,
    device: &mut MemDevice,
    long: &Long,
    number: u64,
) -> bool {
    memory.refuse(number);
    let body = read_body(memory, device);
    let has_refused = memory.has_refused();
    match body {
        Ok(body) => {
            let is_so = !has_refused && is_right(&body, long);
            drop(body);
            is_so
        }
        Err(error) => has_refused && error == BodyError::NoMemory,
    }
}

#[test]
fn long_snapshots_are_read(rt: HostRuntime) {
    let memory = Refusing::new(rt.alloc());
    for long in &ROWS {
        let mut device = device_of(&rt, rt.alloc(), long);
        for number in [
            1, 2, 3, 4, 5, 6, 7, 8, 9, 100, 1000, 1001, 4000, 4500, 100_000,
        ] {
            let is_so = reads_without(&rt, &memory, &mut device, long, number);
            assert!(rt; is_so, "{}, request {number} refused", long.name);
        }
        drop(device);
    }
}

#[test]
fn a_heavy_snapshot_is_damage(rt: HostRuntime) {
    let memory = Refusing::new(rt.alloc());
    let mut device = device_of(&rt, rt.alloc(), &HEAVY);
    let is_so = reads_without(&rt, &memory, &mut device, &HEAVY, 1_000_000_000);
    drop(device);
    assert!(rt; is_so, "{}", HEAVY.name);
}

// A file with a snapshot of `length` bytes, as its head says, and a byte behind it.
fn file_of(rt: &impl Abort, alloc: Global, length: u32) -> MemDevice {
    let mut bytes = Vec::new(alloc);
    put(rt, &mut bytes, b"\x01LLVAULT\0\0\0\x02\0\0\0\0\0\0\0\x01");
    put(rt, &mut bytes, &length.to_be_bytes());
    let snapshot = vec![in alloc; 0; length as usize].expect(rt, "memory");
    put(rt, &mut bytes, &snapshot);
    drop(snapshot);
    put(rt, &mut bytes, b"\0");
    assert!(rt; bytes.len() < LONGEST_FILE);
    let mut device = MemDevice::new(alloc).expect(rt, "a device");
    assert!(rt; device.write_at(0, &bytes).is_ok() && device.sync().is_ok());
    drop(bytes);
    device
}

// Whether such a file is reported as damaged behind its head, without a request for memory.
fn is_damaged_without_memory(memory: &Refusing<Global>, device: &mut MemDevice) -> bool {
    memory.refuse(1);
    match read_body(memory, device) {
        Ok(body) => {
            let is_damaged = matches!(body, Body::Damaged(24));
            drop(body);
            is_damaged && !memory.has_refused()
        }
        Err(_) => false,
    }
}

#[test]
fn no_memory_is_asked_for_a_snapshot_longer_than_any(rt: HostRuntime) {
    let memory = Refusing::new(rt.alloc());
    let mut device = file_of(&rt, rt.alloc(), MAX_SNAPSHOT + 1);
    let is_damaged = is_damaged_without_memory(&memory, &mut device);
    drop(device);
    assert!(rt; is_damaged);
}
