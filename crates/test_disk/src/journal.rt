ghost use Rattle.vault_journal.specs.Spelling.{HasRecord};

mod committing;
mod fields;
mod recording;

use committing::leaves;
use recording::{Filled, is_filled, is_read, is_recorded, is_spoiled, push_saved, push_within};
use std::alloc::{Allocator, Global};
use std::process::Abort;
use test_memory::{Outcome, Refusing};
use vault_device::Pick;
use vault_journal::{Damage, Frame, LONGEST_RECORD, read_effects};
use vault_model::{Effect, Intent, Item, Items, Listing, Name, Note, PlaceId};

// The commit mark (gate) at offset 0, a frame's length, one record and the closed mark of the next frame.
const GATE_SHUT: &[u8] = &[0, 0, 0, 0, 7, 1, 0, 0, 0, 0, 1, 0x65, 0];

const GATE_OPEN: &[u8] = &[1, 0, 0, 0, 7, 1, 0, 0, 0, 0, 1, 0x65, 0];

/// The number of commit steps done, what the crash after them (if any) keeps, and the bytes left.
static LEFT: [(u8, Option<Pick>, &[u8]); 7] = [
    (1, None, GATE_SHUT),
    (1, Some(Pick::Old), &[0]),
    (
        1,
        Some(Pick::Bytes(1)),
        &[0, 1, 1, 1, 1, 1, 1, 1, 1, 1, 1, 1, 1],
    ),
    (3, Some(Pick::Old), GATE_SHUT),
    (3, Some(Pick::New), GATE_OPEN),
    (4, Some(Pick::Old), GATE_OPEN),
    (4, Some(Pick::New), GATE_OPEN),
];

#[test]
fn torn_body_and_gate(rt: HostRuntime) {
    for (steps, crash, expected) in &LEFT {
        assert!(rt;
            leaves(&rt, rt.alloc(), *steps, *crash, expected),
            "{expected:?}"
        );
    }
}

/// Whether places, names and a content are recorded in these bytes.
fn are_recorded(rt: &impl Abort, memory: Global) -> bool {
    let e = Name::read(b"e").expect(rt, "a name");
    let ben = Name::read(b"ben").expect(rt, "a name");
    let text = Listing::from_vec(Vec::from_slice(memory, b"text").expect(rt, "memory"));
    let saved = b"\x04\0\0\0\x09\0\0\0\x03\0\x04text";
    is_recorded(memory, Effect::Saved(9, PlaceId(3), text), saved)
        && is_recorded(memory, Effect::Made(PlaceId(0), e), b"\x01\0\0\0\0\x01e")
        && is_recorded(
            memory,
            Effect::Nested(PlaceId(2), e),
            b"\x09\0\0\0\x02\x01e",
        )
        && is_recorded(memory, Effect::Given(1, ben), b"\x07\0\0\0\x01\x03ben")
        && is_recorded(memory, Effect::CheckedIn(u32::MAX), b"\x05\xff\xff\xff\xff")
        && is_recorded(memory, Effect::Abandoned(1), b"\x06\0\0\0\x01")
}

/// Whether claims of items, and notes, are recorded in these bytes.
fn are_claims_recorded(rt: &impl Abort, memory: Global) -> bool {
    let anna = Name::read(b"anna").expect(rt, "a name");
    let note = Note::read(b"ab").expect(rt, "a note");
    let one = Items::new().with(Item {
        intent: Intent::Change,
        place: PlaceId(1),
    });
    let two = one.with(Item {
        intent: Intent::Look,
        place: PlaceId(258),
    });
    let asked = b"\x02\0\0\0\x01\x04anna\x01\x01\0\0\0\x01";
    let extended = b"\x03\x01\x02\x03\x04\x02\x01\0\0\0\x01\0\0\0\x01\x02";
    is_recorded(memory, Effect::Asked(1, anna, one), asked)
        && is_recorded(memory, Effect::Extended(0x0102_0304, two), extended)
        && is_recorded(memory, Effect::Noted(1, note), b"\x08\0\0\0\x01\x02ab")
        && is_recorded(memory, Effect::Noted(1, Note::new()), b"\x08\0\0\0\x01\0")
}

/// Whether no bytes are read as no effects, and a cut record is damage.
fn are_no_records(memory: Global) -> bool {
    count(memory, b"") == Ok(0) && count(memory, b"\x01\0\0\0\0") == Err(Damage::At(0))
}

#[test]
fn records(rt: HostRuntime) {
    assert!(rt; are_recorded(&rt, rt.alloc()) && are_claims_recorded(&rt, rt.alloc()));
    assert!(rt; are_no_records(rt.alloc()));
}

/// How many effects are read.
fn count<A: Allocator + Copy>(alloc: A, bytes: &[u8]) -> Result<usize, Damage> {
    match read_effects(alloc, bytes) {
        Ok(effects) => {
            let count = effects.len();
            drop(effects);
            Ok(count)
        }
        Err(damage) => Err(damage),
    }
}

/// One record of each kind.
static WHOLE: [&[u8]; 8] = [
    b"\x01\0\0\0\0\x02ab",
    b"\x02\0\0\0\x01\x04anna\x01\x01\0\0\0\x01",
    b"\x03\0\0\0\x01\x02\x01\0\0\0\x01\0\0\0\x01\x02",
    b"\x04\0\0\0\x09\0\0\0\x03\0\x04text",
    b"\x05\0\0\0\x02",
    b"\x06\0\0\0\x01",
    b"\x07\0\0\0\x01\x03ben",
    b"\x08\0\0\0\x01\x02ab",
];

/// Whether a record is read, and isn't when it is cut to any shorter length.
fn is_whole(memory: Global, record: &[u8]) -> bool {
    for len in 1..record.len() {
        if !is_spoiled(memory, &record[..len]) {
            return false;
        }
    }
    is_read(memory, record)
}

#[test]
fn cut_records(rt: HostRuntime) {
    for record in &WHOLE {
        assert!(rt; is_whole(rt.alloc(), record), "{record:?}");
    }
}

/// Records with one spoiled (invalid) field.
static SPOILED: [&[u8]; 19] = [
    b"\0\0\0\0\x01",
    b"\x09\0\0\0\x01",
    b"\x01\0\0\0\0\0",
    b"\x01\0\0\0\0\x02aB",
    b"\x02\0\0\0\0\x04anna\x01\x01\0\0\0\x01",
    b"\x02\0\0\0\x01\0\x01\x01\0\0\0\x01",
    b"\x02\0\0\0\x01\x04anna\0",
    b"\x02\0\0\0\x01\x04anna\x01\x02\0\0\0\x01",
    b"\x03\0\0\0\0\x01\x01\0\0\0\x01",
    b"\x03\0\0\0\x01\0",
    b"\x03\0\0\0\x01\x01\x02\0\0\0\x01",
    b"\x04\0\0\0\0\0\0\0\x03\0\0",
    b"\x04\0\0\0\x01\0\0\0\x03\x04\0text",
    b"\x05\0\0\0\0",
    b"\x06\0\0\0\0",
    b"\x07\0\0\0\0\x01b",
    b"\x07\0\0\0\x01\0",
    b"\x07\0\0\0\x01\x01B",
    b"\x08\0\0\0\0\0",
];

/// Filled-up records, and whether the field has its greatest valid size; else it is one too large.
static FILLED: [(Filled, bool); 6] = [
    ((b"\x01\0\0\0\0\x21", b'a', 39), false),
    ((b"\x03\0\0\0\x01\x08", 0, 46), true),
    ((b"\x03\0\0\0\x01\x09", 0, 51), false),
    ((b"\x04\0\0\0\x01\0\0\0\0\x04\x01", 0, 1036), false),
    ((b"\x08\0\0\0\x01\x40", 0, 70), true),
    ((b"\x08\0\0\0\x01\x41", 0, 71), false),
];

#[test]
fn spoiled_fields(rt: HostRuntime) {
    for record in &SPOILED {
        assert!(rt; is_spoiled(rt.alloc(), record), "{record:?}");
    }
    for (record, is_good) in &FILLED {
        assert!(rt; is_filled(rt.alloc(), record, *is_good), "{record:?}");
    }
}

/// Whether a frame is full: 254 effects in 262,139 bytes of records, behind that length and before a closed commit mark.
fn is_full(memory: Global, frame: &Frame) -> bool {
    let body = frame.body();
    frame.len() == 262_139
        && body.len() == 262_144
        && &body[..4] == [0, 3, 0xff, 0xfb].as_slice()
        && body[262_143] == 0
        && count(memory, &body[4..262_143]) == Ok(254)
}

/// Whether a frame is filled to its last byte, is read back, and is empty once it is cleared.
fn is_filled_up(memory: Global, frame: &mut Frame) -> bool {
    let is_filled = push_saved(memory, frame, 1024, 253)
        && !push_saved(memory, frame, 274, 1)
        && push_saved(memory, frame, 273, 1)
        && !push_within(frame, &Effect::CheckedIn(1))
        && is_full(memory, frame);
    frame.clear();
    is_filled && frame.len() == 0 && frame.body() == [0; 5].as_slice()
}

#[test]
fn full_frame(rt: HostRuntime) {
    let mut frame = Frame::new(rt.alloc()).expect(&rt, "a frame");
    assert!(rt; is_filled_up(rt.alloc(), &mut frame));
    drop(frame);
}

/// Tries to make a frame.
pub(crate) fn makes_frame(memory: &Refusing<Global>) -> Outcome {
    let made = Frame::new(memory);
    let has_refused = memory.has_refused();
    let Ok(frame) = made else {
        return Outcome::refused(has_refused);
    };
    let is_new = frame.len() == 0;
    drop(frame);
    Outcome::done(!has_refused && is_new)
}

/// Tries to push an effect into a frame.
pub(crate) fn pushes(memory: &Refusing<Global>, aside: Global, number: u64) -> Outcome {
    memory.refuse(0);
    let Ok(mut frame) = Frame::new(memory) else {
        return Outcome::Wrong;
    };
    memory.refuse(number);
    let is_pushed = push_saved(aside, &mut frame, 5, 1);
    let has_refused = memory.has_refused();
    let is_long = frame.len() == 16;
    drop(frame);
    Outcome::done(!has_refused && is_pushed && is_long)
}

/// Whether a byte that is no record, behind a record of the longest content, is reported without a request for memory.
fn is_told_behind_the_longest(memory: &Refusing<Global>) -> bool {
    let mut bytes = [b'x'; LONGEST_RECORD + 1];
    bytes[..11].copy_from_slice(b"\x04\0\0\0\x01\0\0\0\0\x04\0");
    count(memory, &bytes) == Err(Damage::At(LONGEST_RECORD))
}

/// Tries to read seven records, after bytes that aren't all records.
pub(crate) fn reads(memory: &Refusing<Global>) -> Outcome {
    let is_told = is_told_behind_the_longest(memory);
    let records =
        b"\x04\0\0\0\x01\0\0\0\0\0\x04text\x05\0\0\0\x01\x05\0\0\0\x02\x05\0\0\0\x03\x05\0\0\0\x04\x05\0\0\0\x05\x06\0\0\0\x05";
    let told = count(memory, records);
    let has_refused = memory.has_refused();
    match told {
        Ok(count) => Outcome::done(is_told && !has_refused && count == 7),
        Err(damage) => Outcome::refused(is_told && has_refused && damage == Damage::NoMemory),
    }
}
