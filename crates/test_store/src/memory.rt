//! Each request of a store for memory is refused in turn.
ghost use Rattle.std.specs.Prelude.{◌<◌, length};

use std::alloc::{Allocator, Global};
use std::process::Abort;
use test_memory::{Outcome, Refusing, requests};
use vault_checkout::Book;
use vault_device::{Device, MemDevice, Pick};
use vault_model::{ClaimId, Effect, EffectIn, Name, NoMemory, PlaceId, Standing};
use vault_pairing::are_of_two_vaults;
use vault_store::{
    Advanced, Body, BodyError, CreateError, OpenError, Phase, Started, Store, laws, read_body,
};

// A file with a new vault and a commit of `make /e`, 47 bytes.
const WITH_E: &[u8; 47] =
    b"\x01LLVAULT\0\0\0\x02\0\0\0\0\0\0\0\x01\0\0\0\x0a\0\0\0\0\0\0\0\x01\0\0\x01\0\0\0\x07\x01\0\0\0\0\x01e\0";

// A file of generation 2. It has a part with a version; anna's check-out c3, granted, with a note and a draft of that part;
// and, waiting for it, ben's c2.
const LINE: &[u8; 106] =
    b"\x01LLVAULT\0\0\0\x02\0\0\0\0\0\0\0\x02\0\0\0\x51\0\0\0\x03\0\0\0\x04\0\0\0\0\x01e\0\0\0\0\x01\x01b\0\0\0\0\x02\x01p\x01\0\x01\0\x04text\0\x02\0\0\0\x03\x04anna\x02ab\x01\x01\0\0\0\x03\x01\0\0\0\x03\0\x01x\0\0\0\x02\x03ben\0\x01\0\0\0\0\x02\0\0";

// A device with these bytes.
fn holding(rt: &impl Abort, alloc: Global, bytes: &[u8]) -> MemDevice
    requires { length bytes.now < 2000 }
{
    let mut device = MemDevice::new(alloc).expect(rt, "a device");
    assert!(rt; device.write_at(0, bytes).is_ok() && device.sync().is_ok());
    device
}

// Tries to create a vault. If that is refused, the devices come back, and are still empty.
fn creates_without(
    rt: &impl Abort,
    memory: &Refusing<Global>,
    alloc: Global,
    number: u64,
) -> Outcome {
    let first = MemDevice::new(alloc).expect(rt, "a device");
    let second = MemDevice::new(alloc).expect(rt, "a device");
    memory.refuse(number);
    match Store::create(memory, first, second) {
        Ok(store) => {
            let is_done = !memory.has_refused() && store.journal_len() == 0;
            drop(store);
            Outcome::done(is_done)
        }
        Err(refused) => {
            let is_told = memory.has_refused() && refused.why == CreateError::NoMemory;
            Outcome::refused(is_created(memory, refused.first, refused.second) && is_told)
        }
    }
}

// Whether a vault is created in two devices.
fn is_created<A: Allocator + Copy>(memory: A, first: MemDevice, second: MemDevice) -> bool {
    match Store::create(memory, first, second) {
        Ok(store) => {
            drop(store);
            true
        }
        Err(refused) => {
            drop(refused);
            false
        }
    }
}

// What a vault has: how many places, and how many bytes of frames. First `WITH_E`, then the same with another project.
type Counts = (usize, u64);

const E: Counts = (2, 12);

const E_AND_F: Counts = (3, 24);

// Whether two devices open as a vault of this.
fn opens_as<A: Allocator + Copy>(
    memory: A,
    first: MemDevice,
    second: MemDevice,
    wanted: Counts,
) -> bool {
    match Store::open(memory, first, second) {
        Ok((store, book)) => {
            let is_so = (book.tree().len(), store.journal_len()) == wanted;
            drop(store);
            drop(book);
            is_so
        }
        Err(refused) => {
            drop(refused);
            false
        }
    }
}

// Tries to open a vault. If that is refused, the same devices open afterwards.
fn opens_without(
    rt: &impl Abort,
    memory: &Refusing<Global>,
    alloc: Global,
    number: u64,
) -> Outcome {
    let first = holding(rt, alloc, WITH_E);
    let second = MemDevice::new(alloc).expect(rt, "a device");
    memory.refuse(number);
    match Store::open(memory, first, second) {
        Ok((store, book)) => {
            let is_done = !memory.has_refused() && (book.tree().len(), store.journal_len()) == E;
            drop(store);
            drop(book);
            Outcome::done(is_done)
        }
        Err(refused) => {
            let is_told = memory.has_refused() && refused.why == OpenError::NoMemory;
            Outcome::refused(opens_as(memory, refused.first, refused.second, E) && is_told)
        }
    }
}

// Whether what is under way, or noted, becomes durable.
fn settles<A: Allocator>(store: &mut Store<MemDevice, A>) -> bool {
    for _ in 0..8 {
        match store.advance() {
            Ok(Advanced::Moved) => {}
            advanced => return advanced == Ok(Advanced::Settled),
        }
    }
    false
}

// Whether a project is noted and becomes durable.
fn commits<A: Allocator>(store: &mut Store<MemDevice, A>, name: Name) -> bool {
    if !store.room() {
        return false;
    }
    let made: EffectIn<Global> = Effect::Made(PlaceId(0), name);
    store.note(&made);
    drop(made);
    settles(store)
}

// Whether a crash leaves a vault of this.
fn leaves<A: Allocator + Copy>(memory: A, store: Store<MemDevice, A>, wanted: Counts) -> bool {
    let (mut first, mut second) = store.into_devices();
    first.crash(Pick::Old);
    second.crash(Pick::Old);
    opens_as(memory, first, second, wanted)
}

// Tries to start a snapshot, and makes it. Without memory nothing is begun, and a project is committed as ever.
fn starts_without(
    rt: &impl Abort,
    memory: &Refusing<Global>,
    alloc: Global,
    number: u64,
) -> Outcome {
    laws::what_is_noted_is_spelled::<MemDevice>();
    laws::a_crash_leaves_what_is_kept::<MemDevice>();
    let name = Name::read(b"f").expect(rt, "a name");
    let first = holding(rt, alloc, WITH_E);
    let second = MemDevice::new(alloc).expect(rt, "a device");
    let Ok((mut store, book)) = Store::open(memory, first, second) else {
        panic!(rt; "a vault");
    };
    memory.refuse(number);
    let started = store.start_snapshot(memory, &book);
    let phase = store.phase();
    drop(book);
    let has_refused = memory.has_refused();
    if (started, phase) == (Ok(Started::Yes), Phase::Start) {
        let is_made = settles(&mut store);
        Outcome::done(leaves(memory, store, (2, 0)) && is_made && !has_refused)
    } else {
        let is_idle = (started, phase) == (Err(NoMemory), Phase::Idle);
        let is_committed = commits(&mut store, name);
        Outcome::refused(leaves(memory, store, E_AND_F) && is_committed && is_idle && has_refused)
    }
}

// Whether this claim is at this position of the queue (line), with this note.
fn stands<A: Allocator + Copy>(book: &Book<A>, position: usize, id: ClaimId, note: &[u8]) -> bool {
    match book.line().at(position) {
        Some(claim) => claim.id == id && claim.note.as_bytes() == note,
        None => false,
    }
}

// Whether a book is what `LINE` spells.
fn is_line<A: Allocator + Copy>(book: &Book<A>) -> bool {
    let line = book.line();
    let [draft] = book.drafts(3) else {
        return false;
    };
    let standings = (
        line.standing(ClaimId::Long(3)),
        line.standing(ClaimId::Long(2)),
    );
    let behind = Some(Standing::Queued(ClaimId::Long(3)));
    line.last_long() == 3
        && standings == (Some(Standing::Held), behind)
        && stands(book, 0, ClaimId::Long(3), b"ab")
        && stands(book, 1, ClaimId::Long(2), b"")
        && book.shelf().fetch(PlaceId(3), 1) == Some(b"text")
        && draft.content.as_slice() == b"x".as_slice()
}

// Tries to read what stands behind the head of a file.
fn reads_without(
    rt: &impl Abort,
    memory: &Refusing<Global>,
    alloc: Global,
    number: u64,
) -> Outcome {
    let mut device = holding(rt, alloc, LINE);
    memory.refuse(number);
    let body = read_body(memory, &mut device);
    drop(device);
    let told = match body {
        Ok(Body::Whole(book, frames, end)) => {
            let is_so = (frames, end) == (0, 105) && is_line(&book);
            drop(book);
            Some(is_so)
        }
        Ok(Body::Damaged(_)) => Some(false),
        Err(BodyError::NoMemory) => None,
        Err(_) => Some(false),
    };
    memory.outcome(told)
}

// Tries to compare the two files of one vault.
fn compares_without(
    rt: &impl Abort,
    memory: &Refusing<Global>,
    alloc: Global,
    number: u64,
) -> Outcome {
    laws::files_of_one_vault_pass::<MemDevice>();
    let mut first = holding(rt, alloc, WITH_E);
    let mut second = holding(rt, alloc, LINE);
    memory.refuse(number);
    let are_two = are_of_two_vaults(memory, &mut first, &mut second);
    drop(first);
    drop(second);
    let told = match are_two {
        Ok(are_two) => Some(!are_two),
        Err(BodyError::NoMemory) => None,
        Err(BodyError::Device) => Some(false),
    };
    memory.outcome(told)
}

// What is tried.
#[derive(Clone, Copy)]
enum Call {
    Create,
    Open,
    Start,
    Read,
    Compare,
}

// Tries a call, with its request of this number refused.
fn tries(
    rt: &impl Abort,
    memory: &Refusing<Global>,
    alloc: Global,
    call: Call,
    number: u64,
) -> Outcome {
    match call {
        Call::Create => creates_without(rt, memory, alloc, number),
        Call::Open => opens_without(rt, memory, alloc, number),
        Call::Start => starts_without(rt, memory, alloc, number),
        Call::Read => reads_without(rt, memory, alloc, number),
        Call::Compare => compares_without(rt, memory, alloc, number),
    }
}

// The calls, and how many requests each makes.
static ROWS: [(&str, Call, u64); 5] = [
    ("Store::create", Call::Create, 1),
    ("Store::open", Call::Open, 7),
    ("Store::start_snapshot", Call::Start, 1),
    ("read_body", Call::Read, 29),
    ("are_of_two_vaults", Call::Compare, 35),
];

#[test]
fn each_request_of_a_store_is_refused(rt: HostRuntime) {
    let memory = Refusing::new(rt.alloc());
    for (name, call, wanted) in &ROWS {
        let made = requests(|number| tries(&rt, &memory, rt.alloc(), *call, number));
        assert_eq!(rt; made, Some(*wanted), "{name}");
    }
}
