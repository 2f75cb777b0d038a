//! Vaults to begin with: a new one, one without room, one for which a snapshot is wanted, and one that version 1 wrote.

use group_commit::{Pumped, Vault};
use std::alloc::Global;
use std::process::Abort;
use test_fixtures::{Begun, created};
use test_memory::Refusing;
use vault_device::{Device, MemDevice};
use vault_lines::read_line_of;

/// The most entries that a history keeps.
pub const MAX_KEPT: u64 = 4096;

/// A vault to begin with.
#[derive(Clone, Copy)]
pub enum Start {
    /// A new one. The nth device call after its creation is to fail.
    New(u64),
    /// One whose history keeps as many entries as it may, all of them durable.
    Full,
    /// One whose frames are so long that a snapshot is wanted, with one command that isn't durable.
    Long,
    /// One that version 1 wrote. For this one, too, a snapshot is wanted.
    Version1,
}

/// The vault.
pub(crate) fn begun<'a>(
    rt: &impl Abort,
    global: Global,
    memory: &'a Refusing<Global>,
    start: Start,
) -> Begun<'a> {
    match start {
        Start::New(failing) => created(global, memory, failing).expect(rt, "a new vault"),
        Start::Full => full(rt, global, memory),
        Start::Long => long(rt, global, memory),
        Start::Version1 => opened(rt, global, memory),
    }
}

// The vault with anna's check-out of `/e`, as version 1 wrote it.
const VERSION_1: &[u8; 57] =
    b"\x01LLVAULT\0\0\0\x01\0\0\0\0\0\0\0\x02\0\0\0\x20\0\0\0\x01\0\0\0\x02\0\0\0\0\x01e\0\x01\0\0\0\x01\x04anna\x01\x01\0\0\0\x01\0\0";

// The vault that stands in this file, beside an empty one.
fn opened<'a>(rt: &impl Abort, global: Global, memory: &'a Refusing<Global>) -> Begun<'a> {
    let mut first = MemDevice::new(global).expect(rt, "a file");
    let second = MemDevice::new(global).expect(rt, "a file");
    assert!(rt; first.write_at(0, VERSION_1).is_ok() && first.sync().is_ok());
    let Ok(vault) = Vault::open(memory, first, second, 1) else {
        panic!(rt; "no vault of version 1");
    };
    vault
}

// The frames of a long journal: a line of session 1, and how often it comes in one frame. They have 1,049,578 bytes.
static FRAMES: [(&[u8], usize); 9] = [
    (b"make /e", 1),
    (b"make /e/b", 1),
    (b"make /e/b/p", 1),
    (b"checkout w:/e/b/p", 1),
    (DRAFT, 253),
    (DRAFT, 253),
    (DRAFT, 253),
    (DRAFT, 253),
    (DRAFT, 2),
];

// What the line of a draft begins with. The digits of 1,024 bytes follow it.
const DRAFT: &[u8] = b"save c1 /e/b/p ";

/// How many commits these are.
pub const COMMITS: u64 = 9;

// Whether a session's line is staged. Its ticket is given up.
fn is_staged<'a>(
    vault: &mut Begun<'a>,
    memory: &'a Refusing<Global>,
    session: u32,
    line: &[u8],
) -> bool {
    let Ok(command) = read_line_of(memory, line) else {
        return false;
    };
    match vault.stage(session, command) {
        Ok(ticket) => {
            let _ = vault.forget(ticket);
            true
        }
        Err(refused) => {
            drop(refused);
            false
        }
    }
}

// Whether lines can be staged and made durable until there is no room for another.
fn is_full<'a>(vault: &mut Begun<'a>, memory: &'a Refusing<Global>) -> bool {
    for _entry in 0..MAX_KEPT {
        if !is_staged(vault, memory, 0, b"list /") {
            return false;
        }
    }
    vault.pump() == Ok(Pumped::Settled) && !is_staged(vault, memory, 0, b"list /")
}

// A vault without room.
fn full<'a>(rt: &impl Abort, global: Global, memory: &'a Refusing<Global>) -> Begun<'a> {
    let mut vault = created(global, memory, 0).expect(rt, "a new vault");
    assert!(rt; is_full(&mut vault, memory), "a full history");
    vault
}

// Whether a line is staged this often, and is durable after the fourth pump, and not before.
fn is_frame<'a>(
    vault: &mut Begun<'a>,
    memory: &'a Refusing<Global>,
    line: &[u8],
    times: usize,
) -> bool {
    for _time in 0..times {
        if !is_staged(vault, memory, 1, line) {
            return false;
        }
    }
    vault.pump() == Ok(Pumped::Moved)
        && vault.pump() == Ok(Pumped::Moved)
        && vault.pump() == Ok(Pumped::Moved)
        && vault.pump() == Ok(Pumped::Settled)
}

// Whether all frames are durable, and a command is staged after them.
fn is_filled<'a>(vault: &mut Begun<'a>, memory: &'a Refusing<Global>, draft: &[u8]) -> bool {
    if !is_staged(vault, memory, 0, b"hello anna") {
        return false;
    }
    for (line, times) in &FRAMES {
        let line = if *line == DRAFT { draft } else { *line };
        if !is_frame(vault, memory, line, *times) {
            return false;
        }
    }
    is_staged(vault, memory, 1, b"make /f")
}

// A vault with these frames, and one command that isn't durable.
fn long<'a>(rt: &impl Abort, global: Global, memory: &'a Refusing<Global>) -> Begun<'a> {
    let mut draft = vec![in global; b'7'; DRAFT.len() + 2048].expect(rt, "memory");
    draft[..DRAFT.len()].copy_from_slice(DRAFT);
    let mut vault = created(global, memory, 0).expect(rt, "a new vault");
    assert!(rt; is_filled(&mut vault, memory, &draft), "a long journal");
    drop(draft);
    vault
}
