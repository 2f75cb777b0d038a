ghost use Rattle.std.specs.Prelude.{◌<◌, length};

use std::alloc::{Allocator, Global};
use std::process::Abort;
use test_memory::{Outcome, Refusing};
use vault_device::{Device, Fault, MemDevice};
use vault_inspector::{
    Figures, FileState, InspectError, PrintError, Report, figures_of, inspect, print,
};
use vault_model::NoMemory;
use vault_store::FileVersion;

// A new vault's file.
const NEW: &[u8; 35] = b"\x01LLVAULT\0\0\0\x02\0\0\0\0\0\0\0\x01\0\0\0\x0a\0\0\0\0\0\0\0\x01\0\0\0";

/// A file of version 1 with a project made in a frame.
pub(crate) const OLD_WITH_E: &[u8; 47] =
    b"\x01LLVAULT\0\0\0\x01\0\0\0\0\0\0\0\x01\0\0\0\x0a\0\0\0\0\0\0\0\x01\0\0\x01\0\0\0\x07\x01\0\0\0\0\x01e\0";

// A file of generation 3: a part with a version; anna's c3, which is granted and has a draft of it; and behind it ben's c2, with a note.
const QUEUED: &[u8; 106] =
    b"\x01LLVAULT\0\0\0\x02\0\0\0\0\0\0\0\x03\0\0\0\x51\0\0\0\x03\0\0\0\x04\0\0\0\0\x01e\0\0\0\0\x01\x01b\0\0\0\0\x02\x01p\x01\0\x01\0\x04text\0\x02\0\0\0\x03\x04anna\0\x01\x01\0\0\0\x03\x01\0\0\0\x03\0\x01x\0\0\0\x02\x03ben\x02ab\x01\0\0\0\0\x02\0\0";

const QUEUED_TEXT: &[u8; 179] =
    b"file a: open, generation 3, frames 0, tail 105\nfile b: older, generation 1\nplaces 4, versions 1, claims 2, drafts 1\nc3 anna held w:/e/b/p\nc2 ben queued behind c3 r:/e/b note 6162\n";

// The same, with a note of the greatest length.
const NOTED: &[u8; 168] =
    b"\x01LLVAULT\0\0\0\x02\0\0\0\0\0\0\0\x03\0\0\0\x8f\0\0\0\x03\0\0\0\x04\0\0\0\0\x01e\0\0\0\0\x01\x01b\0\0\0\0\x02\x01p\x01\0\x01\0\x04text\0\x02\0\0\0\x03\x04anna\0\x01\x01\0\0\0\x03\x01\0\0\0\x03\0\x01x\0\0\0\x02\x03ben\x40aaaaaaaaaaaaaaaaaaaaaaaaaaaaaaaaaaaaaaaaaaaaaaaaaaaaaaaaaaaaaaaa\x01\0\0\0\0\x02\0\0";

const NOTED_TEXT: &[u8] =
    b"file a: open, generation 3, frames 0, tail 167\nfile b: older, generation 1\nplaces 4, versions 1, claims 2, drafts 1\nc3 anna held w:/e/b/p\nc2 ben queued behind c3 r:/e/b note 61616161616161616161616161616161616161616161616161616161616161616161616161616161616161616161616161616161616161616161616161616161\n";

// How much it uses of each limit. Each of its two contents weighs 8 more than its bytes.
const QUEUED_FIGURES: Figures = Figures {
    places: 4,
    projects: 1,
    children: 1,
    versions: 1,
    part_versions: 1,
    claims: 2,
    held: 1,
    waiting: 1,
    drafts: 1,
    claim_drafts: 1,
    weight: 4 + 1 + 2 * 8,
    last_check_out: 3,
};

/// A device with these bytes.
pub(crate) fn holding(rt: &impl Abort, alloc: Global, bytes: &[u8]) -> MemDevice
    requires { length bytes.now < 200 }
{
    let mut device = MemDevice::new(alloc).expect(rt, "a device");
    assert!(rt; device.write_at(0, bytes).is_ok() && device.sync().is_ok());
    device
}

// Whether it is printed whole where there is room for all, and else the writer fails after the bytes that fit.
fn is_printed<A: Allocator + Copy>(report: &Report<A>) -> bool {
    for room in 0..180 {
        let mut bytes = [0; 179];
        let mut writer = &mut bytes[..room];
        let end = print(report, &mut writer);
        let is_whole = room == QUEUED_TEXT.len();
        let is_right = if is_whole {
            end.is_ok()
        } else {
            end == Err(PrintError::Write)
        };
        if !is_right || bytes[..room] != QUEUED_TEXT[..room] {
            return false;
        }
    }
    true
}

/// Tries an inspection of a vault. The report is printed into writers that fail, and into one that doesn't.
pub(crate) fn inspects(
    rt: &impl Abort,
    memory: &Refusing<Global>,
    alloc: Global,
    number: u64,
) -> Outcome {
    let mut a = holding(rt, alloc, QUEUED);
    let mut b = holding(rt, alloc, NEW);
    memory.refuse(number);
    let told = inspect(memory, &mut a, &mut b);
    let has_refused = memory.has_refused();
    drop(a);
    drop(b);
    match told {
        Ok(report) => {
            let is_printed = is_printed(&report);
            drop(report);
            Outcome::done(!has_refused && is_printed)
        }
        Err(error) => Outcome::refused(has_refused && error == InspectError::NoMemory),
    }
}

// The report on a vault in this memory.
fn reported<'a>(
    rt: &impl Abort,
    memory: &'a Refusing<Global>,
    alloc: Global,
) -> Report<&'a Refusing<Global>> {
    let mut a = holding(rt, alloc, QUEUED);
    let mut b = holding(rt, alloc, NEW);
    let told = inspect(memory, &mut a, &mut b);
    drop(a);
    drop(b);
    match told {
        Ok(report) => report,
        Err(_why) => panic!(rt; "a report"),
    }
}

/// Tries how full a vault is. Where memory is refused, the next try says it.
pub(crate) fn figures(
    rt: &impl Abort,
    memory: &Refusing<Global>,
    alloc: Global,
    number: u64,
) -> Outcome {
    let report = reported(rt, memory, alloc);
    let tried = match &report.book {
        Some(book) => {
            memory.refuse(number);
            let told = figures_of(book);
            let tried = memory.judge(told, NoMemory, |figures| *figures == QUEUED_FIGURES);
            tried.and(figures_of(book) == Ok(QUEUED_FIGURES))
        }
        None => Outcome::Wrong,
    };
    drop(report);
    tried
}

// What is printed of a vault whose longest text has the greatest length.
fn printed(rt: &impl Abort, alloc: Global) -> Vec<u8> {
    let mut a = holding(rt, alloc, NOTED);
    let mut b = holding(rt, alloc, NEW);
    let told = inspect(alloc, &mut a, &mut b);
    drop(a);
    drop(b);
    let mut held = Vec::new(alloc);
    match told {
        Ok(report) => {
            let end = print(&report, &mut held);
            drop(report);
            assert!(rt; end.is_ok());
        }
        Err(_why) => panic!(rt; "a report"),
    }
    held
}

#[test]
fn longest_note_is_printed(rt: HostRuntime) {
    let held = printed(&rt, rt.alloc());
    assert!(rt; held.as_slice() == NOTED_TEXT);
    drop(held);
}

/// A device that counts its writes and its syncs.
#[derive(Drop)]
struct Counting<D> {
    device: D,
    changes: u64,
}

impl<D: Device> Device for Counting<D> {
    ghost disk = { λ c. D.disk c.device };

    ghost lawful = { λ c honest. D.lawful c.device honest };

    fn len(&mut self) -> Result<u64, Fault> {
        self.device.len()
    }

    fn read_at(&mut self, at: u64, buffer: &mut [u8]) -> Result<(), Fault> {
        self.device.read_at(at, buffer)
    }

    fn write_at(&mut self, at: u64, bytes: &[u8]) -> Result<(), Fault> {
        self.changes = self.changes.saturating_add(1);
        self.device.write_at(at, bytes)
    }

    fn sync(&mut self) -> Result<(), Fault> {
        self.changes = self.changes.saturating_add(1);
        self.device.sync()
    }
}

fn counted(rt: &impl Abort, alloc: Global, bytes: &[u8]) -> Counting<MemDevice>
    requires { length bytes.now < 200 }
{
    Counting {
        device: holding(rt, alloc, bytes),
        changes: 0,
    }
}

// How many writes and syncs the inspection of two files makes on each, and what it reports of them.
fn inspected(
    rt: &impl Abort,
    alloc: Global,
    first: &[u8],
    second: &[u8],
) -> ((u64, u64), Option<(FileState, FileState)>)
    requires first { length first.now < 200 }
    requires second { length second.now < 200 }
{
    let mut a = counted(rt, alloc, first);
    let mut b = counted(rt, alloc, second);
    let told = inspect(alloc, &mut a, &mut b);
    let changes = (a.changes, b.changes);
    drop(a);
    drop(b);
    match told {
        Ok(report) => {
            let states = (report.first, report.second);
            drop(report);
            (changes, Some(states))
        }
        Err(_why) => (changes, None),
    }
}

const OPEN: FileState = FileState::Open {
    generation: 3,
    frames: 0,
    tail: 105,
    version: FileVersion::Two,
};

const OLDER: FileState = FileState::Older { generation: 1 };

#[test]
fn an_inspection_changes_nothing(rt: HostRuntime) {
    let alloc = rt.alloc();
    let none = (0, 0);
    let closed = FileState::Closed;
    let damaged = FileState::Damaged { offset: 1 };
    let twice = FileState::Damaged { offset: 12 };
    assert_eq!(rt;
        inspected(&rt, alloc, &[], &[]),
        (none, Some((closed, closed)))
    );
    assert_eq!(rt;
        inspected(&rt, alloc, QUEUED, NEW),
        (none, Some((OPEN, OLDER)))
    );
    assert_eq!(rt;
        inspected(&rt, alloc, NEW, QUEUED),
        (none, Some((OLDER, OPEN)))
    );
    assert_eq!(rt;
        inspected(&rt, alloc, QUEUED, QUEUED),
        (none, Some((OPEN, twice)))
    );
    assert_eq!(rt;
        inspected(&rt, alloc, &[1; 24], QUEUED),
        (none, Some((damaged, OPEN)))
    );
}
