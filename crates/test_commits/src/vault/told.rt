//! Lines said to a vault whose memory is refused: what answers them, and what the vault then is.

use crate::vault::call::Call::{Give, Pump};
use crate::vault::call::Row;
use crate::vault::call::Said::Line;
use crate::vault::play::{Hands, answered, command, end, is_same, new_vault, numbers_of};
use group_commit::Pumped::{Moved, Settled};
use group_commit::{OpenError, Phase, Redeemed, Refused, Started, Ticket, Vault};
use std::alloc::{Allocator, Global};
use std::process::Abort;
use test_memory::{Outcome, Refusing, requests};
use vault_device::{MemDevice, Pick};
use vault_lines::text_of;
use vault_model::{CommandIn, NoMemory, Outside};

// A vault in memory that may be refused.
type Asking<'a> = Vault<MemDevice, &'a Refusing<Global>>;

// What is tried.
enum Call {
    Open,
    Start,
    /// A session's line is staged, and this answers it.
    Stage(u32, &'static str, &'static str),
}

// Four sessions; a part with a version; anna's c2, which is granted, with a draft of it and a note; behind it ben's c3, and anna's hold.
static BEFORE: [Row; 17] = [
    (1, Give(0, Line("hello anna"))),
    (1, Give(0, Line("hello ben"))),
    (1, Give(0, Line("hello cleo"))),
    (1, Give(0, Line("hello dan"))),
    (1, Give(1, Line("make /e"))),
    (1, Give(1, Line("make /e/b"))),
    (1, Give(1, Line("make /e/b/p"))),
    (1, Give(1, Line("checkout w:/e/b/p"))),
    (1, Give(1, Line("save c1 /e/b/p 6669727374"))),
    (1, Give(1, Line("checkin c1"))),
    (1, Give(1, Line("checkout w:/e/b"))),
    (1, Give(1, Line("save c2 /e/b/p 7365636f6e64"))),
    (1, Give(1, Line("note c2 6162"))),
    (1, Give(2, Line("checkout r:/e"))),
    (1, Give(1, Line("hold r:/e"))),
    (3, Pump(Ok(Moved))),
    (1, Pump(Ok(Settled))),
];

// What is asked of a vault to see whether it is the same as another, with the same sessions.
static QUESTIONS: [(u32, &str); 12] = [
    (0, "hello zoe"),
    (1, "list /"),
    (5, "list /e/b"),
    (6, "list /e"),
    (1, "count /e/b/p"),
    (1, "fetch /e/b/p 2"),
    (1, "claims /"),
    (1, "show c2"),
    (1, "show c3"),
    (1, "show h1"),
    (1, "note c2"),
    (1, "draft c2 /e/b/p"),
];

// A vault in which all of `BEFORE` was said.
fn begun<'a>(rt: &impl Abort, memory: &'a Refusing<Global>, aside: Global) -> Asking<'a> {
    let mut vault = new_vault(rt, memory, aside, 0);
    let mut hands = Hands::empty();
    let count = answered(&mut vault, &mut hands, memory, &BEFORE);
    hands.end(&mut vault);
    assert!(rt; count == BEFORE.len());
    vault
}

// Pumps until something is durable.
fn settles<A: Allocator + Copy>(vault: &mut Vault<MemDevice, A>) -> bool {
    for _ in 0..8 {
        if vault.pump() == Ok(Settled) {
            return true;
        }
    }
    false
}

// The line that answers a ticket's entry, once that is durable.
fn text_for<A: Allocator + Copy>(
    vault: &mut Vault<MemDevice, A>,
    aside: Global,
    ticket: Ticket<A>,
) -> Option<Vec<u8>> {
    let _ = settles(vault);
    let ticket = match vault.redeem(ticket) {
        Redeemed::Told(receipt) => {
            let text = text_of(aside, receipt.reply());
            drop(receipt);
            return text.ok();
        }
        Redeemed::NotYet(ticket) => ticket,
        Redeemed::Stranger(ticket) => ticket,
        Redeemed::Unknown(ticket) => ticket,
        Redeemed::NoMemory(ticket) => ticket,
    };
    let _ = vault.forget(ticket);
    None
}

fn ticket_of<A: Allocator + Copy>(
    vault: &mut Vault<MemDevice, A>,
    session: u32,
    command: CommandIn<A>,
) -> Option<Ticket<A>> {
    match vault.stage(session, command) {
        Ok(ticket) => Some(ticket),
        Err((_, back)) => {
            drop(back);
            None
        }
    }
}

// What answers a session's line.
fn told<A: Allocator + Copy>(
    vault: &mut Vault<MemDevice, A>,
    (alloc, aside): (A, Global),
    session: u32,
    line: &'static str,
) -> Option<Vec<u8>> {
    let Some(command) = command(alloc, Line(line)) else {
        return None;
    };
    match ticket_of(vault, session, command) {
        Some(ticket) => text_for(vault, aside, ticket),
        None => None,
    }
}

// Adds what answers a question, if anything does.
fn tell<A: Allocator + Copy>(
    vault: &mut Vault<MemDevice, A>,
    (alloc, aside): (A, Global),
    (session, line): (u32, &'static str),
    all: &mut Vec<u8>,
) -> bool {
    let Some(text) = told(vault, (alloc, aside), session, line) else {
        return false;
    };
    let is_kept = all.extend_from_slice(&text).is_ok();
    drop(text);
    is_kept
}

// What a vault answers to all questions, up to one that it doesn't answer.
fn answers<A: Allocator + Copy>(
    vault: &mut Vault<MemDevice, A>,
    (alloc, aside): (A, Global),
) -> Vec<u8> {
    let mut all = Vec::new(aside);
    for (session, line) in &QUESTIONS {
        if !tell(vault, (alloc, aside), (*session, line), &mut all) {
            return all;
        }
    }
    all
}

// Whether a vault answers all questions like this. The vault is ended.
fn ends_as<A: Allocator + Copy>(
    vault: Vault<MemDevice, A>,
    (alloc, aside): (A, Global),
    wanted: &[u8],
) -> bool {
    let mut vault = vault;
    let all = answers(&mut vault, (alloc, aside));
    end(vault);
    let is_so = all.as_slice() == wanted;
    drop(all);
    is_so
}

// The files that a vault leaves in a crash.
fn left<A: Allocator + Copy>(vault: Vault<MemDevice, A>) -> (MemDevice, MemDevice) {
    let (mut first, mut second) = vault.into_devices();
    first.crash(Pick::Old);
    second.crash(Pick::Old);
    (first, second)
}

fn opened<A: Allocator + Copy>(
    rt: &impl Abort,
    alloc: A,
    (first, second): (MemDevice, MemDevice),
) -> Vault<MemDevice, A> {
    match Vault::open(alloc, first, second, 2) {
        Ok(vault) => vault,
        Err(_refused) => panic!(rt; "another life"),
    }
}

// Opens a vault again with the request of this number refused. If it was, the files come back, and open then.
fn opened_without<'a>(
    rt: &impl Abort,
    memory: &'a Refusing<Global>,
    (first, second): (MemDevice, MemDevice),
    number: u64,
) -> (Outcome, Asking<'a>) {
    memory.refuse(number);
    match Vault::open(memory, first, second, 2) {
        Ok(vault) => {
            let is_new = vault.len() == 0;
            (Outcome::done(!memory.has_refused() && is_new), vault)
        }
        Err(Refused { why, first, second }) => {
            let is_told = memory.has_refused() && why == OpenError::NoMemory;
            (
                Outcome::refused(is_told),
                opened(rt, memory, (first, second)),
            )
        }
    }
}

fn opens(
    rt: &impl Abort,
    memory: &Refusing<Global>,
    aside: Global,
    wanted: &[u8],
    number: u64,
) -> Outcome {
    let files = left(begun(rt, memory, aside));
    let (tried, vault) = opened_without(rt, memory, files, number);
    tried.and(ends_as(vault, (memory, aside), wanted))
}

// A vault in which a place is made after all that, and isn't durable.
fn making<'a>(rt: &impl Abort, memory: &'a Refusing<Global>, aside: Global) -> Asking<'a> {
    let mut vault = begun(rt, memory, aside);
    let mut hands = Hands::empty();
    let count = answered(
        &mut vault,
        &mut hands,
        memory,
        &[(1, Give(1, Line("make /f")))],
    );
    hands.end(&mut vault);
    assert!(rt; count == 1);
    vault
}

// Begins a snapshot with the request of this number refused. If it was, nothing is under way, and the place is committed in a frame.
fn starts(
    rt: &impl Abort,
    memory: &Refusing<Global>,
    aside: Global,
    wanted: &[u8],
    number: u64,
) -> Outcome {
    let mut vault = making(rt, memory, aside);
    memory.refuse(number);
    let started = vault.start_snapshot();
    let has_refused = memory.has_refused();
    let tried = match started {
        Ok(started) => Outcome::done(!has_refused && started == Started::Yes),
        Err(NoMemory) => Outcome::refused(has_refused && vault.phase() == Phase::Idle),
    };
    let is_settled = settles(&mut vault);
    let next = opened(rt, memory, left(vault));
    tried.and(ends_as(next, (memory, aside), wanted) && is_settled)
}

// Stages a line with the request of this number refused. If it was, the command comes back, nothing is kept of it, and it is staged then.
fn staged_without<'a>(
    rt: &impl Abort,
    vault: &mut Asking<'a>,
    memory: &'a Refusing<Global>,
    (session, line): (u32, &'static str),
    number: u64,
) -> (Outcome, Option<Ticket<&'a Refusing<Global>>>) {
    let command = command(memory, Line(line)).expect(rt, "a command");
    let numbers = numbers_of(vault);
    memory.refuse(number);
    match vault.stage(session, command) {
        Ok(ticket) => (Outcome::done(!memory.has_refused()), Some(ticket)),
        Err((why, back)) => {
            let has_refused = memory.has_refused();
            let is_back = why == Outside::NoMemory && is_same(memory, &back, Line(line));
            let is_kept = numbers_of(vault) == numbers;
            let tried = Outcome::refused(has_refused && is_back && is_kept);
            (tried, ticket_of(vault, session, back))
        }
    }
}

// Whether this text is that line.
fn is_line(text: Option<Vec<u8>>, line: &str) -> bool {
    let Some(text) = text else {
        return false;
    };
    let is_so = text.as_slice().strip_suffix(b"\n") == Some(line.as_bytes());
    drop(text);
    is_so
}

// In the end the line gets its usual answer, and the vault is like one that was refused nothing.
fn says(
    rt: &impl Abort,
    memory: &Refusing<Global>,
    aside: Global,
    (session, line, text): (u32, &'static str, &'static str),
    wanted: &[u8],
    number: u64,
) -> Outcome {
    let mut vault = begun(rt, memory, aside);
    let (tried, ticket) = staged_without(rt, &mut vault, memory, (session, line), number);
    let is_told = match ticket {
        Some(ticket) => is_line(text_for(&mut vault, aside, ticket), text),
        None => false,
    };
    tried.and(ends_as(vault, (memory, aside), wanted) && is_told)
}

// A vault after a call that is refused nothing.
fn behind<'a>(
    rt: &impl Abort,
    memory: &'a Refusing<Global>,
    aside: Global,
    call: &Call,
) -> Asking<'a> {
    match call {
        Call::Open => opened(rt, memory, left(begun(rt, memory, aside))),
        Call::Start => {
            let mut vault = making(rt, memory, aside);
            let is_settled = settles(&mut vault);
            assert!(rt; is_settled);
            opened(rt, memory, left(vault))
        }
        Call::Stage(session, line, _text) => {
            let mut vault = begun(rt, memory, aside);
            let text = told(&mut vault, (memory, aside), *session, line);
            drop(text);
            vault
        }
    }
}

// Tries a call with its request of this number refused, after which the vault has to answer like this.
fn tries(
    rt: &impl Abort,
    memory: &Refusing<Global>,
    aside: Global,
    (call, wanted): (&Call, &[u8]),
    number: u64,
) -> Outcome {
    match call {
        Call::Open => opens(rt, memory, aside, wanted, number),
        Call::Start => starts(rt, memory, aside, wanted, number),
        Call::Stage(session, line, text) => {
            says(rt, memory, aside, (*session, line, text), wanted, number)
        }
    }
}

// How many requests a call makes.
fn count_of(rt: &impl Abort, memory: &Refusing<Global>, aside: Global, call: &Call) -> Option<u64> {
    let mut vault = behind(rt, memory, aside, call);
    let wanted = answers(&mut vault, (memory, aside));
    end(vault);
    let made = requests(|number| tries(rt, memory, aside, (call, &wanted), number));
    drop(wanted);
    made
}

#[test]
fn each_request_of_a_command_is_refused(rt: HostRuntime) {
    let memory = Refusing::new(rt.alloc());
    for (name, call, count) in &CALLS {
        let made = count_of(&rt, &memory, rt.alloc(), call);
        assert_eq!(rt; made, Some(*count), "{name}");
    }
}

// The calls, and how many requests each makes.
static CALLS: [(&str, Call, u64); 25] = [
    ("Vault::open", Call::Open, 39),
    ("Vault::start_snapshot, and a commit", Call::Start, 1),
    (
        "Vault::stage, Join",
        Call::Stage(0, "hello eve", "OK session 5"),
        1,
    ),
    (
        "Vault::stage, Make",
        Call::Stage(1, "make /f", "OK place 4"),
        1,
    ),
    (
        "Vault::stage, Nest",
        Call::Stage(1, "nest /e/b/s c2", "OK place 4"),
        1,
    ),
    (
        "Vault::stage, CheckOut",
        Call::Stage(1, "checkout r:/", "OK queued c4 behind c2"),
        2,
    ),
    (
        "Vault::stage, Extend",
        Call::Stage(1, "extend c2 w:/", "OK held c2"),
        1,
    ),
    (
        "Vault::stage, Save",
        Call::Stage(1, "save c2 /e/b/p 7468697264", "OK saved"),
        2,
    ),
    (
        "Vault::stage, CheckIn",
        Call::Stage(1, "checkin c2", "OK checked in 1"),
        1,
    ),
    (
        "Vault::stage, Abandon",
        Call::Stage(1, "abandon c2", "OK abandoned"),
        0,
    ),
    (
        "Vault::stage, Hold",
        Call::Stage(2, "hold r:/", "OK queued h2 behind c2"),
        2,
    ),
    (
        "Vault::stage, Release",
        Call::Stage(1, "release h1", "OK released"),
        0,
    ),
    (
        "Vault::stage, State",
        Call::Stage(1, "state c3", "OK queued c3 behind c2"),
        0,
    ),
    (
        "Vault::stage, List",
        Call::Stage(1, "list /", "OK list 1 e"),
        1,
    ),
    (
        "Vault::stage, Fetch",
        Call::Stage(1, "fetch /e/b/p 1", "OK content 6669727374"),
        1,
    ),
    (
        "Vault::stage, Count",
        Call::Stage(1, "count /e/b/p", "OK versions 1"),
        0,
    ),
    (
        "Vault::stage, Give",
        Call::Stage(1, "give c2 ben", "OK given"),
        0,
    ),
    (
        "Vault::stage, Note",
        Call::Stage(1, "note c2 61", "OK noted"),
        0,
    ),
    (
        "Vault::stage, ReadNote",
        Call::Stage(1, "note c2", "OK note 6162"),
        0,
    ),
    (
        "Vault::stage, Show",
        Call::Stage(1, "show c3", "OK claim c3 ben queued behind c2 r:/e"),
        1,
    ),
    (
        "Vault::stage, Claims",
        Call::Stage(1, "claims /e", "OK claims 3 c2 c3 h1"),
        1,
    ),
    (
        "Vault::stage, Drafts",
        Call::Stage(1, "drafts c2", "OK drafts 1 /e/b/p"),
        1,
    ),
    (
        "Vault::stage, Draft",
        Call::Stage(1, "draft c2 /e/b/p", "OK content 7365636f6e64"),
        1,
    ),
    (
        "Vault::stage, Await",
        Call::Stage(1, "wait c3", "OK queued c3 behind c2"),
        0,
    ),
    ("Vault::stage, Leave", Call::Stage(1, "quit", "OK left"), 0),
];
