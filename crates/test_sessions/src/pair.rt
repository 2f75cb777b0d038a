//! Two conversations side by side over one vault, beside a flusher.

ghost use Rattle.std.specs.Prelude.{◌≡◌};
ghost use denote.Param.Send.{Frees};

use blocking_sessions::{Report, serve_one};
use group_commit::Vault;
use std::alloc::{Allocator, Global};
use std::marker::Brand;
use std::process::Abort;
use std::sync::Wait;
use std::sync::ledger::Blank;
use std::thread::{self, Threads};
use std::time::Clock;
use test_fixtures::{Begun, Devices, Hearer, Piece, Sender, created};
use test_memory::Refusing;
use vault_device::{Device, MemDevice};
use vault_sessions::{
    Ended, Flushed, NewPast, OpenGate, Share, Shared, Tally, Totals, gather, run_flusher,
};

/// What one of two connections says, how each line of its answers begins, and why it ends.
#[derive(Clone, Copy)]
struct Side {
    says: &'static [Piece],
    hears: &'static [&'static [u8]],
    ended: Ended,
}

/// Two connections, what all counted after both, and how many entries the vault has then.
struct Pair {
    name: &'static str,
    first: Side,
    second: Side,
    totals: Totals,
    entries: u64,
}

const LEAVES: Side = Side {
    says: &[(b"hello anna\nmake /a\nlist /\nquit\n", 1)],
    hears: &[b"OK session ", b"OK place ", b"OK list ", b"OK left"],
    ended: Ended::Quit,
};

const ENDS: Side = Side {
    says: &[(b"hello ben\nmake /b\nfoo\n", 1)],
    hears: &[b"OK session ", b"OK place ", b"ERR 10"],
    ended: Ended::EndOfInput,
};

const LEAVES_TOO: Side = Side {
    says: &[(b"list /\nhello cara\nmake /c\nquit\n", 1)],
    hears: &[b"ERR 11", b"OK session ", b"OK place ", b"OK left"],
    ended: Ended::Quit,
};

// Both want the whole library, one after the other in either order.
const WANTS_ALL: Side = Side {
    says: &[(b"hello dan\ncheckout w:/\nhold r:/\nquit\n", 1)],
    hears: &[b"OK session ", b"OK ", b"OK queued ", b"OK left"],
    ended: Ended::Quit,
};

static PAIRS: [Pair; 3] = [
    Pair {
        name: "both quit",
        first: LEAVES,
        second: LEAVES_TOO,
        totals: Totals { staged: 8, told: 8 },
        entries: 8,
    },
    // The last leave of the one whose input ends is counted, and not answered.
    Pair {
        name: "one ends",
        first: ENDS,
        second: LEAVES,
        totals: Totals { staged: 7, told: 6 },
        entries: 7,
    },
    Pair {
        name: "both want all",
        first: WANTS_ALL,
        second: WANTS_ALL,
        totals: Totals { staged: 8, told: 8 },
        entries: 8,
    },
];

// Serves a connection of this number.
fn serve_side<S: Tally, T: Tally, D: Device, A: Allocator + Copy, H: Wait + Clock>(
    rt: &H,
    alloc: A,
    shared: &Shared<D, S, T, A>,
    number: u32,
    says: &'static [Piece],
    writer: &mut Hearer,
    share: Share<S, T>,
) -> (Share<S, T>, Ended) {
    let mut reader = Sender::new(says, Devices::Plain);
    let Report {
        outs,
        share,
        sight,
        ended,
    } = serve_one(
        rt,
        alloc,
        shared,
        &OpenGate,
        number,
        &mut reader,
        writer,
        share,
    );
    drop(outs);
    drop(sight);
    drop(reader);
    (share, ended)
}

// Serves both connections side by side, each with a share.
fn side_by_side<
    S: Tally + Send + Sync,
    T: Tally + Send + Sync,
    D: Device + Drop + Send,
    A: Allocator + Copy + Send + Sync,
    H: Threads + Wait + Clock + Sync,
>(
    rt: &H,
    alloc: A,
    shared: &Shared<D, S, T, A>,
    pair: &Pair,
    writer: &mut Hearer,
    writer_other: &mut Hearer,
    one: Share<S, T>,
    other: Share<S, T>,
) -> ((Share<S, T>, Ended), (Share<S, T>, Ended))
    requires frees { Frees A.Allocator A.dealloc_token }
{
    thread::join(
        rt,
        move || serve_side(rt, alloc, shared, 1, pair.first.says, writer, one),
        move || serve_side(rt, alloc, shared, 2, pair.second.says, writer_other, other),
    )
}

// The same beside a flusher, which is closed after both.
fn beside_a_flusher<
    S: Tally + Send + Sync,
    T: Tally + Send + Sync,
    D: Device + Drop + Send,
    A: Allocator + Copy + Send + Sync,
    H: Threads + Wait + Clock + Sync,
>(
    rt: &H,
    alloc: A,
    shared: &Shared<D, S, T, A>,
    pair: &Pair,
    writer: &mut Hearer,
    writer_other: &mut Hearer,
    one: Share<S, T>,
    other: Share<S, T>,
) -> (Flushed, ((Share<S, T>, Ended), (Share<S, T>, Ended)))
    requires frees { Frees A.Allocator A.dealloc_token }
{
    thread::join(
        rt,
        move || run_flusher(rt, shared, &OpenGate),
        move || {
            let served = side_by_side(rt, alloc, shared, pair, writer, writer_other, one, other);
            shared.close(rt);
            served
        },
    )
}

// Once both are over: whether each end is as it has to be, what all counted, and the vault.
fn over<
    S: Tally + Send + Sync,
    T: Tally + Send + Sync,
    D: Device + Drop + Send,
    A: Allocator + Copy + Send + Sync,
    H: Threads + Wait + Clock + Sync + Abort,
>(
    rt: &H,
    alloc: A,
    past: NewPast,
    staged: Blank,
    told: Blank,
    vault: Vault<D, A>,
    pair: &Pair,
    writer: &mut Hearer,
    writer_other: &mut Hearer,
) -> (bool, Totals, Vault<D, A>)
    requires whole { (S.all ≡ S.parts) × (T.all ≡ T.parts) }
    requires staged { (staged.name ≡ S.name) × (staged.parts ≡ S.parts) × (S.all ≡ 3) × (S.beginning ≡ vault.view) }
    requires told { (told.name ≡ T.name) × (told.parts ≡ T.parts) × (T.all ≡ 3) × (T.beginning ≡ vault.view) }
    requires past { past ≡ S.book }
    requires frees { Frees A.Allocator A.dealloc_token }
{
    let made = Shared::<D, S, T, A>::new(alloc, past, staged, told, vault, 2);
    let Ok((shared, mut shares)) = made else {
        panic!(rt; "no shares");
    };
    let one = shares.pop().expect(rt, "a share");
    let other = shares.pop().expect(rt, "another share");
    let (flushed, ((one, ended), (other, ended_other))) = beside_a_flusher(
        rt,
        alloc,
        &shared,
        pair,
        writer,
        writer_other,
        one,
        other,
    );
    let are_ended = flushed == Flushed::Closed
        && ended == pair.first.ended
        && ended_other == pair.second.ended;
    shares.push(one).expect(rt, "memory");
    shares.push(other).expect(rt, "memory");
    match gather(shared, shares) {
        Ok((vault, totals, _)) => (are_ended, totals, vault),
        Err(back) => {
            drop(back);
            panic!(rt; "both shares were too few")
        }
    }
}

// Whether a text has a line for each of these beginnings, and no other.
fn has_lines(text: &[u8], beginnings: &[&[u8]]) -> bool {
    let mut count = 0;
    for line in text.split(|byte| *byte == b'\n') {
        match beginnings.get(count) {
            Some(beginning) if line.starts_with(beginning) => count += 1,
            Some(_) => return false,
            None => return line.is_empty(),
        }
    }
    false
}

// Whether two conversations come to what their row says.
fn come_to_that<'m, H: Threads + Wait + Clock + Sync + Abort>(
    rt: &H,
    global: Global,
    memory: &'m Refusing<Global>,
    vault: Begun<'m>,
    pair: &Pair,
) -> bool {
    let mut writer = Hearer::new(global, Devices::Plain);
    let mut writer_other = Hearer::new(global, Devices::Plain);
    let (staged, told) = (Blank::new(3), Blank::new(3));
    let (are_ended, totals, vault) = over::<Brand, Brand, MemDevice, &'m Refusing<Global>, H>(
        rt,
        memory,
        NewPast::new(),
        staged,
        told,
        vault,
        pair,
        &mut writer,
        &mut writer_other,
    );
    let has_all = vault.len() == pair.entries;
    drop(vault);
    let are_told = has_lines(writer.held.as_slice(), pair.first.hears)
        && has_lines(writer_other.held.as_slice(), pair.second.hears);
    drop(writer);
    drop(writer_other);
    are_ended && are_told && has_all && totals == pair.totals
}

#[test]
fn two_side_by_side(rt: HostRuntime) {
    let memory = Refusing::new(rt.alloc());
    for pair in &PAIRS {
        let vault = created(rt.alloc(), &memory, 0).expect(&rt, "a new vault");
        let is_so = come_to_that(&rt, rt.alloc(), &memory, vault, pair);
        assert!(rt; is_so, "{}", pair.name);
    }
}
