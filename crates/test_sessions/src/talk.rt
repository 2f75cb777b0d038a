//! Conversations in memory.

ghost use Rattle.std.specs.Prelude.{◌≡◌};
ghost use denote.Param.Send.{Frees};

use crate::filling::{Start, begun};
use blocking_sessions::{Report, serve_one};
use group_commit::Vault;
use std::alloc::{Allocator, Global};
use std::marker::Brand;
use std::process::Abort;
use std::sync::Wait;
use std::sync::atomic::{AtomicU64, Ordering};
use std::sync::ledger::Blank;
use std::thread::{self, Threads};
use std::time::Clock;
use test_fixtures::{
    Begun, CREATION, CREATION_BESIDE, Devices, Hearer, Piece, Sender, TURNS, is_reached_within,
    is_text,
};
use test_memory::Refusing;
use vault_device::{Device, MemDevice};
use vault_sessions::{
    Ended, Flushed, Gate, NewPast, OpenGate, Point, Share, Shared, Tally, Totals, gather,
    run_flusher,
};

/// How often files are called in a commit, and in a snapshot.
pub const COMMIT: u64 = 4;

pub const SNAPSHOT: u64 = 6;

/// Who commits what is staged.
#[derive(Clone, Copy, PartialEq, Eq)]
pub enum Flusher {
    /// The worker, by a flusher that runs and ends after each command that it staged. So all requests for memory come in one order.
    Within,
    /// A flusher in a thread of its own, from before the first connection until after the last one.
    Beside,
    /// The same, and after its first line a connection waits until the flusher has pumped.
    Awaited,
}

/// Connections that are served one after the other, the answers to them, and what that comes to.
pub struct Talk {
    pub name: &'static str,
    pub start: Start,
    pub flusher: Flusher,
    pub devices: Devices,
    pub says: &'static [&'static [Piece]],
    pub hears: &'static [Piece],
    pub came: Came,
}

/// What a conversation came to.
#[derive(Debug, Clone, Copy, PartialEq, Eq)]
pub struct Came {
    /// Why the last connection ended, and how many of its lines were answered.
    pub ended: Option<Ended>,
    pub answers: usize,
    /// What all counted, and how many entries the vault has then.
    pub totals: Totals,
    pub entries: u64,
    /// What the last flusher answered, once it was closed. None if one beside ended before, though the vault isn't broken.
    pub flushed: Option<Flushed>,
    /// How many calls of each file there were.
    pub calls: (u64, u64),
}

/// What a new vault comes to without a connection.
pub const NOTHING: Came = Came {
    ended: None,
    answers: 0,
    totals: Totals { staged: 0, told: 0 },
    entries: 0,
    flushed: Some(Flushed::Closed),
    calls: (CREATION, CREATION_BESIDE),
};

/// No connection, over a new vault.
pub const PLAIN: Talk = Talk {
    name: "",
    start: Start::New(0),
    flusher: Flusher::Within,
    devices: Devices::Plain,
    says: &[],
    hears: &[],
    came: NOTHING,
};

// How many turns a connection waits for a flusher that is awaited.
const LONGEST_AWAITED: u64 = 10_000_000;

// For a flusher beside, a counter gets one once it runs, and one for each pump. This value stands for its end.
const ENDED: u64 = 1 << 32;

// Counts its pumps.
#[derive(Drop)]
struct Pumping<'a> {
    turn: &'a AtomicU64,
}

impl Gate for Pumping<'_> {
    fn at(&self, point: Point) {
        if point == Point::Pump {
            self.turn.fetch_add(1, Ordering::SeqCst);
        }
    }
}

// Commits what was staged at once, by a flusher that ends after it, unless there is one beside. One that is awaited holds the
// connection before its second line.
#[derive(Drop)]
struct Committing<'a, S: Tally, T: Tally, D: Device, A: Allocator, H: Wait + Clock> {
    rt: &'a H,
    shared: &'a Shared<D, S, T, A>,
    flusher: Flusher,
    turn: &'a AtomicU64,
    reads: AtomicU64,
}

impl<S: Tally, T: Tally, D: Device, A: Allocator + Copy, H: Wait + Clock> Gate
    for Committing<'_, S, T, D, A, H> {
    fn at(&self, point: Point) {
        match (self.flusher, point) {
            (Flusher::Within, Point::Staged(_)) => {
                self.shared.close(self.rt);
                let _ = run_flusher(self.rt, self.shared, &OpenGate);
            }
            (Flusher::Awaited, Point::Read(_)) => {
                if self.reads.fetch_add(1, Ordering::SeqCst) == 1 {
                    let _ = is_reached_within(self.turn, 2, LONGEST_AWAITED);
                }
            }
            _ => {}
        }
    }
}

// Why the last connection ended, and how many of its lines were answered.
type Answered = (Option<Ended>, usize);

// Serves the connections, one after the other.
fn serve_all<S: Tally, T: Tally, D: Device, A: Allocator + Copy, H: Wait + Clock>(
    rt: &H,
    alloc: A,
    shared: &Shared<D, S, T, A>,
    talk: &Talk,
    turn: &AtomicU64,
    writer: &mut Hearer,
    share: Share<S, T>,
) -> (Share<S, T>, Answered) {
    let gate = Committing {
        rt,
        shared,
        flusher: talk.flusher,
        turn,
        reads: AtomicU64::new(0),
    };
    let mut share = share;
    let mut answered = (None, 0);
    for pieces in talk.says {
        let mut reader = Sender::new(pieces, talk.devices);
        let Report {
            outs,
            share: back,
            sight,
            ended,
        } = serve_one(rt, alloc, shared, &gate, 1, &mut reader, writer, share);
        answered = (Some(ended), outs.len());
        share = back;
        drop(outs);
        drop(sight);
        drop(reader);
    }
    (share, answered)
}

// Serves the connections with a share of two, and closes the flusher. Gives what the flusher answered then; none if it ended before,
// though the vault isn't broken.
fn flushed<
    S: Tally + Send + Sync,
    T: Tally + Send + Sync,
    D: Device + Drop + Send,
    A: Allocator + Copy + Send + Sync,
    H: Threads + Wait + Clock + Sync,
>(
    rt: &H,
    alloc: A,
    shared: &Shared<D, S, T, A>,
    talk: &Talk,
    writer: &mut Hearer,
    share: Share<S, T>,
) -> (Share<S, T>, Answered, Option<Flushed>)
    requires frees { Frees A.Allocator A.dealloc_token }
{
    let state = AtomicU64::new(0);
    let turn = &state;
    let is_beside = talk.flusher != Flusher::Within;
    let (flushed, (share, answered, stays)) = thread::join(
        rt,
        move || {
            turn.store(1, Ordering::SeqCst);
            let flushed = if is_beside {
                run_flusher(rt, shared, &Pumping { turn })
            } else {
                Flushed::Closed
            };
            turn.store(ENDED, Ordering::SeqCst);
            flushed
        },
        move || {
            let (share, answered) = serve_all(rt, alloc, shared, talk, turn, writer, share);
            let stays = is_beside
                && is_reached_within(turn, 1, TURNS)
                && !is_reached_within(turn, ENDED, 1_000_000);
            shared.close(rt);
            (share, answered, stays)
        },
    );
    let flushed = if !is_beside {
        Some(run_flusher(rt, shared, &OpenGate))
    } else if stays || flushed == Flushed::Broken {
        Some(flushed)
    } else {
        None
    };
    (share, answered, flushed)
}

// What all connections and the flusher came to, and the vault.
type Conversed<D, A> = (Answered, Option<Flushed>, Totals, Vault<D, A>);

// What a conversation over a vault comes to. Where there is no memory for a share, the vault comes back.
fn converse_over<
    S: Tally + Send + Sync,
    T: Tally + Send + Sync,
    D: Device + Drop + Send,
    A: Allocator + Copy + Send + Sync,
    H: Threads + Wait + Clock + Sync + Abort,
>(
    rt: &H,
    alloc: A,
    past: NewPast,
    staged: Blank,
    told: Blank,
    vault: Vault<D, A>,
    talk: &Talk,
    writer: &mut Hearer,
) -> Result<Conversed<D, A>, Vault<D, A>>
    requires whole { (S.all ≡ S.parts) × (T.all ≡ T.parts) }
    requires staged { (staged.name ≡ S.name) × (staged.parts ≡ S.parts) × (S.all ≡ 3) × (S.beginning ≡ vault.view) }
    requires told { (told.name ≡ T.name) × (told.parts ≡ T.parts) × (T.all ≡ 3) × (T.beginning ≡ vault.view) }
    requires past { past ≡ S.book }
    requires frees { Frees A.Allocator A.dealloc_token }
{
    match Shared::<D, S, T, A>::new(alloc, past, staged, told, vault, 2) {
        Ok((shared, mut shares)) => {
            let share = shares.pop().expect(rt, "a share");
            let (share, answered, flushed) = flushed(rt, alloc, &shared, talk, writer, share);
            let (vault, totals) = gathered(rt, shared, shares, share);
            Ok((answered, flushed, totals, vault))
        }
        Err(vault) => Err(vault),
    }
}

// What comes back, since one of two shares alone isn't gathered.
fn not_gathered<S: Tally, T: Tally, D: Device + Drop, A: Allocator + Copy>(
    rt: &impl Abort,
    shared: Shared<D, S, T, A>,
    shares: Vec<Share<S, T>, A>,
) -> (Shared<D, S, T, A>, Vec<Share<S, T>, A>)
    requires { (S.all ≡ S.parts) × (T.all ≡ T.parts) }
{
    match gather(shared, shares) {
        Err(back) => back,
        Ok(gathered) => {
            drop(gathered);
            panic!(rt; "one of two shares was enough")
        }
    }
}

// The vault, with what all counted. One of two shares alone isn't gathered, and comes back.
fn gathered<S: Tally, T: Tally, D: Device + Drop, A: Allocator + Copy>(
    rt: &impl Abort,
    shared: Shared<D, S, T, A>,
    shares: Vec<Share<S, T>, A>,
    share: Share<S, T>,
) -> (Vault<D, A>, Totals)
    requires { (S.all ≡ S.parts) × (T.all ≡ T.parts) }
{
    let (shared, mut shares) = not_gathered(rt, shared, shares);
    shares.push(share).expect(rt, "memory");
    match gather(shared, shares) {
        Ok((vault, totals, _)) => (vault, totals),
        Err(back) => {
            drop(back);
            panic!(rt; "both shares were too few")
        }
    }
}

// What a conversation over a vault comes to, while this request for memory is refused. Where there is no memory for a share, the vault
// comes back.
fn converse<'m, H: Threads + Wait + Clock + Sync + Abort>(
    rt: &H,
    memory: &'m Refusing<Global>,
    vault: Begun<'m>,
    talk: &Talk,
    writer: &mut Hearer,
    request: u64,
) -> Result<Came, Begun<'m>> {
    memory.refuse(request);
    let (staged, told) = (Blank::new(3), Blank::new(3));
    match converse_over::<Brand, Brand, MemDevice, &'m Refusing<Global>, H>(
        rt,
        memory,
        NewPast::new(),
        staged,
        told,
        vault,
        talk,
        writer,
    ) {
        Ok(conversed) => Ok(came_of(conversed)),
        Err(vault) => Err(vault),
    }
}

// What it came to, with what the vault and its files say.
fn came_of(conversed: Conversed<MemDevice, &Refusing<Global>>) -> Came {
    let ((ended, answers), flushed, totals, vault) = conversed;
    let entries = vault.len();
    let (first, second) = vault.into_devices();
    let calls = (first.calls(), second.calls());
    drop(first);
    drop(second);
    Came {
        ended,
        answers,
        totals,
        entries,
        flushed,
        calls,
    }
}

// What a conversation comes to over a vault that came back, since there was no memory for a share. There is ample memory now.
fn converse_again<'m, H: Threads + Wait + Clock + Sync + Abort>(
    rt: &H,
    memory: &'m Refusing<Global>,
    vault: Begun<'m>,
    talk: &Talk,
    writer: &mut Hearer,
) -> Came {
    match converse(rt, memory, vault, talk, writer, 0) {
        Ok(came) => came,
        Err(vault) => {
            drop(vault);
            panic!(rt; "no share, with ample memory")
        }
    }
}

/// Whether there is memory for a share while this request for memory is refused, what a conversation then comes to over its vault, and
/// what is heard. If there is none, the conversation is over the vault that comes back, with ample memory: if that is the same vault, it
/// comes to the same as if nothing had been refused.
pub(crate) fn talked<H: Threads + Wait + Clock + Sync + Abort>(
    rt: &H,
    global: Global,
    memory: &Refusing<Global>,
    talk: &Talk,
    request: u64,
) -> (bool, Came, Vec<u8>) {
    let vault = begun(rt, global, memory, talk.start);
    let mut writer = Hearer::new(global, talk.devices);
    match converse(rt, memory, vault, talk, &mut writer, request) {
        Ok(came) => (true, came, writer.held),
        Err(vault) => {
            let came = converse_again(rt, memory, vault, talk, &mut writer);
            (false, came, writer.held)
        }
    }
}

/// Asserts that each conversation comes to what its row says, while this request for memory is refused.
pub(crate) fn come_to_that<H: Threads + Wait + Clock + Sync + Abort>(
    rt: &H,
    global: Global,
    memory: &Refusing<Global>,
    talks: &'static [Talk],
    request: u64,
) {
    for talk in talks {
        let (has_share, came, heard) = talked(rt, global, memory, talk, request);
        let is_right = has_share && came == talk.came && is_text(&heard, talk.hears);
        assert!(rt; is_right, "{}: {has_share} {came:?}", talk.name);
        drop(heard);
    }
}
