//! Memory refused to a vault and to its two files. Where a file can't grow, that is a fault, and costs what wasn't durable.

use crate::vault::call::Call::{Broken, Give, Pump, Redeem, Refuse, Stage, Start};
use crate::vault::call::Fate::{Place, Refused, Session, Unknown};
use crate::vault::call::Hand::Left;
use crate::vault::call::Row;
use crate::vault::call::Said::{Hello, List, Make};
use crate::vault::play::{Hands, answered, end};
use group_commit::Pumped::{Moved, Settled};
use group_commit::{Pumped, Started, Vault};
use std::alloc::Global;
use std::process::Abort;
use test_memory::{Outcome, Refusing, requests};
use vault_device::{MemDevice, Pick};
use vault_model::Outside;
use vault_model::Refusal::Exists;

/// A vault and its two files, all in memory that may be refused.
type Growing<'a> = Vault<MemDevice<&'a Refusing<Global>>, &'a Refusing<Global>>;

// After a fault.
static FAULTED: [Row; 5] = [
    (1, Broken(true)),
    (1, Redeem(Left, Unknown)),
    (1, Refuse(List, Outside::Broken)),
    (1, Pump(Ok(Pumped::Broken))),
    (1, Start(Started::NotNow)),
];

// In the next life, where the place was durable.
static KEPT: [Row; 4] = [
    (1, Give(0, Hello(b"anna"))),
    (1, Stage(Left, 1, Make(b"/e"))),
    (1, Pump(Ok(Settled))),
    (1, Redeem(Left, Refused(Exists))),
];

// The same, where it was lost.
static LOST: [Row; 5] = [
    (1, Give(0, Hello(b"anna"))),
    (1, Stage(Left, 1, Make(b"/e"))),
    (3, Pump(Ok(Moved))),
    (1, Pump(Ok(Settled))),
    (1, Redeem(Left, Place(1))),
];

fn made<'a>(rt: &impl Abort, memory: &'a Refusing<Global>) -> Growing<'a> {
    let first = MemDevice::new(memory).expect(rt, "a device");
    let second = MemDevice::new(memory).expect(rt, "a device");
    match Vault::create(memory, first, second, 1) {
        Ok(vault) => vault,
        Err(_refused) => panic!(rt; "a vault"),
    }
}

// The vault of the next life, after a crash, and how many times its files were refused memory.
fn next_life<'a>(
    rt: &impl Abort,
    memory: &'a Refusing<Global>,
    vault: Growing<'a>,
) -> (Growing<'a>, u64) {
    let (mut first, mut second) = vault.into_devices();
    first.crash(Pick::New);
    second.crash(Pick::New);
    let refused = first.refused().saturating_add(second.refused());
    match Vault::open(memory, first, second, 2) {
        Ok(vault) => (vault, refused),
        Err(_refused) => panic!(rt; "another life"),
    }
}

// Whether the next life has the place exactly where it was durable.
fn is_left<'a>(
    rt: &impl Abort,
    memory: &'a Refusing<Global>,
    vault: Growing<'a>,
    is_lost: bool,
) -> bool {
    let (mut vault, refused) = next_life(rt, memory, vault);
    let mut hands = Hands::empty();
    let rows: &[Row] = if is_lost { &LOST } else { &KEPT };
    let count = answered(&mut vault, &mut hands, memory, rows);
    hands.end(&mut vault);
    end(vault);
    count == rows.len() && refused == u64::from(is_lost)
}

// Makes calls with the request of this number refused. If it was a file's, the vault is broken. If it was the vault's, the call is made
// again, and those after it.
fn grows(
    rt: &impl Abort,
    memory: &Refusing<Global>,
    calls: &'static [Row],
    number: u64,
) -> Outcome {
    let mut vault = made(rt, memory);
    let mut hands = Hands::empty();
    memory.refuse(number);
    let count = answered(&mut vault, &mut hands, memory, calls);
    let has_refused = memory.has_refused();
    let is_lost = vault.is_broken();
    let rest: &[Row] = if is_lost {
        &FAULTED
    } else {
        &calls[count.min(calls.len())..]
    };
    let is_right = answered(&mut vault, &mut hands, memory, rest) == rest.len();
    hands.end(&mut vault);
    let is_left = is_left(rt, memory, vault, is_lost);
    if has_refused {
        Outcome::refused(is_right && is_left && count < calls.len())
    } else {
        Outcome::done(is_right && is_left && count == calls.len())
    }
}

#[test]
fn each_request_of_growing_files_is_refused(rt: HostRuntime) {
    let memory = Refusing::new(rt.alloc());
    for (name, calls, count) in &TRIALS {
        let made = requests(|number| grows(&rt, &memory, calls, number));
        assert_eq!(rt; made, Some(*count), "{name}");
    }
}

// Calls, and how many requests they make.
static TRIALS: [(&str, &[Row], u64); 2] = [
    (
        "Vault::pump, a commit",
        &[
            (1, Stage(Left, 0, Hello(b"anna"))),
            (1, Pump(Ok(Settled))),
            (1, Redeem(Left, Session(1))),
            (1, Stage(Left, 1, Make(b"/e"))),
            (3, Pump(Ok(Moved))),
            (1, Pump(Ok(Settled))),
            (1, Redeem(Left, Place(1))),
        ],
        6,
    ),
    (
        "Vault::pump, a snapshot",
        &[
            (1, Stage(Left, 0, Hello(b"anna"))),
            (1, Pump(Ok(Settled))),
            (1, Redeem(Left, Session(1))),
            (1, Stage(Left, 1, Make(b"/e"))),
            (1, Start(Started::Yes)),
            (5, Pump(Ok(Moved))),
            (1, Pump(Ok(Settled))),
            (1, Redeem(Left, Place(1))),
        ],
        13,
    ),
];
