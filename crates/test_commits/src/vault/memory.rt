//! Each request for memory refused in turn: of a vault's public functions, of an inspection, and of a vault's figures.

use crate::inspector::{figures, inspects};
use crate::vault::call::Call::{Give, Numbers, Phase, Pump, Redeem, Retire, Stage, Start};
use crate::vault::call::Fate::{Listed, NotYet};
use crate::vault::call::Hand::Left;
use crate::vault::call::Said::{CheckOut, Hello, Line, List, Make, Save};
use crate::vault::call::{Call, Row};
use crate::vault::play::{Hands, answered, call, device, end, new_vault};
use group_commit::Pumped::{Moved, Settled};
use group_commit::Retired::One;
use group_commit::{CreateError, Refused, Started, Vault};
use std::alloc::Global;
use std::process::Abort;
use test_memory::{Outcome, Refusing, requests};
use vault_device::MemDevice;

// What asks for memory, and calls around it.
struct Trial {
    of: Asking,
    /// Calls before it.
    before: &'static [Row],
    /// Further calls before it, which ask for no memory.
    quiet: &'static [Row],
    /// Calls after its refusal.
    refused: &'static [Row],
    /// Calls after that, which ask for no memory.
    behind: &'static [Row],
}

enum Asking {
    Create,
    Call(Call),
    Inspect,
    Figures,
}

const PLAIN: Trial = Trial {
    of: Asking::Inspect,
    before: &[],
    quiet: &[],
    refused: &[],
    behind: &[],
};

fn are_answered<'a>(
    vault: &mut Vault<MemDevice, &'a Refusing<Global>>,
    hands: &mut Hands<&'a Refusing<Global>>,
    memory: &'a Refusing<Global>,
    rows: &[Row],
) -> bool {
    answered(vault, hands, memory, rows) == rows.len()
}

// Whether a vault is made on two devices.
fn is_created(memory: &Refusing<Global>, first: MemDevice, second: MemDevice) -> bool {
    match Vault::create(memory, first, second, 1) {
        Ok(vault) => {
            end(vault);
            true
        }
        Err(refused) => {
            drop(refused);
            false
        }
    }
}

// Tries to create a vault. Where memory is refused, the devices come back, and a vault is then made on them.
fn creates(rt: &impl Abort, memory: &Refusing<Global>, alloc: Global, number: u64) -> Outcome {
    let (first, second) = (device(rt, alloc), device(rt, alloc));
    memory.refuse(number);
    match Vault::create(memory, first, second, 1) {
        Ok(vault) => {
            let is_done = !memory.has_refused() && vault.len() == 0;
            end(vault);
            Outcome::done(is_done)
        }
        Err(Refused { why, first, second }) => {
            let is_told = memory.has_refused() && why == CreateError::NoMemory;
            Outcome::refused(is_created(memory, first, second) && is_told)
        }
    }
}

// Tries a call of a vault.
fn asks(
    rt: &impl Abort,
    memory: &Refusing<Global>,
    alloc: Global,
    trial: &Trial,
    asking: Call,
    number: u64,
) -> Outcome {
    let mut vault = new_vault(rt, memory, alloc, 0);
    let mut hands = Hands::empty();
    let is_ready = are_answered(&mut vault, &mut hands, memory, trial.before);
    memory.refuse(1);
    let is_quiet = are_answered(&mut vault, &mut hands, memory, trial.quiet)
        && !memory.has_refused();
    memory.refuse(number);
    let tried = call(&mut vault, &mut hands, memory, asking);
    let has_refused = memory.has_refused();
    let is_refused = tried == Outcome::Refused;
    let is_answered = !is_refused || are_answered(&mut vault, &mut hands, memory, trial.refused);
    memory.refuse(1);
    let is_over = are_answered(&mut vault, &mut hands, memory, trial.behind)
        && !memory.has_refused();
    hands.end(&mut vault);
    end(vault);
    tried.and(is_ready && is_quiet && is_refused == has_refused && is_answered && is_over)
}

// Makes a trial with the request of this number refused.
fn tries(
    rt: &impl Abort,
    memory: &Refusing<Global>,
    alloc: Global,
    trial: &Trial,
    number: u64,
) -> Outcome {
    match trial.of {
        Asking::Create => creates(rt, memory, alloc, number),
        Asking::Call(asking) => asks(rt, memory, alloc, trial, asking, number),
        Asking::Inspect => inspects(rt, memory, alloc, number),
        Asking::Figures => figures(rt, memory, alloc, number),
    }
}

#[test]
fn each_request_of_a_vault_is_refused(rt: HostRuntime) {
    let memory = Refusing::new(rt.alloc());
    for (name, trial, count) in &TRIALS {
        let made = requests(|number| tries(&rt, &memory, rt.alloc(), trial, number));
        assert_eq!(rt; made, Some(*count), "{name}");
    }
}

static TRIALS: [(&str, Trial, u64); 5] = [
    (
        "Vault::create",
        Trial {
            of: Asking::Create,
            ..PLAIN
        },
        4,
    ),
    // Committing a list before its ticket is redeemed asks for no memory, nor does retiring it. Where memory is refused, the ticket comes
    // back, and nothing is acknowledged; the next try gives the reply.
    (
        "Vault::redeem",
        Trial {
            of: Asking::Call(Redeem(Left, Listed(b"e"))),
            before: &[
                (1, Give(0, Hello(b"anna"))),
                (1, Give(1, Make(b"/e"))),
                (1, Stage(Left, 1, List)),
            ],
            quiet: &[
                (1, Redeem(Left, NotYet)),
                (3, Pump(Ok(Moved))),
                (1, Pump(Ok(Settled))),
            ],
            refused: &[(1, Numbers([3, 3, 3, 0])), (1, Redeem(Left, Listed(b"e")))],
            behind: &[(1, Retire(One)), (1, Numbers([3, 2, 3, 1]))],
            ..PLAIN
        },
        1,
    ),
    // Where memory is refused, nothing is under way, and the next try starts it. One request has room for all versions and drafts.
    (
        "Vault::start_snapshot",
        Trial {
            of: Asking::Call(Start(Started::Yes)),
            before: &[
                (1, Give(0, Hello(b"anna"))),
                (1, Give(1, Make(b"/e"))),
                (1, Give(1, Make(b"/e/b"))),
                (1, Give(1, Make(b"/e/b/p"))),
                (1, Give(1, CheckOut)),
                (1, Give(1, Save)),
                (1, Give(1, Line("checkin c1"))),
                (1, Give(1, CheckOut)),
                (1, Give(1, Line("save c2 /e/b/p 6162"))),
            ],
            refused: &[
                (1, Phase(group_commit::Phase::Idle)),
                (1, Start(Started::Yes)),
            ],
            ..PLAIN
        },
        1,
    ),
    (
        "inspect",
        Trial {
            of: Asking::Inspect,
            ..PLAIN
        },
        29,
    ),
    (
        "figures_of",
        Trial {
            of: Asking::Figures,
            ..PLAIN
        },
        4,
    ),
];
