//! The past of a vault, as calls make it, and its receipts found again.
ghost use Rattle.std.specs.Prelude.{◌≡◌, List, [], ◌∷◌, length};
ghost use Rattle.vault_device.specs.MemDevice.{MemDisk, disk_of};
ghost use Rattle.group_commit.specs.Seen.{VaultSeen};
ghost use Rattle.group_commit.specs.Positions.{HasTold};
ghost use Rattle.group_commit.specs.Pasts.{AreLeft, IsPast};
ghost use Rattle.group_commit.specs.Recovered.{IsFoundAgain};

use group_commit::promises::{
    a_past_goes_on, receipts_are_found_again, receipts_are_of_their_entries,
};
use group_commit::{Receipt, Redeemed, Refused, Vault};
use std::alloc::Global;
use std::process::Abort;
use vault_device::{MemDevice, Pick};
use vault_model::CommandIn;

/// How the first life begins.
#[derive(Clone, Copy)]
pub(crate) enum Beginning {
    Made,
    /// In files that another program wrote.
    TakenOver,
}

/// Where the machine crashes.
#[derive(Clone, Copy)]
pub(crate) enum Stop {
    BetweenCalls,
    /// Once more, inside the opening after the first crash: at that call of the first device.
    InAnOpening(u64),
}

// The receipt of a command without an effect, which is staged, made durable and acknowledged.
fn told(rt: &impl Abort, vault: &mut Vault<MemDevice>, command: CommandIn<Global>) -> Receipt
    ensures past { (past : List (VaultSeen MemDisk)) → IsPast disk_of vault.old past
        → (staged : VaultSeen MemDisk) × (pumped : VaultSeen MemDisk)
        × IsPast disk_of vault.new (pumped ∷ staged ∷ vault.old ∷ past) }
    ensures receipt { HasTold vault.new.view result }
{
    let ticket = match vault.stage(0, command) {
        Ok(ticket) => ticket,
        Err(_refused) => panic!(rt; "a ticket"),
    };
    a_past_goes_on(vault);
    let Ok(_) = vault.pump() else {
        panic!(rt; "a pump");
    };
    a_past_goes_on(vault);
    let answer = vault.redeem(ticket);
    a_past_goes_on(vault);
    receipts_are_of_their_entries();
    match answer {
        Redeemed::Told(receipt) => receipt,
        _answer => panic!(rt; "a reply"),
    }
}

// A new vault.
fn made(rt: &impl Abort, alloc: Global, first: MemDevice, second: MemDevice) -> Vault<MemDevice>
    ensures { IsPast disk_of result [] }
{
    match Vault::create(alloc, first, second, 1) {
        Ok(vault) => {
            a_past_goes_on(&vault);
            vault
        }
        Err(_refused) => panic!(rt; "a vault"),
    }
}

// A vault in files that another program wrote.
fn taken_over(
    rt: &impl Abort,
    alloc: Global,
    first: MemDevice,
    second: MemDevice,
) -> Vault<MemDevice>
    ensures { IsPast disk_of result [] }
{
    match Vault::open(alloc, first, second, 1) {
        Ok(vault) => {
            a_past_goes_on(&vault);
            vault
        }
        Err(_refused) => panic!(rt; "a vault"),
    }
}

fn begun(
    rt: &impl Abort,
    alloc: Global,
    beginning: Beginning,
    first: MemDevice,
    second: MemDevice,
) -> Vault<MemDevice>
    ensures { IsPast disk_of result [] }
{
    match beginning {
        Beginning::Made => made(rt, alloc, first, second),
        Beginning::TakenOver => taken_over(rt, alloc, first, second),
    }
}

// A vault that handed out a reply in its first life.
fn first_life(
    rt: &impl Abort,
    alloc: Global,
    beginning: Beginning,
    files: (MemDevice, MemDevice),
    command: CommandIn<Global>,
) -> (Vault<MemDevice>, Receipt)
    ensures { (past : List (VaultSeen MemDisk)) × IsPast disk_of result.0 past × (length past ≡ 3) × HasTold result.0.view result.1 }
{
    let (first, second) = files;
    let mut vault = begun(rt, alloc, beginning, first, second);
    let receipt = told(rt, &mut vault, command);
    (vault, receipt)
}

// The vault of the next life, in the files that a crash left.
fn opened(rt: &impl Abort, alloc: Global, first: MemDevice, second: MemDevice) -> Vault<MemDevice>
    ensures { (old : VaultSeen MemDisk) (past : List (VaultSeen MemDisk)) → AreLeft disk_of old first second → IsPast disk_of old past
        → IsPast disk_of result (old ∷ past) }
{
    match Vault::open(alloc, first, second, 2) {
        Ok(next) => {
            a_past_goes_on(&next);
            next
        }
        Err(_refused) => panic!(rt; "another life"),
    }
}

// What a crash leaves of both.
fn crashed(first: MemDevice, second: MemDevice, pick: Pick) -> (MemDevice, MemDevice)
    ensures { (old : VaultSeen MemDisk) → AreLeft disk_of old first second → AreLeft disk_of old result.0 result.1 }
{
    let mut first = first;
    let mut second = second;
    first.crash(pick);
    second.crash(pick);
    (first, second)
}

// The vault of the next life, after a crash between two calls.
fn stopped(rt: &impl Abort, alloc: Global, vault: Vault<MemDevice>, pick: Pick) -> Vault<MemDevice>
    ensures { (past : List (VaultSeen MemDisk)) → IsPast disk_of vault past → IsPast disk_of result (vault ∷ past) }
{
    let (first, second) = vault.into_devices();
    let (first, second) = crashed(first, second, pick);
    opened(rt, alloc, first, second)
}

// The same, after a crash inside a pump.
fn stopped_in_a_pump(
    rt: &impl Abort,
    alloc: Global,
    vault: Vault<MemDevice>,
    pick: Pick,
) -> Vault<MemDevice>
    ensures { (past : List (VaultSeen MemDisk)) → IsPast disk_of vault past → IsPast disk_of result (vault ∷ past) }
{
    let mut vault = vault;
    if vault.is_broken() {
        panic!(rt; "a whole vault");
    }
    let _ = vault.pump();
    let (first, second) = vault.into_devices();
    let (first, second) = crashed(first, second, pick);
    opened(rt, alloc, first, second)
}

// The same, after the machine crashed once more, inside the opening after the first crash: at that call of the first device.
fn stopped_in_an_opening(
    rt: &impl Abort,
    alloc: Global,
    vault: Vault<MemDevice>,
    pick: Pick,
    call: u64,
) -> Vault<MemDevice>
    ensures { (past : List (VaultSeen MemDisk)) → IsPast disk_of vault past → IsPast disk_of result (vault ∷ past) }
{
    let (mut first, second) = vault.into_devices();
    first.fail_at(call);
    match Vault::open(alloc, first, second, 2) {
        Ok(_next) => panic!(rt; "a stop"),
        Err(
            Refused {
                why: _,
                first,
                second,
            },
        ) => {
            let (first, second) = crashed(first, second, pick);
            opened(rt, alloc, first, second)
        }
    }
}

// The vault of the next life, after a crash there.
fn next_life(
    rt: &impl Abort,
    alloc: Global,
    stop: Stop,
    vault: Vault<MemDevice>,
    pick: Pick,
) -> Vault<MemDevice>
    ensures { (past : List (VaultSeen MemDisk)) → IsPast disk_of vault past → IsPast disk_of result (vault ∷ past) }
{
    match stop {
        Stop::BetweenCalls => stopped(rt, alloc, vault, pick),
        Stop::InAnOpening(call) => stopped_in_an_opening(rt, alloc, vault, pick, call),
    }
}

/// A vault that handed out a reply, crashed, and was opened again; and the receipt.
pub(crate) fn two_lives(
    rt: &impl Abort,
    alloc: Global,
    lives: (Beginning, Stop),
    files: (MemDevice, MemDevice),
    command: CommandIn<Global>,
    pick: Pick,
) -> (Vault<MemDevice>, Receipt)
    ensures { (past : List (VaultSeen MemDisk)) × (is : IsPast disk_of result.0 past) × (length past ≡ 4)
        × IsFoundAgain disk_of result.0 past is 1 result.1 }
{
    let (beginning, stop) = lives;
    let (vault, receipt) = first_life(rt, alloc, beginning, files, command);
    let next = next_life(rt, alloc, stop, vault, pick);
    receipts_are_found_again(&next);
    (next, receipt)
}

// The making of a place is staged, its ticket given up, and its commit begun: two of its steps are done.
fn under_way(rt: &impl Abort, vault: &mut Vault<MemDevice>, command: CommandIn<Global>)
    ensures { (past : List (VaultSeen MemDisk)) → IsPast disk_of vault.old past
        → (staged given_up written : VaultSeen MemDisk) × IsPast disk_of vault.new (written ∷ given_up ∷ staged ∷ vault.old ∷ past) }
{
    let ticket = match vault.stage(1, command) {
        Ok(ticket) => ticket,
        Err(_refused) => panic!(rt; "a ticket"),
    };
    a_past_goes_on(vault);
    let _ = vault.forget(ticket);
    a_past_goes_on(vault);
    let _ = vault.pump();
    a_past_goes_on(vault);
    let _ = vault.pump();
    a_past_goes_on(vault);
}

/// The same, where the machine crashed inside the pump that writes the commit mark (gate) of a frame.
pub(crate) fn inside_a_pump(
    rt: &impl Abort,
    alloc: Global,
    files: (MemDevice, MemDevice),
    command: CommandIn<Global>,
    next: CommandIn<Global>,
    pick: Pick,
) -> (Vault<MemDevice>, Receipt)
    ensures { (past : List (VaultSeen MemDisk)) × (is : IsPast disk_of result.0 past) × (length past ≡ 8)
        × IsFoundAgain disk_of result.0 past is 5 result.1 }
{
    let (mut vault, receipt) = first_life(rt, alloc, Beginning::Made, files, command);
    under_way(rt, &mut vault, next);
    let next = stopped_in_a_pump(rt, alloc, vault, pick);
    receipts_are_found_again(&next);
    (next, receipt)
}

/// A vault of three lives, with the receipts that it gave in the first and in the second.
pub(crate) fn three_lives(
    rt: &impl Abort,
    alloc: Global,
    files: (MemDevice, MemDevice),
    one: CommandIn<Global>,
    other: CommandIn<Global>,
    pick: Pick,
) -> (Vault<MemDevice>, Receipt, Receipt)
    ensures { (past : List (VaultSeen MemDisk)) × (is : IsPast disk_of result.0 past) × (length past ≡ 8)
        × IsFoundAgain disk_of result.0 past is 5 result.1 × IsFoundAgain disk_of result.0 past is 1 result.2 }
{
    let (vault, early) = first_life(rt, alloc, Beginning::Made, files, one);
    let mut vault = stopped(rt, alloc, vault, pick);
    let late = told(rt, &mut vault, other);
    let next = stopped(rt, alloc, vault, pick);
    receipts_are_found_again(&next);
    (next, early, late)
}
