//! Makes calls of a vault, one after another.

use crate::vault::call::{Call, Fate, Hand, Row, Said};
use group_commit::{Forgotten, Redeemed, Started, Ticket, Vault};
use std::alloc::{Allocator, Global};
use std::mem;
use std::process::Abort;
use test_memory::Outcome;
use vault_device::{Device, MemDevice, Pick};
use vault_lines::read_line_of;
use vault_model::{
    ClaimId, Command, CommandIn, Intent, Listing, Name, NoMemory, Outside, Path, PathItem, Reply,
    ReplyIn,
};

/// Outstanding tickets. They are spent by `end`, since a ticket can't be dropped.
pub(crate) struct Hands<A: Allocator> {
    left: Option<Ticket<A>>,
    right: Option<Ticket<A>>,
}

impl<A: Allocator> Hands<A> {
    /// No tickets.
    pub(crate) fn empty() -> Hands<A> {
        Hands {
            left: None,
            right: None,
        }
    }

    // Puts this into a hand, and gives what was there.
    fn swap(&mut self, hand: Hand, ticket: Option<Ticket<A>>) -> Option<Ticket<A>> {
        match hand {
            Hand::Left => mem::replace(&mut self.left, ticket),
            Hand::Right => mem::replace(&mut self.right, ticket),
        }
    }
}

impl<A: Allocator + Copy> Hands<A> {
    // Keeps a ticket. One that was there is spent.
    fn keep<D: Device>(&mut self, vault: &mut Vault<D, A>, hand: Hand, ticket: Ticket<A>) {
        give_up(vault, self.swap(hand, Some(ticket)));
    }

    /// Spends all.
    pub(crate) fn end<D: Device>(self, vault: &mut Vault<D, A>) {
        let Hands { left, right } = self;
        give_up(vault, left);
        give_up(vault, right);
    }
}

fn give_up<D: Device, A: Allocator + Copy>(vault: &mut Vault<D, A>, ticket: Option<Ticket<A>>) {
    if let Some(ticket) = ticket {
        let _ = vault.forget(ticket);
    }
}

fn check_out<A: Allocator + Copy>(alloc: A) -> Option<CommandIn<A>> {
    let path = Path::read(b"/e/b/p")?;
    let intent = Intent::Change;
    let items = vec![in alloc; PathItem { intent, path }].ok()?;
    Some(Command::CheckOut(Listing::from_vec(items)))
}

fn save<A: Allocator + Copy>(alloc: A) -> Option<CommandIn<A>> {
    let path = Path::read(b"/e/b/p")?;
    let content = vec![in alloc; b'x'; 1024].ok()?;
    Some(Command::Save(1, path, Listing::from_vec(content)))
}

/// The command. Only a check-out, a save and a line take memory.
pub(crate) fn command<A: Allocator + Copy>(alloc: A, said: Said) -> Option<CommandIn<A>> {
    match said {
        Said::Hello(name) => Some(Command::Join(Name::read(name)?)),
        Said::Make(path) => Some(Command::Make(Path::read(path)?, None)),
        Said::Question => Some(Command::State(ClaimId::Long(1))),
        Said::List => Some(Command::List(Path::root())),
        Said::CheckOut => check_out(alloc),
        Said::Save => save(alloc),
        Said::Line(line) => read_line_of(alloc, line.as_bytes()).ok(),
    }
}

/// Whether this is that command.
pub(crate) fn is_same<A: Allocator + Copy>(
    alloc: A,
    command_back: &CommandIn<A>,
    said: Said,
) -> bool {
    match command(alloc, said) {
        Some(copy) => {
            let is_same = *command_back == copy;
            drop(copy);
            is_same
        }
        None => false,
    }
}

// The ticket of a session's command. Else why it isn't staged, or None where the same command didn't come back.
fn staged<D: Device, A: Allocator + Copy>(
    vault: &mut Vault<D, A>,
    alloc: A,
    (session, said): (u32, Said),
    command: CommandIn<A>,
) -> Result<Ticket<A>, Option<Outside>> {
    match vault.stage(session, command) {
        Ok(ticket) => Ok(ticket),
        Err((why, back)) => {
            let is_back = is_same(alloc, &back, said);
            drop(back);
            Err(if is_back { Some(why) } else { None })
        }
    }
}

/// Stages this command, which is the one said: done with its ticket in a hand, or refused memory, and then handed back.
pub(crate) fn stage<D: Device, A: Allocator + Copy>(
    vault: &mut Vault<D, A>,
    hands: &mut Hands<A>,
    alloc: A,
    (hand, session, said): (Hand, u32, Said),
    command: CommandIn<A>,
) -> Outcome {
    match staged(vault, alloc, (session, said), command) {
        Ok(ticket) => {
            hands.keep(vault, hand, ticket);
            Outcome::Done
        }
        Err(why) => Outcome::refused(why == Some(Outside::NoMemory)),
    }
}

// Whether a command is staged, and its ticket given up, or isn't staged for this reason.
fn is_given<D: Device, A: Allocator + Copy>(
    vault: &mut Vault<D, A>,
    alloc: A,
    (session, said): (u32, Said),
    reason: Option<Outside>,
) -> bool {
    let Some(command) = command(alloc, said) else {
        return false;
    };
    match staged(vault, alloc, (session, said), command) {
        Ok(ticket) => vault.forget(ticket) == Forgotten::Here && reason.is_none(),
        Err(why) => reason.is_some() && why == reason,
    }
}

/// Whether a reply is this one.
pub(crate) fn is_told<A: Allocator>(reply: &ReplyIn<A>, fate: Fate) -> bool {
    match reply {
        Reply::Session(number) => matches!(fate, Fate::Session(told) if told == *number),
        Reply::Place(number) => matches!(fate, Fate::Place(told) if told == *number),
        Reply::Refused(why) => matches!(fate, Fate::Refused(told) if told == *why),
        Reply::Children(names) => {
            let Fate::Listed(told) = fate else {
                return false;
            };
            matches!(names.as_slice(), [name] if name.as_bytes() == told)
        }
        _ => false,
    }
}

fn redeem<D: Device, A: Allocator + Copy>(
    vault: &mut Vault<D, A>,
    hands: &mut Hands<A>,
    hand: Hand,
    fate: Fate,
) -> Outcome {
    let Some(ticket) = hands.swap(hand, None) else {
        return Outcome::Wrong;
    };
    let (is_right, ticket) = match vault.redeem(ticket) {
        Redeemed::Told(receipt) => {
            let is_told = is_told(receipt.reply(), fate);
            drop(receipt);
            return Outcome::done(is_told);
        }
        Redeemed::NoMemory(ticket) => {
            hands.keep(vault, hand, ticket);
            return Outcome::Refused;
        }
        Redeemed::NotYet(ticket) => (matches!(fate, Fate::NotYet), ticket),
        Redeemed::Stranger(ticket) => (matches!(fate, Fate::Stranger), ticket),
        Redeemed::Unknown(ticket) => (matches!(fate, Fate::Unknown), ticket),
    };
    hands.keep(vault, hand, ticket);
    Outcome::done(is_right)
}

fn is_forgotten<D: Device, A: Allocator + Copy>(
    vault: &mut Vault<D, A>,
    hands: &mut Hands<A>,
    hand: Hand,
    forgotten: Forgotten,
) -> bool {
    match hands.swap(hand, None) {
        Some(ticket) => vault.forget(ticket) == forgotten,
        None => false,
    }
}

fn start<D: Device, A: Allocator + Copy>(vault: &mut Vault<D, A>, answer: Started) -> Outcome {
    match vault.start_snapshot() {
        Ok(started) => Outcome::done(started == answer),
        Err(NoMemory) => Outcome::Refused,
    }
}

/// How many entries a vault has, keeps, made durable and acknowledged.
pub(crate) fn numbers_of<D: Device, A: Allocator + Copy>(vault: &Vault<D, A>) -> [u64; 4] {
    [vault.len(), vault.kept(), vault.durable(), vault.told()]
}

/// Makes one call: done, or refused memory with a ticket back in its hand.
pub(crate) fn call<D: Device, A: Allocator + Copy>(
    vault: &mut Vault<D, A>,
    hands: &mut Hands<A>,
    alloc: A,
    call: Call,
) -> Outcome {
    let is_right = match call {
        Call::Stage(hand, session, said) => {
            let Some(command) = command(alloc, said) else {
                return Outcome::Wrong;
            };
            return stage(vault, hands, alloc, (hand, session, said), command);
        }
        Call::Redeem(hand, fate) => return redeem(vault, hands, hand, fate),
        Call::Start(answer) => return start(vault, answer),
        Call::Give(session, said) => is_given(vault, alloc, (session, said), None),
        Call::Refuse(said, reason) => is_given(vault, alloc, (1, said), Some(reason)),
        Call::Forget(hand, answer) => is_forgotten(vault, hands, hand, answer),
        Call::Pump(answer) => vault.pump() == answer,
        Call::Retire(answer) => vault.retire() == answer,
        Call::Numbers(numbers) => numbers_of(vault) == numbers,
        Call::Wants(wants) => vault.wants_snapshot() == wants,
        Call::Broken(is_broken) => vault.is_broken() == is_broken,
        Call::Phase(phase) => vault.phase() == phase,
    };
    Outcome::done(is_right)
}

/// How many of these rows are answered as they say, one after another, up to the first that isn't.
pub(crate) fn answered<D: Device, A: Allocator + Copy>(
    vault: &mut Vault<D, A>,
    hands: &mut Hands<A>,
    alloc: A,
    rows: &[Row],
) -> usize {
    let mut count: usize = 0;
    for (times, each) in rows {
        for _ in 0..*times {
            if call(vault, hands, alloc, *each) != Outcome::Done {
                return count;
            }
        }
        count = count.wrapping_add(1);
    }
    count
}

/// Calls of a new vault, what they come to, and calls of the vault of the next life, after a crash that kept nothing that wasn't
/// synced.
pub(crate) struct Script {
    pub name: &'static str,
    /// Which call of the first device is to fail; 0 for none. The vault's creation makes eight.
    pub failing: u64,
    pub calls: &'static [Row],
    /// How many device calls were made then, of the first device and of the second.
    pub devices: (u64, u64),
    /// How many bytes the first file has then.
    pub len: u64,
    pub next: &'static [Row],
}

/// Ends a vault. Its devices come back, and nothing else is dropped here.
pub(crate) fn end<D: Device + Drop, A: Allocator + Copy>(vault: Vault<D, A>) {
    let (first, second) = vault.into_devices();
    drop(first);
    drop(second);
}

/// A new file in memory.
pub(crate) fn device(rt: &impl Abort, alloc: Global) -> MemDevice {
    MemDevice::new(alloc).expect(rt, "memory")
}

/// A new vault. The nth call of its first device is to fail; 0 for none.
pub(crate) fn new_vault<A: Allocator + Copy>(
    rt: &impl Abort,
    alloc: A,
    files: Global,
    failing: u64,
) -> Vault<MemDevice, A> {
    let mut first = device(rt, files);
    first.fail_at(failing);
    match Vault::create(alloc, first, device(rt, files), 1) {
        Ok(vault) => vault,
        Err(_refused) => panic!(rt; "a vault"),
    }
}

// The vault of the next life.
fn next_vault(
    rt: &impl Abort,
    alloc: Global,
    mut first: MemDevice,
    mut second: MemDevice,
) -> Vault<MemDevice> {
    first.crash(Pick::Old);
    second.crash(Pick::Old);
    match Vault::open(alloc, first, second, 2) {
        Ok(vault) => vault,
        Err(_refused) => panic!(rt; "another life"),
    }
}

/// How many rows are answered as they say in the first life, whether the files then are as the script says, and how many rows are
/// answered in the next life.
pub(crate) fn played(rt: &impl Abort, alloc: Global, script: &Script) -> (usize, bool, usize) {
    let mut vault = new_vault(rt, alloc, alloc, script.failing);
    let mut hands = Hands::empty();
    let count = answered(&mut vault, &mut hands, alloc, script.calls);
    let (mut first, second) = vault.into_devices();
    let are_so = (first.calls(), second.calls()) == script.devices && first.len() == Ok(script.len);
    let mut vault = next_vault(rt, alloc, first, second);
    let next = answered(&mut vault, &mut hands, alloc, script.next);
    hands.end(&mut vault);
    end(vault);
    (count, are_so, next)
}
