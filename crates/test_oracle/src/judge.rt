//! Judges each call of a vault by what its definitions say.

use crate::books::are_alike;
use crate::counts::Met;
use crate::files::Files;
use crate::history::History;
use crate::tickets::{Held, Tickets};
use crate::verdict::Verdict;
use crate::world::{Fate, Left, World};
use group_commit::{File, Forgotten, Mark, Phase, Redeemed, Retired, Started, Ticket, Vault};
use std::alloc::Global;
use vault_checkout::Book;
use vault_device::MemDevice;
use vault_inspector::{FileState, Report};
use vault_lines::read_line_of;
use vault_model::{Command, Outside};

// More pumps than a snapshot and a commit after it take.
const MAX_PUMPS: u32 = 1024;

/// What is known of a vault by its definitions. It has tickets, so it must be ended by `close`.
pub struct Judge {
    pub alloc: Global,
    pub verdict: Verdict,
    pub history: History,
    pub world: World,
    tickets: Tickets,
    /// The file on which a device call is set to fail, until it has failed.
    pub armed: Option<File>,
}

// What redeeming a ticket answered. None if out of memory for the reply.
fn fate_of(redeemed: &Redeemed) -> Option<Fate> {
    match redeemed {
        Redeemed::Told(_) => Some(Fate::Told),
        Redeemed::NotYet(_) => Some(Fate::NotYet),
        Redeemed::Stranger(_) => Some(Fate::Stranger),
        Redeemed::Unknown(_) => Some(Fate::Unknown),
        Redeemed::NoMemory(_) => None,
    }
}

// How many bytes of a snapshot are still to be written.
fn left_to_write(phase: Phase) -> u64 {
    match phase {
        Phase::Writing(left) => left,
        _ => 0,
    }
}

fn is_state(world: &World, which: File, state: FileState) -> bool {
    world.state(which) == state
}

/// Whether both files are reported as they were left.
pub fn are_states(world: &World, report: &Report) -> bool {
    is_state(world, File::First, report.first) && is_state(world, File::Second, report.second)
}

// Whether the files are reported as they were left, and whether they are reported to hold this vault.
fn is_reported(world: &World, book: &Book, report: &Report) -> (bool, bool) {
    let states = are_states(world, report);
    match &report.book {
        Some(other) => (states, are_alike(book, other)),
        None => (states, false),
    }
}

impl Judge {
    /// The judge of a new vault in its first life. The verdict goes on from this one. None if out of memory.
    pub fn new(alloc: Global, verdict: Verdict) -> Option<Judge> {
        let history = History::new(alloc)?;
        match Tickets::new(alloc) {
            Some(tickets) => Some(Judge {
                alloc,
                verdict,
                history,
                world: World::new(),
                tickets,
                armed: None,
            }),
            None => {
                drop(history);
                None
            }
        }
    }

    /// Ends the judge. Gives what was found and covered.
    pub fn close(self) -> Verdict {
        let Judge {
            alloc: _,
            verdict,
            history,
            world: _,
            tickets,
            armed: _,
        } = self;
        drop(history);
        tickets.close();
        verdict
    }

    // A command was given a ticket.
    fn staged(&mut self, session: u32, command: Command, ticket: Ticket) {
        let position = ticket.position();
        let life = self.world.life;
        self.tickets.push(Held {
            life,
            position,
            ticket,
        });
        let refused = self.world.refusal().is_some();
        self.verdict
            .sure(!refused, "a command was taken that had to be refused");
        self.verdict.sure(
            position == self.world.len,
            "a ticket has another position than its command",
        );
        match self.history.say(session, command) {
            Some(record) => self.world.stage(record),
            None => self.verdict.sure(false, "the book wants memory"),
        }
        self.verdict.counts.up(Met::Staged);
        if let Some(reply) = self.history.last_reply() {
            self.verdict.counts.reply(reply);
        }
    }

    // A command was refused outside the history, and came back, unchanged or not.
    fn turned_away(&mut self, outside: Outside, same: bool) {
        self.verdict.counts.up(match outside {
            Outside::Broken => Met::Broken,
            _ => Met::Busy,
        });
        let expected = self.world.refusal() == Some(outside);
        self.verdict
            .sure(expected, "a command was refused that had to be taken");
        self.verdict
            .sure(same, "a refused command came back changed");
    }

    // A session says a command; `copy` is a copy of it.
    fn stage(
        &mut self,
        vault: &mut Vault<MemDevice>,
        session: u32,
        command: Command,
        copy: Command,
    ) {
        match vault.stage(session, command) {
            Ok(ticket) => self.staged(session, copy, ticket),
            Err((outside, back)) => {
                let same = back == copy;
                drop(back);
                drop(copy);
                self.turned_away(outside, same);
            }
        }
    }

    // A session says a command.
    fn tell(&mut self, vault: &mut Vault<MemDevice>, session: u32, command: Command) {
        match command.copy(self.alloc) {
            Ok(copy) => self.stage(vault, session, command, copy),
            Err(_) => {
                drop(command);
                self.verdict.sure(false, "a command can't be copied");
            }
        }
    }

    /// A session says the command that a line spells.
    pub fn say(&mut self, vault: &mut Vault<MemDevice>, session: u32, line: &[u8]) {
        match read_line_of(self.alloc, line) {
            Ok(command) => self.tell(vault, session, command),
            Err(_) => self
                .verdict
                .sure(false, "a line of the simulation is no command"),
        }
    }

    // A device call of a pump failed.
    fn faulted(&mut self) {
        let called = self.world.next_call();
        self.verdict.sure(
            called.is_some() && called == self.armed,
            "a device call failed that was not told to",
        );
        self.verdict.counts.up(Met::PumpFault);
        self.armed = None;
        self.world.fault();
    }

    /// Makes a pump, and judges it by the table of phases.
    pub fn pump(&mut self, vault: &mut Vault<MemDevice>) {
        match vault.pump() {
            Ok(answer) => {
                let expected = self.world.pump(left_to_write(vault.phase()));
                self.verdict
                    .sure(answer == expected, "a pump made another step");
            }
            Err(_) => self.faulted(),
        }
    }

    /// Pumps until all is durable, or a device call failed.
    pub fn commit(&mut self, vault: &mut Vault<MemDevice>) {
        for _ in 0..MAX_PUMPS {
            if self.world.broken || self.world.is_at_rest() {
                return;
            }
            self.pump(vault);
        }
    }

    /// Begins a snapshot, if it isn't refused.
    pub fn start(&mut self, vault: &mut Vault<MemDevice>) {
        let expected = self.world.start();
        if expected == Started::Yes {
            self.verdict.counts.up(Met::Snapshot);
        }
        match vault.start_snapshot() {
            Ok(answer) => self.verdict.sure(
                answer == expected,
                "a snapshot was begun that had to be refused, or the other way round",
            ),
            Err(_) => self.verdict.sure(false, "a snapshot wants memory"),
        }
    }

    /// Trims the oldest kept entry, if it may be trimmed.
    pub fn retire(&mut self, vault: &mut Vault<MemDevice>) {
        let is_open = self.history.is_open(self.world.retired);
        let expected = self.world.retire(is_open);
        if expected == Retired::One {
            self.verdict.counts.up(Met::Retired);
        }
        self.verdict.sure(
            vault.retire() == expected,
            "an entry was let go that had to stay, or the other way round",
        );
    }

    /// Trims all entries that may be trimmed.
    pub fn retire_all(&mut self, vault: &mut Vault<MemDevice>) {
        for _ in 0..=self.world.kept() {
            self.retire(vault);
        }
    }

    // A ticket of the present life came back.
    fn keep(&mut self, life: u64, position: u64, ticket: Ticket) {
        self.tickets.push(Held {
            life,
            position,
            ticket,
        });
    }

    // A ticket of another life came back.
    fn spend(&mut self, life: u64, position: u64, ticket: Ticket) {
        self.verdict.counts.up(Met::Stranger);
        self.tickets.give_up(Held {
            life,
            position,
            ticket,
        });
    }

    // Notes what became of a ticket that was redeemed.
    fn redeemed(&mut self, life: u64, position: u64, answer: Redeemed) {
        match answer {
            Redeemed::Told(receipt) => {
                let same = self.history.is_reply(position, receipt.reply());
                drop(receipt);
                self.verdict.sure(same, "another reply was told");
                self.verdict.counts.up(Met::Told);
                self.history.mark(position, Mark::Told);
                self.world.told = self.world.told.saturating_add(1);
            }
            Redeemed::Stranger(ticket) => self.spend(life, position, ticket),
            Redeemed::Unknown(ticket) => {
                self.verdict.counts.up(Met::Unknown);
                self.keep(life, position, ticket);
            }
            Redeemed::NotYet(ticket) | Redeemed::NoMemory(ticket) => {
                self.keep(life, position, ticket)
            }
        }
    }

    /// Redeems the first ticket.
    pub fn redeem_first(&mut self, vault: &mut Vault<MemDevice>) {
        let Some(held) = self.tickets.take() else {
            return;
        };
        let Held {
            life,
            position,
            ticket,
        } = held;
        let expected = self.world.fate(life, position);
        let answer = vault.redeem(ticket);
        let same = fate_of(&answer) == Some(expected);
        self.redeemed(life, position, answer);
        self.verdict.sure(same, "a ticket met another fate");
    }

    /// Redeems each ticket once.
    pub fn redeem_all(&mut self, vault: &mut Vault<MemDevice>) {
        for _ in 0..self.tickets.len() {
            self.redeem_first(vault);
        }
    }

    /// Forgets the first ticket.
    pub fn forget_first(&mut self, vault: &mut Vault<MemDevice>) {
        let Some(held) = self.tickets.take() else {
            return;
        };
        let Held {
            life,
            position,
            ticket,
        } = held;
        let mut expected = Forgotten::Stranger;
        if life == self.world.life {
            expected = Forgotten::Here;
            self.history.mark(position, Mark::Forgotten);
        }
        self.verdict.counts.up(Met::Forgotten);
        let same = vault.forget(ticket) == expected;
        self.verdict
            .sure(same, "a ticket was forgotten elsewhere than it is of");
    }

    /// Puts the first ticket behind the others.
    pub fn pass_first(&mut self) {
        if let Some(held) = self.tickets.take() {
            self.tickets.push(held);
        }
    }

    /// Judges what the vault counts by what the definitions count.
    pub fn count(&mut self, vault: &Vault<MemDevice>) {
        let world = self.world;
        if world.wants_snapshot() {
            self.verdict.counts.up(Met::Wanted);
        }
        let same = vault.len() == world.len
            && vault.durable() == world.settled
            && vault.kept() == world.kept()
            && vault.told() == world.told
            && vault.is_broken() == world.broken
            && vault.wants_snapshot() == world.wants_snapshot();
        self.verdict.sure(same, "the vault counts otherwise");
        self.verdict.sure(
            vault.phase() == world.phase,
            "the vault is in another phase",
        );
    }

    /// The machine crashes and leaves this of each file, or the devices are handed back. The next life begins.
    pub fn stop(&mut self, files: &mut Files, first: Left, second: Left) {
        files.crash(first, second);
        self.armed = None;
        self.verdict.counts.stop(self.world.phase, first, second);
        let settled = self.world.settled;
        let kept = self.world.stop(first, second);
        if settled < kept {
            self.verdict.counts.up(Met::SealedKept);
        }
        self.verdict.sure(
            self.history.has_told(kept),
            "a told command is not in what was kept",
        );
        self.verdict.sure(
            self.history.stop(kept),
            "a reply differs once the history is gone through again, or a claim stands otherwise",
        );
    }

    /// Judges the report on the files: they must hold the vault after the entries that were kept.
    pub fn inspect(&mut self, files: &mut Files) {
        let Some(report) = files.report(self.alloc) else {
            self.verdict.sure(false, "the files can't be inspected");
            return;
        };
        let (states, same) = is_reported(&self.world, self.history.book(), &report);
        drop(report);
        self.verdict
            .sure(states, "the files are not reported as they were left");
        self.verdict.sure(
            same,
            "the files hold another vault than the prefix of the history",
        );
    }
}
