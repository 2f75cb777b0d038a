//! What the runs covered.

use crate::world::Left;
use group_commit::Phase;
use vault_device::Pick;
use vault_model::{Refusal, Reply};

/// What is counted by name.
#[derive(Clone, Copy)]
pub enum Met {
    Run,
    Staged,
    Told,
    Forgotten,
    Stranger,
    Unknown,
    Retired,
    Busy,
    Broken,
    Snapshot,
    Wanted,
    SealedKept,
    PumpFault,
    OpenFault,
    Torn,
    Spoiled,
    Opened,
    NoVault,
    Damaged,
    Stop,
}

/// What each count is of: first what is counted by name, then phases, what devices kept, and replies.
pub const COUNTED: [&str; 66] = [
    "runs",
    "commands staged",
    "replies told",
    "tickets forgotten",
    "tickets of another life",
    "tickets of which nothing is known",
    "entries let go",
    "commands refused 80",
    "commands refused 82",
    "snapshots begun",
    "times a snapshot was wanted",
    "stops that kept what was sealed and not settled",
    "pumps whose device call failed",
    "openings whose device call failed",
    "files with any bytes where crashes may leave any",
    "pairs of spoiled files",
    "spoiled pairs that open",
    "spoiled pairs without a vault",
    "spoiled pairs that are damaged",
    "stops",
    "stops while idle",
    "stops with a body written",
    "stops with a body settled",
    "stops with a gate being opened",
    "stops with a snapshot begun",
    "stops with the spare being closed",
    "stops with a snapshot being written",
    "stops with a snapshot written",
    "stops with a snapshot settled",
    "stops with a snapshot's gate being opened",
    "devices that kept the old bytes",
    "devices that kept the new bytes",
    "devices that kept bytes 00",
    "devices that kept bytes 01",
    "devices that kept other bytes",
    "devices that were handed back",
    "places made",
    "claims held",
    "claims queued",
    "drafts saved",
    "check-ins",
    "claims abandoned",
    "check-outs given away",
    "notes written",
    "other replies",
    "refused 11",
    "refused 12",
    "refused 20",
    "refused 21",
    "refused 22",
    "refused 23",
    "refused 30",
    "refused 31",
    "refused 32",
    "refused 33",
    "refused 34",
    "refused 36",
    "refused 40",
    "refused 50",
    "sessions opened",
    "sessions closed",
    "holds released",
    "notes read",
    "claims shown",
    "claims at a place listed",
    "drafts listed",
];

/// What the runs covered.
#[derive(Clone, Copy)]
pub struct Counts {
    tallies: [u64; 66],
}

fn index_of_phase(phase: Phase) -> usize {
    match phase {
        Phase::Idle => 20,
        Phase::Written => 21,
        Phase::Bodied => 22,
        Phase::Opening => 23,
        Phase::Start => 24,
        Phase::Closing => 25,
        Phase::Writing(_) => 26,
        Phase::Filled => 27,
        Phase::Ready => 28,
        Phase::SnapOpening => 29,
    }
}

fn index_of_left(left: Left) -> usize {
    match left {
        Left::Crashed(Pick::Old) => 30,
        Left::Crashed(Pick::New) => 31,
        Left::Crashed(Pick::Bytes(0)) => 32,
        Left::Crashed(Pick::Bytes(1)) => 33,
        Left::Crashed(Pick::Bytes(_)) => 34,
        Left::Shown => 35,
    }
}

fn index_of_refusal(refusal: Refusal) -> usize {
    match refusal {
        Refusal::NoSession => 45,
        Refusal::Joined => 46,
        Refusal::NoPlace => 47,
        Refusal::Exists => 48,
        Refusal::WrongKind => 49,
        Refusal::Covered(_) => 50,
        Refusal::NoClaim => 51,
        Refusal::NotYours => 52,
        Refusal::NotHeld => 53,
        Refusal::Overlaps(_) => 54,
        Refusal::NotCovered => 55,
        Refusal::ItemCount => 56,
        Refusal::NoVersion => 57,
        Refusal::Limit => 58,
    }
}

fn index_of_reply(reply: &Reply) -> usize {
    match reply {
        Reply::Place(_) => 36,
        Reply::Held(_) => 37,
        Reply::Queued(_, _) => 38,
        Reply::Saved => 39,
        Reply::CheckedIn(_) => 40,
        Reply::Abandoned => 41,
        Reply::Given => 42,
        Reply::Noted => 43,
        Reply::Session(_) => 59,
        Reply::Left => 60,
        Reply::Released => 61,
        Reply::NoteIs(_) => 62,
        Reply::Shown(_) => 63,
        Reply::ClaimsAt(_) => 64,
        Reply::DraftsOf(_) => 65,
        Reply::Refused(refusal) => index_of_refusal(*refusal),
        _ => 44,
    }
}

impl Counts {
    /// All counts are 0.
    pub fn new() -> Counts {
        Counts { tallies: [0; 66] }
    }

    fn up_at(&mut self, index: usize) {
        if let Some(tally) = self.tallies.get_mut(index) {
            *tally = tally.saturating_add(1);
        }
    }

    /// Counts this once more.
    pub fn up(&mut self, met: Met) {
        self.up_at(met as usize);
    }

    /// Counts a reply to a command.
    pub(crate) fn reply(&mut self, reply: &Reply) {
        self.up_at(index_of_reply(reply));
    }

    /// Counts the end of a life in a phase, after which the devices kept this.
    pub(crate) fn stop(&mut self, phase: Phase, first: Left, second: Left) {
        self.up(Met::Stop);
        self.up_at(index_of_phase(phase));
        self.up_at(index_of_left(first));
        self.up_at(index_of_left(second));
    }

    /// The counts, in the order of `COUNTED`.
    pub fn tallies(&self) -> &[u64] {
        &self.tallies
    }
}
