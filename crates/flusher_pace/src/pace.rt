//! When the flusher sleeps, and for how many entries a commit waits.
ghost use Rattle.std.specs.Prelude.{◌≡◌, ◌+◌, ◌-◌, ◌^◌, ◌<◌, ◌&&◌, ◌||◌, nat_lt, not, ℕ, true, false, if◌then◌else◌, None, Some, Ok};
ghost use Rattle.vault_store.specs.declared.phase.Advanced.TheVariants as Advanced;
ghost use Rattle.vault_store.specs.declared.starting.Started.TheVariants as Started;
ghost use Rattle.flusher_pace.specs.declared.pace.UnderWay.TheVariants as UnderWay;

use vault_device::Fault;
use vault_model::{Command, CommandIn, NoMemory};
use vault_store::{Advanced, Started};

/// Whether a command may change the vault. A question needs no device, so it doesn't wait for other commands. A wrong answer
/// would only cost time.
pub fn may_change<W, C>(command: &Command<W, C>) -> bool {
    !matches!(
        command,
        Command::Join(_)
            | Command::Hold(_)
            | Command::Release(_)
            | Command::State(_)
            | Command::List(_)
            | Command::Fetch(_, _)
            | Command::Count(_)
            | Command::ReadNote(_)
            | Command::Show(_)
            | Command::Claims(_)
            | Command::Drafts(_)
            | Command::Draft(_, _)
            | Command::Await(_)
            | Command::Leave
    )
}

/// What the flusher and the workers know of each other, under the lock. It says when something is done, and never what.
#[derive(Debug, Clone, Copy, PartialEq, Eq)]
pub struct Pace {
    /// The number of waiting entries that wakes the flusher. None: it is awake.
    pub wake_from: Option<u64>,
    /// For how many entries the next commit waits.
    pub group: u64,
    /// Whether a waiting entry that isn't sealed may have changed the vault.
    pub has_change: bool,
    /// What the next pump goes on with.
    pub under_way: UnderWay,
    /// Whether a worker waits for room in the history.
    pub is_asked_for_room: bool,
    /// The number of forgotten tickets. Their entries are never acknowledged.
    pub forgotten: u64,
    /// Whether a snapshot couldn't be begun, and no commit was made since.
    pub is_put_off: bool,
}

/// What was begun at the devices, and isn't durable yet.
#[derive(Debug, Clone, Copy, PartialEq, Eq)]
pub enum UnderWay {
    /// All is durable, or only staged.
    Nothing,
    /// A commit, which somebody waits for.
    Commit,
    /// A snapshot.
    Snapshot,
}

impl Pace {
    /// Nothing was staged yet.
    pub fn new() -> Pace
        ensures { result ≡ record {
          wake_from = None;
          group = 0;
          has_change = false;
          under_way = UnderWay.Nothing;
          is_asked_for_room = false;
          forgotten = 0;
          is_put_off = false;
        } }
    {
        Pace {
            wake_from: None,
            group: 0,
            has_change: false,
            under_way: UnderWay::Nothing,
            is_asked_for_room: false,
            forgotten: 0,
            is_put_off: false,
        }
    }

    /// A worker waits for room in the history.
    pub fn asks_for_room(&mut self)
        ensures { self.new ≡ record self.old { is_asked_for_room = true } }
    {
        self.is_asked_for_room = true;
    }

    /// Room is made there, as far as possible.
    pub fn makes_room(&mut self)
        ensures { self.new ≡ record self.old { is_asked_for_room = false } }
    {
        self.is_asked_for_room = false;
    }

    /// A command was staged, and `waiting` entries wait now. Whether the flusher sleeps and has to be woken: by as many entries as it
    /// sleeps for, or by a question where no waiting entry is a change.
    pub fn staged(&mut self, waiting: u64, may_change: bool) -> bool
        ensures awake { self.old.wake_from ≡ None → result ≡ false }
        ensures asleep { (least : ℕ) → self.old.wake_from ≡ Some least
            → result ≡ (not (nat_lt waiting least) || not (self.old.has_change || may_change)) }
        ensures changed { self.new ≡ record self.old {
          has_change = self.old.has_change || may_change;
          wake_from = if result then None else self.old.wake_from;
        } }
    {
        self.has_change = self.has_change || may_change;
        let Some(least) = self.wake_from else {
            return false;
        };
        if waiting < least && self.has_change {
            return false;
        }
        self.wake_from = None;
        true
    }

    /// Whether the flusher sleeps on, until `least` entries wait.
    pub fn sleeps(&mut self, is_early: bool, least: u64) -> bool
        ensures early { result ≡ is_early }
        ensures left { self.new ≡ record self.old { wake_from = if is_early then Some least else None } }
    {
        self.wake_from = if is_early { Some(least) } else { None };
        is_early
    }

    /// A ticket was forgotten. The count stops at the greatest number.
    pub fn forgets(&mut self)
        ensures counted { self.old.forgotten < 2 ^ 64 - 1
            → self.new ≡ record self.old { forgotten = self.old.forgotten + 1 } }
        ensures last { self.old.forgotten ≡ 2 ^ 64 - 1 → self.new ≡ self.old }
    {
        if self.forgotten < u64::MAX {
            self.forgotten += 1;
        }
    }

    /// Whether some durable entry is still to be acknowledged, and a change waits: `settled` are durable, and `told` were acknowledged.
    pub fn owes(&self, settled: u64, told: u64) -> bool
        ensures { result ≡ (self.now.has_change && nat_lt (told + self.now.forgotten) settled) }
    {
        self.has_change && told < settled && self.forgotten < settled - told
    }

    /// Whether the commit waits for more entries: the clients that the last one answered, or that came meanwhile, aren't all back, and
    /// not only questions wait.
    pub fn lacks(&self, waiting: u64) -> bool
        ensures { result ≡ (nat_lt 1 self.now.group && nat_lt waiting self.now.group && self.now.has_change) }
    {
        self.group > 1 && waiting < self.group && self.has_change
    }

    /// The next commit waits for this many entries: those that the last one answered, and those that came since it began.
    pub fn expects(&mut self, group: u64)
        ensures { self.new ≡ record self.old { group = group } }
    {
        self.group = group;
    }

    /// A snapshot was begun, which seals what waits; or it wasn't, and is put off. It doesn't count as a commit: it takes longer, and
    /// nobody is waited for after it.
    pub fn started(&mut self, started: Result<Started, NoMemory>)
        ensures begun { started ≡ Ok Started.Yes → self.new ≡ record self.old { has_change = false; under_way = UnderWay.Snapshot } }
        ensures not_begun { (started ≡ Ok Started.Yes → ⊥) → self.new ≡ record self.old { is_put_off = true } }
    {
        if started == Ok(Started::Yes) {
            self.has_change = false;
            self.under_way = UnderWay::Snapshot;
        } else {
            self.is_put_off = true;
        }
    }

    /// A pump was made.
    pub fn pumped(&mut self, pumped: Result<Advanced, Fault>)
        ensures begun { self.old.under_way ≡ UnderWay.Nothing → pumped ≡ Ok Advanced.Moved
            → self.new ≡ record self.old { has_change = false; under_way = UnderWay.Commit } }
        ensures committed { self.old.under_way ≡ UnderWay.Commit → pumped ≡ Ok Advanced.Settled
            → self.new ≡ record self.old { is_put_off = false; under_way = UnderWay.Nothing } }
        ensures renewed { self.old.under_way ≡ UnderWay.Snapshot → pumped ≡ Ok Advanced.Settled
            → self.new ≡ record self.old { under_way = UnderWay.Nothing } }
        ensures goes_on { (self.old.under_way ≡ UnderWay.Nothing → ⊥) → pumped ≡ Ok Advanced.Moved → self.new ≡ self.old }
        ensures otherwise { (pumped ≡ Ok Advanced.Moved → ⊥) → (pumped ≡ Ok Advanced.Settled → self.old.under_way ≡ UnderWay.Nothing)
            → self.new ≡ record self.old { has_change = false } }
    {
        match (self.under_way, pumped) {
            (UnderWay::Nothing, Ok(Advanced::Moved)) => {
                self.has_change = false;
                self.under_way = UnderWay::Commit;
            }
            (_, Ok(Advanced::Moved)) => {}
            (UnderWay::Commit, Ok(Advanced::Settled)) => {
                self.is_put_off = false;
                self.under_way = UnderWay::Nothing;
            }
            (UnderWay::Snapshot, Ok(Advanced::Settled)) => self.under_way = UnderWay::Nothing,
            _ => self.has_change = false,
        }
    }
}
