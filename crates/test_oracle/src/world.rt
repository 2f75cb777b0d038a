//! The numbers of a vault and of its two files, as the table of phases gives them.

use group_commit::{File, Phase, Pumped, Retired, Started};
use vault_device::Pick;
use vault_inspector::FileState;
use vault_model::Outside;
use vault_store::FileVersion;

// The most entries that are kept in memory.
const MAX_KEPT: u64 = 4096;

// The most bytes of records in the open buffer at which any other record still fits.
const MAX_NOTED: u64 = 261_104;

// No frame may begin at this offset or beyond.
const LAST_TAIL: u64 = 1 << 62;

// How many bytes a frame has beside its records.
const FRAME_EXTRA: u64 = 5;

// The offset of the tail gate of a new vault.
const NEW_TAIL: u64 = 34;

// With this many bytes of frames, a snapshot is wanted.
const LONG_JOURNAL: u64 = 1_048_576;

// How many bytes of a snapshot one pump writes at most.
const MAX_PIECE: u64 = 65_536;

/// What a device has, after a life ended, of the bytes written since its last sync.
#[derive(Clone, Copy, PartialEq)]
pub enum Left {
    /// What a read gave: the device was handed back, without a crash.
    Shown,
    /// What a crash with this pick leaves.
    Crashed(Pick),
}

impl Left {
    /// Whether a gate that was being opened is a 1.
    fn opens(self) -> bool {
        match self {
            Left::Shown | Left::Crashed(Pick::New) => true,
            Left::Crashed(Pick::Old) => false,
            Left::Crashed(Pick::Bytes(byte)) => byte == 1,
        }
    }

    /// Whether a gate that was being closed is there and no 1.
    fn shuts(self) -> bool {
        match self {
            Left::Shown | Left::Crashed(Pick::New) => true,
            Left::Crashed(Pick::Old) => false,
            Left::Crashed(Pick::Bytes(byte)) => byte != 1,
        }
    }
}

/// What redeeming a ticket must answer.
#[derive(Clone, Copy, PartialEq)]
pub(crate) enum Fate {
    Told,
    NotYet,
    Unknown,
    Stranger,
}

/// The open file of the greater generation.
#[derive(Clone, Copy)]
struct Active {
    which: File,
    generation: u64,
    frames: u64,
    // The offset of its tail gate.
    tail: u64,
    // How many bytes its frames have.
    journal: u64,
    version: FileVersion,
}

/// The other file.
#[derive(Clone, Copy)]
struct Spare {
    // Whether its head gate is there and no 1.
    shut: bool,
    // Its generation, if it is open.
    older: Option<u64>,
}

/// What a vault counts, in its present life and in its files.
#[derive(Clone, Copy)]
pub struct World {
    pub life: u64,
    pub len: u64,
    pub settled: u64,
    sealed: u64,
    pub retired: u64,
    pub told: u64,
    pub phase: Phase,
    pub broken: bool,
    // The bytes of records in the open buffer, and in the frame under way.
    noted: u64,
    frame: u64,
    // How many bytes the snapshot under way has behind its head gate.
    rest: u64,
    active: Active,
    spare: Spare,
}

/// The other file.
pub(crate) fn other(which: File) -> File {
    match which {
        File::First => File::Second,
        File::Second => File::First,
    }
}

/// The phase after the next piece of a snapshot.
fn behind_piece(left: u64) -> Phase {
    if left <= MAX_PIECE {
        Phase::Filled
    } else {
        Phase::Writing(left.saturating_sub(MAX_PIECE))
    }
}

impl World {
    /// A new vault in its first life.
    pub fn new() -> World {
        World {
            life: 1,
            len: 0,
            settled: 0,
            sealed: 0,
            retired: 0,
            told: 0,
            phase: Phase::Idle,
            broken: false,
            noted: 0,
            frame: 0,
            rest: 0,
            active: Active {
                which: File::First,
                generation: 1,
                frames: 0,
                tail: NEW_TAIL,
                journal: 0,
                version: FileVersion::Two,
            },
            spare: Spare {
                shut: false,
                older: None,
            },
        }
    }

    /// How many entries are kept in memory.
    pub(crate) fn kept(&self) -> u64 {
        self.len.saturating_sub(self.retired)
    }

    /// How many entries a crash may keep: the sealed ones while a gate is being opened, else the durable ones.
    pub fn most_left(&self) -> u64 {
        match self.phase {
            Phase::Opening | Phase::SnapOpening => self.sealed,
            _ => self.settled,
        }
    }

    /// Whether nothing is under way, and all entries are durable.
    pub(crate) fn is_at_rest(&self) -> bool {
        self.phase == Phase::Idle && self.settled == self.len
    }

    /// Whether a snapshot is wanted.
    pub(crate) fn wants_snapshot(&self) -> bool {
        let is_long = self.active.journal >= LONG_JOURNAL;
        self.phase == Phase::Idle && (is_long || self.active.version == FileVersion::One)
    }

    /// Why the next command is refused, if it is.
    pub fn refusal(&self) -> Option<Outside> {
        if self.broken {
            return Some(Outside::Broken);
        }
        if self.kept() >= MAX_KEPT || self.noted > MAX_NOTED || self.active.tail >= LAST_TAIL {
            return Some(Outside::Busy);
        }
        None
    }

    /// Two files that a program of version 1 wrote replace the files. The second of these is the newer one, and its tail gate stands at
    /// this offset.
    pub fn take_first_version(&mut self, tail: u64) {
        self.active = Active {
            which: File::Second,
            generation: 2,
            frames: 0,
            tail,
            journal: 0,
            version: FileVersion::One,
        };
        self.spare = Spare {
            shut: false,
            older: Some(1),
        };
    }

    /// One more command. Its effect's record has this number of bytes, 0 if it has no effect.
    pub fn stage(&mut self, record: u64) {
        self.len = self.len.saturating_add(1);
        self.noted = self.noted.saturating_add(record);
    }

    /// What redeeming a ticket of this life and position must answer, if its entry is open.
    pub(crate) fn fate(&self, life: u64, position: u64) -> Fate {
        if life != self.life {
            return Fate::Stranger;
        }
        if position < self.settled {
            return Fate::Told;
        }
        if self.broken {
            Fate::Unknown
        } else {
            Fate::NotYet
        }
    }

    /// The oldest kept entry is trimmed, if it is durable and its ticket isn't out. Gives the answer.
    pub fn retire(&mut self, is_open: bool) -> Retired {
        if self.retired >= self.settled || is_open {
            return Retired::Nothing;
        }
        self.retired = self.retired.saturating_add(1);
        Retired::One
    }

    /// A snapshot is begun, or refused. Gives the answer.
    pub fn start(&mut self) -> Started {
        if self.broken || self.phase != Phase::Idle || self.active.generation == u64::MAX {
            return Started::NotNow;
        }
        self.sealed = self.len;
        self.noted = 0;
        self.phase = Phase::Start;
        Started::Yes
    }

    // The buffer is sealed, and its frame is under way.
    fn seal(&mut self) {
        self.sealed = self.len;
        self.frame = self.noted;
        self.noted = 0;
        self.phase = Phase::Written;
    }

    // The frame under way is durable.
    fn settle(&mut self) {
        let frame = self.frame.saturating_add(FRAME_EXTRA);
        self.settled = self.sealed;
        self.active.tail = self.active.tail.saturating_add(frame);
        self.active.journal = self.active.journal.saturating_add(frame);
        self.active.frames = self.active.frames.saturating_add(1);
        self.frame = 0;
        self.phase = Phase::Idle;
    }

    // The snapshot under way is durable, and its file is the active one.
    fn settle_snapshot(&mut self) {
        self.settled = self.sealed;
        self.spare = Spare {
            shut: false,
            older: Some(self.active.generation),
        };
        self.active = Active {
            which: other(self.active.which),
            generation: self.active.generation.saturating_add(1),
            frames: 0,
            tail: self.rest,
            journal: 0,
            version: FileVersion::Two,
        };
        self.rest = 0;
        self.phase = Phase::Idle;
    }

    // The spare's head gate is there and closed.
    fn shut(&mut self) {
        self.spare = Spare {
            shut: true,
            older: None,
        };
    }

    // Entries without an effect become durable at once.
    fn settle_all(&mut self) -> Pumped {
        if self.settled == self.len {
            return Pumped::Idle;
        }
        self.settled = self.len;
        Pumped::Settled
    }

    /// A pump without a fault. Gives its answer. If it begins to write a snapshot, this has `rest` bytes behind its head gate.
    pub fn pump(&mut self, rest: u64) -> Pumped {
        if self.broken {
            return Pumped::Broken;
        }
        match self.phase {
            Phase::Idle if self.noted == 0 => return self.settle_all(),
            Phase::Idle => self.seal(),
            Phase::Written => self.phase = Phase::Bodied,
            Phase::Bodied => self.phase = Phase::Opening,
            Phase::Opening => {
                self.settle();
                return Pumped::Settled;
            }
            Phase::Start => self.phase = Phase::Closing,
            Phase::Closing => {
                self.shut();
                self.rest = rest;
                self.phase = Phase::Writing(rest);
            }
            Phase::Writing(left) => self.phase = behind_piece(left),
            Phase::Filled => self.phase = Phase::Ready,
            Phase::Ready => self.phase = Phase::SnapOpening,
            Phase::SnapOpening => {
                self.settle_snapshot();
                return Pumped::Settled;
            }
        }
        Pumped::Moved
    }

    /// The file on which the next pump makes its device call, if it makes one.
    pub(crate) fn next_call(&self) -> Option<File> {
        if self.broken {
            return None;
        }
        match self.phase {
            Phase::Idle if self.noted == 0 => None,
            Phase::Idle | Phase::Written | Phase::Bodied | Phase::Opening => {
                Some(self.active.which)
            }
            Phase::Start if self.spare.shut => None,
            Phase::Start
            | Phase::Closing
            | Phase::Writing(_)
            | Phase::Filled
            | Phase::Ready
            | Phase::SnapOpening => Some(other(self.active.which)),
        }
    }

    /// A pump whose device call failed. A failed write gets to the next phase like one that was done; a failed sync doesn't.
    pub fn fault(&mut self) {
        self.broken = true;
        match self.phase {
            Phase::Idle => self.seal(),
            Phase::Bodied => self.phase = Phase::Opening,
            Phase::Start => self.phase = Phase::Closing,
            Phase::Writing(left) => self.phase = behind_piece(left),
            Phase::Ready => self.phase = Phase::SnapOpening,
            Phase::Written | Phase::Opening | Phase::Closing | Phase::Filled | Phase::SnapOpening =>
                {}
        }
    }

    /// The end of a life, which leaves this of the two files. The next life begins. Gives how many entries of the last one are kept.
    pub fn stop(&mut self, first: Left, second: Left) -> u64 {
        let (active, spare) = match self.active.which {
            File::First => (first, second),
            File::Second => (second, first),
        };
        match self.phase {
            Phase::Opening if active.opens() => self.settle(),
            Phase::SnapOpening if spare.opens() => self.settle_snapshot(),
            Phase::Closing if spare.shuts() => self.shut(),
            _ => {}
        }
        let kept = self.settled;
        *self = World {
            life: self.life.saturating_add(1),
            active: self.active,
            spare: self.spare,
            ..World::new()
        };
        kept
    }

    /// How many device calls opening makes at most on a file, once nothing is under way.
    pub fn opening_calls(&self, which: File) -> u64 {
        if which == self.active.which {
            self.active.frames.saturating_mul(3).saturating_add(9)
        } else {
            5
        }
    }

    /// Which file is the active one, and where its tail gate stands.
    pub fn tail(&self) -> (File, u64) {
        (self.active.which, self.active.tail)
    }

    /// Whether the spare file is open.
    pub fn is_spare_open(&self) -> bool {
        self.spare.older.is_some()
    }

    /// Notes of the closed spare file whether its head gate is there and no 1.
    pub fn leave_spare(&mut self, shut: bool) {
        self.spare.shut = shut;
    }

    /// What a file must be reported to be, once nothing is under way.
    pub(crate) fn state(&self, which: File) -> FileState {
        if which == self.active.which {
            return FileState::Open {
                generation: self.active.generation,
                frames: self.active.frames,
                tail: self.active.tail,
                version: self.active.version,
            };
        }
        match self.spare.older {
            Some(generation) => FileState::Older { generation },
            None => FileState::Closed,
        }
    }
}
