//! What is done to a vault, and what each call is to answer.

use group_commit::{Forgotten, Phase, Pumped, Retired, Started};
use vault_device::Fault;
use vault_model::{Outside, Refusal};

/// A command, as a session gives it.
#[derive(Clone, Copy)]
pub(crate) enum Said {
    Hello(&'static [u8]),
    Make(&'static [u8]),
    /// How a claim stands that doesn't exist.
    Question,
    /// What stands under the library.
    List,
    /// The part /e/b/p is checked out for change.
    CheckOut,
    /// 1,024 bytes are saved as a draft of that part, for the first check-out.
    Save,
    /// The command that this line spells.
    Line(&'static str),
}

/// What a ticket gives.
#[derive(Clone, Copy)]
pub(crate) enum Fate {
    Session(u32),
    Place(u32),
    Refused(Refusal),
    /// The place of this name, and no other.
    Listed(&'static [u8]),
    NotYet,
    Stranger,
    Unknown,
}

/// Where a ticket is kept while it is outstanding.
#[derive(Clone, Copy)]
pub(crate) enum Hand {
    Left,
    Right,
}

/// A call, with its answer.
#[derive(Clone, Copy)]
pub(crate) enum Call {
    /// A session's command is staged, and its ticket kept.
    Stage(Hand, u32, Said),
    /// It is staged, and its ticket given up.
    Give(u32, Said),
    /// The first session's command isn't staged for this reason, and is handed back.
    Refuse(Said, Outside),
    Redeem(Hand, Fate),
    Forget(Hand, Forgotten),
    Pump(Result<Pumped, Fault>),
    Start(Started),
    Retire(Retired),
    /// How many entries the vault has, keeps, made durable and acknowledged.
    Numbers([u64; 4]),
    Wants(bool),
    Broken(bool),
    Phase(Phase),
}

/// How many times a call is made, and the call.
pub(crate) type Row = (u16, Call);
