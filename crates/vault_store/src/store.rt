//! A store: two devices, and the frame to fill.
ghost use Rattle.std.specs.Prelude.{◌≡◌, ◌-◌, ◌++◌, length, IsTrue};
ghost use Rattle.vault_journal.specs.Spelling.{record_of, HasRecord};
ghost use Rattle.vault_state.specs.Vault.{Vault};
ghost use Rattle.vault_model.specs.After.{after};
ghost use Rattle.vault_store.specs.Companions.{IsOfOneVault};
ghost use Rattle.vault_store.specs.State.{StoreState, with_effect};
ghost use Rattle.vault_store.specs.Seen.{first_of, second_of, Keeps, has_room};

use crate::opening::in_turn;
use crate::{File, FileVersion, Phase};
use std::alloc::{Allocator, Global};
use std::marker::Model;
use vault_device::Device;
use vault_journal::Frame;
use vault_model::EffectIn;

// While the buffer has at most this many bytes of records, there is room for any other record.
const MAX_NOTED: usize = 261_104;

// No frame may begin at this offset or behind it, so that each write ends below 2^63.
const LAST_TAIL: u64 = 1 << 62;

/// A vault in two files. What was noted is written and made durable step by step.
#[derive(Drop)]
pub struct Store<D: Device, A: Allocator = Global> {
    /// The open file of the greater generation, which frames are written to.
    pub(crate) active: D,
    /// The other file, which the next snapshot goes into.
    pub(crate) spare: D,
    /// Which of the two files the active one is.
    pub(crate) which: File,
    /// The records that are noted and in no frame yet.
    pub(crate) frame: Frame<A>,
    /// How many bytes of records the frame under way has; 0 if none is.
    pub(crate) sealed: u64,
    /// The version of the active file.
    pub(crate) version: FileVersion,
    /// The generation of the active file.
    pub(crate) generation: u64,
    /// Where the active file's tail gate stands: the offset at which the next frame begins.
    pub(crate) tail: u64,
    /// How many bytes of frames the active file has.
    pub(crate) journal_length: u64,
    /// Which step of a commit or of a snapshot comes next.
    pub(crate) phase: Phase,
    /// Whether a device call failed. No more are made then.
    pub(crate) broken: bool,
    /// Whether the spare file's head gate is known to be closed.
    pub(crate) spare_shut: bool,
    /// What a snapshot writes behind that gate; `Some` while one is under way.
    pub(crate) rest: Option<Vec<u8, A>>,
    /// The buffer of the last snapshot, kept for the next one. Its bytes mean nothing.
    pub(crate) room: Option<Vec<u8, A>>,
}

impl<D: Device, A: Allocator> Model for Store<D, A> {
    ghost use Rattle.vault_store.specs.Seen.{StoreSeen};

    ghost Value = { StoreSeen D };

    ghost use Rattle.vault_store.specs.View.{seen_of};
    ghost use Rattle.vault_store.specs.Sound.{IsSoundStore};

    ghost view = { seen_of };

    ghost invariant = { λ store. IsSoundStore D.disk (seen_of store) };
}

impl<D: Device, A: Allocator> Store<D, A> {
    /// The phase: which step comes next.
    pub fn phase(&self) -> Phase
        ensures { result ≡ self.now.phase }
    {
        self.phase
    }

    /// The version of the active file.
    pub fn version(&self) -> FileVersion
        ensures { result ≡ self.now.version }
    {
        self.version
    }

    /// How many bytes of frames the active file has.
    pub fn journal_len(&self) -> u64
        ensures { result ≡ self.now.journal_length }
    {
        self.journal_length
    }

    /// How many bytes the active file had before its first frame: its header and its snapshot.
    pub fn snapshot_len(&self) -> u64
        ensures { result ≡ self.now.tail - self.now.journal_length }
    {
        self.tail - self.journal_length
    }

    /// The devices of the first file and of the second. What was noted and isn't durable is lost.
    pub fn into_devices(self) -> (D, D)
        ensures first { result.0 ≡ first_of self }
        ensures second { result.1 ≡ second_of self }
    {
        let Store {
            active,
            spare,
            which,
            frame: _frame,
            sealed: _,
            version: _,
            generation: _,
            tail: _,
            journal_length: _,
            phase: _,
            broken: _,
            spare_shut: _,
            rest: _rest,
            room: _room,
        } = self;
        in_turn(which, active, spare)
    }

    /// Whether there is room to note any one effect.
    pub fn room(&self) -> bool
        ensures { result ≡ has_room self.now }
    {
        self.frame.len() <= MAX_NOTED && self.tail < LAST_TAIL
    }

    /// Notes an effect for the next frame. Takes no memory.
    pub fn note<B: Allocator>(&mut self, effect: &EffectIn<B>)
        requires room { IsTrue (has_room self.old) }
        requires has { HasRecord effect.now }
        ensures noted { self.new ≡ record self.old { buffer = self.old.buffer ++ record_of effect.now } }
        ensures kept { (s : StoreState) (next : Vault) → Keeps D.disk self.old s → after s.noted effect.now ≡ Some next
            → Keeps D.disk self.new (with_effect s effect.now next) }
        ensures one_vault { IsOfOneVault D.disk self.old → IsOfOneVault D.disk self.new }
    {
        self.frame.push_effect(effect);
    }
}
