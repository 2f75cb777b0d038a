//! The steps of a commit, one function for each row of the phase table.
ghost use Rattle.std.specs.Prelude.{◌≡◌, ◌⊎◌, ◌+◌, ℕ, List, IsTrue, Ok, Err, false, true};
ghost use Rattle.vault_store.specs.declared.phase.Phase.TheVariants as phases;
ghost use Rattle.vault_store.specs.declared.phase.Advanced.TheVariants as answers;
ghost use Rattle.vault_store.specs.Companions.{IsOfOneVault};
ghost use Rattle.vault_store.specs.State.{StoreState};
ghost use Rattle.vault_store.specs.Seen.{first_of, second_of, Keeps, IsLeftInside};
ghost use Rattle.vault_store.specs.Step.{IsStep, AreNumbers, IsAtMostOneCall, MayBeLeft, IsAdvance};
ghost use Rattle.vault_store.specs.TwoVaults.{AreOfTwoVaults};

use crate::{Advanced, Phase, Store};
use std::alloc::Allocator;
use vault_device::{Device, Fault};
use vault_format::FRAME_EXTRA;
use vault_journal::{open_gate, settle_body, settle_gate, write_body};

// Records that a device call failed. None is made after it.
pub(crate) fn broken_by(broken: &mut bool, fault: Fault) -> Result<Advanced, Fault>
    ensures broken { broken.new ≡ true }
    ensures told { result ≡ Err fault }
{
    *broken = true;
    Err(fault)
}

impl<D: Device, A: Allocator> Store<D, A> {
    // Seals what was noted, and writes it behind the tail gate. Without effects there is nothing to do.
    fn seal(&mut self) -> Result<Advanced, Fault>
        requires phase { self.old.phase ≡ phases.Idle }
        requires whole { self.old.broken ≡ false }
        ensures { IsAdvance D.disk self.old self.new result }
    {
        if self.frame.len() == 0 {
            return Ok(Advanced::Idle);
        }
        let written = write_body(&mut self.active, self.tail, &self.frame);
        self.sealed = self.frame.len() as u64;
        self.frame.clear();
        self.phase = Phase::Written;
        match written {
            Ok(()) => Ok(Advanced::Moved),
            Err(fault) => broken_by(&mut self.broken, fault),
        }
    }

    // Syncs the body.
    fn settle_body(&mut self) -> Result<Advanced, Fault>
        requires phase { self.old.phase ≡ phases.Written }
        requires whole { self.old.broken ≡ false }
        ensures { IsAdvance D.disk self.old self.new result }
    {
        match settle_body(&mut self.active) {
            Ok(()) => {
                self.phase = Phase::Bodied;
                Ok(Advanced::Moved)
            }
            Err(fault) => broken_by(&mut self.broken, fault),
        }
    }

    // Writes the frame's commit mark (gate).
    fn open_gate(&mut self) -> Result<Advanced, Fault>
        requires phase { self.old.phase ≡ phases.Bodied }
        requires whole { self.old.broken ≡ false }
        ensures { IsAdvance D.disk self.old self.new result }
    {
        let opened = open_gate(&mut self.active, self.tail);
        self.phase = Phase::Opening;
        match opened {
            Ok(()) => Ok(Advanced::Moved),
            Err(fault) => broken_by(&mut self.broken, fault),
        }
    }

    // Syncs the commit mark: what was sealed is durable now.
    fn settle_gate(&mut self) -> Result<Advanced, Fault>
        requires phase { self.old.phase ≡ phases.Opening }
        requires whole { self.old.broken ≡ false }
        ensures { IsAdvance D.disk self.old self.new result }
    {
        match settle_gate(&mut self.active) {
            Ok(()) => {
                let frame = self.sealed + FRAME_EXTRA;
                self.tail += frame;
                self.journal_length += frame;
                self.sealed = 0;
                self.phase = Phase::Idle;
                Ok(Advanced::Settled)
            }
            Err(fault) => broken_by(&mut self.broken, fault),
        }
    }

    /// Does the next step of a commit or of a snapshot: at most one device call, and no memory. After a fault it does nothing more.
    pub fn advance(&mut self) -> Result<Advanced, Fault>
        ensures step { (s : StoreState) → Keeps D.disk self.old s → IsStep D.disk self.old self.new result s }
        ensures numbers { AreNumbers self.old self.new result }
        ensures calls { IsAtMostOneCall (D.disk (first_of self.old)) (D.disk (second_of self.old)) (D.disk (first_of self.new))
            (D.disk (second_of self.new)) result }
        ensures rests { (result ≡ Ok answers.Idle) ⊎ (result ≡ Ok answers.Broken) → self.new ≡ self.old }
        ensures broken { self.old.broken ≡ true → result ≡ Ok answers.Broken }

        // The first step of a snapshot makes no device call where the spare's head gate is closed already.
        ensures shut { self.old.phase ≡ phases.Start → self.old.broken ≡ false → self.old.shut ≡ true
            → self.new ≡ record self.old { phase = phases.Closing } }

        // What a crash at any moment inside leaves is read as the durable vault or, where a gate may be opened, as the sealed one.
        ensures moments { (s : StoreState) (x y : List ℕ) → Keeps D.disk self.old s → IsTrue (D.disk (first_of self.old)).honest
            → IsTrue (D.disk (second_of self.old)).honest
            → MayBeLeft (D.disk (first_of self.old)) (D.disk (second_of self.old)) (D.disk (first_of self.new))
            (D.disk (second_of self.new)) x y → IsLeftInside self.old s x y }

        // Files of one vault stay so, and what a crash at any moment inside leaves of them isn't reported as the files of two.
        ensures one_vault { (s : StoreState) → Keeps D.disk self.old s → IsOfOneVault D.disk self.old → IsOfOneVault D.disk self.new }
        ensures passes { (s : StoreState) (x y : List ℕ) → Keeps D.disk self.old s → IsOfOneVault D.disk self.old
            → IsTrue (D.disk (first_of self.old)).honest → IsTrue (D.disk (second_of self.old)).honest
            → MayBeLeft (D.disk (first_of self.old)) (D.disk (second_of self.old)) (D.disk (first_of self.new))
            (D.disk (second_of self.new)) x y → AreOfTwoVaults x y → ⊥ }
    {
        if self.broken {
            return Ok(Advanced::Broken);
        }
        match self.phase {
            Phase::Idle => self.seal(),
            Phase::Written => self.settle_body(),
            Phase::Bodied => self.open_gate(),
            Phase::Opening => self.settle_gate(),
            Phase::Start => self.close_head(),
            Phase::Closing => self.settle_closed(),
            Phase::Writing(left) => self.write_piece(left),
            Phase::Filled => self.settle_written(),
            Phase::Ready => self.open_head(),
            Phase::SnapOpening => self.settle_head(),
        }
    }
}
