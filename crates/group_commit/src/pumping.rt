//! The steps of a commit or of a snapshot.
ghost use Rattle.std.specs.Prelude.{◌≡◌, ◌⊎◌, IfOk, OnOk, OnErr, Ok, true, false, if◌then◌else◌};
ghost use Rattle.vault_store.specs.declared.phase.Advanced.TheVariants as answers;
ghost use Rattle.vault_store.specs.Phases.{NoCall, is_idle};
ghost use Rattle.vault_store.specs.Seen.{first_of, second_of};
ghost use Rattle.vault_store.specs.Step.{IsAtMostOneCall};
ghost use Rattle.group_commit.specs.World.{Pump, Fault as Fails};
ghost use Rattle.group_commit.specs.View.{length_of, view_row, ViewAllows, view_acted};
ghost use Rattle.group_commit.specs.Seen.{snapshot_length};
ghost use Rattle.group_commit.specs.Calls.{AreNumbers};
ghost use Rattle.group_commit.specs.Promises.{MomentsStand};
ghost use Rattle.group_commit.specs.Companions.{StaysOfOneVault, MomentsPass};
ghost use Rattle.group_commit.specs.Pasts.{IsAnswered, StopsInside};

use crate::{Phase, Pumped, Vault};
use std::alloc::Allocator;
use vault_device::{Device, Fault};

fn is_idle(phase: Phase) -> bool
    ensures { result ≡ is_idle phase }
{
    matches!(phase, Phase::Idle)
}

impl<D: Device, A: Allocator + Copy> Vault<D, A> {
    // How many entries are sealed after the next step, where that makes a device call and isn't the last of a commit or of a snapshot.
    fn sealed_next(&self) -> u64
        ensures { result ≡ (if is_idle self.now.store.phase then length_of self.now.view else self.now.view.sealed) }
    {
        if is_idle(self.store.phase()) {
            self.len()
        } else {
            self.sealed
        }
    }

    /// Does the next step of a commit or of a snapshot, with at most one device call and no allocation. A fault breaks the vault: until
    /// the devices are opened again it answers `Broken`, with no device call.
    pub fn pump(&mut self) -> Result<Pumped, Fault>
        ensures broken { self.old.view.broken ≡ true → (result ≡ Ok answers.Broken) × (self.new ≡ self.old) }
        ensures answer { self.old.view.broken ≡ false → IfOk result (λ answer. answer ≡ (view_row snapshot_length self.old.view).answer) }
        ensures pumped { self.old.view.broken ≡ false → OnOk result (self.new.view ≡ view_acted snapshot_length self.old.view Pump) }
        ensures failed { OnErr result
            (ViewAllows snapshot_length self.old.view Fails × (self.new.view ≡ view_acted snapshot_length self.old.view Fails)) }
        ensures life { self.new.life ≡ self.old.life }
        ensures still { (view_row snapshot_length self.old.view).call ≡ NoCall → self.new.store ≡ self.old.store }
        ensures calls { IsAtMostOneCall (D.disk (first_of self.old.store)) (D.disk (second_of self.old.store))
            (D.disk (first_of self.new.store)) (D.disk (second_of self.new.store)) result }
        ensures numbers { AreNumbers self.old self.new result }
        ensures moments { self.old.view.broken ≡ false → MomentsStand D.disk self.old self.new }
        ensures answered { IsAnswered self.old self.new }
        ensures stops { self.old.view.broken ≡ false → StopsInside D.disk self.old self.new }
        ensures one_vault { StaysOfOneVault D.disk self.old self.new }
        ensures passes { self.old.view.broken ≡ false → MomentsPass D.disk self.old self.new }
    {
        if self.broken {
            return Ok(Pumped::Broken);
        }
        let all = self.len();
        let sealed = self.sealed_next();
        match self.store.advance() {
            Ok(Pumped::Idle) => {
                if self.settled == all {
                    return Ok(Pumped::Idle);
                }
                self.settled = all;
                Ok(Pumped::Settled)
            }
            Ok(Pumped::Settled) => {
                self.settled = self.sealed;
                Ok(Pumped::Settled)
            }
            Ok(Pumped::Moved) => {
                self.sealed = sealed;
                Ok(Pumped::Moved)
            }
            Ok(Pumped::Broken) => unreachable!(),
            Err(fault) => {
                self.broken = true;
                self.sealed = sealed;
                Err(fault)
            }
        }
    }
}
