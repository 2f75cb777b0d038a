//! Refusing files of two vaults.
ghost use Rattle.std.specs.Prelude.{◌≡◌, ◌⊎◌, IsTrue, IfErr, Ok, Err};
ghost use Rattle.vault_store.specs.Read.{AreReads};
ghost use Rattle.vault_store.specs.TwoVaults.{AreOfTwoVaults, AreUnread};
ghost use Rattle.vault_store.specs.declared.body.BodyError.TheVariants as body_errors;
ghost use Rattle.vaultd_files.specs.declared.failure.Failure.TheVariants as failures;

use crate::failure::Failure;
use std::alloc::Allocator;
use vault_device::Device;
use vault_pairing::are_of_two_vaults;
use vault_store::BodyError;

/// Refuses files of two vaults. They are read, and nothing is changed. Files that can't be read aren't refused here: opening reports an
/// active one that can't be read, and doesn't need the other.
pub(crate) fn refuse_two_vaults<D: Device, A: Allocator + Copy>(
    alloc: A,
    first: &mut D,
    second: &mut D,
) -> Result<(), Failure>
    ensures first { AreReads (D.disk first.old) (D.disk first.new) }
    ensures second { AreReads (D.disk second.old) (D.disk second.new) }
    ensures refused { IfErr result (λ why. (why ≡ failures.TwoVaults) ⊎ (why ≡ failures.NoMemory)) }
    ensures two { IsTrue (D.disk first.old).honest → IsTrue (D.disk second.old).honest
        → result ≡ Err failures.TwoVaults → AreOfTwoVaults (D.disk first.old).shown (D.disk second.old).shown }
    ensures pass { IsTrue (D.disk first.old).honest → IsTrue (D.disk second.old).honest → result ≡ Ok tt
        → (AreOfTwoVaults (D.disk first.old).shown (D.disk second.old).shown → ⊥)
        ⊎ AreUnread (D.disk first.old) (D.disk second.old) (D.disk first.new) (D.disk second.new) body_errors.Device }
{
    match are_of_two_vaults(alloc, first, second) {
        Ok(true) => Err(Failure::TwoVaults),
        Ok(false) | Err(BodyError::Device) => Ok(()),
        Err(BodyError::NoMemory) => Err(Failure::NoMemory),
    }
}
