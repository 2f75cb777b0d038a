//! A vault that was left in two files, at the beginning of another life.
ghost use Rattle.std.specs.Prelude.{◌≡◌, ◌⊎◌, [], IfOk, IfErr, IsTrue};
ghost use Rattle.vault_store.specs.declared.opening.OpenError.TheVariants.{Device as DeviceFailed, NoMemory as Wanted};
ghost use Rattle.vault_store.specs.Calls.{HasCause, AreQuiet};
ghost use Rattle.vault_format.specs.Files.{AreRead};
ghost use Rattle.vault_store.specs.Companions.{IsOfOneVault};
ghost use Rattle.vault_store.specs.Opening.{IsNotOpened, IsHandedOn, AreLeftSettled};
ghost use Rattle.vault_store.specs.State.{at_rest};
ghost use Rattle.vault_store.specs.Seen.{first_of, second_of, Keeps};
ghost use Rattle.vault_store.specs.TwoVaults.{AreOfTwoVaults};
ghost use Rattle.group_commit.specs.View.{opened_view};
ghost use Rattle.group_commit.specs.Seen.{VaultSeen};
ghost use Rattle.group_commit.specs.Opened.{IsHandedOver};
ghost use Rattle.group_commit.specs.Pasts.{IsStop, IsNext, StopsInOpening};

use crate::window::Window;
use crate::{OpenError, Refused, Vault};
use std::alloc::Allocator;
use vault_checkout::Book;
use vault_device::Device;
use vault_store::Store;

// Begins a life over what opening the store gave. A refusal of that is handed on as it is.
fn begin<D: Device, A: Allocator + Copy>(
    alloc: A,
    opened: Result<(Store<D, A>, Book<A>), Refused<D, OpenError>>,
    life: u64,
) -> Result<Vault<D, A>, Refused<D, OpenError>>
    requires { IfOk opened (λ opened. Keeps D.disk opened.0 (at_rest opened.1)) }
    ensures { IsHandedOver opened life result }
{
    let (store, book) = match opened {
        Ok(opened) => opened,
        Err(refused) => return Err(refused),
    };
    let Ok(kept) = Window::new(alloc) else {
        drop(book);
        let why = OpenError::NoMemory;
        let (first, second) = store.into_devices();
        return Err(Refused { why, first, second });
    };
    Ok(Vault::over(store, book, kept, life))
}

impl<D: Device, A: Allocator + Copy> Vault<D, A> {
    /// Opens the vault that two files stand for. The life is a number that the caller hasn't handed
    /// in before in this process. A refusal hands the devices back. Opening writes nothing. The
    /// memory for the whole history is taken here.
    pub fn open(
        alloc: A,
        first: D,
        second: D,
        life: u64,
    ) -> Result<Vault<D, A>, Refused<D, OpenError>>
        ensures begins { IfOk result (λ vault. vault.view ≡ opened_view vault.view.base) }
        ensures life { IfOk result (λ vault. vault.life ≡ life) }
        ensures buffer { IfOk result (λ vault. vault.store.buffer ≡ []) }
        ensures read { IsTrue (D.disk first).honest → IsTrue (D.disk second).honest
            → IfOk result (λ vault. AreRead (D.disk first).shown (D.disk second).shown
            (record {
              vault = vault.view.base;
              version = vault.store.version;
              generation = vault.store.generation;
              tail = vault.store.tail;
              journal_length = vault.store.journal_length;
            })) }
        ensures one_vault { (AreOfTwoVaults (D.disk first).shown (D.disk second).shown → ⊥)
            → IfOk result (λ vault. IsOfOneVault D.disk vault.store) }
        ensures next { IsTrue (D.disk first).honest → IsTrue (D.disk second).honest
            → IfOk result (λ vault. (old : VaultSeen D) → IsStop D.disk old (D.disk first).shown (D.disk second).shown
            → IsNext D.disk old vault) }
        ensures stops { IfOk result (λ vault. StopsInOpening D.disk first second (first_of vault.store) (second_of vault.store)) }
        ensures handed_on { IfOk result
            (λ vault. IsHandedOn (D.disk first) (D.disk (first_of vault.store))
            × IsHandedOn (D.disk second) (D.disk (second_of vault.store))) }
        ensures refused { IsTrue (D.disk first).honest → IsTrue (D.disk second).honest
            → IfErr result (λ refused. IsNotOpened (D.disk first).shown (D.disk second).shown refused.why) }
        ensures refused_stops { IfErr result (λ refused. StopsInOpening D.disk first second refused.first refused.second) }
        ensures left_settled { IfErr result (λ refused. AreLeftSettled (D.disk refused.first) (D.disk refused.second) refused.why) }
        ensures cause { IfErr result (λ refused. refused.why ≡ DeviceFailed → HasCause (D.disk first) (D.disk refused.first)
            ⊎ HasCause (D.disk second) (D.disk refused.second)) }
        ensures memory { IfErr result
            (λ refused. refused.why ≡ Wanted → AreQuiet (D.disk first) (D.disk second) (D.disk refused.first) (D.disk refused.second)) }
        ensures handed_back { IfErr result
            (λ refused. IsHandedOn (D.disk first) (D.disk refused.first) × IsHandedOn (D.disk second) (D.disk refused.second)) }
    {
        begin(alloc, Store::open(alloc, first, second), life)
    }
}
