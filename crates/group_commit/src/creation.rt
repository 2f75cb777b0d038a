//! A vault in two new files, at the beginning of its first life.
ghost use Rattle.std.specs.Prelude.{◌≡◌, ◌⊎◌, [], IfOk, IfErr, IsTrue};
ghost use Rattle.vault_state.specs.Vault.{new_vault};
ghost use Rattle.vault_store.specs.declared.creation.CreateError.TheVariants.{Exists, Device as DeviceFailed, NoMemory as Wanted};
ghost use Rattle.vault_store.specs.Calls.{IsCalled, HasCause, AreQuiet};
ghost use Rattle.vault_store.specs.Opening.{IsHandedOn};
ghost use Rattle.vault_store.specs.Companions.{IsOfOneVault};
ghost use Rattle.vault_store.specs.Create.{new_file, IsFilled, StopsInCreation, PassesInCreation, AreSettledUnmade};
ghost use Rattle.vault_store.specs.State.{at_rest};
ghost use Rattle.vault_store.specs.Seen.{first_of, second_of, Keeps};
ghost use Rattle.group_commit.specs.View.{opened_view};
ghost use Rattle.group_commit.specs.Opened.{Begins, IsNotCreated};

use crate::bygone::Bygone;
use crate::window::Window;
use crate::{CreateError, Refused, Vault};
use std::alloc::Allocator;
use std::snapshot::Snapshot;
use vault_checkout::Book;
use vault_device::Device;
use vault_model::NoMemory;
use vault_store::{Store, settle_both};

// The book of a new vault, and the room for its history.
fn new_parts<A: Allocator + Copy>(alloc: A) -> Result<(Book<A>, Window<A>), NoMemory>
    ensures { IfOk result (λ parts. (parts.0 ≡ new_vault) × (parts.1 ≡ [])) }
{
    let book = Book::new(alloc)?;
    let Ok(kept) = Window::new(alloc) else {
        drop(book);
        return Err(NoMemory);
    };
    Ok((book, kept))
}

// The refusal of a creation that ran out of memory, with both devices synced.
fn refused_memory<D: Device>(first: D, second: D) -> Refused<D, CreateError>
    ensures first { IsHandedOn (D.disk first) (D.disk result.first) }
    ensures second { IsHandedOn (D.disk second) (D.disk result.second) }
    ensures settled { AreSettledUnmade (D.disk result.first) (D.disk result.second) result.why }
    ensures why { result.why ≡ Exists → ⊥ }
    ensures cause { result.why ≡ DeviceFailed → HasCause (D.disk first) (D.disk result.first)
        ⊎ HasCause (D.disk second) (D.disk result.second) }
    ensures memory { result.why ≡ Wanted → AreQuiet (D.disk first) (D.disk second) (D.disk result.first) (D.disk result.second) }
{
    let mut first = first;
    let mut second = second;
    if settle_both(&mut first, &mut second).is_err() {
        let why = CreateError::Device;
        return Refused { why, first, second };
    }
    let why = CreateError::NoMemory;
    Refused { why, first, second }
}

impl<D: Device, A: Allocator + Copy> Vault<D, A> {
    /// A vault at the beginning of a life, over a store that keeps the book.
    pub(crate) fn over(store: Store<D, A>, book: Book<A>, kept: Window<A>, life: u64) -> Self
        requires kept { kept ≡ [] }
        requires stands { Keeps D.disk store (at_rest book) }
        ensures view { result.view ≡ opened_view book }
        ensures life { result.life ≡ life }
        ensures store { result.store ≡ store }
    {
        Vault {
            store,
            base: Snapshot::of(&book),
            bygone: Bygone::new(),
            book,
            kept,
            retired: 0,
            settled: 0,
            sealed: 0,
            told: 0,
            broken: false,
            life,
        }
    }

    /// Makes a vault with the library alone, in the first of two empty files. The life is a number that the caller hasn't
    /// handed in before in this process. A refusal hands the devices back. A creation that failed or was stopped by a crash
    /// leaves no open file, or the files of the new vault. The memory for the whole history is taken here, first of all;
    /// where it is refused, both devices are synced all the same.
    pub fn create(
        alloc: A,
        first: D,
        second: D,
        life: u64,
    ) -> Result<Vault<D, A>, Refused<D, CreateError>>
        ensures view { IfOk result (λ vault. vault.view ≡ opened_view new_vault) }
        ensures life { IfOk result (λ vault. vault.life ≡ life) }
        ensures numbers { IfOk result (λ vault. Begins vault.store 1 34 0) }
        ensures file { IsTrue (D.disk first).honest
            → IfOk result (λ vault. IsFilled (D.disk first) (D.disk (first_of vault.store)) new_file) }
        ensures empty { IsTrue (D.disk second).honest
            → IfOk result (λ vault. IsFilled (D.disk second) (D.disk (second_of vault.store)) []) }
        ensures called { IfOk result
            (λ vault. IsCalled (D.disk first) (D.disk (first_of vault.store)) × IsCalled (D.disk second) (D.disk (second_of vault.store))) }
        ensures stops { IfOk result
            (λ vault. StopsInCreation (D.disk first) (D.disk second) (D.disk (first_of vault.store)) (D.disk (second_of vault.store))) }
        ensures refused_stops { IfErr result
            (λ refused. StopsInCreation (D.disk first) (D.disk second) (D.disk refused.first) (D.disk refused.second)) }
        ensures one_vault { IfOk result (λ vault. IsOfOneVault D.disk vault.store) }
        ensures passes { IfOk result
            (λ vault. PassesInCreation (D.disk first) (D.disk second) (D.disk (first_of vault.store)) (D.disk (second_of vault.store))) }
        ensures refused_passes { IfErr result
            (λ refused. PassesInCreation (D.disk first) (D.disk second) (D.disk refused.first) (D.disk refused.second)) }
        ensures refused { IfErr result
            (λ refused. IsNotCreated (D.disk first) (D.disk second) (D.disk refused.first) (D.disk refused.second) refused.why) }
        ensures left_settled { IfErr result (λ refused. AreSettledUnmade (D.disk refused.first) (D.disk refused.second) refused.why) }
        ensures memory { IfErr result
            (λ refused. refused.why ≡ Wanted → AreQuiet (D.disk first) (D.disk second) (D.disk refused.first) (D.disk refused.second)) }
        ensures handed_back { IfErr result
            (λ refused. IsCalled (D.disk first) (D.disk refused.first) × IsCalled (D.disk second) (D.disk refused.second)) }
    {
        let Ok((book, kept)) = new_parts(alloc) else {
            return Err(refused_memory(first, second));
        };
        match Store::create(alloc, first, second) {
            Ok(store) => Ok(Vault::over(store, book, kept, life)),
            Err(refused) => {
                drop(book);
                drop(kept);
                Err(refused)
            }
        }
    }
}
