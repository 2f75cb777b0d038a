//! What every vault keeps, and what a crash leaves of it.
ghost use Rattle.std.specs.Prelude.{◌≡◌, List, [], ◌∷◌};
ghost use Rattle.vault_state.specs.Vault.{new_vault};
ghost use Rattle.vault_store.specs.Seen.{Keeps};
ghost use Rattle.group_commit.specs.View.{opened_view};
ghost use Rattle.group_commit.specs.Seen.{VaultSeen, IsSoundView, state_of};
ghost use Rattle.group_commit.specs.Promises.{ImagesStand, RecoveryGivesOnePrefix};
ghost use Rattle.group_commit.specs.Companions.{FilesPass};
ghost use Rattle.group_commit.specs.Pasts.{IsAnswered, IsNext, IsPast, beginning};
ghost use Rattle.group_commit.specs.Recovered.{EachPastIsKept, ReceiptsAreFoundAgain};
ghost use Rattle.group_commit.specs.Positions.{StagedAtItsPosition, PositionsStay, ReceiptsAreOfTheirEntries, ReceiptsAreTold};

use crate::Vault;
use std::alloc::Allocator;
use vault_device::Device;
use vault_store::laws::{files_of_one_vault_pass, files_stand_for_one_vault};

/// The kept history is legal from the base, acknowledged entries are durable, at most 4,096 entries are kept, and the store keeps
/// the durable vaults that the view says.
pub fn a_vault_keeps_its_history<D: Device, A: Allocator>(vault: &Vault<D, A>)
    ensures sound { IsSoundView vault.now.view }
    ensures store { Keeps D.disk vault.now.store (state_of vault.now.view) }
{
    let _ = &vault.kept;
}

/// A vault that was just made or opened has no past. An answered call adds the vault before it to the past, and so does an opening on
/// what a crash left. So whoever makes its calls one after another, and opens it again after each crash, has its past. It begins with
/// the new vault where it was made. Where it was opened, it begins with what the files stood for, whichever program had written them.
pub fn a_past_goes_on<D: Device, A: Allocator>(vault: &Vault<D, A>)
    ensures begins { vault.now.view ≡ opened_view new_vault → IsPast D.disk vault.now [] }
    ensures new { vault.now.view ≡ opened_view new_vault → beginning vault.now [] ≡ new_vault }
    ensures opened { (vault.now.view ≡ opened_view vault.now.view.base) → IsPast D.disk vault.now [] }
    ensures goes_on { (old : VaultSeen D) (past : List (VaultSeen D)) → IsPast D.disk old past → IsNext D.disk old vault.now
        → IsPast D.disk vault.now (old ∷ past) }
    ensures answered { (old : VaultSeen D) (past : List (VaultSeen D)) → IsPast D.disk old past → IsAnswered old vault.now
        → IsPast D.disk vault.now (old ∷ past) }
{
    a_vault_keeps_its_history(vault);
}

/// After a crash, the files of honest devices stand for the durable vault after the settled (durable) entries or, while a gate
/// (commit mark) is being opened, after those or the sealed ones.
pub fn images_stand_for_the_history<D: Device, A: Allocator>(vault: &Vault<D, A>)
    ensures { ImagesStand D.disk vault.now }
{
    a_vault_keeps_its_history(vault);
}

/// Where the files of a vault are of one vault, a crash doesn't make them be reported as those of two (`vault_pairing::are_of_two_vaults`).
/// They are of one vault where it was made, or opened on files that weren't reported as two (`create`, `open`, clause `one_vault`). They
/// stay so (`stage`, `start_snapshot`, `pump`; no other call changes them).
pub fn files_pass<D: Device, A: Allocator>(vault: &Vault<D, A>)
    ensures { FilesPass D.disk vault.now }
{
    a_vault_keeps_its_history(vault);
    files_of_one_vault_pass::<D>();
}

/// For any commands of any number of sessions in any interleaving, and for any crash between two calls or inside one, recovery gives
/// the durable vault after one prefix of the single history. That prefix has every acknowledged command, its long claims stand and
/// its short ones are gone, and no two granted claims overlap.
pub fn recovery_gives_one_prefix<D: Device, A: Allocator>(vault: &Vault<D, A>)
    ensures past { EachPastIsKept D.disk vault.now }
    ensures run { RecoveryGivesOnePrefix D.disk vault.now }
{
    images_stand_for_the_history(vault);
    files_stand_for_one_vault();
}

/// The entry of a staged command keeps the position that its ticket names until it is retired. The receipt for that ticket is the
/// entry's: its session, number and command, with its reply. Once the receipt was given, the entry is acknowledged (`Told`).
pub fn receipts_are_of_their_entries()
    ensures staged { StagedAtItsPosition }
    ensures stay { PositionsStay }
    ensures told { ReceiptsAreOfTheirEntries }
    ensures kept { ReceiptsAreTold }
{}

/// A receipt is found again: its entry, with its session, its number, its command and its reply, stands in the prefix that recovery
/// gives after any crash, however many lives later.
pub fn receipts_are_found_again<D: Device, A: Allocator>(vault: &Vault<D, A>)
    ensures { ReceiptsAreFoundAgain D.disk vault.now }
{
    images_stand_for_the_history(vault);
    files_stand_for_one_vault();
}
