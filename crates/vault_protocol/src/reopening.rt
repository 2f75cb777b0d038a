//! The devices of a vault crash, and the vault is opened again.

ghost use Rattle.std.specs.Prelude.{◌≡◌, ◌+◌, ◌%◌, ◌^◌, ◌&&◌, IfOk, IfErr, Ok, [], if◌then◌else◌};
ghost use Rattle.vault_state.specs.Vault.{durable};
ghost use Rattle.vault_device.specs.Picks.{gives_one};
ghost use Rattle.vault_store.specs.declared.phase.Advanced.TheVariants.{Settled};
ghost use Rattle.vault_store.specs.Phases.{is_opening};
ghost use Rattle.group_commit.specs.View.{opened_view, view_at};
ghost use Rattle.group_commit.specs.Calls.{generation_after, tail_after};

use crate::error::ScriptError;
use group_commit::Vault;
use group_commit::promises::{a_vault_keeps_its_history, images_stand_for_the_history};
use std::alloc::Allocator;
use vault_device::{MemDevice, Pick};
use vault_store::laws::files_stand_for_one_vault;

/// Both devices crash with this pick, and the vault is opened again in the life with the next number.
pub(crate) fn reopened<A: Allocator + Copy>(
    alloc: A,
    vault: Vault<MemDevice<A>, A>,
    pick: Pick,
) -> Result<Vault<MemDevice<A>, A>, ScriptError>
    ensures view { IfOk result
        (λ next. next.view ≡ opened_view
        (durable (view_at vault.view (if gives_one pick && is_opening vault.view.phase then vault.view.sealed else vault.view.settled)))) }
    ensures life { IfOk result (λ next. next.life ≡ (vault.life + 1) % 2 ^ 64) }
    ensures buffer { IfOk result (λ next. next.store.buffer ≡ []) }
    ensures generation { IfOk result
        (λ next. next.store.generation
        ≡ (if gives_one pick && is_opening vault.view.phase then generation_after vault.view (Ok Settled) vault.store.generation
        else vault.store.generation)) }
    ensures tail { IfOk result
        (λ next. next.store.tail
        ≡ (if gives_one pick && is_opening vault.view.phase then tail_after vault.view (Ok Settled) vault.store.tail
        else vault.store.tail)) }
    ensures cause { IfErr result (λ e. e ≡ ScriptError.NoMemory) }
{
    if vault.is_broken() {
        drop(vault);
        return Err(ScriptError::NoMemory);
    }
    a_vault_keeps_its_history(&vault);
    images_stand_for_the_history(&vault);
    files_stand_for_one_vault();

    let life = vault.life().wrapping_add(1);
    let (mut first, mut second) = vault.into_devices();
    first.crash(pick);
    second.crash(pick);
    match Vault::open(alloc, first, second, life) {
        Ok(vault) => Ok(vault),
        Err(refused) => {
            drop(refused);
            Err(ScriptError::NoMemory)
        }
    }
}
