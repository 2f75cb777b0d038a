//! A crash loses the lines whose replies weren't printed.

ghost use Rattle.std.specs.Prelude.{◌≡◌, ◌++◌, ◌∷◌, OnOk, []};
ghost use Rattle.vault_protocol.specs.Saying.{known_texts, AreLost};
ghost use Rattle.vault_protocol.specs.Waiting.{line_of, lines_of};

use crate::waiting::Waiting;
use group_commit::Vault;
use std::alloc::{AllocError, Allocator};
use std::collections::VecDeque;
use vault_device::MemDevice;

/// Gives up the tickets of all lines.
pub(crate) fn give_up<A: Allocator + Copy>(
    vault: &mut Vault<MemDevice<A>, A>,
    mut lines: VecDeque<Waiting<A>, A>,
) {
    while let Some(line) = lines.pop_front() {
        match line {
            Waiting::Known(_) => {}
            Waiting::Awaited(_, ticket) => {
                let _ = vault.forget(ticket);
            }
        }
    }
    lines.destroy_empty();
}

// Gives up a line's ticket, or prints its text if that is known.
fn lose_one<A: Allocator + Copy>(
    vault: &mut Vault<MemDevice<A>, A>,
    line: Waiting<A>,
    out: &mut Vec<u8, A>,
) -> Result<(), AllocError>
    ensures text { OnOk result (out.new.items ≡ out.old.items ++ known_texts (line_of line ∷ [])) }
    ensures vault { OnOk result (AreLost vault.old vault.new) }
{
    match line {
        Waiting::Known(text) => out.extend_from_slice(text.as_slice()),
        Waiting::Awaited(_, ticket) => {
            let _ = vault.forget(ticket);
            Ok(())
        }
    }
}

/// Gives up the tickets of lines, and prints the known texts of the others.
pub(crate) fn lose<A: Allocator + Copy>(
    vault: &mut Vault<MemDevice<A>, A>,
    mut lines: VecDeque<Waiting<A>, A>,
    out: &mut Vec<u8, A>,
) -> Result<(), AllocError>
    ensures text { OnOk result (out.new.items ≡ out.old.items ++ known_texts (lines_of lines.items)) }
    ensures vault { OnOk result (AreLost vault.old vault.new) }
{
    while let Some(line) = lines.pop_front() {
        let Ok(()) = lose_one(vault, line, out) else {
            give_up(vault, lines);
            return Err(AllocError);
        };
    }
    lines.destroy_empty();
    Ok(())
}
