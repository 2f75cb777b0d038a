//! The book (state) of a vault: its tree, shelf of versions, queue of claims (line), check-outs and sessions, and what each command
//! does to them.
//!
//! Promises: `act` is the step of the definitions: reply, effect and vault. `apply` makes an effect as defined. `restart`
//! leaves the durable vault. Parts make a book exactly if a durable vault has them, and at most one does (`from_parts`). A copy
//! equals its source. Out of memory comes after all refusals, and changes nothing. Each check-out's type agrees with the queue,
//! and the vault is well formed (`check_out_of`).
//! Stands on: vault_state, vault_model, design_tree, part_versions, check_outs, lock_table, long_locks. Must not know: devices, bytes of records, the
//! history, tickets.
//!
//! Invariants, of `Book`:
//! 1. The vault that its fields make up is well formed.
//! 2. The standings in its line were last found over its tree, or over that tree before its last places were added.
//! 3. There is one check-out for each long claim, by rising number, and its type says whether the claim is granted.
//!
//! Only tested: that memory is asked for only once a command needs it.
//! Start at: book.rt, `act`: one private function per command. check_outs says why a draft can't be saved under a check-out
//! that waits.
#![tactic(auto)]

mod apply;
mod asking;
mod book;
mod changes;
mod copy;
mod done;
mod drafting;
mod from_parts;
mod giving;
mod granting;
mod holding;
mod making;
mod parts;
mod wanted;

pub use apply::ApplyError;
pub use book::Book;
pub use check_outs::{AnyCheckOut, CheckOut, Held, Waiting};
pub use from_parts::FromPartsError;
