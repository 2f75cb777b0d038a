//! One history of all sessions' commands, committed in groups: its definitions, the laws of every run, and the vault that
//! keeps it.
//!
//! Promises: `create` and `open` begin a life. Each later call of `Vault` changes nothing, or makes one act that the view allows
//! (`stage`, `pump`, `start_snapshot`, `redeem`, `forget`, `retire`). A reply is handed out only once its entry is durable. Any past of
//! calls, crashes and openings is one run, call by call. After a crash, between two calls or at any moment of a pump or of an opening,
//! the files stand for the durable vault after one prefix of the one history. That prefix has all acknowledged entries
//! (`promises::recovery_gives_one_prefix`), and each receipt is found again in it. Files of one vault stay so, and after a crash they
//! aren't reported as those of two (`promises::files_pass`). `laws` say the same for the definitions, over every run: a caller's view
//! (the present life) acts as the whole world (all lives). Ten runs worked out by hand are proved.
//! Stands on: vault_state, vault_model, vault_device, vault_journal, vault_checkout, vault_store. Must not know: lines, connections,
//! threads, what a command does (proofs cite five laws of the step, in proofs/Facts.antt).
//!
//! Invariants, of `Vault`:
//! 1. The book is the vault after the kept entries.
//! 2. The kept history is legal from the base: each entry's number and reply are those that its step gives.
//! 3. The counts are in order: retired ≤ settled (durable) ≤ all, sealed ≤ all, and settled ≤ sealed while a commit or a snapshot is
//!    under way.
//! 4. Acknowledged entries are durable, and `told` counts them, retired ones too.
//! 5. At most 4,096 entries are kept.
//! 6. The store keeps the durable vaults after the durable entries, after the sealed ones and after all.
//! 7. After a failed device call, a commit or a snapshot stays under way for good.
//!
//! Only tested: runs over devices in memory (a full buffer, a full history, a snapshot, a failed write), each request for memory
//! refused, speed.
//! Start at: promises.rt, `recovery_gives_one_prefix`, specs/World.antt and specs/Recovered.antt; for code vault.rt,
//! staging.rt, pumping.rt, starting.rt, retiring.rt.
#![tactic(auto)]

mod answers;
mod bygone;
mod creation;
mod entry;
pub mod laws;
mod mark;
mod noting;
mod opening;
pub mod promises;
mod pumping;
mod redeeming;
mod retiring;
mod staging;
mod starting;
mod ticket;
mod vault;
mod window;

pub use answers::{Forgotten, Redeemed, Retired};
pub use mark::Mark;
pub use ticket::{Receipt, Ticket};
pub use vault::Vault;
pub use vault_store::{
    Advanced as Pumped, CreateError, File, FileVersion, OpenError, Phase, Refused, Started,
};
