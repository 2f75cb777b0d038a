//! Whether two files are of one vault.
//!
//! Promises: two files are reported as those of two vaults exactly if both are open with right heads, and either a generation lies between
//! theirs, or the older one, of the generation before, leads to a vault that is no earlier state of the newer one's snapshot
//! (`are_of_two_vaults`). That the files of one vault never are is said by `vault_store` (`advance`, `laws`).
//! Stands on: vault_device, vault_format, design_tree, part_versions, vault_checkout, vault_store. Must not know: commits, sessions,
//! what a report is for.
//!
//! Only tested: each request for memory refused.
//! Start at: two_vaults.rt, and vault_store's specs/TwoVaults.antt.
#![tactic(auto)]

mod earlier;
mod two_vaults;

pub use earlier::is_earlier;
pub use two_vaults::are_of_two_vaults;
