//! A report on the two files of a vault. It changes neither file.
//!
//! Promises: the report is what opening finds: each file's state, and the vault where there is one. It makes no write and no
//! sync (`inspect`). `print` writes the text of the report or, where the writer fails, a first part of it. The printed counts
//! are those of all versions and all drafts (`laws`). The figures, with what is used of each limit, are those of the vault
//! (`figures_of`, `Figures::limits`), and the weight is that of all versions and drafts (`laws`). The sentences on a file and on
//! a limit are as defined (`Display`).
//! Stands on: vault_state, vault_model, vault_device, vault_journal, design_tree, vault_checkout, vault_store. Must not know: the history,
//! how to mend a file.
//!
//! Invariants: none; contracts relate a report to the bytes of both files.
//! Only tested: that `why_of` is what opening says. Neither: that a pair of files has only one report.
//! Start at: inspecting.rt, `inspect`; specs/States.antt; then printing.rt; for how full a vault is figures.rt.
#![tactic(auto)]

mod claims;
mod counts;
mod figures;
mod inspecting;
pub mod laws;
mod lengths;
mod limits;
mod output;
mod printing;
mod report;
mod verdict;

pub use figures::{Figures, figures_of};
pub use inspecting::{InspectError, inspect};
pub use lengths::snapshot_length;
pub use limits::{Limit, Limited};
pub use output::PrintError;
pub use printing::print;
pub use report::{FileState, Report};
pub use verdict::why_of;
