//! The line (queue of claims): long and short claims in order of arrival, and whether each is granted or waiting.
//!
//! Promises: it keeps the model's list of claims. Each answer is the model's, for the tree over which a claim was weighed last (its
//! standing found) and for every tree grown from that. An extension goes to the front, or nothing moves. Giving a check-out to
//! another designer, or changing its note, changes nothing else, and it keeps its position. The line lists exactly the claims that
//! look at a place or at one under it (`claims_at`). A copy equals its source. A line is made of a list of long claims exactly if a
//! vault may have that list (`from_claims`).
//! Stands on: vault_state, design_tree, lock_modes, lock_table. Must not know: sessions beyond their numbers, drafts, files.
//!
//! Invariants:
//! 1. `Line`: the tree over which a claim was weighed last is well formed.
//! 2. `Line`: each claim's items name places of that tree.
//! 3. `Line`: no claim has a number above the last one given of its kind.
//! 4. `Line`: the table has one entry for each claim, in the same order, with the locks of its items.
//! 5. `Claims`: each claim is stored under its own id.
//!
//! Start at: line.rt, `ask_long` and `extend`; specs/Lines.antt.
#![tactic(auto)]

mod claims;
mod ending;
mod from_claims;
mod kept;
mod line;
mod looking;
mod remembered;

pub use from_claims::FromClaimsError;
pub use line::Line;
