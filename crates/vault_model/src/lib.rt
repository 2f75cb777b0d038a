//! What sessions ask of a vault, and the definitions of everything that other crates promise. It hands on the types of vault_state.
//!
//! Promises: the definitions have the laws of `laws`. A well-formed vault stays well formed. A granted claim
//! stays granted as long as it is there, and granted claims don't overlap. An effect is the durable change of its step. Two
//! claims overlap where one changes a place that the other looks at or changes, and "under" follows the parents. A path leads
//! back to its place. A check-in leaves the weight as it is, and no limit but full parts refuses it. A second save replaces the
//! first. A copy of a command, a reply or an effect equals its source (`copy`). The step gives the replies of conversations
//! that were worked out by hand, by proof.
//! Stands on: vault_state. Must not know: an allocator in a definition, a device, a line of text, how a tree is indexed.
//!
//! Neither proved nor tested: the `Display` texts of refusals.
//! Start at: vault_state's specs/Vault.antt (what a vault is) and specs/Claims.antt (the queue of claims), then specs/Step.antt (what
//! each command does) and specs/Laws.antt.
#![tactic(auto)]

mod commands;
mod effects;
pub mod laws;
mod replies;

pub use commands::{Command, CommandIn};
pub use effects::{Effect, EffectIn};
pub use replies::{Outside, Refusal, Reply, ReplyIn, ShownClaim};
pub use vault_state::{
    Claim, ClaimId, Draft, DraftIn, Drafts, EXTRA_WEIGHT, GREATEST_DEPTH, Intent, Item, Items,
    Kind, LAST_NUMBER, LONGEST_CONTENT, LONGEST_NAME, LONGEST_NOTE, Listing, MAX_CHILDREN,
    MAX_CLAIMS, MAX_DRAFTS, MAX_ITEMS, MAX_NAMES, MAX_PLACES, MAX_SESSIONS, MAX_VERSIONS,
    MAX_WEIGHT, Name, NoMemory, Note, Owner, PART_DEPTH, Path, PathItem, Place, PlaceId, Session,
    Standing,
};
