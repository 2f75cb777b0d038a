//! Check-outs: the designers' long claims, typed as granted (`Held`) or waiting (`Waiting`), with the drafts saved under them.
//!
//! Promises: a draft is saved only under a granted check-out, and replaces one of the same part (`CheckOut<Held>::save`). A list of
//! check-outs changes as its definition says when one is put last, withdrawn, saved in or closed. Closing one makes all its drafts
//! versions, or none (`close_at`). One more draft may be saved exactly if the limits hold with it (`may_save`). What replies say of
//! items and of drafts is as defined (`at_paths`, `paths_of`, `content_at`). Out of memory, a call changes nothing.
//! Stands on: vault_state, vault_model, design_tree, part_versions. Must not know: which claims are granted, the line, sessions, commands.
//!
//! Invariant, of `Held`: drafts are in order of rising place, at most one for each part.
//!
//! Only tested: that memory is requested only where a draft needs it.
//! Start at: check_out.rt says why a draft can't be saved under a check-out that waits; any.rt has the list.
#![tactic(auto)]

mod any;
mod check_out;
mod closing;
mod copy;
mod opening;
mod owners;
mod parts;
mod places;
mod stop;
mod telling;
mod weights;

pub use any::{
    AnyCheckOut, check_out_at, drafts_at, grant_one, index_of, put_last, recall_one, save_at,
    withdraw_at,
};
pub use check_out::{CheckOut, Held, Waiting};
pub use closing::close_at;
pub use copy::copy_check_outs;
pub use opening::{number_in, opened, put_in};
pub use owners::{is_designer, is_owned_by};
pub use parts::{are_light, are_of_parts, are_rising, may_be};
pub use places::{are_there, is_changed_by, joined, may_change, places_of};
pub use stop::Stop;
pub use telling::{at_paths, content_at, paths_of};
pub use weights::may_save;
