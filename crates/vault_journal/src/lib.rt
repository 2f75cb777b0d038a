//! The journal: the one spelling of each effect, frames of records, and the commit mark that makes a frame count. The mark is
//! called gate in code: one byte, open where it is 1 and closed otherwise.
//!
//! Promises: an effect has one spelling, and is read back from it, whatever follows. Bytes are records, or the offset of the
//! first fault is reported (`push_effect`, `read_effects`, `laws`). A commit has four steps. A crash before the third leaves
//! the mark closed. From then until the fourth has succeeded, the mark is the only byte in doubt (`write_body`, `settle_body`,
//! `open_gate`, `settle_gate`).
//! Stands on: vault_state, vault_model, vault_device. Must not know: a file's head, a snapshot, or whether an effect is applicable.
//!
//! Invariants, of `Frame`:
//! 1. The buffer always has its full size, 262,144 bytes.
//! 2. The records fit in it, with their length before them and a closed mark behind them.
//! 3. It is always sealed: it begins with what a commit would write now.
//!
//! Start at: docs/FORMAT.md, then specs/Spelling.antt and records.rt; for the steps of a commit specs/Gate.antt, body.rt and
//! gate.rt.
#![tactic(auto)]

mod body;
mod frame;
mod gate;
pub mod laws;
mod reading;
mod records;
mod whole_commit;
mod writing;

pub use body::{settle_body, write_body};
pub use frame::{FRAME_ROOM, Frame};
pub use gate::{open_gate, settle_gate};
pub use reading::{content_at, item_at, items_at, name_at, note_at, u8_at, u16_at, u32_at, u64_at};
pub use records::{Damage, LONGEST_RECORD, read_effects, record_len};
pub use whole_commit::commit;
pub use writing::{
    put_bytes, put_content, put_item, put_items, put_name, put_note, put_u8, put_u16, put_u32,
    put_u64,
};
