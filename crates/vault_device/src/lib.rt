//! Disks whose unsynced bytes a crash may lose or tear.
//!
//! Promises: each call of `Device` is one device call. Its contract says what a read gives, what is durable ("settled"), what a
//! crash now may leave ("images"), and what a crash at any moment since an earlier one might have left. A fault is returned only
//! if it is counted or the count is full. `MemDevice` meets these contracts and is honest; a crash leaves the bytes that its
//! `Pick` says (`laws`). `FileDevice` meets them over every honest raw file, through short reads and writes (`FileDevice::over`).
//! Stands on: no crate of this repository. Must not know: what the bytes mean.
//!
//! Invariants, of `Memory`, behind `MemDevice`:
//! 1. What is shown, durable and filled is what the history of its events leads to.
//! 2. The events since the last sync or crash lead from the durable length to the shown one.
//! 3. The first `clean` bytes are the same in what is durable and what is shown.
//! 4. There is room for a sync and for a crash, so neither takes memory.
//!
//! Only tested: a real file is written, synced, opened again and read; a write fails where the file was opened for reading.
//! Neither: that a real file is honest. It is the one premise of the whole (README).
//! Start at: device.rt (the trait), specs/Disk.antt (the model), then mem_device.rt.
#![tactic(auto)]

mod device;
mod file_device;
mod history;
pub mod laws;
mod mem_device;
mod memory;
mod raw_file;

pub use device::{Device, Fault};
pub use file_device::FileDevice;
pub use history::Pick;
pub use mem_device::MemDevice;
pub use raw_file::RawFile;
