//! A store made or opened over two files.

use crate::stage::Stage;
use crate::telling::{tell_not_opened, tell_opened};
use crate::text::Text;
use std::alloc::Global;
use vault_device::MemDevice;
use vault_store::{Refused, Store, laws};

/// Makes a new vault in two files.
pub(crate) fn create(alloc: Global, first: MemDevice, second: MemDevice, told: &mut Text) -> Stage {
    match Store::create(alloc, first, second) {
        Ok(store) => {
            told.put("Made");
            Stage::Open(store)
        }
        Err(Refused { why, first, second }) => {
            told.put_value(&why, "");
            Stage::Files(first, second)
        }
    }
}

/// Opens the vault of two files.
pub(crate) fn open(alloc: Global, first: MemDevice, second: MemDevice, told: &mut Text) -> Stage {
    match Store::open(alloc, first, second) {
        Ok((store, book)) => {
            tell_opened(told, &store, &book);
            drop(book);
            Stage::Open(store)
        }
        Err(Refused { why, first, second }) => {
            tell_not_opened(told, why);
            Stage::Files(first, second)
        }
    }
}

/// Opens the vault of two files, and begins a snapshot of it.
pub(crate) fn begin(alloc: Global, first: MemDevice, second: MemDevice, told: &mut Text) -> Stage {
    laws::what_is_noted_is_spelled::<MemDevice>();
    match Store::open(alloc, first, second) {
        Ok((mut store, book)) => {
            let started = store.start_snapshot(alloc, &book);
            drop(book);
            if let Ok(started) = started {
                told.put_value(&started, "");
            }
            Stage::Open(store)
        }
        Err(Refused { why, first, second }) => {
            tell_not_opened(told, why);
            Stage::Files(first, second)
        }
    }
}
