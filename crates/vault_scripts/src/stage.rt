//! Two files, and the store that is open over them.

use crate::bytes::Names;
use crate::opening::{begin, create, open};
use crate::steps::{Step, at_files, at_store, both_crash};
use crate::text::Text;
use std::alloc::Global;
use vault_device::MemDevice;
use vault_store::Store;

/// Two files, closed or with a store over them.
#[derive(Drop)]
pub(crate) enum Stage {
    Files(MemDevice, MemDevice),
    Open(Store<MemDevice>),
}

impl Stage {
    /// Two empty files.
    pub(crate) fn new(alloc: Global) -> Option<Stage> {
        let first = MemDevice::new(alloc).ok()?;
        let second = MemDevice::new(alloc).ok()?;
        Some(Stage::Files(first, second))
    }

    /// Makes a step, and puts its answer into `told`. Says whether it could be made, and answers what it must.
    pub(crate) fn step(
        self,
        alloc: Global,
        names: &Names,
        step: &str,
        told: &mut Text,
    ) -> (Stage, bool) {
        let step = Step::read(step);
        let (next, is_made) = self.make(alloc, names, step, told);
        (next, is_made && step.is_answered(told))
    }

    // Makes a step, and says whether it could be made.
    fn make(self, alloc: Global, names: &Names, step: Step, told: &mut Text) -> (Stage, bool) {
        match (self, step.verb) {
            (Stage::Files(first, second), "create") => (create(alloc, first, second, told), true),
            (Stage::Files(first, second), "open") => (open(alloc, first, second, told), true),
            (Stage::Files(first, second), "snapshot") => (begin(alloc, first, second, told), true),
            (Stage::Files(mut first, mut second), _) => {
                let is_made = at_files(alloc, names, (&mut first, &mut second), step, told);
                (Stage::Files(first, second), is_made)
            }
            (Stage::Open(store), "crash") => {
                let (mut first, mut second) = store.into_devices();
                let is_made = both_crash(&mut first, &mut second, step.rest);
                (Stage::Files(first, second), is_made)
            }
            (Stage::Open(store), "close") => {
                let (first, second) = store.into_devices();
                (Stage::Files(first, second), true)
            }
            (Stage::Open(mut store), _) => {
                let is_made = at_store(alloc, names, &mut store, step, told);
                (Stage::Open(store), is_made)
            }
        }
    }
}
