//! By whom, and over what, the steps of dialogues are taken.

use std::alloc::Allocator;
use std::sync::Wait;
use vault_desk::{Clerk, Gate, Shared, Tally};
use vault_device::Device;

/// Takes the steps of dialogues over one vault.
#[derive(Drop)]
pub struct Worker<'a, D: Device, S: Tally, T: Tally, A: Allocator, G: Gate, H: Wait> {
    /// What it locks and waits by.
    pub rt: &'a H,
    /// Where its memory is from.
    pub alloc: A,
    /// The vault that it works on.
    pub shared: &'a Shared<D, S, T, A>,
    /// What is called at each of its points.
    pub gate: &'a G,
    /// How many dialogues may wait for a claim at once.
    pub most_waits: usize,
}

impl<'a, D: Device, S: Tally, T: Tally, A: Allocator + Copy, G: Gate, H: Wait> Worker<
    'a,
    D,
    S,
    T,
    A,
    G,
    H,
> {
    // The same, who hears lines and stages their commands.
    pub(crate) fn clerk(&self) -> Clerk<'a, D, S, T, A, G, H> {
        Clerk {
            rt: self.rt,
            alloc: self.alloc,
            shared: self.shared,
            gate: self.gate,
            most_waits: self.most_waits,
        }
    }
}
