//! Random choices, the same for the same seed.
ghost use Rattle.std.specs.Prelude.{◌<◌};

use rand_xoshiro::Xoshiro256PlusPlus;
use rand_xoshiro::rand_core::{Rng, SeedableRng};
use vault_device::Pick;

/// A generator of random choices.
#[derive(Drop)]
pub(crate) struct Dice {
    generator: Xoshiro256PlusPlus,
}

impl Dice {
    /// The choices that follow a seed.
    pub(crate) fn new(seed: u64) -> Dice {
        Dice {
            generator: Xoshiro256PlusPlus::seed_from_u64(seed),
        }
    }

    /// A number below this one, and 0 for 0.
    pub(crate) fn below(&mut self, count: u32) -> u32 {
        match count {
            0 => 0,
            _ => self.generator.next_u32() % count,
        }
    }

    /// True in one case of `count`, on average.
    pub(crate) fn one_in(&mut self, count: u32) -> bool {
        self.below(count) == 0
    }

    /// Any byte.
    pub(crate) fn byte(&mut self) -> u8 {
        (self.generator.next_u32() & 0xff) as u8
    }

    /// A byte that isn't 1.
    pub(crate) fn no_one(&mut self) -> u8 {
        match self.byte() {
            1 => 0,
            byte => byte,
        }
    }

    /// An index into a list of this length, and 0 for an empty one.
    pub(crate) fn place(&mut self, len: usize) -> usize {
        match len {
            0 => 0,
            _ => self.generator.next_u64() as usize % len,
        }
    }

    /// One of these words; empty if there are none.
    pub(crate) fn word(&mut self, all: &[&'static str]) -> &'static str {
        all.get(self.place(all.len())).copied().unwrap_or("")
    }

    /// One of these numbers; 0 if there are none.
    pub(crate) fn number(&mut self, all: &[u32]) -> u32 {
        all.get(self.place(all.len())).copied().unwrap_or(0)
    }

    /// What a crash leaves of a device's bytes.
    pub(crate) fn pick(&mut self) -> Pick {
        match self.below(10) {
            0..3 => Pick::Old,
            3..6 => Pick::New,
            6 => Pick::Bytes(0),
            7..9 => Pick::Bytes(1),
            _ => Pick::Bytes(self.byte()),
        }
    }
}
