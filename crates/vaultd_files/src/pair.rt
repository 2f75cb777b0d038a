//! The two files of one vault, for a server.
ghost use Rattle.std.specs.Prelude.{◌≡◌};
ghost use Rattle.vaultd_files.specs.Pairs.{AreApart};

use crate::failure::Failure;
use crate::two_vaults::refuse_two_vaults;
use std::alloc::Allocator;
use vault_device::Device;

/// Two open files that aren't of two vaults, as far as they could be read. This is the only way to files that may be written, but for `create`.
#[derive(Drop)]
pub struct Pair<D: Device> {
    first: D,
    second: D,
    ghost apart: { AreApart (D.disk first) (D.disk second) },
}

impl<D: Device + Drop> Pair<D> {
    /// Refuses files of two vaults. They are read, and nothing is changed.
    pub(crate) fn of<A: Allocator + Copy>(
        alloc: A,
        first: D,
        second: D,
    ) -> Result<Pair<D>, Failure> {
        let mut first = first;
        let mut second = second;
        match refuse_two_vaults(alloc, &mut first, &mut second) {
            Ok(()) => Ok(Pair { first, second }),
            Err(failure) => {
                drop(first);
                drop(second);
                Err(failure)
            }
        }
    }

    /// The devices over the first and the second file.
    pub fn into_devices(self) -> (D, D)
        ensures { AreApart (D.disk result.0) (D.disk result.1) }
    {
        (self.first, self.second)
    }
}
