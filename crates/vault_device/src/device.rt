//! A disk as the layers above see it.
ghost use Rattle.std.specs.Prelude.{◌≡◌, ◌≤◌, ◌<◌, ◌+◌, ◌^◌, IsTrue, IfOk, OnOk, length, slice_range};
ghost use Rattle.vault_device.specs.Disk.{Disk, IsOneCall, IsRead, IsWrite, IsSync, IsLawful};

use std::io;
use thiserror::Error;

/// The device did not do what it was asked.
#[derive(Clone, Copy, Debug, PartialEq, Eq, Error)]
#[error("device fault")]
pub struct Fault;

impl From<io::Error> for Fault {
    fn from(_error: io::Error) -> Fault {
        Fault
    }
}

/// A disk. Each of the four calls is one device call, which is counted.
pub trait Device {
    ghost disk: { Self → Disk };

    /// How many bytes there are.
    fn len(&mut self) -> Result<u64, Fault>
        ensures one_call { IsOneCall (disk self.old) (disk self.new) result }
        ensures kept { IsTrue (disk self.old).honest → IsRead (disk self.old) (disk self.new) }
        ensures length { IsTrue (disk self.old).honest → IfOk result (λ n. n ≡ length (disk self.old).shown) };

    /// Fills the buffer with the bytes from this offset on. After a fault the buffer may hold any bytes.
    fn read_at(&mut self, at: u64, buffer: &mut [u8]) -> Result<(), Fault>
        requires { IsTrue (disk self.old).honest → at + length buffer.old ≤ length (disk self.old).shown }
        ensures one_call { IsOneCall (disk self.old) (disk self.new) result }
        ensures kept { IsTrue (disk self.old).honest → IsRead (disk self.old) (disk self.new) }
        ensures bytes { IsTrue (disk self.old).honest
            → OnOk result (buffer.new ≡ slice_range (disk self.old).shown at (at + length buffer.old)) };

    /// Overwrites the bytes there, also past the end. Until a sync, a crash may leave any bytes in that range.
    fn write_at(&mut self, at: u64, bytes: &[u8]) -> Result<(), Fault>
        requires begin { IsTrue (disk self.old).honest → at ≤ length (disk self.old).shown }
        requires end { IsTrue (disk self.old).honest → at + length bytes.now < 2 ^ 63 }
        ensures one_call { IsOneCall (disk self.old) (disk self.new) result }
        ensures write { IsTrue (disk self.old).honest → IsWrite at bytes.now result (disk self.old) (disk self.new) };

    /// Makes what was written durable: after it, a crash leaves what a read gives.
    fn sync(&mut self) -> Result<(), Fault>
        ensures one_call { IsOneCall (disk self.old) (disk self.new) result }
        ensures sync { IsTrue (disk self.old).honest → IsSync result (disk self.old) (disk self.new) };

    // What holds of an honest device at any time.
    ghost lawful: { (device : Self) → IsTrue (disk device).honest → IsLawful (disk device) };
}
