//! Reads the head of a file.
ghost use Rattle.std.specs.Prelude.{IfOk, IsErr, IsTrue, OnOk};
ghost use Rattle.vault_store.specs.Calls.{HasCause, IsQuiet};
ghost use Rattle.vault_store.specs.Parts.{IsHead};
ghost use Rattle.vault_store.specs.Read.{AreReads};

use vault_device::{Device, Fault};
use vault_format::{FileVersion, HEADER, version_of};

const MAGIC: [u8; 7] = *b"LLVAULT";

/// What the head of a file is.
#[derive(Clone, Copy, Debug, PartialEq, Eq)]
pub enum Head {
    /// It isn't whole, or its gate is closed.
    Closed,
    /// The file is open, and the head is right.
    Open {
        version: FileVersion,
        generation: u64,
    },
    /// The file is open, and the head's first fault is at this offset.
    Damaged(u64),
}

// The head of a file. Numbers are big-endian.
//
//   offset  bytes
//        0      1  the head gate: 1 is open, any other value closed
//        1      7  the mark, `LLVAULT`
//        8      4  the version, 1 or 2
//       12      8  the generation, 1 or more
//       20      4  the length of the snapshot, which begins at 24
//
// The head that the first bytes of a file spell.
fn head_in(bytes: &[u8; 24]) -> Head
    ensures { IsHead bytes.now result }
{
    if bytes[0] != 1 {
        return Head::Closed;
    }
    if bytes[1..8] != MAGIC[..] {
        return Head::Damaged(1);
    }
    let Some(version) = version_of(&bytes[8..12]) else {
        return Head::Damaged(8);
    };
    let generation = u64::from_be_bytes([
        bytes[12], bytes[13], bytes[14], bytes[15], bytes[16], bytes[17], bytes[18], bytes[19],
    ]);
    if generation == 0 {
        return Head::Damaged(12);
    }
    Head::Open {
        version,
        generation,
    }
}

/// Reads the head of a file. Two device calls at most, which change nothing.
pub fn read_head<D: Device>(device: &mut D) -> Result<Head, Fault>
    ensures reads { AreReads (D.disk device.old) (D.disk device.new) }
    ensures head { IsTrue (D.disk device.old).honest → IfOk result (λ head. IsHead (D.disk device.old).shown head) }
    ensures cause { IsErr result → HasCause (D.disk device.old) (D.disk device.new) }
    ensures quiet { OnOk result (IsQuiet (D.disk device.old) (D.disk device.new)) }
{
    if device.len()? < HEADER {
        return Ok(Head::Closed);
    }
    let mut bytes = [0; 24];
    device.read_at(0, &mut bytes)?;
    Ok(head_in(&bytes))
}
