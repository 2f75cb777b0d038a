//! How long the snapshot of a file is.
ghost use Rattle.std.specs.Prelude.{◌≡◌, ◌<◌, IfOk, IsErr, IsTrue, OnOk, length};
ghost use Rattle.vault_format.specs.Files.{header};
ghost use Rattle.vault_store.specs.Calls.{HasCause, IsQuiet};
ghost use Rattle.vault_store.specs.Read.{AreReads};
ghost use Rattle.vault_inspector.specs.Found.{IsSnapshotLength};

use vault_device::{Device, Fault};

// How many bytes stand before a snapshot. The last four of them have its length.
const HEADER: u64 = 24;

/// How many bytes the snapshot of a file has, by its header, or `None` for a file without a whole header. Two device calls at most,
/// which change nothing.
pub fn snapshot_length<D: Device>(device: &mut D) -> Result<Option<u32>, Fault>
    ensures reads { AreReads (D.disk device.old) (D.disk device.new) }
    ensures length { IsTrue (D.disk device.old).honest → IfOk result (λ found. IsSnapshotLength (D.disk device.old).shown found) }
    ensures cause { IsErr result → HasCause (D.disk device.old) (D.disk device.new) }
    ensures quiet { OnOk result (IsQuiet (D.disk device.old) (D.disk device.new)) }
{
    if device.len()? < HEADER {
        return Ok(None);
    }
    let mut bytes = [0; 4];
    device.read_at(20, &mut bytes)?;
    Ok(Some(u32::from_be_bytes(bytes)))
}
