//! Reading a script whole.

ghost use Rattle.std.specs.Prelude.{◌≡◌, ◌≢◌, ◌<◌, ◌≤◌, IfErr, IfOk, IfSome, IsErrOf, OnOk, length, vec_len};
ghost use Rattle.std.specs.Io.KnownBytes.{IsAtEnd};
ghost use Rattle.vault_protocol.specs.Limits.{longest_script};

use crate::error::ScriptError;
use crate::limits::LONGEST_SCRIPT;
use std::alloc::{AllocError, Allocator};
use std::io::Read;
use vault_lines::MAX_READS;

/// A buffer for one read.
fn room<A: Allocator>(alloc: A) -> Result<Vec<u8, A>, AllocError>
    ensures { IfOk result (λ buffer. 0 < vec_len buffer) }
{
    vec![in alloc; 0u8; 65536]
}

/// Reads all bytes that the reader has.
pub(crate) fn read_script<A: Allocator + Copy, R: Read>(
    alloc: A,
    reader: &mut R,
) -> Result<Vec<u8, A>, ScriptError>
    ensures ok { IfOk result (λ script. IfSome (R.remaining reader.old) (λ bytes. script.items ≡ bytes)) }
    ensures fits { IfOk result (λ script. vec_len script ≤ longest_script) }
    ensures end { OnOk result (IsAtEnd (R.remaining reader.new)) }
    ensures too_long { IsErrOf result ScriptError.TooLong → IfSome (R.remaining reader.old) (λ bytes. longest_script < length bytes) }
    ensures cause { IfErr result (λ e. e ≢ ScriptError.Write) }
{
    let mut buffer = room(alloc)?;
    let mut script = Vec::new(alloc);
    for _call in 0..MAX_READS {
        let Ok(count) = reader.read(&mut buffer) else {
            return Err(ScriptError::Read);
        };
        if count == 0 {
            return Ok(script);
        }
        if LONGEST_SCRIPT - script.len() < count {
            return Err(ScriptError::TooLong);
        }
        script.extend_from_slice(&buffer[..count])?;
    }
    Err(ScriptError::Read)
}
