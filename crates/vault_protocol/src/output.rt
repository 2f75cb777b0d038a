//! Writing texts.

ghost use Rattle.std.specs.Prelude.{◌≡◌, ◌≤◌, length, ℕ, OnErr, OnOk, take, IfErr};
ghost use Rattle.std.specs.Io.KnownBytes.{Appends};

use crate::error::ScriptError;
use std::io::Write;

/// Writes the whole text. A write that takes no byte counts as failed.
pub(crate) fn write_text<W: Write>(writer: &mut W, text: &[u8]) -> Result<(), ScriptError>
    ensures ok { OnOk result (Appends (W.contents writer.old) (W.contents writer.new) text.now) }
    ensures err { OnErr result
        ((n : ℕ) × (n ≤ length text.now) × Appends (W.contents writer.old) (W.contents writer.new) (take n text.now)) }
    ensures cause { IfErr result (λ e. e ≡ ScriptError.Write) }
{
    let mut done = 0;
    while done < text.len() {
        let (_, rest) = text.split_at(done);
        match writer.write(rest) {
            Ok(0) | Err(_) => return Err(ScriptError::Write),
            Ok(count) => done += count,
        }
    }
    Ok(())
}
