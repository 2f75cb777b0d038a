//! Whole scripts.

ghost use Rattle.std.specs.Prelude.{◌≡◌, ◌<◌, ◌≤◌, ◌⊎◌, ℕ, length, take, IfErr, IfSome, IsErrOf, OnErr, OnOk};
ghost use Rattle.std.specs.Io.KnownBytes.{Appends, Keeps};
ghost use Rattle.vault_protocol.specs.Limits.{longest_script};
ghost use Rattle.vault_protocol.specs.Script.{output};

use crate::error::ScriptError;
use crate::input::read_script;
use crate::output::write_text;
use crate::runner::Runner;
use std::alloc::Allocator;
use std::io::{Read, Write};
use vault_state::split::cut;

/// Runs the lines of a script, and writes what it prints.
fn run_lines<A: Allocator + Copy, W: Write>(
    alloc: A,
    script: &[u8],
    writer: &mut W,
) -> Result<(), ScriptError>
    ensures ok { OnOk result (Appends (W.contents writer.old) (W.contents writer.new) (output script.now)) }
    ensures err { OnErr result ((n : ℕ) × Appends (W.contents writer.old) (W.contents writer.new) (take n (output script.now))) }
    ensures cause { IfErr result (λ e. (e ≡ ScriptError.Write) ⊎ (e ≡ ScriptError.NoMemory)) }
{
    let mut runner = Runner::new(alloc)?;
    let mut text = Vec::new(alloc);
    let mut rest = Some(script);
    while let Some(bytes) = rest {
        let (line, behind) = cut(bytes, b'\n');
        text.clear();
        runner = runner.run_line(alloc, line, &mut text)?;
        if let Err(error) = write_text(writer, &text) {
            runner.close();
            return Err(error);
        }
        rest = behind;
    }
    text.clear();
    runner.finish(alloc, &mut text)?;
    write_text(writer, &text)
}

/// Reads a whole script, runs it over a new vault, and writes its output. An interrupted read or write counts as a
/// fault. Takes time proportional to the script's length, beside what its commands take.
pub fn run_script<A: Allocator + Copy, R: Read, W: Write>(
    alloc: A,
    reader: &mut R,
    writer: &mut W,
) -> Result<(), ScriptError>
    // If it succeeds, the whole output of the script is written.
    ensures ok { OnOk result (IfSome (R.remaining reader.old) (λ script.
        (length script ≤ longest_script) × Appends (W.contents writer.old) (W.contents writer.new) (output script))) }
    // If it fails, a prefix of the output is.
    ensures err { OnErr result (IfSome (R.remaining reader.old) (λ script.
        (n : ℕ) × Appends (W.contents writer.old) (W.contents writer.new) (take n (output script)))) }
    // Nothing is written for a script that is not read whole.
    ensures read { IsErrOf result ScriptError.Read → Keeps (W.contents writer.old) (W.contents writer.new) }
    ensures long { IsErrOf result ScriptError.TooLong → Keeps (W.contents writer.old) (W.contents writer.new) }
    ensures too_long { IsErrOf result ScriptError.TooLong → IfSome (R.remaining reader.old) (λ script. longest_script < length script) }
{
    let script = read_script(alloc, reader)?;
    run_lines(alloc, &script, writer)
}
