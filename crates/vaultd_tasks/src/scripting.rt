//! Running a script.

use std::io::Write;
use vault_protocol::{ScriptError, run_script};
use vaultd_files::{Failure, Input, Teller, buffered_output};

/// The failure of a script that stopped.
fn failure_of(error: ScriptError) -> Failure {
    match error {
        ScriptError::Read => Failure::Read,
        ScriptError::Write => Failure::Write,
        ScriptError::TooLong => Failure::TooLong,
        ScriptError::NoMemory => Failure::NoMemory,
    }
}

/// Runs a script from standard input, and writes its output.
pub fn script(rt: &HostRuntime, teller: &Teller<'_, HostRuntime>) -> Result<(), Failure> {
    let mut reader = Input {
        reader: rt.reader(),
        teller,
    };
    let mut writer = buffered_output(rt, teller)?;
    let end = run_script(rt.alloc(), &mut reader, &mut writer);
    let flushed = writer.flush();
    end.map_err(failure_of)?;
    flushed.or(Err(Failure::Write))
}
