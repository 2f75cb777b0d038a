//! Reporting on two files.

use crate::failure::Failure;
use crate::files::{device_over, unopened};
use crate::standard::buffered_output;
use crate::teller::Teller;
use std::fs::{File, TryLockError};
use std::io::Write;
use vault_inspector::{Report, print};

/// What was found in two files.
#[derive(Drop)]
struct Inspection {
    report: Report,
    /// Whether another program may have written to them meanwhile.
    in_use: bool,
}

/// Opens a file for reading alone.
fn opened<'p>(
    rt: &HostRuntime,
    teller: &Teller<'p, HostRuntime>,
    path: &'p str,
) -> Result<File, Failure> {
    File::open(rt, path).map_err(|error| unopened(teller, path, error))
}

/// Whether another program has the file for writing. If none has, none gets it while this one is open.
fn is_in_use(file: &File) -> bool {
    matches!(file.try_lock_shared(), Err(TryLockError::WouldBlock))
}

/// Reads the files of these two paths.
fn read_files<'p>(
    rt: &HostRuntime,
    teller: &Teller<'p, HostRuntime>,
    first: &'p str,
    second: &'p str,
) -> Result<Inspection, Failure> {
    let a = opened(rt, teller, first)?;
    let b = opened(rt, teller, second)?;
    let in_use = is_in_use(&a) || is_in_use(&b);
    let mut a = device_over(a, first, teller);
    let mut b = device_over(b, second, teller);
    let report = vault_inspector::inspect(rt.alloc(), &mut a, &mut b)?;
    Ok(Inspection { report, in_use })
}

/// Prints a report on standard output.
fn print_out(
    rt: &HostRuntime,
    teller: &Teller<'_, HostRuntime>,
    report: &Report,
) -> Result<(), Failure> {
    let mut writer = buffered_output(rt, teller)?;
    print(report, &mut writer)?;
    writer.flush().or(Err(Failure::Write))
}

/// Prints a report on the files of these two paths on standard output. If a server has them, it says so on standard error.
pub fn inspect<'p>(
    rt: &HostRuntime,
    teller: &Teller<'p, HostRuntime>,
    first: &'p str,
    second: &'p str,
) -> Result<(), Failure> {
    let inspection = read_files(rt, teller, first, second)?;
    if inspection.in_use {
        let _ = eprintln!(rt; "vault in use: a server may have written while the files were read");
    }
    let printed = print_out(rt, teller, &inspection.report);
    drop(inspection);
    printed
}
