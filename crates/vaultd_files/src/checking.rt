//! Checking two files: whether a server would start over them, and how full their vault is.

use crate::failure::Failure;
use crate::files::{WatchedDevice, device_over, unopened};
use crate::teller::Teller;
use crate::told::{Finding, tell};
use crate::two_vaults::refuse_two_vaults;
use std::fs;
use vault_inspector::{FileState, InspectError, Report, inspect, snapshot_length, why_of};
use vault_store::{File, Head, OpenError, read_head};

/// How often two files are read again at most until two readings agree.
const MAX_READINGS: u32 = 16;

/// What one reading finds in two files.
#[derive(Drop)]
pub(crate) struct Reading {
    heads: (Head, Head),
    pub(crate) report: Report,
    /// How many bytes the active file's snapshot has.
    pub(crate) snapshot: Option<u32>,
    /// Why the two aren't of one vault, if they aren't, or why that isn't known.
    two_vaults: Option<Failure>,
}

/// The files of a vault, opened for reading alone. They aren't locked, so that no server is kept from starting.
#[derive(Drop)]
struct Files<'a, 'p> {
    first: WatchedDevice<'a, 'p, HostRuntime>,
    second: WatchedDevice<'a, 'p, HostRuntime>,
}

/// Opens a file for reading alone.
fn opened<'a, 'p>(
    rt: &HostRuntime,
    teller: &'a Teller<'p, HostRuntime>,
    path: &'p str,
) -> Result<WatchedDevice<'a, 'p, HostRuntime>, Failure> {
    match fs::File::open(rt, path) {
        Ok(file) => Ok(device_over(file, path, teller)),
        Err(error) => Err(unopened(teller, path, error)),
    }
}

impl Files<'_, '_> {
    /// How long the snapshot of the active file is.
    fn snapshot(&mut self, report: &Report) -> Result<Option<u32>, InspectError> {
        match (report.first, report.second) {
            (FileState::Open { .. }, _) => Ok(snapshot_length(&mut self.first)?),
            (_, FileState::Open { .. }) => Ok(snapshot_length(&mut self.second)?),
            (_, _) => Ok(None),
        }
    }

    /// Reads both files once, heads first.
    fn read(&mut self, rt: &HostRuntime) -> Result<Reading, InspectError> {
        let heads = (read_head(&mut self.first)?, read_head(&mut self.second)?);
        let report = inspect(rt.alloc(), &mut self.first, &mut self.second)?;
        let two_vaults = refuse_two_vaults(rt.alloc(), &mut self.first, &mut self.second).err();
        match self.snapshot(&report) {
            Ok(snapshot) => Ok(Reading {
                heads,
                report,
                snapshot,
                two_vaults,
            }),
            Err(error) => {
                drop(report);
                Err(error)
            }
        }
    }

    /// Reads both files until two readings agree, and gives the first of the two. None if no two do, since a server writes to the files.
    /// The first of the two shows one moment: while the heads stay, an active file only grows, and what the other holds isn't touched.
    fn read_agreed(&mut self, rt: &HostRuntime) -> Result<Option<Reading>, InspectError> {
        let mut last = self.read(rt)?;
        for _ in 0..MAX_READINGS {
            let next = match self.read(rt) {
                Ok(next) => next,
                Err(error) => {
                    drop(last);
                    return Err(error);
                }
            };
            if agree(&last, &next) {
                drop(next);
                return Ok(Some(last));
            }
            last = next;
        }
        drop(last);
        Ok(None)
    }
}

/// Whether two readings, one after the other, prove that the first shows one moment. If no vault was found, all has to be the same.
fn agree(one: &Reading, next: &Reading) -> bool {
    let found = one.report.book.is_some() && next.report.book.is_some();
    let same = one.report.first == next.report.first && one.report.second == next.report.second;
    one.heads == next.heads && (found || same)
}

/// The file that a failure of opening is about, if it is about one.
fn file_of(why: OpenError) -> Option<File> {
    match why {
        OpenError::Damaged { file, offset: _ } => Some(file),
        OpenError::NoVault | OpenError::Device | OpenError::NoMemory => None,
    }
}

/// Why no server starts over what was read, if none does, and the file that this is about.
fn failure_of(reading: &Reading) -> (Option<Failure>, Option<File>) {
    match why_of(reading.report.first, reading.report.second) {
        Some(why) => (Some(Failure::from(why)), file_of(why)),
        None => (reading.two_vaults, None),
    }
}

/// What was found if the files weren't read.
fn unread(failure: Failure, file: Option<File>) -> Finding {
    Finding {
        reading: None,
        failure: Some(failure),
        file,
    }
}

/// What was found in two open files.
fn found(rt: &HostRuntime, files: &mut Files<'_, '_>) -> Finding {
    match files.read_agreed(rt) {
        Ok(Some(reading)) => {
            let (failure, file) = failure_of(&reading);
            Finding {
                reading: Some(reading),
                failure,
                file,
            }
        }
        Ok(None) => unread(Failure::InUse, None),
        Err(error) => unread(Failure::from(error), None),
    }
}

/// What is found in the files of these two paths.
fn look<'p>(
    rt: &HostRuntime,
    teller: &Teller<'p, HostRuntime>,
    first: &'p str,
    second: &'p str,
) -> Finding {
    let first = match opened(rt, teller, first) {
        Ok(device) => device,
        Err(failure) => return unread(failure, Some(File::First)),
    };
    match opened(rt, teller, second) {
        Ok(second) => found(rt, &mut Files { first, second }),
        Err(failure) => {
            drop(first);
            unread(failure, Some(File::Second))
        }
    }
}

/// Says on standard output what the files of these two paths are, whether a server starts over them, and how full their vault is. If none
/// starts, the failure says why.
pub fn check<'p>(
    rt: &HostRuntime,
    teller: &Teller<'p, HostRuntime>,
    first: &'p str,
    second: &'p str,
    json: bool,
) -> Result<(), Failure> {
    let finding = look(rt, teller, first, second);
    let told = tell(rt, teller, &finding, (first, second), json);
    let failure = finding.failure;
    drop(finding);
    told?;
    failure.map_or(Ok(()), Err)
}
