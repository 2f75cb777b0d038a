//! The files of a vault, which are locked while the program has them.
ghost use Rattle.std.specs.Prelude.{◌≡◌, true};
ghost use Rattle.std.specs.Fs.{new_options, with_read, with_write};

use crate::failure::Failure;
use crate::pair::Pair;
use crate::reason::{Action, Cause, Subject};
use crate::teller::Teller;
use std::fs::{File, OpenOptions, TryLockError};
use std::io;
use std::rt::Files;
use vault_device::{FileDevice, RawFile};

/// A file that hands each call on to another one, and reports to the teller if that failed.
#[derive(Drop)]
pub struct WatchedFile<'a, 'p, R, F = File> {
    file: F,
    path: &'p str,
    teller: &'a Teller<'p, R>,
}

impl<R: Eprint, F> WatchedFile<'_, '_, R, F> {
    fn note(&self, action: Action, cause: Cause) {
        self.teller.note(Subject::File(self.path), action, cause);
    }

    // Reports a call that failed.
    fn note_failure<T>(&self, action: Action, answer: &io::Result<T>) {
        if let Err(error) = answer {
            self.note(action, Cause::System(*error));
        }
    }

    // Reports a call that failed, or that moved no byte although no signal came.
    fn note_moved(&self, action: Action, answer: &io::Result<Option<usize>>) {
        match answer {
            Ok(Some(0)) => self.note(action, Cause::Ended),
            _ => self.note_failure(action, answer),
        }
    }
}

impl<R: Eprint, F: RawFile> RawFile for WatchedFile<'_, '_, R, F> {
    ghost bytes = { λ watched. F.bytes watched.file };

    ghost lawful = { λ watched honest. F.lawful watched.file honest };

    fn len(&mut self) -> io::Result<u64> {
        let answer = self.file.len();
        self.note_failure(Action::Measured, &answer);
        answer
    }

    fn read_some(&mut self, at: u64, buffer: &mut [u8]) -> io::Result<Option<usize>> {
        let answer = self.file.read_some(at, buffer);
        self.note_moved(Action::ReadAt(at), &answer);
        answer
    }

    fn write_some(&mut self, at: u64, text: &[u8]) -> io::Result<Option<usize>> {
        let answer = self.file.write_some(at, text);
        self.note_moved(Action::WrittenAt(at), &answer);
        answer
    }

    fn settle(&mut self) -> io::Result<()> {
        let answer = self.file.settle();
        self.note_failure(Action::Synced, &answer);
        answer
    }
}

/// The device over a file of a vault.
pub type WatchedDevice<'a, 'p, R> = FileDevice<WatchedFile<'a, 'p, R>>;

/// The device over an open file.
pub(crate) fn device_over<'a, 'p, R: Eprint>(
    file: File,
    path: &'p str,
    teller: &'a Teller<'p, R>,
) -> WatchedDevice<'a, 'p, R> {
    FileDevice::over(WatchedFile { file, path, teller })
}

/// The failure of a file that can't be opened.
pub(crate) fn unopened<'p, R: Eprint>(
    teller: &Teller<'p, R>,
    path: &'p str,
    error: io::Error,
) -> Failure {
    teller.note(Subject::File(path), Action::Opened, Cause::System(error));
    Failure::Device
}

/// Locks a file for as long as it is open. The lock is advisory: only programs that ask for it are kept away.
pub(crate) fn lock<'p, R: Eprint>(
    teller: &Teller<'p, R>,
    path: &'p str,
    file: &File,
) -> Result<(), Failure> {
    let (cause, failure) = match file.try_lock() {
        Ok(()) => return Ok(()),
        Err(TryLockError::WouldBlock) => (Cause::Taken, Failure::InUse),
        Err(TryLockError::Error(error)) => (Cause::System(error), Failure::Device),
    };
    teller.note(Subject::File(path), Action::Locked, cause);
    Err(failure)
}

// How a file of a vault is opened: for reading and writing, as it is. It isn't made, and not cut.
fn as_it_is() -> OpenOptions
    ensures { result ≡ with_write (with_read new_options true) true }
{
    let mut options = OpenOptions::new();
    options.read(true).write(true);
    options
}

/// Opens a file of a vault for reading and writing.
pub(crate) fn open_as_it_is<R: Files<File = File>>(rt: &R, path: &str) -> io::Result<File> {
    as_it_is().open(rt, path)
}

// Opens a file of a vault for reading and writing, and locks it.
fn open_locked<'a, 'p, R: Files<File = File> + Eprint>(
    rt: &R,
    teller: &'a Teller<'p, R>,
    path: &'p str,
) -> Result<WatchedDevice<'a, 'p, R>, Failure> {
    match open_as_it_is(rt, path) {
        Ok(file) => {
            lock(teller, path, &file)?;
            Ok(device_over(file, path, teller))
        }
        Err(error) => Err(unopened(teller, path, error)),
    }
}

/// Opens the files of these two paths for reading and writing, and locks them. Files of two vaults are refused.
pub fn open_pair<'a, 'p, R: Files<File = File> + Eprint + AllocGlobal>(
    rt: &R,
    teller: &'a Teller<'p, R>,
    first: &'p str,
    second: &'p str,
) -> Result<Pair<WatchedDevice<'a, 'p, R>>, Failure> {
    let first = open_locked(rt, teller, first)?;
    match open_locked(rt, teller, second) {
        Ok(second) => Pair::of(rt.alloc(), first, second),
        Err(failure) => {
            drop(first);
            Err(failure)
        }
    }
}
