//! Making a vault in two files.

use crate::failure::Failure;
use crate::files::{device_over, lock, open_as_it_is, unopened};
use crate::standard::print_line;
use crate::teller::Teller;
use std::fs::{self, File};
use std::io::{self, ErrorKind};
use vault_store::Store;

/// A file that is open for a new vault, and whether it was made for it.
#[derive(Drop)]
struct Opened {
    file: File,
    made: bool,
}

/// Opens a file, or makes it if it is missing.
fn open_or_make(rt: &HostRuntime, path: &str) -> io::Result<Opened> {
    match open_as_it_is(rt, path) {
        Ok(file) => Ok(Opened { file, made: false }),
        Err(error) if error.kind() == ErrorKind::NotFound => {
            let file = File::create_new(rt, path)?;
            Ok(Opened { file, made: true })
        }
        Err(error) => Err(error),
    }
}

/// Removes a file that was made for a vault, since no vault came into it.
fn take_back(rt: &HostRuntime, path: &str, made: bool) {
    if made {
        let _ = fs::remove_file(rt, path);
    }
}

/// Opens or makes a file, and locks it. A file that another program has locked isn't removed, whoever made it.
fn locked<'p>(
    rt: &HostRuntime,
    teller: &Teller<'p, HostRuntime>,
    path: &'p str,
) -> Result<Opened, Failure> {
    match open_or_make(rt, path) {
        Ok(opened) => {
            lock(teller, path, &opened.file)?;
            Ok(opened)
        }
        Err(error) => Err(unopened(teller, path, error)),
    }
}

/// Makes a vault in the files of these two paths. Missing files are made. If making the vault is refused, no file is changed, and the
/// files that were made for it are removed again.
fn create_files<'p>(
    rt: &HostRuntime,
    teller: &Teller<'p, HostRuntime>,
    first: &'p str,
    second: &'p str,
) -> Result<(), Failure> {
    let a = locked(rt, teller, first)?;
    let b = match locked(rt, teller, second) {
        Ok(b) => b,
        Err(failure) => {
            take_back(rt, first, a.made);
            return Err(failure);
        }
    };
    let (made_first, made_second) = (a.made, b.made);
    match Store::create(
        rt.alloc(),
        device_over(a.file, first, teller),
        device_over(b.file, second, teller),
    ) {
        Ok(_) => Ok(()),
        Err(refused) => {
            take_back(rt, first, made_first);
            take_back(rt, second, made_second);
            Err(Failure::from(refused.why))
        }
    }
}

/// Makes a vault in the files of these two paths, and says so on standard output.
pub fn create<'p>(
    rt: &HostRuntime,
    teller: &Teller<'p, HostRuntime>,
    first: &'p str,
    second: &'p str,
) -> Result<(), Failure> {
    create_files(rt, teller, first, second)?;
    print_line(rt, teller, "created")
}
