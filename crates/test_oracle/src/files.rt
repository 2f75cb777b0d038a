//! The two devices of a vault, their bytes, and the vault that they open as.
ghost use Rattle.std.specs.Prelude.{◌≡◌};

use crate::world::Left;
use group_commit::{File, OpenError, Refused, Vault};
use std::alloc::Global;
use vault_checkout::Book;
use vault_device::{Device, MemDevice};
use vault_inspector::{Report, inspect};
use vault_store::Store;

// The longest file that is copied.
const LONGEST: usize = 1 << 30;

/// The two devices of a vault.
#[derive(Drop)]
pub struct Files {
    first: MemDevice,
    second: MemDevice,
}

/// The bytes of two files.
#[derive(Drop)]
pub struct Bytes {
    pub first: Vec<u8>,
    pub second: Vec<u8>,
}

// The bytes of a device. If they can't be read: none, or zeroes.
fn bytes_of(alloc: Global, device: &mut MemDevice) -> Vec<u8> {
    let len = device.len().unwrap_or(0);
    let Ok(mut bytes) = vec![in alloc; 0; len as usize] else {
        return Vec::new(alloc);
    };
    let _ = device.read_at(0, &mut bytes);
    bytes
}

// A device with these bytes, synced.
fn device_with(alloc: Global, bytes: &[u8]) -> Option<MemDevice> {
    let mut device = MemDevice::new(alloc).ok()?;
    if bytes.len() < LONGEST && device.write_at(0, bytes).is_ok() && device.sync().is_ok() {
        return Some(device);
    }
    drop(device);
    None
}

fn crash(device: &mut MemDevice, left: Left) {
    match left {
        Left::Shown => {}
        Left::Crashed(pick) => device.crash(pick),
    }
}

/// A new vault in two new files.
pub fn new_vault(alloc: Global, life: u64) -> Option<Vault<MemDevice>> {
    let Files { first, second } = Files::with(alloc, &[], &[])?;
    match Vault::create(alloc, first, second, life) {
        Ok(vault) => Some(vault),
        Err(refused) => {
            drop(refused);
            None
        }
    }
}

impl Files {
    /// Two files with these bytes, synced. None if out of memory.
    pub fn with(alloc: Global, first: &[u8], second: &[u8]) -> Option<Files> {
        let first = device_with(alloc, first)?;
        match device_with(alloc, second) {
            Some(second) => Some(Files { first, second }),
            None => {
                drop(first);
                None
            }
        }
    }

    /// The devices of a vault.
    pub fn of(vault: Vault<MemDevice>) -> Files {
        let (first, second) = vault.into_devices();
        Files { first, second }
    }

    /// The report on them. None if a device call failed, or out of memory.
    pub fn report(&mut self, alloc: Global) -> Option<Report> {
        inspect(alloc, &mut self.first, &mut self.second).ok()
    }

    /// Makes the nth device call of a file from now fail; 0 makes none fail.
    pub fn fail_at(&mut self, which: File, call: u64) {
        match which {
            File::First => self.first.fail_at(call),
            File::Second => self.second.fail_at(call),
        }
    }

    /// The machine crashes and leaves this of each file, or the devices are handed back. No device call fails any more.
    pub fn crash(&mut self, first: Left, second: Left) {
        self.first.fail_at(0);
        self.second.fail_at(0);
        crash(&mut self.first, first);
        crash(&mut self.second, second);
    }

    /// The bytes of both.
    pub fn bytes(&mut self, alloc: Global) -> Bytes {
        let first = bytes_of(alloc, &mut self.first);
        let second = bytes_of(alloc, &mut self.second);
        Bytes { first, second }
    }

    /// The book that they open as, or why they don't, and the files.
    pub fn read(self, alloc: Global) -> (Result<Book, OpenError>, Files) {
        let Files { first, second } = self;
        match Store::open(alloc, first, second) {
            Ok((store, book)) => {
                let (first, second) = store.into_devices();
                (Ok(book), Files { first, second })
            }
            Err(Refused { why, first, second }) => (Err(why), Files { first, second }),
        }
    }

    /// The vault of a life that they open as, or why they don't, and the files.
    pub fn open(self, alloc: Global, life: u64) -> Result<Vault<MemDevice>, (OpenError, Files)> {
        let Files { first, second } = self;
        match Vault::open(alloc, first, second, life) {
            Ok(vault) => Ok(vault),
            Err(Refused { why, first, second }) => Err((why, Files { first, second })),
        }
    }
}
