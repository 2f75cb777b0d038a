//! Vaults that are created, or for some reason aren't, and what a crash then leaves.

use crate::inspector::holding;
use crate::vault::play::end;
use group_commit::CreateError::{Device, Exists};
use group_commit::{CreateError, Vault};
use std::alloc::Global;
use std::process::Abort;
use vault_device::{MemDevice, Pick};

/// A creation in two files.
pub(crate) struct Creation {
    pub name: &'static str,
    /// The bytes of both files.
    pub bytes: (&'static [u8], &'static [u8]),
    /// Which call of each is to fail; 0 for none. A creation makes eight of the first and two of the second.
    pub failing: (u64, u64),
    /// What the crash after it leaves of what isn't synced.
    pub pick: Pick,
    /// Why it makes no vault.
    pub why: Option<CreateError>,
    /// Whether a vault then opens.
    pub opens: bool,
}

const PLAIN: Creation = Creation {
    name: "a vault is made",
    bytes: (&[], &[]),
    failing: (0, 0),
    pick: Pick::Old,
    why: None,
    opens: true,
};

const FAILED: Creation = Creation {
    why: Some(Device),
    opens: false,
    ..PLAIN
};

const FULL: Creation = Creation {
    why: Some(Exists),
    opens: false,
    ..PLAIN
};

pub(crate) static CREATIONS: [Creation; 18] = [
    PLAIN,
    Creation {
        name: "the first file isn't empty",
        bytes: (&[0], &[]),
        ..FULL
    },
    Creation {
        name: "the second file isn't empty",
        bytes: (&[], &[0]),
        ..FULL
    },
    Creation {
        name: "neither file is empty",
        bytes: (&[0], &[7]),
        ..FULL
    },
    Creation {
        name: "the first file's sync fails",
        failing: (1, 0),
        ..FAILED
    },
    Creation {
        name: "its length can't be asked",
        failing: (2, 0),
        ..FAILED
    },
    Creation {
        name: "the second file's sync fails",
        failing: (0, 1),
        ..FAILED
    },
    Creation {
        name: "its length can't be asked, either",
        failing: (0, 2),
        ..FAILED
    },
    Creation {
        name: "the closed gate isn't written",
        failing: (3, 0),
        ..FAILED
    },
    Creation {
        name: "nor synced",
        failing: (4, 0),
        ..FAILED
    },
    Creation {
        name: "what stands behind it isn't written",
        failing: (5, 0),
        ..FAILED
    },
    Creation {
        name: "nor synced, either",
        failing: (6, 0),
        pick: Pick::New,
        ..FAILED
    },
    Creation {
        name: "the gate isn't opened",
        failing: (7, 0),
        ..FAILED
    },
    Creation {
        name: "the gate is opened, and told as a fault",
        failing: (7, 0),
        pick: Pick::New,
        opens: true,
        ..FAILED
    },
    Creation {
        name: "the open gate isn't synced, and lost",
        failing: (8, 0),
        ..FAILED
    },
    Creation {
        name: "the open gate isn't synced, and kept",
        failing: (8, 0),
        pick: Pick::New,
        opens: true,
        ..FAILED
    },
    Creation {
        name: "another call of the first file would fail",
        failing: (9, 0),
        ..PLAIN
    },
    Creation {
        name: "another call of the second file would fail",
        failing: (0, 3),
        ..PLAIN
    },
];

// Why no vault is made, and the devices.
fn made(
    alloc: Global,
    first: MemDevice,
    second: MemDevice,
) -> (Option<CreateError>, MemDevice, MemDevice) {
    match Vault::create(alloc, first, second, 1) {
        Ok(vault) => {
            let (first, second) = vault.into_devices();
            (None, first, second)
        }
        Err(refused) => (Some(refused.why), refused.first, refused.second),
    }
}

fn opens(alloc: Global, first: MemDevice, second: MemDevice) -> bool {
    match Vault::open(alloc, first, second, 2) {
        Ok(vault) => {
            end(vault);
            true
        }
        Err(refused) => {
            drop(refused);
            false
        }
    }
}

/// Why no vault is made, and whether one opens then.
pub(crate) fn created(
    rt: &impl Abort,
    alloc: Global,
    creation: &Creation,
) -> (Option<CreateError>, bool) {
    let (first, second) = creation.bytes;
    if first.len() > 100 || second.len() > 100 {
        panic!(rt; "short files");
    }
    let mut first = holding(rt, alloc, first);
    let mut second = holding(rt, alloc, second);
    first.fail_at(creation.failing.0);
    second.fail_at(creation.failing.1);
    let (why, mut first, mut second) = made(alloc, first, second);
    first.fail_at(0);
    second.fail_at(0);
    first.crash(creation.pick);
    second.crash(creation.pick);
    (why, opens(alloc, first, second))
}
