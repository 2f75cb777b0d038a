//! New vaults to begin with.

use group_commit::Vault;
use std::alloc::Global;
use test_memory::Refusing;
use vault_device::MemDevice;

/// A vault whose memory may be refused.
pub type Begun<'a> = Vault<MemDevice, &'a Refusing<Global>>;

/// How many device calls make a new vault: on the first file, and on the second.
pub const CREATION: u64 = 8;

pub const CREATION_BESIDE: u64 = 2;

/// A new vault. The nth device call after its creation is to fail, none at 0. None where memory is refused.
pub fn created<'a>(
    global: Global,
    memory: &'a Refusing<Global>,
    failing: u64,
) -> Option<Begun<'a>> {
    let mut first = MemDevice::new(global).ok()?;
    let second = MemDevice::new(global).ok()?;
    if failing > 0 {
        first.fail_at(failing.saturating_add(CREATION));
    }
    match Vault::create(memory, first, second, 1) {
        Ok(vault) => Some(vault),
        Err(refused) => {
            drop(refused);
            None
        }
    }
}
