//! How many descriptors the program may have, and needs.

use libc::types::rlimit;
use vaultd_files::Failure;

/// How many descriptors the program has open beside the connections that are served: the standard streams, the files that stand in for
/// them, the vault's two files, the listener, those by which two threads and the door wait and are woken, and one for a connection that
/// waits for a place: without it nobody could be told that there is none.
const BESIDE: u64 = 16;

/// How many descriptors a server needs: one for each worker's connection, and `BESIDE`.
pub(crate) fn needed(workers: u32) -> u64 {
    u64::from(workers) + BESIDE
}

/// How many descriptors the system lets the program have, where it says so.
fn limit() -> Option<u64> {
    let mut limit = rlimit {
        rlim_cur: 0,
        rlim_max: 0,
    };
    (libc::getrlimit(libc::RLIMIT_NOFILE, &mut limit) == 0).then_some(limit.rlim_cur)
}

/// Refuses this number of workers if they need more descriptors than the limit.
pub(crate) fn check(workers: u32, limit: u64) -> Result<(), Failure> {
    let needed = needed(workers);
    if needed <= limit {
        Ok(())
    } else {
        Err(Failure::Descriptors { needed, limit })
    }
}

/// Refuses this number of workers if they need more descriptors than the system allows.
pub(crate) fn check_limit(workers: u32) -> Result<(), Failure> {
    limit().map_or(Ok(()), |limit| check(workers, limit))
}
