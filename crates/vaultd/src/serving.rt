//! Serving a vault over TCP.

ghost use Rattle.std.specs.Prelude.{◌<◌, ◌≤◌};

use crate::descriptors::check_limit;
use command_line::Serving;
use std::fs::File;
use std::io;
use std::net::{Net, TcpListener, TcpStream};
use std::rt::Files;
use std::sync::Wait;
use std::thread::Threads;
use std::time::{Clock, Duration};
use vault_server::{Full, Patience, ServerError, ServerOptions, run_server_on};
use vault_sessions::{Gate, Point};
use vaultd_files::{Failure, Teller};
use vaultd_tasks::{close_vault, introduce, listen, open_vault};

/// How many seconds a connection must have been silent before it is ended for another one that waits for a place.
const MIN_SILENCE: u32 = 60;

/// This number of seconds.
fn seconds(count: u32) -> Duration {
    Duration::from_secs(u64::from(count))
}

/// How many connections may wait for a claim at once: the given number, or else three quarters of the workers. The others stay free for
/// those who hold claims, so that they can connect and give them up.
fn most_waits(serving: &Serving<'_>) -> u32 {
    match serving.waits {
        Some(waits) => waits,
        None => serving.workers.clamp(1, 64) * 3 / 4,
    }
}

/// The server's options.
fn options_of(serving: &Serving<'_>) -> ServerOptions
    ensures { (0 < result.workers) × (result.workers ≤ 64) }
{
    ServerOptions {
        workers: serving.workers.clamp(1, 64) as usize,
        threads: serving.threads as usize,
        connections: serving.connections,
        patience: Patience {
            idle: serving.idle.map(seconds),
            hello: Some(seconds(serving.hello)),
            line: Some(seconds(serving.line)),
            wait: Some(seconds(serving.wait)),
        },
        waits: most_waits(serving) as usize,
        refuses_foreign: true,
        full: Some(Full {
            wait: seconds(serving.full),
            silence: seconds(MIN_SILENCE),
        }),
        per_address: serving.per_address,
    }
}

/// The failure that is reported for a server's error.
fn failure_of(error: ServerError) -> Failure {
    match error {
        ServerError::Accept => Failure::Accept,
        ServerError::NoMemory => Failure::NoMemory,
    }
}

/// Says on standard error what ends the server, as soon as it happens.
#[derive(Drop)]
struct Reporter<'a, 'p, R> {
    teller: &'a Teller<'p, R>,
    address: &'p str,
}

impl<R: Eprint> Gate for Reporter<'_, '_, R> {
    fn at(&self, _point: Point) {}

    fn accepts_no_more(&self, why: io::Error) {
        self.teller.accepts_no_more(self.address, why);
    }
}

/// The failure that is reported for a server that ended because its vault broke.
fn broken<R: Eprint>(teller: &Teller<'_, R>) -> Failure {
    if teller.has_broken() {
        Failure::Broken
    } else {
        Failure::Device
    }
}

/// Opens the vault, binds the address, says so on standard output, and serves until it has served the given number of connections. If a
/// file fails meanwhile, that is said at once.
pub(crate) fn serve<
    'p,
    R: Files<File = File>
        + Print
        + Eprint
        + AllocGlobal
        + Net<Listener = TcpListener, Stream = TcpStream>
        + Threads
        + Wait
        + Clock
        + Sync,
>(rt: &R, teller: &Teller<'p, R>, serving: &Serving<'p>) -> Result<(), Failure> {
    check_limit(serving.workers)?;
    let (vault, survey) = open_vault(rt, teller, serving)?;
    let listener = match listen(rt, teller, serving) {
        Ok(listener) => listener,
        Err(failure) => {
            close_vault(vault);
            return Err(failure);
        }
    };
    introduce(rt, serving, &listener, survey);
    let options = options_of(serving);
    let reporter = Reporter {
        teller,
        address: serving.address,
    };
    teller.begin_serving();
    let served = run_server_on(rt, rt.alloc(), listener, vault, &options, &reporter);
    let (vault, _, _) = served.map_err(failure_of)?;
    let is_broken = vault.is_broken();
    close_vault(vault);
    if is_broken {
        return Err(broken(teller));
    }
    Ok(())
}
