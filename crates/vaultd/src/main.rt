//! The program of the design vault: `create`, `serve`, `check`, `inspect` and `script`.
//!
//! Promises: it is safe and, but for `serve`, total. Each subcommand is one call of a crate beneath.
//! Stands on: command_line, vaultd_files, vaultd_tasks, vault_sessions, vault_server. Must not know: anything that a contract should say;
//! it is kept thin.
//! Only tested: the stored run of a script; and by `tools/try-program`: what the words ask for, statuses, texts and order
//! of failures, `create`, `inspect` and `serve` on real files and beside their locks, signals, closed streams, odd clients.
//! Neither: texts of help and usage; what standard input and output are.
//! Start at: `asked_of` of command_line, then the file of a subcommand in vaultd_files or vaultd_tasks; serving.rt has `serve`.
#![tactic(auto)]

mod descriptors;
mod serving;

use crate::serving::serve;
use clap::error::ErrorKind;
use command_line::{Serving, Task, asked_of};
use std::process::ExitCode;
use std::{env, io};
use vaultd_files::{Failure, Teller, check, create, inspect, take_streams};
use vaultd_tasks::script;

/// The status after a failure.
const FAULT: u8 = 1;

/// The status where the command line is refused.
const REFUSED: u8 = 2;

/// The words of the command line, the program's own name first.
fn words(rt: &HostRuntime) -> io::Result<Vec<String>> {
    let mut words = Vec::new(rt.alloc());
    for word in env::args(rt)? {
        words.push(word)?;
    }
    Ok(words)
}

/// Says in one line what went wrong, without the reason.
fn told(rt: &HostRuntime, failure: Failure) -> ExitCode {
    Teller::new(rt, false).tell(failure);
    ExitCode::from(FAULT)
}

/// Shows the help, or what is wrong with the command line.
fn shown(rt: &HostRuntime, error: &clap::Error) -> ExitCode {
    if error.kind() == ErrorKind::OutOfMemory {
        return told(rt, Failure::NoMemory);
    }
    if error.print(rt).is_err() {
        return told(rt, Failure::Write);
    }
    if error.use_stderr() {
        ExitCode::from(REFUSED)
    } else {
        ExitCode::SUCCESS
    }
}

/// Says that the command line can't be read.
fn unread(rt: &HostRuntime, error: &io::Error) -> ExitCode {
    if error.kind() == io::ErrorKind::OutOfMemory {
        return told(rt, Failure::NoMemory);
    }
    let _ = eprintln!(rt; "error: an argument is no text");
    ExitCode::from(REFUSED)
}

/// Does what is asked for. For `serve` it only returns how to serve, since a server needs threads.
fn answered<'p>(
    rt: &HostRuntime,
    teller: &Teller<'p, HostRuntime>,
    task: Task<'p>,
) -> Result<Option<Serving<'p>>, Failure> {
    match task {
        Task::Script => script(rt, teller)?,
        Task::Create(first, second) => create(rt, teller, first, second)?,
        Task::Check(first, second, json) => check(rt, teller, first, second, json)?,
        Task::Inspect(first, second) => inspect(rt, teller, first, second)?,
        Task::Serve(serving) => return Ok(Some(serving)),
    }
    Ok(None)
}

fn main(rt: HostRuntime) -> ExitCode {
    // Before anything is opened, so that no file of a vault is taken for a stream.
    let _streams = match take_streams(&rt) {
        Ok(streams) => streams,
        Err(failure) => return told(&rt, failure),
    };
    let words = match words(&rt) {
        Ok(words) => words,
        Err(error) => return unread(&rt, &error),
    };
    let asked = match asked_of(rt.alloc(), words.as_slice()) {
        Ok(asked) => asked,
        Err(error) => return shown(&rt, &error),
    };
    let teller = Teller::new(&rt, asked.verbose);
    let done = match answered(&rt, &teller, asked.task) {
        Ok(Some(serving)) => serve(&rt, &teller, &serving),
        Ok(None) => Ok(()),
        Err(failure) => Err(failure),
    };
    match done {
        Ok(()) => ExitCode::SUCCESS,
        Err(failure) => {
            teller.tell(failure);
            ExitCode::from(FAULT)
        }
    }
}
