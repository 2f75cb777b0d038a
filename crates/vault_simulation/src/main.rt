//! A simulation: it treats a vault over two devices in memory badly, and compares it with its definitions at each call.
//!
//! Promises: nothing; it is safe, and it ends. What it finds is tested, and not proved: it looks at the vault from outside, as a
//! client that keeps its own list of all commands.
//! Stands on: vault_model, vault_device, design_tree, part_versions, long_locks, vault_checkout, group_commit, vault_lines,
//! test_oracle. Must not know: how any of these keeps what it keeps.
//! Only tested: that it prints the file stdout, for the words in the file args.
//! Start at: docs/SIMULATION.md; run.rt, speech.rt, stopping.rt, tearing.rt and spoiling.rt (random runs); long_run.rt and
//! stops.rt; files.rt; limits.rt.
#![tactic(auto)]

mod beginning;
mod dice;
mod files;
mod limits;
mod line;
mod long_run;
mod mood;
mod reporting;
mod run;
mod speakers;
mod speech;
mod spoiling;
mod stopping;
mod stops;
mod tearing;

use crate::limits::{LIMITS, Limit, NUMBERS};
use crate::reporting::{Runs, report_all_stops, report_files, report_limits, report_random};
use std::process::ExitCode;
use std::{env, io};

/// The status if a difference is found, or nothing is asked for.
const FAULT: u8 = 1;

/// What the program can be asked for: its help.
const HELP: &str = "\
usage: vault_simulation random [SEED [RUNS [COMMANDS]]]   random runs, with the seeds from SEED on (1, 40, 300)
       vault_simulation stops     one run, stopped inside each device call
       vault_simulation files     files that are cut or changed
       vault_simulation limits    limits that calls reach
       vault_simulation numbers [sessions | holds | check-outs]   all 4294967295 numbers of each: hours
       vault_simulation all       all but the numbers";

/// The number that a word spells. If there is no word, or it is no number: `otherwise`.
fn number_at(words: &[String], place: usize, otherwise: u32) -> u32 {
    match words.get(place) {
        Some(word) => word.as_str().parse::<u32>().unwrap_or(otherwise),
        None => otherwise,
    }
}

fn runs_in(words: &[String], prints: bool) -> Runs {
    Runs {
        seed: u64::from(number_at(words, 2, 1)),
        runs: u64::from(number_at(words, 3, 40)),
        commands: number_at(words, 4, 300),
        prints,
    }
}

/// All parts but the numbers.
fn report_all(rt: &HostRuntime, runs: Runs) -> io::Result<bool> {
    let stops = report_all_stops(rt, rt.alloc())?;
    let files = report_files(rt, rt.alloc())?;
    let limits = report_limits(rt, rt.alloc(), &LIMITS)?;
    let random = report_random(rt, rt.alloc(), runs)?;
    Ok(stops && files && limits && random)
}

/// A word of the command line; empty if there is none.
fn word_at(words: &[String], place: usize) -> &str {
    match words.get(place) {
        Some(word) => word.as_str(),
        None => "",
    }
}

/// All numbers, or those of one kind.
fn report_numbers(rt: &HostRuntime, kind: &str) -> io::Result<bool> {
    match kind {
        "sessions" => report_limits(rt, rt.alloc(), &[Limit::EachSession]),
        "holds" => report_limits(rt, rt.alloc(), &[Limit::EachHold]),
        "check-outs" => report_limits(rt, rt.alloc(), &[Limit::EachCheckOut]),
        _ => report_limits(rt, rt.alloc(), &NUMBERS),
    }
}

/// Prints the help.
fn help(rt: &HostRuntime) -> io::Result<bool> {
    println!(rt; "{HELP}")?;
    Ok(false)
}

/// Runs and reports what is asked for: whether no difference is found.
fn report(rt: &HostRuntime, words: &[String]) -> io::Result<bool> {
    match word_at(words, 1) {
        "random" => report_random(rt, rt.alloc(), runs_in(words, true)),
        "stops" => report_all_stops(rt, rt.alloc()),
        "files" => report_files(rt, rt.alloc()),
        "limits" => report_limits(rt, rt.alloc(), &LIMITS),
        "numbers" => report_numbers(rt, word_at(words, 2)),
        "all" => report_all(rt, runs_in(words, false)),
        _ => help(rt),
    }
}

/// The words of the command line, the program's own name first.
fn words(rt: &HostRuntime) -> io::Result<Vec<String>> {
    let mut words = Vec::new(rt.alloc());
    for word in env::args(rt)? {
        words.push(word)?;
    }
    Ok(words)
}

fn main(rt: HostRuntime) -> io::Result<ExitCode> {
    let words = words(&rt)?;
    if report(&rt, words.as_slice())? {
        return Ok(ExitCode::SUCCESS);
    }
    Ok(ExitCode::from(FAULT))
}
