//! The parts of the simulation, each run and reported.

use crate::files::{judge_bytes, judge_changes, judge_cuts};
use crate::limits::Limit;
use crate::long_run::Start;
use crate::run::Run;
use crate::stops::{Covered, judge_calls};
use group_commit::File;
use std::alloc::Global;
use std::io;
use test_oracle::{COUNTED, Counts, Verdict};

/// A number of random runs, of a number of commands each, with the seeds from this one on.
#[derive(Clone, Copy)]
pub(crate) struct Runs {
    pub(crate) seed: u64,
    pub(crate) runs: u64,
    pub(crate) commands: u32,
    /// Whether what was covered is printed.
    pub(crate) prints: bool,
}

/// The parts of the long run: its start, and the file whose device calls it is crashed inside.
const STOPS: [(&str, Start, File); 4] = [
    ("spare empty, file a", Start::EmptySpare, File::First),
    ("spare empty, file b", Start::EmptySpare, File::Second),
    ("spare closed, file a", Start::ClosedSpare, File::First),
    ("spare closed, file b", Start::ClosedSpare, File::Second),
];

/// Prints the difference, or that there is none. Whether there is none.
fn said(rt: &impl Print, verdict: &Verdict, words: &str) -> io::Result<bool> {
    match verdict.found {
        Some(difference) => {
            println!(rt; "{words}: {difference}")?;
            Ok(false)
        }
        None => {
            println!(rt; "{words}: no difference")?;
            Ok(true)
        }
    }
}

/// Prints what was covered.
fn print_counts(rt: &impl Print, counts: &Counts) -> io::Result<()> {
    for (tally, name) in counts.tallies().iter().zip(&COUNTED) {
        if *tally > 0 {
            println!(rt; "{tally} {name}")?;
        }
    }
    Ok(())
}

/// The outcome of runs up to the first that finds a difference: what was found and covered.
#[derive(Clone, Copy)]
struct Outcome {
    verdict: Verdict,
    /// The last run's seed, and how many commands it said.
    seed: u64,
    said: u32,
    /// How many runs were made, and how many commands they said together.
    runs: u64,
    commands: u64,
}

/// Makes the run of a seed. The outcome goes on from this one.
fn run_of(alloc: Global, seed: u64, commands: u32, before: Outcome) -> Outcome {
    let Some(mut run) = Run::new(alloc, seed, commands, before.verdict) else {
        let mut verdict = before.verdict;
        verdict.sure(false, "no judge to begin with");
        return Outcome {
            verdict,
            seed,
            said: 0,
            ..before
        };
    };
    run.lives();
    let (verdict, left) = run.close();
    let said = commands.saturating_sub(left);
    Outcome {
        verdict,
        seed,
        said,
        runs: before.runs.saturating_add(1),
        commands: before.commands.saturating_add(u64::from(said)),
    }
}

/// Makes random runs, up to the first that finds a difference.
fn outcome_of(alloc: Global, runs: Runs) -> Outcome {
    let mut outcome = Outcome {
        verdict: Verdict::new(Counts::new()),
        seed: runs.seed,
        said: 0,
        runs: 0,
        commands: 0,
    };
    for number in 0..runs.runs {
        let seed = runs.seed.wrapping_add(number);
        outcome = run_of(alloc, seed, runs.commands, outcome);
        if !outcome.verdict.is_sound() {
            return outcome;
        }
    }
    outcome
}

/// Makes and reports random runs, up to the first that finds a difference. Whether none does.
pub(crate) fn report_random(rt: &impl Print, alloc: Global, asked: Runs) -> io::Result<bool> {
    let Outcome {
        verdict,
        seed,
        said,
        runs,
        commands,
    } = outcome_of(alloc, asked);
    if let Some(difference) = verdict.found {
        println!(rt; "seed {seed}, command {said}: {difference}")?;
        return Ok(false);
    }
    if asked.prints {
        print_counts(rt, &verdict.counts)?;
    }
    let first = asked.seed;
    println!(rt;
        "random: {runs} runs with {commands} commands, from seed {first} on: no difference"
    )?;
    Ok(true)
}

fn print_covered(rt: &impl Print, words: &str, covered: &Covered) -> io::Result<()> {
    let Covered {
        calls,
        pairs,
        sealed,
        told,
    } = *covered;
    println!(rt;
        "{words}: stopped inside {calls} device calls, {pairs} pairs opened, \
         {sealed} of them as the sealed prefix, with {told} told commands"
    )
}

/// Reports the long run from one start, crashed inside each device call of one file.
fn report_stops(
    rt: &impl Print,
    alloc: Global,
    words: &str,
    start: Start,
    which: File,
) -> io::Result<bool> {
    let mut verdict = Verdict::new(Counts::new());
    let covered = judge_calls(&mut verdict, alloc, start, which);
    print_covered(rt, words, &covered)?;
    said(rt, &verdict, words)
}

/// Reports the long run from both starts, crashed inside each device call. Whether there is no difference.
pub(crate) fn report_all_stops(rt: &impl Print, alloc: Global) -> io::Result<bool> {
    let mut sound = true;
    for (words, start, which) in STOPS {
        sound = report_stops(rt, alloc, words, start, which)? && sound;
    }
    Ok(sound)
}

/// Reports on files that are cut or changed. Whether each fault is reported as it must be.
pub(crate) fn report_files(rt: &impl Print, alloc: Global) -> io::Result<bool> {
    let mut verdict = Verdict::new(Counts::new());
    judge_cuts(&mut verdict, alloc);
    judge_changes(&mut verdict, alloc);
    judge_bytes(&mut verdict, alloc);
    said(rt, &verdict, "files cut, and changed in one field or byte")
}

/// Reaches each limit. Whether what passes it is refused.
pub(crate) fn report_limits(rt: &impl Print, alloc: Global, limits: &[Limit]) -> io::Result<bool> {
    let mut sound = true;
    for limit in limits {
        let mut verdict = Verdict::new(Counts::new());
        limit.judge(&mut verdict, alloc);
        sound = said(rt, &verdict, limit.words())? && sound;
    }
    Ok(sound)
}
