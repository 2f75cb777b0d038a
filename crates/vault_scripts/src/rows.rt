//! A file of rows, line by line.

use crate::Tally;
use crate::bytes::Names;
use crate::choices::put_chosen;
use crate::stage::Stage;
use crate::text::Text;
use std::alloc::Global;
use std::{fs, io};

/// The most runs of one row.
const MAX_RUNS: u64 = 1000;

/// Runs the rows of a file, and prints those that answer something other than they must.
pub(crate) fn run_rows(rt: &HostRuntime, file: &str, tally: &mut Tally) -> io::Result<()> {
    let text = fs::read_to_string(rt, file)?;
    run_lines(rt, file, text.as_str(), tally)
}

fn run_lines(rt: &HostRuntime, file: &str, text: &str, tally: &mut Tally) -> io::Result<()> {
    let alloc = rt.alloc();
    let mut names = Names::new(alloc);
    let (mut start, mut told) = (Text::new(alloc), Text::new(alloc));
    for (at, line) in text.lines().enumerate() {
        if let Some(steps) = line.strip_prefix("start:") {
            start.clear();
            start.put(steps.trim());
        } else if !line.is_empty() && !line.starts_with('#') && !names.define(alloc, line) {
            let agrees = runs_agree(alloc, &names, (start.as_str(), line), &mut told);
            tally.count(agrees);
            if !agrees {
                let number = at.saturating_add(1);
                println!(rt; "{file}:{number}: {}", told.as_str())?;
            }
        }
    }
    Ok(())
}

/// Makes each run of a row, after the file's `start`. Whether all agree; if not, `told` says what doesn't.
fn runs_agree(alloc: Global, names: &Names, row: (&str, &str), told: &mut Text) -> bool {
    for run in 0..MAX_RUNS {
        match runs_with(alloc, names, row, run, told) {
            Some(runs) if run + 1 < runs => {}
            Some(_) => return true,
            None => return false,
        }
    }
    false
}

/// Makes the run of this number. If it agrees: how many runs the row has.
fn runs_with(
    alloc: Global,
    names: &Names,
    (start, row): (&str, &str),
    run: u64,
    told: &mut Text,
) -> Option<u64> {
    let mut steps = Text::new(alloc);
    if !start.is_empty() {
        steps.put(start);
        steps.put("; ");
    }
    told.clear();
    told.put("a choice that can't be read");
    let runs = put_chosen(row, run, &mut steps)?;
    if steps_agree(alloc, names, steps.as_str(), told) {
        Some(runs)
    } else {
        None
    }
}

/// Makes steps over two empty files. Whether each answers what it must; if not, `told` says what the first wrong one answers.
fn steps_agree(alloc: Global, names: &Names, steps: &str, told: &mut Text) -> bool {
    let Some(mut stage) = Stage::new(alloc) else {
        return false;
    };
    for step in steps.split(';') {
        told.clear();
        let (next, agrees) = stage.step(alloc, names, step.trim(), told);
        stage = next;
        if !agrees {
            told.put(" is what answers `");
            told.put(step.trim());
            told.put("`");
            drop(stage);
            return false;
        }
    }
    drop(stage);
    true
}
