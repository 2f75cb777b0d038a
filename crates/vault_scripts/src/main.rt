//! Runs the scripts and the rows of the folder that it is started in, and says how many of them get the answers that they should.
//!
//! A script worked out by hand is two files: `NAME.script` and what it prints, `NAME.expected`. Rows worked out by hand are lines of a
//! file `NAME.rows`: what is done to the two files of a store, step by step, and what each step answers (steps.rt). Adding a script or
//! a row costs no proof.
//!
//! Promises: nothing; it is safe. Stands on: vault_protocol; for rows vault_model, vault_device, vault_journal, design_tree,
//! part_versions, long_locks, vault_checkout, vault_store, vault_inspector.
//! Only tested: what the scripts and the rows of data/ get as answers.
//! Start at: data/, steps.rt for what a row may say, then docs/CONTRIBUTING.md for how to add one.
#![tactic(auto)]

mod bytes;
mod choices;
mod opening;
mod pair;
mod rows;
mod stage;
mod steps;
mod telling;
mod text;

use crate::pair::agrees;
use crate::rows::run_rows;
use std::{fs, io};

/// How many scripts or rows there are, and how many of them get the answers that they should.
#[derive(Clone, Copy)]
pub(crate) struct Tally {
    agreeing: u32,
    all: u32,
}

impl Tally {
    /// Counts one script or row.
    pub(crate) fn count(&mut self, agrees: bool) {
        self.agreeing = self.agreeing.saturating_add(u32::from(agrees));
        self.all = self.all.saturating_add(1);
    }
}

fn main(rt: HostRuntime) -> io::Result<()> {
    let none = Tally {
        agreeing: 0,
        all: 0,
    };
    let (mut scripts, mut rows) = (none, none);
    for entry in fs::read_dir(&rt, ".")? {
        let entry = entry?;
        let file = entry.file_name();
        if let Some(name) = file.strip_suffix(".script") {
            let agrees = agrees(&rt, name)?;
            scripts.count(agrees);
            if !agrees {
                println!(rt; "{name} prints something else")?;
            }
        } else if file.ends_with(".rows") {
            run_rows(&rt, file, &mut rows)?;
        }
    }
    println!(rt;
        "{} of {} scripts print what stands beside them",
        scripts.agreeing, scripts.all
    )?;
    println!(rt;
        "{} of {} rows answer what stands in them",
        rows.agreeing, rows.all
    )
}
