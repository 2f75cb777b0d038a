//! What `check` reports about two files.

ghost use Rattle.std.specs.Prelude.{◌≡◌, ◌<◌, ◌^◌};

use crate::checking::Reading;
use crate::failure::Failure;
use crate::standard::{buffered_output, print_line};
use crate::teller::Teller;
use serde::Serialize;
use std::alloc::{AllocError, Global};
use std::io::{self, Write};
use vault_inspector::{Figures, FileState, Limit};
use vault_store::{File, FileVersion};

/// What was found in two files: a reading of them, if they could be read, and why no server starts, if none does.
#[derive(Drop)]
pub(crate) struct Finding {
    pub(crate) reading: Option<Reading>,
    pub(crate) failure: Option<Failure>,
    /// The file that the failure is about, if it is about one.
    pub(crate) file: Option<File>,
}

/// A limit, as JSON has it.
#[derive(Drop, Serialize)]
struct Full {
    name: &'static str,
    used: u64,
    limit: u64,
    per_cent: u64,
}

/// The report, with the fields of its JSON.
#[derive(Drop, Serialize)]
struct Told<'a> {
    served: bool,
    reason: Option<String>,
    file: Option<&'a str>,
    path: Option<&'a str>,
    offset: Option<u64>,
    advice: Option<&'a str>,
    generation: Option<u64>,
    version: Option<u64>,
    frames: Option<u64>,
    journal: Option<u64>,
    snapshot: Option<u64>,
    places: Option<u64>,
    versions: Option<u64>,
    claims: Option<u64>,
    held: Option<u64>,
    waiting: Option<u64>,
    drafts: Option<u64>,
    weight: Option<u64>,
    limits: Vec<Full>,
}

/// What is known of the active file.
#[derive(Clone, Copy)]
struct Active {
    generation: u64,
    version: u64,
    frames: u64,
    snapshot: u64,
    journal: u64,
}

/// What a person does next: the section of OPERATING that says it.
fn advice_of(failure: Failure) -> &'static str {
    match failure {
        Failure::FirstDamaged(_) | Failure::SecondDamaged(_) => {
            "docs/OPERATING.md, 'A damaged file': copy both files away first"
        }
        Failure::NoVault => {
            "docs/OPERATING.md, 'Statuses and messages': a create was stopped, these aren't a vault's files, or first bytes are damaged"
        }
        Failure::TwoVaults => {
            "docs/OPERATING.md, 'Files of two vaults': give each vault its own two files"
        }
        Failure::InUse => "a server writes to these files: check again, or a copy of both",
        _ => "docs/OPERATING.md, 'Statuses and messages'",
    }
}

/// The offset of damage.
fn offset_of(failure: Failure) -> Option<u64> {
    match failure {
        Failure::FirstDamaged(offset) | Failure::SecondDamaged(offset) => Some(offset),
        _ => None,
    }
}

/// What is known of a file, if it is the active one. After a header of 24 bytes come the snapshot and the journal.
fn active_in(state: FileState, snapshot: Option<u32>) -> Option<Active> {
    let FileState::Open {
        generation,
        frames,
        tail,
        version,
    } = state
    else {
        return None;
    };
    let snapshot = u64::from(snapshot.unwrap_or(0));
    Some(Active {
        generation,
        version: match version {
            FileVersion::One => 1,
            FileVersion::Two => 2,
        },
        frames,
        snapshot,
        journal: tail.saturating_sub(24).saturating_sub(snapshot),
    })
}

/// What is known of the active one of two files.
fn active_of(finding: &Finding) -> Option<Active> {
    let reading = finding.reading.as_ref()?;
    active_in(reading.report.first, reading.snapshot).or(active_in(
        reading.report.second,
        reading.snapshot,
    ))
}

/// The figures of the vault that was found.
fn figures_of(finding: &Finding) -> Result<Option<Figures>, Failure> {
    let Some(reading) = &finding.reading else {
        return Ok(None);
    };
    match &reading.report.book {
        Some(book) => Ok(Some(vault_inspector::figures_of(book).or(Err(Failure::NoMemory))?)),
        None => Ok(None),
    }
}

/// A count, as a number of JSON. A count that doesn't fit becomes the greatest number; no vault has one.
fn in_number(count: u128) -> u64
    ensures { count < 2 ^ 64 → result ≡ count }
{
    if count < 1 << 64 {
        count as u64
    } else {
        u64::MAX
    }
}

/// A limit, as JSON has it.
fn in_json(limit: Limit) -> Full {
    Full {
        name: limit.limited.name(),
        used: limit.used,
        limit: limit.limit,
        per_cent: limit.per_cent,
    }
}

/// The limits of a vault.
fn limits_of(alloc: Global, figures: Option<Figures>) -> Result<Vec<Full>, AllocError> {
    let mut limits = Vec::new(alloc);
    if let Some(figures) = figures {
        for limit in figures.limits() {
            limits.push(in_json(limit))?;
        }
    }
    Ok(limits)
}

/// The words of a failure.
fn words_of(alloc: Global, failure: Option<Failure>) -> Result<Option<String>, AllocError> {
    match failure {
        Some(failure) => Ok(Some(format!(in alloc; "{failure}")?)),
        None => Ok(None),
    }
}

/// The letter of a file and its path.
fn named<'a>(file: Option<File>, paths: (&'a str, &'a str)) -> (Option<&'a str>, Option<&'a str>) {
    match file {
        Some(File::First) => (Some("a"), Some(paths.0)),
        Some(File::Second) => (Some("b"), Some(paths.1)),
        None => (None, None),
    }
}

/// The report, as one object of JSON.
fn json_of(alloc: Global, finding: &Finding, paths: (&str, &str)) -> Result<String, Failure> {
    let active = active_of(finding);
    let figures = figures_of(finding)?;
    let (file, path) = named(finding.file, paths);
    let told = Told {
        served: finding.failure.is_none(),
        reason: words_of(alloc, finding.failure)?,
        file,
        path,
        offset: finding.failure.and_then(offset_of),
        advice: finding.failure.map(advice_of),
        generation: active.map(|active| active.generation),
        version: active.map(|active| active.version),
        frames: active.map(|active| active.frames),
        journal: active.map(|active| active.journal),
        snapshot: active.map(|active| active.snapshot),
        places: figures.map(|figures| figures.places as u64),
        versions: figures.map(|figures| figures.versions as u64),
        claims: figures.map(|figures| figures.claims as u64),
        held: figures.map(|figures| figures.held as u64),
        waiting: figures.map(|figures| figures.waiting as u64),
        drafts: figures.map(|figures| in_number(figures.drafts)),
        weight: figures.map(|figures| figures.weight as u64),
        limits: limits_of(alloc, figures)?,
    };
    serde_json::to_string(alloc, &told).or(Err(Failure::NoMemory))
}

/// Writes what each file is.
fn write_files<W: Write>(writer: &mut W, reading: &Reading, paths: (&str, &str)) -> io::Result<()> {
    let (a, b) = paths;
    writeln!(writer, "file a, {a}, {}.", reading.report.first)?;
    writeln!(writer, "file b, {b}, {}.", reading.report.second)
}

/// Writes whether a server starts. If not, also why, and what to do.
fn write_verdict<W: Write>(
    writer: &mut W,
    failure: Option<Failure>,
    path: Option<&str>,
) -> io::Result<()> {
    let Some(failure) = failure else {
        return writeln!(writer, "A server starts over these files.");
    };
    match path {
        Some(path) => writeln!(
            writer,
            "No server starts over these files: {failure} ({path})."
        )?,
        None => writeln!(writer, "No server starts over these files: {failure}.")?,
    }
    writeln!(writer, "What to do: {}.", advice_of(failure))
}

/// Writes how long the parts of the active file are.
fn write_active<W: Write>(writer: &mut W, active: Active) -> io::Result<()> {
    let Active {
        version,
        snapshot,
        journal,
        ..
    } = active;
    writeln!(
        writer,
        "The active file has version {version}, a snapshot of {snapshot} bytes and a journal of {journal}."
    )
}

/// Writes how full the vault is.
fn write_figures<W: Write>(writer: &mut W, figures: Figures) -> io::Result<()> {
    let Figures {
        places,
        versions,
        claims,
        held,
        waiting,
        drafts,
        ..
    } = figures;
    writeln!(
        writer,
        "The vault has {places} places, {versions} versions, {claims} claims and {drafts} drafts."
    )?;
    writeln!(writer, "Of the claims {held} are held, and {waiting} wait.")?;
    for limit in figures.limits() {
        writeln!(writer, "  {limit}")?;
    }
    Ok(())
}

/// Writes the report in sentences.
fn write_told<W: Write>(
    writer: &mut W,
    finding: &Finding,
    figures: Option<Figures>,
    paths: (&str, &str),
) -> io::Result<()> {
    if let Some(reading) = &finding.reading {
        write_files(writer, reading, paths)?;
    }
    write_verdict(writer, finding.failure, named(finding.file, paths).1)?;
    if let Some(active) = active_of(finding) {
        write_active(writer, active)?;
    }
    if let Some(figures) = figures {
        write_figures(writer, figures)?;
    }
    writer.flush()
}

/// Prints what was found on standard output: in sentences, or as one object of JSON.
pub(crate) fn tell(
    rt: &HostRuntime,
    teller: &Teller<'_, HostRuntime>,
    finding: &Finding,
    paths: (&str, &str),
    json: bool,
) -> Result<(), Failure> {
    if json {
        let text = json_of(rt.alloc(), finding, paths)?;
        return print_line(rt, teller, text);
    }
    let figures = figures_of(finding)?;
    let mut writer = buffered_output(rt, teller)?;
    write_told(&mut writer, finding, figures, paths).or(Err(Failure::Write))
}
