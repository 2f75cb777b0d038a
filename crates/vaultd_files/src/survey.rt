//! What a server says about its vault, if it is asked to say more.

use crate::files::WatchedDevice;
use crate::teller::Teller;
use std::alloc::Global;
use std::fmt::{self, Display, Formatter};
use vault_inspector::{FileState, Report, figures_of, inspect};

/// How a vault stood when its server began.
#[derive(Clone, Copy)]
pub struct Survey {
    generation: u64,
    places: usize,
    versions: usize,
    claims: usize,
}

impl Display for Survey {
    fn fmt<W: fmt::Write>(&self, f: &mut Formatter<W>) -> fmt::Result {
        let Survey {
            generation,
            places,
            versions,
            claims,
        } = *self;
        write!(
            f,
            "generation {generation}, {places} places, {versions} versions, {claims} claims"
        )
    }
}

/// The generation of the active file, if there is one.
fn generation_of(report: &Report) -> Option<u64> {
    match (report.first, report.second) {
        (FileState::Open { generation, .. }, _) => Some(generation),
        (_, FileState::Open { generation, .. }) => Some(generation),
        (_, _) => None,
    }
}

/// The survey of a report's vault, if it has one, and there is memory for it.
fn survey_of(report: &Report) -> Option<Survey> {
    let generation = generation_of(report)?;
    let figures = figures_of(report.book.as_ref()?).ok()?;
    Some(Survey {
        generation,
        places: figures.places,
        versions: figures.versions,
        claims: figures.claims,
    })
}

/// The survey of the vault in two files, if the teller is asked to say more. Both files are read for it once more than opening does. For
/// a full vault that takes under 0.1 seconds.
pub fn take_survey<'a, 'p, R: Eprint>(
    alloc: Global,
    teller: &Teller<'_, R>,
    first: &mut WatchedDevice<'a, 'p, R>,
    second: &mut WatchedDevice<'a, 'p, R>,
) -> Option<Survey> {
    if !teller.is_verbose() {
        return None;
    }
    let report = inspect(alloc, first, second).ok()?;
    let survey = survey_of(&report);
    drop(report);
    survey
}
