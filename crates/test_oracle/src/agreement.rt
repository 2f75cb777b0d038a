//! What opening and inspecting must agree on.

use crate::books::are_alike;
use crate::counts::Met;
use crate::files::Files;
use crate::plain::stand;
use crate::verdict::Verdict;
use group_commit::{File, OpenError};
use std::alloc::Global;
use vault_checkout::Book;
use vault_inspector::{FileState, Report};

// A fault at this offset or beyond lies behind a file's head.
const BEHIND_HEAD: u64 = 20;

// Where a file is damaged, if it is, and what opening answers then.
fn fault_at(file: File, state: FileState) -> Option<(u64, OpenError)> {
    match state {
        FileState::Damaged { offset } => Some((offset, OpenError::Damaged { file, offset })),
        _ => None,
    }
}

// What opening must answer, by what is reported of the files: faults in heads come first, and each time the first file before the second.
fn fault_in(first: FileState, second: FileState) -> Option<OpenError> {
    match (fault_at(File::First, first), fault_at(File::Second, second)) {
        (Some((offset, why)), _) if offset < BEHIND_HEAD => Some(why),
        (_, Some((offset, why))) if offset < BEHIND_HEAD => Some(why),
        (Some((_, why)), _) | (None, Some((_, why))) => Some(why),
        (None, None) if first == FileState::Closed && second == FileState::Closed => {
            Some(OpenError::NoVault)
        }
        (None, None) => None,
    }
}

// Whether the opened book is the reported one, and each claim stands by the rules of the queue.
fn is_reported_book(report: &Report, book: &Book) -> bool {
    match &report.book {
        Some(other) => are_alike(book, other) && stand(book),
        None => false,
    }
}

// Whether opening answers what follows from the report.
fn is_reported(report: &Report, read: &Result<Book, OpenError>) -> bool {
    let fault = fault_in(report.first, report.second);
    match read {
        Ok(book) => fault.is_none() && is_reported_book(report, book),
        Err(why) => report.book.is_none() && fault == Some(*why),
    }
}

// Why there is no book, if there is none.
fn why_not(read: &Result<Book, OpenError>) -> Option<OpenError> {
    match read {
        Ok(_) => None,
        Err(why) => Some(*why),
    }
}

// What kind of answer opening gave.
fn met(why: Option<OpenError>) -> Met {
    match why {
        None => Met::Opened,
        Some(OpenError::NoVault) => Met::NoVault,
        Some(_) => Met::Damaged,
    }
}

// Whether files with these bytes open as they are reported, and the answer.
fn compared(alloc: Global, files: Files, report: &Report) -> (bool, Option<OpenError>) {
    let (read, files) = files.read(alloc);
    drop(files);
    let agreed = is_reported(report, &read);
    let why = why_not(&read);
    drop(read);
    (agreed, why)
}

/// Opening and inspecting must agree on files with these bytes. Gives why they don't open, if they don't.
pub fn agree(
    verdict: &mut Verdict,
    alloc: Global,
    first: &[u8],
    second: &[u8],
) -> Option<OpenError> {
    let Some(mut files) = Files::with(alloc, first, second) else {
        verdict.sure(false, "files in memory can't be made");
        return None;
    };
    let Some(report) = files.report(alloc) else {
        verdict.sure(false, "files in memory can't be inspected");
        drop(files);
        return None;
    };
    let (agreed, why) = compared(alloc, files, &report);
    drop(report);
    verdict.counts.up(met(why));
    verdict.sure(agreed, "opening and inspecting disagree");
    why
}
