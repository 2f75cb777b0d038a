//! The answers of steps, in words.

use crate::text::Text;
use std::alloc::Global;
use std::ops::Range;
use vault_checkout::Book;
use vault_device::{Device, Fault, MemDevice};
use vault_inspector::{Report, inspect, print};
use vault_model::{Claim, ClaimId, Owner, PlaceId};
use vault_store::{Body, BodyError, Head, OpenError, Store, read_body};

/// Tells the answer if a file holds these bytes, else what it holds. Says whether it could be read.
pub(crate) fn tell_bytes(
    told: &mut Text,
    alloc: Global,
    device: &mut MemDevice,
    bytes: &[u8],
    answer: &str,
) -> bool {
    let Ok(len) = device.len() else {
        return false;
    };
    let Ok(mut shown) = vec![in alloc; 0; len as usize] else {
        return false;
    };
    let is_read = device.read_at(0, &mut shown).is_ok();
    if shown.as_slice() == bytes {
        told.put(answer);
    } else {
        told.put_digits(&shown);
    }
    is_read
}

fn tell_damage(told: &mut Text, offset: u64) {
    told.put("damaged at ");
    told.put_value(&offset, "");
}

/// Tells what the head of a file is, if it was read.
pub(crate) fn tell_head(told: &mut Text, head: Result<Head, Fault>) -> bool {
    match head {
        Ok(Head::Closed) => told.put("closed"),
        Ok(
            Head::Open {
                version,
                generation,
            },
        ) => {
            told.put("version ");
            told.put_value(&version, ", generation ");
            told.put_value(&generation, "");
        }
        Ok(Head::Damaged(offset)) => tell_damage(told, offset),
        Err(_) => return false,
    }
    true
}

/// Tells why two files weren't opened.
pub(crate) fn tell_not_opened(told: &mut Text, why: OpenError) {
    match why {
        OpenError::Damaged { file, offset } => {
            told.put_value(&file, " ");
            tell_damage(told, offset);
        }
        _ => told.put_value(&why, ""),
    }
}

/// Tells what was opened.
pub(crate) fn tell_opened(told: &mut Text, store: &Store<MemDevice>, book: &Book) {
    told.put("version ");
    told.put_value(&store.version(), ", frames ");
    told.put_value(&store.journal_len(), ", ");
    if store.wants_snapshot() {
        told.put("wants a snapshot, ");
    }
    tell_book(told, book);
}

/// Tells what the first file holds after its head, if it was read.
pub(crate) fn tell_body(told: &mut Text, alloc: Global, device: &mut MemDevice) -> bool {
    match read_body(alloc, device) {
        Ok(Body::Whole(book, frames, end)) => {
            told.put("frames ");
            told.put_value(&frames, ", tail ");
            told.put_value(&end, ", ");
            tell_book(told, &book);
            tell_contents(told, &book);
            drop(book);
            true
        }
        Ok(Body::Damaged(offset)) => {
            tell_damage(told, offset);
            true
        }
        Err(_) => false,
    }
}

// Tells how many places and versions there are, the last number of a check-out, and the claims.
fn tell_book(told: &mut Text, book: &Book) {
    let mut versions = 0u64;
    for place in places(book) {
        versions = versions.saturating_add(u64::from(book.shelf().count(PlaceId(place))));
    }
    told.put("places ");
    told.put_value(&book.tree().len(), ", versions ");
    told.put_value(&versions, ", last c");
    told.put_value(&book.line().last_long(), "");
    for at in 0..book.line().len() {
        if let Some(claim) = book.line().at(at) {
            tell_claim(told, book, claim);
        }
    }
}

fn places(book: &Book) -> Range<u32> {
    0..u32::try_from(book.tree().len()).unwrap_or(0)
}

fn tell_claim(told: &mut Text, book: &Book, claim: &Claim) {
    match claim.id {
        ClaimId::Long(number) => {
            told.put(", c");
            told.put_value(&number, " ");
        }
        ClaimId::Short(number) => {
            told.put(", h");
            told.put_value(&number, " ");
        }
    }
    match claim.owner {
        Owner::Designer(name) => told.put_name(name.as_bytes()),
        Owner::Session(number) => told.put_value(&number, ""),
    }
    told.put(" ");
    if let Some(standing) = book.line().standing(claim.id) {
        told.put_value(&standing, "");
    }
    if !claim.note.as_bytes().is_empty() {
        told.put(" note ");
        told.put_content(claim.note.as_bytes());
    }
}

// Tells the versions and the drafts.
fn tell_contents(told: &mut Text, book: &Book) {
    for place in places(book) {
        tell_versions(told, book, PlaceId(place));
    }
    for at in 0..book.line().len() {
        if let Some(claim) = book.line().at(at) {
            tell_drafts(told, book, claim.id);
        }
    }
}

fn tell_drafts(told: &mut Text, book: &Book, id: ClaimId) {
    let ClaimId::Long(number) = id else {
        return;
    };
    for draft in book.drafts(number) {
        told.put(", c");
        told.put_value(&number, " drafts ");
        told.put_value(&draft.place.number(), ": ");
        told.put_content(draft.content.as_slice());
    }
}

fn tell_versions(told: &mut Text, book: &Book, place: PlaceId) {
    for version in 1..=book.shelf().count(place) {
        told.put(", version ");
        told.put_value(&version, " of ");
        told.put_value(&place.number(), ": ");
        told.put_content(book.shelf().fetch(place, version).unwrap_or(&[]));
    }
}

/// Tells whether two files are of two vaults, or why that isn't known.
pub(crate) fn tell_vaults(told: &mut Text, are_two: Result<bool, BodyError>) {
    match are_two {
        Ok(true) => told.put("two"),
        Ok(false) => told.put("one"),
        Err(why) => told.put_value(&why, ""),
    }
}

/// Tells a report on two files, with ` / ` between its lines, or why there is none.
pub(crate) fn tell_inspection(
    told: &mut Text,
    alloc: Global,
    first: &mut MemDevice,
    second: &mut MemDevice,
) -> bool {
    match inspect(alloc, first, second) {
        Ok(report) => {
            let is_told = tell_report(told, alloc, &report).is_some();
            drop(report);
            is_told
        }
        Err(why) => {
            told.put_value(&why, "");
            true
        }
    }
}

fn tell_report(told: &mut Text, alloc: Global, report: &Report) -> Option<()> {
    let mut printed = Vec::new(alloc);
    print(report, &mut printed).ok()?;
    let text = std::str::from_utf8(&printed).ok()?;
    for (at, line) in text.lines().enumerate() {
        if at > 0 {
            told.put(" / ");
        }
        told.put(line);
    }
    Some(())
}
