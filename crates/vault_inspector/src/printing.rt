//! Printing a report.
#![tactic(auto, using(crate::proofs::Written::part_then, crate::proofs::Written::part_after, crate::proofs::Written::writes_after, crate::proofs::Written::appends_more))]

ghost use Rattle.std.specs.Prelude.{OnOk, OnErr, Some};
ghost use Rattle.std.specs.Io.KnownBytes.{Appends};
ghost use Rattle.vault_inspector.specs.Output.{GetsPart, Writes};
ghost use Rattle.vault_inspector.specs.Texts.{counts_line, counts_text, file_line, open_text, report_text, state_text, vault_text, version_text};

use crate::claims::print_claims;
use crate::counts::{draft_count, version_count};
use crate::output::{PrintError, put, put_number};
use crate::{FileState, Report};
use std::alloc::Allocator;
use std::io::Write;
use vault_checkout::Book;
use vault_store::FileVersion;

// Writes the version of a file, where it isn't the current one.
fn print_version<W: Write>(writer: &mut W, version: FileVersion) -> Result<(), PrintError>
    ensures { Writes (W.contents writer.old) (W.contents writer.new) (version_text version) result }
{
    match version {
        FileVersion::One => put(writer, b", version 1"),
        FileVersion::Two => put(writer, b""),
    }
}

// Writes that a file is the active one.
fn print_open<W: Write>(
    writer: &mut W,
    generation: u128,
    frames: u128,
    tail: u128,
) -> Result<(), PrintError>
    ensures { Writes (W.contents writer.old) (W.contents writer.new) (open_text generation frames tail) result }
{
    put_number(writer, b"open, generation ", generation)?;
    put_number(writer, b", frames ", frames)?;
    put_number(writer, b", tail ", tail)
}

// Writes the state of a file.
fn print_state<W: Write>(writer: &mut W, state: FileState) -> Result<(), PrintError>
    ensures { Writes (W.contents writer.old) (W.contents writer.new) (state_text state) result }
{
    match state {
        FileState::Closed => put(writer, b"closed"),
        FileState::Open {
            generation,
            frames,
            tail,
            version,
        } => {
            print_open(
                writer,
                u128::from(generation),
                u128::from(frames),
                u128::from(tail),
            )?;
            print_version(writer, version)
        }
        FileState::Older { generation } => {
            put_number(writer, b"older, generation ", u128::from(generation))
        }
        FileState::Damaged { offset } => put_number(writer, b"damaged at ", u128::from(offset)),
    }
}

// Writes the line of a file, behind these words.
#[tactic(auto, using(crate::proofs::Written::part_then, crate::proofs::Written::part_after, crate::proofs::Written::writes_after, crate::proofs::Written::appends_more), unfolding(crate::specs::Texts::file_line))]
fn print_file<W: Write>(writer: &mut W, words: &[u8], state: FileState) -> Result<(), PrintError>
    ensures { Writes (W.contents writer.old) (W.contents writer.new) (file_line words.now state) result }
{
    put(writer, words)?;
    print_state(writer, state)?;
    put(writer, b"\n")
}

// Writes a line of counts.
fn print_counts<W: Write>(
    writer: &mut W,
    places: usize,
    versions: usize,
    claims: usize,
    drafts: u128,
) -> Result<(), PrintError>
    ensures { Writes (W.contents writer.old) (W.contents writer.new) (counts_text places versions claims drafts) result }
{
    put_number(writer, b"places ", places as u128)?;
    put_number(writer, b", versions ", versions as u128)?;
    put_number(writer, b", claims ", claims as u128)?;
    put_number(writer, b", drafts ", drafts)?;
    put(writer, b"\n")
}

// Writes the line of a vault's counts.
fn print_counted<W: Write, A: Allocator + Copy>(
    writer: &mut W,
    book: &Book<A>,
) -> Result<(), PrintError>
    ensures { Writes (W.contents writer.old) (W.contents writer.new) (counts_line book.now) result }
{
    let (places, claims) = (book.tree().len(), book.line().len());
    print_counts(
        writer,
        places,
        version_count(book),
        claims,
        draft_count(book),
    )
}

// Writes the lines of a vault.
fn print_vault<W: Write, A: Allocator + Copy>(
    writer: &mut W,
    book: &Book<A>,
) -> Result<(), PrintError>
    ensures { Writes (W.contents writer.old) (W.contents writer.new) (vault_text (Some book.now)) result }
{
    print_counted(writer, book)?;
    print_claims(writer, book)
}

// Writes the lines of a vault, or that there is none.
fn print_found<W: Write, A: Allocator + Copy>(
    writer: &mut W,
    book: &Option<Book<A>>,
) -> Result<(), PrintError>
    ensures { Writes (W.contents writer.old) (W.contents writer.new) (vault_text book.now) result }
{
    match book {
        Some(book) => print_vault(writer, book),
        None => put(writer, b"no vault\n"),
    }
}

/// Writes the text of a report: a line for each file, then a line of the vault's counts and one for each claim, or `no
/// vault`. It takes no memory.
pub fn print<W: Write, A: Allocator + Copy>(
    report: &Report<A>,
    writer: &mut W,
) -> Result<(), PrintError>
    ensures ok { OnOk result
        (Appends (W.contents writer.old) (W.contents writer.new) (report_text report.now.first report.now.second report.now.book)) }
    ensures err { OnErr result
        (GetsPart (W.contents writer.old) (W.contents writer.new) (report_text report.now.first report.now.second report.now.book)) }
{
    print_file(writer, b"file a: ", report.first)?;
    print_file(writer, b"file b: ", report.second)?;
    print_found(writer, &report.book)
}
