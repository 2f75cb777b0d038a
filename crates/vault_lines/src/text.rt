//! The texts of replies.

ghost use Rattle.std.specs.Prelude.{◌≡◌, ◌++◌, codes, Some, IfOk};
ghost use Rattle.vault_lines.specs.Texts.{children_text, claim_text, claims_text, content_text, drafts_text, newline, outside_text, queued_text, refusal_text, reply_text, shown_text, standing_text};

use crate::pieces::{put_claims, put_drafts, put_items};
use std::alloc::{AllocError, Allocator};
use std::fmt;
use vault_model::{
    ClaimId, Listing, Name, NoMemory, Outside, Path, PathItem, Refusal, Reply, ReplyIn, ShownClaim,
    Standing,
};

/// A claim as lines name it: `c1` is a long one, `h1` a short one.
#[derive(Clone, Copy)]
struct ClaimText(ClaimId);

impl fmt::Display for ClaimText {
    ghost output = { λ claim. Some (claim_text claim.0) };

    fn fmt<W: fmt::Write>(&self, f: &mut fmt::Formatter<W>) -> fmt::Result {
        match self.0 {
            ClaimId::Long(number) => write!(f, "c{number}"),
            ClaimId::Short(number) => write!(f, "h{number}"),
        }
    }
}

/// How a claim stands, as the text behind its owner.
#[derive(Clone, Copy)]
struct StandingText(Standing);

impl fmt::Display for StandingText {
    ghost output = { λ standing. Some (standing_text standing.0) };

    fn fmt<W: fmt::Write>(&self, f: &mut fmt::Formatter<W>) -> fmt::Result {
        match self.0 {
            Standing::Held => write!(f, " held"),
            Standing::Queued(before) => write!(f, " queued behind {}", ClaimText(before)),
        }
    }
}

/// A refusal by its number, with the claim that is in the way, if one is.
#[derive(Clone, Copy)]
struct RefusalText(Refusal);

impl fmt::Display for RefusalText {
    ghost output = { λ refusal. Some (refusal_text refusal.0) };

    fn fmt<W: fmt::Write>(&self, f: &mut fmt::Formatter<W>) -> fmt::Result {
        match self.0 {
            Refusal::NoSession => write!(f, "ERR 11"),
            Refusal::Joined => write!(f, "ERR 12"),
            Refusal::NoPlace => write!(f, "ERR 20"),
            Refusal::Exists => write!(f, "ERR 21"),
            Refusal::WrongKind => write!(f, "ERR 22"),
            Refusal::Covered(claim) => write!(f, "ERR 23 {}", ClaimText(claim)),
            Refusal::NoClaim => write!(f, "ERR 30"),
            Refusal::NotYours => write!(f, "ERR 31"),
            Refusal::NotHeld => write!(f, "ERR 32"),
            Refusal::Overlaps(claim) => write!(f, "ERR 33 {}", ClaimText(claim)),
            Refusal::NotCovered => write!(f, "ERR 34"),
            Refusal::ItemCount => write!(f, "ERR 36"),
            Refusal::NoVersion => write!(f, "ERR 40"),
            Refusal::Limit => write!(f, "ERR 50"),
        }
    }
}

/// The text of a claim that waits behind another.
fn text_of_queued<A: Allocator + Copy>(
    alloc: A,
    claim: ClaimId,
    before: ClaimId,
) -> Result<Vec<u8, A>, AllocError>
    ensures { IfOk result (λ text. text.items ≡ queued_text claim before) }
{
    let mut text = format!(in alloc; "OK queued {}", ClaimText(claim))?.into_bytes();
    let rest = format!(in alloc; " behind {}\n", ClaimText(before))?;
    text.extend_from_slice(rest.as_bytes())?;
    Ok(text)
}

/// The text of the names of places.
fn text_of_children<A: Allocator + Copy>(alloc: A, names: &[Name]) -> Result<Vec<u8, A>, AllocError>
    ensures { IfOk result (λ text. text.items ≡ children_text names.now) }
{
    let mut text = format!(in alloc; "OK list {}", names.len())?.into_bytes();
    for name in names {
        text.extend_from_slice(b" ")?;
        text.extend_from_slice(name.as_bytes())?;
    }
    text.extend_from_slice(b"\n")?;
    Ok(text)
}

/// The text of a content.
fn text_of_content<A: Allocator + Copy>(alloc: A, content: &[u8]) -> Result<Vec<u8, A>, AllocError>
    ensures { IfOk result (λ text. text.items ≡ codes "OK content " ++ content_text content.now ++ newline) }
{
    if content.is_empty() {
        return Vec::from_slice(alloc, b"OK content -\n");
    }
    let digits = hex::encode(alloc, content)?;
    Ok(format!(in alloc; "OK content {digits}\n")?.into_bytes())
}

/// The text of a note.
fn text_of_note<A: Allocator + Copy>(alloc: A, note: &[u8]) -> Result<Vec<u8, A>, AllocError>
    ensures { IfOk result (λ text. text.items ≡ codes "OK note " ++ content_text note.now ++ newline) }
{
    if note.is_empty() {
        return Vec::from_slice(alloc, b"OK note -\n");
    }
    let digits = hex::encode(alloc, note)?;
    Ok(format!(in alloc; "OK note {digits}\n")?.into_bytes())
}

/// The text of the reply to `show`: all about a claim.
fn text_of_shown<A: Allocator + Copy, B: Allocator>(
    alloc: A,
    shown: &ShownClaim<Listing<PathItem, B>>,
) -> Result<Vec<u8, A>, AllocError>
    ensures { IfOk result (λ text. text.items ≡ shown_text shown.now) }
{
    let mut text = format!(in alloc; "OK claim {} ", ClaimText(shown.id))?.into_bytes();
    let standing = format!(in alloc; "{}", StandingText(shown.standing))?;
    text.extend_from_slice(shown.designer.as_bytes())?;
    text.extend_from_slice(standing.as_bytes())?;
    put_items(&mut text, shown.items.as_slice())?;
    text.extend_from_slice(b"\n")?;
    Ok(text)
}

/// The text of the claims at a place.
fn text_of_claims<A: Allocator + Copy>(alloc: A, ids: &[ClaimId]) -> Result<Vec<u8, A>, AllocError>
    ensures { IfOk result (λ text. text.items ≡ claims_text ids.now) }
{
    let mut text = format!(in alloc; "OK claims {}", ids.len())?.into_bytes();
    put_claims(&mut text, ids)?;
    text.extend_from_slice(b"\n")?;
    Ok(text)
}

/// The text of the paths of drafts.
fn text_of_drafts<A: Allocator + Copy>(alloc: A, paths: &[Path]) -> Result<Vec<u8, A>, AllocError>
    ensures { IfOk result (λ text. text.items ≡ drafts_text paths.now) }
{
    let mut text = format!(in alloc; "OK drafts {}", paths.len())?.into_bytes();
    put_drafts(&mut text, paths)?;
    text.extend_from_slice(b"\n")?;
    Ok(text)
}

/// The text of a reply, unless memory runs out.
fn reply_text_of<A: Allocator + Copy, B: Allocator>(
    alloc: A,
    reply: &ReplyIn<B>,
) -> Result<Vec<u8, A>, AllocError>
    ensures { IfOk result (λ text. text.items ≡ reply_text reply.now) }
{
    match reply {
        Reply::Session(number) => Ok(format!(in alloc; "OK session {number}\n")?.into_bytes()),
        Reply::Place(number) => Ok(format!(in alloc; "OK place {number}\n")?.into_bytes()),
        Reply::Held(claim) => Ok(format!(in alloc;
            "OK held {}\n",
            ClaimText(*claim)
        )?.into_bytes()),
        Reply::Queued(claim, before) => text_of_queued(alloc, *claim, *before),
        Reply::Saved => Vec::from_slice(alloc, b"OK saved\n"),
        Reply::CheckedIn(count) => Ok(format!(in alloc; "OK checked in {count}\n")?.into_bytes()),
        Reply::Abandoned => Vec::from_slice(alloc, b"OK abandoned\n"),
        Reply::Released => Vec::from_slice(alloc, b"OK released\n"),
        Reply::Children(names) => text_of_children(alloc, names.as_slice()),
        Reply::Content(content) => text_of_content(alloc, content.as_slice()),
        Reply::Versions(count) => Ok(format!(in alloc; "OK versions {count}\n")?.into_bytes()),
        Reply::Given => Vec::from_slice(alloc, b"OK given\n"),
        Reply::Noted => Vec::from_slice(alloc, b"OK noted\n"),
        Reply::NoteIs(note) => text_of_note(alloc, note.as_bytes()),
        Reply::Shown(shown) => text_of_shown(alloc, shown),
        Reply::ClaimsAt(ids) => text_of_claims(alloc, ids.as_slice()),
        Reply::DraftsOf(paths) => text_of_drafts(alloc, paths.as_slice()),
        Reply::Left => Vec::from_slice(alloc, b"OK left\n"),
        Reply::Refused(refusal) => {
            Ok(format!(in alloc; "{}\n", RefusalText(*refusal))?.into_bytes())
        }
    }
}

/// The line of a reply, with its line feed. Takes time proportional to its length.
pub fn text_of<A: Allocator + Copy, B: Allocator>(
    alloc: A,
    reply: &ReplyIn<B>,
) -> Result<Vec<u8, A>, NoMemory>
    ensures { IfOk result (λ text. text.items ≡ reply_text reply.now) }
{
    reply_text_of(alloc, reply).or(Err(NoMemory))
}

/// The line of an outside refusal, with its line feed.
pub fn outside_text<A: Allocator>(alloc: A, outside: Outside) -> Result<Vec<u8, A>, NoMemory>
    ensures { IfOk result (λ text. text.items ≡ outside_text outside) }
{
    let text = match outside {
        Outside::BadLine => b"ERR 10\n",
        Outside::Busy => b"ERR 80\n",
        Outside::NoMemory => b"ERR 81\n",
        Outside::Broken => b"ERR 82\n",
    };
    Vec::from_slice(alloc, text).or(Err(NoMemory))
}
