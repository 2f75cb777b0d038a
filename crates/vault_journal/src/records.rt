//! The record of each effect, written and read.
ghost use Rattle.std.specs.Prelude.{◌≡◌, ◌≤◌, ◌<◌, ◌+◌, ◌*◌, ◌∷◌, ◌++◌, IfOk, IfErr, IfSome, IfNone, length};
ghost use Rattle.std.specs.Option.{option_map};
ghost use Rattle.vault_state.specs.Limits.{most_items};
ghost use Rattle.vault_model.specs.declared.effects.Effect.TheVariants.{Asked, Extended, Saved, Given, Noted};
ghost use Rattle.vault_journal.specs.Spelling.{record_of, in_four, name_bytes, longest_content, longest_record, HasRecord};
ghost use Rattle.vault_journal.specs.Written.{IsWritten};
ghost use Rattle.vault_journal.specs.Reading.{Reads, Gives, claim_at, made_at, asked_at, extended_at, saved_at, checked_in_at, abandoned_at, given_at, noted_at, nested_at, unsaved_at, effect_at};
ghost use Rattle.vault_journal.specs.Rows.{AreRecordsOf, AreRecords, IsFirstFault};
ghost use Rattle.vault_journal.specs.Damage.{IsDamage};
ghost use Rattle.vault_journal.specs.declared.records.ReadError.TheVariants.{Memory};
ghost use Rattle.vault_journal.specs.declared.records.Damage.TheVariants.{NoMemory};

use crate::reading::{content_at, items_at, name_at, note_at, u8_at, u32_at};
use crate::writing::{put_content, put_items, put_name, put_note, put_u8, put_u32};
use std::alloc::{AllocError, AllocFailed, Allocator};
use thiserror::Error;
use vault_model::{Effect, EffectIn, Items, Listing, Name, Note, PlaceId};

/// The most bytes of a record.
pub const LONGEST_RECORD: usize = 1035;

// Each record, one field behind another. Numbers are big-endian; a claim's number isn't 0.
//
//   made        1 kind, 1 · 4 parent · 1 + n name
//   asked       1 kind, 2 · 4 claim · 1 + n owner's name · 1 how many items, 1 to 8 · 5 each item
//   extended    1 kind, 3 · 4 claim · 1 how many items, 1 to 8 · 5 each item
//   saved       1 kind, 4 · 4 claim · 4 place · 2 n, at most 1,024 · n content
//   checked in  1 kind, 5 · 4 claim
//   abandoned   1 kind, 6 · 4 claim
//   given       1 kind, 7 · 4 claim · 1 + n designer's name
//   noted       1 kind, 8 · 4 claim · 1 + n note
//   nested      1 kind, 9 · 4 parent · 1 + n name
//
// A name is n, 1 to 32, in 1 byte and n bytes. A note is n, 0 to 64, in 1 byte and n bytes. An item is 1 byte, 0 to look and
// 1 to change, and its place in 4.

// Writes a record's kind and the number of a claim.
fn put_claim(out: &mut [u8], at: usize, kind: u8, claim: u32) -> usize
    requires { at + 5 ≤ length out.old }
    ensures { IsWritten at (kind ∷ in_four claim) result out.old out.new }
{
    let at = put_u8(out, at, kind);
    put_u32(out, at, claim)
}

// Writes a record's kind, the place under which a place was made, and its name.
fn put_child(out: &mut [u8], at: usize, kind: u8, parent: PlaceId, child: &Name) -> usize
    requires { at + 6 + length child.now ≤ length out.old }
    ensures { IsWritten at (kind ∷ in_four parent ++ name_bytes child.now) result out.old out.new }
{
    let at = put_u8(out, at, kind);
    let at = put_u32(out, at, parent.number());
    put_name(out, at, child)
}

fn put_asked(out: &mut [u8], at: usize, claim: u32, owner: &Name, items: &Items) -> usize
    requires { at + 7 + length owner.now + 5 * length items.now ≤ length out.old }
    ensures { IsWritten at (record_of (Asked claim owner.now items.now)) result out.old out.new }
{
    let at = put_claim(out, at, 2, claim);
    let at = put_name(out, at, owner);
    put_items(out, at, items.as_slice())
}

fn put_extended(out: &mut [u8], at: usize, claim: u32, items: &Items) -> usize
    requires { at + 6 + 5 * length items.now ≤ length out.old }
    ensures { IsWritten at (record_of (Extended claim items.now)) result out.old out.new }
{
    let at = put_claim(out, at, 3, claim);
    put_items(out, at, items.as_slice())
}

fn put_saved(out: &mut [u8], at: usize, claim: u32, place: PlaceId, content: &[u8]) -> usize
    requires short { length content.now ≤ longest_content }
    requires room { at + 11 + length content.now ≤ length out.old }
    ensures { IsWritten at (record_of (Saved claim place content.now)) result out.old out.new }
{
    let at = put_claim(out, at, 4, claim);
    let at = put_u32(out, at, place.number());
    put_content(out, at, content)
}

fn put_given(out: &mut [u8], at: usize, claim: u32, designer: &Name) -> usize
    requires { at + 6 + length designer.now ≤ length out.old }
    ensures { IsWritten at (record_of (Given claim designer.now)) result out.old out.new }
{
    let at = put_claim(out, at, 7, claim);
    put_name(out, at, designer)
}

fn put_noted(out: &mut [u8], at: usize, claim: u32, note: &Note) -> usize
    requires { at + 6 + length note.now ≤ length out.old }
    ensures { IsWritten at (record_of (Noted claim note.now)) result out.old out.new }
{
    let at = put_claim(out, at, 8, claim);
    put_note(out, at, note)
}

/// Writes the record of an effect into a slice, and returns the offset behind it. Takes no memory.
#[tactic(auto, using(crate::proofs::Sizes::record_size))]
pub fn put_effect<A: Allocator>(out: &mut [u8], at: usize, effect: &EffectIn<A>) -> usize
    requires has { HasRecord effect.now }
    requires room { at + length (record_of effect.now) ≤ length out.old }
    ensures { IsWritten at (record_of effect.now) result out.old out.new }
{
    match effect {
        Effect::Made(parent, child) => put_child(out, at, 1, *parent, child),
        Effect::Nested(parent, child) => put_child(out, at, 9, *parent, child),
        Effect::Asked(claim, owner, items) => put_asked(out, at, *claim, owner, items),
        Effect::Extended(claim, items) => put_extended(out, at, *claim, items),
        Effect::Saved(claim, place, content) => {
            put_saved(out, at, *claim, *place, content.as_slice())
        }
        Effect::CheckedIn(claim) => put_claim(out, at, 5, *claim),
        Effect::Abandoned(claim) => put_claim(out, at, 6, *claim),
        Effect::Given(claim, designer) => put_given(out, at, *claim, designer),
        Effect::Noted(claim, note) => put_noted(out, at, *claim, note),
    }
}

/// How many bytes the record of an effect has.
#[tactic(auto, using(crate::proofs::Sizes::record_size))]
pub fn record_len<A: Allocator>(effect: &EffectIn<A>) -> usize
    requires { HasRecord effect.now }
    ensures len { result ≡ length (record_of effect.now) }
    ensures longest { result ≤ longest_record }
{
    match effect {
        Effect::Made(_, child) | Effect::Nested(_, child) => 6 + child.as_bytes().len(),
        Effect::Asked(_, owner, items) => 7 + owner.as_bytes().len() + 5 * items.len(),
        Effect::Extended(_, items) => 6 + 5 * items.len(),
        Effect::Saved(_, _, content) => 11 + content.as_slice().len(),
        Effect::CheckedIn(_) | Effect::Abandoned(_) => 5,
        Effect::Given(_, designer) => 6 + designer.as_bytes().len(),
        Effect::Noted(_, note) => 6 + note.as_bytes().len(),
    }
}

// Why the record at the front was not read.
#[derive(Debug, Drop)]
pub enum ReadError {
    // Memory was refused.
    Memory,
    // What stands there is no record.
    NotOne,
}

impl From<AllocError> for ReadError {
    ghost from_gives = { λ _ e. e ≡ Memory };

    fn from(_: AllocError) -> ReadError {
        ReadError::Memory
    }
}

// The number of a claim.
#[tactic(auto, unfolding(crate::specs::Reading::claim_at))]
fn claim_at(bytes: &[u8]) -> Option<(u32, &[u8])>
    ensures { Reads (λ x. (x.0, x.1.now)) result (claim_at bytes.now) }
{
    let (claim, rest) = u32_at(bytes)?;
    if claim == 0 {
        return None;
    }
    Some((claim, rest))
}

#[tactic(auto, unfolding(crate::specs::Reading::made_at))]
fn made_at<A: Allocator>(bytes: &[u8]) -> Option<(EffectIn<A>, &[u8])>
    ensures { Reads (λ x. (x.0, x.1.now)) result (made_at bytes.now) }
{
    let (parent, rest) = u32_at(bytes)?;
    let Some((child, rest)) = name_at(rest) else {
        return None;
    };
    Some((Effect::Made(PlaceId(parent), child), rest))
}

#[tactic(auto, unfolding(crate::specs::Reading::asked_at))]
fn asked_at<A: Allocator>(bytes: &[u8]) -> Option<(EffectIn<A>, &[u8])>
    ensures { Reads (λ x. (x.0, x.1.now)) result (asked_at bytes.now) }
{
    let (claim, rest) = claim_at(bytes)?;
    let Some((owner, rest)) = name_at(rest) else {
        return None;
    };
    let Some((items, rest)) = items_at(rest) else {
        return None;
    };
    Some((Effect::Asked(claim, owner, items), rest))
}

#[tactic(auto, unfolding(crate::specs::Reading::extended_at))]
fn extended_at<A: Allocator>(bytes: &[u8]) -> Option<(EffectIn<A>, &[u8])>
    ensures { Reads (λ x. (x.0, x.1.now)) result (extended_at bytes.now) }
{
    let (claim, rest) = claim_at(bytes)?;
    let Some((items, rest)) = items_at(rest) else {
        return None;
    };
    Some((Effect::Extended(claim, items), rest))
}

// A saved content, copied into memory of its own.
#[tactic(auto, unfolding(crate::specs::Reading::saved_at))]
fn saved_at<A: Allocator>(alloc: A, bytes: &[u8]) -> Result<(EffectIn<A>, &[u8]), ReadError>
    ensures { Gives (λ x. (x.0, x.1.now)) result (saved_at bytes.now) }
{
    let (claim, rest) = claim_at(bytes).ok_or(ReadError::NotOne)?;
    let (place, rest) = u32_at(rest).ok_or(ReadError::NotOne)?;
    let (content, rest) = content_at(rest).ok_or(ReadError::NotOne)?;
    let content = Listing::from_vec(Vec::from_slice(alloc, content)?);
    Ok((Effect::Saved(claim, PlaceId(place), content), rest))
}

#[tactic(auto, unfolding(crate::specs::Reading::checked_in_at))]
fn checked_in_at<A: Allocator>(bytes: &[u8]) -> Option<(EffectIn<A>, &[u8])>
    ensures { Reads (λ x. (x.0, x.1.now)) result (checked_in_at bytes.now) }
{
    let (claim, rest) = claim_at(bytes)?;
    Some((Effect::CheckedIn(claim), rest))
}

#[tactic(auto, unfolding(crate::specs::Reading::abandoned_at))]
fn abandoned_at<A: Allocator>(bytes: &[u8]) -> Option<(EffectIn<A>, &[u8])>
    ensures { Reads (λ x. (x.0, x.1.now)) result (abandoned_at bytes.now) }
{
    let (claim, rest) = claim_at(bytes)?;
    Some((Effect::Abandoned(claim), rest))
}

#[tactic(auto, unfolding(crate::specs::Reading::given_at))]
fn given_at<A: Allocator>(bytes: &[u8]) -> Option<(EffectIn<A>, &[u8])>
    ensures { Reads (λ x. (x.0, x.1.now)) result (given_at bytes.now) }
{
    let (claim, rest) = claim_at(bytes)?;
    let Some((designer, rest)) = name_at(rest) else {
        return None;
    };
    Some((Effect::Given(claim, designer), rest))
}

#[tactic(auto, unfolding(crate::specs::Reading::noted_at))]
fn noted_at<A: Allocator>(bytes: &[u8]) -> Option<(EffectIn<A>, &[u8])>
    ensures { Reads (λ x. (x.0, x.1.now)) result (noted_at bytes.now) }
{
    let (claim, rest) = claim_at(bytes)?;
    let Some((note, rest)) = note_at(rest) else {
        return None;
    };
    Some((Effect::Noted(claim, note), rest))
}

#[tactic(auto, unfolding(crate::specs::Reading::nested_at))]
fn nested_at<A: Allocator>(bytes: &[u8]) -> Option<(EffectIn<A>, &[u8])>
    ensures { Reads (λ x. (x.0, x.1.now)) result (nested_at bytes.now) }
{
    let (parent, rest) = u32_at(bytes)?;
    let Some((child, rest)) = name_at(rest) else {
        return None;
    };
    Some((Effect::Nested(PlaceId(parent), child), rest))
}

// An effect of any kind but a saved content, from the bytes behind its kind.
#[tactic(auto, unfolding(crate::specs::Reading::unsaved_at, crate::specs::Reading::effect_of_kind))]
fn unsaved_at<A: Allocator>(kind: u8, bytes: &[u8]) -> Option<(EffectIn<A>, &[u8])>
    ensures { Reads (λ x. (x.0, x.1.now)) result (unsaved_at kind bytes.now) }
{
    match kind {
        1 => made_at(bytes),
        2 => asked_at(bytes),
        3 => extended_at(bytes),
        5 => checked_in_at(bytes),
        6 => abandoned_at(bytes),
        7 => given_at(bytes),
        8 => noted_at(bytes),
        9 => nested_at(bytes),
        _ => None,
    }
}

// The effect whose record stands at the front, and what is behind it.
#[tactic(auto, unfolding(crate::specs::Reading::effect_at, crate::specs::Reading::effect_of_kind, crate::specs::Reading::unsaved_at))]
fn effect_at<A: Allocator>(alloc: A, bytes: &[u8]) -> Result<(EffectIn<A>, &[u8]), ReadError>
    ensures { Gives (λ x. (x.0, x.1.now)) result (effect_at bytes.now) }
{
    let (kind, rest) = u8_at(bytes).ok_or(ReadError::NotOne)?;
    match kind {
        4 => saved_at(alloc, rest),
        _ => unsaved_at(kind, rest).ok_or(ReadError::NotOne),
    }
}

// What stands behind a saved content.
#[tactic(auto, unfolding(crate::specs::Reading::saved_at))]
fn behind_saved(bytes: &[u8]) -> Option<&[u8]>
    ensures { Reads (λ x. x.now) result (option_map (λ x. x.1) (saved_at bytes.now)) }
{
    let (_, rest) = claim_at(bytes)?;
    let (_, rest) = u32_at(rest)?;
    let (_, rest) = content_at(rest)?;
    Some(rest)
}

// What stands behind the record at the front. Takes no memory.
#[tactic(auto, unfolding(crate::specs::Reading::effect_at, crate::specs::Reading::effect_of_kind, crate::specs::Reading::unsaved_at))]
fn behind_record<A: Allocator>(bytes: &[u8]) -> Option<&[u8]>
    ensures { Reads (λ x. x.now) result (option_map (λ x. x.1) (effect_at bytes.now)) }
{
    let (kind, rest) = u8_at(bytes)?;
    if kind == 4 {
        return behind_saved(rest);
    }
    let Some((_effect, rest)) = unsaved_at::<A>(kind, rest) else {
        return None;
    };
    Some(rest)
}

/// Why bytes were not read as records.
#[derive(Clone, Copy, Debug, PartialEq, Eq, Error)]
pub enum Damage {
    /// The first offset where a record should stand and none does.
    #[error("damaged at {0}")]
    At(usize),
    /// The bytes are records, and memory for their effects was refused.
    #[error("want of memory")]
    NoMemory,
}

impl<T: Drop> From<AllocFailed<T>> for Damage {
    ghost from_gives = { λ _ d. d ≡ NoMemory };

    fn from(_: AllocFailed<T>) -> Damage {
        Damage::NoMemory
    }
}

// The first offset where a record should stand and none does. Takes no memory.
fn first_fault<A: Allocator>(bytes: &[u8]) -> Option<usize>
    ensures some { IfSome result (λ at. IsFirstFault bytes.now at) }
    ensures none { IfNone result (AreRecords bytes.now) }
{
    let mut rest = bytes;
    while !rest.is_empty() {
        match behind_record::<A>(rest) {
            Some(after) => rest = after,
            None => return Some(bytes.len() - rest.len()),
        }
    }
    None
}

/// The effects whose records the bytes are. A first pass takes no memory, so damaged bytes are always reported as damaged, never as
/// out of memory.
pub fn read_effects<A: Allocator + Copy>(
    alloc: A,
    bytes: &[u8],
) -> Result<Vec<EffectIn<A>, A>, Damage>
    ensures found { IfOk result (λ effects. AreRecordsOf effects.items bytes.now) }
    ensures damage { IfErr result (λ damage. IsDamage bytes.now damage) }
{
    if let Some(at) = first_fault::<A>(bytes) {
        return Err(Damage::At(at));
    }
    let mut effects = Vec::new(alloc);
    let mut rest = bytes;
    while !rest.is_empty() {
        match effect_at(alloc, rest) {
            Ok((effect, after)) => {
                effects.push(effect)?;
                rest = after;
            }
            Err(ReadError::NotOne) => return Err(Damage::At(bytes.len() - rest.len())),
            Err(ReadError::Memory) => return Err(Damage::NoMemory),
        }
    }
    Ok(effects)
}
