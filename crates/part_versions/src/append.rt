//! Drafts appended to parts: all, or none.
ghost use Rattle.std.specs.Prelude.{◌≡◌, ℕ, ◌+◌, ◌-◌, ◌<◌, ◌≤◌, List, [], ◌∷◌, ◌++◌, length, vec_len, vec_capacity, replicate, take, All, OnOk, OnErr};
ghost use Rattle.vault_state.specs.Shelf.{Draft, shelved, shelved_all, content_weight, drafts_weight, weight};
ghost use Rattle.vault_state.specs.Limits.{longest_content, most_weight};
ghost use Rattle.part_versions.specs.Taken.{taken_all};

use crate::part::Part;
use std::alloc::{AllocError, Allocator};
use vault_state::{DraftIn, PlaceId};

// Appends parts without versions, up to this length. The list has room for it.
fn pad<A: Allocator + Copy>(parts: &mut Vec<Part<A>, A>, len: usize)
    requires below { length parts.old.items ≤ len }
    requires room { len ≤ vec_capacity parts.old }
    ensures items { parts.new.items ≡ parts.old.items ++ replicate (len - length parts.old.items) [] }
    ensures room { vec_capacity parts.old ≤ vec_capacity parts.new }
{
    let alloc = *parts.allocator();
    while parts.len() < len {
        parts.push(Part::new(alloc)).unwrap();
    }
}

/// Appends one version to a place. Memory is allocated before anything changes, for at least `room` bytes of that place's versions.
pub(crate) fn append<A: Allocator + Copy>(
    parts: &mut Vec<Part<A>, A>,
    place: PlaceId,
    content: &[u8],
    room: usize,
) -> Result<(), AllocError>
    requires short { length content.now ≤ longest_content }
    requires light { weight parts.old.items + content_weight content.now ≤ most_weight }
    ensures ok { OnOk result (parts.new.items ≡ shelved parts.old.items place content.now) }
    ensures err { OnErr result (parts.new.items ≡ parts.old.items) }
{
    let index = place.number() as usize;
    if index < parts.len() {
        return parts[index].push(content, room);
    }
    let mut part = Part::new(*parts.allocator());
    part.push(content, room)?;
    parts.reserve(index + 1 - parts.len())?;
    pad(parts, index);
    parts.push(part).unwrap();
    Ok(())
}

// Removes the last version of each draft's place, the last draft first.
fn take_back<A: Allocator + Copy, B: Allocator>(parts: &mut Vec<Part<A>, A>, drafts: &[DraftIn<B>])
    requires { All (λ (draft : Draft). draft.place < length parts.old.items) drafts.now }
    ensures { parts.new.items ≡ taken_all parts.old.items drafts.now }
{
    let mut left = drafts.len();
    while left > 0 {
        left -= 1;
        parts[drafts[left].place.number() as usize].pop();
    }
}

/// Appends all drafts in order. If an allocation is refused, those appended so far are removed again.
pub(crate) fn append_each<A: Allocator + Copy, B: Allocator>(
    parts: &mut Vec<Part<A>, A>,
    drafts: &[DraftIn<B>],
) -> Result<(), AllocError>
    requires short { All (λ (draft : Draft). length draft.content ≤ longest_content) drafts.now }
    requires light { weight parts.old.items + drafts_weight drafts.now ≤ most_weight }
    ensures ok { OnOk result (parts.new.items ≡ shelved_all parts.old.items drafts.now) }
    ensures err { OnErr result (parts.new.items ≡ parts.old.items) }
{
    let len = parts.len();
    for done in 0..drafts.len() {
        let draft = &drafts[done];
        if let Err(error) = append(parts, draft.place, draft.content.as_slice(), 0) {
            take_back(parts, &drafts[..done]);
            parts.truncate(len);
            return Err(error);
        }
    }
    Ok(())
}
