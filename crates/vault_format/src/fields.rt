//! The fields of a snapshot, written one after another.
#![tactic(auto, using(crate::proofs::Adding::adds_after))]

ghost use Rattle.std.specs.Prelude.{◌≡◌, ◌<◌, ◌≤◌, ◌-◌, All, length, slice_get, Some, true};
ghost use Rattle.std.specs.List.{flat_map};
ghost use Rattle.vault_state.specs.Limits.{longest_content, most_drafts};
ghost use Rattle.vault_state.specs.Shelf.{Draft, versions_of};
ghost use Rattle.vault_journal.specs.Spelling.{in_two, in_four, name_bytes, item_bytes, items_bytes, content_bytes, note_bytes};
ghost use Rattle.vault_state.specs.Tree.{is_part};
ghost use Rattle.vault_state.specs.declared.place.Place.{Place};
ghost use Rattle.vault_format.specs.Snapshot.{current_version, designer_of, draft_bytes, drafts_bytes, kind_byte, kind_bytes, number_of, versions_bytes};
ghost use Rattle.vault_format.specs.Adds.{Adds};

use design_tree::Tree;
use part_versions::Shelf;
use std::alloc::Allocator;
use vault_model::{ClaimId, DraftIn, Intent, Item, Name, NoMemory, Note, Owner, PlaceId};

/// Adds bytes.
pub fn put<A: Allocator>(out: &mut Vec<u8, A>, bytes: &[u8]) -> Result<(), NoMemory>
    ensures { Adds out.old.items out.new.items bytes.now result }
{
    out.extend_from_slice(bytes)?;
    Ok(())
}

/// Adds a number in four bytes.
pub fn put_u32<A: Allocator>(out: &mut Vec<u8, A>, number: u32) -> Result<(), NoMemory>
    ensures { Adds out.old.items out.new.items (in_four number) result }
{
    put(out, &number.to_be_bytes())
}

/// Adds a number in two bytes.
pub fn put_u16<A: Allocator>(out: &mut Vec<u8, A>, number: u16) -> Result<(), NoMemory>
    ensures { Adds out.old.items out.new.items (in_two number) result }
{
    put(out, &number.to_be_bytes())
}

/// Adds a name.
pub fn put_name<A: Allocator>(out: &mut Vec<u8, A>, name: &Name) -> Result<(), NoMemory>
    ensures { Adds out.old.items out.new.items (name_bytes name.now) result }
{
    let bytes = name.as_bytes();
    put(out, &[bytes.len() as u8])?;
    put(out, bytes)
}

/// Adds a note.
pub fn put_note<A: Allocator>(out: &mut Vec<u8, A>, note: &Note) -> Result<(), NoMemory>
    ensures { Adds out.old.items out.new.items (note_bytes note.now) result }
{
    let bytes = note.as_bytes();
    put(out, &[bytes.len() as u8])?;
    put(out, bytes)
}

// Adds an item.
fn put_item<A: Allocator>(out: &mut Vec<u8, A>, item: Item) -> Result<(), NoMemory>
    ensures { Adds out.old.items out.new.items (item_bytes item) result }
{
    let intent = match item.intent {
        Intent::Look => 0,
        Intent::Change => 1,
    };
    put(out, &[intent])?;
    put_u32(out, item.place.number())
}

// Adds each item.
fn put_each_item<A: Allocator>(out: &mut Vec<u8, A>, items: &[Item]) -> Result<(), NoMemory>
    ensures { Adds out.old.items out.new.items (flat_map item_bytes items.now) result }
{
    for item in items {
        put_item(out, *item)?;
    }
    Ok(())
}

/// Adds how many items there are, and each.
pub fn put_items<A: Allocator>(out: &mut Vec<u8, A>, items: &[Item]) -> Result<(), NoMemory>
    requires { length items.now < 256 }
    ensures { Adds out.old.items out.new.items (items_bytes items.now) result }
{
    put(out, &[items.len() as u8])?;
    put_each_item(out, items)
}

// Adds the length of a content, and the content.
fn put_content<A: Allocator>(out: &mut Vec<u8, A>, content: &[u8]) -> Result<(), NoMemory>
    requires { length content.now ≤ longest_content }
    ensures { Adds out.old.items out.new.items (content_bytes content.now) result }
{
    put_u16(out, content.len() as u16)?;
    put(out, content)
}

// Adds a draft.
fn put_draft<A: Allocator, B: Allocator>(
    out: &mut Vec<u8, A>,
    draft: &DraftIn<B>,
) -> Result<(), NoMemory>
    requires { length draft.now.content ≤ longest_content }
    ensures { Adds out.old.items out.new.items (draft_bytes draft.now) result }
{
    put_u32(out, draft.place.number())?;
    put_content(out, draft.content.as_slice())
}

// Adds each draft.
fn put_each_draft<A: Allocator, B: Allocator>(
    out: &mut Vec<u8, A>,
    drafts: &[DraftIn<B>],
) -> Result<(), NoMemory>
    requires { All (λ (draft : Draft). length draft.content ≤ longest_content) drafts.now }
    ensures { Adds out.old.items out.new.items (flat_map draft_bytes drafts.now) result }
{
    for draft in drafts {
        put_draft(out, draft)?;
    }
    Ok(())
}

/// Adds how many drafts there are, and each.
pub fn put_drafts<A: Allocator, B: Allocator>(
    out: &mut Vec<u8, A>,
    drafts: &[DraftIn<B>],
) -> Result<(), NoMemory>
    requires few { length drafts.now ≤ most_drafts }
    requires short { All (λ (draft : Draft). length draft.content ≤ longest_content) drafts.now }
    ensures { Adds out.old.items out.new.items (drafts_bytes drafts.now) result }
{
    put(out, &[drafts.len() as u8])?;
    put_each_draft(out, drafts)
}

/// Adds how many versions a part has, and each.
pub fn put_versions<A: Allocator, B: Allocator>(
    out: &mut Vec<u8, A>,
    shelf: &Shelf<B>,
    place: PlaceId,
) -> Result<(), NoMemory>
    ensures { Adds out.old.items out.new.items (versions_bytes (versions_of shelf.now place)) result }
{
    put_u16(out, shelf.count(place) as u16)?;
    put(out, shelf.spelled(place))
}

/// The byte for a place's kind: 1 for a part, 0 for any other.
pub fn kind_byte(is_part: bool) -> u8
    ensures { result ≡ kind_byte is_part }
{
    if is_part { 1 } else { 0 }
}

/// Adds what follows a place's name: its kind and, for a part, its versions.
pub fn put_kind<A: Allocator, B: Allocator>(
    out: &mut Vec<u8, A>,
    tree: &Tree<B>,
    shelf: &Shelf<B>,
    place: PlaceId,
) -> Result<(), NoMemory>
    requires { place ≤ length tree.now }
    ensures { Adds out.old.items out.new.items
        (kind_bytes current_version (is_part tree.now place) (versions_of shelf.now place)) result }
{
    if !tree.is_part(place) {
        return put(out, &[kind_byte(false)]);
    }
    put(out, &[kind_byte(true)])?;
    put_versions(out, shelf, place)
}

/// The parent and the name of the place with this number.
pub fn place_at<B: Allocator + Copy>(tree: &Tree<B>, number: u32) -> (PlaceId, Name)
    requires some { 0 < number }
    requires there { number ≤ length tree.now }
    ensures { (place : Place) → slice_get tree.now (number - 1) ≡ Some place → result ≡ (place.parent, place.name) }
{
    let place = PlaceId(number);
    (tree.parent(place).unwrap(), tree.name_of(place).unwrap())
}

/// Adds the name of a check-out's owner.
pub fn put_owner<A: Allocator>(out: &mut Vec<u8, A>, owner: &Owner) -> Result<(), NoMemory>
    ensures { Adds out.old.items out.new.items (name_bytes (designer_of owner.now)) result }
{
    match owner {
        Owner::Designer(name) => put_name(out, name),
        Owner::Session(_) => put(out, &[0]),
    }
}

/// The number of a claim.
pub fn number_of(id: ClaimId) -> u32
    ensures { result ≡ number_of id }
{
    match id {
        ClaimId::Long(number) | ClaimId::Short(number) => number,
    }
}
