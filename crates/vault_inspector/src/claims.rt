//! The lines of claims.
#![tactic(auto, using(crate::proofs::Written::part_then, crate::proofs::Written::part_after, crate::proofs::Written::writes_after, crate::proofs::Written::appends_more))]

ghost use Rattle.std.specs.Prelude.{◌≡◌, ◌<◌, ◌≤◌, ◌∷◌, ◌++◌, codes, length, slice_get, Some};
ghost use Rattle.std.specs.List.{flat_map};
ghost use Rattle.hex.specs.Hex.{encode_lower};
ghost use Rattle.vault_state.specs.Claims.{standing_of};
ghost use Rattle.vault_state.specs.Limits.{longest_note};
ghost use Rattle.vault_state.specs.Path.{path_text};
ghost use Rattle.vault_state.specs.Tree.{path_of};
ghost use Rattle.vault_inspector.specs.Output.{Writes};
ghost use Rattle.vault_inspector.specs.Texts.{claim_line, claim_text, item_text, note_text, owner_text, standing_text};

use crate::output::{PrintError, put, put_number};
use design_tree::Tree;
use hex::encode_to_slice;
use std::alloc::Allocator;
use std::io::Write;
use vault_checkout::Book;
use vault_model::{
    Claim, ClaimId, Intent, Item, LONGEST_NOTE, Name, Note, Owner, Path, PlaceId, Standing,
};

// Writes a claim by its number.
fn print_id<W: Write>(writer: &mut W, id: ClaimId) -> Result<(), PrintError>
    ensures { Writes (W.contents writer.old) (W.contents writer.new) (claim_text id) result }
{
    match id {
        ClaimId::Long(number) => put_number(writer, b"c", u128::from(number)),
        ClaimId::Short(number) => put_number(writer, b"h", u128::from(number)),
    }
}

// Writes the owner of a claim.
fn print_owner<W: Write>(writer: &mut W, owner: &Owner) -> Result<(), PrintError>
    ensures { Writes (W.contents writer.old) (W.contents writer.new) (owner_text owner.now) result }
{
    match owner {
        Owner::Designer(name) => put(writer, name.as_bytes()),
        Owner::Session(number) => put_number(writer, b"session ", u128::from(*number)),
    }
}

/// How a claim stands.
pub(crate) fn standing_in<A: Allocator + Copy>(book: &Book<A>, id: ClaimId) -> Option<Standing>
    ensures { result ≡ standing_of book.now.tree book.now.line id }
{
    book.tree().see_whole();
    book.line().standing(id)
}

// Writes that a claim waits behind another.
fn print_queued<W: Write>(writer: &mut W, other: ClaimId) -> Result<(), PrintError>
    ensures { Writes (W.contents writer.old) (W.contents writer.new) (codes " queued behind " ++ claim_text other) result }
{
    put(writer, b" queued behind ")?;
    print_id(writer, other)
}

// Writes how a claim stands.
fn print_standing<W: Write, A: Allocator + Copy>(
    writer: &mut W,
    book: &Book<A>,
    id: ClaimId,
) -> Result<(), PrintError>
    ensures { Writes (W.contents writer.old) (W.contents writer.new) (standing_text (standing_of book.now.tree book.now.line id)) result }
{
    match standing_in(book, id) {
        Some(Standing::Held) => put(writer, b" held"),
        Some(Standing::Queued(other)) => print_queued(writer, other),
        None => Ok(()),
    }
}

// Writes a name behind a slash.
fn print_name<W: Write>(writer: &mut W, name: &Name) -> Result<(), PrintError>
    ensures { Writes (W.contents writer.old) (W.contents writer.new) (47 ∷ name.now) result }
{
    put(writer, b"/")?;
    put(writer, name.as_bytes())
}

// Writes names, each behind a slash.
fn print_names<W: Write>(writer: &mut W, names: &[Name]) -> Result<(), PrintError>
    ensures { Writes (W.contents writer.old) (W.contents writer.new) (flat_map (λ name. 47 ∷ name) names.now) result }
{
    for name in names {
        print_name(writer, name)?;
    }
    Ok(())
}

// Writes a path.
fn print_path<W: Write>(writer: &mut W, names: &[Name]) -> Result<(), PrintError>
    ensures { Writes (W.contents writer.old) (W.contents writer.new) (path_text names.now) result }
{
    if names.is_empty() {
        return put(writer, b"/");
    }
    print_names(writer, names)
}

// The path of a place, or the library's if there is no such place.
fn path_at<A: Allocator + Copy>(tree: &Tree<A>, place: PlaceId) -> Path
    ensures { result ≡ path_of tree.now place }
{
    if (place.number() as usize) < tree.len() {
        tree.path_of(place)
    } else {
        Path::root()
    }
}

// Writes an item.
fn print_item<W: Write, A: Allocator + Copy>(
    writer: &mut W,
    tree: &Tree<A>,
    item: Item,
) -> Result<(), PrintError>
    ensures { Writes (W.contents writer.old) (W.contents writer.new) (item_text tree.now item) result }
{
    match item.intent {
        Intent::Look => put(writer, b" r:")?,
        Intent::Change => put(writer, b" w:")?,
    }
    print_path(writer, path_at(tree, item.place).names())
}

// Writes items in their order.
fn print_items<W: Write, A: Allocator + Copy>(
    writer: &mut W,
    tree: &Tree<A>,
    items: &[Item],
) -> Result<(), PrintError>
    ensures { Writes (W.contents writer.old) (W.contents writer.new) (flat_map (item_text tree.now) items.now) result }
{
    for item in items {
        print_item(writer, tree, *item)?;
    }
    Ok(())
}

// Writes the items of a claim.
fn print_claimed<W: Write, A: Allocator + Copy>(
    writer: &mut W,
    book: &Book<A>,
    claim: &Claim,
) -> Result<(), PrintError>
    ensures { Writes (W.contents writer.old) (W.contents writer.new) (flat_map (item_text book.now.tree) claim.now.items) result }
{
    print_items(writer, book.tree(), claim.items.as_slice())
}

// Writes two hexadecimal digits for each byte of a note.
fn print_digits<W: Write>(writer: &mut W, note: &[u8]) -> Result<(), PrintError>
    requires { length note.now ≤ longest_note }
    ensures { Writes (W.contents writer.old) (W.contents writer.new) (encode_lower note.now) result }
{
    let mut room = [0; 2 * LONGEST_NOTE];
    let digits = &mut room[..2 * note.len()];
    encode_to_slice(note, digits).unwrap();
    put(writer, digits)
}

// Writes a note, where there is one.
fn print_note<W: Write>(writer: &mut W, note: &Note) -> Result<(), PrintError>
    ensures { Writes (W.contents writer.old) (W.contents writer.new) (note_text note.now) result }
{
    let bytes = note.as_bytes();
    if bytes.is_empty() {
        return Ok(());
    }
    put(writer, b" note ")?;
    print_digits(writer, bytes)
}

// Writes the line of a claim.
fn print_claim<W: Write, A: Allocator + Copy>(
    writer: &mut W,
    book: &Book<A>,
    claim: &Claim,
) -> Result<(), PrintError>
    ensures { Writes (W.contents writer.old) (W.contents writer.new) (claim_line book.now claim.now) result }
{
    print_id(writer, claim.id)?;
    put(writer, b" ")?;
    print_owner(writer, &claim.owner)?;
    print_standing(writer, book, claim.id)?;
    print_claimed(writer, book, claim)?;
    print_note(writer, &claim.note)?;
    put(writer, b"\n")
}

/// The claim at a position in the queue, counted from 0.
pub(crate) fn claim_at<A: Allocator + Copy>(book: &Book<A>, position: usize) -> &Claim
    requires { position < length book.now.line }
    ensures { slice_get book.now.line position ≡ Some result.now }
{
    book.line().at(position).unwrap()
}

/// Writes the lines of all claims, in the order of the queue.
pub(crate) fn print_claims<W: Write, A: Allocator + Copy>(
    writer: &mut W,
    book: &Book<A>,
) -> Result<(), PrintError>
    ensures { Writes (W.contents writer.old) (W.contents writer.new) (flat_map (claim_line book.now) book.now.line) result }
{
    for position in 0..book.line().len() {
        print_claim(writer, book, claim_at(book, position))?;
    }
    Ok(())
}
