//! Writers of single fields into a slice. They take no memory. Each returns the offset behind what it wrote.
ghost use Rattle.std.specs.Prelude.{◌≡◌, ◌≤◌, ◌<◌, ◌+◌, ◌*◌, ◌∷◌, [], length};
ghost use Rattle.vault_journal.specs.Spelling.{in_two, in_four, in_eight, name_bytes, intent_byte, item_bytes, items_bytes, content_bytes, note_bytes, longest_content};
ghost use Rattle.vault_journal.specs.Written.{IsWritten};

use byteorder::{BigEndian, ByteOrder};
use vault_model::{Intent, Item, Name, Note};

/// Writes a number in one byte.
pub fn put_u8(out: &mut [u8], at: usize, n: u8) -> usize
    requires { at + 1 ≤ length out.old }
    ensures { IsWritten at (n ∷ []) result out.old out.new }
{
    out[at] = n;
    at + 1
}

/// Writes a number in two bytes.
pub fn put_u16(out: &mut [u8], at: usize, n: u16) -> usize
    requires { at + 2 ≤ length out.old }
    ensures { IsWritten at (in_two n) result out.old out.new }
{
    BigEndian::write_u16(&mut out[at..at + 2], n);
    at + 2
}

/// Writes a number in four bytes.
pub fn put_u32(out: &mut [u8], at: usize, n: u32) -> usize
    requires { at + 4 ≤ length out.old }
    ensures { IsWritten at (in_four n) result out.old out.new }
{
    BigEndian::write_u32(&mut out[at..at + 4], n);
    at + 4
}

/// Writes a number in eight bytes.
pub fn put_u64(out: &mut [u8], at: usize, n: u64) -> usize
    requires { at + 8 ≤ length out.old }
    ensures { IsWritten at (in_eight n) result out.old out.new }
{
    BigEndian::write_u64(&mut out[at..at + 8], n);
    at + 8
}

/// Writes bytes, with no length before them.
pub fn put_bytes(out: &mut [u8], at: usize, bytes: &[u8]) -> usize
    requires { at + length bytes.now ≤ length out.old }
    ensures { IsWritten at bytes.now result out.old out.new }
{
    out[at..at + bytes.len()].copy_from_slice(bytes);
    at + bytes.len()
}

/// Writes a name.
pub fn put_name(out: &mut [u8], at: usize, name: &Name) -> usize
    requires { at + 1 + length name.now ≤ length out.old }
    ensures { IsWritten at (name_bytes name.now) result out.old out.new }
{
    let text = name.as_bytes();
    let at = put_u8(out, at, text.len() as u8);
    put_bytes(out, at, text)
}

/// Writes a note.
pub fn put_note(out: &mut [u8], at: usize, note: &Note) -> usize
    requires { at + 1 + length note.now ≤ length out.old }
    ensures { IsWritten at (note_bytes note.now) result out.old out.new }
{
    let text = note.as_bytes();
    let at = put_u8(out, at, text.len() as u8);
    put_bytes(out, at, text)
}

/// Writes a content.
pub fn put_content(out: &mut [u8], at: usize, content: &[u8]) -> usize
    requires short { length content.now ≤ longest_content }
    requires room { at + 2 + length content.now ≤ length out.old }
    ensures { IsWritten at (content_bytes content.now) result out.old out.new }
{
    let at = put_u16(out, at, content.len() as u16);
    put_bytes(out, at, content)
}

fn intent_byte(intent: Intent) -> u8
    ensures { result ≡ intent_byte intent }
{
    match intent {
        Intent::Look => 0,
        Intent::Change => 1,
    }
}

/// Writes an item.
pub fn put_item(out: &mut [u8], at: usize, item: &Item) -> usize
    requires { at + 5 ≤ length out.old }
    ensures { IsWritten at (item_bytes item.now) result out.old out.new }
{
    let at = put_u8(out, at, intent_byte(item.intent));
    put_u32(out, at, item.place.number())
}

/// Writes the number of items, then each item.
pub fn put_items(out: &mut [u8], at: usize, items: &[Item]) -> usize
    requires few { length items.now < 256 }
    requires room { at + 1 + 5 * length items.now ≤ length out.old }
    ensures { IsWritten at (items_bytes items.now) result out.old out.new }
{
    let mut next = put_u8(out, at, items.len() as u8);
    for item in items {
        next = put_item(out, next, item);
    }
    next
}
