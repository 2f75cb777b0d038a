//! Readers of single fields at the front of a slice. They take no memory. Each returns the field and what stands
//! behind it, or `None` where no such field stands at the front.
ghost use Rattle.std.specs.Prelude.{◌≡◌, ◌≤◌};
ghost use Rattle.vault_state.specs.Limits.{most_items};
ghost use Rattle.vault_journal.specs.Reading.{Reads, u8_at, u16_at, u32_at, u64_at, bytes_at, name_at, item_at, each_item_at, items_at, content_at, note_at};

use vault_model::{Intent, Item, Items, LONGEST_CONTENT, MAX_ITEMS, Name, Note, PlaceId};

/// The number in the first byte.
pub fn u8_at(bytes: &[u8]) -> Option<(u8, &[u8])>
    ensures { Reads (λ x. (x.0, x.1.now)) result (u8_at bytes.now) }
{
    let (byte, rest) = bytes.split_first()?;
    Some((*byte, rest))
}

/// The number in the first two bytes.
pub fn u16_at(bytes: &[u8]) -> Option<(u16, &[u8])>
    ensures { Reads (λ x. (x.0, x.1.now)) result (u16_at bytes.now) }
{
    if bytes.len() < 2 {
        return None;
    }
    let (front, rest) = bytes.split_at(2);
    Some((u16::from_be_bytes([front[0], front[1]]), rest))
}

/// The number in the first four bytes.
pub fn u32_at(bytes: &[u8]) -> Option<(u32, &[u8])>
    ensures { Reads (λ x. (x.0, x.1.now)) result (u32_at bytes.now) }
{
    if bytes.len() < 4 {
        return None;
    }
    let (front, rest) = bytes.split_at(4);
    let number = u32::from_be_bytes([front[0], front[1], front[2], front[3]]);
    Some((number, rest))
}

/// The number in the first eight bytes.
pub fn u64_at(bytes: &[u8]) -> Option<(u64, &[u8])>
    ensures { Reads (λ x. (x.0, x.1.now)) result (u64_at bytes.now) }
{
    if bytes.len() < 8 {
        return None;
    }
    let (front, rest) = bytes.split_at(8);
    let number = u64::from_be_bytes([
        front[0], front[1], front[2], front[3], front[4], front[5], front[6], front[7],
    ]);
    Some((number, rest))
}

// The first `count` bytes.
fn bytes_at(count: usize, bytes: &[u8]) -> Option<(&[u8], &[u8])>
    ensures { Reads (λ x. (x.0.now, x.1.now)) result (bytes_at count bytes.now) }
{
    if bytes.len() < count {
        return None;
    }
    let (front, rest) = bytes.split_at(count);
    Some((front, rest))
}

/// The name.
#[tactic(auto, unfolding(crate::specs::Reading::name_at))]
pub fn name_at(bytes: &[u8]) -> Option<(Name, &[u8])>
    ensures { Reads (λ x. (x.0, x.1.now)) result (name_at bytes.now) }
{
    let (count, rest) = u8_at(bytes)?;
    let (text, rest) = bytes_at(usize::from(count), rest)?;
    let name = Name::read(text)?;
    Some((name, rest))
}

/// The note.
#[tactic(auto, unfolding(crate::specs::Reading::note_at))]
pub fn note_at(bytes: &[u8]) -> Option<(Note, &[u8])>
    ensures { Reads (λ x. (x.0, x.1.now)) result (note_at bytes.now) }
{
    let (count, rest) = u8_at(bytes)?;
    let (text, rest) = bytes_at(usize::from(count), rest)?;
    let note = Note::read(text)?;
    Some((note, rest))
}

/// The content.
#[tactic(auto, unfolding(crate::specs::Reading::content_at))]
pub fn content_at(bytes: &[u8]) -> Option<(&[u8], &[u8])>
    ensures { Reads (λ x. (x.0.now, x.1.now)) result (content_at bytes.now) }
{
    let (count, rest) = u16_at(bytes)?;
    let count = usize::from(count);
    if LONGEST_CONTENT < count {
        return None;
    }
    bytes_at(count, rest)
}

/// The item.
#[tactic(auto, unfolding(crate::specs::Reading::item_at))]
pub fn item_at(bytes: &[u8]) -> Option<(Item, &[u8])>
    ensures { Reads (λ x. (x.0, x.1.now)) result (item_at bytes.now) }
{
    let (intent, rest) = match bytes {
        [0, rest @ ..] => (Intent::Look, rest),
        [1, rest @ ..] => (Intent::Change, rest),
        _ => return None,
    };
    let (place, rest) = u32_at(rest)?;
    let place = PlaceId(place);
    Some((Item { intent, place }, rest))
}

// The first `count` items.
fn each_item_at(count: usize, bytes: &[u8]) -> Option<(Items, &[u8])>
    requires { count ≤ most_items }
    ensures { Reads (λ x. (x.0, x.1.now)) result (each_item_at count bytes.now) }
{
    let mut items = Items::new();
    let mut rest = bytes;
    for _ in 0..count {
        let Some((item, after)) = item_at(rest) else {
            return None;
        };
        items.push(item);
        rest = after;
    }
    Some((items, rest))
}

/// The items of a claim, 1 to 8 of them behind their count.
#[tactic(auto, unfolding(crate::specs::Reading::items_at))]
pub fn items_at(bytes: &[u8]) -> Option<(Items, &[u8])>
    ensures { Reads (λ x. (x.0, x.1.now)) result (items_at bytes.now) }
{
    let (count, rest) = u8_at(bytes)?;
    let count = usize::from(count);
    if count < 1 || MAX_ITEMS < count {
        return None;
    }
    each_item_at(count, rest)
}
