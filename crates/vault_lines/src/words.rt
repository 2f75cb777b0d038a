//! Single words of a line.

ghost use Rattle.std.specs.Prelude.{◌≡◌, List, map};
ghost use Rattle.vault_lines.specs.Words.{claim_in, content_in, long_in, number_in, positive_in, short_in};
ghost use Rattle.vault_lines.specs.Items.{item_in, items_in};
ghost use Rattle.vault_lines.specs.Reading.{Gives};

use crate::digits::write_bytes;
use crate::error::LineError;
use itoa::Buffer;
use std::alloc::Allocator;
use vault_model::{ClaimId, Intent, Listing, Path, PathItem};

/// The number below 2^32 whose decimal text the word is, so without leading zeros.
pub fn read_number(word: &[u8]) -> Option<u32>
    ensures { result ≡ number_in word.now }
{
    let Ok(text) = std::str::from_utf8(word) else {
        return None;
    };
    let Ok(number) = text.parse::<u32>() else {
        return None;
    };
    if Buffer::new().format(number).as_bytes() == word {
        Some(number)
    } else {
        None
    }
}

/// A number from 1 on.
fn read_positive(word: &[u8]) -> Option<u32>
    ensures { result ≡ positive_in word.now }
{
    match read_number(word) {
        Some(0) | None => None,
        Some(number) => Some(number),
    }
}

/// The number of a long claim.
pub(crate) fn read_long(word: &[u8]) -> Option<u32>
    ensures { result ≡ long_in word.now }
{
    match word {
        [b'c', digits @ ..] => read_positive(digits),
        _ => None,
    }
}

/// The number of a short claim.
pub(crate) fn read_short(word: &[u8]) -> Option<u32>
    ensures { result ≡ short_in word.now }
{
    match word {
        [b'h', digits @ ..] => read_positive(digits),
        _ => None,
    }
}

/// The claim that the word names.
pub(crate) fn read_claim(word: &[u8]) -> Option<ClaimId>
    ensures { result ≡ claim_in word.now }
{
    match word {
        [b'c', digits @ ..] => read_positive(digits).map(ClaimId::Long),
        [b'h', digits @ ..] => read_positive(digits).map(ClaimId::Short),
        _ => None,
    }
}

/// The item that the word spells.
fn read_item(word: &[u8]) -> Option<PathItem>
    ensures { result ≡ item_in word.now }
{
    let (intent, path) = match word {
        [b'r', b':', path @ ..] => (Intent::Look, path),
        [b'w', b':', path @ ..] => (Intent::Change, path),
        _ => return None,
    };
    let path = Path::read(path)?;
    Some(PathItem { intent, path })
}

/// The items that the words spell, one or more.
pub(crate) fn read_items<A: Allocator>(
    alloc: A,
    words: &[&[u8]],
) -> Result<Listing<PathItem, A>, LineError>
    ensures { Gives result (items_in (map (λ word. word.now) words.now)) }
{
    if words.is_empty() {
        return Err(LineError::BadLine);
    }
    let mut items = Vec::new(alloc);
    for word in words {
        let Some(item) = read_item(word) else {
            return Err(LineError::BadLine);
        };
        items.push(item)?;
    }
    Ok(Listing::from_vec(items))
}

/// The content that the word spells in hexadecimal digits of either case, `-` for no bytes.
pub(crate) fn read_content<A: Allocator>(alloc: A, word: &[u8]) -> Result<Listing<u8, A>, LineError>
    ensures { Gives result (content_in word.now) }
{
    if word == b"-".as_slice() {
        return Ok(Listing::from_vec(Vec::new(alloc)));
    }
    if word.is_empty() || word.len() % 2 != 0 {
        return Err(LineError::BadLine);
    }
    let mut bytes = vec![in alloc; 0; word.len() / 2]?;
    if write_bytes(word, bytes.as_mut_slice()) {
        Ok(Listing::from_vec(bytes))
    } else {
        drop(bytes);
        Err(LineError::BadLine)
    }
}
