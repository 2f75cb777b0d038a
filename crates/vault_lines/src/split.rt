//! The words of a line.

ghost use Rattle.std.specs.Prelude.{◌≡◌, ◌==◌, IfOk, map};
ghost use Rattle.std.specs.List.{slice_split};

use std::alloc::{AllocError, Allocator};
use vault_state::split::cut;

/// The words of the line, which single spaces separate.
pub(crate) fn words_of<A: Allocator>(alloc: A, line: &[u8]) -> Result<Vec<&[u8], A>, AllocError>
    ensures { IfOk result (λ words. map (λ word. word.now) words.items ≡ slice_split (λ b. b == 32) line.now) }
{
    let mut words = Vec::new(alloc);
    let mut rest = Some(line);
    while let Some(bytes) = rest {
        let (word, behind) = cut(bytes, b' ');
        words.push(word)?;
        rest = behind;
    }
    Ok(words)
}
