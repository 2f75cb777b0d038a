//! Parts of a text between separators.
ghost use Rattle.std.specs.Prelude.{◌≡◌, ◌<◌, ◌==◌, ◌∷◌, length, position, IfSome};
ghost use Rattle.std.specs.Option.{option_copied};
ghost use Rattle.std.specs.List.{slice_split};
ghost use Rattle.vault_state.specs.Splits.{parts_behind};

use memchr::memchr;

/// Where the separator stands first.
fn position_of(text: &[u8], separator: u8) -> Option<usize>
    ensures place { result ≡ position (λ b. b == separator) text.now }
    ensures within { IfSome result (λ at. at < length text.now) }
{
    memchr(separator, text)
}

/// The part before the first separator, and what stands behind that separator, where there is one.
/// One pass over the part.
pub fn cut(text: &[u8], separator: u8) -> (&[u8], Option<&[u8]>)
    ensures parts { slice_split (λ b. b == separator) text.now ≡ result.0.now ∷ parts_behind separator (option_copied result.1) }
    ensures shorter { IfSome result.1 (λ rest. length rest.now < length text.now) }
{
    match position_of(text, separator) {
        Some(at) => {
            let (part, _) = text.split_at(at);
            let (_, rest) = text.split_at(at + 1);
            (part, Some(rest))
        }
        None => (text, None),
    }
}
