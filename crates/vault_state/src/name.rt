//! Names of designers and of places.
ghost use Rattle.std.specs.Prelude.{◌≡◌, ℕ, ◌+◌, ◌-◌, ◌<◌, ◌≤◌, ◌↔◌, List, [], ◌∷◌, ◌++◌, length, take, IsSome, IfSome, IsTrue};
ghost use Rattle.std.proofs.Common.{rules};
ghost use Rattle.std.specs.Str.{bytes_eq};
ghost use Rattle.std.specs.Cmp.Rules.{comparing};
ghost use Rattle.std.specs.List.{list_all};
ghost use Rattle.vault_state.specs.Limits.{longest_name};
ghost use Rattle.vault_state.specs.Name.{IsName, is_name, is_name_byte, name_in, padded};
ghost use Rattle.vault_state.specs.Path.{blank};

use crate::LONGEST_NAME;
use std::marker::Model;

/// A name, stored inline: 1 to 32 bytes of `a-z`, `0-9`, `_` and `-`.
#[derive(Clone, Copy, Debug)]
pub struct Name {
    bytes: [u8; LONGEST_NAME],
    len: usize,
}

impl Model for Name {
    ghost use Rattle.std.specs.Prelude.{◌≡◌, ℕ, ◌-◌, List, ◌++◌, length, take, replicate};
    ghost use Rattle.vault_state.specs.Name.{IsName, padded, IsPadded, inverse_of_padded};

    ghost Value = { List ℕ };

    ghost view = { λ n. take n.len n.bytes };

    // Invariant 1 of lib.rt.
    ghost invariant = { λ n. IsName (take n.len n.bytes) × IsPadded n.bytes n.len };

    ghost inverse = { λ text. record { bytes = padded text; len = length text } };

    ghost inverse_ok = { λ n h i. record {
      bytes = (inverse_of_padded n.bytes n.len h.1).0 i;
      len = (inverse_of_padded n.bytes n.len h.1).1 i;
    } };
}

/// Whether the byte may stand in a name.
fn may_stand(byte: u8) -> bool
    ensures { result ≡ is_name_byte byte }
{
    matches!(byte, b'a'..=b'z' | b'0'..=b'9' | b'_' | b'-')
}

/// Whether each byte may stand in a name.
fn each_may_stand(text: &[u8]) -> bool
    ensures { result ≡ list_all is_name_byte text.now }
{
    text.iter().all(|byte| may_stand(*byte))
}

/// Whether the bytes are a name.
fn is_name(text: &[u8]) -> bool
    ensures { result ≡ is_name text.now }
{
    1 <= text.len() && text.len() <= LONGEST_NAME && each_may_stand(text)
}

/// The bytes, with zeros behind them.
fn in_room(text: &[u8]) -> [u8; LONGEST_NAME]
    requires { length text.now ≤ longest_name }
    ensures { result ≡ padded text.now }
{
    let mut bytes = [0; LONGEST_NAME];
    bytes[..text.len()].copy_from_slice(text);
    bytes
}

impl Name {
    /// The name that these bytes are, where they are one. Takes no memory.
    pub fn read(text: &[u8]) -> Option<Name>
        ensures { result ≡ name_in text.now }
    {
        if !is_name(text) {
            return None;
        }
        Some(Name {
            bytes: in_room(text),
            len: text.len(),
        })
    }

    /// The name that fills spare room in a path.
    pub(crate) fn blank() -> Name
        ensures { result ≡ blank }
    {
        Name {
            bytes: in_room(b"_"),
            len: 1,
        }
    }

    /// The bytes of the name.
    pub fn as_bytes(&self) -> &[u8]
        ensures bytes { result.now ≡ self.now }
        ensures name { IsName self.now }
    {
        &self.bytes[..self.len]
    }
}

impl PartialEq for Name {
    ghost eq = { bytes_eq };

    ghost laws = { Prim.search (comparing, rules) };

    fn eq(&self, other: &Name) -> bool {
        self.as_bytes() == other.as_bytes()
    }
}

impl Eq for Name {
    ghost laws = { Prim.search (comparing, rules) };
}
