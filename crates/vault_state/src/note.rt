//! Notes of check-outs.
ghost use Rattle.std.specs.Prelude.{◌≡◌, ℕ, ◌≤◌, List, [], length};
ghost use Rattle.std.proofs.Common.{rules};
ghost use Rattle.std.specs.Str.{bytes_eq};
ghost use Rattle.std.specs.Cmp.Rules.{comparing};
ghost use Rattle.vault_state.specs.Limits.{longest_note};
ghost use Rattle.vault_state.specs.Note.{note_in, padded};

use crate::LONGEST_NOTE;
use std::marker::Model;

/// A note, stored inline: at most 64 bytes, whatever they are.
#[derive(Clone, Copy, Debug)]
pub struct Note {
    bytes: [u8; LONGEST_NOTE],
    len: usize,
}

impl Model for Note {
    ghost use Rattle.std.specs.Prelude.{List, ℕ, length, take};
    ghost use Rattle.vault_state.specs.Note.{padded, IsPadded, inverse_of_padded};

    ghost Value = { List ℕ };

    ghost view = { λ n. take n.len n.bytes };

    // Invariant 4 of lib.rt.
    ghost invariant = { λ n. IsPadded n.bytes n.len };

    ghost inverse = { λ text. record { bytes = padded text; len = length text } };

    ghost inverse_ok = { λ n h i. record {
      bytes = (inverse_of_padded n.bytes n.len h).0 i;
      len = (inverse_of_padded n.bytes n.len h).1 i;
    } };
}

/// The bytes, with zeros behind them.
fn in_room(text: &[u8]) -> [u8; LONGEST_NOTE]
    requires { length text.now ≤ longest_note }
    ensures { result ≡ padded text.now }
{
    let mut bytes = [0; LONGEST_NOTE];
    bytes[..text.len()].copy_from_slice(text);
    bytes
}

impl Note {
    /// No note.
    pub fn new() -> Note
        ensures { result ≡ [] }
    {
        Note {
            bytes: [0; LONGEST_NOTE],
            len: 0,
        }
    }

    /// The note that these bytes are, where they are few enough. Takes no memory.
    pub fn read(text: &[u8]) -> Option<Note>
        ensures { result ≡ note_in text.now }
    {
        if text.len() > LONGEST_NOTE {
            return None;
        }
        Some(Note {
            bytes: in_room(text),
            len: text.len(),
        })
    }

    /// The bytes of the note.
    pub fn as_bytes(&self) -> &[u8]
        ensures bytes { result.now ≡ self.now }
        ensures short { length self.now ≤ longest_note }
    {
        &self.bytes[..self.len]
    }
}

impl PartialEq for Note {
    ghost eq = { bytes_eq };

    ghost laws = { Prim.search (comparing, rules) };

    fn eq(&self, other: &Note) -> bool {
        self.as_bytes() == other.as_bytes()
    }
}

impl Eq for Note {
    ghost laws = { Prim.search (comparing, rules) };
}
