//! Paths of places.
ghost use Rattle.std.specs.Prelude.{◌≡◌, ℕ, ◌+◌, ◌-◌, ◌<◌, ◌≤◌, ◌↔◌, List, [], ◌∷◌, ◌++◌, length, take, IsTrue, IfSome, Option};
ghost use Rattle.std.specs.Option.{option_map};
ghost use Rattle.std.specs.Cmp.Lexicographic.{pointwise, lists_per, lists_equiv};
ghost use Rattle.std.specs.Cmp.Rules.{comparing};
ghost use Rattle.std.proofs.Common.{rules};
ghost use Rattle.vault_state.specs.Limits.{most_names};
ghost use Rattle.vault_state.specs.Path.{front, last, path_in, names_in};

use crate::split::cut;
use crate::{MAX_NAMES, Name};
use std::marker::Model;

/// A path from the library: the names on the way, at most `MAX_NAMES`. The library's own path has none.
#[derive(Clone, Copy, Debug)]
pub struct Path {
    names: [Name; MAX_NAMES],
    len: usize,
}

impl Model for Path {
    ghost use Rattle.std.specs.Prelude.{List, ℕ, length, take};
    ghost use Rattle.vault_state.specs.Path.{filled, IsFilled, inverse_of_filled};

    ghost Value = { List (List ℕ) };

    ghost view = { λ p. take p.len p.names };

    // Invariant 2 of lib.rt.
    ghost invariant = { λ p. IsFilled p.names p.len };

    ghost inverse = { λ names. record { names = filled names; len = length names } };

    ghost inverse_ok = { λ p h i. record {
      names = (inverse_of_filled p.names p.len h).0 i;
      len = (inverse_of_filled p.names p.len h).1 i;
    } };
}

impl Path {
    /// The library's path.
    pub fn root() -> Path
        ensures { result ≡ [] }
    {
        Path {
            names: [Name::blank(); MAX_NAMES],
            len: 0,
        }
    }

    /// The path that these bytes spell, where they spell one: `/`, or names with a slash before each.
    pub fn read(text: &[u8]) -> Option<Path>
        ensures { result ≡ path_in text.now }
    {
        if text == b"/".as_slice() {
            return Some(Path::root());
        }
        match text {
            [b'/', names @ ..] => Path::read_names(names),
            _ => None,
        }
    }

    /// The path of the names that stand between slashes.
    fn read_names(text: &[u8]) -> Option<Path>
        ensures { result ≡ names_in text.now }
    {
        let mut path = Path::root();
        let mut rest = Some(text);
        while let Some(text) = rest {
            let (word, behind) = cut(text, b'/');
            let name = Name::read(word)?;
            if path.len() == MAX_NAMES {
                return None;
            }
            path.push(name);
            rest = behind;
        }
        Some(path)
    }

    /// How many names there are.
    pub fn len(&self) -> usize
        ensures len { result ≡ length self.now }
        ensures short { result ≤ most_names }
    {
        self.len
    }

    /// The names on the way.
    pub fn names(&self) -> &[Name]
        ensures names { result.now ≡ self.now }
        ensures short { length self.now ≤ most_names }
    {
        &self.names[..self.len]
    }

    /// The last name, and the names before it.
    pub fn split_last(&self) -> Option<(Name, &[Name])>
        ensures last { option_map (λ p. p.0) result ≡ last self.now }
        ensures front { IfSome result (λ p. p.1.now ≡ front self.now) }
    {
        let names = self.names();
        if names.is_empty() {
            return None;
        }
        Some((names[names.len() - 1], &names[..names.len() - 1]))
    }

    /// This path with one more name at the end.
    pub fn joined(&self, name: Name) -> Path
        requires { length self.now < most_names }
        ensures { result ≡ self.now ++ name ∷ [] }
    {
        let mut names = self.names;
        names[self.len] = name;
        Path {
            names,
            len: self.len + 1,
        }
    }

    /// Puts one more name at the end.
    fn push(&mut self, name: Name)
        requires { length self.old < most_names }
        ensures { self.new ≡ self.old ++ name ∷ [] }
    {
        *self = self.joined(name);
    }
}

impl PartialEq for Path {
    ghost eq = { pointwise ⟦<Name as PartialEq>⟧.eq };

    ghost laws = { lists_per (Prim.search (comparing, rules)) };

    fn eq(&self, other: &Path) -> bool {
        self.names() == other.names()
    }
}

impl Eq for Path {
    ghost laws = { lists_equiv (Prim.search (comparing, rules)) };
}
