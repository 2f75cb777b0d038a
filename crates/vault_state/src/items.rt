//! The items of a claim.
ghost use Rattle.std.specs.Prelude.{◌≡◌, ℕ, ◌+◌, ◌<◌, ◌≤◌, List, [], ◌∷◌, ◌++◌, length};
ghost use Rattle.std.specs.Cmp.Lexicographic.{pointwise, lists_per, lists_equiv};
ghost use Rattle.std.proofs.Common.{rules};
ghost use Rattle.std.specs.Cmp.Rules.{comparing};
ghost use Rattle.vault_state.specs.Limits.{most_items};

use crate::{Intent, Item, MAX_ITEMS, PlaceId};
use std::marker::Model;

/// Up to `MAX_ITEMS` items, stored inline.
#[derive(Clone, Copy, Debug)]
pub struct Items {
    room: [Item; MAX_ITEMS],
    len: usize,
}

impl Model for Items {
    ghost use Rattle.std.specs.Prelude.{List, length, take};
    ghost use Rattle.vault_state.specs.declared.claims.Item.{Item};
    ghost use Rattle.vault_state.specs.Items.{roomed, IsRoomed, inverse_of_roomed};

    ghost Value = { List Item };

    ghost view = { λ l. take l.len l.room };

    // Invariant 3 of lib.rt.
    ghost invariant = { λ l. IsRoomed l.room l.len };

    ghost inverse = { λ items. record { room = roomed items; len = length items } };

    ghost inverse_ok = { λ l h i. record {
      room = (inverse_of_roomed l.room l.len h).0 i;
      len = (inverse_of_roomed l.room l.len h).1 i;
    } };
}

impl Items {
    /// No items.
    pub fn new() -> Items
        ensures { result ≡ [] }
    {
        Items {
            room: [Item {
                intent: Intent::Look,
                place: PlaceId(0),
            }; MAX_ITEMS],
            len: 0,
        }
    }

    /// How many there are.
    pub fn len(&self) -> usize
        ensures len { result ≡ length self.now }
        ensures few { result ≤ most_items }
    {
        self.len
    }

    /// The items, in order.
    pub fn as_slice(&self) -> &[Item]
        ensures items { result.now ≡ self.now }
        ensures few { length self.now ≤ most_items }
    {
        &self.room[..self.len]
    }

    /// The items with one more at the end.
    pub fn with(self, item: Item) -> Items
        requires { length self < most_items }
        ensures { result ≡ self ++ item ∷ [] }
    {
        let mut room = self.room;
        room[self.len] = item;
        Items {
            room,
            len: self.len + 1,
        }
    }

    /// Puts one more item at the end.
    pub fn push(&mut self, item: Item)
        requires { length self.old < most_items }
        ensures { self.new ≡ self.old ++ item ∷ [] }
    {
        *self = self.with(item);
    }
}

impl PartialEq for Items {
    ghost eq = { pointwise ⟦<Item as PartialEq>⟧.eq };

    ghost laws = { lists_per (Prim.search (comparing, rules)) };

    fn eq(&self, other: &Items) -> bool {
        self.as_slice() == other.as_slice()
    }
}

impl Eq for Items {
    ghost laws = { lists_equiv (Prim.search (comparing, rules)) };
}
