//! Laws of the modes and of groups, over their definitions alone.
ghost use Rattle.std.specs.Prelude.{◌≡◌, ◌∷◌, ◌&&◌, not, List, IsTrue, Some};
ghost use Rattle.std.specs.List.{list_all};
ghost use Rattle.lock_modes.specs.declared.mode.Mode.{Mode};
ghost use Rattle.lock_modes.specs.Modes.{compatible, at_least, join, join_of, join_all, incompatible};
ghost use Rattle.lock_modes.specs.Groups.{group_of, members};

/// `at_least` is a partial order of the modes.
pub fn modes_are_ordered()
    ensures itself { (m : Mode) → IsTrue (at_least m m) }
    ensures through { (l m n : Mode) →
        IsTrue (at_least l m) → IsTrue (at_least m n) → IsTrue (at_least l n) }
    ensures both { (m n : Mode) → IsTrue (at_least m n) → IsTrue (at_least n m) → m ≡ n }
{}

/// The join of two modes is their least upper bound in that order.
pub fn join_is_least_upper_bound()
    ensures left { (m n : Mode) → IsTrue (at_least (join m n) m) }
    ensures right { (m n : Mode) → IsTrue (at_least (join m n) n) }
    ensures least { (l m n : Mode) →
        IsTrue (at_least l m) → IsTrue (at_least l n) → IsTrue (at_least l (join m n)) }
{}

/// Compatibility is symmetric. A lower mode is compatible with all that a higher one is compatible
/// with. A join is compatible with exactly the modes that both its parts are compatible with.
pub fn compatibility_falls()
    ensures symmetric { (m n : Mode) → compatible m n ≡ compatible n m }
    ensures falls { (l m n : Mode) →
        IsTrue (at_least l m) → IsTrue (compatible l n) → IsTrue (compatible m n) }
    ensures joined { (l m n : Mode) → compatible (join l m) n ≡ (compatible l n && compatible m n) }
{}

/// A group answers as the list of its members' modes does, in whatever order they came: it has the
/// same join, and admits the same modes. Its mode alone says which modes it admits.
pub fn groups_stand_for_their_members()
    ensures mode { (ms : List Mode) → join_all (members (group_of ms)) ≡ join_all ms }
    ensures admits { (ms : List Mode) (n : Mode) →
        list_all (λ m. compatible m n) (members (group_of ms)) ≡ list_all (λ m. compatible m n) ms }
    ensures by_mode { (ms : List Mode) (n : Mode) →
        list_all (λ m. compatible m n) ms ≡ not (incompatible (join_all ms) (Some n)) }
{}
