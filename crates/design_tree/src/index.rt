//! The index: for each place, from the library on, the list of its children.
ghost use Rattle.std.specs.Prelude.{◌≡◌, ℕ, ◌+◌, ◌<◌, ◌≤◌, map, vec_len, OnOk, OnErr};
ghost use Rattle.design_tree.specs.Index.{with_child};

use std::alloc::{AllocError, Allocator};
use vault_state::PlaceId;

/// Appends a new place to the list of its siblings, and an empty list for its own children to the
/// lists. If memory is refused, all lists stay as they were.
pub fn enter<A: Allocator + Copy>(
    lists: &mut Vec<Vec<PlaceId, A>, A>,
    parent: PlaceId,
    place: PlaceId,
) -> Result<(), AllocError>
    requires { parent < vec_len lists.old }
    ensures ok { OnOk result (map (λ v. v.items) lists.new.items ≡ with_child (map (λ v. v.items) lists.old.items) parent place) }
    ensures err { OnErr result (map (λ v. v.items) lists.new.items ≡ map (λ v. v.items) lists.old.items) }
{
    let alloc = *lists.allocator();
    lists.reserve(1)?;
    lists[parent.number() as usize].push(place)?;
    lists.push(Vec::new(alloc)).unwrap();
    Ok(())
}
