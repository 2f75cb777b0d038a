//! Walks over a list of places, each of which names its parent.
ghost use Rattle.std.specs.Prelude.{◌≡◌, ℕ, ◌+◌, ◌-◌, ◌<◌, ◌≤◌, ◌==◌, List, length, slice_get, IfSome, IfOk, All};
ghost use Rattle.std.specs.List.{find, filter_map};
ghost use Rattle.vault_state.specs.Tree.{parent_of, name_of, is_under, depth, kind_of, is_part_kind, is_between, may_stand, kind_at, path_of, IsTree};
ghost use Rattle.vault_state.specs.Limits.{greatest_depth};
ghost use Rattle.design_tree.specs.Index.{has_name};

use std::alloc::Allocator;
use vault_state::{GREATEST_DEPTH, Kind, Name, NoMemory, PART_DEPTH, Path, Place, PlaceId};

/// The parent of a place.
pub fn parent_in(places: &[Place], place: PlaceId) -> Option<PlaceId>
    requires { place ≤ length places.now }
    ensures { result ≡ parent_of places.now place }
{
    if place.number() == 0 {
        return None;
    }
    Some(places[place.number() as usize - 1].parent)
}

/// The name of a place.
pub fn name_in(places: &[Place], place: PlaceId) -> Option<Name>
    requires { place ≤ length places.now }
    ensures { result ≡ name_of places.now place }
{
    if place.number() == 0 {
        return None;
    }
    Some(places[place.number() as usize - 1].name)
}

/// Whether a place has this name.
fn has_name(places: &[Place], place: PlaceId, name: &Name) -> bool
    requires { place ≤ length places.now }
    ensures { result ≡ has_name places.now name.now place }
{
    match name_in(places, place) {
        Some(own) => own == *name,
        None => false,
    }
}

/// The first of some places that has this name.
pub fn first_named(places: &[Place], among: &[PlaceId], name: &Name) -> Option<PlaceId>
    requires { All (λ p. p ≤ length places.now) among.now }
    ensures { result ≡ find (has_name places.now name.now) among.now }
{
    for place in among {
        if has_name(places, *place, name) {
            return Some(*place);
        }
    }
    None
}

/// The names of some places, in order.
pub fn names_in<A: Allocator>(
    alloc: A,
    places: &[Place],
    among: &[PlaceId],
) -> Result<Vec<Name, A>, NoMemory>
    requires { All (λ p. p ≤ length places.now) among.now }
    ensures { IfOk result (λ names. names.items ≡ filter_map (name_of places.now) among.now) }
{
    let mut names = Vec::new(alloc);
    names.reserve(among.len()).map_err(|_| NoMemory)?;
    for place in among {
        if let Some(name) = name_in(places, *place) {
            names.push(name).map_err(|_| NoMemory)?;
        }
    }
    Ok(names)
}

/// Whether a place is another, or lies under it.
pub fn is_under_in(places: &[Place], place: PlaceId, top: PlaceId) -> bool
    requires tree { IsTree places.now }
    requires there { place ≤ length places.now }
    ensures { result ≡ is_under places.now place top }
{
    let mut at = place;
    while let Some(parent) = parent_in(places, at) {
        if at == top {
            return true;
        }
        at = parent;
    }
    at == top
}

/// The number of ancestors that a place has.
pub fn depth_in(places: &[Place], place: PlaceId) -> usize
    requires tree { IsTree places.now }
    requires there { place ≤ length places.now }
    ensures depth { result ≡ depth places.now place }
    ensures shallow { result ≤ greatest_depth }
{
    let mut at = place;
    let mut steps = 0;
    while let Some(parent) = parent_in(places, at) {
        steps += 1;
        at = parent;
    }
    steps
}

/// The kind of a place.
pub fn kind_in(places: &[Place], place: PlaceId) -> Kind
    requires { place ≤ length places.now }
    ensures { result ≡ kind_of places.now place }
{
    if place.number() == 0 {
        return Kind::Library;
    }
    places[place.number() as usize - 1].kind
}

/// Whether a kind is that of parts.
pub fn is_part_kind(kind: Kind) -> bool
    ensures { result ≡ is_part_kind kind }
{
    matches!(kind, Kind::Part)
}

/// Whether both an assembly and a part may stand at a depth.
pub fn is_between(depth: usize) -> bool
    ensures { result ≡ is_between depth }
{
    PART_DEPTH <= depth && depth < GREATEST_DEPTH
}

/// Whether a place of a kind may stand at a depth.
pub fn may_stand(kind: Kind, depth: usize) -> bool
    ensures { result ≡ may_stand kind depth }
{
    match kind {
        Kind::Library => depth == 0,
        Kind::Project => depth == 1,
        Kind::Assembly => depth == 2 || is_between(depth),
        Kind::Part => is_between(depth) || depth == GREATEST_DEPTH,
    }
}

/// The kind that is made at a depth by default.
pub fn kind_at(depth: usize) -> Kind
    ensures { result ≡ kind_at depth }
{
    match depth {
        1 => Kind::Project,
        2 => Kind::Assembly,
        _ => Kind::Part,
    }
}

/// The names on the way to a place.
pub fn path_in(places: &[Place], place: PlaceId) -> Path
    requires tree { IsTree places.now }
    requires there { place ≤ length places.now }
    ensures path { result ≡ path_of places.now place }
    ensures len { length result ≡ depth places.now place }
{
    let Some(parent) = parent_in(places, place) else {
        return Path::root();
    };
    path_in(places, parent).joined(places[place.number() as usize - 1].name)
}
