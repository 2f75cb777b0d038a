//! The tree.
ghost use Rattle.std.specs.Prelude.{◌≡◌, ℕ, suc, ◌+◌, ◌-◌, ◌<◌, ◌≤◌, true, false, None, List, [], ◌∷◌, ◌++◌, length, IfOk, IfErr, IfSome, OnOk, OnErr, All};
ghost use Rattle.vault_state.specs.Tree.{new_place, parent_of, name_of, path_of, is_under, depth, is_part, kind_of, may_have, kind_under, may_nest_under, child, find_below, find_place, children_of, names_under, is_full, IsTree};
ghost use Rattle.vault_state.specs.declared.place.Kind.TheVariants.{Assembly};
ghost use Rattle.design_tree.specs.Added.{refusal, refusal_told};

use crate::index::enter;
use crate::walk::{
    depth_in, first_named, is_between, is_part_kind, is_under_in, kind_at, kind_in, may_stand,
    name_in, names_in, parent_in, path_in,
};
use std::alloc::{Allocator, Global};
use std::marker::Model;
use thiserror::Error;
use vault_state::{Kind, Listing, MAX_CHILDREN, MAX_PLACES, Name, NoMemory, Path, Place, PlaceId};

/// The places of a vault. Contracts see them as a list, without the library.
#[derive(Drop)]
pub struct Tree<A: Allocator = Global> {
    places: Vec<Place, A>,
    children: Vec<Vec<PlaceId, A>, A>,
}

impl<A: Allocator> Model for Tree<A> {
    ghost use Rattle.std.specs.Prelude.{List, map};
    ghost use Rattle.vault_state.specs.declared.place.Place.{Place};
    ghost use Rattle.design_tree.specs.Index.{IsSoundTree};

    ghost Value = { List Place };

    ghost view = { λ t. t.places.items };

    ghost invariant = { λ t. IsSoundTree t.places.items (map (λ v. v.items) t.children.items) };
}

/// Why a place was not made.
#[derive(Clone, Copy, Debug, PartialEq, Eq, Error)]
pub enum AddError {
    #[error("no place of the kind stands there")]
    WrongKind,
    #[error("a sibling has the name")]
    Exists,
    #[error("no room for one more place")]
    Limit,
    #[error("want of memory")]
    NoMemory,
}

impl From<NoMemory> for AddError {
    ghost use Rattle.std.specs.Prelude.{◌≡◌};
    ghost use Rattle.design_tree.specs.declared.tree.AddError.TheVariants as errors;

    ghost from_gives = { λ _ e. e ≡ errors.NoMemory };

    fn from(_: NoMemory) -> AddError {
        AddError::NoMemory
    }
}

impl<A: Allocator> Tree<A> {
    /// Does nothing. Its contract states the invariant of every tree, for a proof that needs it.
    pub fn see_whole(&self)
        ensures { IsTree self.now }
    {
        let _ = &self.places;
    }

    /// The number of places, with the library.
    pub fn len(&self) -> usize
        ensures { result ≡ length self.now + 1 }
    {
        self.places.len() + 1
    }

    /// The place at the end of a path. The work grows only with the number of the path's names and of
    /// their parents' children.
    pub fn find(&self, path: &Path) -> Option<PlaceId>
        ensures found { result ≡ find_place self.now path.now }
        ensures there { IfSome result (λ place. place ≤ length self.now) }
    {
        self.find_names(path.names())
    }

    /// The place at the end of these names.
    pub fn find_names(&self, names: &[Name]) -> Option<PlaceId>
        ensures found { result ≡ find_place self.now names.now }
        ensures there { IfSome result (λ place. place ≤ length self.now) }
    {
        let mut at = PlaceId(0);
        for name in names {
            at = self.child(at, name)?;
        }
        Some(at)
    }

    /// The place by this name under a parent. It searches only the parent's children.
    pub fn child(&self, parent: PlaceId, name: &Name) -> Option<PlaceId>
        requires { parent ≤ length self.now }
        ensures { result ≡ child self.now parent name.now }
    {
        first_named(&self.places, self.child_list(parent), name)
    }

    /// The children of a place, as the index has them.
    fn child_list(&self, parent: PlaceId) -> &[PlaceId]
        requires { parent ≤ length self.now }
        ensures { result.now ≡ children_of self.now parent }
    {
        &self.children[parent.number() as usize]
    }

    /// The parent of a place; the library has none.
    pub fn parent(&self, place: PlaceId) -> Option<PlaceId>
        requires { place ≤ length self.now }
        ensures parent { result ≡ parent_of self.now place }
        ensures there { IfSome result (λ parent. parent ≤ length self.now) }
        ensures smaller { IfSome result (λ parent. parent < place) }
        ensures tree { IsTree self.now }
    {
        parent_in(&self.places, place)
    }

    /// The name of a place; the library has none.
    pub fn name_of(&self, place: PlaceId) -> Option<Name>
        requires { place ≤ length self.now }
        ensures { result ≡ name_of self.now place }
    {
        name_in(&self.places, place)
    }

    /// The path of a place. The work grows only with its depth. It takes no memory.
    pub fn path_of(&self, place: PlaceId) -> Path
        requires { place ≤ length self.now }
        ensures { result ≡ path_of self.now place }
    {
        path_in(&self.places, place)
    }

    /// The kind of a place.
    pub fn kind(&self, place: PlaceId) -> Kind
        requires { place ≤ length self.now }
        ensures { result ≡ kind_of self.now place }
    {
        kind_in(&self.places, place)
    }

    /// Whether a place is a part. Under a part there are no places.
    pub fn is_part(&self, place: PlaceId) -> bool
        requires { place ≤ length self.now }
        ensures { result ≡ is_part self.now place }
    {
        is_part_kind(self.kind(place))
    }

    /// The depth that a child of a place would have. The work grows only with the place's depth.
    fn depth_under(&self, parent: PlaceId) -> usize
        requires { parent ≤ length self.now }
        ensures depth { result ≡ suc (depth self.now parent) }
        ensures tree { IsTree self.now }
    {
        depth_in(&self.places, parent) + 1
    }

    /// Whether a place may have a child of a kind. The work grows only with the place's depth.
    pub fn may_have(&self, parent: PlaceId, kind: Kind) -> bool
        requires { parent ≤ length self.now }
        ensures may { result ≡ may_have self.now parent kind }
        ensures tree { IsTree self.now }
    {
        let depth = self.depth_under(parent);
        !self.is_part(parent) && may_stand(kind, depth)
    }

    /// The kind that is made under a place by default. The work grows only with the place's depth.
    pub fn kind_under(&self, parent: PlaceId) -> Kind
        requires { parent ≤ length self.now }
        ensures kind { result ≡ kind_under self.now parent }
        ensures may_have { is_part self.now parent ≡ false → may_have self.now parent result ≡ true }
    {
        kind_at(self.depth_under(parent))
    }

    /// Whether an assembly may be asked for under a place, where the default is a part. The work grows only
    /// with the place's depth.
    pub fn may_nest_under(&self, parent: PlaceId) -> bool
        requires { parent ≤ length self.now }
        ensures nests { result ≡ may_nest_under self.now parent }
        ensures may_have { result ≡ true → is_part self.now parent ≡ false → may_have self.now parent Assembly ≡ true }
    {
        is_between(self.depth_under(parent))
    }

    /// Whether a place is another, or lies under it. The work grows only with the place's depth.
    pub fn is_under(&self, place: PlaceId, top: PlaceId) -> bool
        requires { place ≤ length self.now }
        ensures { result ≡ is_under self.now place top }
    {
        is_under_in(&self.places, place, top)
    }

    /// Whether there is no room for one more place under a parent.
    pub fn is_full(&self, parent: PlaceId) -> bool
        requires { parent ≤ length self.now }
        ensures { result ≡ is_full self.now parent }
    {
        self.len() >= MAX_PLACES || self.child_list(parent).len() >= MAX_CHILDREN
    }
}

impl<A: Allocator + Copy> Tree<A> {
    /// A tree of the library alone, in memory from this allocator. It makes one memory request, for the
    /// library's list of children.
    pub fn new(alloc: A) -> Result<Tree<A>, NoMemory>
        ensures { IfOk result (λ tree. tree ≡ []) }
    {
        let mut children = Vec::new(alloc);
        children.push(Vec::new(alloc)).map_err(|_| NoMemory)?;
        Ok(Tree {
            places: Vec::new(alloc),
            children,
        })
    }

    /// A copy of the tree, in memory from its own allocator: as much as the places and the lists of
    /// children fill.
    pub fn copy(&self) -> Result<Tree<A>, NoMemory>
        ensures { IfOk result (λ copy. copy ≡ self.now) }
    {
        let alloc = *self.places.allocator();
        Ok(Tree {
            places: Vec::from_slice(alloc, &self.places)?,
            children: Vec::from_clones(alloc, &self.children)?,
        })
    }

    /// The children of a place, by rising number, in memory from the tree's own allocator.
    pub fn children(&self, parent: PlaceId) -> Result<Vec<PlaceId, A>, NoMemory>
        requires { parent ≤ length self.now }
        ensures { IfOk result (λ c. c.items ≡ children_of self.now parent) }
    {
        let alloc = *self.places.allocator();
        Vec::from_slice(alloc, self.child_list(parent)).map_err(|_| NoMemory)
    }

    /// The names of a place's children, by rising number, in memory from the tree's own allocator.
    pub fn names_under(&self, parent: PlaceId) -> Result<Listing<Name, A>, NoMemory>
        requires { parent ≤ length self.now }
        ensures { IfOk result (λ names. names ≡ names_under self.now parent) }
    {
        let alloc = *self.places.allocator();
        let names = names_in(alloc, &self.places, self.child_list(parent))?;
        Ok(Listing::from_vec(names))
    }

    /// Makes a place. The caller has checked that nothing forbids it. Memory is requested before
    /// anything changes.
    pub fn push(&mut self, parent: PlaceId, name: Name, kind: Kind) -> Result<PlaceId, NoMemory>
        requires there { parent ≤ length self.old }
        requires kind { may_have self.old parent kind ≡ true }
        requires fresh { child self.old parent name ≡ None }
        requires room { is_full self.old parent ≡ false }
        ensures tree { IsTree self.new }
        ensures made { IfOk result (λ place. place ≡ length self.old + 1) }
        ensures ok { OnOk result (self.new ≡ self.old ++ new_place parent name kind ∷ []) }
        ensures err { OnErr result (self.new ≡ self.old) }
    {
        let place = PlaceId(self.places.len() as u32 + 1);
        self.places.reserve(1).map_err(|_| NoMemory)?;
        enter(&mut self.children, parent, place).map_err(|_| NoMemory)?;
        self.places.push(Place { parent, name, kind }).unwrap();
        Ok(place)
    }

    /// Makes a place, or says why it can't. The refusals are checked in the order of `AddError`; out of
    /// memory comes last.
    pub fn add(&mut self, parent: PlaceId, name: Name, kind: Kind) -> Result<PlaceId, AddError>
        requires { parent ≤ length self.old }
        ensures tree { IsTree self.new }
        ensures made { IfOk result (λ place. place ≡ length self.old + 1) }
        ensures ok { OnOk result (self.new ≡ self.old ++ new_place parent name kind ∷ []) }
        ensures err { OnErr result (self.new ≡ self.old) }

        // The refusals come first. It runs out of memory only if nothing refuses.
        ensures allowed { OnOk result (refusal self.old parent name kind ≡ None) }
        ensures refused { IfErr result (λ e. refusal self.old parent name kind ≡ refusal_told e) }
    {
        if !self.may_have(parent, kind) {
            return Err(AddError::WrongKind);
        }
        if self.child(parent, &name).is_some() {
            return Err(AddError::Exists);
        }
        if self.is_full(parent) {
            return Err(AddError::Limit);
        }
        Ok(self.push(parent, name, kind)?)
    }
}
