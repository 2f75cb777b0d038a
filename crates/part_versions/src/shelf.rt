//! The shelf.
ghost use Rattle.std.specs.Prelude.{◌≡◌, ℕ, true, None, List, [], ◌∷◌, length, OnOk, OnErr, IfOk, IfErr};
ghost use Rattle.std.specs.Option.{option_copied};
ghost use Rattle.vault_state.specs.Shelf.{versions_of, numbered, weight, draft_at, shelved, shelved_all, is_shelvable, IsShelf};
ghost use Rattle.std.specs.List.{flat_map};
ghost use Rattle.part_versions.specs.Appended.{IsRefusalOf, IsWhyNot};
ghost use Rattle.part_versions.specs.Cuts.{spelled};

use crate::append::{append, append_each};
use crate::limits::{count_in, has_room_for_one, have_room, weight_with, weight_with_one};
use crate::part::Part;
use std::alloc::{Allocator, Global};
use std::marker::Model;
use thiserror::Error;
use vault_state::{Drafts, NoMemory, PlaceId};

/// The versions of all parts. Contracts see them as a list with the contents of each place.
#[derive(Drop)]
pub struct Shelf<A: Allocator = Global> {
    parts: Vec<Part<A>, A>,
    weight: usize,
}

impl<A: Allocator> Model for Shelf<A> {
    ghost use Rattle.std.specs.Prelude.{ℕ, List};
    ghost use Rattle.part_versions.specs.Kept.{IsSoundShelf};

    ghost Value = { List (List (List ℕ)) };

    ghost view = { λ s. s.parts.items };

    ghost invariant = { λ s. IsSoundShelf s.parts.items s.weight };
}

// The versions of a place as a file spells them.
fn spelled_in<A: Allocator>(parts: &[Part<A>], place: PlaceId) -> &[u8]
    ensures { result.now ≡ flat_map spelled (versions_of parts.now place) }
{
    match parts.get(place.number() as usize) {
        Some(part) => part.spelled(),
        None => &[],
    }
}

/// Why drafts were not appended, with the same drafts given back.
#[derive(Debug, PartialEq, Eq, Drop, Error)]
pub enum NotAppended<Back = Drafts<Global>> {
    #[error("a limit would be passed")]
    Limit(Back),
    #[error("want of memory")]
    NoMemory(Back),
}

/// Why a content was not appended.
#[derive(Clone, Copy, Debug, PartialEq, Eq, Error)]
pub enum AppendError {
    #[error("a limit would be passed")]
    Limit,
    #[error("want of memory")]
    NoMemory,
}

impl<A: Allocator> Shelf<A> {
    /// An empty shelf in this allocator's memory. It allocates nothing yet.
    pub fn new(alloc: A) -> Shelf<A>
        ensures { result ≡ [] }
    {
        Shelf {
            parts: Vec::new(alloc),
            weight: 0,
        }
    }

    /// The content of a place's version; the first has number 1. One look-up, whatever the shelf
    /// holds.
    pub fn fetch(&self, place: PlaceId, version: u32) -> Option<&[u8]>
        ensures { option_copied result ≡ numbered (versions_of self.now place) version }
    {
        let index = version.checked_sub(1)?;
        self.parts.get(place.number() as usize)?.get(index as usize)
    }

    /// How many places there are up to the last that has a version, with the library; 0 if there is no
    /// version.
    pub fn len(&self) -> usize
        ensures len { result ≡ length self.now }
        ensures shelf { IsShelf self.now }
    {
        self.parts.len()
    }

    /// How many versions a place has.
    pub fn count(&self, place: PlaceId) -> u32
        ensures count { result ≡ length (versions_of self.now place) }
        ensures shelf { IsShelf self.now }
    {
        count_in(&self.parts, place) as u32
    }

    /// The versions of a place as a file spells them, one after another: each is its length in two
    /// bytes, the higher first, and its bytes. They are stored in this form, so nothing is copied.
    pub fn spelled(&self, place: PlaceId) -> &[u8]
        ensures { result.now ≡ flat_map spelled (versions_of self.now place) }
    {
        spelled_in(&self.parts, place)
    }

    /// The weight of all versions: the bytes of each, and 8 more. It is stored, not summed again.
    pub fn weight(&self) -> usize
        ensures weight { result ≡ weight self.now }
        ensures shelf { IsShelf self.now }
    {
        self.weight
    }
}

impl<A: Allocator + Copy> Shelf<A> {
    /// A copy of the shelf, in its own allocator's memory. It takes only the room that the versions
    /// fill.
    pub fn copy(&self) -> Result<Shelf<A>, NoMemory>
        ensures { IfOk result (λ copy. copy ≡ self.now) }
    {
        let alloc = *self.parts.allocator();
        Ok(Shelf {
            parts: Vec::from_clones(alloc, &self.parts)?,
            weight: self.weight,
        })
    }

    /// Appends a content as one more version of a place. The limits are checked first, then memory is allocated.
    ///
    /// A caller that appends many versions of a place, one after another, passes with each as `room` the number of bytes of it and of
    /// those after it, as a file spells them. For a place without versions, room for all is then allocated at once and exactly, so
    /// each version is copied once. With 0 the block grows as by `append_all`.
    pub fn append(&mut self, place: PlaceId, content: &[u8], room: usize) -> Result<(), AppendError>
        ensures shelf { IsShelf self.new }
        ensures allowed { OnOk result (is_shelvable self.old (draft_at place content.now ∷ []) ≡ true) }
        ensures appended { OnOk result (self.new ≡ shelved self.old place content.now) }
        ensures refused { IfErr result (IsWhyNot (is_shelvable self.old (draft_at place content.now ∷ []))) }
        ensures unchanged { OnErr result (self.new ≡ self.old) }
    {
        let Some(weight) = weight_with_one(self.weight, content) else {
            return Err(AppendError::Limit);
        };
        if !has_room_for_one(&self.parts, place) {
            return Err(AppendError::Limit);
        }
        match append(&mut self.parts, place, content, room) {
            Ok(()) => {
                self.weight = weight;
                Ok(())
            }
            Err(_) => Err(AppendError::NoMemory),
        }
    }

    /// Appends all drafts, each as one more version of its place, or gives the same drafts back. The
    /// limits are checked first, then memory is allocated.
    ///
    /// The work grows with the drafts and their bytes. For each draft of a place that has room for
    /// fewer versions than there are drafts, it also looks at all drafts once. The shelf keeps the
    /// bytes of a place, with 2 for the length of each version, in one block. At most a ninth of it is
    /// spare, or more after drafts were taken back. The shelf keeps 4 to 8 bytes more for each version,
    /// and the heads of two lists for each place up to the last that has a version.
    pub fn append_all<B: Allocator>(
        &mut self,
        drafts: Drafts<B>,
    ) -> Result<(), NotAppended<Drafts<B>>>
        ensures shelf { IsShelf self.new }
        ensures allowed { OnOk result (is_shelvable self.old drafts ≡ true) }
        ensures appended { OnOk result (self.new ≡ shelved_all self.old drafts) }
        ensures refused { IfErr result (IsRefusalOf self.old drafts) }
        ensures unchanged { OnErr result (self.new ≡ self.old) }
    {
        let Some(weight) = weight_with(self.weight, drafts.as_slice()) else {
            return Err(NotAppended::Limit(drafts));
        };
        if !have_room(&self.parts, drafts.as_slice()) {
            return Err(NotAppended::Limit(drafts));
        }
        match append_each(&mut self.parts, drafts.as_slice()) {
            Ok(()) => {
                self.weight = weight;
                Ok(())
            }
            Err(_) => Err(NotAppended::NoMemory(drafts)),
        }
    }
}
