//! Claims by their ids, in line order.
ghost use Rattle.std.specs.Prelude.{◌≡◌, ◌<◌, ◌++◌, ◌∷◌, [], true, not, is_some, length, position, slice_get, None, IsOk, IfOk, OnOk};
ghost use Rattle.std.specs.Option.{option_copied};
ghost use Rattle.vault_state.specs.declared.claims.Claim.{Claim};
ghost use Rattle.vault_state.specs.Claims.{same_id, claim_of, without, changed, given_to, noted_as};
ghost use Rattle.long_locks.specs.Lines.{put_first, ends, left_by};

use crate::ending::{Ending, ends};
use crate::kept::KeptClaim;
use indexmap::IndexMap;
use std::alloc::{Allocator, Global};
use std::hash::{BuildHasherDefault, FoldHasher};
use std::marker::Model;
use vault_state::{Claim, ClaimId, Items, Name, NoMemory, Note};

/// Claims in order, each found by its id without a search. Contracts see their list, and the room
/// for more.
#[derive(Drop)]
pub(crate) struct Claims<A: Allocator = Global> {
    by_id: IndexMap<ClaimId, KeptClaim<A>, BuildHasherDefault<FoldHasher>, A>,
}

impl<A: Allocator> Model for Claims<A> {
    ghost use Rattle.indexmap.specs.IndexMap.{values, spare};
    ghost use Rattle.long_locks.specs.Keyed.{ClaimsSeen, AreKeyed};

    ghost Value = { ClaimsSeen };

    ghost view = { λ c. record { claims = values c.by_id; room = spare c.by_id } };

    // Invariant 5 of lib.rt.
    ghost invariant = { λ c. AreKeyed c.by_id.entries };
}

impl<A: Allocator + Copy> Claims<A> {
    /// No claims, and no room yet.
    pub(crate) fn new(alloc: A) -> Claims<A>
        ensures { result.claims ≡ [] }
    {
        Claims {
            by_id: IndexMap::new(alloc),
        }
    }

    /// A copy of the claims.
    pub(crate) fn copy(&self) -> Result<Claims<A>, NoMemory>
        ensures { IfOk result (λ copy. copy.claims ≡ self.now.claims) }
    {
        Ok(Claims {
            by_id: self.by_id.clone()?,
        })
    }

    /// Boxes a claim, before it is put into the line.
    pub(crate) fn keep(&self, claim: Claim) -> Result<KeptClaim<A>, NoMemory>
        ensures { IfOk result (λ kept. kept ≡ claim) }
    {
        KeptClaim::new(*self.by_id.allocator(), claim)
    }

    /// The allocator of their memory.
    pub(crate) fn allocator(&self) -> A {
        *self.by_id.allocator()
    }
}

impl<A: Allocator> Claims<A> {
    /// The number of claims.
    pub(crate) fn len(&self) -> usize
        ensures { result ≡ length self.now.claims }
    {
        self.by_id.len()
    }

    /// The claim of this id, by one look-up.
    pub(crate) fn get(&self, id: ClaimId) -> Option<&Claim>
        ensures { option_copied result ≡ claim_of self.now.claims id }
    {
        let kept = self.by_id.get(&id)?;
        Some(kept.claim())
    }

    /// The position of the claim of this id, by one look-up.
    pub(crate) fn position_of(&self, id: ClaimId) -> Option<usize>
        ensures { result ≡ position (λ (c : Claim). same_id c.id id) self.now.claims }
    {
        self.by_id.get_index_of(&id)
    }

    /// The claim at a position, counted from 0.
    pub(crate) fn at(&self, position: usize) -> Option<&Claim>
        ensures { option_copied result ≡ slice_get self.now.claims position }
    {
        let (_, kept) = self.by_id.get_index(position)?;
        Some(kept.claim())
    }

    /// Makes room for one more claim.
    pub(crate) fn reserve_one(&mut self) -> Result<(), NoMemory>
        ensures same { self.new.claims ≡ self.old.claims }
        ensures room { OnOk result (0 < self.new.room) }
        ensures succeeds { 0 < self.old.room → IsOk result }
    {
        match self.by_id.reserve(1) {
            Ok(()) => Ok(()),
            Err(_) => Err(NoMemory),
        }
    }

    /// Puts a new claim last, where there is room. It takes no memory.
    pub(crate) fn put_last(&mut self, claim: KeptClaim<A>)
        requires new { claim_of self.old.claims claim.id ≡ None }
        requires room { 0 < self.old.room }
        ensures { self.new.claims ≡ self.old.claims ++ claim ∷ [] }
    {
        let id = claim.claim().id;
        self.by_id.insert(id, claim).unwrap();
    }

    /// Replaces a claim's items, and moves it to the front. The others keep their order.
    pub(crate) fn put_first(&mut self, id: ClaimId, items: Items)
        requires { is_some (claim_of self.old.claims id) ≡ true }
        ensures { self.new.claims ≡ put_first self.old.claims id items }
    {
        let index = self.by_id.get_index_of(&id).unwrap();
        self.by_id.move_index(index, 0);
        self.by_id[0].set_items(items);
    }

    /// Gives a claim to a designer. Its position stays. If there is none of this id, nothing changes.
    pub(crate) fn give(&mut self, id: ClaimId, designer: Name)
        ensures { self.new.claims ≡ changed self.old.claims id (given_to designer) }
    {
        if let Some(index) = self.by_id.get_index_of(&id) {
            self.by_id[index].give(designer);
        }
    }

    /// Replaces a claim's note. Its position stays. If there is none of this id, nothing changes.
    pub(crate) fn set_note(&mut self, id: ClaimId, note: Note)
        ensures { self.new.claims ≡ changed self.old.claims id (noted_as note) }
    {
        if let Some(index) = self.by_id.get_index_of(&id) {
            self.by_id[index].set_note(note);
        }
    }

    /// Removes a claim. The others keep their order.
    pub(crate) fn remove(&mut self, id: ClaimId)
        ensures { self.new.claims ≡ without self.old.claims id }
    {
        if let Some(index) = self.by_id.get_index_of(&id) {
            drop(self.by_id.shift_remove_index(index));
        }
    }

    /// Removes the ending claims, in one walk. The others keep their order.
    pub(crate) fn remove_ending(&mut self, ending: Ending)
        ensures { self.new.claims ≡ left_by ending self.old.claims }
    {
        self.by_id.retain(
            |_id: &ClaimId, kept: &mut KeptClaim<A>| -> bool
                ensures { (result ≡ not (ends ending kept.old)) × (kept.new ≡ kept.old) }
            { !ends(ending, kept.claim()) },
        );
    }
}
