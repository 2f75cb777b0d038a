//! A boxed claim.
ghost use Rattle.std.specs.Prelude.{◌≡◌, IfOk};
ghost use Rattle.vault_state.specs.Claims.{given_to, noted_as};

use std::alloc::{AllocError, Allocator, Global};
use std::marker::Model;
use vault_state::{Claim, Items, Name, NoMemory, Note, Owner};

/// A claim as a line keeps it: boxed, so that moving claims in the line is quick. Contracts see the claim.
#[derive(Drop)]
pub(crate) struct KeptClaim<A: Allocator = Global> {
    claim: Box<Claim, A>,
}

impl<A: Allocator> Model for KeptClaim<A> {
    ghost use Rattle.vault_state.specs.declared.claims.Claim.{Claim};

    ghost Value = { Claim };

    ghost view = { λ k. k.claim.value };
}

impl<A: Allocator> KeptClaim<A> {
    /// Boxes a claim.
    pub(crate) fn new(alloc: A, claim: Claim) -> Result<KeptClaim<A>, NoMemory>
        ensures { IfOk result (λ kept. kept ≡ claim) }
    {
        match Box::new(alloc, claim) {
            Ok(claim) => Ok(KeptClaim { claim }),
            Err(_) => Err(NoMemory),
        }
    }

    /// The claim.
    pub(crate) fn claim(&self) -> &Claim
        ensures { result.now ≡ self.now }
    {
        &self.claim
    }

    /// Replaces its items.
    pub(crate) fn set_items(&mut self, items: Items)
        ensures { self.new ≡ record self.old { items = items } }
    {
        self.claim.items = items;
    }

    /// Gives it to a designer.
    pub(crate) fn give(&mut self, designer: Name)
        ensures { self.new ≡ given_to designer self.old }
    {
        self.claim.owner = Owner::Designer(designer);
    }

    /// Replaces its note.
    pub(crate) fn set_note(&mut self, note: Note)
        ensures { self.new ≡ noted_as note self.old }
    {
        self.claim.note = note;
    }
}

impl<A: Allocator + Clone> Clone for KeptClaim<A> {
    ghost is_clone = { λ kept copy. copy ≡ kept };

    fn clone(&self) -> Result<KeptClaim<A>, AllocError> {
        Ok(KeptClaim {
            claim: self.claim.clone()?,
        })
    }
}
