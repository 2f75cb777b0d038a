//! Effects, made on a book as the journal has them.
ghost use Rattle.std.specs.Prelude.{◌≡◌, ◌+◌, ◌==◌, ◌&&◌, not, nat_le, length, Some, is_some};
ghost use Rattle.vault_model.specs.After.{may_make, may_ask, are_there, after_made, after_nested, after_asked, after_extended, after_saved, after_checked_in, after_abandoned, after_given, after_noted, after};
ghost use Rattle.vault_state.specs.Tree.{is_part};
ghost use Rattle.vault_state.specs.Claims.{change_set, claim_of};
ghost use Rattle.vault_state.specs.declared.ids.ClaimId.TheVariants.{Long};
ghost use Rattle.vault_state.specs.Limits.{most_items};
ghost use Rattle.vault_state.specs.Vault.{new_vault};
ghost use Rattle.vault_checkout.specs.Applied.{Applies};

use crate::book::Book;
use check_outs::{Stop, are_there, joined, may_change};
use design_tree::Tree;
use long_locks::Line;
use std::alloc::Allocator;
use thiserror::Error;
use vault_model::{
    Claim, ClaimId, Effect, EffectIn, Item, Items, Kind, MAX_CLAIMS, MAX_ITEMS, Name, NoMemory,
    Note, PlaceId,
};

/// Why an effect was not applied.
#[derive(Clone, Copy, Debug, PartialEq, Eq, Error)]
pub enum ApplyError {
    #[error("the effect is not applicable")]
    NotApplicable,
    #[error("want of memory")]
    NoMemory,
}

impl From<NoMemory> for ApplyError {
    ghost use Rattle.vault_checkout.specs.declared.apply.ApplyError.TheVariants.{NoMemory};

    ghost from_gives = { λ _ e. e ≡ NoMemory };

    fn from(_error: NoMemory) -> ApplyError {
        ApplyError::NoMemory
    }
}

/// Whether a place may be made: its parent is there, isn't a part and has no child of the name, and
/// there is room.
fn may_make<A: Allocator>(tree: &Tree<A>, parent: PlaceId, name: &Name) -> bool
    ensures { result ≡ may_make (record new_vault { tree = tree.now }) parent name.now }
{
    (parent.number() as usize) < tree.len()
        && !tree.is_part(parent)
        && tree.child(parent, name).is_none()
        && !tree.is_full(parent)
}

/// Whether a claim of its own items may get these: all together aren't too many, and their places are there.
fn may_grow<A: Allocator>(tree: &Tree<A>, own: &Items, items: &Items) -> bool
    ensures { result ≡ (nat_le (length own.now + length items.now) most_items && are_there tree.now items.now) }
{
    items.len() <= MAX_ITEMS - own.len() && are_there(tree, items.as_slice())
}

/// Whether a check-out may be asked for: it has the next number, its places are there, and there is
/// room.
fn may_ask<A: Allocator>(tree: &Tree<A>, line: &Line<A>, number: u32, items: &Items) -> bool
    ensures { result ≡ may_ask
        (record new_vault { tree = tree.now; line = line.now.claims; last_long = line.now.last_long }) number items.now }
{
    number > 0
        && number - 1 == line.last_long()
        && items.len() > 0
        && are_there(tree, items.as_slice())
        && line.len() < MAX_CLAIMS
}

impl<A: Allocator + Copy> Book<A> {
    /// Whether there is a check-out of this number.
    fn is_asked(&self, number: u32) -> bool
        ensures { result ≡ is_some (claim_of self.now.line (Long number)) }
    {
        self.line.get(ClaimId::Long(number)).is_some()
    }

    #[tactic(auto, unfolding(vault_model::specs::After::after_made))]
    fn apply_made(&mut self, parent: PlaceId, name: Name) -> Result<(), ApplyError>
        ensures { Applies self.old result self.new (after_made self.old parent name) }
    {
        if !may_make(&self.tree, parent, &name) {
            return Err(ApplyError::NotApplicable);
        }
        let kind = self.tree.kind_under(parent);
        self.add_place(parent, name, kind)?;
        Ok(())
    }

    #[tactic(auto, unfolding(vault_model::specs::After::after_nested))]
    fn apply_nested(&mut self, parent: PlaceId, name: Name) -> Result<(), ApplyError>
        ensures { Applies self.old result self.new (after_nested self.old parent name) }
    {
        if !may_make(&self.tree, parent, &name) {
            return Err(ApplyError::NotApplicable);
        }
        if !self.tree.may_nest_under(parent) {
            return Err(ApplyError::NotApplicable);
        }
        self.add_place(parent, name, Kind::Assembly)?;
        Ok(())
    }

    #[tactic(auto, unfolding(vault_model::specs::After::after_asked))]
    fn apply_asked(&mut self, number: u32, designer: Name, items: &Items) -> Result<(), ApplyError>
        ensures { Applies self.old result self.new (after_asked self.old number designer items.now) }
    {
        if !may_ask(&self.tree, &self.line, number, items) {
            return Err(ApplyError::NotApplicable);
        }
        match self.ask(designer, items) {
            Ok(_) => Ok(()),
            Err(NoMemory) => Err(ApplyError::NoMemory),
        }
    }

    fn apply_extended(&mut self, number: u32, items: &Items) -> Result<(), ApplyError>
        ensures { Applies self.old result self.new (after_extended self.old number items.now) }
    {
        let Some(claim) = self.held(number) else {
            return Err(ApplyError::NotApplicable);
        };
        if !may_grow(&self.tree, &claim.items, items) {
            return Err(ApplyError::NotApplicable);
        }
        let all = joined(claim.items, items);
        if !self.stay_held(number, &all) {
            return Err(ApplyError::NotApplicable);
        }
        match self.put_first(number, &all) {
            Ok(()) => Ok(()),
            Err(NoMemory) => Err(ApplyError::NoMemory),
        }
    }

    fn apply_saved(&mut self, number: u32, place: PlaceId, content: &[u8]) -> Result<(), ApplyError>
        ensures { Applies self.old result self.new (after_saved self.old number place content.now) }
    {
        let Some(claim) = self.held(number) else {
            return Err(ApplyError::NotApplicable);
        };
        if !may_change(&self.tree, &claim.items, place) {
            return Err(ApplyError::NotApplicable);
        }
        if !self.may_save(number, place, content) {
            return Err(ApplyError::NotApplicable);
        }
        match self.save_draft(number, place, content) {
            Ok(()) => Ok(()),
            Err(NoMemory) => Err(ApplyError::NoMemory),
        }
    }

    fn apply_checked_in(&mut self, number: u32) -> Result<(), ApplyError>
        ensures { Applies self.old result self.new (after_checked_in self.old number) }
    {
        let Some(_) = self.held(number) else {
            return Err(ApplyError::NotApplicable);
        };
        match self.close(number) {
            Ok(_) => Ok(()),
            Err(Stop::Refused(_)) => Err(ApplyError::NotApplicable),
            Err(Stop::OutOfMemory) => Err(ApplyError::NoMemory),
        }
    }

    #[tactic(auto, unfolding(vault_model::specs::After::after_abandoned))]
    fn apply_abandoned(&mut self, number: u32) -> Result<(), ApplyError>
        ensures { Applies self.old result self.new (after_abandoned self.old number) }
    {
        if !self.is_asked(number) {
            return Err(ApplyError::NotApplicable);
        }
        self.withdraw(number);
        Ok(())
    }

    #[tactic(auto, unfolding(vault_model::specs::After::after_given))]
    fn apply_given(&mut self, number: u32, designer: Name) -> Result<(), ApplyError>
        ensures { Applies self.old result self.new (after_given self.old number designer) }
    {
        if !self.is_asked(number) {
            return Err(ApplyError::NotApplicable);
        }
        self.set_owner(number, designer);
        Ok(())
    }

    #[tactic(auto, unfolding(vault_model::specs::After::after_noted))]
    fn apply_noted(&mut self, number: u32, note: Note) -> Result<(), ApplyError>
        ensures { Applies self.old result self.new (after_noted self.old number note) }
    {
        // Any note is short enough.
        let _ = note.as_bytes();
        if !self.is_asked(number) {
            return Err(ApplyError::NotApplicable);
        }
        self.set_note(number, note);
        Ok(())
    }

    /// Makes the change of an effect, as a journal has it; claims are not judged again. An effect that
    /// is not applicable is refused before memory is requested.
    ///
    /// A check-out and an extension take as many steps as their commands; the others take as many as
    /// there are claims, or children of a place.
    #[tactic(auto, unfolding(vault_model::specs::After::after))]
    pub fn apply<B: Allocator>(&mut self, effect: &EffectIn<B>) -> Result<(), ApplyError>
        ensures { Applies self.old result self.new (after self.old effect.now) }
    {
        match effect {
            Effect::Made(parent, name) => self.apply_made(*parent, *name),
            Effect::Nested(parent, name) => self.apply_nested(*parent, *name),
            Effect::Asked(number, designer, items) => self.apply_asked(*number, *designer, items),
            Effect::Extended(number, items) => self.apply_extended(*number, items),
            Effect::Saved(number, place, content) => {
                self.apply_saved(*number, *place, content.as_slice())
            }
            Effect::CheckedIn(number) => self.apply_checked_in(*number),
            Effect::Abandoned(number) => self.apply_abandoned(*number),
            Effect::Given(number, designer) => self.apply_given(*number, *designer),
            Effect::Noted(number, note) => self.apply_noted(*number, *note),
        }
    }
}
