//! The changes of claims and drafts that commands and effects share.
ghost use Rattle.std.specs.Prelude.{◌≡◌, ℕ, ◌+◌, ◌<◌, ◌≤◌, true, false, List, length, ◌++◌, None, Some, IsSome, IfSome, is_some, All, IfOk, IfErr, OnOk, OnErr};
ghost use Rattle.vault_state.specs.declared.claims.Claim.{Claim};
ghost use Rattle.vault_state.specs.declared.claims.Item.{Item};
ghost use Rattle.vault_state.specs.declared.claims.Standing.TheVariants as standings;
ghost use Rattle.vault_state.specs.declared.ids.ClaimId.TheVariants.{Long, Short};
ghost use Rattle.vault_state.specs.Tree.{child, is_part, may_have, is_full};
ghost use Rattle.vault_state.specs.Claims.{claim_of, put_first, overlap, in_way_of, change_set, standing_of, standing_behind};
ghost use Rattle.vault_state.specs.Limits.{most_items, most_claims, last_number};
ghost use Rattle.vault_state.specs.Shelf.{is_shelvable};
ghost use Rattle.vault_state.specs.Drafts.{drafts_of, new_draft};
ghost use Rattle.vault_state.specs.Vault.{AreThere, IsDraft, IsVault};
ghost use Rattle.vault_model.specs.After.{drafts_held};
ghost use Rattle.vault_model.specs.Changes.{with_place, with_check_out, with_items, with_content, with_versions, without_check_out, with_owner, with_note, without_hold};
ghost use Rattle.vault_checkout.specs.Applied.{held_at};
ghost use Rattle.check_outs.specs.Typed.{number_of, own_drafts, marked, saved};
ghost use Rattle.vault_model.specs.Step.{may_save};
ghost use Rattle.lock_table.specs.Locks.{AreApart, mode_at};
ghost use Rattle.lock_table.specs.ClaimModes.{claim_mode};
ghost use Rattle.lock_table.specs.Tables.{extension_by};
ghost use Rattle.long_locks.specs.Lines.{extended_by};
ghost use Rattle.check_outs.specs.Closed.{IsCloseRefusal};

use crate::book::Book;
use crate::granting::{grant_held, recall_queued};
use check_outs::{AnyCheckOut, Stop, close_at, may_save, put_last, save_at, withdraw_at};
use design_tree::Tree;
use lock_table::{Extension, LockSet, lock_set};
use std::alloc::Allocator;
use vault_model::{
    Claim, ClaimId, Draft, Items, Kind, Listing, Name, NoMemory, Note, PlaceId, Standing,
};

/// Whether others overlap the items that have these locks. To compare one claim with many, its locks are made once.
pub(crate) fn overlaps_locks<A: Allocator>(tree: &Tree<A>, locks: &LockSet, others: &Items) -> bool
    requires others { AreThere tree.now others.now }
    requires apart { AreApart locks.now }
    ensures { (items : List Item) → AreThere tree.now items → ((p : ℕ) → mode_at locks.now p ≡ claim_mode tree.now items p) →
        result ≡ overlap tree.now items others.now }
{
    tree.see_whole();
    locks.conflicts(&lock_set(tree, others.as_slice()))
}

pub(crate) fn overlaps<A: Allocator>(tree: &Tree<A>, items: &Items, others: &Items) -> bool
    requires items { AreThere tree.now items.now }
    requires others { AreThere tree.now others.now }
    ensures { result ≡ overlap tree.now items.now others.now }
{
    overlaps_locks(tree, &lock_set(tree, items.as_slice()), others)
}

/// A content, copied into an allocator's memory.
pub(crate) fn copied<A: Allocator>(alloc: A, content: &[u8]) -> Result<Listing<u8, A>, NoMemory>
    ensures { IfOk result (λ copy. copy ≡ content.now) }
{
    Ok(Listing::from_vec(Vec::from_slice(alloc, content)?))
}

impl<A: Allocator + Copy> Book<A> {
    /// Makes a place.
    pub(crate) fn add_place(
        &mut self,
        parent: PlaceId,
        name: Name,
        kind: Kind,
    ) -> Result<PlaceId, NoMemory>
        requires there { parent ≤ length self.old.tree }
        requires kind { may_have self.old.tree parent kind ≡ true }
        requires fresh { child self.old.tree parent name ≡ None }
        requires room { is_full self.old.tree parent ≡ false }
        ensures place { IfOk result (λ place. place ≡ length self.old.tree + 1) }
        ensures made { OnOk result (self.new ≡ with_place self.old parent name kind) }
        ensures unchanged { OnErr result (self.new ≡ self.old) }
    {
        let place = self.tree.push(parent, name, kind)?;
        Ok(place)
    }

    /// Puts a new long claim last, with its check-out, and says how it stands there.
    pub(crate) fn ask(&mut self, designer: Name, items: &Items) -> Result<Standing, NoMemory>
        requires room { length self.old.line < most_claims }
        requires number { self.old.last_long < last_number }
        requires some { 0 < length items.now }
        requires few { length items.now ≤ most_items }
        requires there { AreThere self.old.tree items.now }
        ensures standing { IfOk result (λ standing. standing ≡ standing_behind self.old.tree self.old.line items.now) }
        ensures asked { OnOk result (self.new ≡ with_check_out self.old (self.old.last_long + 1) designer items.now) }
        ensures unchanged { OnErr result (self.new ≡ self.old) }
    {
        self.check_outs.reserve(1)?;
        let standing = self.line.ask_long(&self.tree, designer, *items)?;
        put_last(&mut self.check_outs, self.line.last_long(), standing);
        Ok(standing)
    }

    /// Takes a long claim out of the queue, and its check-out with its drafts. Grants the check-outs
    /// whose claims are now granted.
    pub(crate) fn withdraw(&mut self, number: u32)
        ensures { self.new ≡ without_check_out self.old number }
    {
        withdraw_at(&mut self.check_outs, number);
        self.line.drop_claim(ClaimId::Long(number));
        grant_held(&mut self.check_outs, &self.line);
    }

    /// Gives a long claim to a designer. It keeps its place in the queue, and its check-out with its drafts.
    pub(crate) fn set_owner(&mut self, number: u32, designer: Name)
        ensures { self.new ≡ with_owner self.old number designer }
    {
        self.line.give(number, designer);
    }

    /// Gives a long claim a note. It keeps its place in the queue, and its check-out with its drafts.
    pub(crate) fn set_note(&mut self, number: u32, note: Note)
        ensures { self.new ≡ with_note self.old number note }
    {
        // Any note is short enough.
        let _ = note.as_bytes();
        self.line.set_note(number, note);
    }

    /// Takes a short claim out of the queue. Grants the check-outs whose claims are now granted.
    pub(crate) fn drop_hold(&mut self, number: u32)
        ensures { self.new ≡ without_hold self.old number }
    {
        self.line.drop_claim(ClaimId::Short(number));
        grant_held(&mut self.check_outs, &self.line);
    }

    /// Gives a granted claim these items instead of its own, and the first place in the queue, if with
    /// them it overlaps no other granted claim.
    pub(crate) fn move_first(&mut self, id: ClaimId, items: Items) -> Result<Extension, NoMemory>
        requires held { standing_of self.old.tree self.old.line id ≡ Some standings.Held }
        requires more { (c : Claim) → claim_of self.old.line id ≡ Some c → (more : List Item) × (items ≡ c.items ++ more) }
        requires few { length items ≤ most_items }
        requires there { AreThere self.old.tree items }
        ensures answer { IfOk result (λ extension. extension ≡ extension_by (in_way_of self.old.tree self.old.line id items)) }
        ensures moved { OnOk result
            (self.new ≡ record self.old { line = extended_by (in_way_of self.old.tree self.old.line id items) self.old.line id items }) }
        ensures memory { OnErr result (in_way_of self.old.tree self.old.line id items ≡ None) }
        ensures unchanged { OnErr result (self.new ≡ self.old) }
    {
        let extension = self.line.extend(&self.tree, id, items)?;
        grant_held(&mut self.check_outs, &self.line);
        Ok(extension)
    }

    /// The long claim of this number, if it is granted.
    pub(crate) fn held(&self, number: u32) -> Option<Claim>
        ensures is { result ≡ held_at self.now number }
        ensures found { IfSome result (λ claim. claim_of self.now.line (Long number) ≡ Some claim) }
        ensures held { IsSome result → standing_of self.now.tree self.now.line (Long number) ≡ Some standings.Held }
    {
        let claim = self.line.get(ClaimId::Long(number))?;
        if !self.is_held(claim) {
            return None;
        }
        Some(*claim)
    }

    /// Does nothing: its contract says what every vault keeps, for a proof that needs it.
    fn see_whole(&self)
        ensures { IsVault self.now }
    {
        let _ = &self.line;
    }

    // Whether a check-out stays granted, or has no drafts, once a claim has these items and stands first.
    fn stays_held(&self, check_out: &AnyCheckOut<A>, number: u32, items: &Items) -> bool
        requires drafts { All (IsDraft self.now.tree self.now.line) (marked (number_of check_out.now) (own_drafts check_out.now)) }
        requires found { is_some (claim_of self.now.line (Long number)) ≡ true }
        requires there { AreThere self.now.tree items.now }
        ensures { result ≡ drafts_held self.now.tree (put_first self.now.line (Long number) items.now)
            (marked (number_of check_out.now) (own_drafts check_out.now)) }
    {
        self.see_whole();
        if check_out.drafts().is_empty() {
            return true;
        }
        if check_out.number() == number {
            return true;
        }
        match self.line.get(ClaimId::Long(check_out.number())) {
            Some(claim) => !overlaps(&self.tree, &claim.items, items),
            None => false,
        }
    }

    fn each_stays_held(&self, check_outs: &[AnyCheckOut<A>], number: u32, items: &Items) -> bool
        requires drafts { All (IsDraft self.now.tree self.now.line) (saved check_outs.now) }
        requires found { is_some (claim_of self.now.line (Long number)) ≡ true }
        requires there { AreThere self.now.tree items.now }
        ensures { result ≡ drafts_held self.now.tree (put_first self.now.line (Long number) items.now) (saved check_outs.now) }
    {
        for check_out in check_outs {
            if !self.stays_held(check_out, number, items) {
                return false;
            }
        }
        true
    }

    /// Whether every check-out with drafts stays granted once a claim has these items and stands first.
    pub(crate) fn stay_held(&self, number: u32, items: &Items) -> bool
        requires found { is_some (claim_of self.now.line (Long number)) ≡ true }
        requires there { AreThere self.now.tree items.now }
        ensures { result ≡ drafts_held self.now.tree (put_first self.now.line (Long number) items.now) self.now.drafts }
    {
        self.each_stays_held(&self.check_outs, number, items)
    }

    /// Gives a long claim these items instead of its own, and the first place in the queue, without
    /// judging it. Check-outs are recalled (wait again) or granted as their claims then stand.
    pub(crate) fn put_first(&mut self, number: u32, items: &Items) -> Result<(), NoMemory>
        requires found { is_some (claim_of self.old.line (Long number)) ≡ true }
        requires more { (c : Claim) → claim_of self.old.line (Long number) ≡ Some c → (more : List Item) × (items.now ≡ c.items ++ more) }
        requires few { length items.now ≤ most_items }
        requires there { AreThere self.old.tree items.now }
        requires held { drafts_held self.old.tree (put_first self.old.line (Long number) items.now) self.old.drafts ≡ true }
        ensures put { OnOk result (self.new ≡ with_items self.old (Long number) items.now) }
        ensures unchanged { OnErr result (self.new ≡ self.old) }
    {
        self.line
            .put_first(&self.tree, ClaimId::Long(number), *items)?;
        recall_queued(&mut self.check_outs, &self.line);
        grant_held(&mut self.check_outs, &self.line);
        Ok(())
    }

    /// Makes versions of the drafts of a granted check-out, all or none, and takes its claim out of the
    /// queue. It returns the number of drafts.
    pub(crate) fn close(&mut self, number: u32) -> Result<u32, Stop>
        requires { standing_of self.old.tree self.old.line (Long number) ≡ Some standings.Held }
        ensures allowed { OnOk result (is_shelvable self.old.shelf (drafts_of self.old.drafts number) ≡ true) }
        ensures count { IfOk result (λ count. count ≡ length (drafts_of self.old.drafts number)) }
        ensures closed { OnOk result (self.new ≡ with_versions self.old number) }
        ensures refused { IfErr result (IsCloseRefusal (is_shelvable self.old.shelf (drafts_of self.old.drafts number))) }
        ensures unchanged { OnErr result (self.new ≡ self.old) }
    {
        let count = match close_at(&mut self.check_outs, &mut self.shelf, number) {
            Ok(count) => count,
            Err(stop) => return Err(stop),
        };
        self.line.drop_claim(ClaimId::Long(number));
        grant_held(&mut self.check_outs, &self.line);
        Ok(count)
    }

    /// Whether a granted check-out may save this content of a place.
    pub(crate) fn may_save(&self, number: u32, place: PlaceId, content: &[u8]) -> bool
        requires { standing_of self.now.tree self.now.line (Long number) ≡ Some standings.Held }
        ensures { result ≡ may_save self.now (new_draft number place content.now) }
    {
        may_save(&self.shelf, &self.check_outs, number, place, content)
    }

    /// Saves a content of a place that a granted check-out changes. It replaces one saved before.
    pub(crate) fn save_draft(
        &mut self,
        number: u32,
        place: PlaceId,
        content: &[u8],
    ) -> Result<(), NoMemory>
        requires held { standing_of self.old.tree self.old.line (Long number) ≡ Some standings.Held }
        requires changed { (c : Claim) → claim_of self.old.line (Long number) ≡ Some c → change_set self.old.tree c.items place ≡ true }
        requires there { place ≤ length self.old.tree }
        requires part { is_part self.old.tree place ≡ true }
        requires may { may_save self.old (new_draft number place content.now) ≡ true }
        ensures saved { OnOk result (self.new ≡ with_content self.old number place content.now) }
        ensures unchanged { OnErr result (self.new ≡ self.old) }
    {
        let alloc = *self.check_outs.allocator();
        let content = copied(alloc, content)?;
        save_at(&mut self.check_outs, number, Draft { place, content })?;
        Ok(())
    }
}
