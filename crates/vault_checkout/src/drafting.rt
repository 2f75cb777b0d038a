//! Drafts saved and checked in, and versions read.
ghost use Rattle.std.specs.Prelude.{ℕ};
ghost use Rattle.vault_state.specs.Vault.{CountsBelow};
ghost use Rattle.vault_model.specs.Step.{save, check_in, fetch, count};
ghost use Rattle.vault_checkout.specs.Done.{Follows};

use crate::book::Book;
use crate::changes::copied;
use crate::done::Done;
use check_outs::{Stop, is_changed_by};
use std::alloc::Allocator;
use vault_model::{ClaimId, Effect, NoMemory, Path, Refusal, Reply, Session};

impl<A: Allocator + Copy> Book<A> {
    #[tactic(auto, unfolding(vault_model::specs::Step::save, vault_model::specs::Step::chained))]
    pub(crate) fn save(
        &mut self,
        session: &Session,
        number: u32,
        path: &Path,
        content: &[u8],
    ) -> Result<Done<A>, Stop>
        ensures told { Follows self.old result self.new (save self.old session.now number path.now content.now) }
        ensures counts { (bound : ℕ) → CountsBelow bound self.old → CountsBelow bound self.new }
    {
        let claim = self.usable(session, ClaimId::Long(number))?;
        let Some(place) = self.tree.find(path) else {
            return Err(Stop::Refused(Refusal::NoPlace));
        };
        if !self.tree.is_part(place) {
            return Err(Stop::Refused(Refusal::WrongKind));
        }
        if !is_changed_by(&self.tree, claim.items.as_slice(), place) {
            return Err(Stop::Refused(Refusal::NotCovered));
        }
        if !self.may_save(number, place, content) {
            return Err(Stop::Refused(Refusal::Limit));
        }
        let alloc = *self.check_outs.allocator();
        let kept = copied(alloc, content)?;
        if let Err(NoMemory) = self.save_draft(number, place, content) {
            drop(kept);
            return Err(Stop::OutOfMemory);
        }
        Ok(Done {
            reply: Reply::Saved,
            effect: Some(Effect::Saved(number, place, kept)),
        })
    }

    #[tactic(auto, unfolding(vault_model::specs::Step::check_in, vault_model::specs::Step::chained))]
    pub(crate) fn check_in(&mut self, session: &Session, number: u32) -> Result<Done<A>, Stop>
        ensures told { Follows self.old result self.new (check_in self.old session.now number) }
        ensures counts { (bound : ℕ) → CountsBelow bound self.old → CountsBelow bound self.new }
    {
        self.usable(session, ClaimId::Long(number))?;
        let count = self.close(number)?;
        Ok(Done {
            reply: Reply::CheckedIn(count),
            effect: Some(Effect::CheckedIn(number)),
        })
    }

    #[tactic(auto, unfolding(vault_model::specs::Step::fetch, vault_model::specs::Step::chained))]
    pub(crate) fn fetch(&self, path: &Path, version: u32) -> Result<Done<A>, Stop>
        ensures { Follows self.now result self.now (fetch self.now path.now version) }
    {
        let Some(place) = self.tree.find(path) else {
            return Err(Stop::Refused(Refusal::NoPlace));
        };
        if !self.tree.is_part(place) {
            return Err(Stop::Refused(Refusal::WrongKind));
        }
        let Some(content) = self.shelf.fetch(place, version) else {
            return Err(Stop::Refused(Refusal::NoVersion));
        };
        let alloc = *self.check_outs.allocator();
        let content = copied(alloc, content)?;
        Ok(Done {
            reply: Reply::Content(content),
            effect: None,
        })
    }

    #[tactic(auto, unfolding(vault_model::specs::Step::count, vault_model::specs::Step::chained))]
    pub(crate) fn count_versions(&self, path: &Path) -> Result<Done<A>, Stop>
        ensures { Follows self.now result self.now (count self.now path.now) }
    {
        let Some(place) = self.tree.find(path) else {
            return Err(Stop::Refused(Refusal::NoPlace));
        };
        if !self.tree.is_part(place) {
            return Err(Stop::Refused(Refusal::WrongKind));
        }
        Ok(Done {
            reply: Reply::Versions(self.shelf.count(place)),
            effect: None,
        })
    }
}
