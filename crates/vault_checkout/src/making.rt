//! Places made: by `make` of the default kind under the parent, by `nest` an assembly.
ghost use Rattle.std.specs.Prelude.{◌≡◌, ℕ, ◌≤◌, false, None, length, OnOk};
ghost use Rattle.vault_state.specs.Tree.{child, is_full};
ghost use Rattle.vault_state.specs.Vault.{CountsBelow};
ghost use Rattle.vault_model.specs.Step.{permitted, admitted, make, nest};
ghost use Rattle.vault_checkout.specs.Done.{Follows};

use crate::book::Book;
use crate::done::Done;
use check_outs::{Stop, is_changed_by};
use std::alloc::Allocator;
use vault_model::{ClaimId, Effect, Kind, Name, Path, PlaceId, Refusal, Reply, Session};

impl<A: Allocator + Copy> Book<A> {
    /// Whether a place may be made under a parent, in the name of a claim if there is one.
    #[tactic(auto, unfolding(vault_model::specs::Step::permitted, vault_model::specs::Step::chained))]
    fn permit(&self, session: &Session, parent: PlaceId, claim: Option<u32>) -> Result<(), Refusal>
        requires { parent ≤ length self.now.tree }
        ensures { result ≡ permitted self.now session.now parent claim }
    {
        let Some(number) = claim else {
            return match self.line.covers(&self.tree, parent) {
                Some(id) => Err(Refusal::Covered(id)),
                None => Ok(()),
            };
        };
        let claim = self.usable(session, ClaimId::Long(number))?;
        if is_changed_by(&self.tree, claim.items.as_slice(), parent) {
            Ok(())
        } else {
            Err(Refusal::NotCovered)
        }
    }

    /// Whether a parent may have a child of a name, in the name of a claim if there is one: no other child has it, and there is room.
    #[tactic(auto, unfolding(vault_model::specs::Step::admitted, vault_model::specs::Step::chained))]
    fn admit(
        &self,
        session: &Session,
        parent: PlaceId,
        name: &Name,
        claim: Option<u32>,
    ) -> Result<(), Refusal>
        requires { parent ≤ length self.now.tree }
        ensures admitted { result ≡ admitted self.now session.now parent name.now claim }
        ensures fresh { OnOk result (child self.now.tree parent name.now ≡ None) }
        ensures room { OnOk result (is_full self.now.tree parent ≡ false) }
    {
        if self.tree.child(parent, name).is_some() {
            return Err(Refusal::Exists);
        }
        self.permit(session, parent, claim)?;
        if self.tree.is_full(parent) {
            return Err(Refusal::Limit);
        }
        Ok(())
    }

    #[tactic(auto, unfolding(vault_model::specs::Step::make, vault_model::specs::Step::chained))]
    pub(crate) fn make(
        &mut self,
        session: &Session,
        path: &Path,
        claim: Option<u32>,
    ) -> Result<Done<A>, Stop>
        ensures told { Follows self.old result self.new (make self.old session.now path.now claim) }
        ensures counts { (bound : ℕ) → CountsBelow bound self.old → CountsBelow bound self.new }
    {
        let Some((name, above)) = path.split_last() else {
            return Err(Stop::Refused(Refusal::Exists));
        };
        let Some(parent) = self.tree.find_names(above) else {
            return Err(Stop::Refused(Refusal::NoPlace));
        };
        if self.tree.is_part(parent) {
            return Err(Stop::Refused(Refusal::WrongKind));
        }
        self.admit(session, parent, &name, claim)?;
        let kind = self.tree.kind_under(parent);
        let place = self.add_place(parent, name, kind)?;
        Ok(Done {
            reply: Reply::Place(place.number()),
            effect: Some(Effect::Made(parent, name)),
        })
    }

    #[tactic(auto, unfolding(vault_model::specs::Step::nest, vault_model::specs::Step::chained))]
    pub(crate) fn nest(
        &mut self,
        session: &Session,
        path: &Path,
        claim: Option<u32>,
    ) -> Result<Done<A>, Stop>
        ensures told { Follows self.old result self.new (nest self.old session.now path.now claim) }
        ensures counts { (bound : ℕ) → CountsBelow bound self.old → CountsBelow bound self.new }
    {
        let Some((name, above)) = path.split_last() else {
            return Err(Stop::Refused(Refusal::Exists));
        };
        let Some(parent) = self.tree.find_names(above) else {
            return Err(Stop::Refused(Refusal::NoPlace));
        };
        if self.tree.is_part(parent) {
            return Err(Stop::Refused(Refusal::WrongKind));
        }
        if !self.tree.may_nest_under(parent) {
            return Err(Stop::Refused(Refusal::WrongKind));
        }
        self.admit(session, parent, &name, claim)?;
        let place = self.add_place(parent, name, Kind::Assembly)?;
        Ok(Done {
            reply: Reply::Place(place.number()),
            effect: Some(Effect::Nested(parent, name)),
        })
    }
}
