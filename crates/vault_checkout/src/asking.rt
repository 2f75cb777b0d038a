//! Questions to a book, which change nothing: how a claim stands and all else about it, which claims look at a place or under it, the
//! children of a place, and the drafts of a check-out.
ghost use Rattle.std.specs.Prelude.{◌≡◌};
ghost use Rattle.vault_model.specs.Step.{designer_of, state, list, show, claims, drafts, draft};
ghost use Rattle.vault_checkout.specs.Done.{Follows};

use crate::book::{Book, find_session, reply_of};
use crate::changes::copied;
use crate::done::Done;
use check_outs::{Stop, at_paths, content_at, paths_of};
use std::alloc::Allocator;
use vault_model::{ClaimId, Name, Owner, Path, Refusal, Reply, Session, ShownClaim};

/// The designer who owns a claim, or whose session does.
fn designer_of(sessions: &[Session], owner: &Owner) -> Option<Name>
    ensures { result ≡ designer_of sessions.now owner.now }
{
    match owner {
        Owner::Designer(name) => Some(*name),
        Owner::Session(number) => match find_session(sessions, *number) {
            Some(session) => Some(session.name),
            None => None,
        },
    }
}

impl<A: Allocator + Copy> Book<A> {
    #[tactic(auto, unfolding(vault_model::specs::Step::state, vault_model::specs::Step::chained))]
    pub(crate) fn state(&self, id: ClaimId) -> Result<Done<A>, Stop>
        ensures { Follows self.now result self.now (state self.now id) }
    {
        match self.line.standing(id) {
            Some(standing) => Ok(Done {
                reply: reply_of(id, standing),
                effect: None,
            }),
            None => Err(Stop::Refused(Refusal::NoClaim)),
        }
    }

    #[tactic(auto, unfolding(vault_model::specs::Step::list, vault_model::specs::Step::chained))]
    pub(crate) fn list(&self, path: &Path) -> Result<Done<A>, Stop>
        ensures { Follows self.now result self.now (list self.now path.now) }
    {
        let Some(place) = self.tree.find(path) else {
            return Err(Stop::Refused(Refusal::NoPlace));
        };
        Ok(Done {
            reply: Reply::Children(self.tree.names_under(place)?),
            effect: None,
        })
    }

    #[tactic(auto, unfolding(vault_model::specs::Step::show, vault_model::specs::Step::chained))]
    pub(crate) fn show(&self, id: ClaimId) -> Result<Done<A>, Stop>
        ensures { Follows self.now result self.now (show self.now id) }
    {
        let Some(claim) = self.line.get(id) else {
            return Err(Stop::Refused(Refusal::NoClaim));
        };
        let Some(standing) = self.line.standing(id) else {
            return Err(Stop::Refused(Refusal::NoClaim));
        };
        let Some(designer) = designer_of(&self.sessions, &claim.owner) else {
            return Err(Stop::Refused(Refusal::NoClaim));
        };
        let alloc = *self.check_outs.allocator();
        let items = at_paths(alloc, &self.tree, claim.items.as_slice())?;
        Ok(Done {
            reply: Reply::Shown(ShownClaim {
                id,
                designer,
                standing,
                items,
            }),
            effect: None,
        })
    }

    #[tactic(auto, unfolding(vault_model::specs::Step::claims, vault_model::specs::Step::chained))]
    pub(crate) fn claims(&self, path: &Path) -> Result<Done<A>, Stop>
        ensures { Follows self.now result self.now (claims self.now path.now) }
    {
        let Some(place) = self.tree.find(path) else {
            return Err(Stop::Refused(Refusal::NoPlace));
        };
        Ok(Done {
            reply: Reply::ClaimsAt(self.line.claims_at(&self.tree, place)?),
            effect: None,
        })
    }

    #[tactic(auto, unfolding(vault_model::specs::Step::drafts, vault_model::specs::Step::chained))]
    pub(crate) fn drafted(&self, session: &Session, number: u32) -> Result<Done<A>, Stop>
        ensures { Follows self.now result self.now (drafts self.now session.now number) }
    {
        self.owned(session, ClaimId::Long(number))?;
        let alloc = *self.check_outs.allocator();
        Ok(Done {
            reply: Reply::DraftsOf(paths_of(alloc, &self.tree, self.drafts(number))?),
            effect: None,
        })
    }

    #[tactic(auto, unfolding(vault_model::specs::Step::draft, vault_model::specs::Step::chained))]
    pub(crate) fn draft(&self, session: &Session, claim: u32, path: &Path) -> Result<Done<A>, Stop>
        ensures { Follows self.now result self.now (draft self.now session.now claim path.now) }
    {
        self.owned(session, ClaimId::Long(claim))?;
        let Some(place) = self.tree.find(path) else {
            return Err(Stop::Refused(Refusal::NoPlace));
        };
        if !self.tree.is_part(place) {
            return Err(Stop::Refused(Refusal::WrongKind));
        }
        let Some(content) = content_at(self.drafts(claim), place) else {
            return Err(Stop::Refused(Refusal::NoVersion));
        };
        let alloc = *self.check_outs.allocator();
        let content = copied(alloc, content)?;
        Ok(Done {
            reply: Reply::Content(content),
            effect: None,
        })
    }
}
