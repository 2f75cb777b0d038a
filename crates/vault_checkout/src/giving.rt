//! Check-outs given to another designer, and their notes.
ghost use Rattle.std.specs.Prelude.{◌≡◌, ℕ};
ghost use Rattle.vault_state.specs.Vault.{CountsBelow};
ghost use Rattle.vault_model.specs.Step.{owned, give, note, read_note};
ghost use Rattle.vault_checkout.specs.Done.{Follows};

use crate::book::Book;
use crate::done::Done;
use check_outs::{Stop, is_owned_by};
use std::alloc::Allocator;
use vault_model::{Claim, ClaimId, Effect, Name, Note, Refusal, Reply, Session};

impl<A: Allocator + Copy> Book<A> {
    /// The claim of this id, granted or waiting, for a session that owns it.
    #[tactic(auto, unfolding(vault_model::specs::Step::owned, vault_model::specs::Step::chained))]
    pub(crate) fn owned(&self, session: &Session, id: ClaimId) -> Result<Claim, Refusal>
        ensures { result ≡ owned self.now session.now id }
    {
        let Some(claim) = self.line.get(id) else {
            return Err(Refusal::NoClaim);
        };
        if !is_owned_by(&claim.owner, session) {
            return Err(Refusal::NotYours);
        }
        Ok(*claim)
    }

    #[tactic(auto, unfolding(vault_model::specs::Step::give, vault_model::specs::Step::chained))]
    pub(crate) fn give(
        &mut self,
        session: &Session,
        number: u32,
        designer: Name,
    ) -> Result<Done<A>, Stop>
        ensures told { Follows self.old result self.new (give self.old session.now number designer) }
        ensures counts { (bound : ℕ) → CountsBelow bound self.old → CountsBelow bound self.new }
    {
        self.owned(session, ClaimId::Long(number))?;
        self.set_owner(number, designer);
        Ok(Done {
            reply: Reply::Given,
            effect: Some(Effect::Given(number, designer)),
        })
    }

    #[tactic(auto, unfolding(vault_model::specs::Step::note, vault_model::specs::Step::chained))]
    pub(crate) fn note(
        &mut self,
        session: &Session,
        number: u32,
        text: &[u8],
    ) -> Result<Done<A>, Stop>
        ensures told { Follows self.old result self.new (note self.old session.now number text.now) }
        ensures counts { (bound : ℕ) → CountsBelow bound self.old → CountsBelow bound self.new }
    {
        self.owned(session, ClaimId::Long(number))?;
        let Some(note) = Note::read(text) else {
            return Err(Stop::Refused(Refusal::Limit));
        };
        self.set_note(number, note);
        Ok(Done {
            reply: Reply::Noted,
            effect: Some(Effect::Noted(number, note)),
        })
    }

    #[tactic(auto, unfolding(vault_model::specs::Step::read_note, vault_model::specs::Step::chained))]
    pub(crate) fn read_note(&self, number: u32) -> Result<Done<A>, Stop>
        ensures { Follows self.now result self.now (read_note self.now number) }
    {
        match self.line.get(ClaimId::Long(number)) {
            Some(claim) => Ok(Done {
                reply: Reply::NoteIs(claim.note),
                effect: None,
            }),
            None => Err(Stop::Refused(Refusal::NoClaim)),
        }
    }
}
