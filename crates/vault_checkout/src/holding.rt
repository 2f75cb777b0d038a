//! Short locks: holds of a session, released one by one or as it leaves.
ghost use Rattle.std.specs.Prelude.{◌≡◌, ℕ, Ok, is_some, true};
ghost use Rattle.vault_state.specs.Vault.{CountsBelow, session_of};
ghost use Rattle.vault_model.specs.Step.{hold, release, leave};
ghost use Rattle.vault_checkout.specs.Done.{Follows};

use crate::book::{Book, drop_session, reply_of};
use crate::done::Done;
use crate::granting::grant_held;
use crate::wanted::wanted_items;
use check_outs::{Stop, is_owned_by};
use std::alloc::Allocator;
use vault_model::{ClaimId, PathItem, Refusal, Reply, Session};

impl<A: Allocator + Copy> Book<A> {
    #[tactic(auto, unfolding(vault_model::specs::Step::hold, vault_model::specs::Step::chained))]
    pub(crate) fn hold(&mut self, session: &Session, wanted: &[PathItem]) -> Result<Done<A>, Stop>
        requires { is_some (session_of self.old.sessions session.now.number) ≡ true }
        ensures told { Follows self.old result self.new (hold self.old session.now wanted.now) }
        ensures counts { (bound : ℕ) → CountsBelow bound self.old → CountsBelow bound self.new }
    {
        let items = wanted_items(&self.tree, self.line.len(), self.line.last_short(), wanted)?;
        let standing = self.line.ask_short(&self.tree, session.number, items)?;
        Ok(Done {
            reply: reply_of(ClaimId::Short(self.line.last_short()), standing),
            effect: None,
        })
    }

    #[tactic(auto, unfolding(vault_model::specs::Step::release, vault_model::specs::Step::chained))]
    pub(crate) fn release(&mut self, session: &Session, number: u32) -> Result<Done<A>, Stop>
        ensures told { Follows self.old result self.new (release self.old session.now number) }
        ensures counts { (bound : ℕ) → CountsBelow bound self.old → CountsBelow bound self.new }
    {
        let Some(claim) = self.line.get(ClaimId::Short(number)) else {
            return Err(Stop::Refused(Refusal::NoClaim));
        };
        if !is_owned_by(&claim.owner, session) {
            return Err(Stop::Refused(Refusal::NotYours));
        }
        self.drop_hold(number);
        Ok(Done {
            reply: Reply::Released,
            effect: None,
        })
    }

    pub(crate) fn leave(&mut self, session: &Session) -> Done<A>
        ensures told { Follows self.old (Ok result) self.new (Ok (leave self.old session.now)) }
        ensures counts { (bound : ℕ) → CountsBelow bound self.old → CountsBelow bound self.new }
    {
        self.line.drop_session(session.number);
        grant_held(&mut self.check_outs, &self.line);
        drop_session(&mut self.sessions, session.number);
        Done {
            reply: Reply::Left,
            effect: None,
        }
    }
}
