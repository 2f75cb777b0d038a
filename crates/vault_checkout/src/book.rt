//! The book: a vault, and what each command does to it.
ghost use Rattle.std.specs.Prelude.{◌≡◌, ℕ, ◌+◌, ◌-◌, ◌<◌, ◌≤◌, ◌==◌, ◌^◌, ◌||◌, List, length, Option, Ok, IsOk, IfOk, OnOk, OnErr, Some, IfSome, All, is_some, find, filter, not, true};
ghost use Rattle.std.specs.Option.{option_copied};
ghost use Rattle.vault_state.specs.Vault.{Vault, IsVault, CountsBelow, session_of, one_more, counted, counted_in, new_vault, durable};
ghost use Rattle.vault_state.specs.Claims.{claim_of, standing_of, is_held};
ghost use Rattle.vault_state.specs.Drafts.{drafts_of};
ghost use Rattle.vault_model.specs.Step.{usable, join, check_out, extend, abandon, asked, extension, in_session, decide, step};
ghost use Rattle.vault_state.specs.declared.session.Session.{Session};
ghost use Rattle.vault_state.specs.declared.claims.Standing.TheVariants as standings;
ghost use Rattle.long_locks.specs.Lines.{IsGrownFrom};
ghost use Rattle.vault_state.specs.declared.ids.ClaimId.TheVariants.{Long};
ghost use Rattle.check_outs.specs.Typed.{number_of, is_granted, own_drafts, is_holding};
ghost use Rattle.vault_checkout.specs.Done.{Follows};

use crate::done::Done;
use crate::granting::grant_held;
use crate::wanted::{may_ask_for, wanted_items};
use check_outs::{
    AnyCheckOut, Stop, check_out_at, drafts_at, is_designer, is_owned_by, joined, places_of,
};
use design_tree::Tree;
use lock_table::Extension;
use long_locks::Line;
use part_versions::Shelf;
use std::alloc::{Allocator, Global};
use std::marker::Model;
use vault_model::{
    Claim, ClaimId, Command, CommandIn, DraftIn, Effect, EffectIn, Items, LAST_NUMBER,
    MAX_SESSIONS, Name, NoMemory, Owner, Path, PathItem, PlaceId, Refusal, Reply, ReplyIn, Session,
    Standing,
};

/// A vault: its tree, the shelf of versions, the queue of claims, the check-outs with their drafts, and the sessions.
#[derive(Drop)]
pub struct Book<A: Allocator = Global> {
    /// The places.
    pub(crate) tree: Tree<A>,
    /// The versions of all parts.
    pub(crate) shelf: Shelf<A>,
    /// The queue of claims, long and short.
    pub(crate) line: Line<A>,
    /// A check-out for each long claim, by rising number, with its drafts where it is granted.
    pub(crate) check_outs: Vec<AnyCheckOut<A>, A>,
    /// The open sessions, in the order in which they joined.
    pub(crate) sessions: Vec<Session, A>,
    /// The last number given to a session.
    pub(crate) last_session: u32,
    /// How many commands were given without a session.
    pub(crate) door_count: u64,
}

impl<A: Allocator> Model for Book<A> {
    ghost use Rattle.vault_state.specs.Vault.{Vault};

    ghost Value = { Vault };

    ghost use Rattle.vault_checkout.specs.Seen.{vault_of, IsSoundBook};

    ghost view = { vault_of };

    ghost invariant = { IsSoundBook };
}

pub(crate) fn reply_of<A: Allocator>(id: ClaimId, standing: Standing) -> ReplyIn<A>
    ensures { result ≡ asked id standing }
{
    match standing {
        Standing::Held => Reply::Held(id),
        Standing::Queued(other) => Reply::Queued(id, other),
    }
}

/// The durable effect of an extension.
fn effect_of<A: Allocator>(id: ClaimId, items: Items) -> Option<EffectIn<A>>
    ensures { result ≡ extension id items }
{
    match id {
        ClaimId::Long(number) => Some(Effect::Extended(number, items)),
        ClaimId::Short(_) => None,
    }
}

pub(crate) fn find_session(sessions: &[Session], number: u32) -> Option<&Session>
    ensures { option_copied result ≡ session_of sessions.now number }
{
    sessions.iter().find(|session| session.number == number)
}

pub(crate) fn drop_session<A: Allocator>(sessions: &mut Vec<Session, A>, number: u32)
    ensures { sessions.new.items ≡ filter (λ (s : Session). not (s.number == number)) sessions.old.items }
{
    sessions.retain(|session| session.number != number);
}

fn count_one(session: &mut Session, number: u32)
    requires { session.old.count < 2 ^ 64 - 1 }
    ensures { session.new ≡ one_more number session.old }
{
    if session.number == number {
        session.count += 1;
    }
}

fn count_in<A: Allocator>(sessions: &mut Vec<Session, A>, number: u32)
    requires { All (λ (s : Session). s.count < 2 ^ 64 - 1) sessions.old.items }
    ensures { sessions.new.items ≡ counted_in number sessions.old.items }
{
    for session in sessions.iter_mut() {
        count_one(session, number);
    }
}

impl<A: Allocator + Copy> Book<A> {
    /// The book of a new vault.
    pub fn new(alloc: A) -> Result<Book<A>, NoMemory>
        ensures new { IfOk result (λ book. book ≡ new_vault) }
        ensures counts { IfOk result (λ book. CountsBelow 1 book) }
    {
        let tree = Tree::new(alloc)?;
        Ok(Book {
            tree,
            shelf: Shelf::new(alloc),
            line: Line::new(alloc)?,
            check_outs: Vec::new(alloc),
            sessions: Vec::new(alloc),
            last_session: 0,
            door_count: 0,
        })
    }

    /// The tree of places.
    pub fn tree(&self) -> &Tree<A>
        ensures { result.now ≡ self.now.tree }
    {
        &self.tree
    }

    /// The shelf of versions.
    pub fn shelf(&self) -> &Shelf<A>
        ensures { result.now ≡ self.now.shelf }
    {
        &self.shelf
    }

    /// The drafts of the check-out of this number, by rising place; none where it has none, or doesn't exist.
    pub fn drafts(&self, number: u32) -> &[DraftIn<A>]
        ensures { result.now ≡ drafts_of self.now.drafts number }
    {
        drafts_at(&self.check_outs, number)
    }

    /// The check-out of this number, typed by its standing; none where there is no such claim. The contract also says what every
    /// book keeps.
    pub fn check_out_of(&self, number: u32) -> Option<&AnyCheckOut<A>>
        ensures well_formed { IsVault self.now }
        ensures stands { is_some (option_copied result) ≡ is_some (claim_of self.now.line (Long number)) }
        ensures number { IfSome (option_copied result) (λ c. number_of c ≡ number) }
        ensures typed { IfSome (option_copied result) (λ c. is_granted c ≡ is_holding self.now.tree self.now.line number) }
        ensures drafts { IfSome (option_copied result) (λ c. own_drafts c ≡ drafts_of self.now.drafts number) }
    {
        check_out_at(&self.check_outs, number)
    }

    /// The queue of claims.
    pub fn line(&self) -> &Line<A>
        ensures claims { result.now.claims ≡ self.now.line }
        ensures last_long { result.now.last_long ≡ self.now.last_long }
        ensures last_short { result.now.last_short ≡ self.now.last_short }
        ensures grown { IsGrownFrom result.now.tree self.now.tree }
    {
        &self.line
    }

    /// What a restart leaves: the sessions and their holds go, and all counts begin anew.
    pub fn restart(&mut self)
        ensures { self.new ≡ durable self.old }
    {
        self.line.restart();
        grant_held(&mut self.check_outs, &self.line);
        self.sessions.clear();
        self.last_session = 0;
        self.door_count = 0;
    }

    #[tactic(auto, unfolding(vault_model::specs::Step::join, vault_model::specs::Step::chained))]
    fn join(&mut self, name: Name) -> Result<Done<A>, Stop>
        ensures told { Follows self.old result self.new (join self.old name) }
        ensures counts { (bound : ℕ) → CountsBelow bound self.old → CountsBelow bound self.new }
    {
        if self.sessions.len() >= MAX_SESSIONS {
            return Err(Stop::Refused(Refusal::Limit));
        }
        if self.last_session == LAST_NUMBER {
            return Err(Stop::Refused(Refusal::Limit));
        }
        let number = self.last_session + 1;
        self.sessions.push(Session {
            number,
            name,
            count: 0,
        })?;
        self.last_session = number;
        Ok(Done {
            reply: Reply::Session(number),
            effect: None,
        })
    }

    /// Whether a claim of the queue is granted.
    pub(crate) fn is_held(&self, claim: &Claim) -> bool
        requires { claim_of self.now.line claim.now.id ≡ Some claim.now }
        ensures { result ≡ is_held self.now.tree self.now.line claim.now }
    {
        self.line.standing(claim.id) == Some(Standing::Held)
    }

    /// The granted claim of this id, for a session that owns it.
    #[tactic(auto, unfolding(vault_model::specs::Step::usable, vault_model::specs::Step::chained))]
    pub(crate) fn usable(&self, session: &Session, id: ClaimId) -> Result<Claim, Refusal>
        ensures decided { result ≡ usable self.now session.now id }
        ensures found { IfOk result (λ claim. claim_of self.now.line id ≡ Some claim) }
        ensures held { OnOk result (standing_of self.now.tree self.now.line id ≡ Some standings.Held) }
    {
        let Some(claim) = self.line.get(id) else {
            return Err(Refusal::NoClaim);
        };
        if !is_owned_by(&claim.owner, session) {
            return Err(Refusal::NotYours);
        }
        if !self.is_held(claim) {
            return Err(Refusal::NotHeld);
        }
        Ok(*claim)
    }

    #[tactic(auto, unfolding(vault_model::specs::Step::abandon, vault_model::specs::Step::chained))]
    fn abandon(&mut self, designer: Name, number: u32) -> Result<Done<A>, Stop>
        ensures told { Follows self.old result self.new (abandon self.old designer number) }
        ensures counts { (bound : ℕ) → CountsBelow bound self.old → CountsBelow bound self.new }
    {
        let Some(claim) = self.line.get(ClaimId::Long(number)) else {
            return Err(Stop::Refused(Refusal::NoClaim));
        };
        if !is_designer(&claim.owner, &designer) {
            return Err(Stop::Refused(Refusal::NotYours));
        }
        self.withdraw(number);
        Ok(Done {
            reply: Reply::Abandoned,
            effect: Some(Effect::Abandoned(number)),
        })
    }

    #[tactic(auto, unfolding(vault_model::specs::Step::check_out, vault_model::specs::Step::chained))]
    fn check_out(&mut self, designer: Name, wanted: &[PathItem]) -> Result<Done<A>, Stop>
        ensures told { Follows self.old result self.new (check_out self.old designer wanted.now) }
        ensures counts { (bound : ℕ) → CountsBelow bound self.old → CountsBelow bound self.new }
    {
        let items = wanted_items(&self.tree, self.line.len(), self.line.last_long(), wanted)?;
        let standing = self.ask(designer, &items)?;
        let number = self.line.last_long();
        Ok(Done {
            reply: reply_of(ClaimId::Long(number), standing),
            effect: Some(Effect::Asked(number, designer, items)),
        })
    }

    #[tactic(auto, unfolding(vault_model::specs::Step::extend, vault_model::specs::Step::chained))]
    fn extend(
        &mut self,
        session: &Session,
        id: ClaimId,
        wanted: &[PathItem],
    ) -> Result<Done<A>, Stop>
        ensures told { Follows self.old result self.new (extend self.old session.now id wanted.now) }
        ensures counts { (bound : ℕ) → CountsBelow bound self.old → CountsBelow bound self.new }
    {
        let claim = self.usable(session, id)?;
        if !may_ask_for(wanted.len(), claim.items.len()) {
            return Err(Stop::Refused(Refusal::ItemCount));
        }
        let Some(items) = places_of(&self.tree, wanted) else {
            return Err(Stop::Refused(Refusal::NoPlace));
        };
        match self.move_first(id, joined(claim.items, &items)) {
            Ok(Extension::Done) => Ok(Done {
                reply: Reply::Held(id),
                effect: effect_of(id, items),
            }),
            Ok(Extension::InTheWay(other)) => Err(Stop::Refused(Refusal::Overlaps(other))),
            Err(NoMemory) => Err(Stop::OutOfMemory),
        }
    }

    #[tactic(auto, unfolding(vault_model::specs::Step::decide, vault_model::specs::Step::chained))]
    fn decide<B: Allocator>(&mut self, number: u32, command: &CommandIn<B>) -> Result<Done<A>, Stop>
        ensures told { Follows self.old result self.new (decide self.old number command.now) }
        ensures counts { (bound : ℕ) → CountsBelow bound self.old → CountsBelow bound self.new }
    {
        if number == 0 {
            return match command {
                Command::Join(name) => self.join(*name),
                _ => Err(Stop::Refused(Refusal::NoSession)),
            };
        }
        let Some(session) = find_session(&self.sessions, number) else {
            return Err(Stop::Refused(Refusal::NoSession));
        };
        let session = *session;
        self.in_session(&session, command)
    }

    fn in_session<B: Allocator>(
        &mut self,
        session: &Session,
        command: &CommandIn<B>,
    ) -> Result<Done<A>, Stop>
        requires { is_some (session_of self.old.sessions session.now.number) ≡ true }
        ensures told { Follows self.old result self.new (in_session self.old session.now command.now) }
        ensures counts { (bound : ℕ) → CountsBelow bound self.old → CountsBelow bound self.new }
    {
        match command {
            Command::Join(_) => Err(Stop::Refused(Refusal::Joined)),
            Command::Make(path, claim) => self.make(session, path, *claim),
            Command::Nest(path, claim) => self.nest(session, path, *claim),
            Command::CheckOut(wanted) => self.check_out(session.name, wanted.as_slice()),
            Command::Extend(id, wanted) => self.extend(session, *id, wanted.as_slice()),
            Command::Save(claim, path, content) => {
                self.save(session, *claim, path, content.as_slice())
            }
            Command::CheckIn(claim) => self.check_in(session, *claim),
            Command::Abandon(claim) => self.abandon(session.name, *claim),
            Command::Hold(wanted) => self.hold(session, wanted.as_slice()),
            Command::Release(claim) => self.release(session, *claim),
            Command::State(id) => self.state(*id),
            Command::List(path) => self.list(path),
            Command::Fetch(path, version) => self.fetch(path, *version),
            Command::Count(path) => self.count_versions(path),
            Command::Give(claim, designer) => self.give(session, *claim, *designer),
            Command::Note(claim, text) => self.note(session, *claim, text.as_slice()),
            Command::ReadNote(claim) => self.read_note(*claim),
            Command::Show(id) => self.show(*id),
            Command::Claims(path) => self.claims(path),
            Command::Drafts(claim) => self.drafted(session, *claim),
            Command::Draft(claim, path) => self.draft(session, *claim, path),
            Command::Await(id) => self.state(*id),
            Command::Leave => Ok(self.leave(session)),
        }
    }

    fn count(&mut self, number: u32)
        requires { CountsBelow (2 ^ 64 - 1) self.old }
        ensures counted { self.new ≡ counted number self.old }
        ensures counts { (bound : ℕ) → CountsBelow bound self.old → CountsBelow (bound + 1) self.new }
    {
        if number == 0 {
            self.door_count += 1;
        } else {
            count_in(&mut self.sessions, number);
        }
    }

    /// Does a session's command, or refuses it, and counts it. Session 0 is the door.
    ///
    /// The work never grows with the number of places. A check-out and a hold look only at the queues of the places in their own
    /// lock set. An extension, and what removes a claim, look at those of the lock sets of all waiting claims. A map finds a claim
    /// by its number.
    #[tactic(auto, unfolding(vault_model::specs::Step::step))]
    pub fn act<B: Allocator>(
        &mut self,
        session: u32,
        command: &CommandIn<B>,
    ) -> Result<(ReplyIn<A>, Option<EffectIn<A>>), NoMemory>
        requires { CountsBelow (2 ^ 64 - 1) self.old }
        ensures told { IfOk result (λ told. told.0 ≡ (step self.old session command.now).reply) }
        ensures effect { IfOk result (λ told. told.1 ≡ (step self.old session command.now).effect) }
        ensures vault { OnOk result (self.new ≡ (step self.old session command.now).vault) }
        ensures counts { (bound : ℕ) → CountsBelow bound self.old → CountsBelow (bound + 1) self.new }

        // Only a command that isn't refused can run out of memory, and the book is then as it was.
        ensures memory { OnErr result (IsOk (decide self.old session command.now) × (self.new ≡ self.old)) }
    {
        match self.decide(session, command) {
            Ok(done) => {
                self.count(session);
                Ok((done.reply, done.effect))
            }
            Err(Stop::Refused(refusal)) => {
                self.count(session);
                Ok((Reply::Refused(refusal), None))
            }
            Err(Stop::OutOfMemory) => Err(NoMemory),
        }
    }
}
