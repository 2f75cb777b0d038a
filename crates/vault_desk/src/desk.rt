//! What lies under the lock.
ghost use Rattle.std.specs.Prelude.{◌≡◌, ◌≢◌, ◌+◌, ◌-◌, ◌≤◌, ◌↔◌, ◌⊎◌, ◌++◌, ◌∷◌, [], List, ℕ, IsTrue, IfOk, IfErr, IfSome, IfNone, OnOk, OnErr, Ok, Some, true, false};
ghost use Rattle.group_commit.specs.History.{entry_of};
ghost use Rattle.vault_model.specs.declared.replies.Outside.TheVariants.{BadLine, Broken};
ghost use Rattle.vault_store.specs.declared.starting.Started.TheVariants as Started;
ghost use Rattle.vault_store.specs.Seen.{wants_snapshot};
ghost use Rattle.group_commit.specs.World.{Stage, StartSnapshot};
ghost use Rattle.group_commit.specs.View.{View, length_of, book_of, view_acted};
ghost use Rattle.group_commit.specs.Seen.{snapshot_length};
ghost use Rattle.group_commit.specs.Ticket.{ticket_of};
ghost use Rattle.group_commit.specs.Calls.{IsReason, IsRedeemed, IsForgotten, IsRetired, MayStart};
ghost use Rattle.group_commit.specs.Pasts.{IsAnswered};
ghost use Rattle.vault_desk.specs.Tallies.{IsOfTicket, CountsRedeem};
ghost use Rattle.vault_desk.specs.Looking.{IsFor, IsLooked, ChangesLooked, CountsLooked, ShowsLooked};
ghost use Rattle.vault_desk.specs.Pumping.{IsPumped, IsAtRest};
ghost use Rattle.vault_desk.specs.Waiting.{IsQueued, IsStandingQueued};
ghost use mathlib.Core.List.{IsPrefix};
ghost use Rattle.vault_desk.specs.Acts.{GoesOn};
ghost use Rattle.vault_desk.specs.Sights.{WentThrough, Saw, WasStaged, WasBroken, seen_by};
ghost use Rattle.vault_desk.specs.declared.flusher.Flushed.TheVariants as Flushed;
ghost use Rattle.vault_desk.specs.declared.desk.Due.TheVariants as Due;

use crate::cause::{Cause, NotStaged};
use crate::flusher::Flushed;
use crate::looked::Looked;
use crate::sight::{Past, Sight, add_to};
use crate::tally::{Share, Tally};
use crate::waits::{PendingWait, Waits, may_move};
use flusher_pace::{Commit, Gathering, Pace, Silence, begins_snapshot};
use group_commit::{Forgotten, Phase, Pumped, Redeemed, Retired, Started, Ticket, Vault};
use std::alloc::{Allocator, Global};
use std::marker::Model;
use std::sync::Wait;
use std::sync::ledger::Book as LedgerBook;
use std::time::{Clock, Duration};
use vault_device::{Device, Fault};
use vault_model::{ClaimId, CommandIn, NoMemory, Outside, Standing};

/// What is to be done at the files.
#[derive(Debug, Clone, Copy, PartialEq, Eq)]
pub enum Due {
    /// Nothing, until something is staged.
    Nothing,
    /// Something, after this time at the latest. More commands may come until then.
    In(Duration),
    /// A snapshot is to be made.
    Snapshot,
    /// What is staged is to be committed. The number of entries that are durable already.
    Commit(u64),
}

/// A vault, the books of both tallies, the share of what was counted before, and whether the desk is closed: the flusher is to end
/// then. Contracts see the vault, whether the desk is closed, and how many wait for a claim, but not when the flusher sleeps.
#[derive(Drop)]
pub struct Desk<D: Device, S: Tally, T: Tally, A: Allocator = Global> {
    /// The vault that all workers share.
    pub(crate) vault: Vault<D, A>,
    /// The book of the tally of staged commands.
    pub(crate) staged: LedgerBook<S>,
    /// The book of the tally of acknowledged entries.
    pub(crate) told: LedgerBook<T>,
    /// The share that counts what there was when the desk was opened.
    pub(crate) opening: Share<S, T>,
    /// The vault's past.
    pub(crate) past: Past<S>,
    /// All that was seen of it.
    pub(crate) sight: Sight<S>,
    /// Whether the flusher is to end once all is durable.
    pub(crate) closed: bool,
    /// When the flusher sleeps, and how many entries it waits for. Contracts don't see it.
    pub(crate) pace: Pace,
    /// The last commit. Contracts don't see it.
    pub(crate) last: Commit,
    /// How many wait for a claim, and when those who wait look again. Contracts don't see the latter.
    pub(crate) waits: Waits,
}

impl<D: Device, S: Tally, T: Tally, A: Allocator> Model for Desk<D, S, T, A> {
    ghost use Rattle.std.specs.Prelude.{◌≡◌};
    ghost use Rattle.group_commit.specs.View.{length_of};
    ghost use Rattle.vault_desk.specs.AtDesk.{AtDesk};
    ghost use Rattle.vault_desk.specs.Acts.{GoesOn};
    ghost use Rattle.vault_desk.specs.Sights.{WentThrough};

    ghost Value = { AtDesk D };

    ghost view = { λ d. record { vault = d.vault; closed = d.closed; waiting = d.waits.count } };

    // Invariants 1 to 5 of lib.rt, in this order; the third takes two clauses.
    ghost invariant = { λ d. (d.staged.total ≡ length_of d.vault.view) × (d.told.total ≡ d.vault.view.told) × (d.opening.staged ≡ length_of S.beginning)
        × (d.opening.told ≡ T.beginning.told) × GoesOn S.beginning d.vault.view × WentThrough S.beginning d.vault.view d.sight };
}

impl<D: Device, S: Tally, T: Tally, A: Allocator + Copy> Desk<D, S, T, A> {
    /// Gives a session's command a position in the history, and counts the ticket in the share. A refusal hands the command back.
    pub fn stage(
        &mut self,
        session: u32,
        command: CommandIn<A>,
        share: &mut Share<S, T>,
    ) -> Result<Ticket<A>, (Outside, CommandIn<A>)>
        ensures staged { OnOk result (self.new.vault.view ≡ view_acted snapshot_length self.old.vault.view (Stage session command)) }
        ensures counted { OnOk result (share.new ≡ record share.old { staged = share.old.staged + 1 }) }
        ensures ticket { IfOk result
            (λ ticket. ticket ≡ ticket_of self.old.vault.life (length_of self.old.vault.view)
            (entry_of (book_of self.old.vault.view) session command)) }
        ensures asked { IfOk result (λ ticket. (ticket.session ≡ session) × (ticket.command ≡ command)) }
        ensures refused { OnErr result ((self.new ≡ self.old) × (share.new ≡ share.old)) }
        ensures handed_back { IfErr result (λ refusal. refusal.1 ≡ command) }
        ensures reason { IfErr result (λ refusal. IsReason self.old.vault refusal.0) }
        ensures least { (share.new.staged + length_of S.beginning ≤ length_of self.new.vault.view)
            × (share.new.told + T.beginning.told ≤ self.new.vault.view.told) }
        ensures open { (self.new.closed ≡ self.old.closed) × (self.new.waiting ≡ self.old.waiting) }
        ensures answered { IsAnswered self.old.vault self.new.vault }
    {
        share.audit_beside(&mut self.opening, &mut self.staged, &mut self.told);
        match self.vault.stage(session, command) {
            Ok(ticket) => {
                let _length = self.vault.len();
                self.staged.add(&mut share.staged, 1);
                share.counts.staged += 1;
                Ok(ticket)
            }
            Err(refused) => Err(refused),
        }
    }

    /// Gives the reply of the entry that a ticket names once the entry is durable, and counts it in the share. Else the ticket comes
    /// back.
    pub fn redeem(&mut self, ticket: Ticket<A>, share: &mut Share<S, T>) -> Redeemed<A>
        ensures redeemed { IsRedeemed self.old.vault self.new.vault ticket result }
        ensures of_ticket { IsOfTicket ticket result }
        ensures counted { CountsRedeem share.old result share.new }
        ensures least { (share.new.staged + length_of S.beginning ≤ length_of self.new.vault.view)
            × (share.new.told + T.beginning.told ≤ self.new.vault.view.told) }
        ensures open { (self.new.closed ≡ self.old.closed) × (self.new.waiting ≡ self.old.waiting) }
        ensures answered { IsAnswered self.old.vault self.new.vault }
    {
        share.audit_beside(&mut self.opening, &mut self.staged, &mut self.told);
        match self.vault.redeem(ticket) {
            Redeemed::Told(receipt) => {
                let _told = self.vault.told();
                self.told.add(&mut share.told, 1);
                share.counts.told += 1;
                Redeemed::Told(receipt)
            }
            other => other,
        }
    }

    /// Spends a ticket without its reply. No tally changes.
    pub fn forget(&mut self, ticket: Ticket<A>) -> Forgotten
        ensures closed { IsForgotten self.old.vault self.new.vault ticket result }
        ensures open { (self.new.closed ≡ self.old.closed) × (self.new.waiting ≡ self.old.waiting) }
        ensures answered { IsAnswered self.old.vault self.new.vault }
    {
        self.pace.forgets();
        self.vault.forget(ticket)
    }

    /// Does the next step of a commit or of a snapshot. No tally changes.
    pub fn pump(&mut self) -> Result<Pumped, Fault>
        ensures pumped { IsPumped self.old.vault result self.new.vault }
        ensures same { (length_of self.new.vault.view ≡ length_of self.old.vault.view)
            × (self.new.vault.view.told ≡ self.old.vault.view.told) }
        ensures open { (self.new.closed ≡ self.old.closed) × (self.new.waiting ≡ self.old.waiting) }
        ensures answered { IsAnswered self.old.vault self.new.vault }
    {
        self.vault.pump()
    }

    /// Begins a snapshot, and takes all its memory at once. No tally changes.
    pub fn start_snapshot(&mut self) -> Result<Started, NoMemory>
        ensures started { result ≡ Ok Started.Yes → self.new.vault.view ≡ view_acted snapshot_length self.old.vault.view StartSnapshot }
        ensures may { result ≡ Ok Started.Yes → MayStart self.old.vault }
        ensures may_not { result ≡ Ok Started.NotNow → MayStart self.old.vault → ⊥ }
        ensures not_now { result ≡ Ok Started.NotNow → self.new ≡ self.old }
        ensures refused { OnErr result (self.new ≡ self.old) }
        ensures memory { OnErr result (MayStart self.old.vault) }
        ensures same { (length_of self.new.vault.view ≡ length_of self.old.vault.view)
            × (self.new.vault.view.told ≡ self.old.vault.view.told) }
        ensures open { (self.new.closed ≡ self.old.closed) × (self.new.waiting ≡ self.old.waiting) }
        ensures answered { IsAnswered self.old.vault self.new.vault }
    {
        self.vault.start_snapshot()
    }

    /// Discards the oldest kept entry, if it is durable and its ticket isn't out any more. No tally changes.
    pub fn retire(&mut self) -> Retired
        ensures retired { IsRetired self.old.vault self.new.vault result }
        ensures same { (length_of self.new.vault.view ≡ length_of self.old.vault.view)
            × (self.new.vault.view.told ≡ self.old.vault.view.told) }
        ensures open { (self.new.closed ≡ self.old.closed) × (self.new.waiting ≡ self.old.waiting) }
        ensures answered { IsAnswered self.old.vault self.new.vault }
    {
        self.vault.retire()
    }
}

impl<D: Device, S: Tally, T: Tally, A: Allocator + Copy> Desk<D, S, T, A> {
    // An open desk of this vault.
    pub(crate) fn new(
        vault: Vault<D, A>,
        staged: LedgerBook<S>,
        told: LedgerBook<T>,
        opening: Share<S, T>,
        seen: (Past<S>, Sight<S>),
    ) -> Desk<D, S, T, A>
        requires books { (staged.total ≡ length_of vault.view) × (told.total ≡ vault.view.told) }
        requires opening { (opening.staged ≡ length_of S.beginning) × (opening.told ≡ T.beginning.told) }
        requires acts { GoesOn S.beginning vault.view }
        requires seen { seen.1 ≡ [] }
        ensures { result ≡ record { vault = vault; closed = false; waiting = 0 } }
    {
        let (past, sight) = seen;
        Desk {
            vault,
            staged,
            told,
            opening,
            past,
            sight,
            closed: false,
            pace: Pace::new(),
            last: Commit::none(),
            waits: Waits::new(),
        }
    }

    // Begins a snapshot, and notes in `pace` that it is under way or put off.
    pub(crate) fn start_on(&mut self) -> Result<Started, NoMemory>
        ensures started { result ≡ Ok Started.Yes → self.new.vault.view ≡ view_acted snapshot_length self.old.vault.view StartSnapshot }
        ensures refused { OnErr result (self.new ≡ self.old) }
        ensures open { (self.new.closed ≡ self.old.closed) × (self.new.waiting ≡ self.old.waiting) }
        ensures answered { IsAnswered self.old.vault self.new.vault }
    {
        let started = self.start_snapshot();
        self.pace.started(started);
        started
    }

    // Adds the vault as it is to what was seen of it, and gives all that.
    pub(crate) fn show<H: Wait>(&mut self, rt: &H) -> Sight<S>
        ensures same { self.new ≡ self.old }
        ensures shown { (before : List View) × (result ≡ before ++ self.old.vault.view ∷ []) }
        ensures went { WentThrough S.beginning self.old.vault.view result }
    {
        self.sight = self.sight.and(rt, &self.past, &self.vault);
        self.sight.again()
    }

    // The same, for somebody who saw it before.
    fn show_to<H: Wait>(&mut self, rt: &H, sight: &mut Option<Sight<S>>)
        ensures same { self.new ≡ self.old }
        ensures seen { IsPrefix (seen_by sight.old) (seen_by sight.new) }
        ensures shown { Saw (seen_by sight.new) self.old.vault.view }
    {
        let shown = self.show(rt);
        add_to(sight, shown);
    }

    // Whether the vault went through all that somebody saw.
    fn went_through(&self, sight: &Option<Sight<S>>) -> bool
        ensures { IsTrue result → WentThrough S.beginning self.now.vault.view (seen_by sight.now) }
    {
        self.sight.covers(sight)
    }

    // Stages a command, and shows its entry. One that is refused is dropped, and the vault gives the cause. A broken vault is shown, too.
    pub(crate) fn stage_on<H: Wait>(
        &mut self,
        rt: &H,
        session: u32,
        command: CommandIn<A>,
        sight: &mut Option<Sight<S>>,
        share: &mut Share<S, T>,
    ) -> Result<Ticket<A>, NotStaged>
        ensures ok { IfOk result
            (λ ticket. (ticket.session ≡ session) × (ticket.command ≡ command)
            × (share.new ≡ record share.old { staged = share.old.staged + 1 })) }
        ensures err { IfErr result (λ cause. (cause ≢ BadLine) × (share.new ≡ share.old)) }
        ensures reason { IfErr result (λ cause. IsReason self.old.vault cause) }
        ensures open { (self.new.closed ≡ self.old.closed) × (self.new.waiting ≡ self.old.waiting) }
        ensures answered { IsAnswered self.old.vault self.new.vault }
        ensures seen { IsPrefix (seen_by sight.old) (seen_by sight.new) }
        ensures shown { IfOk result (λ ticket. WasStaged (seen_by sight.new) ticket) }
        ensures broken { IfErr result (λ why. why ≡ Broken → WasBroken (seen_by sight.new)) }
    {
        let moves = may_move(&command);
        match self.stage(session, command, share) {
            Ok(ticket) => {
                self.waits.staged(moves);
                self.show_to(rt, sight);
                Ok(ticket)
            }
            Err((outside, command)) => {
                drop(command);
                if outside == Outside::Broken {
                    self.show_to(rt, sight);
                }
                Err(NotStaged::of_vault(&self.vault, outside))
            }
        }
    }

    // Looks for the reply to the command that a ticket is for, and shows that its entry is acknowledged. If it is lost, the vault gives
    // the cause. Whoever asks saw this vault alone, and else gets no reply.
    pub(crate) fn look<H: Wait>(
        &mut self,
        rt: &H,
        ticket: Ticket<A>,
        sight: &mut Option<Sight<S>>,
        share: &mut Share<S, T>,
    ) -> Looked<A>
        ensures looked { IsLooked self.old.vault ticket result }
        ensures changed { ChangesLooked self.old.vault self.new.vault ticket result }
        ensures of_ticket { IsFor ticket result }
        ensures counted { CountsLooked share.old result share.new }
        ensures open { (self.new.closed ≡ self.old.closed) × (self.new.waiting ≡ self.old.waiting) }
        ensures answered { IsAnswered self.old.vault self.new.vault }
        ensures seen { IsPrefix (seen_by sight.old) (seen_by sight.new) }
        ensures shown { ShowsLooked (seen_by sight.old) ticket result (seen_by sight.new) }
    {
        if ticket.position() < self.vault.durable() && !self.went_through(sight) {
            return Looked::NoMemory(ticket);
        }
        match self.redeem(ticket, share) {
            Redeemed::Told(receipt) => {
                self.show_to(rt, sight);
                Looked::Told(receipt)
            }
            Redeemed::NotYet(ticket) => Looked::NotYet(ticket),
            Redeemed::Unknown(ticket) => {
                let cause = Cause::of_ticket(&self.vault, &ticket);
                Looked::Lost(ticket, cause)
            }
            Redeemed::Stranger(ticket) => {
                let cause = Cause::of_ticket(&self.vault, &ticket);
                Looked::Lost(ticket, cause)
            }
            Redeemed::NoMemory(ticket) => Looked::NoMemory(ticket),
        }
    }

    // Whether a claim waits for others in the queue of claims.
    fn is_queued(&self, claim: ClaimId) -> bool
        ensures { IsTrue result ↔ IsQueued self.now.vault.view claim }
    {
        is_queued(self.vault.standing(claim))
    }

    // Keeps the `wait` of a session for a claim that isn't granted yet, if the vault isn't broken, and fewer than `most` are kept.
    pub(crate) fn keep(&mut self, session: u32, claim: ClaimId, most: usize) -> Option<PendingWait>
        ensures kept { IfSome result (λ kept. (kept.claim ≡ claim) × (session ≢ 0) × (self.old.vault.view.broken ≡ false)
            × IsQueued self.old.vault.view claim) }
        ensures counted { IfSome result (λ kept. self.new ≡ record self.old { waiting = self.old.waiting + 1 }) }
        ensures few { IfSome result (λ kept. self.new.waiting ≤ most) }
        ensures none { IfNone result (self.new ≡ self.old) }
        ensures came { GoesOn S.beginning self.old.vault.view }
    {
        let may_wait = session != 0 && !self.vault.is_broken();
        if may_wait && self.waits.count < most && self.is_queued(claim) {
            return Some(self.waits.enter(claim));
        }
        None
    }

    // Gives the claim of a kept `wait` that is to be staged: it was released, or its claim doesn't wait any more, or the vault is
    // broken. Else the `wait` comes back.
    pub(crate) fn lets_go(&mut self, kept: PendingWait) -> Result<ClaimId, PendingWait>
        ensures counted { OnOk result (self.new ≡ record self.old { waiting = self.old.waiting - 1 }) }
        ensures same { OnErr result (self.new ≡ self.old) }
        ensures came { GoesOn S.beginning self.old.vault.view }
        ensures claim { IfOk result (λ claim. claim ≡ kept.claim) }
        ensures goes { OnOk result ((kept.is_let_go ≡ true) ⊎ (self.old.vault.view.broken ≡ true)
            ⊎ (IsQueued self.old.vault.view kept.claim → ⊥)) }
        ensures stays { IfErr result (λ back. (back ≡ kept) × (kept.is_let_go ≡ false) × (self.old.vault.view.broken ≡ false)
            × IsQueued self.old.vault.view kept.claim) }
    {
        let stays = !kept.is_let_go && !self.vault.is_broken() && self.is_queued(kept.claim);
        if stays {
            return Err(kept);
        }
        Ok(self.waits.leave(kept))
    }

    // A conversation that keeps a `wait` waits no longer.
    pub(crate) fn stops_waiting(&mut self, kept: PendingWait)
        ensures { self.new ≡ record self.old { waiting = self.old.waiting - 1 } }
    {
        let _ = self.waits.leave(kept);
    }

    // The number of entries that aren't durable yet.
    pub(crate) fn waiting(&self) -> u64 {
        self.vault.len().saturating_sub(self.vault.durable())
    }

    // Notes that a command was staged, and whether it may change the vault. Says whether the flusher sleeps and has to be woken.
    pub(crate) fn wakes_flusher(&mut self, may_change: bool) -> bool
        ensures { self.new ≡ self.old }
    {
        let waiting = self.waiting();
        self.pace.staged(waiting, may_change)
    }

    // Notes that a worker waits for room in the history.
    pub(crate) fn asks_for_room(&mut self)
        ensures { self.new ≡ self.old }
    {
        self.pace.asks_for_room();
    }

    // What is to be done at the files: one rule for all threads that do it. A snapshot comes first, if one is wanted, and no command
    // came for a while or the journal is long (`begins_snapshot`). Else what is staged is committed, once there is nobody left to wait
    // for (`others_in`). A commit is due as well if a worker waits for room: entries are discarded before it.
    pub(crate) fn due<C: Clock>(
        &self,
        clock: &C,
        gathering: &mut Gathering,
        silence: &mut Silence,
    ) -> Due
        ensures nothing { result ≡ Due.Nothing → self.now.vault.view.broken ≡ false → IsAtRest self.now.vault.view }
        ensures snapshot { result ≡ Due.Snapshot → wants_snapshot self.now.vault.store ≡ true }
        ensures commit { (settled : ℕ) → result ≡ Due.Commit settled → (settled ≡ self.now.vault.view.settled) × (self.now.vault.view.broken ≡ false) }
    {
        let snapshot = self.snapshot_in(clock, silence);
        if snapshot == Some(Duration::ZERO) {
            return Due::Snapshot;
        }
        let is_idle = self.is_settled() && !self.pace.is_asked_for_room;
        if is_idle || self.vault.is_broken() {
            return snapshot.map_or(Due::Nothing, Due::In);
        }
        if let Some(left) = self.others_in(clock, gathering) {
            return Due::In(left);
        }
        Due::Commit(self.vault.durable())
    }

    // Discards the oldest kept entry, as `retire`, for those who asked for room: they have as much as there is.
    pub(crate) fn makes_room(&mut self) -> Retired
        ensures retired { IsRetired self.old.vault self.new.vault result }
        ensures open { (self.new.closed ≡ self.old.closed) × (self.new.waiting ≡ self.old.waiting) }
        ensures answered { IsAnswered self.old.vault self.new.vault }
    {
        self.pace.makes_room();
        self.retire()
    }

    // How long it is until a snapshot is begun, if no command comes until then. None: none is wanted, it is put off, or the desk is
    // closed.
    fn snapshot_in<C: Clock>(&self, clock: &C, silence: &mut Silence) -> Option<Duration>
        ensures { IfSome result (λ left. wants_snapshot self.now.vault.store ≡ true) }
    {
        if self.pace.is_put_off || !self.vault.wants_snapshot() {
            return None;
        }
        let left = silence.left(clock, self.vault.len());
        let (version, journal) = (self.vault.version(), self.vault.journal_len());
        if begins_snapshot(version, journal, self.vault.snapshot_len(), left.is_none()) {
            return Some(Duration::ZERO);
        }
        if self.closed { None } else { left }
    }

    // How long to wait for other clients, at most, before what is staged is committed.
    fn others_in<C: Clock>(&self, clock: &C, gathering: &mut Gathering) -> Option<Duration> {
        if self.closed || !self.waits_for_others() {
            return None;
        }
        let (settled, told) = (self.vault.durable(), self.vault.told());
        let moved = self.vault.len().saturating_add(told);
        let is_owed = self.pace.owes(settled, told);
        gathering.left(clock, &self.last, moved, is_owed)
    }

    // Whether the next commit still waits for other clients. It does while a durable entry isn't acknowledged yet (`Pace::owes`), or
    // while fewer entries wait than clients are expected (`Pace::lacks`): those whom the last commit answered, and those who came
    // during it.
    fn waits_for_others(&self) -> bool {
        let (settled, told) = (self.vault.durable(), self.vault.told());
        self.pace.owes(settled, told) || self.pace.lacks(self.waiting())
    }

    // Whether a flusher that found nothing due yet sleeps on. If nothing was staged then, it sleeps until something is, or a worker
    // asks for room. Else it sleeps for a while, until all clients that it waits for are back.
    pub(crate) fn sleeps(&mut self, was_quiet: bool) -> bool
        ensures { self.new ≡ self.old }
    {
        let (group, is_asked) = (self.pace.group, self.pace.is_asked_for_room);
        if was_quiet {
            let is_quiet = self.is_quiet() && !is_asked;
            return self.pace.sleeps(is_quiet, 1);
        }
        let is_early = !self.closed && !self.vault.is_broken() && self.waits_for_others();
        self.pace.sleeps(is_early, group)
    }

    // The number of durable entries. None if the vault is broken.
    pub(crate) fn settled(&self) -> Option<u64> {
        if self.vault.is_broken() {
            None
        } else {
            Some(self.vault.durable())
        }
    }

    // Notes how a commit ended, and the number of entries that were durable before it. The next one waits for as many entries as came
    // after those: the ones that this commit made durable, and the ones staged since it began.
    pub(crate) fn committed(&mut self, settled: u64, commit: Commit)
        ensures { self.new ≡ self.old }
    {
        self.last = commit;
        let group = self.vault.len().saturating_sub(settled);
        self.pace.expects(group);
    }

    // The next commit waits for this many entries more.
    pub(crate) fn expects_more(&mut self, coming: u64)
        ensures { self.new ≡ self.old }
    {
        let group = self.pace.group.saturating_add(coming);
        self.pace.expects(group);
    }

    // Does the next step of a commit or of a snapshot, and notes in `pace` what it came to.
    pub(crate) fn pump_on(&mut self) -> Result<Pumped, Fault>
        ensures pumped { IsPumped self.old.vault result self.new.vault }
        ensures open { (self.new.closed ≡ self.old.closed) × (self.new.waiting ≡ self.old.waiting) }
        ensures answered { IsAnswered self.old.vault self.new.vault }
    {
        let pumped = self.pump();
        self.pace.pumped(pumped);
        if pumped.is_err() {
            self.waits.moved();
        }
        if pumped != Ok(Pumped::Moved) {
            self.waits.settled();
        }
        pumped
    }

    /// Whether there is nothing to pump, and more may come.
    pub(crate) fn is_quiet(&self) -> bool
        ensures { IsTrue result → (self.now.closed ≡ false) × (self.now.vault.view.broken ≡ false) × IsAtRest self.now.vault.view }
    {
        !self.closed && self.is_settled() && !self.vault.is_broken()
    }

    /// Why the flusher ends now, if it does.
    pub(crate) fn flushed(&self) -> Option<Flushed>
        ensures broken { (result ≡ Some Flushed.Broken) ↔ (self.now.vault.view.broken ≡ true) }
        ensures closed { result ≡ Some Flushed.Closed → (self.now.closed ≡ true) × IsAtRest self.now.vault.view }
        ensures came { GoesOn S.beginning self.now.vault.view }
    {
        if self.vault.is_broken() {
            return Some(Flushed::Broken);
        }
        if self.closed && self.is_settled() {
            return Some(Flushed::Closed);
        }
        None
    }

    /// Lets the flusher end once all is durable.
    pub(crate) fn close(&mut self)
        ensures { self.new ≡ record self.old { closed = true } }
    {
        self.closed = true;
    }

    // Whether every entry is durable, and no snapshot is under way.
    fn is_settled(&self) -> bool
        ensures { IsTrue result ↔ IsAtRest self.now.vault.view }
    {
        self.vault.durable() == self.vault.len() && self.vault.phase() == Phase::Idle
    }
}

// Whether a claim of this standing waits for others.
fn is_queued(standing: Option<Standing>) -> bool
    ensures { IsTrue result ↔ IsStandingQueued standing }
{
    matches!(standing, Some(Standing::Queued(_)))
}
