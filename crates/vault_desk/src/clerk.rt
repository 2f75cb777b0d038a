//! What a conversation asks for at the desk: to hear a line, to stage its command, to look for the reply.
ghost use Rattle.std.specs.Prelude.{◌≡◌, ◌≢◌, ◌+◌, ◌≤◌, ◌<◌, ◌⊎◌, ℕ, List, Option, false, [], ◌∷◌, ◌++◌, IfOk, IfErr, OnOk, OnErr, IfSome, length, true};
ghost use Rattle.vault_lines.specs.Limits.{longest_line};
ghost use Rattle.line_inlet.specs.Reading.{Reading};
ghost use Rattle.vault_desk.specs.Serving.{Counts, session_of, session_after as session_after_out};
ghost use mathlib.Core.List.{IsPrefix};
ghost use Rattle.vault_desk.specs.Looking.{IsFor, CountsLooked, ShowsLooked};
ghost use Rattle.vault_desk.specs.Sights.{seen_by, WasStaged, WasBroken};
ghost use Rattle.vault_desk.specs.Waiting.{HasQueued, WaitsNoMore};
ghost use Rattle.vault_desk.specs.Talking.{HeardPart, IsHeard, StagesBy, ShowsHeard, FitsLine, IsAnswered, StandsAt};
ghost use Rattle.vault_desk.specs.declared.report.Out.{Out};
ghost use Rattle.vault_desk.specs.declared.tally.Totals.{Totals};
ghost use Rattle.vault_desk.specs.declared.turn.Turn.TheVariants as turns;
ghost use Rattle.vault_model.specs.declared.replies.Outside.TheVariants.{BadLine, Broken};
ghost use Rattle.vault_model.specs.declared.commands.Command.TheVariants.{Await};

use crate::cause::{Cause, NotStaged};
use crate::conversation::Conversation;
use crate::gate::{Gate, Point};
use crate::looked::Looked;
use crate::report::{Ended, Out};
use crate::shared::Shared;
use crate::sight::Sight;
use crate::tally::{Share, Tally};
use crate::turn::{Telling, Turn, is_left, session_after, text_of_out};
use crate::waits::PendingWait;
use flusher_pace::may_change;
use group_commit::Ticket;
use line_inlet::{Connection, NextByte, NextLine};
use std::alloc::Allocator;
use std::sync::Wait;
use vault_device::Device;
use vault_lines::{LineError, read_line_of};
use vault_model::{ClaimId, Command, CommandIn, NoMemory, Outside};

// The most lines of a connection that are answered. The conversation ends at the first byte after them.
const MAX_LINES: usize = 4096;

/// Hears lines, stages their commands at the desk, and answers them.
#[derive(Drop)]
pub struct Clerk<'a, D: Device, S: Tally, T: Tally, A: Allocator, G: Gate, H: Wait> {
    /// What it locks and waits by.
    pub rt: &'a H,
    /// Where its memory is from.
    pub alloc: A,
    /// The vault that it works on.
    pub shared: &'a Shared<D, S, T, A>,
    /// What is called at each of its points.
    pub gate: &'a G,
    /// How many conversations may wait for a claim at once.
    pub most_waits: usize,
}

// How a line came.
enum Heard<A: Allocator> {
    // Its command is staged.
    Asked(Ticket<A>),
    // Its `wait` is kept.
    Kept(PendingWait),
    Refused(Cause),
    // It isn't whole, and more may come.
    NotYet,
    // None comes.
    Ended(Ended),
}

impl<D: Device, S: Tally, T: Tally, A: Allocator + Copy, G: Gate, H: Wait> Clerk<
    '_,
    D,
    S,
    T,
    A,
    G,
    H,
> {
    /// Hears a line, and stages its command or answers it. If the reader has no whole line for now, a line is still to be heard.
    pub fn hear<C: Connection>(
        &self,
        talk: &mut Conversation<S, T, A>,
        connection: &mut C,
    ) -> Turn<A>
        ensures stands { (reader_old : Reading) (writer_old writer_new : Option (List ℕ)) (counts : Totals)
            → StandsAt turns.Hear reader_old (C.reading connection.old) writer_old writer_new counts talk.old
            → StandsAt result reader_old (C.reading connection.new) writer_old writer_new counts talk.new }
        ensures same { (C.contents connection.new ≡ C.contents connection.old) × (C.names connection.new ≡ C.names connection.old) }
        ensures kept { talk.new.answers.is_kept ≡ talk.old.answers.is_kept }
    {
        if talk.answers.len() >= MAX_LINES {
            return match talk.inlet.next_byte(connection) {
                NextByte::Byte(_) | NextByte::Limit => Turn::Over(Ended::Limit),
                NextByte::End => Turn::Over(Ended::EndOfInput),
                NextByte::Fault => Turn::Over(Ended::Read),
                NextByte::NotYet => Turn::Hear,
            };
        }
        if talk.answers.reserve().is_err() {
            return Turn::Over(Ended::NoMemory);
        }
        self.gate.at(Point::Read(talk.connection));
        match self.next(talk, connection) {
            Heard::Asked(ticket) => {
                self.gate.at(Point::Staged(talk.connection));
                Turn::Wait(ticket)
            }
            Heard::Kept(kept) => {
                self.gate.at(Point::Kept(talk.connection));
                Turn::Keep(kept)
            }
            Heard::Refused(cause) => self.answer(talk, Out::Refused(cause)),
            Heard::NotYet => Turn::Hear,
            Heard::Ended(ended) => Turn::Over(ended),
        }
    }

    // Keeps an answer, which is to be written next.
    fn answer(&self, talk: &mut Conversation<S, T, A>, out: Out<A>) -> Turn<A>
        requires { talk.old.answers.has_room ≡ true }
        ensures kept { (talk.new.answers.outs ≡ talk.old.answers.outs ++ out ∷ []) × (talk.new.session ≡ session_after_out talk.old.session out) }
        ensures same { (talk.new.inlet ≡ talk.old.inlet) × (talk.new.line.items ≡ talk.old.line.items) × (talk.new.is_long ≡ talk.old.is_long)
            × (talk.new.share ≡ talk.old.share) × (talk.new.answers.is_kept ≡ talk.old.answers.is_kept)
            × (talk.new.sight ≡ talk.old.sight) }
        ensures told { IsAnswered out result }
    {
        let text = text_of_out(self.alloc, &out);
        let is_left = is_left(&out);
        talk.session = session_after(talk.session, &out);
        talk.answers.push(out);
        match text {
            Ok(text) => Turn::Tell(Telling {
                text,
                written: 0,
                is_left,
            }),
            Err(NoMemory) => Turn::Over(Ended::NoMemory),
        }
    }

    // Reads a line, and stages its command.
    fn next<C: Connection>(&self, talk: &mut Conversation<S, T, A>, connection: &mut C) -> Heard<A>
        ensures heard { (start : Reading) (outs : List (Out A))
            → HeardPart start (C.reading connection.old) talk.old.inlet talk.old.line.items talk.old.is_long outs
            → IsHeard result start (C.reading connection.new) talk.new.inlet talk.new.line.items talk.new.is_long outs }
        ensures connection { (C.contents connection.new ≡ C.contents connection.old) × (C.names connection.new ≡ C.names connection.old) }
        ensures same { (talk.new.answers ≡ talk.old.answers) × (talk.new.session ≡ talk.old.session) }
        ensures staged { StagesBy result talk.old.session talk.old.share talk.new.share }
        ensures seen { IsPrefix (seen_by talk.old.sight) (seen_by talk.new.sight) }
        ensures shown { ShowsHeard result (seen_by talk.new.sight) }
    {
        match talk
            .inlet
            .next_line(connection, &mut talk.line, &mut talk.is_long)
        {
            NextLine::Whole => {
                let heard = self.ask(
                    talk.session,
                    talk.line.as_slice(),
                    &mut talk.sight,
                    &mut talk.share,
                );
                talk.begin_line();
                heard
            }
            NextLine::TooLong => {
                talk.begin_line();
                Heard::Refused(Cause::bad_line())
            }
            NextLine::End => {
                talk.begin_line();
                Heard::Ended(Ended::EndOfInput)
            }
            NextLine::Fault => {
                talk.begin_line();
                Heard::Ended(Ended::Read)
            }
            NextLine::Limit => {
                talk.begin_line();
                Heard::Ended(Ended::Limit)
            }
            NextLine::NotYet => Heard::NotYet,
        }
    }

    // Stages the command that a line spells, or keeps it where it is a `wait` that may be kept.
    fn ask(
        &self,
        session: u32,
        line: &[u8],
        sight: &mut Option<Sight<S>>,
        share: &mut Share<S, T>,
    ) -> Heard<A>
        ensures fits { length line.now ≤ longest_line → FitsLine line.now result }
        ensures staged { StagesBy result session share.old share.new }
        ensures seen { IsPrefix (seen_by sight.old) (seen_by sight.new) }
        ensures shown { ShowsHeard result (seen_by sight.new) }
    {
        let command = match read_line_of(self.alloc, line) {
            Ok(command) => command,
            Err(LineError::BadLine) => return Heard::Refused(Cause::bad_line()),
            Err(LineError::NoMemory) => return Heard::Refused(Cause::no_memory()),
        };
        if let Some(kept) = self.keep(session, &command) {
            drop(command);
            return Heard::Kept(kept);
        }
        match self.stage(session, command, sight, share) {
            Ok(ticket) => Heard::Asked(ticket),
            Err(cause) => Heard::Refused(cause),
        }
    }

    // Keeps a `wait` for a claim that isn't granted yet, unless `most_waits` are kept already.
    fn keep(&self, session: u32, command: &CommandIn<A>) -> Option<PendingWait>
        ensures kept { IfSome result (λ kept. (command.now ≡ Await kept.claim) × (session ≢ 0) × HasQueued S.beginning kept.claim) }
    {
        let Command::Await(claim) = command else {
            return None;
        };
        if self.most_waits == 0 {
            return None;
        }
        let shared = self.shared;
        shared
            .desk
            .lock(self.rt)
            .keep(session, *claim, self.most_waits)
    }

    // Gives the claim of a kept `wait` that is to be staged now. One that was released is.
    fn lets_go(&self, kept: PendingWait) -> Result<ClaimId, PendingWait>
        ensures claim { IfOk result (λ claim. claim ≡ kept.claim) }
        ensures goes { OnOk result ((kept.is_let_go ≡ true) ⊎ WaitsNoMore S.beginning kept.claim) }
        ensures stays { IfErr result (λ back. (back ≡ kept) × (kept.is_let_go ≡ false) × HasQueued S.beginning kept.claim) }
    {
        let shared = self.shared;
        shared.desk.lock(self.rt).lets_go(kept)
    }

    /// A conversation that keeps a `wait` waits no longer, and stages nothing.
    pub fn stops_waiting(&self, kept: PendingWait) {
        let shared = self.shared;
        shared.desk.lock(self.rt).stops_waiting(kept);
    }

    /// Stages a kept `wait` once its claim doesn't wait any more. If it was released, it is staged at once.
    pub fn stage_kept(&self, talk: &mut Conversation<S, T, A>, kept: PendingWait) -> Turn<A>
        ensures stands { (reader_old reader_new : Reading) (writer_old writer_new : Option (List ℕ)) (counts : Totals)
            → StandsAt (turns.Keep kept) reader_old reader_new writer_old writer_new counts talk.old
            → StandsAt result reader_old reader_new writer_old writer_new counts talk.new }
        ensures kept { talk.new.answers.is_kept ≡ talk.old.answers.is_kept }
    {
        let claim = match self.lets_go(kept) {
            Ok(claim) => claim,
            Err(kept) => return Turn::Keep(kept),
        };
        if talk.answers.reserve().is_err() {
            return Turn::Over(Ended::NoMemory);
        }
        match self.stage(
            talk.session,
            Command::Await(claim),
            &mut talk.sight,
            &mut talk.share,
        ) {
            Ok(ticket) => {
                self.gate.at(Point::Staged(talk.connection));
                Turn::Wait(ticket)
            }
            Err(cause) => self.answer(talk, Out::Refused(cause)),
        }
    }

    // Stages a command, as `try_stage` does. A refusal is the cause for an answer.
    fn stage(
        &self,
        session: u32,
        command: CommandIn<A>,
        sight: &mut Option<Sight<S>>,
        share: &mut Share<S, T>,
    ) -> Result<Ticket<A>, Cause>
        ensures ok { IfOk result
            (λ ticket. (ticket.session ≡ session) × (ticket.command ≡ command)
            × (share.new ≡ record share.old { staged = share.old.staged + 1 })) }
        ensures err { IfErr result (λ cause. (cause ≢ BadLine) × (share.new ≡ share.old)) }
        ensures seen { IsPrefix (seen_by sight.old) (seen_by sight.new) }
        ensures shown { IfOk result (λ ticket. WasStaged (seen_by sight.new) ticket) }
    {
        match self.try_stage(session, command, sight, share) {
            Ok(ticket) => Ok(ticket),
            Err(why) => Err(why.into_cause()),
        }
    }

    /// Stages a command, shows its entry, and wakes the flusher if it is to be woken. If there is no room, it wakes the flusher too.
    pub fn try_stage(
        &self,
        session: u32,
        command: CommandIn<A>,
        sight: &mut Option<Sight<S>>,
        share: &mut Share<S, T>,
    ) -> Result<Ticket<A>, NotStaged>
        ensures ok { IfOk result
            (λ ticket. (ticket.session ≡ session) × (ticket.command ≡ command)
            × (share.new ≡ record share.old { staged = share.old.staged + 1 })) }
        ensures err { IfErr result (λ why. (why ≢ BadLine) × (share.new ≡ share.old)) }
        ensures seen { IsPrefix (seen_by sight.old) (seen_by sight.new) }
        ensures shown { IfOk result (λ ticket. WasStaged (seen_by sight.new) ticket) }
        ensures broken { IfErr result (λ why. why ≡ Broken → WasBroken (seen_by sight.new)) }
    {
        let shared = self.shared;
        let may_change = may_change(&command);
        let mut desk = shared.desk.lock(self.rt);
        match desk.stage_on(self.rt, session, command, sight, share) {
            Ok(ticket) => {
                let wakes = desk.wakes_flusher(may_change);
                drop(desk);
                self.wake(wakes);
                Ok(ticket)
            }
            Err(why) => {
                if why.outside() == Outside::Busy {
                    desk.asks_for_room();
                    shared.work.notify_one();
                }
                drop(desk);
                Err(why)
            }
        }
    }

    /// Answers the command that a ticket is for, once its fate is known. A reply that isn't known yet is still waited for.
    pub fn settle(&self, talk: &mut Conversation<S, T, A>, ticket: Ticket<A>) -> Turn<A>
        ensures stands { (reader_old reader_new : Reading) (writer_old writer_new : Option (List ℕ)) (counts : Totals)
            → StandsAt (turns.Wait ticket) reader_old reader_new writer_old writer_new counts talk.old
            → StandsAt result reader_old reader_new writer_old writer_new counts talk.new }
        ensures kept { talk.new.answers.is_kept ≡ talk.old.answers.is_kept }
    {
        if talk.answers.reserve().is_err() {
            self.forget(ticket);
            return Turn::Over(Ended::NoMemory);
        }
        match self.look(ticket, &mut talk.sight, &mut talk.share) {
            Looked::Told(receipt) => {
                self.gate.at(Point::Told(talk.connection));
                self.answer(talk, Out::Told(receipt))
            }
            Looked::NotYet(ticket) => Turn::Wait(ticket),
            Looked::Lost(ticket, cause) => {
                self.forget(ticket);
                self.answer(talk, Out::Refused(cause))
            }
            Looked::NoMemory(ticket) => {
                self.forget(ticket);
                Turn::Over(Ended::NoMemory)
            }
        }
    }

    // Looks for a reply.
    fn look(
        &self,
        ticket: Ticket<A>,
        sight: &mut Option<Sight<S>>,
        share: &mut Share<S, T>,
    ) -> Looked<A>
        ensures of_ticket { IsFor ticket result }
        ensures counted { CountsLooked share.old result share.new }
        ensures seen { IsPrefix (seen_by sight.old) (seen_by sight.new) }
        ensures shown { ShowsLooked (seen_by sight.old) ticket result (seen_by sight.new) }
    {
        let shared = self.shared;
        shared
            .desk
            .lock(self.rt)
            .look(self.rt, ticket, sight, share)
    }

    // Wakes the flusher, if it is to be woken.
    fn wake(&self, wakes: bool) {
        let shared = self.shared;
        if wakes {
            shared.work.notify_one();
        }
    }

    /// Spends a ticket without its reply.
    pub fn forget(&self, ticket: Ticket<A>) {
        let shared = self.shared;
        let _ = shared.desk.lock(self.rt).forget(ticket);
    }
}
