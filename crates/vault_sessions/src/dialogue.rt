//! One connection's conversation, from its first byte to its report: the code that serves is the code that is proved.
ghost use Rattle.std.specs.Prelude.{◌≡◌, ◌≢◌, ◌≤◌, ◌↔◌, ◌||◌, ℕ, Bool, IsTrue, MatchBool, true, false, List, Option, None, IfOk, IfErr, OnOk, OnErr, length, ◌+◌};
ghost use mathlib.Core.List.{IsPrefix};
ghost use Rattle.line_inlet.specs.Inflow.{Inflow};
ghost use Rattle.line_inlet.specs.Reading.{Reading};
ghost use Rattle.group_commit.specs.View.{View};
ghost use Rattle.vault_desk.specs.Sights.{seen_by, WasLeft, WasBroken, HasItsLeave};
ghost use Rattle.vault_model.specs.declared.replies.Outside.TheVariants.{Broken};
ghost use Rattle.vault_desk.specs.Serving.{AreSeen, Counts, most_lines, HeardAll, SpeaksFor, session_of, CountsAll, WritesAll, QuitsBy};
ghost use Rattle.vault_desk.specs.Talking.{Stands, StandsAt, Knows};
ghost use Rattle.vault_sessions.specs.Dialogues.{IsDone, StandsIn, KnowsIn, TalksOn, HasLeft, StepsBy, is_done, has_ended, awaits_of};
ghost use Rattle.vault_desk.specs.declared.report.Out.{Out};
ghost use Rattle.vault_desk.specs.declared.tally.Totals.{Totals};
ghost use Rattle.vault_desk.specs.declared.turn.Turn.TheVariants as turns;
ghost use Rattle.vault_sessions.specs.declared.next.Next.TheVariants as nexts;
ghost use Rattle.vault_sessions.specs.declared.dialogue.Step.TheVariants as steps;
ghost use Rattle.vault_sessions.specs.declared.dialogue.Awaits.TheVariants as awaited;

use crate::last_leave::LastLeave;
use crate::next::{Finished, Next};
use crate::worker::Worker;
use group_commit::Ticket;
use line_inlet::Connection;
use std::alloc::Allocator;
use std::marker::Model;
use std::mem;
use std::snapshot::Snapshot;
use std::sync::Wait;
use vault_desk::{
    Answers, Clerk, Conversation, Ended, Gate, NotStaged, PendingWait, Share, Sight, Tally,
    Telling, Turn, tell,
};
use vault_device::Device;
use vault_model::{Command, Outside};

/// What a step came to.
#[derive(Debug, Clone, Copy, PartialEq, Eq)]
pub enum Step {
    /// It was taken, and there may be a next one.
    Went,
    /// A reply isn't known yet, a claim still waits, or there is no room for a last leave.
    Waits,
    /// There is no whole line for now.
    Dry,
    /// The connection takes no more for now.
    Full,
    /// There is no step any more.
    Over,
}

/// What the next step is for.
#[derive(Debug, Clone, Copy, PartialEq, Eq)]
pub enum Awaits {
    /// To hear a line.
    Line,
    /// To stage a `wait` that is kept, once its claim doesn't wait any more.
    Claim,
    /// To look for the reply to a command.
    Reply,
    /// To write an answer.
    Telling,
    /// To stage a last leave, if a session is open.
    Leave,
    /// There is none.
    Nothing,
}

/// One connection's conversation. It owns the connection, and nobody else reads or writes a byte over it. Contracts see what it began
/// with, the bytes that its connection has still to give, the bytes written to it, and the session that it speaks for.
pub struct Dialogue<C: Connection, S: Tally, T: Tally, A: Allocator> {
    connection: C,
    talk: Conversation<S, T, A>,
    next: Next<A>,
    // The connection and the share as they were at the beginning. These take no bytes.
    began: Snapshot<C>,
    counted: Snapshot<Share<S, T>>,
}

impl<C: Connection, S: Tally, T: Tally, A: Allocator> Model for Dialogue<C, S, T, A> {
    ghost use Rattle.vault_sessions.specs.AtTalk.{AtTalk};

    ghost Value = { AtTalk };

    ghost use Rattle.vault_sessions.specs.Dialogues.{TalksOn, is_done, has_ended, awaits_of};

    ghost view = { λ d. record {
      began = record {
        reading = C.reading d.began.value;
        contents = C.contents d.began.value;
        counted = d.counted.value;
        names = C.names d.connection;
        keeps = d.talk.answers.is_kept;
      };
      reading = C.reading d.connection;
      contents = C.contents d.connection;
      session = d.talk.session;
      awaits = awaits_of d.next;
      is_over = is_done d.next;
      has_ended = has_ended d.next;
    } };

    // The invariant of lib.rt.
    ghost invariant = { λ d. TalksOn d.next (C.reading d.began.value) (C.reading d.connection) (C.contents d.began.value)
        (C.contents d.connection) d.counted.value d.talk };
}

impl<C: Connection, S: Tally, T: Tally, A: Allocator + Copy> Dialogue<C, S, T, A> {
    /// A new dialogue, which has heard nothing. `keeps` says whether the values of its answers are kept for the report: kept ones take
    /// memory until the end. Where memory is refused, the connection and the share come back.
    pub fn new(
        alloc: A,
        number: u32,
        connection: C,
        share: Share<S, T>,
        keeps: bool,
    ) -> Result<Dialogue<C, S, T, A>, (C, Share<S, T>)>
        ensures made { IfOk result (λ dialogue. dialogue ≡ record {
          began = record {
            reading = C.reading connection;
            contents = C.contents connection;
            counted = share;
            names = C.names connection;
            keeps = keeps;
          };
          reading = C.reading connection;
          contents = C.contents connection;
          session = 0;
          awaits = awaited.Line;
          is_over = false;
          has_ended = false;
        }) }
        ensures handed_back { IfErr result (λ back. (back.0 ≡ connection) × (back.1 ≡ share)) }
    {
        let began = Snapshot::of(&connection);
        let counted = Snapshot::of(&share);
        match Conversation::new(alloc, number, keeps, share) {
            Ok(talk) => Ok(Dialogue {
                connection,
                talk,
                next: Next::Takes(Turn::Hear),
                began,
                counted,
            }),
            Err(share) => Err((connection, share)),
        }
    }

    /// Takes the next step, where it can be taken now.
    #[tactic(auto, using(crate::proofs::Dialogues::done_ended))]
    pub fn step<D: Device, G: Gate, H: Wait>(
        &mut self,
        worker: &Worker<'_, D, S, T, A, G, H>,
    ) -> Step
        ensures began { self.new.began ≡ self.old.began }
        ensures came { StepsBy result self.old.awaits self.new.awaits }
        ensures over { (result ≡ steps.Over) ↔ (self.new.is_over ≡ true) }
        ensures ended { self.new.has_ended ≡ (self.new.is_over || self.old.has_ended) }
        ensures silent { self.old.has_ended ≡ true → (self.new.reading ≡ self.old.reading) × (self.new.contents ≡ self.old.contents) }
    {
        let next = mem::replace(&mut self.next, Next::TakenOut);
        let (next, step) = advance(&worker.clerk(), &mut self.talk, &mut self.connection, next);
        put_back(&mut self.next, next);
        step
    }

    /// Reads and writes nothing more. A reply that it waits for is lost. If a session is open, a further step stages its last leave.
    pub fn give_up<D: Device, G: Gate, H: Wait>(&mut self, worker: &Worker<'_, D, S, T, A, G, H>)
        ensures same { (self.new.began ≡ self.old.began) × (self.new.session ≡ self.old.session) × (self.new.is_over ≡ self.old.is_over) }
        ensures leaves { MatchBool self.old.is_over (self.new.awaits ≡ awaited.Nothing) (self.new.awaits ≡ awaited.Leave) }
        ensures ended { self.new.has_ended ≡ true }
        ensures silent { (self.new.reading ≡ self.old.reading) × (self.new.contents ≡ self.old.contents) }
    {
        let next = mem::replace(&mut self.next, Next::TakenOut);
        let next = give_up(&worker.clerk(), next);
        put_back(&mut self.next, next);
    }

    /// If it keeps a `wait`, the next step stages it, however the claim stands.
    pub fn let_go(&mut self)
        ensures { self.new ≡ self.old }
    {
        let next = mem::replace(&mut self.next, Next::TakenOut);
        let next = let_go(next);
        put_back(&mut self.next, next);
    }

    /// Its connection has news. `is_ending` says that its client sends no more than what has arrived.
    pub fn wake(&mut self, is_ending: bool)
        ensures { self.new ≡ self.old }
    {
        self.connection.wake(is_ending);
    }

    /// A new round begins, in which its connection may give as many bytes again.
    pub fn begin_round(&mut self)
        ensures { self.new ≡ self.old }
    {
        self.connection.begin_round();
    }

    /// Whether its connection gave as many bytes as it may in one round, and may have more.
    pub fn is_spent(&self) -> bool {
        self.connection.is_spent()
    }

    /// Whether it speaks for a session.
    pub fn has_session(&self) -> bool
        ensures { IsTrue result ↔ self.now.session ≢ 0 }
    {
        self.talk.session != 0
    }

    /// Whether it has heard a part of a line, and not its end.
    pub fn is_within_line(&self) -> bool {
        self.talk.is_long || !self.talk.line.is_empty()
    }

    /// What its next step is for.
    pub fn awaits(&self) -> Awaits
        ensures awaits { result ≡ self.now.awaits }
        ensures over { (result ≡ awaited.Nothing) ↔ (self.now.is_over ≡ true) }
        ensures ended { result ≡ awaited.Nothing → self.now.has_ended ≡ true }
    {
        match &self.next {
            Next::Takes(Turn::Hear) => Awaits::Line,
            Next::Takes(Turn::Keep(_)) => Awaits::Claim,
            Next::Takes(Turn::Wait(_)) => Awaits::Reply,
            Next::Takes(Turn::Tell(_)) => Awaits::Telling,
            Next::Takes(Turn::Over(_)) | Next::GivenUp(_) => Awaits::Leave,
            Next::Done(_, _) | Next::TakenOut => Awaits::Nothing,
        }
    }

    /// What it came to, and its connection. It must be over or given up. If it was given up and isn't over, an open session gets no
    /// last leave any more.
    pub fn finish(self) -> (C, Finished<S, T, A>)
        requires { self.has_ended ≡ true }
        ensures connection { (C.reading result.0 ≡ self.reading) × (C.contents result.0 ≡ self.contents) × (C.names result.0 ≡ self.began.names) }
        ensures heard { HeardAll self.began.reading self.reading result.1.answers.outs result.1.ended }
        ensures few { length result.1.answers.outs ≤ most_lines }
        ensures spoken { SpeaksFor 0 result.1.answers.outs }
        ensures told { AreSeen (seen_by result.1.sight) result.1.answers.outs }
        ensures session { self.session ≡ session_of 0 result.1.answers.outs }
        ensures written { WritesAll result.1.ended self.began.contents self.contents result.1.answers.outs }
        ensures quit { QuitsBy result.1.ended result.1.answers.outs }
        ensures counted { CountsAll self.began.counted result.1.answers.outs result.1.ended result.1.share }
        ensures left { self.is_over ≡ true → HasLeft result.1.left (session_of 0 result.1.answers.outs) }
        ensures gone { self.is_over ≡ true → HasItsLeave (seen_by result.1.sight) (session_of 0 result.1.answers.outs) }
        ensures given_up { self.is_over ≡ false → result.1.left ≡ None }
        ensures kept { result.1.answers.is_kept ≡ self.began.keeps }
    {
        let Dialogue {
            connection,
            talk,
            next,
            began: _,
            counted: _,
        } = self;
        let (ended, left) = end(next);
        let Conversation {
            connection: _,
            inlet: _,
            line: _,
            is_long: _,
            answers,
            session: _,
            share,
            sight,
        } = talk;
        (
            connection,
            Finished {
                answers,
                share,
                sight,
                ended,
                left,
            },
        )
    }
}

// Puts back what comes next.
fn put_back<A: Allocator>(place: &mut Next<A>, next: Next<A>)
    requires { place.old ≡ nexts.TakenOut }
    ensures { place.new ≡ next }
{
    match mem::replace(place, next) {
        Next::TakenOut => {}
        Next::Takes(_turn) => unreachable!(),
        Next::GivenUp(_) => unreachable!(),
        Next::Done(_, _) => unreachable!(),
    }
}

// Takes a step.
fn advance<D: Device, S: Tally, T: Tally, A: Allocator + Copy, G: Gate, H: Wait, C: Connection>(
    clerk: &Clerk<'_, D, S, T, A, G, H>,
    talk: &mut Conversation<S, T, A>,
    connection: &mut C,
    next: Next<A>,
) -> (Next<A>, Step)
    requires { talk.old.session ≡ session_of 0 talk.old.answers.outs }
    ensures stands { (reader_old : Reading) (writer_old : Option (List ℕ)) (counts : Totals)
        → TalksOn next reader_old (C.reading connection.old) writer_old (C.contents connection.old) counts talk.old
        → TalksOn result.0 reader_old (C.reading connection.new) writer_old (C.contents connection.new) counts talk.new }
    ensures same { (C.names connection.new ≡ C.names connection.old) × (talk.new.answers.is_kept ≡ talk.old.answers.is_kept) }
    ensures came { StepsBy result.1 (awaits_of next) (awaits_of result.0) }
    ensures over { (result.1 ≡ steps.Over) ↔ (is_done result.0 ≡ true) }
    ensures ended { has_ended result.0 ≡ (is_done result.0 || has_ended next) }
    ensures silent { has_ended next ≡ true
        → (C.reading connection.new ≡ C.reading connection.old) × (C.contents connection.new ≡ C.contents connection.old) }
{
    match next {
        Next::Takes(Turn::Hear) => hear(clerk, talk, connection),
        Next::Takes(Turn::Keep(kept)) => stage_kept(clerk, talk, kept),
        Next::Takes(Turn::Wait(ticket)) => settle(clerk, talk, ticket),
        Next::Takes(Turn::Tell(telling)) => tell_on(connection, telling),
        Next::Takes(Turn::Over(ended)) => leave(clerk, talk, ended, false),
        Next::GivenUp(ended) => leave(clerk, talk, ended, true),
        Next::Done(ended, left) => (Next::Done(ended, left), Step::Over),
        Next::TakenOut => (Next::TakenOut, Step::Over),
    }
}

// Hears a line.
fn hear<D: Device, S: Tally, T: Tally, A: Allocator + Copy, G: Gate, H: Wait, C: Connection>(
    clerk: &Clerk<'_, D, S, T, A, G, H>,
    talk: &mut Conversation<S, T, A>,
    connection: &mut C,
) -> (Next<A>, Step)
    ensures stands { (reader_old : Reading) (writer_old : Option (List ℕ)) (counts : Totals)
        → StandsAt turns.Hear reader_old (C.reading connection.old) writer_old (C.contents connection.old) counts talk.old
        → TalksOn result.0 reader_old (C.reading connection.new) writer_old (C.contents connection.new) counts talk.new }
    ensures same { (C.names connection.new ≡ C.names connection.old) × (talk.new.answers.is_kept ≡ talk.old.answers.is_kept) }
    ensures came { StepsBy result.1 awaited.Line (awaits_of result.0) }
    ensures over { (result.1 ≡ steps.Over) ↔ (is_done result.0 ≡ true) }
    ensures ended { has_ended result.0 ≡ is_done result.0 }
{
    match clerk.hear(talk, connection) {
        Turn::Hear => (Next::Takes(Turn::Hear), Step::Dry),
        turn => (Next::Takes(turn), Step::Went),
    }
}

// Stages a kept `wait`, once it is time.
fn stage_kept<D: Device, S: Tally, T: Tally, A: Allocator + Copy, G: Gate, H: Wait>(
    clerk: &Clerk<'_, D, S, T, A, G, H>,
    talk: &mut Conversation<S, T, A>,
    kept: PendingWait,
) -> (Next<A>, Step)
    ensures stands { (reader_old reader_new : Reading) (writer_old writer_new : Option (List ℕ)) (counts : Totals)
        → StandsAt (turns.Keep kept) reader_old reader_new writer_old writer_new counts talk.old
        → TalksOn result.0 reader_old reader_new writer_old writer_new counts talk.new }
    ensures kept { talk.new.answers.is_kept ≡ talk.old.answers.is_kept }
    ensures came { StepsBy result.1 awaited.Claim (awaits_of result.0) }
    ensures over { (result.1 ≡ steps.Over) ↔ (is_done result.0 ≡ true) }
    ensures ended { has_ended result.0 ≡ is_done result.0 }
{
    match clerk.stage_kept(talk, kept) {
        Turn::Keep(kept) => (Next::Takes(Turn::Keep(kept)), Step::Waits),
        turn => (Next::Takes(turn), Step::Went),
    }
}

// Answers the command that a ticket is for, once its fate is known.
fn settle<D: Device, S: Tally, T: Tally, A: Allocator + Copy, G: Gate, H: Wait>(
    clerk: &Clerk<'_, D, S, T, A, G, H>,
    talk: &mut Conversation<S, T, A>,
    ticket: Ticket<A>,
) -> (Next<A>, Step)
    ensures stands { (reader_old reader_new : Reading) (writer_old writer_new : Option (List ℕ)) (counts : Totals)
        → StandsAt (turns.Wait ticket) reader_old reader_new writer_old writer_new counts talk.old
        → TalksOn result.0 reader_old reader_new writer_old writer_new counts talk.new }
    ensures kept { talk.new.answers.is_kept ≡ talk.old.answers.is_kept }
    ensures came { StepsBy result.1 awaited.Reply (awaits_of result.0) }
    ensures over { (result.1 ≡ steps.Over) ↔ (is_done result.0 ≡ true) }
    ensures ended { has_ended result.0 ≡ is_done result.0 }
{
    match clerk.settle(talk, ticket) {
        Turn::Wait(ticket) => (Next::Takes(Turn::Wait(ticket)), Step::Waits),
        turn => (Next::Takes(turn), Step::Went),
    }
}

// Writes an answer.
fn tell_on<A: Allocator, C: Connection>(connection: &mut C, telling: Telling<A>) -> (Next<A>, Step)
    ensures stands { (reader_old : Reading) (writer_old : Option (List ℕ)) (counts : Totals) (inflow : Inflow) (kept : List ℕ) (is_long : Bool)
        (outs : List (Out A)) (session : ℕ) (share : Totals)
        → Stands (turns.Tell telling) reader_old (C.reading connection.old) writer_old (C.contents connection.old) counts inflow kept is_long outs session share
        → StandsIn result.0 reader_old (C.reading connection.new) writer_old (C.contents connection.new) counts inflow kept is_long outs session share }
    ensures knows { (seen : List View) (outs : List (Out A)) → AreSeen seen outs → KnowsIn result.0 seen outs }
    ensures same { C.names connection.new ≡ C.names connection.old }
    ensures came { StepsBy result.1 awaited.Telling (awaits_of result.0) }
    ensures over { (result.1 ≡ steps.Over) ↔ (is_done result.0 ≡ true) }
    ensures ended { has_ended result.0 ≡ is_done result.0 }
{
    let (turn, _) = tell(connection, telling);
    match turn {
        Turn::Tell(telling) => (Next::Takes(Turn::Tell(telling)), Step::Full),
        turn => (Next::Takes(turn), Step::Went),
    }
}

// Stages a last leave of the open session, if there is one. Only a full history puts it off: a leave asks for no memory.
fn leave<D: Device, S: Tally, T: Tally, A: Allocator + Copy, G: Gate, H: Wait>(
    clerk: &Clerk<'_, D, S, T, A, G, H>,
    talk: &mut Conversation<S, T, A>,
    ended: Ended,
    is_given_up: bool,
) -> (Next<A>, Step)
    requires { talk.old.session ≡ session_of 0 talk.old.answers.outs }
    ensures stands { (reader_old reader_new : Reading) (writer_old writer_new : Option (List ℕ)) (counts : Totals)
        → StandsAt (turns.Over ended) reader_old reader_new writer_old writer_new counts talk.old
        → TalksOn result.0 reader_old reader_new writer_old writer_new counts talk.new }
    ensures kept { talk.new.answers.is_kept ≡ talk.old.answers.is_kept }
    ensures came { StepsBy result.1 awaited.Leave (awaits_of result.0) }
    ensures over { (result.1 ≡ steps.Over) ↔ (is_done result.0 ≡ true) }
    ensures ended { has_ended result.0 ≡ (is_done result.0 || is_given_up) }
{
    if talk.session == 0 {
        return (Next::Done(ended, LastLeave::of_none()), Step::Over);
    }
    let left = try_leave(
        clerk,
        &talk.answers,
        talk.session,
        &mut talk.sight,
        &mut talk.share,
    );
    let why = match left {
        Ok(left) => return (Next::Done(ended, left), Step::Over),
        Err(why) => why,
    };
    if why.outside() == Outside::Broken {
        return (
            Next::Done(ended, LastLeave::refused(&why, talk.session)),
            Step::Over,
        );
    }
    if is_given_up {
        return (Next::GivenUp(ended), Step::Waits);
    }
    (Next::Takes(Turn::Over(ended)), Step::Waits)
}

// Stages a last leave of the session that the answers leave open, and forgets its ticket. Else it says why none is staged. If the vault
// is broken, the session stays open; for any other cause it may be tried again.
fn try_leave<D: Device, S: Tally, T: Tally, A: Allocator + Copy, G: Gate, H: Wait>(
    clerk: &Clerk<'_, D, S, T, A, G, H>,
    answers: &Answers<A>,
    session: u32,
    sight: &mut Option<Sight<S>>,
    share: &mut Share<S, T>,
) -> Result<LastLeave, NotStaged>
    requires { session ≡ session_of 0 answers.now.outs }
    ensures left { IfOk result (λ left. left ≡ session) }
    ensures shown { OnOk result (WasLeft (seen_by sight.new) session) }
    ensures broken { IfErr result (λ why. why ≡ Broken → WasBroken (seen_by sight.new)) }
    ensures staged { OnOk result (share.new ≡ record share.old { staged = share.old.staged + 1 }) }
    ensures refused { OnErr result (share.new ≡ share.old) }
    ensures counted { Counts share.old 0 1 share.new }
    ensures seen { IsPrefix (seen_by sight.old) (seen_by sight.new) }
{
    match clerk.try_stage(session, Command::Leave, sight, share) {
        Ok(ticket) => {
            let left = LastLeave::staged(&ticket, session);
            clerk.forget(ticket);
            Ok(left)
        }
        Err(why) => Err(why),
    }
}

// How a conversation ends if it is given up at this turn.
fn end_turn<D: Device, S: Tally, T: Tally, A: Allocator + Copy, G: Gate, H: Wait>(
    clerk: &Clerk<'_, D, S, T, A, G, H>,
    turn: Turn<A>,
) -> Ended
    ensures { (reader_old reader_new : Reading) (writer_old writer_new : Option (List ℕ)) (counts : Totals) (inflow : Inflow) (kept : List ℕ) (is_long : Bool)
        (outs : List (Out A)) (session : ℕ) (share : Totals)
        → Stands turn reader_old reader_new writer_old writer_new counts inflow kept is_long outs session share
        → Stands {A = A} (turns.Over result) reader_old reader_new writer_old writer_new counts inflow kept is_long outs session share }
{
    match turn {
        Turn::Hear => Ended::Read,
        Turn::Keep(kept) => {
            clerk.stops_waiting(kept);
            Ended::Read
        }
        Turn::Wait(ticket) => {
            clerk.forget(ticket);
            Ended::NoMemory
        }
        Turn::Tell(telling) => end_telling(&telling),
        Turn::Over(ended) => ended,
    }
}

// The same while an answer is being written. If it was written whole, it counts as answered.
fn end_telling<A: Allocator>(telling: &Telling<A>) -> Ended
    ensures { (reader_old reader_new : Reading) (writer_old writer_new : Option (List ℕ)) (counts : Totals) (inflow : Inflow) (kept : List ℕ) (is_long : Bool)
        (outs : List (Out A)) (session : ℕ) (share : Totals)
        → Stands (turns.Tell telling.now) reader_old reader_new writer_old writer_new counts inflow kept is_long outs session share
        → Stands {A = A} (turns.Over result) reader_old reader_new writer_old writer_new counts inflow kept is_long outs session share }
{
    if telling.written < telling.text.len() {
        return Ended::Write;
    }
    if telling.is_left {
        return Ended::Quit;
    }
    Ended::Read
}

// What comes next once a kept `wait` is released.
fn let_go<A: Allocator>(next: Next<A>) -> Next<A>
    ensures stands { (reader_old reader_new : Reading) (writer_old writer_new : Option (List ℕ)) (counts : Totals) (inflow : Inflow) (kept : List ℕ) (is_long : Bool)
        (outs : List (Out A)) (session : ℕ) (share : Totals)
        → StandsIn next reader_old reader_new writer_old writer_new counts inflow kept is_long outs session share
        → StandsIn result reader_old reader_new writer_old writer_new counts inflow kept is_long outs session share }
    ensures knows { (seen : List View) (outs : List (Out A)) → KnowsIn next seen outs → KnowsIn result seen outs }
    ensures same { (has_ended result ≡ has_ended next) × (is_done result ≡ is_done next) × (awaits_of result ≡ awaits_of next) }
{
    match next {
        Next::Takes(Turn::Keep(kept)) => Next::Takes(Turn::Keep(kept.let_go(true))),
        next => next,
    }
}

// What comes next once it is given up.
fn give_up<D: Device, S: Tally, T: Tally, A: Allocator + Copy, G: Gate, H: Wait>(
    clerk: &Clerk<'_, D, S, T, A, G, H>,
    next: Next<A>,
) -> Next<A>
    ensures stands { (reader_old reader_new : Reading) (writer_old writer_new : Option (List ℕ)) (counts : Totals) (inflow : Inflow) (kept : List ℕ) (is_long : Bool)
        (outs : List (Out A)) (session : ℕ) (share : Totals)
        → StandsIn next reader_old reader_new writer_old writer_new counts inflow kept is_long outs session share
        → StandsIn result reader_old reader_new writer_old writer_new counts inflow kept is_long outs session share }
    ensures knows { (seen : List View) (outs : List (Out A)) → KnowsIn next seen outs → KnowsIn result seen outs }
    ensures leaves { MatchBool (is_done next) (awaits_of result ≡ awaited.Nothing) (awaits_of result ≡ awaited.Leave) }
    ensures ended { (has_ended result ≡ true) × (is_done result ≡ is_done next) }
{
    match next {
        Next::Takes(turn) => Next::GivenUp(end_turn(clerk, turn)),
        Next::GivenUp(ended) => Next::GivenUp(ended),
        Next::Done(ended, left) => Next::Done(ended, left),
        Next::TakenOut => Next::TakenOut,
    }
}

// How it ended, and how it left its session.
fn end<A: Allocator>(next: Next<A>) -> (Ended, Option<LastLeave>)
    requires { has_ended next ≡ true }
    ensures done { (reader_old reader_new : Reading) (writer_old writer_new : Option (List ℕ)) (counts : Totals) (inflow : Inflow) (kept : List ℕ) (is_long : Bool)
        (outs : List (Out A)) (session : ℕ) (share : Totals)
        → StandsIn next reader_old reader_new writer_old writer_new counts inflow kept is_long outs session share
        → IsDone {A = A} result.0 reader_old reader_new writer_old writer_new counts outs session share }
    ensures knows { (seen : List View) (outs : List (Out A)) → KnowsIn next seen outs → AreSeen seen outs }
    ensures left { (reader_old reader_new : Reading) (writer_old writer_new : Option (List ℕ)) (counts : Totals) (inflow : Inflow) (kept : List ℕ) (is_long : Bool)
        (outs : List (Out A)) (session : ℕ) (share : Totals)
        → StandsIn next reader_old reader_new writer_old writer_new counts inflow kept is_long outs session share
        → is_done next ≡ true → HasLeft result.1 (session_of 0 outs) }
    ensures gone { (seen : List View) (outs : List (Out A)) → KnowsIn next seen outs → is_done next ≡ true → HasItsLeave seen (session_of 0 outs) }
    ensures given_up { is_done next ≡ false → result.1 ≡ None }
{
    match next {
        Next::Takes(_turn) => unreachable!(),
        Next::GivenUp(ended) => (ended, None),
        Next::Done(ended, left) => (ended, Some(left)),
        Next::TakenOut => (Ended::Read, None),
    }
}
