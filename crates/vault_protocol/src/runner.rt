//! A conversation of several connections with one vault, line by line.

ghost use Rattle.std.specs.Prelude.{◌≡◌, ◌++◌, ◌↔◌, IsTrue, IfErr, IfOk, OnOk, Some, [], replicate};
ghost use Rattle.vault_model.specs.Said.{Command};
ghost use Rattle.vault_protocol.specs.Limits.{last_connection};
ghost use Rattle.vault_lines.specs.Grammar.{command_of};
ghost use Rattle.vault_lines.specs.Texts.{outside_text, reply_text};
ghost use Rattle.vault_protocol.specs.Talk.{new_talk, connection_text, sessions_after, with_text, said_now, said, pumped, pumps_needed, committed, started, crashed, told, told_text, reply_at, is_awaited};
ghost use Rattle.vault_protocol.specs.Script.{answered, connection_line, heard, heard_of, with_refusal, ready, said_by, said_for};
ghost use Rattle.vault_protocol.specs.Saying.{is_sayable, said_first};

use crate::error::ScriptError;
use crate::letting_go::let_go;
use crate::limits::LAST_CONNECTION;
use crate::lines::{Connection, connection_of, crash_of};
use crate::losing::{give_up, lose};
use crate::reopening::reopened;
use crate::waiting::Waiting;
use group_commit::promises::a_vault_keeps_its_history;
use group_commit::{Phase, Pumped, Redeemed, Ticket, Vault};
use std::alloc::{AllocError, Allocator};
use std::collections::VecDeque;
use std::marker::Model;
use vault_device::{Device, MemDevice, Pick};
use vault_lines::{LineError, outside_text, read_line_of, text_of};
use vault_model::{CommandIn, Listing, Outside, Reply, ReplyIn};

/// A vault over two devices in memory, the session that each connection speaks for, how many entries this life had up to and
/// with each connection's last command, and the lines that aren't printed yet. Lines may hold tickets, so a runner ends by
/// `finish` or `close`.
pub(crate) struct Runner<A: Allocator + Copy> {
    vault: Vault<MemDevice<A>, A>,
    sessions: [u32; LAST_CONNECTION as usize],
    asked: [u64; LAST_CONNECTION as usize],
    lines: VecDeque<Waiting<A>, A>,
}

impl<A: Allocator + Copy> Model for Runner<A> {
    ghost use Rattle.std.specs.Prelude.{length};
    ghost use Rattle.vault_protocol.specs.Talk.{Talk};
    ghost use Rattle.vault_protocol.specs.Waiting.{lines_of};

    ghost Value = { Talk };

    ghost view = { λ r. record {
      view = r.vault.view;
      buffer = length r.vault.store.buffer;
      generation = r.vault.store.generation;
      tail = r.vault.store.tail;
      sessions = r.sessions;
      asked = r.asked;
      lines = lines_of r.lines.items;
    } };
}

/// A connection speaks for the session that it opened last, and for session 0 again once it left.
fn speak_for<A: Allocator>(
    sessions: &mut [u32; LAST_CONNECTION as usize],
    connection: Connection,
    reply: &ReplyIn<A>,
)
    ensures { sessions.new ≡ sessions_after sessions.old connection reply.now }
{
    match reply {
        Reply::Session(number) => sessions[connection.place()] = *number,
        Reply::Left => sessions[connection.place()] = 0,
        _ => {}
    }
}

/// The text, with the connection's number before it.
fn prefixed<A: Allocator>(
    alloc: A,
    connection: Connection,
    text: &[u8],
) -> Result<Vec<u8, A>, AllocError>
    ensures { IfOk result (λ whole. whole.items ≡ connection_text connection text.now) }
{
    let number = connection.number();
    let mut whole = format!(in alloc; "@{number} ")?.into_bytes();
    whole.extend_from_slice(text)?;
    Ok(whole)
}

/// Appends the line with a connection's reply.
fn put_reply<A: Allocator + Copy>(
    alloc: A,
    connection: Connection,
    reply: &ReplyIn<A>,
    out: &mut Vec<u8, A>,
) -> Result<(), AllocError>
    ensures { OnOk result (out.new.items ≡ out.old.items ++ connection_text connection (reply_text reply.now)) }
{
    let Ok(text) = text_of(alloc, reply) else {
        return Err(AllocError);
    };
    let text = prefixed(alloc, connection, &text)?;
    out.extend_from_slice(&text)
}

/// Whether all entries are durable, and neither a commit nor a snapshot is under way.
fn is_at_rest<D: Device, A: Allocator + Copy>(vault: &Vault<D, A>) -> bool
    ensures { IsTrue result ↔ (pumps_needed vault.now.view ≡ 0) }
{
    a_vault_keeps_its_history(vault);
    vault.phase() == Phase::Idle && vault.durable() == vault.len()
}

impl<A: Allocator + Copy> Runner<A> {
    /// A new vault, and no sessions.
    pub(crate) fn new(alloc: A) -> Result<Runner<A>, ScriptError>
        ensures new { IfOk result (λ runner. runner ≡ new_talk) }
        ensures cause { IfErr result (λ e. e ≡ ScriptError.NoMemory) }
    {
        let first = MemDevice::new(alloc)?;
        let second = MemDevice::new(alloc)?;
        match Vault::create(alloc, first, second, 1) {
            Ok(vault) => Ok(Runner {
                vault,
                sessions: [0; LAST_CONNECTION as usize],
                asked: [0; LAST_CONNECTION as usize],
                lines: VecDeque::new(alloc),
            }),
            Err(refused) => {
                drop(refused);
                Err(ScriptError::NoMemory)
            }
        }
    }

    /// Ends, even if lines are still waiting.
    pub(crate) fn close(self) {
        let Runner {
            mut vault,
            sessions: _,
            asked: _,
            lines,
        } = self;
        give_up(&mut vault, lines);
        drop(vault);
    }

    // Adds a waiting line with this text.
    fn push_text(&mut self, text: Vec<u8, A>) -> Result<(), AllocError>
        ensures { OnOk result (self.new ≡ with_text self.old text.items) }
    {
        self.lines.reserve(1)?;
        self.lines
            .push_back_reserved(Waiting::Known(Listing::from_vec(text)));
        Ok(())
    }

    // Answers a connection by a refusal that is no entry of the history.
    fn refuse(
        &mut self,
        alloc: A,
        connection: Connection,
        outside: Outside,
    ) -> Result<(), ScriptError>
        ensures state { OnOk result (self.new ≡ with_refusal self.old connection (outside_text outside)) }
        ensures cause { IfErr result (λ e. e ≡ ScriptError.NoMemory) }
    {
        let text = outside_text(alloc, outside)?;
        let text = prefixed(alloc, connection, &text)?;
        Ok(self.push_text(text)?)
    }

    // Gives a connection's command its place in the history, if there is room.
    fn stage(
        &mut self,
        alloc: A,
        connection: Connection,
        command: CommandIn<A>,
    ) -> Result<(), ScriptError>
        ensures state { OnOk result (self.new ≡ answered self.old connection (Some command)) }
        ensures cause { IfErr result (λ e. e ≡ ScriptError.NoMemory) }
    {
        self.lines.reserve(1)?;
        let session = self.sessions[connection.place()];
        match self.vault.stage(session, command) {
            Ok(ticket) => {
                self.asked[connection.place()] = self.vault.len();
                self.lines
                    .push_back_reserved(Waiting::Awaited(connection, ticket));
                Ok(())
            }
            Err((why, back)) => {
                drop(back);
                match why {
                    Outside::Busy => self.refuse(alloc, connection, Outside::Busy),
                    _ => Err(ScriptError::NoMemory),
                }
            }
        }
    }

    // Answers a line of a connection.
    fn hear(&mut self, alloc: A, connection: Connection, line: &[u8]) -> Result<(), ScriptError>
        ensures state { OnOk result (self.new ≡ answered self.old connection (command_of line.now)) }
        ensures cause { IfErr result (λ e. e ≡ ScriptError.NoMemory) }
    {
        match read_line_of(alloc, line) {
            Ok(command) => self.stage(alloc, connection, command),
            Err(LineError::BadLine) => self.refuse(alloc, connection, Outside::BadLine),
            Err(LineError::NoMemory) => Err(ScriptError::NoMemory),
        }
    }

    // One pump.
    fn pump(&mut self) -> Result<(), ScriptError>
        ensures state { OnOk result (self.new ≡ pumped self.old) }
        ensures cause { IfErr result (λ e. e ≡ ScriptError.NoMemory) }
    {
        let Ok(answer) = self.vault.pump() else {
            return Err(ScriptError::NoMemory);
        };
        if let Pumped::Broken = answer {
            return Err(ScriptError::NoMemory);
        }
        Ok(())
    }

    // Pumps until nothing is left to do.
    #[tactic(auto, unfolding(crate::specs::Talk::committed))]
    fn commit(&mut self) -> Result<(), ScriptError>
        ensures state { OnOk result (self.new ≡ committed self.old) }
        ensures cause { IfErr result (λ e. e ≡ ScriptError.NoMemory) }
    {
        while !is_at_rest(&self.vault) {
            self.pump()?;
        }
        Ok(())
    }

    // Begins a snapshot, if one may be begun.
    fn snapshot(&mut self) -> Result<(), ScriptError>
        ensures state { OnOk result (self.new ≡ started self.old) }
        ensures cause { IfErr result (λ e. e ≡ ScriptError.NoMemory) }
    {
        let Ok(_started) = self.vault.start_snapshot() else {
            return Err(ScriptError::NoMemory);
        };
        Ok(())
    }

    // Redeems a connection's ticket, and prints the reply.
    fn tell(
        &mut self,
        alloc: A,
        connection: Connection,
        ticket: Ticket<A>,
        out: &mut Vec<u8, A>,
    ) -> Result<(), ScriptError>
        ensures state { OnOk result (self.new ≡ told self.old connection ticket.position) }
        ensures text { OnOk result (out.new.items ≡ out.old.items ++ told_text connection (reply_at self.old.view ticket.position)) }
        ensures cause { IfErr result (λ e. e ≡ ScriptError.NoMemory) }
    {
        match self.vault.redeem(ticket) {
            Redeemed::Told(receipt) => {
                speak_for(&mut self.sessions, connection, receipt.reply());
                let put = put_reply(alloc, connection, receipt.reply(), out);
                drop(receipt);
                Ok(put?)
            }
            Redeemed::NotYet(ticket)
            | Redeemed::Stranger(ticket)
            | Redeemed::Unknown(ticket)
            | Redeemed::NoMemory(ticket) => {
                let _ = self.vault.forget(ticket);
                Err(ScriptError::NoMemory)
            }
        }
    }

    // Whether the first line may be printed.
    fn first_is_sayable(&self) -> bool
        ensures { result ≡ is_sayable self.now }
    {
        match self.lines.front() {
            None => false,
            Some(Waiting::Known(_)) => true,
            Some(Waiting::Awaited(_, ticket)) => ticket.position() < self.vault.durable(),
        }
    }

    // Prints the first line.
    fn say_first(&mut self, alloc: A, out: &mut Vec<u8, A>) -> Result<(), ScriptError>
        ensures state { OnOk result (self.new ≡ (said_first self.old).talk) }
        ensures text { OnOk result (out.new.items ≡ out.old.items ++ (said_first self.old).text) }
        ensures cause { IfErr result (λ e. e ≡ ScriptError.NoMemory) }
    {
        let Some(line) = self.lines.pop_front() else {
            return Ok(());
        };
        match line {
            Waiting::Known(text) => Ok(out.extend_from_slice(text.as_slice())?),
            Waiting::Awaited(connection, ticket) => self.tell(alloc, connection, ticket, out),
        }
    }

    // Prints waiting lines in order, as long as the first one's text is known or its entry durable.
    fn say_now(&mut self, alloc: A, out: &mut Vec<u8, A>) -> Result<(), ScriptError>
        ensures state { OnOk result (self.new ≡ (said_now self.old).talk) }
        ensures text { OnOk result (out.new.items ≡ out.old.items ++ (said_now self.old).text) }
        ensures cause { IfErr result (λ e. e ≡ ScriptError.NoMemory) }
    {
        while self.first_is_sayable() {
            self.say_first(alloc, out)?;
        }
        Ok(())
    }

    // The same, and drops the acknowledged entries.
    fn say(&mut self, alloc: A, out: &mut Vec<u8, A>) -> Result<(), ScriptError>
        ensures state { OnOk result (self.new ≡ (said self.old).talk) }
        ensures text { OnOk result (out.new.items ≡ out.old.items ++ (said self.old).text) }
        ensures cause { IfErr result (λ e. e ≡ ScriptError.NoMemory) }
    {
        self.say_now(alloc, out)?;
        let_go(&mut self.vault);
        Ok(())
    }

    // Commits all, if the connection's earlier command isn't durable yet.
    fn prepare(
        &mut self,
        alloc: A,
        connection: Connection,
        out: &mut Vec<u8, A>,
    ) -> Result<(), ScriptError>
        ensures state { OnOk result (self.new ≡ (ready self.old connection).talk) }
        ensures text { OnOk result (out.new.items ≡ out.old.items ++ (ready self.old connection).text) }
        ensures cause { IfErr result (λ e. e ≡ ScriptError.NoMemory) }
    {
        if self.vault.durable() < self.asked[connection.place()] {
            return self.commit_and_say(alloc, out);
        }
        Ok(())
    }

    // Answers a line of a connection, and prints what may be printed.
    fn answer_connection(
        &mut self,
        alloc: A,
        connection: Connection,
        line: &[u8],
        out: &mut Vec<u8, A>,
    ) -> Result<(), ScriptError>
        ensures state { OnOk result (self.new ≡ (heard self.old connection line.now).talk) }
        ensures text { OnOk result (out.new.items ≡ out.old.items ++ (heard self.old connection line.now).text) }
        ensures cause { IfErr result (λ e. e ≡ ScriptError.NoMemory) }
    {
        self.prepare(alloc, connection, out)?;
        self.hear(alloc, connection, line)?;
        self.say(alloc, out)
    }

    // Answers a line of a connection, or one that isn't valid in a script.
    fn answer_line(
        &mut self,
        alloc: A,
        line: &[u8],
        out: &mut Vec<u8, A>,
    ) -> Result<(), ScriptError>
        ensures state { OnOk result (self.new ≡ (heard_of self.old (connection_line line.now)).talk) }
        ensures text { OnOk result (out.new.items ≡ out.old.items ++ (heard_of self.old (connection_line line.now)).text) }
        ensures cause { IfErr result (λ e. e ≡ ScriptError.NoMemory) }
    {
        match connection_of(line) {
            Some((connection, rest)) => self.answer_connection(alloc, connection, rest, out),
            None => {
                self.push_text(Vec::from_slice(alloc, b"! ERR 10\n")?)?;
                self.say(alloc, out)
            }
        }
    }

    // Commits, and prints what may be printed.
    fn commit_and_say(&mut self, alloc: A, out: &mut Vec<u8, A>) -> Result<(), ScriptError>
        ensures state { OnOk result (self.new ≡ (said (committed self.old)).talk) }
        ensures text { OnOk result (out.new.items ≡ out.old.items ++ (said (committed self.old)).text) }
        ensures cause { IfErr result (λ e. e ≡ ScriptError.NoMemory) }
    {
        self.commit()?;
        self.say(alloc, out)
    }

    // Answers a line other than `!crash`.
    fn answer(&mut self, alloc: A, line: &[u8], out: &mut Vec<u8, A>) -> Result<(), ScriptError>
        ensures state { OnOk result (self.new ≡ (said_by self.old line.now).talk) }
        ensures text { OnOk result (out.new.items ≡ out.old.items ++ (said_by self.old line.now).text) }
        ensures cause { IfErr result (λ e. e ≡ ScriptError.NoMemory) }
    {
        if line.is_empty() || line[0] == b'#' {
            return Ok(());
        }
        if line == b"!commit".as_slice() {
            return self.commit_and_say(alloc, out);
        }
        if line == b"!pump".as_slice() {
            self.pump()?;
            return self.say(alloc, out);
        }
        if line == b"!snapshot".as_slice() {
            self.snapshot()?;
            return self.say(alloc, out);
        }
        self.answer_line(alloc, line, out)
    }

    // Both devices crash, and the vault is opened again.
    fn crash(self, alloc: A, pick: Pick, out: &mut Vec<u8, A>) -> Result<Runner<A>, ScriptError>
        ensures state { IfOk result (λ next. next ≡ (said (crashed pick self)).talk) }
        ensures text { OnOk result (out.new.items ≡ out.old.items ++ (said (crashed pick self)).text) }
        ensures cause { IfErr result (λ e. e ≡ ScriptError.NoMemory) }
    {
        let Runner {
            mut vault,
            sessions: _,
            asked: _,
            lines,
        } = self;
        let Ok(()) = lose(&mut vault, lines, out) else {
            drop(vault);
            return Err(ScriptError::NoMemory);
        };
        let vault = reopened(alloc, vault, pick)?;
        Ok(Runner {
            vault,
            sessions: [0; LAST_CONNECTION as usize],
            asked: [0; LAST_CONNECTION as usize],
            lines: VecDeque::new(alloc),
        })
    }

    /// Runs one line of the script.
    pub(crate) fn run_line(
        self,
        alloc: A,
        line: &[u8],
        out: &mut Vec<u8, A>,
    ) -> Result<Runner<A>, ScriptError>
        ensures state { IfOk result (λ next. next ≡ (said_for self line.now).talk) }
        ensures text { OnOk result (out.new.items ≡ out.old.items ++ (said_for self line.now).text) }
        ensures cause { IfErr result (λ e. e ≡ ScriptError.NoMemory) }
    {
        if let Some(pick) = crash_of(line) {
            return self.crash(alloc, pick, out);
        }
        let mut runner = self;
        match runner.answer(alloc, line, out) {
            Ok(()) => Ok(runner),
            Err(error) => {
                runner.close();
                Err(error)
            }
        }
    }

    /// Commits and prints what is left.
    pub(crate) fn finish(self, alloc: A, out: &mut Vec<u8, A>) -> Result<(), ScriptError>
        ensures text { OnOk result (out.new.items ≡ out.old.items ++ (said (committed self)).text) }
        ensures cause { IfErr result (λ e. e ≡ ScriptError.NoMemory) }
    {
        let mut runner = self;
        let result = runner.commit_and_say(alloc, out);
        runner.close();
        result
    }
}
