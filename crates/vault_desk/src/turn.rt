//! What a conversation does next, and how an answer is written.
ghost use Rattle.std.specs.Prelude.{◌≡◌, IfOk, MatchBool};
ghost use Rattle.vault_desk.specs.Serving.{session_after as session_after_out, text_of as text_of_answer, IsLeft};
ghost use Rattle.vault_desk.specs.Talking.{TellsOn, StoppedBy};

use crate::report::{Ended, Out};
use crate::waits::PendingWait;
use group_commit::Ticket;
use line_inlet::Connection;
use std::alloc::Allocator;
use std::io::{self, ErrorKind};
use vault_lines::{outside_text, text_of};
use vault_model::{NoMemory, Reply};

/// The line that an answer is written as.
#[derive(Drop)]
pub struct Telling<A: Allocator> {
    /// All bytes of the line.
    pub text: Vec<u8, A>,
    /// How many of them are written.
    pub written: usize,
    /// Whether it says that the session has left.
    pub is_left: bool,
}

/// What a conversation does next.
pub enum Turn<A: Allocator> {
    /// It hears a line.
    Hear,
    /// It keeps a `wait`, and stages it later.
    Keep(PendingWait),
    /// It waits for the reply to its command.
    Wait(Ticket<A>),
    /// It writes an answer.
    Tell(Telling<A>),
    /// It ended, and reads and writes nothing more.
    Over(Ended),
}

/// Writes more of an answer. If the connection takes no more for now, the rest is still to be written. Gives the error that stopped it,
/// if there was one.
pub fn tell<A: Allocator, C: Connection>(
    connection: &mut C,
    telling: Telling<A>,
) -> (Turn<A>, Option<io::Error>)
    ensures told { TellsOn telling result.0 (C.contents connection.old) (C.contents connection.new) }
    ensures stopped { StoppedBy result.0 result.1 }
    ensures same { (C.reading connection.new ≡ C.reading connection.old) × (C.names connection.new ≡ C.names connection.old) }
{
    let mut telling = telling;
    while telling.written < telling.text.len() {
        match connection.write(&telling.text.as_slice()[telling.written..]) {
            Ok(0) => return (Turn::Over(Ended::Write), None),
            Ok(count) => telling.written += count,
            Err(error) if error.kind() == ErrorKind::WouldBlock => {
                return (Turn::Tell(telling), Some(error));
            }
            Err(error) => return (Turn::Over(Ended::Write), Some(error)),
        }
    }
    if telling.is_left {
        (Turn::Over(Ended::Quit), None)
    } else {
        (Turn::Hear, None)
    }
}

/// The line that an answer is written as.
pub(crate) fn text_of_out<A: Allocator + Copy>(
    alloc: A,
    out: &Out<A>,
) -> Result<Vec<u8, A>, NoMemory>
    ensures { IfOk result (λ text. text.items ≡ text_of_answer out.now) }
{
    match out {
        Out::Told(receipt) => text_of(alloc, receipt.reply()),
        Out::Refused(cause) => outside_text(alloc, cause.outside()),
    }
}

/// Whether an answer is a receipt of a leave.
pub(crate) fn is_left<A: Allocator>(out: &Out<A>) -> bool
    ensures { MatchBool result (IsLeft out.now) (IsLeft out.now → ⊥) }
{
    match out {
        Out::Told(receipt) => matches!(receipt.reply(), Reply::Left),
        Out::Refused(_) => false,
    }
}

/// The session that the connection speaks for after an answer.
pub(crate) fn session_after<A: Allocator>(session: u32, out: &Out<A>) -> u32
    ensures { result ≡ session_after_out session out.now }
{
    match out {
        Out::Told(receipt) => match receipt.reply() {
            Reply::Session(number) => *number,
            Reply::Left => 0,
            _ => session,
        },
        Out::Refused(_) => session,
    }
}
