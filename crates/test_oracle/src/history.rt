//! The history: a list of commands for each life. A new book can be given them all again.

use crate::plain::{keeps_long_claims, stand};
use crate::talk::Talk;
use group_commit::Mark;
use std::alloc::Global;
use std::mem;
use vault_checkout::Book;
use vault_model::{Command, Effect, Reply};

/// A command with its reply, and what became of its ticket.
#[derive(Drop)]
struct Entry {
    session: u32,
    command: Command,
    reply: Reply,
    mark: Mark,
}

/// The commands of all lives, and the book after them.
#[derive(Drop)]
pub struct History {
    alloc: Global,
    past: Vec<Vec<Entry>>,
    present: Vec<Entry>,
    talk: Talk,
}

/// The parts of a record: how many bytes it has beside its text and its items, how many bytes its text has, and how many items it has.
fn parts_of(effect: &Effect) -> (u64, usize, usize) {
    match effect {
        Effect::Made(_, name) | Effect::Nested(_, name) => (6, name.as_bytes().len(), 0),
        Effect::Asked(_, name, items) => (7, name.as_bytes().len(), items.len()),
        Effect::Extended(_, items) => (6, 0, items.len()),
        Effect::Saved(_, _, content) => (11, content.as_slice().len(), 0),
        Effect::CheckedIn(_) | Effect::Abandoned(_) => (5, 0, 0),
        Effect::Given(_, name) => (6, name.as_bytes().len(), 0),
        Effect::Noted(_, note) => (6, note.as_bytes().len(), 0),
    }
}

/// How many bytes the record of an effect has, by the format of the files. 0 for no effect.
fn record_bytes(effect: &Option<Effect>) -> u64 {
    match effect {
        Some(effect) => {
            let (front, text, items) = parts_of(effect);
            let items = 5u64.saturating_mul(items as u64);
            front.saturating_add(text as u64).saturating_add(items)
        }
        None => 0,
    }
}

/// Gives a command again. Whether the reply is the same.
fn has_reply_again(talk: &mut Talk, entry: &Entry) -> bool {
    match talk.tell(entry.session, &entry.command) {
        Some((reply, effect)) => {
            let same = reply == entry.reply;
            drop(reply);
            drop(effect);
            same
        }
        None => false,
    }
}

/// Gives the first `count` of these commands again. Whether their replies are the same.
fn have_replies_again(talk: &mut Talk, entries: &[Entry], count: usize) -> bool {
    for entry in entries.iter().take(count) {
        if !has_reply_again(talk, entry) {
            return false;
        }
    }
    true
}

/// Gives the commands of all these lives again, with a restart after each life. Whether their replies are the same.
fn have_lives_again(talk: &mut Talk, lives: &[Vec<Entry>]) -> bool {
    for entries in lives {
        if !have_replies_again(talk, entries.as_slice(), entries.len()) {
            return false;
        }
        talk.restart();
    }
    true
}

/// Whether one of the entries after the first `count` was acknowledged.
fn is_told_behind(entries: &[Entry], count: usize) -> bool {
    for entry in entries.iter().skip(count) {
        if matches!(entry.mark, Mark::Told) {
            return true;
        }
    }
    false
}

/// Restarts the book. Whether this keeps the long claims in their order and no other claims, and whether each claim stood before it, and
/// stands after it, by the rules of the queue.
fn restarts_well(talk: &mut Talk) -> bool {
    let Ok(before) = talk.book().copy() else {
        return false;
    };
    talk.restart();
    let after = talk.book();
    let well = stand(&before) && stand(after) && keeps_long_claims(before.line(), after.line());
    drop(before);
    well
}

impl History {
    /// No commands, and a new vault.
    pub fn new(alloc: Global) -> Option<History> {
        match Talk::new(alloc) {
            Some(talk) => Some(History {
                alloc,
                past: Vec::new(alloc),
                present: Vec::new(alloc),
                talk,
            }),
            None => None,
        }
    }

    /// The book after the whole history.
    pub fn book(&self) -> &Book {
        self.talk.book()
    }

    /// A session says a command. Gives the number of bytes of its effect's record, or 0 if it has no effect. None if out of memory.
    pub(crate) fn say(&mut self, session: u32, command: Command) -> Option<u64> {
        let Some((reply, effect)) = self.talk.tell(session, &command) else {
            drop(command);
            return None;
        };
        let bytes = record_bytes(&effect);
        drop(effect);
        let entry = Entry {
            session,
            command,
            reply,
            mark: Mark::Open,
        };
        match self.present.push(entry) {
            Ok(()) => Some(bytes),
            Err(_) => None,
        }
    }

    /// The reply to the last command.
    pub fn last_reply(&self) -> Option<&Reply> {
        match self.present.last() {
            Some(entry) => Some(&entry.reply),
            None => None,
        }
    }

    /// Whether this is the reply at a position of the present life.
    pub(crate) fn is_reply(&self, position: u64, reply: &Reply) -> bool {
        match self.present.get(position as usize) {
            Some(entry) => entry.reply == *reply,
            None => false,
        }
    }

    /// Whether the ticket of the entry at a position of the present life is out.
    pub(crate) fn is_open(&self, position: u64) -> bool {
        match self.present.get(position as usize) {
            Some(entry) => matches!(entry.mark, Mark::Open),
            None => false,
        }
    }

    /// Notes what became of the ticket of the entry at a position of the present life.
    pub(crate) fn mark(&mut self, position: u64, mark: Mark) {
        if let Some(entry) = self.present.get_mut(position as usize) {
            entry.mark = mark;
        }
    }

    /// Whether all acknowledged entries of the present life are among its first `kept` entries.
    pub fn has_told(&self, kept: u64) -> bool {
        !is_told_behind(self.present.as_slice(), kept as usize)
    }

    // Gives a new book the commands of all past lives, and then the first `kept` of the present one. Whether it makes the same replies,
    // and a restart then keeps what it must.
    fn goes_through(&self, talk: &mut Talk, kept: usize) -> bool {
        have_lives_again(talk, self.past.as_slice())
            && have_replies_again(talk, self.present.as_slice(), kept)
            && restarts_well(talk)
    }

    /// The durable vault after the first `kept` entries of the present life, computed by a new book. None if a reply differs.
    pub fn prefix(&self, kept: u64) -> Option<Talk> {
        let mut talk = Talk::new(self.alloc)?;
        if self.goes_through(&mut talk, kept as usize) {
            return Some(talk);
        }
        drop(talk);
        None
    }

    /// The end of the present life, which its first `kept` entries outlive. A new book is given what is left. Whether its replies are the
    /// same.
    pub(crate) fn stop(&mut self, kept: u64) -> bool {
        let Some(talk) = self.prefix(kept) else {
            return false;
        };
        self.talk = talk;
        self.present.truncate(kept as usize);
        let ended = mem::replace(&mut self.present, Vec::new(self.alloc));
        self.past.push(ended).is_ok()
    }
}
