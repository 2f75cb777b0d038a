//! The kept entries.
ghost use Rattle.std.specs.Prelude.{◌≡◌, ◌↔◌, ◌<◌, ◌≤◌, ◌++◌, [], ◌∷◌, length, slice_get, IfOk, IsTrue, Some};
ghost use Rattle.group_commit.specs.declared.mark.Mark.TheVariants.{Open};
ghost use Rattle.group_commit.specs.Entries.{Kept, mark_at, with_mark};
ghost use Rattle.group_commit.specs.Seen.{most_kept};

use crate::Mark;
use crate::entry::Entry;
use std::alloc::Allocator;
use std::collections::VecDeque;
use std::marker::Model;
use vault_model::{NoMemory, ReplyIn};

// The greatest number of kept entries.
pub(crate) const MAX_KEPT: usize = 4096;

/// The kept entries, in order. The memory for all of them is taken when it is made.
#[derive(Drop)]
pub(crate) struct Window<A: Allocator> {
    entries: VecDeque<Entry<A>, A>,
}

impl<A: Allocator> Model for Window<A> {
    ghost use Rattle.std.specs.Prelude.{◌≤◌, List, length};
    ghost use Rattle.std.specs.VecDeque.{deque_capacity};
    ghost use Rattle.group_commit.specs.Entries.{Kept};
    ghost use Rattle.group_commit.specs.Seen.{most_kept};

    ghost Value = { List Kept };

    ghost view = { λ w. w.entries.items };

    ghost invariant = { λ w. (length w.entries.items ≤ most_kept) × (most_kept ≤ deque_capacity w.entries) };
}

impl<A: Allocator + Copy> Window<A> {
    /// No entries, and room for the greatest number.
    pub fn new(alloc: A) -> Result<Window<A>, NoMemory>
        ensures { IfOk result (λ window. window ≡ []) }
    {
        Ok(Window {
            entries: VecDeque::with_capacity(alloc, MAX_KEPT)?,
        })
    }

    /// The allocator of their memory.
    pub fn allocator(&self) -> A {
        *self.entries.allocator()
    }

    /// How many there are.
    pub fn len(&self) -> usize
        ensures len { result ≡ length self.now }
        ensures few { result ≤ most_kept }
    {
        self.entries.len()
    }

    /// Puts one more at the end. Takes no memory.
    pub fn push(&mut self, entry: Entry<A>)
        requires { length self.old < most_kept }
        ensures { self.new ≡ self.old ++ entry ∷ [] }
    {
        self.entries.push_back_reserved(entry);
    }

    /// Takes the first one out.
    pub fn pop(&mut self) -> Entry<A>
        requires { 0 < length self.old }
        ensures { self.old ≡ result ∷ self.new }
    {
        self.entries.pop_front().unwrap()
    }

    /// Whether the ticket of the first one is outstanding.
    pub fn first_is_open(&self) -> bool
        ensures { IsTrue result ↔ (mark_at self.now 0 ≡ Some Open) }
    {
        matches!(self.mark_at(0), Some(Mark::Open))
    }

    /// What became of the ticket of the entry at a position.
    pub fn mark_at(&self, position: usize) -> Option<Mark>
        ensures { result ≡ mark_at self.now position }
    {
        match self.entries.get(position) {
            Some(entry) => Some(entry.mark()),
            None => None,
        }
    }

    /// Closes the entry at a position.
    pub fn close(&mut self, position: usize, mark: Mark)
        requires { position < length self.old }
        ensures { self.new ≡ with_mark mark self.old position }
    {
        self.entries[position].close(mark);
    }

    /// A copy of the reply at a position.
    pub fn reply_at(&self, position: usize) -> Result<ReplyIn<A>, NoMemory>
        requires { position < length self.now }
        ensures { IfOk result (λ reply. (kept : Kept) → slice_get self.now position ≡ Some kept → reply ≡ kept.entry.reply) }
    {
        let alloc = self.allocator();
        self.entries[position].reply(alloc)
    }
}
