//! The records of one commit, as they go onto the device.
ghost use Rattle.std.specs.Prelude.{◌≡◌, ◌≤◌, ◌+◌, ◌++◌, ◌↔◌, [], IfOk, IsTrue, length, take, drop};
ghost use Rattle.vault_journal.specs.Gate.{body_of, frame_room};
ghost use Rattle.vault_journal.specs.Spelling.{record_of, HasRecord};

use crate::records::{put_effect, record_len};
use crate::writing::{put_u8, put_u32};
use std::alloc::{Allocator, Global};
use std::marker::Model;
use vault_model::{EffectIn, NoMemory};

/// The most bytes of a frame behind its commit mark: its records, their length in 4 bytes and the next mark, which is closed.
pub const FRAME_ROOM: usize = 262_144;

/// The records of one commit. Contracts see it as the records' bytes. It is always sealed: the records' length stands
/// before them and a closed commit mark behind them.
#[derive(Drop)]
pub struct Frame<A: Allocator = Global> {
    /// The records' length in 4 bytes, the records, a closed commit mark, and spare room.
    buffer: Vec<u8, A>,
    /// How many bytes the records have.
    used: usize,
}

impl<A: Allocator> Model for Frame<A> {
    ghost use Rattle.std.specs.Prelude.{List, ℕ};

    ghost Value = { List ℕ };

    ghost use Rattle.vault_journal.specs.FrameView.{records_in, IsFrame};

    ghost view = { records_in };

    ghost invariant = { IsFrame };
}

// Zeros. The first five are the body of a frame without records.
fn zeros<A: Allocator>(alloc: A, size: usize) -> Result<Vec<u8, A>, NoMemory>
    requires { 5 ≤ size }
    ensures size { IfOk result (λ v. length v.items ≡ size) }
    ensures empty { IfOk result (λ v. take 5 v.items ≡ body_of []) }
{
    vec![in alloc; 0; size].map_err(|_| NoMemory)
}

// The buffer begins with what a commit writes behind the commit mark: m in 4 bytes, the records in m bytes, a closed mark in 1.
// The next record, of n bytes, goes to offset 4 + m, and the closed mark then to 4 + m + n.

// Writes a record behind the others, the length of all before them and a closed commit mark behind them. Returns that length.
fn append<A: Allocator>(buffer: &mut [u8], used: usize, effect: &EffectIn<A>) -> usize
    requires has { HasRecord effect.now }
    requires room { used + length (record_of effect.now) + 5 ≤ length buffer.old }
    requires limit { length buffer.old ≤ frame_room }
    ensures end { result ≡ used + length (record_of effect.now) }
    ensures whole { length buffer.new ≡ length buffer.old }
    ensures records { take result (drop 4 buffer.new) ≡ take used (drop 4 buffer.old) ++ record_of effect.now }
    ensures sealed { take (result + 5) buffer.new ≡ body_of (take result (drop 4 buffer.new)) }
{
    let end = put_effect(buffer, 4 + used, effect);
    put_u8(buffer, end, 0);
    let all = end - 4;
    put_u32(buffer, 0, all as u32);
    all
}

impl<A: Allocator> Frame<A> {
    /// A frame without records. It has room for the largest, so no later call takes memory.
    pub fn new(alloc: A) -> Result<Frame<A>, NoMemory>
        ensures { IfOk result (λ frame. frame ≡ []) }
    {
        let buffer = zeros(alloc, FRAME_ROOM)?;
        Ok(Frame { buffer, used: 0 })
    }

    /// How many bytes the records have.
    pub fn len(&self) -> usize
        ensures len { result ≡ length self.now }
        ensures room { result + 5 ≤ frame_room }
    {
        self.used
    }

    /// Whether there is room for the record of an effect.
    pub fn fits<B: Allocator>(&self, effect: &EffectIn<B>) -> bool
        requires { HasRecord effect.now }
        ensures { IsTrue result ↔ (length self.now + length (record_of effect.now) + 5 ≤ frame_room) }
    {
        record_len(effect) <= FRAME_ROOM - 5 - self.used
    }

    /// Appends the record of an effect. Takes no memory.
    pub fn push_effect<B: Allocator>(&mut self, effect: &EffectIn<B>)
        requires has { HasRecord effect.now }
        requires room { length self.old + length (record_of effect.now) + 5 ≤ frame_room }
        ensures { self.new ≡ self.old ++ record_of effect.now }
    {
        self.used = append(&mut self.buffer, self.used, effect);
    }

    /// Removes all records. Takes no memory, and keeps the room.
    pub fn clear(&mut self)
        ensures { self.new ≡ [] }
    {
        self.used = 0;
        put_u32(&mut self.buffer, 0, 0);
        put_u8(&mut self.buffer, 4, 0);
    }

    /// What a commit writes behind the commit mark: the records' length in 4 bytes, the records and a closed mark.
    pub fn body(&self) -> &[u8]
        ensures body { result.now ≡ body_of self.now }
        ensures size { length result.now ≤ frame_room }
    {
        &self.buffer[..self.used + 5]
    }
}
