//! The versions of one part.
ghost use Rattle.std.specs.Prelude.{◌≡◌, ℕ, ◌+◌, ◌-◌, ◌/◌, ◌≤◌, max, List, [], ◌∷◌, ◌++◌, length, take, slice_get, vec_len, vec_capacity, OnOk, OnErr};
ghost use Rattle.std.specs.Option.{option_copied};
ghost use Rattle.vault_state.specs.Shelf.{content_weight, versions_weight};
ghost use Rattle.std.specs.List.{flat_map};
ghost use Rattle.vault_state.specs.Limits.{longest_content, most_weight};
ghost use Rattle.part_versions.specs.Cuts.{end_of, spelled};

use std::alloc::{AllocError, Allocator, Global};
use std::marker::Model;

// How many bytes a content's length has.
const LENGTH_BYTES: usize = 2;

/// A part's versions as a file spells them, one after another, and where each of them ends.
#[derive(Drop)]
pub(crate) struct Part<A: Allocator = Global> {
    bytes: Vec<u8, A>,
    ends: Vec<u32, A>,
}

impl<A: Allocator> Model for Part<A> {
    ghost use Rattle.std.specs.Prelude.{ℕ, List};
    ghost use Rattle.part_versions.specs.Cuts.{contents_of, IsCut};

    ghost Value = { List (List ℕ) };

    ghost view = { λ p. contents_of p.ends.items p.bytes.items };

    // Invariant 3 of lib.rt.
    ghost invariant = { λ p. IsCut p.ends.items p.bytes.items };
}

// Where the first `count` contents end.
fn end_of(ends: &[u32], count: usize) -> usize
    requires { count ≤ length ends.now }
    ensures { result ≡ end_of ends.now count }
{
    if count == 0 {
        return 0;
    }
    ends[count - 1] as usize
}

// Makes room for more bytes. If they don't fit, it adds room for an eighth of the bytes there, or for
// `more` if that is greater. So the work of many appends grows with their bytes, and at most a ninth is
// spare.
fn make_room<A: Allocator>(bytes: &mut Vec<u8, A>, more: usize) -> Result<(), AllocError>
    ensures items { bytes.new.items ≡ bytes.old.items }
    ensures room { OnOk result (vec_len bytes.new + more ≤ vec_capacity bytes.new) }
    ensures spare { vec_capacity bytes.new ≤ max (vec_capacity bytes.old) (vec_len bytes.old + max more (vec_len bytes.old / 8)) }
{
    if more <= bytes.capacity() - bytes.len() {
        return Ok(());
    }
    bytes.reserve_exact(more.max(bytes.len() / 8))
}

impl<A: Allocator + Copy> Part<A> {
    /// A part without versions.
    pub(crate) fn new(alloc: A) -> Part<A>
        ensures { result ≡ [] }
    {
        Part {
            bytes: Vec::new(alloc),
            ends: Vec::new(alloc),
        }
    }
}

impl<A: Allocator + Copy> Clone for Part<A> {
    ghost is_clone = { λ part copy. copy ≡ part };

    fn clone(&self) -> Result<Part<A>, AllocError> {
        let alloc = *self.bytes.allocator();
        Ok(Part {
            bytes: Vec::from_slice(alloc, &self.bytes)?,
            ends: Vec::from_slice(alloc, &self.ends)?,
        })
    }
}

impl<A: Allocator> Part<A> {
    /// How many versions there are.
    pub(crate) fn len(&self) -> usize
        ensures { result ≡ length self.now }
    {
        self.ends.len()
    }

    /// The content at an index.
    pub(crate) fn get(&self, index: usize) -> Option<&[u8]>
        ensures { option_copied result ≡ slice_get self.now index }
    {
        if index >= self.ends.len() {
            return None;
        }
        let start = end_of(&self.ends, index);
        let end = end_of(&self.ends, index + 1);
        Some(&self.bytes[start + LENGTH_BYTES..end])
    }

    /// The versions as a file spells them, one after another.
    pub(crate) fn spelled(&self) -> &[u8]
        ensures { result.now ≡ flat_map spelled self.now }
    {
        &self.bytes
    }

    /// Appends one more version. Memory is allocated before anything changes, for at least `room` bytes: those of this version and of
    /// the versions that follow it.
    pub(crate) fn push(&mut self, content: &[u8], room: usize) -> Result<(), AllocError>
        requires short { length content.now ≤ longest_content }
        requires light { versions_weight self.old + content_weight content.now ≤ most_weight }
        ensures ok { OnOk result (self.new ≡ self.old ++ content.now ∷ []) }
        ensures err { OnErr result (self.new ≡ self.old) }
    {
        let len = content.len() as u16;
        self.ends.reserve(1)?;
        make_room(&mut self.bytes, room.max(LENGTH_BYTES + content.len()))?;
        self.bytes.extend_from_slice(&len.to_be_bytes()).unwrap();
        self.bytes.extend_from_slice(content).unwrap();
        self.ends.push(self.bytes.len() as u32).unwrap();
        Ok(())
    }

    /// Removes the last version.
    pub(crate) fn pop(&mut self)
        ensures { self.new ≡ take (length self.old - 1) self.old }
    {
        let _ = self.ends.pop();
        let end = end_of(&self.ends, self.ends.len());
        self.bytes.truncate(end);
    }
}
