//! The bytes of a device in memory, and all that was done to them.
ghost use Rattle.std.specs.Prelude.{◌≡◌, ◌≤◌, ◌<◌, ◌+◌, ◌^◌, ◌∷◌, ◌++◌, [], OnOk, OnErr, IfOk, length, replicate, take, vec_len, vec_capacity};
ghost use Rattle.vault_device.specs.Disk.{overwritten};
ghost use Rattle.vault_device.specs.Memory.{content_of, covered, left, LeadsTo, after_sync, after_crash};

use crate::history::{Event, Pick, Text};
use std::alloc::{AllocError, Allocator};
use std::marker::Model;

// Bytes as a read gives them, the durable (settled) ones, and all that was done to them.
#[derive(Drop)]
pub struct Memory<A: Allocator> {
    alloc: A,
    shown: Vec<u8, A>,
    settled: Vec<u8, A>,
    events: Vec<Event<Text<A>>, A>,
    // The number of events when everything was last durable: at the last sync or crash.
    start: usize,
    // How many bytes at the front no write has touched since then.
    clean: usize,
}

impl<A: Allocator> Model for Memory<A> {
    ghost use Rattle.std.specs.Prelude.{List};
    ghost use Rattle.vault_device.specs.Memory.{Event};

    ghost Value = { List Event };

    ghost use Rattle.vault_device.specs.MemoryView.{history_of, IsMemory};

    ghost view = { history_of };

    ghost invariant = { IsMemory };
}

// Overwrites bytes, also past the end, within the capacity.
fn overwrite<A: Allocator>(all: &mut Vec<u8, A>, at: usize, bytes: &[u8])
    requires begin { at ≤ vec_len all.old }
    requires room { vec_len all.old + length bytes.now ≤ vec_capacity all.old }
    ensures bytes { all.new.items ≡ overwritten all.old.items at bytes.now }
    ensures len { length all.new.items ≤ length all.old.items + length bytes.now }
    ensures capacity { vec_capacity all.old ≤ vec_capacity all.new }
{
    let within = bytes.len().min(all.len() - at);
    all[at..at + within].copy_from_slice(&bytes[..within]);
    let _ = all.extend_from_slice(&bytes[within..]);
}

// Pushes within the capacity.
fn push_within<A: Allocator>(events: &mut Vec<Event<Text<A>>, A>, event: Event<Text<A>>)
    requires { vec_len events.old < vec_capacity events.old }
    ensures items { events.new.items ≡ events.old.items ++ event ∷ [] }
    ensures len { length events.new.items ≡ length events.old.items + 1 }
    ensures capacity { vec_capacity events.old ≤ vec_capacity events.new }
{
    let _ = events.push(event);
}

// Replaces all the bytes by others, within the capacity.
fn refill<A: Allocator>(all: &mut Vec<u8, A>, from: &[u8])
    requires { length from.now ≤ vec_capacity all.old }
    ensures bytes { all.new.items ≡ from.now }
    ensures capacity { vec_capacity all.old ≤ vec_capacity all.new }
{
    all.clear();
    let _ = all.extend_from_slice(from);
}

// Makes `all` equal to `from`, within the capacity. Their first `clean` bytes are equal already.
fn follow<A: Allocator>(all: &mut Vec<u8, A>, from: &[u8], clean: usize)
    requires within { clean ≤ length from.now }
    requires same { take clean all.old.items ≡ take clean from.now }
    requires there { clean ≤ length all.old.items }
    requires room { length from.now ≤ vec_capacity all.old }
    ensures bytes { all.new.items ≡ from.now }
    ensures capacity { vec_capacity all.old ≤ vec_capacity all.new }
{
    all.truncate(clean);
    let (_, rest) = from.split_at(clean);
    let _ = all.extend_from_slice(rest);
}

// Writes one byte n times, within the capacity.
fn cover<A: Allocator>(all: &mut Vec<u8, A>, at: usize, n: usize, b: u8)
    requires begin { at ≤ vec_len all.old }
    requires room { at + n ≤ vec_capacity all.old }
    ensures bytes { all.new.items ≡ overwritten all.old.items at (replicate n b) }
    ensures capacity { vec_capacity all.old ≤ vec_capacity all.new }
{
    if n <= all.len() - at {
        all[at..at + n].fill(b);
    } else {
        all.truncate(at);
        let _ = all.resize(at + n, b);
    }
}

// Writes one byte wherever the events wrote.
fn cover_all<A: Allocator>(all: &mut Vec<u8, A>, events: &[Event<Text<A>>], b: u8, total: usize)
    requires leads { LeadsTo (length all.old.items) total events.now }
    requires room { total ≤ vec_capacity all.old }
    ensures bytes { all.new.items ≡ covered b events.now all.old.items }
    ensures len { length all.new.items ≡ total }
{
    for event in events {
        match event {
            Event::Wrote(at, text) => cover(all, *at, text.len(), b),
            Event::Synced => {}
            Event::Crashed(_) => {}
        }
    }
}

// Makes `all` what a crash with this pick leaves. These events led from `settled` to `all`.
fn leave<A: Allocator>(all: &mut Vec<u8, A>, settled: &[u8], events: &[Event<Text<A>>], pick: Pick)
    requires leads { LeadsTo (length settled.now) (length all.old.items) events.now }
    ensures bytes { all.new.items ≡ left pick all.old.items settled.now events.now }
    ensures len { length all.new.items ≤ length all.old.items }
{
    match pick {
        Pick::New => {}
        Pick::Old => refill(all, settled),
        Pick::Bytes(b) => {
            let total = all.len();
            refill(all, settled);
            cover_all(all, events, b, total);
        }
    }
}

// Makes room for both lengths together.
fn reserve_for<A: Allocator>(
    all: &mut Vec<u8, A>,
    len: usize,
    more: usize,
) -> Result<(), AllocError>
    requires { len + more < 2 ^ 64 }
    ensures items { all.new.items ≡ all.old.items }
    ensures room { OnOk result (len + more ≤ vec_capacity all.new) }
    ensures capacity { vec_capacity all.old ≤ vec_capacity all.new }
{
    all.reserve((len + more).saturating_sub(all.len()))
}

impl<A: Allocator + Copy> Memory<A> {
    /// No bytes, and nothing done to them.
    pub fn new(alloc: A) -> Result<Memory<A>, AllocError>
        ensures { IfOk result (λ memory. memory ≡ []) }
    {
        Ok(Memory {
            alloc,
            shown: Vec::new(alloc),
            settled: Vec::new(alloc),
            events: Vec::with_capacity(alloc, 8)?,
            start: 0,
            clean: 0,
        })
    }

    /// What a read gives.
    pub fn shown(&self) -> &[u8]
        ensures { result.now ≡ (content_of self.now).shown }
    {
        &self.shown
    }

    /// Writes the bytes, which aren't durable yet. Takes all room first, so that a later sync or crash takes none.
    pub fn put(&mut self, at: usize, bytes: &[u8]) -> Result<(), AllocError>
        requires begin { at ≤ length (content_of self.old).shown }
        ensures ok { OnOk result (self.new ≡ Event.Wrote at bytes.now ∷ self.old) }
        ensures err { OnErr result (self.new ≡ self.old) }
    {
        let text = Text::copy_of(self.alloc, bytes)?;
        self.shown.reserve(bytes.len())?;
        reserve_for(&mut self.settled, self.shown.len(), bytes.len())?;
        self.events.reserve(2)?;
        overwrite(&mut self.shown, at, bytes);
        self.clean = self.clean.min(at);
        push_within(&mut self.events, Event::Wrote(at, text));
        Ok(())
    }

    /// Crashes with this pick.
    pub fn crash(&mut self, pick: Pick)
        ensures { self.new ≡ after_crash pick self.old }
    {
        if self.start == self.events.len() {
            return;
        }
        leave(
            &mut self.shown,
            &self.settled,
            &self.events[self.start..],
            pick,
        );
        refill(&mut self.settled, &self.shown);
        push_within(&mut self.events, Event::Crashed(pick));
        self.start = self.events.len();
        self.clean = self.shown.len();
    }

    /// Makes what is shown durable, in time proportional to the bytes from the first one written since the last sync or crash.
    pub fn settle(&mut self)
        ensures { self.new ≡ after_sync self.old }
    {
        if self.start == self.events.len() {
            return;
        }
        follow(&mut self.settled, &self.shown, self.clean);
        push_within(&mut self.events, Event::Synced);
        self.start = self.events.len();
        self.clean = self.shown.len();
    }
}
