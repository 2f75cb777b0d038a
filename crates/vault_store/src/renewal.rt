//! The steps of a snapshot, one function for each row of the phase table.
ghost use Rattle.std.specs.Prelude.{◌≡◌, ◌<◌, ◌≤◌, ◌+◌, ◌-◌, ◌^◌, [], ◌∷◌, IsTrue, true, false, length, take, drop};
ghost use Rattle.std.specs.Option.{option_map_or};
ghost use Rattle.vault_device.specs.Disk.{IsOneCall, IsWrite};
ghost use Rattle.vault_store.specs.declared.phase.Phase.TheVariants as phases;
ghost use Rattle.vault_store.specs.Phases.{piece_size, behind_piece};
ghost use Rattle.vault_store.specs.Seen.{other};
ghost use Rattle.vault_store.specs.Step.{IsAdvance};

use crate::commit::broken_by;
use crate::{Advanced, File, FileVersion, Phase, Store};
use std::alloc::Allocator;
use std::mem;
use vault_device::{Device, Fault};
use vault_journal::{open_gate, settle_body, settle_gate};

// How many bytes of a snapshot one step writes at most.
const MAX_PIECE: u64 = 65_536;

// The bytes of a buffer; none if there is no buffer.
fn bytes_of<A: Allocator>(buffer: &Option<Vec<u8, A>>) -> &[u8]
    ensures { result.now ≡ option_map_or (λ v. v.items) buffer.now [] }
{
    match buffer {
        Some(bytes) => bytes.as_slice(),
        None => &[],
    }
}

// Keeps the memory of a buffer for the next snapshot.
fn set_aside<A: Allocator>(buffer: &mut Option<Vec<u8, A>>, room: &mut Option<Vec<u8, A>>)
    ensures { option_map_or (λ v. v.items) buffer.new [] ≡ [] }
{
    *room = buffer.take();
}

// The other file.
fn other(which: File) -> File
    ensures { result ≡ other which }
{
    match which {
        File::First => File::Second,
        File::Second => File::First,
    }
}

// How many bytes the next piece has, where `left` bytes are still to write.
fn piece_size(left: u64) -> u64
    ensures { result ≡ piece_size left }
{
    if left <= MAX_PIECE { left } else { MAX_PIECE }
}

// The phase after that piece.
fn behind_piece(left: u64) -> Phase
    ensures { result ≡ behind_piece left }
{
    if left <= MAX_PIECE {
        Phase::Filled
    } else {
        Phase::Writing(left - MAX_PIECE)
    }
}

// Writes 0 into the head gate. One device call.
fn write_shut<D: Device>(device: &mut D) -> Result<(), Fault>
    ensures one_call { IsOneCall (D.disk device.old) (D.disk device.new) result }
    ensures write { IsTrue (D.disk device.old).honest → IsWrite 0 (0 ∷ []) result (D.disk device.old) (D.disk device.new) }
{
    device.write_at(0, &[0])
}

// Writes the next piece of these bytes behind the head gate; `left` of them are still to write. One device call.
fn write_next<D: Device>(device: &mut D, bytes: &[u8], left: u64) -> Result<(), Fault>
    requires within { left ≤ length bytes.now }
    requires short { length bytes.now < 2 ^ 33 }
    requires stands { IsTrue (D.disk device.old).honest → length bytes.now - left < length (D.disk device.old).shown }
    ensures one_call { IsOneCall (D.disk device.old) (D.disk device.new) result }
    ensures write { IsTrue (D.disk device.old).honest
        → IsWrite (length bytes.now - left + 1) (take (piece_size left) (drop (length bytes.now - left) bytes.now)) result
        (D.disk device.old) (D.disk device.new) }
{
    let begin = bytes.len() - left as usize;
    let end = begin + piece_size(left) as usize;
    device.write_at(begin as u64 + 1, &bytes[begin..end])
}

impl<D: Device, A: Allocator> Store<D, A> {
    // Writes the spare's head gate closed, unless it is closed already.
    pub(crate) fn close_head(&mut self) -> Result<Advanced, Fault>
        requires phase { self.old.phase ≡ phases.Start }
        requires whole { self.old.broken ≡ false }
        ensures advance { IsAdvance D.disk self.old self.new result }
        ensures shut { self.old.shut ≡ true → self.new ≡ record self.old { phase = phases.Closing } }
    {
        if self.spare_shut {
            self.phase = Phase::Closing;
            return Ok(Advanced::Moved);
        }
        let closed = write_shut(&mut self.spare);
        self.phase = Phase::Closing;
        match closed {
            Ok(()) => Ok(Advanced::Moved),
            Err(fault) => broken_by(&mut self.broken, fault),
        }
    }

    // Syncs the closed head gate.
    pub(crate) fn settle_closed(&mut self) -> Result<Advanced, Fault>
        requires phase { self.old.phase ≡ phases.Closing }
        requires whole { self.old.broken ≡ false }
        ensures { IsAdvance D.disk self.old self.new result }
    {
        match settle_gate(&mut self.spare) {
            Ok(()) => {
                self.phase = Phase::Writing(bytes_of(&self.rest).len() as u64);
                Ok(Advanced::Moved)
            }
            Err(fault) => broken_by(&mut self.broken, fault),
        }
    }

    // Writes the next piece behind the head gate; `left` bytes are still to write.
    pub(crate) fn write_piece(&mut self, left: u64) -> Result<Advanced, Fault>
        requires phase { self.old.phase ≡ phases.Writing left }
        requires whole { self.old.broken ≡ false }
        ensures { IsAdvance D.disk self.old self.new result }
    {
        let written = write_next(&mut self.spare, bytes_of(&self.rest), left);
        self.phase = behind_piece(left);
        match written {
            Ok(()) => Ok(Advanced::Moved),
            Err(fault) => broken_by(&mut self.broken, fault),
        }
    }

    // Syncs all that was written.
    pub(crate) fn settle_written(&mut self) -> Result<Advanced, Fault>
        requires phase { self.old.phase ≡ phases.Filled }
        requires whole { self.old.broken ≡ false }
        ensures { IsAdvance D.disk self.old self.new result }
    {
        match settle_body(&mut self.spare) {
            Ok(()) => {
                self.phase = Phase::Ready;
                Ok(Advanced::Moved)
            }
            Err(fault) => broken_by(&mut self.broken, fault),
        }
    }

    // Writes the spare's head gate open.
    pub(crate) fn open_head(&mut self) -> Result<Advanced, Fault>
        requires phase { self.old.phase ≡ phases.Ready }
        requires whole { self.old.broken ≡ false }
        ensures { IsAdvance D.disk self.old self.new result }
    {
        let opened = open_gate(&mut self.spare, 0);
        self.phase = Phase::SnapOpening;
        match opened {
            Ok(()) => Ok(Advanced::Moved),
            Err(fault) => broken_by(&mut self.broken, fault),
        }
    }

    // Syncs the open head gate: the spare becomes the active file, and what was sealed is durable.
    pub(crate) fn settle_head(&mut self) -> Result<Advanced, Fault>
        requires phase { self.old.phase ≡ phases.SnapOpening }
        requires whole { self.old.broken ≡ false }
        ensures { IsAdvance D.disk self.old self.new result }
    {
        match settle_gate(&mut self.spare) {
            Ok(()) => {
                mem::swap(&mut self.active, &mut self.spare);
                self.which = other(self.which);
                self.sealed = 0;
                self.version = FileVersion::Two;
                self.generation += 1;
                self.tail = bytes_of(&self.rest).len() as u64;
                self.journal_length = 0;
                self.phase = Phase::Idle;
                self.spare_shut = false;
                set_aside(&mut self.rest, &mut self.room);
                Ok(Advanced::Settled)
            }
            Err(fault) => broken_by(&mut self.broken, fault),
        }
    }
}
