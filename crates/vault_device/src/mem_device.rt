//! A device in memory.
ghost use Rattle.std.specs.Prelude.{◌≡◌, ◌≢◌, ◌≤◌, ◌<◌, ◌+◌, ◌-◌, ◌^◌, ◌∷◌, ◌↔◌, ◌⊎◌, if◌then◌else◌, [], ℕ, min, true, false, IsTrue, IsErr, IfOk, OnOk, OnErr, length, slice_range};
ghost use Rattle.vault_device.specs.Disk.{IsOneCall, IsRead, IsWrite, IsSync, LeavesOnly, last_count};
ghost use Rattle.vault_device.specs.Memory.{picked, content_of, after_sync, after_crash};
ghost use Rattle.vault_device.specs.declared.history.Event.TheVariants.{Wrote};
ghost use Rattle.vault_device.specs.MemDevice.{MemDisk, disk_of, IsCounted, IsFailedWrite};
ghost use Rattle.vault_device.specs.MemoryLaws.{memory_lawful};

use crate::history::Pick;
use crate::memory::Memory;
use crate::{Device, Fault};
use std::alloc::{AllocError, Allocator, Global};
use std::marker::Model;

// Counts of calls, of faults and of refused allocations, and which call is to fail.
#[derive(Drop)]
struct Counts {
    calls: u64,
    faults: u64,
    refused: u64,
    // Which call from now fails, counted from 1; 0 for none.
    failing: u64,
}

impl Counts {
    // Counts one call, and says whether it is to fail.
    fn call(&mut self) -> bool
        ensures calls { self.new.calls ≡ min (self.old.calls + 1) last_count }
        ensures fails { result ≡ true → self.old.failing ≡ 1 }
        ensures succeeds { result ≡ false → self.old.failing ≢ 1 }
        ensures failing { self.new.failing ≡ self.old.failing - 1 }
        ensures fault { result ≡ true → self.new.faults ≡ min (self.old.faults + 1) last_count }
        ensures no_fault { result ≡ false → self.new.faults ≡ self.old.faults }
        ensures few { self.old.faults ≤ last_count }
        ensures refused { self.new.refused ≡ self.old.refused }
    {
        let fails = self.failing == 1;
        self.calls = self.calls.saturating_add(1);
        self.failing = self.failing.saturating_sub(1);
        self.faults = self.faults.saturating_add(u64::from(fails));
        fails
    }

    // Counts a refused allocation, and a fault for it unless the call fails anyway.
    fn refuse(&mut self, fails: bool)
        ensures { self.new ≡ record self.old {
          refused = min (self.old.refused + 1) last_count;
          faults = if fails then self.old.faults
              else min (self.old.faults + 1) last_count;
        } }
    {
        self.refused = self.refused.saturating_add(1);
        if !fails {
            self.faults = self.faults.saturating_add(1);
        }
    }
}

/// A device in memory. It keeps all that was done to it, so its memory grows by the bytes that are written.
#[derive(Drop)]
pub struct MemDevice<A: Allocator = Global> {
    memory: Memory<A>,
    counts: Counts,
}

impl<A: Allocator> Model for MemDevice<A> {
    ghost use Rattle.vault_device.specs.declared.history.Event.TheVariants.{Wrote};
    ghost use Rattle.vault_device.specs.MemDevice.{MemDisk};

    ghost Value = { MemDisk };

    ghost view = { λ d. record {
      history = d.memory;
      calls = d.counts.calls;
      faults = d.counts.faults;
      refused = d.counts.refused;
      failing = d.counts.failing;
    } };
}

impl<A: Allocator + Copy> MemDevice<A> {
    /// An empty device, with room for its first events.
    pub fn new(alloc: A) -> Result<MemDevice<A>, AllocError>
        ensures { IfOk result (λ device. device ≡ record { history = []; calls = 0; faults = 0; refused = 0; failing = 0 }) }
    {
        Ok(MemDevice {
            memory: Memory::new(alloc)?,
            counts: Counts {
                calls: 0,
                faults: 0,
                refused: 0,
                failing: 0,
            },
        })
    }

    /// Crashes and starts again. The pick says what is left of the bytes written since the last sync. Takes no memory.
    pub fn crash(&mut self, pick: Pick)
        ensures history { self.new ≡ record self.old { history = after_crash pick self.old.history } }
        ensures shown { (disk_of self.new).shown ≡ picked pick (content_of self.old.history) }
        ensures settled { (disk_of self.new).settled ≡ picked pick (content_of self.old.history) }
        ensures image { (disk_of self.old).IsImage (disk_of self.new).shown }
        ensures only { LeavesOnly (disk_of self.new) (disk_of self.new).shown }
    {
        self.memory.crash(pick);
    }

    /// How many device calls were made.
    pub fn calls(&self) -> u64
        ensures { result ≡ self.now.calls }
    {
        self.counts.calls
    }

    /// How many allocations were refused. Each made a write fail, which changed no bytes.
    pub fn refused(&self) -> u64
        ensures { result ≡ self.now.refused }
    {
        self.counts.refused
    }

    /// Makes the nth device call from now fail; 0 makes none fail.
    pub fn fail_at(&mut self, n: u64)
        ensures { self.new ≡ record self.old { failing = n } }
    {
        self.counts.failing = n;
    }
}

impl<A: Allocator + Copy> Device for MemDevice<A> {
    ghost disk = { disk_of };

    ghost lawful = { λ d honest. memory_lawful d.history d.calls d.faults };

    fn len(&mut self) -> Result<u64, Fault>
        ensures one_call { IsOneCall (disk_of self.old) (disk_of self.new) result }
        ensures kept { IsRead (disk_of self.old) (disk_of self.new) }
        ensures length { IfOk result (λ n. n ≡ length (disk_of self.old).shown) }
        ensures counts { IsCounted self.old self.new result }
        ensures history { self.new.history ≡ self.old.history }
        ensures refused { self.new.refused ≡ self.old.refused }
        ensures fails { IsErr result → self.old.failing ≡ 1 }
    {
        if self.counts.call() {
            return Err(Fault);
        }
        Ok(self.memory.shown().len() as u64)
    }

    fn read_at(&mut self, at: u64, buffer: &mut [u8]) -> Result<(), Fault>
        requires { at + length buffer.old ≤ length (disk_of self.old).shown }
        ensures one_call { IsOneCall (disk_of self.old) (disk_of self.new) result }
        ensures kept { IsRead (disk_of self.old) (disk_of self.new) }
        ensures bytes { OnOk result (buffer.new ≡ slice_range (disk_of self.old).shown at (at + length buffer.old)) }
        ensures counts { IsCounted self.old self.new result }
        ensures history { self.new.history ≡ self.old.history }
        ensures refused { self.new.refused ≡ self.old.refused }
        ensures fails { IsErr result → self.old.failing ≡ 1 }
    {
        if self.counts.call() {
            return Err(Fault);
        }
        let from = &self.memory.shown()[at as usize..];
        buffer.copy_from_slice(&from[..buffer.len()]);
        Ok(())
    }

    /// A write that `fail_at` makes fail still puts its bytes in place. One that is out of memory changes no bytes.
    fn write_at(&mut self, at: u64, bytes: &[u8]) -> Result<(), Fault>
        requires begin { at ≤ length (disk_of self.old).shown }
        requires end { at + length bytes.now < 2 ^ 63 }
        ensures one_call { IsOneCall (disk_of self.old) (disk_of self.new) result }
        ensures write { IsWrite at bytes.now result (disk_of self.old) (disk_of self.new) }
        ensures counts { IsCounted self.old self.new result }
        ensures history { OnOk result (self.new.history ≡ Wrote at bytes.now ∷ self.old.history) }
        ensures fault { OnErr result (IsFailedWrite at bytes.now self.old self.new) }
        ensures refused { OnOk result (self.new.refused ≡ self.old.refused) }
    {
        let fails = self.counts.call();
        match self.memory.put(at as usize, bytes) {
            Ok(()) if !fails => Ok(()),
            Ok(()) => Err(Fault),
            Err(AllocError) => {
                self.counts.refuse(fails);
                Err(Fault)
            }
        }
    }

    fn sync(&mut self) -> Result<(), Fault>
        ensures one_call { IsOneCall (disk_of self.old) (disk_of self.new) result }
        ensures sync { IsSync result (disk_of self.old) (disk_of self.new) }
        ensures counts { IsCounted self.old self.new result }
        ensures history { OnOk result (self.new.history ≡ after_sync self.old.history) }
        ensures fault { OnErr result (self.new.history ≡ self.old.history) }
        ensures refused { self.new.refused ≡ self.old.refused }
        ensures fails { IsErr result → self.old.failing ≡ 1 }
    {
        if self.counts.call() {
            return Err(Fault);
        }
        self.memory.settle();
        Ok(())
    }
}
