//! The device over a file.
ghost use Rattle.std.specs.Prelude.{◌≡◌, ◌≤◌, ◌<◌, ◌+◌, ◌^◌, ◌⊎◌, min, IsTrue, IsErr, IfOk, OnOk, OnErr, length, slice_range};
ghost use Rattle.vault_device.specs.Disk.{IsRead, IsWrite, IsSync, last_count};
ghost use Rattle.vault_device.specs.RawFile.{FileDisk, counted, counted_lawful};

use crate::raw_file::RawFile;
use crate::{Device, Fault};
use std::fs::File;
use std::marker::Model;

/// A device over a file. It is honest if the file is.
#[derive(Drop)]
pub struct FileDevice<F = File> {
    file: F,
    calls: u64,
    faults: u64,
}

impl<F> Model for FileDevice<F> {
    ghost use Rattle.vault_device.specs.RawFile.{FileDisk};

    ghost Value = { FileDisk F };

    ghost view = { λ d. record { file = d.file; calls = d.calls; faults = d.faults } };
}

// Reads until the buffer is full. A file that ends before that is a fault.
fn read_all<F: RawFile>(file: &mut F, at: u64, buffer: &mut [u8]) -> Result<(), Fault>
    requires { IsTrue (F.bytes file.old).honest → at + length buffer.old ≤ length (F.bytes file.old).shown }
    ensures honesty { (F.bytes file.new).honest ≡ (F.bytes file.old).honest }
    ensures kept { IsTrue (F.bytes file.old).honest → IsRead (F.bytes file.old) (F.bytes file.new) }
    ensures bytes { IsTrue (F.bytes file.old).honest
        → OnOk result (buffer.new ≡ slice_range (F.bytes file.old).shown at (at + length buffer.old)) }
{
    let mut done = 0;
    'parts: for _ in 0..u64::MAX {
        if done == buffer.len() {
            return Ok(());
        }
        let place = at.checked_add(done as u64).ok_or(Fault)?;
        let moved = file.read_some(place, &mut buffer[done..])?;
        if moved == Some(0) {
            return Err(Fault);
        }
        done += moved.unwrap_or(0);
    }
    Err(Fault)
}

// Writes until all bytes are written. A file that takes no more is a fault.
fn write_all<F: RawFile>(file: &mut F, at: u64, text: &[u8]) -> Result<(), Fault>
    requires begin { IsTrue (F.bytes file.old).honest → at ≤ length (F.bytes file.old).shown }
    requires end { IsTrue (F.bytes file.old).honest → at + length text.now < 2 ^ 63 }
    ensures honesty { (F.bytes file.new).honest ≡ (F.bytes file.old).honest }
    ensures write { IsTrue (F.bytes file.old).honest → IsWrite at text.now result (F.bytes file.old) (F.bytes file.new) }
{
    let mut done = 0;
    'parts: for _ in 0..u64::MAX {
        if done == text.len() {
            return Ok(());
        }
        let place = at.checked_add(done as u64).ok_or(Fault)?;
        let moved = file.write_some(place, &text[done..])?;
        if moved == Some(0) {
            return Err(Fault);
        }
        done += moved.unwrap_or(0);
    }
    Err(Fault)
}

// How many bytes there are.
fn length_of<F: RawFile>(file: &mut F) -> Result<u64, Fault>
    ensures honesty { (F.bytes file.new).honest ≡ (F.bytes file.old).honest }
    ensures kept { IsTrue (F.bytes file.old).honest → IsRead (F.bytes file.old) (F.bytes file.new) }
    ensures length { IsTrue (F.bytes file.old).honest → IfOk result (λ n. n ≡ length (F.bytes file.old).shown) }
{
    Ok(file.len()?)
}

// Makes bytes and length durable.
fn settle_all<F: RawFile>(file: &mut F) -> Result<(), Fault>
    ensures honesty { (F.bytes file.new).honest ≡ (F.bytes file.old).honest }
    ensures sync { IsTrue (F.bytes file.old).honest → IsSync result (F.bytes file.old) (F.bytes file.new) }
{
    file.settle()?;
    Ok(())
}

// Counts one call, and a fault if it failed.
fn count<T>(calls: &mut u64, faults: &mut u64, answer: &Result<T, Fault>)
    ensures calls { calls.new ≡ min (calls.old + 1) last_count }
    ensures no_fault { OnOk answer.now (faults.new ≡ faults.old) }
    ensures fault { OnErr answer.now (faults.new ≡ min (faults.old + 1) last_count) }
    ensures few { faults.old ≤ last_count }
{
    *calls = calls.saturating_add(1);
    *faults = faults.saturating_add(u64::from(answer.is_err()));
}

impl<F: RawFile> FileDevice<F> {
    /// A device over this file, whose counts begin at 0.
    pub fn over(file: F) -> FileDevice<F>
        ensures { result ≡ record { file = file; calls = 0; faults = 0 } }
    {
        FileDevice {
            file,
            calls: 0,
            faults: 0,
        }
    }
}

impl<F: RawFile> Device for FileDevice<F> {
    ghost disk = { λ d. counted (F.bytes d.file) d.calls d.faults };

    ghost lawful = { λ d honest. counted_lawful (F.bytes d.file) d.calls d.faults (F.lawful d.file honest) };

    fn len(&mut self) -> Result<u64, Fault> {
        let answer = length_of(&mut self.file);
        count(&mut self.calls, &mut self.faults, &answer);
        answer
    }

    fn read_at(&mut self, at: u64, buffer: &mut [u8]) -> Result<(), Fault> {
        let answer = read_all(&mut self.file, at, buffer);
        count(&mut self.calls, &mut self.faults, &answer);
        answer
    }

    fn write_at(&mut self, at: u64, bytes: &[u8]) -> Result<(), Fault> {
        let answer = write_all(&mut self.file, at, bytes);
        count(&mut self.calls, &mut self.faults, &answer);
        answer
    }

    fn sync(&mut self) -> Result<(), Fault> {
        let answer = settle_all(&mut self.file);
        count(&mut self.calls, &mut self.faults, &answer);
        answer
    }
}
