//! The frames of a file, read one after another.
ghost use Rattle.std.specs.Prelude.{◌≡◌, ◌+◌, ◌<◌, ◌≤◌, ◌↔◌, Some, None, Err, IfOk, IfErr, IsErr, OnOk, IsTrue, length, drop, slice_index, slice_range};
ghost use Rattle.vault_checkout.specs.declared.apply.ApplyError.TheVariants.{NotApplicable};
ghost use Rattle.vault_journal.specs.Spelling.{in_four};
ghost use Rattle.vault_store.specs.Calls.{HasCause, IsQuiet};
ghost use Rattle.vault_format.specs.Files.{applied, frame_extra, most_records};
ghost use Rattle.vault_store.specs.Read.{AreReads, IsWhy, IsLengthRead, BeginsWithNoFrame, AreMade, AreNotMade, IsStepRead, IsNoFrame, AreAllRead, IsFrameWrong};

use crate::body::ReadError;
use std::alloc::Allocator;
use vault_checkout::{ApplyError, Book};
use vault_device::{Device, Fault};
use vault_format::{FRAME_EXTRA, MAX_RECORDS};
use vault_journal::{Damage, read_effects};
use vault_model::EffectIn;

/// Reads a gate byte. One device call.
pub fn read_gate<D: Device>(device: &mut D, at: u64) -> Result<u8, Fault>
    requires { IsTrue (D.disk device.old).honest → at < length (D.disk device.old).shown }
    ensures reads { AreReads (D.disk device.old) (D.disk device.new) }
    ensures gate { IsTrue (D.disk device.old).honest → IfOk result (λ gate. gate ≡ slice_index (D.disk device.old).shown at) }
    ensures cause { IsErr result → HasCause (D.disk device.old) (D.disk device.new) }
    ensures quiet { OnOk result (IsQuiet (D.disk device.old) (D.disk device.new)) }
{
    let mut gate = [0; 1];
    device.read_at(at, &mut gate)?;
    Ok(gate[0])
}

/// The number that is spelled in four bytes.
pub fn number_in(bytes: &[u8; 4]) -> u32
    ensures { bytes.now ≡ in_four result }
{
    u32::from_be_bytes(*bytes)
}

// Whether a frame with `length` bytes of records is allowed, and fits into `room` bytes with a byte behind it.
fn is_length(length: u32, room: u64) -> bool
    ensures { IsTrue result ↔ ((1 ≤ length) × (length ≤ most_records) × (frame_extra + length < room)) }
{
    1 <= length && length <= MAX_RECORDS && FRAME_EXTRA + u64::from(length) < room
}

// How many bytes of records the frame at this open gate has. One device call at most.
fn read_length<D: Device>(device: &mut D, len: u64, at: u64) -> Result<u32, ReadError>
    requires within { at < len }
    requires len { IsTrue (D.disk device.old).honest → len ≡ length (D.disk device.old).shown }
    ensures reads { AreReads (D.disk device.old) (D.disk device.new) }
    ensures length { IfOk result (λ n. IsLengthRead (D.disk device.old) len at n) }
    ensures refused { IfErr result
        (λ why. IsWhy (D.disk device.old) (D.disk device.new)
        (λ offset. (offset ≡ at) × BeginsWithNoFrame (drop at (D.disk device.old).shown)) why) }
    ensures quiet { OnOk result (IsQuiet (D.disk device.old) (D.disk device.new)) }
{
    let room = len - at;
    if room <= FRAME_EXTRA {
        return Err(ReadError::Damaged(at));
    }
    let mut bytes = [0; 4];
    device.read_at(at + 1, &mut bytes)?;
    let length = number_in(&bytes);
    if !is_length(length, room) {
        return Err(ReadError::Damaged(at));
    }
    Ok(length)
}

// Applies effects, one after another.
fn make_each<A: Allocator + Copy>(
    book: &mut Book<A>,
    effects: &[EffectIn<A>],
) -> Result<(), ApplyError>
    ensures made { OnOk result (applied book.old effects.now ≡ Some book.new) }
    ensures not_applicable { result ≡ Err NotApplicable → applied book.old effects.now ≡ None }
{
    for effect in effects {
        book.apply(effect)?;
    }
    Ok(())
}

// Applies the effects whose records these bytes are.
fn make_records<A: Allocator + Copy>(
    alloc: A,
    records: &[u8],
    book: &mut Book<A>,
) -> Result<(), ApplyError>
    ensures made { OnOk result (AreMade records.now book.old book.new) }
    ensures refused { IfErr result (λ why. AreNotMade records.now book.old why) }
{
    let effects = match read_effects(alloc, records) {
        Ok(effects) => effects,
        Err(Damage::At(_)) => return Err(ApplyError::NotApplicable),
        Err(Damage::NoMemory) => return Err(ApplyError::NoMemory),
    };
    make_each(book, &effects)
}

/// Reads `count` bytes of a file. One device call.
pub fn read_bytes<D: Device, A: Allocator>(
    alloc: A,
    device: &mut D,
    at: u64,
    count: u32,
) -> Result<Vec<u8, A>, ReadError>
    requires { IsTrue (D.disk device.old).honest → at + count ≤ length (D.disk device.old).shown }
    ensures reads { AreReads (D.disk device.old) (D.disk device.new) }
    ensures size { IfOk result (λ bytes. length bytes.items ≡ count) }
    ensures bytes { IsTrue (D.disk device.old).honest
        → IfOk result (λ bytes. bytes.items ≡ slice_range (D.disk device.old).shown at (at + count)) }
    ensures refused { IfErr result (λ why. IsWhy (D.disk device.old) (D.disk device.new) (λ offset. ⊥) why) }
    ensures quiet { OnOk result (IsQuiet (D.disk device.old) (D.disk device.new)) }
{
    let mut bytes = vec![in alloc; 0; count as usize].map_err(|_| ReadError::NoMemory)?;
    device.read_at(at, &mut bytes)?;
    Ok(bytes)
}

// A frame, from its gate on. The gate behind its last record is the next frame's, or the tail gate.
//
//   offset  bytes
//        0      1  its gate, 1
//        1      4  m, the length of its records, 1 to 262,139
//        5      m  the records
//
// Reads the frame at an open gate, applies its effects, and gives the offset of the next gate; `None` at a closed gate.
fn read_frame<D: Device, A: Allocator + Copy>(
    alloc: A,
    device: &mut D,
    len: u64,
    at: u64,
    book: &mut Book<A>,
) -> Result<Option<u64>, ReadError>
    requires within { at < len }
    requires len { IsTrue (D.disk device.old).honest → len ≡ length (D.disk device.old).shown }
    ensures reads { AreReads (D.disk device.old) (D.disk device.new) }
    ensures step { IfOk result (λ next. IsStepRead (D.disk device.old) len at book.old book.new next) }
    ensures refused { IfErr result
        (λ why. IsWhy (D.disk device.old) (D.disk device.new) (IsNoFrame book.old (D.disk device.old).shown at) why) }
    ensures quiet { OnOk result (IsQuiet (D.disk device.old) (D.disk device.new)) }
{
    if read_gate(device, at)? != 1 {
        return Ok(None);
    }
    let length = read_length(device, len, at)?;
    let records = read_bytes(alloc, device, at + FRAME_EXTRA, length)?;
    match make_records(alloc, &records, book) {
        Ok(()) => Ok(Some(at + FRAME_EXTRA + u64::from(length))),
        Err(ApplyError::NotApplicable) => Err(ReadError::Damaged(at)),
        Err(ApplyError::NoMemory) => Err(ReadError::NoMemory),
    }
}

/// How many frames a file has, and where its tail gate stands.
#[derive(Clone, Copy)]
pub struct Frames {
    pub count: u64,
    pub tail: u64,
}

/// Reads all frames from an offset on, and applies their effects.
pub fn read_frames<D: Device, A: Allocator + Copy>(
    alloc: A,
    device: &mut D,
    len: u64,
    from: u64,
    book: &mut Book<A>,
) -> Result<Frames, ReadError>
    requires within { from < len }
    requires len { IsTrue (D.disk device.old).honest → len ≡ length (D.disk device.old).shown }
    ensures reads { AreReads (D.disk device.old) (D.disk device.new) }
    ensures all { IfOk result (λ frames. AreAllRead (D.disk device.old) len from book.old book.new frames.count frames.tail) }
    ensures refused { IfErr result
        (λ why. IsWhy (D.disk device.old) (D.disk device.new) (IsFrameWrong from book.old (D.disk device.old).shown) why) }
    ensures quiet { OnOk result (IsQuiet (D.disk device.old) (D.disk device.new)) }
{
    let mut count = 0;
    let mut tail = from;
    while let Some(next) = read_frame(alloc, device, len, tail, book)? {
        count += 1;
        tail = next;
    }
    Ok(Frames { count, tail })
}
