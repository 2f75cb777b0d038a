//! Whether two files are of two vaults.
ghost use Rattle.std.specs.Prelude.{◌↔◌, ◌+◌, ◌<◌, ℕ, IsTrue, IfOk, IfErr, IsErr, IfSome, OnOk};
ghost use Rattle.vault_format.specs.Files.{HasRightHead};
ghost use Rattle.vault_store.specs.Calls.{HasCause, IsQuiet};
ghost use Rattle.vault_store.specs.Read.{AreReads};
ghost use Rattle.vault_store.specs.TwoVaults.{AreUnrelated, IsOfAnother, AreOfTwoVaults, IsGenerationOf, IsLedTo, IsBaseOf, IsUnread, AreUnread};

use crate::earlier::is_earlier;
use std::alloc::Allocator;
use vault_checkout::Book;
use vault_device::{Device, Fault};
use vault_store::{
    Base, BodyError, Contents, Head, ReadError, read_contents, read_first_base, read_head,
};

// The generation of a file whose head is right; `None` for any other.
fn right_generation<D: Device>(device: &mut D) -> Result<Option<u64>, Fault>
    ensures reads { AreReads (D.disk device.old) (D.disk device.new) }
    ensures generation { IsTrue (D.disk device.old).honest → IfOk result (IsGenerationOf (D.disk device.old).shown) }
    ensures cause { IsErr result → HasCause (D.disk device.old) (D.disk device.new) }
    ensures quiet { OnOk result (IsQuiet (D.disk device.old) (D.disk device.new)) }
{
    match read_head(device)? {
        Head::Closed => Ok(None),
        Head::Open {
            version: _,
            generation,
        } => Ok(Some(generation)),
        Head::Damaged(_) => Ok(None),
    }
}

// The vault that a file with a right head leads to, with its frames; `None` if the file is damaged.
fn vault_in<D: Device, A: Allocator + Copy>(
    alloc: A,
    device: &mut D,
) -> Result<Option<Book<A>>, BodyError>
    ensures reads { AreReads (D.disk device.old) (D.disk device.new) }
    ensures vault { IsTrue (D.disk device.old).honest → IfOk result (IsLedTo (D.disk device.old).shown) }
    ensures refused { IfErr result (IsUnread (D.disk device.old) (D.disk device.new)) }
    ensures quiet { IfOk result (λ found. IfSome found (λ book. IsQuiet (D.disk device.old) (D.disk device.new))) }
{
    match read_contents(alloc, device) {
        Ok(contents) => {
            let Contents {
                version: _,
                book,
                frames: _,
                tail: _,
                journal_length: _,
            } = contents;
            Ok(Some(book))
        }
        Err(ReadError::Damaged(_)) => Ok(None),
        Err(ReadError::Device) => Err(BodyError::Device),
        Err(ReadError::NoMemory) => Err(BodyError::NoMemory),
    }
}

// The vault of the snapshot of a file with a right head; `None` if the snapshot is damaged.
fn base_in<D: Device, A: Allocator + Copy>(
    alloc: A,
    device: &mut D,
) -> Result<Option<Book<A>>, BodyError>
    ensures reads { AreReads (D.disk device.old) (D.disk device.new) }
    ensures base { IsTrue (D.disk device.old).honest → IfOk result (IsBaseOf (D.disk device.old).shown) }
    ensures refused { IfErr result (IsUnread (D.disk device.old) (D.disk device.new)) }
{
    match read_first_base(alloc, device) {
        Ok(base) => {
            let Base {
                version: _,
                book,
                end: _,
            } = base;
            Ok(Some(book))
        }
        Err(ReadError::Damaged(_)) => Ok(None),
        Err(ReadError::Device) => Err(BodyError::Device),
        Err(ReadError::NoMemory) => Err(BodyError::NoMemory),
    }
}

// Whether the older of two files is not of the newer one's vault. Their heads are right, and their generations differ by one.
fn is_unrelated<D: Device, A: Allocator + Copy>(
    alloc: A,
    older: &mut D,
    newer: &mut D,
) -> Result<bool, BodyError>
    ensures older { AreReads (D.disk older.old) (D.disk older.new) }
    ensures newer { AreReads (D.disk newer.old) (D.disk newer.new) }
    ensures unrelated { IsTrue (D.disk older.old).honest → IsTrue (D.disk newer.old).honest → (generation : ℕ)
        → HasRightHead generation (D.disk older.old).shown → HasRightHead (generation + 1) (D.disk newer.old).shown
        → IfOk result (λ is. IsTrue is ↔ AreUnrelated (D.disk older.old).shown (D.disk newer.old).shown) }
    ensures refused { IfErr result (AreUnread (D.disk older.old) (D.disk newer.old) (D.disk older.new) (D.disk newer.new)) }
{
    let earlier = match vault_in(alloc, older) {
        Ok(Some(earlier)) => earlier,
        Ok(None) => return Ok(false),
        Err(why) => return Err(why),
    };
    match base_in(alloc, newer) {
        Ok(Some(later)) => {
            let is_related = is_earlier(&earlier, &later);
            drop(earlier);
            drop(later);
            Ok(!is_related)
        }
        Ok(None) => {
            drop(earlier);
            Ok(false)
        }
        Err(why) => {
            drop(earlier);
            Err(why)
        }
    }
}

// Whether the older of two files is not of the newer one's vault. Their heads are right, and of these generations.
fn is_of_another<D: Device, A: Allocator + Copy>(
    alloc: A,
    generations: (u64, u64),
    older: &mut D,
    newer: &mut D,
) -> Result<bool, BodyError>
    requires { generations.0 < generations.1 }
    ensures older { AreReads (D.disk older.old) (D.disk older.new) }
    ensures newer { AreReads (D.disk newer.old) (D.disk newer.new) }
    ensures another { IsTrue (D.disk older.old).honest → IsTrue (D.disk newer.old).honest
        → HasRightHead generations.0 (D.disk older.old).shown → HasRightHead generations.1 (D.disk newer.old).shown
        → IfOk result (λ is. IsTrue is ↔ IsOfAnother (D.disk older.old).shown (D.disk newer.old).shown) }
    ensures refused { IfErr result (AreUnread (D.disk older.old) (D.disk newer.old) (D.disk older.new) (D.disk newer.new)) }
{
    let apart = generations.1 - generations.0;
    if apart > 1 {
        return Ok(true);
    }
    is_unrelated(alloc, older, newer)
}

/// Whether two files are of two vaults, in either order. It reads each as opening does, and writes or syncs nothing.
///
/// It reads both heads. If both are open and right and their generations differ by one, it also reads the older file up to its tail
/// gate and the newer one's snapshot. Beside what opening takes for each of them, it takes memory for both vaults at once, and keeps
/// none of it.
pub fn are_of_two_vaults<D: Device, A: Allocator + Copy>(
    alloc: A,
    first: &mut D,
    second: &mut D,
) -> Result<bool, BodyError>
    ensures first { AreReads (D.disk first.old) (D.disk first.new) }
    ensures second { AreReads (D.disk second.old) (D.disk second.new) }
    ensures two { IsTrue (D.disk first.old).honest → IsTrue (D.disk second.old).honest
        → IfOk result (λ are. IsTrue are ↔ AreOfTwoVaults (D.disk first.old).shown (D.disk second.old).shown) }
    ensures refused { IfErr result (AreUnread (D.disk first.old) (D.disk second.old) (D.disk first.new) (D.disk second.new)) }
{
    let one = match right_generation(first) {
        Ok(Some(one)) => one,
        Ok(None) => return Ok(false),
        Err(_) => return Err(BodyError::Device),
    };
    let other = match right_generation(second) {
        Ok(Some(other)) => other,
        Ok(None) => return Ok(false),
        Err(_) => return Err(BodyError::Device),
    };
    if one < other {
        return is_of_another(alloc, (one, other), first, second);
    }
    if other < one {
        return is_of_another(alloc, (other, one), second, first);
    }
    Ok(false)
}
