//! Spoiled files, on which opening and inspecting have to agree.

use crate::dice::Dice;
use std::alloc::Global;
use test_oracle::{Bytes, Files, Met, Verdict, agree};

// Bytes that mean something in a file, and others.
const BYTES: [u32; 10] = [0, 1, 2, 7, 8, 10, 63, 127, 128, 255];

// The offset of the last byte of a header's generation.
const GENERATION: usize = 19;

// An offset in a file, mostly near its beginning.
fn place(dice: &mut Dice, len: usize) -> usize {
    if dice.one_in(2) {
        return dice.place(len.min(64));
    }
    dice.place(len)
}

// A byte that means something, or any byte.
fn byte(dice: &mut Dice) -> u8 {
    if dice.one_in(3) {
        return dice.byte();
    }
    (dice.number(&BYTES) & 0xff) as u8
}

// Spoils a file once.
fn spoil_once(dice: &mut Dice, bytes: &mut Vec<u8>) {
    let at = place(dice, bytes.len());
    let byte = byte(dice);
    match dice.below(8) {
        0 => bytes.truncate(at),
        1 => {
            let _ = bytes.push(byte);
        }
        2 => {
            let _ = bytes.insert(at.min(bytes.len()), byte);
        }
        _ => {
            if let Some(old) = bytes.get_mut(at) {
                *old = byte;
            }
        }
    }
}

// Spoils a file up to three times.
fn spoil_one(dice: &mut Dice, bytes: &mut Vec<u8>) {
    for _ in 0..dice.below(4) {
        spoil_once(dice, bytes);
    }
}

// Makes the other file a copy of the first with another generation, or leaves it.
fn pair(dice: &mut Dice, one: &[u8], other: &mut Vec<u8>) {
    if dice.one_in(2) {
        return;
    }
    other.clear();
    let _ = other.extend_from_slice(one);
    if let Some(generation) = other.get_mut(GENERATION) {
        *generation = (dice.below(3) & 0xff) as u8;
    }
}

/// Spoils copies of two files here and there: opening and inspecting must agree on them.
pub(crate) fn spoil(verdict: &mut Verdict, dice: &mut Dice, alloc: Global, files: &mut Files) {
    verdict.counts.up(Met::Spoiled);
    let Bytes {
        first: mut one,
        second: mut other,
    } = files.bytes(alloc);
    let are_read = !one.is_empty() || !other.is_empty();
    verdict.sure(are_read, "no bytes of the files to spoil");
    pair(dice, one.as_slice(), &mut other);
    spoil_one(dice, &mut one);
    spoil_one(dice, &mut other);
    let _ = if dice.one_in(2) {
        agree(verdict, alloc, one.as_slice(), other.as_slice())
    } else {
        agree(verdict, alloc, other.as_slice(), one.as_slice())
    };
    drop(one);
    drop(other);
}
