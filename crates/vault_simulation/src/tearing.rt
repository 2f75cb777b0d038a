//! Puts any bytes where crashes may leave any: behind the tail gate of the active file, and in a closed spare file.

use crate::dice::Dice;
use group_commit::File;
use test_oracle::{Bytes, World};

// How many bytes are read of an older file: its header.
const HEADER: usize = 24;

// The offset of the first byte of a header's generation.
const GENERATION: usize = 12;

// Puts any bytes at a few places behind an offset, and adds a few bytes at the end.
fn scatter(dice: &mut Dice, bytes: &mut Vec<u8>, from: usize) {
    let room = bytes.len().saturating_sub(from);
    for _ in 0..dice.below(8) {
        let at = from.saturating_add(dice.place(room));
        if let Some(byte) = bytes.get_mut(at) {
            *byte = dice.byte();
        }
    }
    for _ in 0..dice.below(40) {
        let _ = bytes.push(dice.byte());
    }
}

// Sets a gate to this byte, if the gate is there.
fn set_gate(bytes: &mut Vec<u8>, at: usize, byte: u8) {
    if let Some(gate) = bytes.get_mut(at) {
        *gate = byte;
    }
}

fn tear_active(dice: &mut Dice, bytes: &mut Vec<u8>, gate: usize) {
    let behind = gate.saturating_add(1);
    if dice.one_in(2) {
        bytes.truncate(behind);
    }
    scatter(dice, bytes, behind);
    let closed = dice.no_one();
    set_gate(bytes, gate, closed);
}

fn tear_older(dice: &mut Dice, bytes: &mut Vec<u8>) {
    if dice.one_in(3) {
        bytes.truncate(HEADER);
    }
    scatter(dice, bytes, HEADER);
}

// Tears a closed file: it stays, is cut, or gets the active file's bytes with a greater generation. Whether its head gate is then there
// and no 1.
fn tear_closed(dice: &mut Dice, bytes: &mut Vec<u8>, active: &[u8]) -> bool {
    match dice.below(4) {
        0 => bytes.truncate(dice.place(bytes.len())),
        1 => {
            bytes.clear();
            let _ = bytes.extend_from_slice(active);
            set_gate(bytes, GENERATION, 1);
        }
        _ => {}
    }
    scatter(dice, bytes, HEADER);
    if dice.one_in(6) {
        bytes.truncate(HEADER - 1);
        set_gate(bytes, 0, 1);
        return false;
    }
    let closed = dice.no_one();
    set_gate(bytes, 0, closed);
    !bytes.is_empty()
}

fn tear_both(
    dice: &mut Dice,
    world: &mut World,
    active: &mut Vec<u8>,
    tail: u64,
    spare: &mut Vec<u8>,
) {
    tear_active(dice, active, tail as usize);
    if world.is_spare_open() {
        tear_older(dice, spare);
        return;
    }
    let shut = tear_closed(dice, spare, active.as_slice());
    world.leave_spare(shut);
}

/// Puts any bytes where crashes may leave any. The vault must be the same.
pub(crate) fn tear(dice: &mut Dice, world: &mut World, bytes: &mut Bytes) {
    let (which, tail) = world.tail();
    match which {
        File::First => tear_both(dice, world, &mut bytes.first, tail, &mut bytes.second),
        File::Second => tear_both(dice, world, &mut bytes.second, tail, &mut bytes.first),
    }
}
