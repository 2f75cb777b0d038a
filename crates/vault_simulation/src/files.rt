//! Files that are cut or changed in one field, in the place of either file of a vault. Why they don't open was worked out by hand.

use group_commit::{File, OpenError};
use std::alloc::Global;
use test_oracle::{Verdict, agree};

// The first file of a new vault, once `/e` was made in it.
const FILE: [u8; 47] = [
    1, b'L', b'L', b'V', b'A', b'U', b'L', b'T', 0, 0, 0, 2, 0, 0, 0, 0, 0, 0, 0, 1, 0, 0, 0, 10,
    0, 0, 0, 0, 0, 0, 0, 1, 0, 0, 1, 0, 0, 0, 7, 1, 0, 0, 0, 0, 1, b'e', 0,
];

/// What is wrong with a file.
#[derive(Clone, Copy, PartialEq)]
enum Wrong {
    Nothing,
    Closed,
    At(u64),
}

// Offsets, bytes to put there, and what is wrong then. The fields: the head gate, the mark, the version, the generation, the snapshot's
// length, a frame's length, a record's first byte, and the tail gate.
const CHANGED: [(usize, u8, Wrong); 8] = [
    (0, 2, Wrong::Closed),
    (1, 0, Wrong::At(1)),
    (11, 3, Wrong::At(8)),
    (19, 0, Wrong::At(12)),
    (23, 11, Wrong::At(24)),
    (38, 0, Wrong::At(34)),
    (39, 63, Wrong::At(34)),
    (46, 7, Wrong::Nothing),
];

// What is wrong with the file if it is cut to this length.
fn wrong_at(len: usize) -> Wrong {
    match len {
        0..24 => Wrong::Closed,
        24..35 => Wrong::At(20),
        35..47 => Wrong::At(34),
        _ => Wrong::Nothing,
    }
}

// What opening answers, if this is wrong with one file and the other is empty.
fn answer(file: File, wrong: Wrong) -> Option<OpenError> {
    match wrong {
        Wrong::Nothing => None,
        Wrong::Closed => Some(OpenError::NoVault),
        Wrong::At(offset) => Some(OpenError::Damaged { file, offset }),
    }
}

// Opening and inspecting must report what is wrong with a file, in either place, beside an empty one.
fn judge_file(verdict: &mut Verdict, alloc: Global, bytes: &[u8], wrong: Wrong) {
    let first = agree(verdict, alloc, bytes, &[]);
    let second = agree(verdict, alloc, &[], bytes);
    let told = first == answer(File::First, wrong) && second == answer(File::Second, wrong);
    verdict.sure(told, "a file's fault is told otherwise");
}

// The file with another byte at an offset.
fn with_byte(at: usize, byte: u8) -> [u8; 47] {
    let mut file = FILE;
    if let Some(old) = file.get_mut(at) {
        *old = byte;
    }
    file
}

/// Judges the file, cut to each length.
pub(crate) fn judge_cuts(verdict: &mut Verdict, alloc: Global) {
    for len in 0..=FILE.len() {
        let cut = FILE.get(..len).unwrap_or(&[]);
        judge_file(verdict, alloc, cut, wrong_at(len));
    }
}

/// Judges the file, with one field changed.
pub(crate) fn judge_changes(verdict: &mut Verdict, alloc: Global) {
    for (at, byte, wrong) in CHANGED {
        judge_file(verdict, alloc, &with_byte(at, byte), wrong);
    }
}

// Tries each value of the byte at an offset.
fn judge_bytes_at(verdict: &mut Verdict, alloc: Global, at: usize) {
    for byte in 0..=255u8 {
        let _ = agree(verdict, alloc, &with_byte(at, byte), &[]);
    }
}

/// Sets each byte of the file to each value: opening and inspecting must agree.
pub(crate) fn judge_bytes(verdict: &mut Verdict, alloc: Global) {
    for at in 0..FILE.len() {
        judge_bytes_at(verdict, alloc, at);
    }
}
