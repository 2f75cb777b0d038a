//! Random lines: the words that their capitals stand for.

use crate::dice::Dice;
use crate::line::Line;
use crate::mood::Mood;
use long_locks::Line as Claims;
use vault_model::{Claim, ClaimId, Standing};

const DESIGNERS: [&str; 4] = ["anna", "ben", "carl-3", "d_0123456789012345678901234567-9"];

const PATHS: [&str; 28] = [
    "/",
    "/e",
    "/f",
    "/e/b",
    "/e/c",
    "/f/b",
    "/e/b/p",
    "/e/b/q",
    "/e/b/r",
    "/e/c/p",
    "/e/c/q",
    "/f/b/p",
    "/f/b/q",
    "/e",
    "/e/b",
    "/e/b/p",
    "/e/b/q",
    "/e/c/p",
    "/f/b/p",
    "/f/b/s",
    "/e/b/n",
    "/e/b/n/p",
    "/e/b/n/o",
    "/e/b/n/o/q",
    "/e/b/n/o/q/r",
    "/e/b/n/o/q/r/z",
    "/f/b/n",
    "/f/b/n/p",
];

/// The parts that most runs have.
pub(crate) const PARTS: [&str; 7] = [
    "/e/b/p", "/e/b/q", "/e/b/r", "/e/c/p", "/e/c/q", "/f/b/p", "/f/b/q",
];

// Beginnings of paths of places that nobody made yet.
const TOPS: [&str; 9] = [
    "/",
    "/e/",
    "/f/",
    "/e/b/",
    "/f/b/",
    "/e/b/n/",
    "/e/b/n/o/",
    "/e/b/n/o/q/",
    "/e/b/n/o/q/r/",
];

fn is_held(claims: &Claims, claim: &Claim) -> bool {
    matches!(claim.id, ClaimId::Long(_)) && claims.standing(claim.id) == Some(Standing::Held)
}

/// Draws a few claims, and gives the first granted check-out among them, else the last one drawn. Now and then none.
pub(crate) fn claim(dice: &mut Dice, claims: &Claims) -> Option<Claim> {
    let mut found = None;
    for _ in 0..dice.below(6) {
        if let Some(claim) = claims.at(dice.place(claims.len())) {
            found = Some(*claim);
            if is_held(claims, claim) {
                return found;
            }
        }
    }
    found
}

/// The id of this claim. Without one: an id that may not be there.
pub(crate) fn id(dice: &mut Dice, claims: &Claims, claim: &Option<Claim>) -> ClaimId {
    if let Some(claim) = claim {
        return claim.id;
    }
    let last = claims.last_long().saturating_add(3);
    let number = dice.below(last).saturating_add(1);
    if dice.one_in(3) {
        ClaimId::Short(number)
    } else {
        ClaimId::Long(number)
    }
}

fn number(id: ClaimId) -> u32 {
    match id {
        ClaimId::Long(number) | ClaimId::Short(number) => number,
    }
}

fn put_numbered(line: &mut Line, letter: u8, number: u32) {
    line.put_byte(letter);
    line.put_number(number);
}

fn put_id(line: &mut Line, id: ClaimId) {
    match id {
        ClaimId::Long(number) => put_numbered(line, b'c', number),
        ClaimId::Short(number) => put_numbered(line, b'h', number),
    }
}

fn put_path(line: &mut Line, dice: &mut Dice, mood: &Mood) {
    if !dice.one_in(mood.fresh) {
        line.put(dice.word(&PATHS));
        return;
    }
    line.put(dice.word(&TOPS));
    line.put_byte(b'a' + dice.byte() % 26);
    line.put_byte(b'a' + dice.byte() % 26);
}

fn put_items(line: &mut Line, dice: &mut Dice, mood: &Mood) {
    let count = match dice.below(40) {
        0 => 9,
        1 => 8,
        _ => dice.below(3).saturating_add(1),
    };
    for item in 0..count {
        if item > 0 {
            line.put(" ");
        }
        if dice.one_in(mood.change) {
            line.put("w:");
        } else {
            line.put("r:");
        }
        put_path(line, dice, mood);
    }
}

fn put_content(line: &mut Line, dice: &mut Dice, mood: &Mood) {
    let len = match dice.below(40) {
        0 => 1025,
        1 => 1024,
        2 => 0,
        _ if mood.long => dice.below(120).saturating_add(900),
        _ => dice.below(12),
    };
    line.put_content(len, dice.byte());
}

fn put_note(line: &mut Line, dice: &mut Dice) {
    let len = dice.number(&[0, 1, 5, 9, 64, 65]);
    line.put_content(len, dice.byte());
}

// What a capital stands for; any other byte stands for itself.
fn put_word(line: &mut Line, dice: &mut Dice, mood: &Mood, id: ClaimId, letter: u8) {
    match letter {
        b'N' => line.put(dice.word(&DESIGNERS)),
        b'P' => put_path(line, dice, mood),
        b'D' => line.put(dice.word(&PARTS)),
        b'C' => put_id(line, id),
        b'K' => put_numbered(line, b'c', number(id)),
        b'H' => put_numbered(line, b'h', number(id)),
        b'I' => put_items(line, dice, mood),
        b'X' => put_content(line, dice, mood),
        b'T' => put_note(line, dice),
        b'V' => line.put_number(dice.below(4)),
        _ => line.put_byte(letter),
    }
}

/// Spells a line with random words, and with this claim.
pub(crate) fn spell(line: &mut Line, dice: &mut Dice, mood: &Mood, id: ClaimId, words: &str) {
    line.begin("");
    for letter in words.as_bytes() {
        put_word(line, dice, mood, id, *letter);
    }
}

/// Whether a line names a claim.
pub(crate) fn names_claim(words: &str) -> bool {
    for letter in words.as_bytes() {
        if matches!(*letter, b'C' | b'K' | b'H') {
            return true;
        }
    }
    false
}
