//! The steps of a row. A file `NAME.rows` has lines of these kinds:
//!
//! | A line | What it is |
//! |---|---|
//! | `# ..` | a comment |
//! | `NAME: BYTES` | a name for these bytes, in the lines below |
//! | `start: STEP; STEP; ..` | what each row below begins with |
//! | `STEP; STEP; ..` | a row, over two empty files |
//!
//! A step may end in ` = ANSWER`. Then it must answer just that; without it, it may answer anything. Steps over two files:
//!
//! | Step | What it does | What it answers |
//! |---|---|---|
//! | `first BYTES`, `second BYTES` | writes these bytes to a file, and syncs it | |
//! | `first = BYTES`, `second = BYTES` | | the bytes of a file |
//! | `fail N M` | makes the Nth call of the first file from now fail, and the Mth of the second; 0 for none | |
//! | `calls` | | how many device calls each file has had |
//! | `head`, `body` | reads the first file's head, or what comes after it | what it is, or `damaged at N` |
//! | `inspect` | inspects both | the report, with ` / ` between its lines, or `Device` |
//! | `vaults` | reads both | `two` if they are of two vaults, else `one`, or `Device` |
//! | `create` | makes a new vault in them | `Made`, or `Exists`, `Device` |
//! | `open` | opens the vault in them | what it is, or `NoVault`, `Device`, `First damaged at N` |
//! | `snapshot` | opens it, and begins a snapshot of it | `Yes`, or as `open` |
//! | `crash PICK PICK` | crashes the machine; of a file's unsynced bytes it leaves the `old`, the `new`, or this byte everywhere | |
//!
//! Once a vault was made or opened:
//!
//! | Step | What it does | What it answers |
//! |---|---|---|
//! | `note RECORD`, `note N times RECORD` | notes the effect of this record, once or N times | nothing, or `no room` |
//! | `advance N` | makes N steps of a commit or a snapshot | for each `Moved`, `Settled`, `Idle`, `Broken` or `Fault` |
//! | `phase` | | the phase |
//! | `frames` | | how many bytes of frames there are |
//! | `version` | | the version of the active file |
//! | `room`, `wanted` | | whether there is room for an effect; whether a snapshot is wanted |
//! | `close` | the store gives its files back | |
//! | `crash PICK PICK` | the same, and then the crash | |
//!
//! BYTES are words: hexadecimal digits, `'text'`, a NAME, or a part of one as `NAME[3..34]` and `NAME[20..]`. `WORD*N` is N times WORD,
//! `+NAME` the length of NAME's bytes in four bytes and then these, and `-` nothing. A row with `{old/new}` or `{1-12}` in it is run
//! once with each of these, and with each choice at every other such place.

ghost use Rattle.std.specs.Prelude.{IfSome, All};
ghost use Rattle.vault_journal.specs.Spelling.{HasRecord};

use crate::bytes::Names;
use crate::telling::{tell_body, tell_bytes, tell_head, tell_inspection, tell_vaults};
use crate::text::Text;
use std::alloc::Global;
use vault_device::{Device, MemDevice, Pick};
use vault_journal::read_effects;
use vault_model::EffectIn;
use vault_pairing::are_of_two_vaults;
use vault_store::{Store, read_head};

/// A step: its first word, the rest of its words, and what it must answer, if it must.
#[derive(Clone, Copy)]
pub(crate) struct Step<'a> {
    pub(crate) verb: &'a str,
    pub(crate) rest: &'a str,
    answer: Option<&'a str>,
}

impl<'a> Step<'a> {
    /// The step that a text spells.
    pub(crate) fn read(text: &'a str) -> Step<'a> {
        let (words, answer) = match text.split_once(" = ") {
            Some((words, answer)) => (words, Some(answer)),
            None => (text, None),
        };
        let (verb, rest) = words.split_once(' ').unwrap_or((words, ""));
        Step { verb, rest, answer }
    }

    /// Whether this is what it must answer. Without an answer, anything is.
    pub(crate) fn is_answered(&self, told: &Text) -> bool {
        match self.answer {
            Some(answer) => told.as_str() == answer,
            None => true,
        }
    }
}

/// Longer than any file of a row.
const LONG: usize = 1 << 30;

/// Makes a step over two files. Says whether there is such a step, and it could be made.
pub(crate) fn at_files(
    alloc: Global,
    names: &Names,
    (first, second): (&mut MemDevice, &mut MemDevice),
    step: Step,
    told: &mut Text,
) -> bool {
    match step.verb {
        "first" => hold_or_tell(alloc, names, first, step, told),
        "second" => hold_or_tell(alloc, names, second, step, told),
        "fail" => fail(first, second, step.rest).is_some(),
        "crash" => both_crash(first, second, step.rest),
        "calls" => {
            told.put_value(&first.calls(), " ");
            told.put_value(&second.calls(), "");
            true
        }
        "head" => tell_head(told, read_head(first)),
        "body" => tell_body(told, alloc, first),
        "inspect" => tell_inspection(told, alloc, first, second),
        "vaults" => {
            tell_vaults(told, are_of_two_vaults(alloc, first, second));
            true
        }
        _ => false,
    }
}

// Writes these bytes to a file. If the step has an answer, tells what the file holds instead.
fn hold_or_tell(
    alloc: Global,
    names: &Names,
    device: &mut MemDevice,
    step: Step,
    told: &mut Text,
) -> bool {
    let words = step.answer.unwrap_or(step.rest);
    let Some(bytes) = names.bytes(alloc, words) else {
        return false;
    };
    match step.answer {
        Some(answer) => tell_bytes(told, alloc, device, &bytes, answer),
        None => hold(device, &bytes),
    }
}

fn hold(device: &mut MemDevice, bytes: &[u8]) -> bool {
    bytes.len() < LONG && device.write_at(0, bytes).is_ok() && device.sync().is_ok()
}

fn fail(first: &mut MemDevice, second: &mut MemDevice, words: &str) -> Option<()> {
    let (one, other) = words.split_once(' ')?;
    first.fail_at(one.parse::<u64>().ok()?);
    second.fail_at(other.parse::<u64>().ok()?);
    Some(())
}

fn pick(word: &str) -> Option<Pick> {
    match word {
        "old" => Some(Pick::Old),
        "new" => Some(Pick::New),
        _ => Some(Pick::Bytes(u8::from_str_radix(word, 16).ok()?)),
    }
}

fn picks(words: &str) -> Option<(Pick, Pick)> {
    let (one, other) = words.split_once(' ')?;
    Some((pick(one)?, pick(other)?))
}

/// Crashes the machine of two files. No call is set to fail afterwards. Says whether the words are two picks.
pub(crate) fn both_crash(first: &mut MemDevice, second: &mut MemDevice, words: &str) -> bool {
    let Some((one, other)) = picks(words) else {
        return false;
    };
    first.fail_at(0);
    second.fail_at(0);
    first.crash(one);
    second.crash(other);
    true
}

/// Makes a step over an open store. Says whether there is such a step, and it could be made.
pub(crate) fn at_store(
    alloc: Global,
    names: &Names,
    store: &mut Store<MemDevice>,
    step: Step,
    told: &mut Text,
) -> bool {
    match step.verb {
        "note" => return note(alloc, names, store, step.rest, told),
        "advance" => advance(store, step.rest, told),
        "phase" => told.put_value(&store.phase(), ""),
        "frames" => told.put_value(&store.journal_len(), ""),
        "version" => told.put_value(&store.version(), ""),
        "room" => told.put_value(&store.room(), ""),
        "wanted" => told.put_value(&store.wants_snapshot(), ""),
        _ => return false,
    }
    true
}

fn advance(store: &mut Store<MemDevice>, words: &str, told: &mut Text) {
    for step in 0..words.parse::<u8>().unwrap_or(0) {
        if step > 0 {
            told.put(" ");
        }
        match store.advance() {
            Ok(advanced) => told.put_value(&advanced, ""),
            Err(fault) => told.put_value(&fault, ""),
        }
    }
}

// The effects whose records these words spell.
fn effects(alloc: Global, names: &Names, words: &str) -> Option<Vec<EffectIn<Global>>>
    ensures { IfSome result (λ effects. All HasRecord effects.items) }
{
    let records = names.bytes(alloc, words)?;
    read_effects(alloc, &records).ok()
}

// Notes the effect of a record, once or a number of times. Says whether the words spell just one record.
fn note(
    alloc: Global,
    names: &Names,
    store: &mut Store<MemDevice>,
    words: &str,
    told: &mut Text,
) -> bool {
    let (times, record) = words.split_once(" times ").unwrap_or(("1", words));
    let Some(effects) = effects(alloc, names, record) else {
        return false;
    };
    let is_one = match effects.as_slice() {
        [effect] => {
            note_times(store, effect, times.parse::<u32>().unwrap_or(0), told);
            true
        }
        _ => false,
    };
    drop(effects);
    is_one
}

fn note_times(store: &mut Store<MemDevice>, effect: &EffectIn<Global>, times: u32, told: &mut Text)
    requires { HasRecord effect.now }
{
    for _ in 0..times {
        if !store.room() {
            told.put("no room");
            return;
        }
        store.note(effect);
    }
}
