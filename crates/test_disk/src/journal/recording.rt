ghost use Rattle.std.specs.Prelude.{◌≤◌};
ghost use Rattle.vault_journal.specs.Spelling.{HasRecord, longest_content};

use std::alloc::{Allocator, Global};
use vault_journal::{Damage, Frame, read_effects, record_len};
use vault_model::{Effect, EffectIn, Listing, PlaceId};

/// Whether these bytes are read as the effect and nothing else.
fn is_read_as(memory: Global, bytes: &[u8], effect: &EffectIn<Global>) -> bool {
    let Ok(effects) = read_effects(memory, bytes) else {
        return false;
    };
    let is_so = matches!(effects.as_slice(), [read] if read == effect);
    drop(effects);
    is_so
}

/// Whether the effect's record is these bytes.
fn is_written_as(memory: Global, effect: &EffectIn<Global>, bytes: &[u8]) -> bool
    requires { HasRecord effect.now }
{
    let Ok(mut frame) = Frame::new(memory) else {
        return false;
    };
    let has_room = push_within(&mut frame, effect);
    let is_so = matches!(frame.body(), [_, _, _, _, records @ .., 0] if records == bytes);
    drop(frame);
    has_room && is_so && record_len(effect) == bytes.len()
}

/// Whether the effect's record is these bytes, and they are read as the effect and nothing else.
pub(crate) fn is_recorded(memory: Global, effect: EffectIn<Global>, bytes: &[u8]) -> bool
    requires { HasRecord effect }
{
    let is_so = is_written_as(memory, &effect, bytes) && is_read_as(memory, bytes, &effect);
    drop(effect);
    is_so
}

/// Bytes, the byte that fills them up, and the length that they are filled up to.
pub(crate) type Filled = (&'static [u8], u8, usize);

/// Whether these bytes are read.
pub(crate) fn is_read(memory: Global, record: &[u8]) -> bool {
    let Ok(effects) = read_effects(memory, record) else {
        return false;
    };
    drop(effects);
    true
}

/// Whether these bytes are damage from their first byte on, where they stand behind a check-in's record.
pub(crate) fn is_spoiled(memory: Global, record: &[u8]) -> bool {
    let mut all = [0; 1100];
    let len = record.len();
    if len > 1095 {
        return false;
    }
    all[..5].copy_from_slice(b"\x05\0\0\0\x01");
    all[5..5 + len].copy_from_slice(record);
    match read_effects(memory, &all[..5 + len]) {
        Ok(effects) => {
            drop(effects);
            false
        }
        Err(damage) => damage == Damage::At(5),
    }
}

/// Whether a filled-up record is read if it is good, and is damage if it isn't.
pub(crate) fn is_filled(memory: Global, (front, byte, len): &Filled, is_good: bool) -> bool {
    let mut all = [*byte; 1100];
    if front.len() > 1100 || *len > 1100 {
        return false;
    }
    all[..front.len()].copy_from_slice(front);
    let record = &all[..*len];
    (is_good && is_read(memory, record)) || (!is_good && is_spoiled(memory, record))
}

/// Pushes where there is room, and says whether there was.
pub(crate) fn push_within<A: Allocator>(frame: &mut Frame<A>, effect: &EffectIn<Global>) -> bool
    requires { HasRecord effect.now }
{
    let fits = frame.fits(effect);
    if fits {
        frame.push_effect(effect);
    }
    fits
}

/// Pushes an effect with a content of `len` bytes, `times` times, and says whether there was room.
pub(crate) fn push_saved<A: Allocator>(
    memory: Global,
    frame: &mut Frame<A>,
    len: usize,
    times: u8,
) -> bool
    requires { len ≤ longest_content }
{
    let Ok(content) = vec![in memory; b'x'; len] else {
        return false;
    };
    let effect = Effect::Saved(1, PlaceId(0), Listing::from_vec(content));
    let has_room = push_times(frame, &effect, times);
    drop(effect);
    has_room
}

// Pushes an effect `times` times, and says whether there was room.
fn push_times<A: Allocator>(frame: &mut Frame<A>, effect: &EffectIn<Global>, times: u8) -> bool
    requires { HasRecord effect.now }
{
    for _ in 0..times {
        if !push_within(frame, effect) {
            return false;
        }
    }
    true
}
