//! Effects as plain values, and their kinds.

use std::alloc::{Allocator, Global};
use test_memory::Outcome;
use vault_checkout::{ApplyError, Book};
use vault_model::{Effect, Intent, Item, Items, Listing, Name, Note, PlaceId};

/// The kind of an effect, and the number of its claim.
pub(super) type Kind = (&'static str, u32);

/// The kind if there is no effect.
pub(super) const NONE: Kind = ("", 0);

pub(super) const MADE: Kind = ("Made", 0);

pub(super) const NESTED: Kind = ("Nested", 0);

/// The kind of an effect.
pub(super) fn kind_of<C>(effect: &Effect<C>) -> Kind {
    match effect {
        Effect::Made(_, _) => MADE,
        Effect::Nested(_, _) => NESTED,
        Effect::Asked(number, _, _) => ("Asked", *number),
        Effect::Extended(number, _) => ("Extended", *number),
        Effect::Saved(number, _, _) => ("Saved", *number),
        Effect::CheckedIn(number) => ("CheckedIn", *number),
        Effect::Abandoned(number) => ("Abandoned", *number),
        Effect::Given(number, _) => ("Given", *number),
        Effect::Noted(number, _) => ("Noted", *number),
    }
}

/// An effect as plain values. A claim's items are all alike: a row has their number, their intent and
/// their place.
#[derive(Clone, Copy)]
pub(super) enum Row {
    Made(u32, &'static str),
    Nested(u32, &'static str),
    Asked(u32, usize, Intent, u32),
    Extended(u32, usize, Intent, u32),
    Saved(u32, u32, usize),
    CheckedIn(u32),
    Abandoned(u32),
    Given(u32),
    Noted(u32),
}

/// This number of items of a place, 8 at most.
fn items(count: usize, intent: Intent, place: u32) -> Items {
    let mut items = Items::new();
    for _ in 0..count {
        if items.len() >= 8 {
            return items;
        }
        items.push(Item {
            intent,
            place: PlaceId(place),
        });
    }
    items
}

/// The name in an effect: a new place's own, ben's for a check-out that is given, else anna's.
fn name(row: Row) -> Option<Name> {
    let text = match row {
        Row::Made(_, text) | Row::Nested(_, text) => text,
        Row::Given(_) => "ben",
        _ => "anna",
    };
    Name::read(text.as_bytes())
}

/// An effect that saves this number of zeros.
fn saved(memory: Global, number: u32, place: u32, count: usize) -> Option<Effect> {
    let Ok(zeros) = vec![in memory; 0u8; count] else {
        return None;
    };
    Some(Effect::Saved(number, PlaceId(place), Listing::from_vec(zeros)))
}

/// The effect of a row. A note is empty.
fn effect(memory: Global, row: Row) -> Option<Effect> {
    let Some(name) = name(row) else {
        return None;
    };
    let effect = match row {
        Row::Made(parent, _) => Effect::Made(PlaceId(parent), name),
        Row::Nested(parent, _) => Effect::Nested(PlaceId(parent), name),
        Row::Asked(number, count, intent, place) => {
            Effect::Asked(number, name, items(count, intent, place))
        }
        Row::Extended(number, count, intent, place) => {
            Effect::Extended(number, items(count, intent, place))
        }
        Row::Saved(number, place, count) => return saved(memory, number, place, count),
        Row::CheckedIn(number) => Effect::CheckedIn(number),
        Row::Abandoned(number) => Effect::Abandoned(number),
        Row::Given(number) => Effect::Given(number, name),
        Row::Noted(number) => Effect::Noted(number, Note::new()),
    };
    Some(effect)
}

/// Tries to apply the effect of a row. If there is memory, it must give this result.
pub(super) fn applies<A: Allocator + Copy>(
    memory: Global,
    book: &mut Book<A>,
    row: Row,
    want: Result<(), ApplyError>,
) -> Outcome {
    let Some(effect) = effect(memory, row) else {
        return Outcome::Wrong;
    };
    let told = book.apply(&effect);
    drop(effect);
    if told == Err(ApplyError::NoMemory) {
        return Outcome::Refused;
    }
    Outcome::done(told == want)
}
