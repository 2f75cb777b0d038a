//! What a command changes in the durable vault.
ghost use Rattle.std.specs.Prelude.{◌≡◌, IfOk};

use crate::{Items, Listing, Name, NoMemory, Note, PlaceId};
use std::alloc::{Allocator, Global};

/// The change that a command made, as the journal keeps it. The parameter is the type of a saved content.
#[derive(Debug, PartialEq, Eq, Drop)]
pub enum Effect<Content = Listing<u8, Global>> {
    /// A place was made under this parent, by this name.
    Made(PlaceId, Name),
    /// An assembly was made under this parent, an assembly, by this name.
    Nested(PlaceId, Name),
    /// The long claim of this number was asked for by a designer.
    Asked(u32, Name, Items),
    /// The long claim of this number got these items as well, and went to the front of the queue.
    Extended(u32, Items),
    /// The long claim of this number saved a draft of a part.
    Saved(u32, PlaceId, Content),
    /// The drafts of the long claim of this number became versions, and the claim was given up.
    CheckedIn(u32),
    /// The long claim of this number was given up.
    Abandoned(u32),
    /// The long claim of this number was given to a designer.
    Given(u32, Name),
    /// The long claim of this number got this note.
    Noted(u32, Note),
}

/// An effect in an allocator's memory.
pub type EffectIn<A> = Effect<Listing<u8, A>>;

impl<A: Allocator> EffectIn<A> {
    /// A copy of the effect in the memory of any allocator.
    pub fn copy<B: Allocator>(&self, alloc: B) -> Result<EffectIn<B>, NoMemory>
        ensures { IfOk result (λ copy. copy ≡ self.now) }
    {
        Ok(match self {
            Effect::Made(parent, name) => Effect::Made(*parent, *name),
            Effect::Nested(parent, name) => Effect::Nested(*parent, *name),
            Effect::Asked(number, designer, items) => Effect::Asked(*number, *designer, *items),
            Effect::Extended(number, items) => Effect::Extended(*number, *items),
            Effect::Saved(number, place, content) => {
                Effect::Saved(*number, *place, content.copy(alloc)?)
            }
            Effect::CheckedIn(number) => Effect::CheckedIn(*number),
            Effect::Abandoned(number) => Effect::Abandoned(*number),
            Effect::Given(number, designer) => Effect::Given(*number, *designer),
            Effect::Noted(number, note) => Effect::Noted(*number, *note),
        })
    }
}
