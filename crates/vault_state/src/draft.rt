//! Drafts: new contents that a check-in puts on the shelf.
use crate::{Listing, PlaceId};
use std::alloc::Global;

/// A new content of a place. The parameter is the type of the content.
#[derive(Debug, PartialEq, Eq, Drop)]
pub struct Draft<Content = Listing<u8, Global>> {
    pub place: PlaceId,
    pub content: Content,
}

/// A draft in an allocator's memory.
pub type DraftIn<A> = Draft<Listing<u8, A>>;

/// Drafts in order, with their contents in an allocator's memory.
pub type Drafts<A> = Listing<DraftIn<A>, A>;
