//! Claims and what they are made of.
use crate::{ClaimId, Intent, Items, Name, Note, Path, PlaceId};

/// An intent at a place.
#[derive(Clone, Copy, Debug, PartialEq, Eq)]
pub struct Item {
    pub intent: Intent,
    pub place: PlaceId,
}

/// An intent at a path, as a command names it.
#[derive(Clone, Copy, Debug, PartialEq, Eq)]
pub struct PathItem {
    pub intent: Intent,
    pub path: Path,
}

/// The owner of a claim: a designer owns a long one, in any session; one session owns a short one.
#[derive(Clone, Copy, Debug, PartialEq, Eq)]
pub enum Owner {
    Designer(Name),
    Session(u32),
}

/// Whether a claim is granted (held), or waits behind another (queued).
#[derive(Clone, Copy, Debug, PartialEq, Eq)]
pub enum Standing {
    Held,
    Queued(ClaimId),
}

/// A claim in the queue. A hold has no note.
#[derive(Clone, Copy, Debug, PartialEq, Eq)]
pub struct Claim {
    pub id: ClaimId,
    pub owner: Owner,
    pub items: Items,
    pub note: Note,
}
