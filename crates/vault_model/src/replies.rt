//! What a session gets as a reply.
ghost use Rattle.std.specs.Prelude.{◌≡◌, IfOk};

use crate::{ClaimId, Listing, Name, NoMemory, Note, Path, PathItem, Standing};
use std::alloc::{Allocator, Global};
use thiserror::Error;

/// Why a command was refused. The line of a reply gives the refusal's number.
#[derive(Clone, Copy, Debug, PartialEq, Eq, Error)]
pub enum Refusal {
    #[error("no session")]
    NoSession,
    #[error("the session has joined already")]
    Joined,
    #[error("no such place")]
    NoPlace,
    #[error("the place exists")]
    Exists,
    #[error("the place is of the wrong kind")]
    WrongKind,
    #[error("the parent is covered by a held claim")]
    Covered(ClaimId),
    #[error("no such claim")]
    NoClaim,
    #[error("the claim is another designer's")]
    NotYours,
    #[error("the claim is not held")]
    NotHeld,
    #[error("a held claim is in the way")]
    Overlaps(ClaimId),
    #[error("the claim does not cover the place for change")]
    NotCovered,
    #[error("no item, or too many")]
    ItemCount,
    #[error("no such version")]
    NoVersion,
    #[error("a limit is reached")]
    Limit,
}

/// A refusal that leaves no entry in the history.
#[derive(Clone, Copy, Debug, PartialEq, Eq, Error)]
pub enum Outside {
    #[error("the line is no command")]
    BadLine,
    #[error("too many commands are under way")]
    Busy,
    #[error("want of memory")]
    NoMemory,
    #[error("a device call failed; the vault has to be opened again")]
    Broken,
}

/// The reply to `Show`: what is said of a claim. The parameter is the type of its list of items.
#[derive(Debug, PartialEq, Eq, Drop)]
pub struct ShownClaim<Items = Listing<PathItem, Global>> {
    pub id: ClaimId,
    /// Its owner; for a hold, the designer of its session.
    pub designer: Name,
    pub standing: Standing,
    /// Its items in their order, each with the path that its place has now.
    pub items: Items,
}

impl<A: Allocator> ShownClaim<Listing<PathItem, A>> {
    /// A copy of it in the memory of any allocator.
    fn copy<B: Allocator>(&self, alloc: B) -> Result<ShownClaim<Listing<PathItem, B>>, NoMemory>
        ensures { IfOk result (λ copy. copy ≡ self.now) }
    {
        Ok(ShownClaim {
            id: self.id,
            designer: self.designer,
            standing: self.standing,
            items: self.items.copy(alloc)?,
        })
    }
}

/// The reply to a command. The parameters are the types of its lists.
#[derive(Debug, PartialEq, Eq, Drop)]
pub enum Reply<
    Names = Listing<Name, Global>,
    Content = Listing<u8, Global>,
    Items = Listing<PathItem, Global>,
    Claims = Listing<ClaimId, Global>,
    Paths = Listing<Path, Global>,
> {
    /// The session of this number was opened.
    Session(u32),
    /// The place of this number was made.
    Place(u32),
    /// The claim is granted.
    Held(ClaimId),
    /// The first claim waits behind the second.
    Queued(ClaimId, ClaimId),
    /// The draft was saved.
    Saved,
    /// This number of drafts became versions, and the claim was given up.
    CheckedIn(u32),
    /// The claim was given up.
    Abandoned,
    /// The short claim was given up.
    Released,
    /// The names of the places right under one, ordered by the places' numbers.
    Children(Names),
    /// The content of a version, or of a draft.
    Content(Content),
    /// How many versions a part has.
    Versions(u32),
    /// The claim was given to a designer.
    Given,
    /// The claim got its new note.
    Noted,
    /// The note of a claim.
    NoteIs(Note),
    /// What is said of a claim.
    Shown(ShownClaim<Items>),
    /// The claims that look at a place or at one under it, in the order of the queue.
    ClaimsAt(Claims),
    /// The paths of the parts of which a claim has drafts, ordered by the parts' numbers.
    DraftsOf(Paths),
    /// The session was closed.
    Left,
    /// The command was refused. It changed nothing but its session's command count.
    Refused(Refusal),
}

/// A reply in an allocator's memory.
pub type ReplyIn<A> = Reply<
    Listing<Name, A>,
    Listing<u8, A>,
    Listing<PathItem, A>,
    Listing<ClaimId, A>,
    Listing<Path, A>,
>;

impl<A: Allocator> ReplyIn<A> {
    /// A copy of the reply in the memory of any allocator.
    pub fn copy<B: Allocator>(&self, alloc: B) -> Result<ReplyIn<B>, NoMemory>
        ensures { IfOk result (λ copy. copy ≡ self.now) }
    {
        Ok(match self {
            Reply::Session(number) => Reply::Session(*number),
            Reply::Place(number) => Reply::Place(*number),
            Reply::Held(id) => Reply::Held(*id),
            Reply::Queued(id, behind) => Reply::Queued(*id, *behind),
            Reply::Saved => Reply::Saved,
            Reply::CheckedIn(number) => Reply::CheckedIn(*number),
            Reply::Abandoned => Reply::Abandoned,
            Reply::Released => Reply::Released,
            Reply::Children(names) => Reply::Children(names.copy(alloc)?),
            Reply::Content(content) => Reply::Content(content.copy(alloc)?),
            Reply::Versions(number) => Reply::Versions(*number),
            Reply::Given => Reply::Given,
            Reply::Noted => Reply::Noted,
            Reply::NoteIs(note) => Reply::NoteIs(*note),
            Reply::Shown(shown) => Reply::Shown(shown.copy(alloc)?),
            Reply::ClaimsAt(claims) => Reply::ClaimsAt(claims.copy(alloc)?),
            Reply::DraftsOf(paths) => Reply::DraftsOf(paths.copy(alloc)?),
            Reply::Left => Reply::Left,
            Reply::Refused(refusal) => Reply::Refused(*refusal),
        })
    }
}
