//! What a session may ask.
ghost use Rattle.std.specs.Prelude.{◌≡◌, IfOk};

use crate::{ClaimId, Listing, Name, NoMemory, Path, PathItem};
use std::alloc::{Allocator, Global};

/// A command of a session. The parameters are the types of its list of items and of its bytes.
#[derive(Debug, PartialEq, Eq, Drop)]
pub enum Command<Wanted = Listing<PathItem, Global>, Content = Listing<u8, Global>> {
    /// Opens a session in a designer's name.
    Join(Name),
    /// Makes a place, in the name of the long claim of this number, if there is one.
    Make(Path, Option<u32>),
    /// Makes an assembly inside an assembly, in the name of the long claim of this number, if there is one.
    Nest(Path, Option<u32>),
    /// Asks for a long claim on these items.
    CheckOut(Wanted),
    /// Asks for more items for a granted claim.
    Extend(ClaimId, Wanted),
    /// Saves a draft of a part for the long claim of this number.
    Save(u32, Path, Content),
    /// Makes versions of the drafts of the long claim of this number, and gives it up.
    CheckIn(u32),
    /// Gives up the long claim of this number.
    Abandon(u32),
    /// Asks for a short claim on these items.
    Hold(Wanted),
    /// Gives up the short claim of this number.
    Release(u32),
    /// Asks how a claim stands.
    State(ClaimId),
    /// Asks for the names of the places right under a place.
    List(Path),
    /// Asks for the content of a part's version.
    Fetch(Path, u32),
    /// Asks how many versions a part has.
    Count(Path),
    /// Gives the long claim of this number to a designer.
    Give(u32, Name),
    /// Sets the note of the long claim of this number.
    Note(u32, Content),
    /// Asks for the note of the long claim of this number.
    ReadNote(u32),
    /// Asks whose a claim is, how it stands and what its items are.
    Show(ClaimId),
    /// Asks which claims look at a place, or at one under it.
    Claims(Path),
    /// Asks for the parts of which the long claim of this number has drafts.
    Drafts(u32),
    /// Asks for the content of the draft of a part that the long claim of this number has.
    Draft(u32, Path),
    /// Asks how a claim stands, once it is granted or gone.
    Await(ClaimId),
    /// Closes the session.
    Leave,
}

/// A command in an allocator's memory.
pub type CommandIn<A> = Command<Listing<PathItem, A>, Listing<u8, A>>;

impl<A: Allocator> CommandIn<A> {
    /// A copy of the command in the memory of any allocator.
    pub fn copy<B: Allocator>(&self, alloc: B) -> Result<CommandIn<B>, NoMemory>
        ensures { IfOk result (λ copy. copy ≡ self.now) }
    {
        Ok(match self {
            Command::Join(name) => Command::Join(*name),
            Command::Make(path, claim) => Command::Make(*path, *claim),
            Command::Nest(path, claim) => Command::Nest(*path, *claim),
            Command::CheckOut(wanted) => Command::CheckOut(wanted.copy(alloc)?),
            Command::Extend(id, wanted) => Command::Extend(*id, wanted.copy(alloc)?),
            Command::Save(number, path, content) => {
                Command::Save(*number, *path, content.copy(alloc)?)
            }
            Command::CheckIn(number) => Command::CheckIn(*number),
            Command::Abandon(number) => Command::Abandon(*number),
            Command::Hold(wanted) => Command::Hold(wanted.copy(alloc)?),
            Command::Release(number) => Command::Release(*number),
            Command::State(id) => Command::State(*id),
            Command::List(path) => Command::List(*path),
            Command::Fetch(path, version) => Command::Fetch(*path, *version),
            Command::Count(path) => Command::Count(*path),
            Command::Give(number, designer) => Command::Give(*number, *designer),
            Command::Note(number, text) => Command::Note(*number, text.copy(alloc)?),
            Command::ReadNote(number) => Command::ReadNote(*number),
            Command::Show(id) => Command::Show(*id),
            Command::Claims(path) => Command::Claims(*path),
            Command::Drafts(number) => Command::Drafts(*number),
            Command::Draft(number, path) => Command::Draft(*number, *path),
            Command::Await(id) => Command::Await(*id),
            Command::Leave => Command::Leave,
        })
    }
}
