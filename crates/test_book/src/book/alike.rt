//! Whether two books show the same.
use std::alloc::Allocator;
use vault_checkout::Book;
use vault_model::ClaimId::{Long, Short};
use vault_model::{Claim, DraftIn, Path, PlaceId, Standing};

/// Numbers and paths of places to look for in both books. The books lack some of them.
static LOOKED_FOR: [(u32, &str); 8] = [
    (0, "/"),
    (1, "/e"),
    (2, "/e/b"),
    (3, "/e/b/p"),
    (4, "/e/b/q"),
    (5, "/e/b/s"),
    (6, "/e/f"),
    (7, "/f"),
];

/// What a book shows of a number: the claim at this position, the standings of the long and the short claim of this number, the
/// drafts of the check-out, and the first two versions of the place.
type Shown<'a, A> = (
    Option<&'a Claim>,
    Option<Standing>,
    Option<Standing>,
    &'a [DraftIn<A>],
    Option<&'a [u8]>,
    Option<&'a [u8]>,
);

fn shown<A: Allocator + Copy>(book: &Book<A>, number: u32) -> Shown<'_, A> {
    let line = book.line();
    let shelf = book.shelf();
    (
        line.at(number as usize),
        line.standing(Long(number)),
        line.standing(Short(number)),
        book.drafts(number),
        shelf.fetch(PlaceId(number), 1),
        shelf.fetch(PlaceId(number), 2),
    )
}

/// Whether two books have the same place by this path.
fn are_places_alike<A: Allocator + Copy>(book: &Book<A>, other: &Book<A>, path: &str) -> bool {
    let Some(path) = Path::read(path.as_bytes()) else {
        return false;
    };
    book.tree().find(&path) == other.tree().find(&path)
}

/// The number of places and of claims in a book, and the last numbers given to long and to short claims.
pub(super) fn counts<A: Allocator + Copy>(book: &Book<A>) -> (usize, usize, u32, u32) {
    let line = book.line();
    (
        book.tree().len(),
        line.len(),
        line.last_long(),
        line.last_short(),
    )
}

/// Whether two books show the same, apart from their sessions.
pub(super) fn are_alike<A: Allocator + Copy>(book: &Book<A>, other: &Book<A>) -> bool {
    for (number, path) in &LOOKED_FOR {
        if shown(book, *number) != shown(other, *number) || !are_places_alike(book, other, path) {
            return false;
        }
    }
    counts(book) == counts(other) && book.shelf().weight() == other.shelf().weight()
}
