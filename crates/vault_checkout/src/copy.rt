//! A book copied.
ghost use Rattle.std.specs.Prelude.{◌≡◌, IfOk};

use crate::book::Book;
use check_outs::copy_check_outs;
use std::alloc::Allocator;
use vault_model::NoMemory;

impl<A: Allocator + Copy> Book<A> {
    /// A copy of the book, in memory from the same allocator.
    pub fn copy(&self) -> Result<Book<A>, NoMemory>
        ensures { IfOk result (λ copy. copy ≡ self.now) }
    {
        // Each part is dropped by a call: at a `?`, how it is taken apart would be proved anew.
        let alloc = *self.check_outs.allocator();
        let tree = self.tree.copy()?;
        let Ok(shelf) = self.shelf.copy() else {
            drop(tree);
            return Err(NoMemory);
        };
        let Ok(line) = self.line.copy() else {
            drop(tree);
            drop(shelf);
            return Err(NoMemory);
        };
        let Ok(check_outs) = copy_check_outs(alloc, &self.check_outs) else {
            drop(tree);
            drop(shelf);
            drop(line);
            return Err(NoMemory);
        };
        let Ok(sessions) = Vec::from_slice(alloc, &self.sessions) else {
            drop(tree);
            drop(shelf);
            drop(line);
            drop(check_outs);
            return Err(NoMemory);
        };
        Ok(Book {
            tree,
            shelf,
            line,
            check_outs,
            sessions,
            last_session: self.last_session,
            door_count: self.door_count,
        })
    }
}
