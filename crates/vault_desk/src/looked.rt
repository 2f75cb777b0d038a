//! What looking for the reply to a command comes to.

use crate::cause::Cause;
use group_commit::{Receipt, Ticket};
use std::alloc::Allocator;

/// What looking for the reply to a command came to. Unless it is a receipt, the ticket comes back.
pub(crate) enum Looked<A: Allocator> {
    /// The reply.
    Told(Receipt<A>),
    /// It isn't known yet.
    NotYet(Ticket<A>),
    /// It will never be known. The cause is answered in its place.
    Lost(Ticket<A>, Cause),
    /// Memory for it was refused.
    NoMemory(Ticket<A>),
}
