//! Lines that aren't printed yet.

use crate::lines::Connection;
use group_commit::Ticket;
use std::alloc::Allocator;
use vault_model::Listing;

/// A line that isn't printed yet.
pub(crate) enum Waiting<A: Allocator> {
    /// Its text is known.
    Known(Listing<u8, A>),
    /// A connection's command, by its ticket.
    Awaited(Connection, Ticket<A>),
}
