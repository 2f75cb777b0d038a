//! The answers of redeeming and of forgetting a ticket, and of retiring an entry.

use crate::{Receipt, Ticket};
use std::alloc::{Allocator, Global};

/// What redeeming a ticket gave. Where it isn't a receipt, the ticket comes back.
pub enum Redeemed<A: Allocator = Global> {
    /// The reply. The entry is closed.
    Told(Receipt<A>),
    /// The entry isn't durable yet.
    NotYet(Ticket<A>),
    /// The ticket names no open entry of this life.
    Stranger(Ticket<A>),
    /// The entry isn't durable, and a device call failed: a later opening shows what became of it.
    Unknown(Ticket<A>),
    /// Memory for a copy of the reply was refused.
    NoMemory(Ticket<A>),
}

/// What forgetting a ticket did.
#[derive(Clone, Copy, Debug, PartialEq, Eq)]
pub enum Forgotten {
    /// The entry is closed.
    Here,
    /// The ticket named no open entry of this life.
    Stranger,
}

/// What retiring did.
#[derive(Clone, Copy, Debug, PartialEq, Eq)]
pub enum Retired {
    /// The oldest kept entry was dropped.
    One,
    /// The oldest kept entry isn't durable or its ticket is outstanding, or none is kept.
    Nothing,
}
