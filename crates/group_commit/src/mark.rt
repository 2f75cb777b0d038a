//! What became of a ticket.

/// What became of the ticket of an entry in the history.
#[derive(Clone, Copy, Debug)]
pub enum Mark {
    /// The ticket is outstanding.
    Open,
    /// The reply was handed out for it.
    Told,
    /// It was given up.
    Forgotten,
}
