//! How far a commit or a snapshot has come.

/// How far a commit or a snapshot has come: which step comes next.
#[derive(Clone, Copy, Debug, PartialEq, Eq)]
pub enum Phase {
    /// No commit and no snapshot is under way.
    Idle,
    /// The body of a frame is written.
    Written,
    /// The body is synced.
    Bodied,
    /// The frame's commit mark (gate) is written, and a crash may leave it open or closed.
    Opening,
    /// A snapshot was begun.
    Start,
    /// The head gate of the spare file is written closed.
    Closing,
    /// The spare's gate is synced, and this many bytes of the snapshot are still to write.
    Writing(u64),
    /// The snapshot is written.
    Filled,
    /// The snapshot is synced.
    Ready,
    /// The spare's head gate is written, and a crash may leave it open or closed.
    SnapOpening,
}

/// What a step did.
#[derive(Clone, Copy, Debug, PartialEq, Eq)]
pub enum Advanced {
    /// Nothing, since nothing is to be done.
    Idle,
    /// One step, and nothing more is durable.
    Moved,
    /// The last step: more is durable.
    Settled,
    /// Nothing, since a device call failed earlier.
    Broken,
}
