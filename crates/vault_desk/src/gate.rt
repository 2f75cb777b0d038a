//! Points at which a test can hold a thread, and what a server reports at once.

use std::io;

/// Where a thread stands, with the number of its connection.
#[derive(Debug, Clone, Copy, PartialEq, Eq)]
pub enum Point {
    /// A worker is about to read a line.
    Read(u32),
    /// A worker keeps a `wait`, and stages it later.
    Kept(u32),
    /// A worker staged a command.
    Staged(u32),
    /// A worker has the receipt, and hasn't written its text yet.
    Told(u32),
    /// The flusher is about to pump.
    Pump,
}

/// What is called at each point. No lock is held there. A server's thread that is held serves none of its other connections meanwhile.
pub trait Gate {
    /// Returns once the thread may go on.
    fn at(&self, point: Point);

    /// A server can accept no more connections, and ends with those that it has. `_why` is the system's error.
    fn accepts_no_more(&self, _why: io::Error) {}
}

/// Holds nobody.
#[derive(Debug, Clone, Copy, PartialEq, Eq)]
pub struct OpenGate;

impl Gate for OpenGate {
    fn at(&self, _point: Point) {}
}
