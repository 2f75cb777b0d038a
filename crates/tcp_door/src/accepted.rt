//! A connection that was accepted.
ghost use Rattle.std.specs.Prelude.{◌≡◌, []};

use crate::socket::Socket;

/// An accepted connection, with its number. Nothing was written to it.
#[derive(Drop)]
pub struct Accepted {
    /// Connections are numbered from 1, and the number wraps.
    pub number: u32,
    /// Its socket.
    pub stream: Socket,
    ghost silent: { stream ≡ [] },
}
