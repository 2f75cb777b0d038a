//! The door of a server over TCP: who comes, who waits for a place, the bytes of a connection, and how it is given up.
//!
//! Promises: a `Wire` hands on the bytes that its stream gives, as they are, up to the first one that shows another protocol, and its
//! end only where no more comes; it writes what it is given. One that is turned away is told `ERR 80` and nothing else; to one whose
//! connection is over nothing is written. All this over any `Stream` whose bytes are known. Of a `Socket` contracts see the bytes that its
//! calls took, and of a `Wire` those that it gave (`Passed`); to one that the door hands on nothing was written. Of the door else only
//! safety is proved.
//! Stands on: line_inlet, first_line, vault_lines. Must not know: the vault, what a line says but its first bytes, conversations.
//!
//! Only tested, by vault_server's tests: a client that reads late gets all its replies; one that waits too long for a place is told so, and
//! ended; an accept fault, and that it is reported at once; how many connections an address may have. That the system's calls
//! take and give what a `Socket` says.
//! Neither: that anybody is let in or woken; fairness, time; what the channel of connections delivers, and what a TCP peer gets.
//! Start at: door.rt (who comes), stream.rt (a connection's bytes), socket.rt (the system's calls).
#![tactic(auto)]

mod accepted;
mod bells;
mod door;
mod moments;
mod passed;
mod socket;
mod stream;

pub use accepted::Accepted;
pub use bells::{Bell, ring_others};
pub use door::{Crowd, Door, DoorError, DoorOptions, News};
pub use moments::first_of;
pub use passed::Passed;
pub use socket::Socket;
pub use stream::{Drain, Drained, Stream, Unread, Wire, turn_away};
