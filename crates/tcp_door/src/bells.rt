//! What wakes the threads that serve connections.

use mio::{Poll, Token, Waker};
use std::alloc::Allocator;
use std::io;
use std::sync::atomic::{AtomicBool, Ordering};

// The token of a thread's bell, which no connection has.
const TOKEN: Token = Token(usize::MAX);

/// Wakes one thread out of its poll.
#[derive(Drop)]
pub struct Bell {
    waker: Waker,
    // Whether its thread has connections.
    has_connections: AtomicBool,
}

impl Bell {
    /// The bell of a poll.
    pub fn new(poll: &Poll) -> io::Result<Bell> {
        Ok(Bell {
            waker: Waker::new(poll.registry(), TOKEN)?,
            has_connections: AtomicBool::new(false),
        })
    }

    /// Whether a token is the bell's.
    pub fn is_token(token: Token) -> bool {
        token == TOKEN
    }

    /// Wakes the thread. If a wake can't be added to those that are pending, a pending one wakes it.
    pub fn ring(&self) {
        let _ = self.waker.wake();
    }

    /// Notes whether the thread has connections. To be called before it takes a step of theirs.
    pub fn attend(&self, has_connections: bool) {
        self.has_connections
            .store(has_connections, Ordering::SeqCst);
    }
}

/// Rings the bells of the other threads that have connections.
pub fn ring_others<A: Allocator>(bells: &Vec<Bell, A>, own: usize) {
    for (number, bell) in bells.iter().enumerate() {
        if number != own && bell.has_connections.load(Ordering::SeqCst) {
            bell.ring();
        }
    }
}
