//! A socket: how it is set up at the kernel, and what is written to it.
ghost use Rattle.std.specs.Prelude.{◌≡◌, [], Some};
ghost use Rattle.libc.specs.Net.{SockOption};

use crate::passed::Passed;
use crate::stream::Stream;
use libc::net as c;
use std::io::{self, Read, Write};
use std::marker::Model;
use std::net::{Shutdown, TcpStream};
use std::os::fd::AsRawFd;

// Keep-alive, in seconds: the kernel probes a client that said nothing for a minute, six times, ten seconds apart, and then ends the
// connection. It also ends one that takes nothing of what was sent for as long: the last number, in milliseconds.
const FIRST_ASKED: u32 = 60;

const ASKED_AGAIN: u32 = 10;

const ASKED: u32 = 6;

const LONGEST_UNTAKEN: u32 = 120_000;

// Sets an option of a connection to a number. The kernel may refuse it, and nothing depends on it.
fn set(stream: &TcpStream, level: i32, option: i32, number: u32)
    requires { SockOption level option }
{
    let mut value = [0; 16];
    value[..4].copy_from_slice(&number.to_ne_bytes());
    let _ = unsafe { c::setsockopt(stream.as_raw_fd(), level, option, &value, 4) };
}

// Has the kernel end a connection whose client is gone without a word.
fn keep_alive(stream: &TcpStream) {
    set(stream, c::IPPROTO_TCP, c::TCP_KEEPIDLE, FIRST_ASKED);
    set(stream, c::IPPROTO_TCP, c::TCP_KEEPINTVL, ASKED_AGAIN);
    set(stream, c::IPPROTO_TCP, c::TCP_KEEPCNT, ASKED);
    set(stream, c::IPPROTO_TCP, c::TCP_USER_TIMEOUT, LONGEST_UNTAKEN);
    set(stream, c::SOL_SOCKET, c::SO_KEEPALIVE, 1);
}

/// The socket of an accepted connection: a read or a write that would wait says so. Contracts see the bytes that it took.
///
/// No contract of the standard library says what a client sends or gets. That the system's calls take the bytes that `write` notes, and that
/// nothing else is written, is to be read here.
#[derive(Drop)]
pub struct Socket {
    stream: TcpStream,
    // All bytes that it took.
    told: Passed,
}

impl Model for Socket {
    ghost use Rattle.std.specs.Prelude.{ℕ, List};

    ghost Value = { List ℕ };

    ghost view = { λ s. s.told.bytes };
}

impl Socket {
    // Nothing was written to it yet.
    pub(crate) fn new(stream: TcpStream) -> Socket
        ensures { result ≡ [] }
    {
        Socket {
            stream,
            told: Passed::new(),
        }
    }

    // Prepares it.
    pub(crate) fn prepare(&self) -> io::Result<()> {
        // A reply goes out at once, also to a client that sent several lines.
        let _ = self.stream.set_nodelay(true);
        keep_alive(&self.stream);
        self.stream.set_nonblocking(true)
    }

    /// Its number at the kernel.
    pub fn fd(&self) -> i32 {
        self.stream.as_raw_fd()
    }
}

// Nothing is claimed of the bytes that will come.
impl Stream for Socket {
    ghost contents = { λ s. Some s };

    fn read(&mut self, buf: &mut [u8]) -> io::Result<usize> {
        Read::read(&mut self.stream, buf)
    }

    fn write(&mut self, buf: &[u8]) -> io::Result<usize> {
        let count = Write::write(&mut self.stream, buf)?;
        self.told.note(&buf[..count]);
        Ok(count)
    }

    fn end(&mut self) -> io::Result<()> {
        self.stream.shutdown(Shutdown::Write)
    }
}
