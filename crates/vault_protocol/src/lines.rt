//! What a line of a script is.

ghost use Rattle.std.specs.Prelude.{◌≡◌, ◌+◌, ◌<◌, ◌≤◌, ◌-◌, ◌==◌, length, position, IfSome, ℕ};
ghost use Rattle.std.specs.Option.{option_map};
ghost use Rattle.vault_protocol.specs.Limits.{last_connection};
ghost use Rattle.vault_protocol.specs.Script.{byte_pick, connection_in, connection_line, crash_line, digit_in, numbered_line, pick_in};

use crate::limits::LAST_CONNECTION;
use std::marker::Model;
use vault_device::Pick;
use vault_lines::read_number;

/// A connection of a script, by its number.
#[derive(Clone, Copy)]
pub(crate) struct Connection {
    number: u32,
}

impl Model for Connection {
    ghost use Rattle.std.specs.Prelude.{ℕ, ◌≤◌};
    ghost use Rattle.vault_protocol.specs.Limits.{last_connection};

    ghost Value = { ℕ };

    ghost view = { λ c. c.number };

    ghost inverse = { λ n. record { number = n } };

    // Invariant 1 of lib.rt.
    ghost invariant = { λ c. (1 ≤ c.number) × (c.number ≤ last_connection) };
}

impl Connection {
    /// The number.
    pub fn number(self) -> u32
        ensures { result ≡ self }
    {
        self.number
    }

    /// Its place in a list of all connections.
    pub fn place(self) -> usize
        ensures place { result ≡ self - 1 }
        ensures within { result < last_connection }
    {
        self.number as usize - 1
    }
}

/// Where the first space stands.
fn first_space(bytes: &[u8]) -> Option<usize>
    ensures place { result ≡ position (λ b. b == 32) bytes.now }
    ensures within { IfSome result (λ at. at < length bytes.now) }
{
    bytes.iter().position(|byte| *byte == b' ')
}

/// The connection whose number the word is.
fn read_connection(word: &[u8]) -> Option<Connection>
    ensures { result ≡ connection_in word.now }
{
    match read_number(word) {
        Some(number) if 1 <= number && number <= LAST_CONNECTION => Some(Connection { number }),
        _ => None,
    }
}

/// The connection whose number stands before the space, and the line behind the space.
fn cut_number(rest: &[u8]) -> Option<(Connection, &[u8])>
    ensures { option_map (λ found. (found.0, found.1.now)) result ≡ numbered_line rest.now }
{
    let at = first_space(rest)?;
    let (word, _) = rest.split_at(at);
    let connection = read_connection(word)?;
    let (_, line) = rest.split_at(at + 1);
    Some((connection, line))
}

/// The connection of a line, and what it says.
pub(crate) fn connection_of(line: &[u8]) -> Option<(Connection, &[u8])>
    ensures { option_map (λ found. (found.0, found.1.now)) result ≡ connection_line line.now }
{
    match line {
        [b'@', rest @ ..] => cut_number(rest),
        _ => None,
    }
}

/// The value of a hexadecimal digit, of lower case.
fn read_digit(byte: u8) -> Option<u8>
    ensures value { result ≡ digit_in byte }
    ensures below { IfSome result (λ digit. digit < 16) }
{
    match byte {
        b'0'..=b'9' => Some(byte - b'0'),
        b'a'..=b'f' => Some(byte - b'a' + 10),
        _ => None,
    }
}

/// The pick of one byte, by its two digits.
fn read_byte_pick(word: &[u8]) -> Option<Pick>
    ensures { result ≡ byte_pick word.now }
{
    let [high, low] = word else {
        return None;
    };
    let high = read_digit(*high)?;
    let low = read_digit(*low)?;
    Some(Pick::Bytes(16 * high + low))
}

/// The pick that the word names.
fn read_pick(word: &[u8]) -> Option<Pick>
    ensures { result ≡ pick_in word.now }
{
    if word == b"old".as_slice() {
        return Some(Pick::Old);
    }
    if word == b"new".as_slice() {
        return Some(Pick::New);
    }
    read_byte_pick(word)
}

/// The pick of a `!crash` line.
pub(crate) fn crash_of(line: &[u8]) -> Option<Pick>
    ensures { result ≡ crash_line line.now }
{
    let word = line.strip_prefix(b"!crash ")?;
    read_pick(word)
}
