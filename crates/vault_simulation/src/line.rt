//! Lines that spell commands, put together word by word.

use itoa::Buffer;
use std::alloc::Global;

/// A line. If memory for it runs out, it is cut short.
#[derive(Drop)]
pub(crate) struct Line {
    bytes: Vec<u8>,
}

// The hexadecimal digits.
const DIGITS: &[u8; 16] = b"0123456789abcdef";

fn digit(value: u8) -> u8 {
    DIGITS[(value % 16) as usize]
}

impl Line {
    /// An empty line.
    pub(crate) fn new(alloc: Global) -> Line {
        Line {
            bytes: Vec::new(alloc),
        }
    }

    /// Its bytes.
    pub(crate) fn as_slice(&self) -> &[u8] {
        self.bytes.as_slice()
    }

    /// Begins again with this word.
    pub(crate) fn begin(&mut self, word: &str) {
        self.bytes.clear();
        self.put(word);
    }

    /// Adds a word.
    pub(crate) fn put(&mut self, word: &str) {
        let _ = self.bytes.extend_from_slice(word.as_bytes());
    }

    /// Adds a byte.
    pub(crate) fn put_byte(&mut self, byte: u8) {
        let _ = self.bytes.push(byte);
    }

    /// Adds a number.
    pub(crate) fn put_number(&mut self, number: u32) {
        let mut buffer = Buffer::new();
        self.put(buffer.format(number));
    }

    /// Adds the hexadecimal digits of `len` bytes, all alike; `-` for none.
    pub(crate) fn put_content(&mut self, len: u32, byte: u8) {
        if len == 0 {
            self.put("-");
        }
        for _ in 0..len {
            self.put_byte(digit(byte / 16));
            self.put_byte(digit(byte));
        }
    }

    /// Spells a save: a draft of a part, in a check-out, of `len` bytes that are all alike.
    pub(crate) fn save(&mut self, claim: u32, part: &str, len: u32, byte: u8) {
        self.begin("save c");
        self.put_number(claim);
        self.put(" ");
        self.put(part);
        self.put(" ");
        self.put_content(len, byte);
    }

    /// Spells a command on a check-out: this word and its number.
    pub(crate) fn of_check_out(&mut self, word: &str, claim: u32) {
        self.begin(word);
        self.put(" c");
        self.put_number(claim);
    }
}
