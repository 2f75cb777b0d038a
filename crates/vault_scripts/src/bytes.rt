//! Strings of bytes, spelled in words.

use std::alloc::Global;

/// A string of bytes with its name.
#[derive(Drop)]
struct Named<'a> {
    name: &'a str,
    bytes: Vec<u8>,
}

/// The names that a file of rows gives to strings of bytes.
#[derive(Drop)]
pub(crate) struct Names<'a> {
    all: Vec<Named<'a>>,
}

impl<'a> Names<'a> {
    /// No names yet.
    pub(crate) fn new(alloc: Global) -> Names<'a> {
        Names {
            all: Vec::new(alloc),
        }
    }

    /// Takes the name that a line defines, as `NAME: BYTES`, and says whether it defines one.
    pub(crate) fn define(&mut self, alloc: Global, line: &'a str) -> bool {
        let Some((name, words)) = line.split_once(": ") else {
            return false;
        };
        match self.bytes(alloc, words) {
            Some(bytes) if !name.contains(' ') => self.all.push(Named { name, bytes }).is_ok(),
            _ => false,
        }
    }

    /// The bytes that these words spell.
    pub(crate) fn bytes(&self, alloc: Global, words: &str) -> Option<Vec<u8>> {
        let mut bytes = Vec::new(alloc);
        for word in words.split_whitespace() {
            if !self.put_word(alloc, word, &mut bytes) {
                return None;
            }
        }
        Some(bytes)
    }

    // Adds what a word spells: `-` nothing; `+NAME` the length of NAME's bytes, in four bytes, and then these; `WORD*N` N times WORD.
    fn put_word(&self, alloc: Global, word: &str, out: &mut Vec<u8>) -> bool {
        if word == "-" {
            return true;
        }
        if let Some(word) = word.strip_prefix('+') {
            return self.put_with_length(word, out).is_some();
        }
        match word.split_once('*') {
            Some((one, times)) => self.put_times(alloc, one, times, out).is_some(),
            None => self.put_one(alloc, word, out).is_some(),
        }
    }

    fn put_with_length(&self, word: &str, out: &mut Vec<u8>) -> Option<()> {
        let bytes = self.part(word)?;
        let length = u32::try_from(bytes.len()).ok()?;
        out.extend_from_slice(&length.to_be_bytes()).ok()?;
        out.extend_from_slice(bytes).ok()
    }

    fn put_times(&self, alloc: Global, word: &str, times: &str, out: &mut Vec<u8>) -> Option<()> {
        for _ in 0..times.parse::<u32>().ok()? {
            self.put_one(alloc, word, out)?;
        }
        Some(())
    }

    // Adds what one word spells: a text in quotes, a name or a part of one, or hexadecimal digits.
    fn put_one(&self, alloc: Global, word: &str, out: &mut Vec<u8>) -> Option<()> {
        if let Some(text) = word.strip_prefix('\'') {
            return out
                .extend_from_slice(text.strip_suffix('\'')?.as_bytes())
                .ok();
        }
        if let Some(bytes) = self.part(word) {
            return out.extend_from_slice(bytes).ok();
        }
        let digits = hex::decode(alloc, word.as_bytes()).ok()?;
        out.extend_from_slice(&digits).ok()
    }

    // The bytes of a name, as `NAME`, or a part of them, as `NAME[FROM..TO]`.
    fn part(&self, word: &str) -> Option<&[u8]> {
        match word.split_once('[') {
            Some((name, range)) => {
                let (from, to) = range.strip_suffix(']')?.split_once("..")?;
                let bytes = self.of(name)?;
                bytes.get(place(from, 0)?..place(to, bytes.len())?)
            }
            None => self.of(word),
        }
    }

    fn of(&self, name: &str) -> Option<&[u8]> {
        for named in &self.all {
            if named.name == name {
                return Some(named.bytes.as_slice());
            }
        }
        None
    }
}

// An offset into a string of bytes. For an empty word: `otherwise`.
fn place(word: &str, otherwise: usize) -> Option<usize> {
    if word.is_empty() {
        Some(otherwise)
    } else {
        word.parse::<usize>().ok()
    }
}
