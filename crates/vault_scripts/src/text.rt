//! A text that is put together piece by piece.

use std::alloc::Global;
use std::fmt::{Debug, Write};

/// A text. If there is no memory for a piece, it lacks that piece, and so isn't the answer that a row must get.
#[derive(Drop)]
pub(crate) struct Text {
    text: String,
}

impl Text {
    /// An empty one.
    pub(crate) fn new(alloc: Global) -> Text {
        Text {
            text: String::new(alloc),
        }
    }

    pub(crate) fn as_str(&self) -> &str {
        self.text.as_str()
    }

    /// Empties it.
    pub(crate) fn clear(&mut self) {
        self.text.clear();
    }

    /// Adds a piece.
    pub(crate) fn put(&mut self, piece: &str) {
        let _ = self.text.push_str(piece);
    }

    /// Adds a value, and then a piece.
    pub(crate) fn put_value<T: Debug>(&mut self, value: &T, piece: &str) {
        let _ = write!(self.text, "{value:?}{piece}");
    }

    /// Adds the hexadecimal digits of these bytes.
    pub(crate) fn put_digits(&mut self, bytes: &[u8]) {
        for byte in bytes {
            let _ = write!(self.text, "{byte:02x}");
        }
    }

    /// Adds a name.
    pub(crate) fn put_name(&mut self, name: &[u8]) {
        match std::str::from_utf8(name) {
            Ok(name) => self.put(name),
            Err(_) => self.put_digits(name),
        }
    }

    /// Adds contents or a note: the digits of up to 16 bytes, else how many bytes there are.
    pub(crate) fn put_content(&mut self, bytes: &[u8]) {
        if bytes.len() > 16 {
            self.put_value(&bytes.len(), " bytes");
        } else {
            self.put_digits(bytes);
        }
    }
}
