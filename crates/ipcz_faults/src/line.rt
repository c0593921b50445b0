//! A short text that is printed without memory.
use std::fmt;

/// As many bytes as the longest text that is compared has room in.
const ROOM: usize = 256;

/// A text in a place of fixed size: what doesn't fit is an error.
#[derive(Drop)]
pub struct Line {
    bytes: [u8; ROOM],
    len: usize,
}

impl Line {
    /// The empty text.
    pub fn new() -> Line {
        Line {
            bytes: [0; ROOM],
            len: 0,
        }
    }

    /// What was printed.
    pub fn text(&self) -> &[u8] {
        match self.bytes.get(..self.len) {
            Some(text) => text,
            None => &[],
        }
    }

    fn push(&mut self, byte: u8) -> fmt::Result {
        let len = self.len;
        if len >= ROOM {
            return Err(fmt::Error);
        }
        self.bytes[len] = byte;
        self.len = len + 1;
        Ok(())
    }
}

impl fmt::Write for Line {
    fn write_str(&mut self, text: &str) -> fmt::Result {
        for byte in text.as_bytes() {
            self.push(*byte)?;
        }
        Ok(())
    }
}
