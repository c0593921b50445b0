//! A reader and a writer for tests, which take few bytes at a time and fail in mid-stream.

use std::io;
use std::io::{Error, ErrorKind, Read, Write};

/// Reads up to so many bytes at a time, and fails once so many reads are made.
#[derive(Drop)]
pub struct SlowReader<'a> {
    pub bytes: &'a [u8],
    pub at_once: usize,
    pub reads_left: usize,
}

impl<'a> Read for SlowReader<'a> {
    fn read(&mut self, buf: &mut [u8]) -> io::Result<usize> {
        if self.reads_left == 0 {
            return Err(Error::from(ErrorKind::Other));
        }
        self.reads_left -= 1;
        let count = self.bytes.len().min(buf.len()).min(self.at_once);
        let (front, rest) = self.bytes.split_at(count);
        buf[..count].copy_from_slice(front);
        self.bytes = rest;
        Ok(count)
    }
}

/// Takes up to so many bytes at a time; once so many writes are made it fails, or takes none.
#[derive(Drop)]
pub struct SlowWriter<'a> {
    pub taken: &'a mut Vec<u8>,
    pub at_once: usize,
    pub writes_left: usize,
    pub fails: bool,
}

impl<'a> Write for SlowWriter<'a> {
    fn write(&mut self, buf: &[u8]) -> io::Result<usize> {
        if self.writes_left == 0 && self.fails {
            return Err(Error::from(ErrorKind::Other));
        }
        if self.writes_left == 0 {
            return Ok(0);
        }
        self.writes_left -= 1;
        let count = buf.len().min(self.at_once);
        self.taken.extend_from_slice(&buf[..count])?;
        Ok(count)
    }

    fn flush(&mut self) -> io::Result<()> {
        Ok(())
    }
}
