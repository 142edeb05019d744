//! Readers and writers of our own.

use std::alloc::Global;
use std::io;
use std::io::{ErrorKind, Read, Write};

/// Kinds of errors that a device may fail with, those of an interruption and of memory among them.
pub const KINDS: [ErrorKind; 7] = [
    ErrorKind::Interrupted,
    ErrorKind::OutOfMemory,
    ErrorKind::UnexpectedEof,
    ErrorKind::WouldBlock,
    ErrorKind::WriteZero,
    ErrorKind::BrokenPipe,
    ErrorKind::Other,
];

/// A reader that gives its bytes, at most `most` in one call, and then fails.
#[derive(Drop)]
pub struct FailingReader<'a> {
    pub bytes: &'a [u8],
    pub most: usize,
    pub error: ErrorKind,
}

impl Read for FailingReader<'_> {
    fn read(&mut self, buf: &mut [u8]) -> io::Result<usize> {
        if self.bytes.is_empty() {
            return Err(io::Error::from(self.error));
        }
        let count = buf.len().min(self.most);
        self.bytes.read(&mut buf[..count])
    }
}

/// A writer that takes `room` bytes in all, at most `most` in one call, and then fails with `error`. It
/// counts its flushes, and notes how much it had taken at the last of them. If there is a `flush_error`,
/// each flush fails with it.
#[derive(Drop)]
pub struct ShortWriter {
    pub taken: Vec<u8>,
    pub most: usize,
    pub room: usize,
    pub error: ErrorKind,
    pub flushes: u32,
    pub flushed: usize,
    pub flush_error: Option<ErrorKind>,
}

impl ShortWriter {
    /// A writer that takes all, at most `most` bytes in one call.
    pub fn new(alloc: Global, most: usize) -> Self {
        ShortWriter {
            taken: Vec::new(alloc),
            most,
            room: usize::MAX,
            error: ErrorKind::BrokenPipe,
            flushes: 0,
            flushed: 0,
            flush_error: None,
        }
    }
}

impl Write for ShortWriter {
    fn write(&mut self, buf: &[u8]) -> io::Result<usize> {
        let room = self.room.saturating_sub(self.taken.len());
        if room == 0 {
            return Err(io::Error::from(self.error));
        }
        let count = buf.len().min(self.most).min(room);
        self.taken.extend_from_slice(&buf[..count])?;
        Ok(count)
    }

    fn flush(&mut self) -> io::Result<()> {
        self.flushes = self.flushes.saturating_add(1);
        self.flushed = self.taken.len();
        match self.flush_error {
            Some(error) => Err(io::Error::from(error)),
            None => Ok(()),
        }
    }
}
