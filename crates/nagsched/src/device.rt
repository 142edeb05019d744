//! A stream that remembers why it failed.

use std::io;
use std::io::{ErrorKind, Read, Write};

/// A reader or a writer, and the kind of its last error.
#[derive(Drop)]
pub(crate) struct Device<S> {
    stream: S,
    error: Option<ErrorKind>,
}

impl<S> Device<S> {
    /// A stream that hasn't failed.
    pub(crate) fn new(stream: S) -> Self {
        Device {
            stream,
            error: None,
        }
    }

    /// The kind of the last error, if there was one.
    pub(crate) fn error(&self) -> Option<ErrorKind> {
        self.error
    }
}

impl<R: Read> Read for Device<R> {
    ghost remaining = { λ device. R.remaining device.stream };

    fn read(&mut self, buf: &mut [u8]) -> io::Result<usize> {
        let result = self.stream.read(buf);
        if let Err(error) = &result {
            self.error = Some(error.kind());
        }
        result
    }
}

impl<W: Write> Write for Device<W> {
    ghost contents = { λ device. W.contents device.stream };

    fn write(&mut self, buf: &[u8]) -> io::Result<usize> {
        let result = self.stream.write(buf);
        if let Err(error) = &result {
            self.error = Some(error.kind());
        }
        result
    }

    fn flush(&mut self) -> io::Result<()> {
        let result = self.stream.flush();
        if let Err(error) = &result {
            self.error = Some(error.kind());
        }
        result
    }
}
