//! Readers that give their bytes in one way or another.
use std::io::{self, ErrorKind, Read};

/// Gives so many bytes at a time, each time after a read that is interrupted.
#[derive(Drop)]
pub struct Slow<'a> {
    bytes: &'a [u8],
    most: usize,
    ready: bool,
}

impl<'a> Slow<'a> {
    /// Gives one byte at a time.
    pub fn new(bytes: &'a [u8]) -> Slow<'a> {
        Slow::by(1, bytes)
    }

    pub fn by(most: usize, bytes: &'a [u8]) -> Slow<'a> {
        Slow {
            bytes,
            most,
            ready: false,
        }
    }
}

impl Read for Slow<'_> {
    fn read(&mut self, buffer: &mut [u8]) -> io::Result<usize> {
        self.ready = !self.ready;
        if self.ready || buffer.is_empty() {
            return Err(io::Error::from(ErrorKind::Interrupted));
        }
        let count = buffer.len().min(self.most);
        self.bytes.read(&mut buffer[..count])
    }
}

/// Gives its bytes, and then fails once, before it is at its end.
#[derive(Drop)]
pub struct Broken<'a> {
    bytes: &'a [u8],
    has_failed: bool,
}

impl<'a> Broken<'a> {
    pub fn new(bytes: &'a [u8]) -> Broken<'a> {
        Broken {
            bytes,
            has_failed: false,
        }
    }
}

impl Read for Broken<'_> {
    fn read(&mut self, buffer: &mut [u8]) -> io::Result<usize> {
        if self.bytes.is_empty() && !self.has_failed {
            self.has_failed = true;
            return Err(io::Error::from(ErrorKind::BrokenPipe));
        }
        self.bytes.read(buffer)
    }
}
