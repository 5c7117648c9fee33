//! Standard output and standard error, if the reader of an answer may leave.

use std::cell::Cell;
use std::io::{self, Write};

/// Standard output. It notes whether its reader has left, as `head` does once it has its lines.
#[derive(Drop)]
pub struct Output<'a, W: Write + Drop> {
    pub is_left: &'a Cell<bool>,
    pub out: W,
}

impl<'a, W: Write + Drop> Write for Output<'a, W> {
    ghost contents = { λ output. W.contents output.out };

    fn write(&mut self, buffer: &[u8]) -> io::Result<usize> {
        let written = self.out.write(buffer);
        if let Err(error) = &written {
            if error.kind() == io::ErrorKind::BrokenPipe {
                self.is_left.set(true);
            }
        }
        written
    }

    fn flush(&mut self) -> io::Result<()> {
        self.out.flush()
    }
}

/// Standard error, on which nothing is printed any more after the reader of the answer has left:
/// who reads only a few lines has all that was wanted. No contract says what is printed.
#[derive(Drop)]
pub struct Faults<'a, W: Write + Drop> {
    pub is_left: &'a Cell<bool>,
    pub out: W,
}

impl<'a, W: Write + Drop> Write for Faults<'a, W> {
    fn write(&mut self, buffer: &[u8]) -> io::Result<usize> {
        if self.is_left.get() {
            return Ok(buffer.len());
        }
        self.out.write(buffer)
    }

    fn flush(&mut self) -> io::Result<()> {
        self.out.flush()
    }
}
