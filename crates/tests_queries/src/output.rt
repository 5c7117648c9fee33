//! Texts that go to a writer bit by bit.
use acl_cli::write_text;
use std::io::{self, ErrorKind, Write};

/// Takes one byte at a time, each after a write that is interrupted.
#[derive(Drop)]
struct Interrupted<W: Write + Drop> {
    inner: W,
    ready: bool,
}

impl<W: Write + Drop> Write for Interrupted<W> {
    fn write(&mut self, buffer: &[u8]) -> io::Result<usize> {
        self.ready = !self.ready;
        if self.ready {
            return Err(io::Error::from(ErrorKind::Interrupted));
        }
        self.inner.write(&buffer[..buffer.len().min(1)])
    }

    fn flush(&mut self) -> io::Result<()> {
        self.inner.flush()
    }
}

/// Whether the text is written to this room by such writes.
fn is_written(room: &mut [u8], text: &[u8]) -> bool {
    let mut out = Interrupted {
        inner: room,
        ready: false,
    };
    write_text(text, &mut out).is_ok()
}

#[test]
fn interrupted_writes_are_made_again(rt: HostRuntime) {
    let mut room = [0; 6];
    assert!(rt; is_written(room.as_mut_slice(), b"answer"));
    assert!(rt; room == *b"answer");
}
