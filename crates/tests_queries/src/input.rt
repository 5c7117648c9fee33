//! Tests of reading up to a limit.
use acl_cli::{CapFault, read_capped};
use std::alloc::Global;
use std::io::{self, ErrorKind, Read};

/// Gives one byte, and then fails.
#[derive(Drop)]
struct FailsAfterOne {
    gave: bool,
}

impl Read for FailsAfterOne {
    fn read(&mut self, buffer: &mut [u8]) -> io::Result<usize> {
        if self.gave || buffer.is_empty() {
            return Err(io::Error::from(ErrorKind::BrokenPipe));
        }
        self.gave = true;
        buffer[0] = b'a';
        Ok(1)
    }
}

/// Gives one byte at a time, each after a read that is interrupted.
#[derive(Drop)]
struct Interrupted<'a> {
    bytes: &'a [u8],
    ready: bool,
}

impl Read for Interrupted<'_> {
    fn read(&mut self, buffer: &mut [u8]) -> io::Result<usize> {
        self.ready = !self.ready;
        if self.ready || buffer.is_empty() {
            return Err(io::Error::from(ErrorKind::Interrupted));
        }
        match self.bytes.split_first() {
            Some((byte, rest)) => {
                buffer[0] = *byte;
                self.bytes = rest;
                Ok(1)
            }
            None => Ok(0),
        }
    }
}

/// Whether all is read up to the cap, and is this; or the fault.
fn reads<R: Read>(
    alloc: Global,
    reader: &mut R,
    cap: usize,
    text: &[u8],
) -> Result<bool, CapFault> {
    let read = read_capped(alloc, reader, cap)?;
    Ok(read.as_slice() == text)
}

#[test]
fn reads_up_to_the_cap(rt: HostRuntime) {
    let (three, four) = (b"abc".as_slice(), b"abcd".as_slice());
    let mut reader = three;
    assert_eq!(rt; reads(rt.alloc(), &mut reader, 3, three), Ok(true));
    reader = four;
    assert_eq!(rt;
        reads(rt.alloc(), &mut reader, 3, four),
        Err(CapFault::TooLong)
    );
    reader = b"".as_slice();
    assert_eq!(rt; reads(rt.alloc(), &mut reader, 0, b"".as_slice()), Ok(true));
}

/// Whether so many bytes are read under the cap, or the fault; none where memory is refused before.
fn reads_many(alloc: Global, count: usize, cap: usize) -> Option<Result<bool, CapFault>> {
    let text = vec![in alloc; b'x'; count].ok()?;
    let mut reader = text.as_slice();
    Some(reads(alloc, &mut reader, cap, text.as_slice()))
}

#[test]
fn reads_more_than_a_piece(rt: HostRuntime) {
    assert_eq!(rt; reads_many(rt.alloc(), 10_000, 10_000), Some(Ok(true)));
    let capped = reads_many(rt.alloc(), 10_000, 9_999);
    assert_eq!(rt; capped, Some(Err(CapFault::TooLong)));
}

#[test]
fn interrupted_reads_are_made_again(rt: HostRuntime) {
    let bytes = b"abc".as_slice();
    let mut reader = Interrupted {
        bytes,
        ready: false,
    };
    assert_eq!(rt; reads(rt.alloc(), &mut reader, 3, bytes), Ok(true));
}

/// More bytes than a piece has, in memory that no one refuses.
static MANY: [u8; 70_000] = [b'x'; 70_000];

#[test]
fn bytes_that_come_one_by_one(rt: HostRuntime) {
    let bytes = MANY.as_slice();
    let mut reader = Interrupted {
        bytes,
        ready: false,
    };
    assert_eq!(rt; reads(rt.alloc(), &mut reader, 70_000, bytes), Ok(true));
}

#[test]
fn readers_that_fail_and_that_never_end(rt: HostRuntime) {
    let mut reader = FailsAfterOne { gave: false };
    let failed = reads(rt.alloc(), &mut reader, 10, b"a".as_slice());
    assert_eq!(rt; failed, Err(CapFault::Read));
    let endless = reads(rt.alloc(), &mut io::repeat(b'x'), 10, b"".as_slice());
    assert_eq!(rt; endless, Err(CapFault::TooLong));
}
