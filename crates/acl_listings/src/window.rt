//! A buffer of constant size with the bytes that were read and not yet taken.

ghost use Rattle.std.specs.Prelude.{◌≡◌, ◌+◌, ◌<◌, ◌≤◌, [], length, drop, take, false, IfOk, OnErr};
ghost use Rattle.std.specs.Io.KnownBytes.{Consumes, IsAtEnd, Keeps, prepend_known};
ghost use Rattle.acl_listings.specs.Window.{Extends};
ghost use Rattle.acl_listings.specs.declared.window.TheConstants.{CAPACITY};

use std::alloc::{AllocError, Global};
use std::io::{ErrorKind, Read};
use std::marker::Model;
use thiserror::Error;

/// Why a listing couldn't be read on.
#[derive(Clone, Copy, Debug, PartialEq, Eq, Error)]
pub enum ReadFault {
    /// A read failed.
    #[error("a read failed")]
    Read,
    /// Memory ran out for the first bytes of a block that is too long.
    #[error("memory")]
    Memory,
}

/// How many bytes the buffer has: about twice those of a block that is just too long, with what
/// ends it.
pub(crate) const CAPACITY: usize = 131_072;

/// The bytes that were read and not yet taken. A contract sees the list of them.
#[derive(Drop)]
pub(crate) struct Window {
    buffer: Vec<u8>,
    start: usize,
    end: usize,
}

impl Model for Window {
    ghost use Rattle.std.specs.Prelude.{List, ℕ, slice_range};
    ghost use Rattle.acl_listings.specs.Window.{AreBounds};

    ghost Value = { List ℕ };

    ghost view = { λ inside. slice_range inside.buffer.items inside.start inside.end };

    ghost invariant = { λ inside. AreBounds inside.buffer.items inside.start inside.end };
}

impl Window {
    /// An empty buffer. It is allocated here, and nothing later.
    pub(crate) fn new(alloc: Global) -> Result<Window, AllocError>
        ensures { IfOk result (λ window. window ≡ []) }
    {
        let mut buffer = Vec::with_capacity(alloc, CAPACITY)?;
        buffer.resize(CAPACITY, 0)?;
        Ok(Window {
            buffer,
            start: 0,
            end: 0,
        })
    }

    /// The bytes that were read and not yet taken.
    pub(crate) fn shown(&self) -> &[u8]
        ensures value { result.now ≡ self.now }
        ensures within { length self.now ≤ CAPACITY }
    {
        &self.buffer[self.start..self.end]
    }

    /// Drops the first bytes.
    pub(crate) fn skip(&mut self, count: usize)
        requires { count ≤ length self.old }
        ensures { self.new ≡ drop count self.old }
    {
        self.start += count;
    }

    /// Reads more bytes, with one read that isn't interrupted. Returns whether there were any;
    /// `false` means that the reader ended.
    pub(crate) fn fill<R: Read>(&mut self, reader: &mut R) -> Result<bool, ReadFault>
        requires { length self.old < CAPACITY }
        ensures bytes { Keeps (prepend_known self.old (R.remaining reader.old))
            (prepend_known self.new (R.remaining reader.new)) }
        ensures more { Extends self.old self.new }
        ensures end { IfOk result (λ some. some ≡ false → IsAtEnd (R.remaining reader.new)) }
    {
        let len = self.end - self.start;
        self.buffer.copy_within(self.start..self.end, 0);
        self.start = 0;
        self.end = len;
        let count = read_behind(reader, &mut self.buffer, len)?;
        self.end += count;
        Ok(count > 0)
    }
}

/// Reads after the first `len` bytes of the buffer, with one read that isn't interrupted.
fn read_behind<R: Read>(reader: &mut R, buffer: &mut [u8], len: usize) -> Result<usize, ReadFault>
    requires { len ≤ length buffer.old }
    ensures front { take len buffer.new ≡ take len buffer.old }
    ensures count { IfOk result (λ count. len + count ≤ length buffer.old) }
    ensures bytes { IfOk result (λ count. Consumes (R.remaining reader.old)
        (R.remaining reader.new) (take count (drop len buffer.new))) }
    ensures end { IfOk result (λ count. count ≡ 0 → len < length buffer.old
        → IsAtEnd (R.remaining reader.new)) }
    ensures kept { OnErr result (Keeps (R.remaining reader.old) (R.remaining reader.new)) }
{
    read_once(reader, &mut buffer[len..])
}

/// Reads into the room, with one read that isn't interrupted.
fn read_once<R: Read>(reader: &mut R, room: &mut [u8]) -> Result<usize, ReadFault>
    ensures count { IfOk result (λ count. count ≤ length room.new) }
    ensures bytes { IfOk result (λ count. Consumes (R.remaining reader.old)
        (R.remaining reader.new) (take count room.new)) }
    ensures end { IfOk result (λ count. count ≡ 0 → 0 < length room.old
        → IsAtEnd (R.remaining reader.new)) }
    ensures kept { OnErr result (Keeps (R.remaining reader.old) (R.remaining reader.new)) }
{
    for _ in 0..u64::MAX {
        match reader.read(room) {
            Ok(count) => return Ok(count),
            Err(error) if error.kind() == ErrorKind::Interrupted => {}
            Err(_) => return Err(ReadFault::Read),
        }
    }
    Err(ReadFault::Read)
}
