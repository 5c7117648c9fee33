//! The bytes of a reader that are still to come, and a buffer of the first of them.

ghost use Rattle.std.specs.Prelude.{◌≡◌, ◌<◌, ◌≤◌, [], false, IsTrue, length, drop, IfOk};
ghost use Rattle.std.specs.Io.KnownBytes.{IsAtEnd, Keeps};
ghost use Rattle.acl_listings.specs.Source.{bytes_to_come};
ghost use Rattle.acl_listings.specs.Window.{Extends};
ghost use Rattle.acl_listings.specs.declared.window.TheConstants.{CAPACITY};

use crate::window::{ReadFault, Window};
use std::alloc::{AllocError, Global};
use std::io::Read;
use std::marker::Model;

/// The bytes of a reader that are still to come. A contract sees those in the buffer, those that
/// the reader has left if it reports them, and whether the reader ended.
#[derive(Drop)]
pub(crate) struct Source<R: Read + Drop> {
    reader: R,
    window: Window,
    has_ended: bool,
}

impl<R: Read + Drop> Model for Source<R> {
    ghost use Rattle.std.specs.Prelude.{IsTrue};
    ghost use Rattle.std.specs.Io.KnownBytes.{IsAtEnd};
    ghost use Rattle.acl_listings.specs.Source.{SourceValue};

    ghost Value = { SourceValue };

    ghost view = { λ inside. record {
      shown = inside.window;
      left = R.remaining inside.reader;
      has_ended = inside.has_ended;
    } };

    ghost invariant = { λ inside. IsTrue inside.has_ended → IsAtEnd (R.remaining inside.reader) };
}

impl<R: Read + Drop> Source<R> {
    /// The bytes of the reader. It allocates its buffer here, and nothing later.
    pub(crate) fn new(alloc: Global, reader: R) -> Result<Source<R>, AllocError>
        ensures { IfOk result (λ source. source
            ≡ record { shown = []; left = R.remaining reader; has_ended = false }) }
    {
        Ok(Source {
            reader,
            window: Window::new(alloc)?,
            has_ended: false,
        })
    }

    /// The bytes in the buffer.
    pub(crate) fn shown(&self) -> &[u8]
        ensures value { result.now ≡ self.now.shown }
        ensures within { length self.now.shown ≤ CAPACITY }
    {
        self.window.shown()
    }

    /// Whether the reader has ended.
    pub(crate) fn has_ended(&self) -> bool
        ensures value { result ≡ self.now.has_ended }
        ensures end { IsTrue result → IsAtEnd self.now.left }
    {
        self.has_ended
    }

    /// Drops the first bytes.
    pub(crate) fn skip(&mut self, count: usize)
        requires { count ≤ length self.old.shown }
        ensures { self.new ≡ record self.old { shown = drop count self.old.shown } }
    {
        self.window.skip(count);
    }

    /// Reads more bytes into the buffer, or finds that the reader has ended.
    pub(crate) fn read(&mut self) -> Result<(), ReadFault>
        requires room { length self.old.shown < CAPACITY }
        requires open { self.old.has_ended ≡ false }
        ensures bytes { Keeps (bytes_to_come self.old) (bytes_to_come self.new) }
        ensures more { Extends self.old.shown self.new.shown }
    {
        if !self.window.fill(&mut self.reader)? {
            self.has_ended = true;
        }
        Ok(())
    }
}
