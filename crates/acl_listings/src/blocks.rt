//! The blocks of a listing, one after the other.

ghost use Rattle.std.specs.Prelude.{◌≡◌, ◌+◌, ◌≤◌, [], length, take, IfErr, IfOk, IfSome};
ghost use Rattle.std.specs.Prelude.{Err, None, OnOk, Some};
ghost use Rattle.std.specs.Bool.{MatchBool};
ghost use Rattle.acl_listings.specs.Cursor.{blocks_to_come, HandsOut, IsOver, no_block};
ghost use Rattle.acl_listings.specs.Extent.{BeginsLine};
ghost use Rattle.acl_listings.specs.Source.{bytes_to_come, bytes_after};
ghost use Rattle.acl_listings.specs.Steps.{text_at_hand};

use crate::limits::MAX_BLOCK;
use crate::source::Source;
use crate::steps::{find_extent, further, skip_empty_lines, skip_rest};
use crate::window::ReadFault;
use std::alloc::{AllocError, Global};
use std::io::Read;
use std::marker::Model;

/// A cursor over the blocks of a listing. It takes a buffer of constant size, and reads only when
/// it needs more bytes.
///
/// If the reader reports its bytes, a contract sees the list of the blocks to come, as `text`
/// returns them; the current block; and the fault that ended the reading.
#[derive(Drop)]
pub struct Blocks<R: Read + Drop> {
    source: Source<R>,
    /// The first bytes of the current block, if it is too long; else empty.
    head: Vec<u8>,
    /// How many of the buffered bytes are the current block; 0 if it is too long.
    len: usize,
    /// The number of the current block's first line.
    first: u64,
    /// The number of the line that the next byte belongs to.
    line: u64,
    fault: Option<ReadFault>,
}

impl<R: Read + Drop> Model for Blocks<R> {
    ghost use Rattle.std.specs.Prelude.{◌≤◌, length};
    ghost use Rattle.acl_listings.specs.Cursor.{blocks_to_come, CursorValue};
    ghost use Rattle.acl_listings.specs.Source.{bytes_after};
    ghost use Rattle.acl_listings.specs.Steps.{text_at_hand};

    ghost Value = { CursorValue };

    ghost view = { λ inside. record {
      coming = blocks_to_come inside.line (bytes_after inside.len inside.source);
      block = record {
        line = inside.first;
        text = text_at_hand inside.len inside.source.shown inside.head.items;
      };
      fault = inside.fault;
    } };

    ghost invariant = { λ inside. inside.len ≤ length inside.source.shown };
}

impl<R: Read + Drop> Blocks<R> {
    /// The blocks of the listing that the reader reads. There is no current block yet: `line` is 0,
    /// and `text` empty.
    pub fn new(alloc: Global, reader: R) -> Result<Blocks<R>, AllocError>
        ensures blocks { IfOk result (λ blocks.
            blocks.coming ≡ blocks_to_come 1 (R.remaining reader)) }
        ensures open { IfOk result (λ blocks. blocks.fault ≡ None) }
        ensures none { IfOk result (λ blocks. blocks.block ≡ no_block) }
    {
        Ok(Blocks {
            source: Source::new(alloc, reader)?,
            head: Vec::new(alloc),
            len: 0,
            first: 0,
            line: 1,
            fault: None,
        })
    }

    /// Goes to the next block. Returns `false` if there is none, in each later call too. It repeats
    /// interrupted reads. After a fault each further call returns that fault.
    pub fn advance(&mut self) -> Result<bool, ReadFault>
        // Of a reader that reports its bytes.
        ensures block { IfOk result (λ some. MatchBool some
            (HandsOut self.old.coming self.new.block self.new.coming)
            (IsOver self.old.coming × IsOver self.new.coming)) }

        ensures fault { IfErr result (λ fault. self.new.fault ≡ Some fault) }
        ensures open { OnOk result (self.new.fault ≡ None) }
        ensures ended { IfSome self.old.fault (λ fault. result ≡ Err fault) }
    {
        if let Some(fault) = self.fault {
            return Err(fault);
        }
        match self.find() {
            Ok(some) => Ok(some),
            Err(fault) => {
                self.fault = Some(fault);
                Err(fault)
            }
        }
    }

    /// The number of the current block's first line, from 1.
    pub fn line(&self) -> u64
        ensures { result ≡ self.now.block.line }
    {
        self.first
    }

    /// The current block, without the newline of its last line; of a block that is too long, the
    /// first 65,537 bytes.
    pub fn text(&self) -> &[u8]
        ensures { result.now ≡ self.now.block.text }
    {
        if self.len > 0 {
            &self.source.shown()[..self.len]
        } else {
            self.head.as_slice()
        }
    }

    fn find(&mut self) -> Result<bool, ReadFault>
        ensures block { IfOk result (λ some. MatchBool some
            (HandsOut self.old.coming self.new.block self.new.coming)
            (IsOver self.old.coming × IsOver self.new.coming)) }
        ensures fault { self.new.fault ≡ self.old.fault }
    {
        self.source.skip(self.len);
        self.len = 0;
        self.head.clear();
        let Some(first) = skip_empty_lines(&mut self.source, self.line)? else {
            return Ok(false);
        };
        let taken = take_block(&mut self.source, &mut self.head, first)?;
        self.first = first;
        self.len = taken.len;
        self.line = taken.last;
        Ok(true)
    }
}

/// What was taken for a block.
#[derive(Clone, Copy)]
struct Taken {
    /// How many of the buffered bytes it has; 0 if it is too long.
    len: usize,
    /// The number of its last line.
    last: u64,
}

/// Takes the block at the front, whose first line has this number. Of a block that is too long it
/// keeps the first bytes, and skips the rest.
fn take_block<R: Read + Drop>(
    source: &mut Source<R>,
    head: &mut Vec<u8>,
    first: u64,
) -> Result<Taken, ReadFault>
    requires begins { BeginsLine source.old.shown }
    requires empty { head.old.items ≡ [] }
    ensures block { IfOk result (λ taken. HandsOut (blocks_to_come first (bytes_to_come source.old))
        (record { line = first; text = text_at_hand taken.len source.new.shown head.new.items })
        (blocks_to_come taken.last (bytes_after taken.len source.new))) }
    ensures within { IfOk result (λ taken. taken.len ≤ length source.new.shown) }
{
    let extent = find_extent(source)?;
    let last = further(first, extent.newlines as u64)?;
    if extent.len <= MAX_BLOCK {
        return Ok(Taken {
            len: extent.len,
            last,
        });
    }
    keep_head(head, source.shown())?;
    source.skip(extent.len);
    Ok(Taken {
        len: 0,
        last: skip_rest(source, last)?,
    })
}

/// Keeps the first bytes of a block that is too long.
fn keep_head(head: &mut Vec<u8>, block: &[u8]) -> Result<(), ReadFault>
    requires empty { head.old.items ≡ [] }
    requires long { MAX_BLOCK + 1 ≤ length block.now }
    ensures { OnOk result (head.new.items ≡ take (MAX_BLOCK + 1) block.now) }
{
    head.extend_from_slice(&block[..MAX_BLOCK + 1])
        .map_err(|_| ReadFault::Memory)
}
