//! The steps of a cursor over the bytes of a listing.

ghost use Rattle.std.specs.Prelude.{◌≡◌, ◌≤◌, ◌+◌, [], IfNone, IfOk, IfSome, OnOk};
ghost use Rattle.std.specs.Io.KnownBytes.{IsAtEnd, Keeps};
ghost use Rattle.acl_listings.specs.Cursor.{blocks_to_come, IsOver, Stays};
ghost use Rattle.acl_listings.specs.Extent.{BeginsLine, IsExtent};
ghost use Rattle.acl_listings.specs.Source.{bytes_to_come};
ghost use Rattle.acl_listings.specs.Steps.{GoesOn};

use crate::extent::{Extent, extent_of, extent_of_rest};
use crate::limits::MAX_BLOCK;
use crate::source::Source;
use crate::window::ReadFault;
use std::io::Read;

/// The number of the line that is `lines` further on. A listing has fewer than 2^64 lines.
pub(crate) fn further(line: u64, lines: u64) -> Result<u64, ReadFault>
    ensures { IfOk result (λ next. next ≡ line + lines) }
{
    line.checked_add(lines).ok_or(ReadFault::Read)
}

/// Skips empty lines, the first of which has this number. Returns the number of the first line that
/// isn't empty; `None` if there is none.
pub(crate) fn skip_empty_lines<R: Read + Drop>(
    source: &mut Source<R>,
    line: u64,
) -> Result<Option<u64>, ReadFault>
    ensures none { IfOk result (λ found. IfNone found
        (IsOver (blocks_to_come line (bytes_to_come source.old))
        × (source.new.shown ≡ []) × IsAtEnd source.new.left)) }
    ensures some { IfOk result (λ found. IfSome found (λ next.
        Stays (blocks_to_come line (bytes_to_come source.old))
        (blocks_to_come next (bytes_to_come source.new)))) }
    ensures begins { IfOk result (λ found. IfSome found (λ _. BeginsLine source.new.shown)) }
{
    let mut line = line;
    for _ in 0..u64::MAX {
        let has_ended = source.has_ended();
        match source.shown() {
            [] if has_ended => return Ok(None),
            [] => source.read()?,
            [b'\n', ..] => {
                source.skip(1);
                line = further(line, 1)?;
            }
            _ => return Ok(Some(line)),
        }
    }
    Err(ReadFault::Read)
}

/// The extent of the block at the front, including bytes that aren't buffered yet; of a block that
/// is too long, at least so much that it is too long.
pub(crate) fn find_extent<R: Read + Drop>(source: &mut Source<R>) -> Result<Extent, ReadFault>
    requires { BeginsLine source.old.shown }
    ensures bytes { OnOk result (Keeps (bytes_to_come source.old) (bytes_to_come source.new)) }
    ensures shown { IfOk result (λ extent. IsExtent source.new.shown extent.len extent.newlines) }
    ensures whole { IfOk result (λ extent. extent.len ≤ MAX_BLOCK
        → IfSome (bytes_to_come source.new) (λ text. IsExtent text extent.len extent.newlines)) }
{
    for _ in 0..u64::MAX {
        let shown = source.shown();
        let extent = extent_of(shown);
        let is_closed = shown.len() >= extent.len + 2;
        if is_closed || extent.len > MAX_BLOCK || source.has_ended() {
            return Ok(extent);
        }
        source.read()?;
    }
    Err(ReadFault::Read)
}

/// Skips the rest of a block, up to the end of its last line. `line` is the number of the line that
/// was begun, and the result that of the last line.
pub(crate) fn skip_rest<R: Read + Drop>(source: &mut Source<R>, line: u64) -> Result<u64, ReadFault>
    ensures { IfOk result (λ last.
        GoesOn (bytes_to_come source.old) (bytes_to_come source.new) line last) }
{
    let mut line = line;
    for _ in 0..u64::MAX {
        let shown = source.shown();
        let extent = extent_of_rest(shown);
        if extent.len > 0 {
            source.skip(extent.len);
            line = further(line, extent.newlines as u64)?;
        } else if shown.len() >= 2 || source.has_ended() {
            return Ok(line);
        } else {
            source.read()?;
        }
    }
    Err(ReadFault::Read)
}
