//! The next block of a listing.
ghost use Rattle.std.specs.Prelude.{IfErr, IfOk};
ghost use Rattle.std.specs.Bool.{MatchBool};
ghost use Rattle.acl_listings.specs.Cursor.{HandsOut, IsOver};
ghost use Rattle.acl_reports.specs.Reporting.{IsListingFailure};

use acl_cli::{Failure, RunFault};
use acl_listings::{Blocks, ReadFault};
use std::io::Read;

/// Goes to the next block of the listing of this name, and returns whether there is one. Fails with
/// the name if the listing can't be read on, and if memory runs out.
#[inline(always)]
pub fn advance<'n, R: Read + Drop>(
    name: &'n str,
    blocks: &mut Blocks<R>,
) -> Result<bool, Failure<'n>>
    ensures block { IfOk result (λ some. MatchBool some
        (HandsOut blocks.old.coming blocks.new.block blocks.new.coming)
        (IsOver blocks.old.coming)) }
    ensures failed { IfErr result (IsListingFailure name.entry.now) }
{
    match blocks.advance() {
        Ok(some) => Ok(some),
        Err(ReadFault::Read) => Err(Failure::Unread(name)),
        Err(ReadFault::Memory) => Err(Failure::Lacks(RunFault::Memory)),
    }
}
