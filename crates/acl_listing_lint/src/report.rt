//! What is reported for a listing, block by block.
ghost use Rattle.std.specs.Prelude.{◌≡◌, ◌⊎◌, IfErr, IfOk, OnErr, OnOk};
ghost use Rattle.acl_cli.specs.Commands.{Comes, FrontWentOut, NothingWentOut, WentOut};
ghost use Rattle.acl_cli.specs.Failures.{failed_write};
ghost use Rattle.acl_reports.specs.Reporting.{IsListingFailure};
ghost use Rattle.acl_listing_lint.specs.LintSteps.{IsBlockDone};
ghost use Rattle.acl_listing_lint.specs.Lints.{AnswersLints, BeginsLints};
ghost use Rattle.acl_listing_lint.specs.LintsMeaning.{named_meaning};

use crate::block::report_block;
use crate::seen::{Seen, nothing_seen};
use acl_cli::{Ending, ErrorOutput, Failure, OpenFiles, Reason, Reporting, report_each};
use acl_listings::Blocks;
use acl_people::Host;
use acl_reports::{INPUT, Tally, advance, with_difference};
use std::alloc::Global;
use std::io::{Read, Write};

/// What is left to report of a listing.
#[derive(Drop)]
pub(crate) struct Linting<'n, 't, R: Read + Drop> {
    name: &'n str,
    host: &'t Host,
    blocks: Blocks<R>,
    seen: Seen,
    tally: Tally,
    /// Whether what is said at the end was said.
    closed: bool,
}

impl<'n, 't, R: Read + Drop> Linting<'n, 't, R> {
    /// Reports of the block at hand.
    fn report_here(
        &mut self,
        alloc: Global,
        out: &mut Vec<u8>,
        beside: &mut Vec<u8>,
    ) -> Result<(), Failure<'n>>
        ensures name { self.new.name ≡ self.old.name }
        ensures rest { OnOk result (self.new
            ≡ record self.old { seen = self.new.seen; tally = self.new.tally }) }
        ensures reported { OnOk result (IsBlockDone
            (record { name = self.old.name.now; host = self.old.host.now })
            self.old.seen self.new.seen self.old.blocks.block self.old.tally self.new.tally
            out.old.items out.new.items beside.old.items beside.new.items) }
        ensures failed { IfErr result (IsListingFailure self.old.name.now) }
    {
        let line = self.blocks.line();
        let text = self.blocks.text();
        let fault = report_block(
            alloc,
            self.name,
            self.host,
            &mut self.seen,
            line,
            text,
            out,
            beside,
        )?;
        match self.tally.add(text, fault) {
            Some(()) => Ok(()),
            // No listing has so many blocks.
            None => Err(Failure::Unread(self.name)),
        }
    }
}

impl<'n, 't, R: Read + Drop> Reporting<'n> for Linting<'n, 't, R> {
    ghost use Rattle.acl_reports.specs.Reporting.{IsListingFailure};
    ghost use Rattle.acl_listing_lint.specs.LintSteps.{EndsSo, IsBegun, IsReported, left_of};

    ghost Reports = { λ linting. IsReported (left_of linting) };

    ghost Begins = { λ linting. IsBegun (left_of linting) };

    ghost Ends = { λ linting. EndsSo (left_of linting) };

    ghost Fails = { λ linting. IsListingFailure linting.name.now };

    fn report_next(
        &mut self,
        alloc: Global,
        out: &mut Vec<u8>,
        beside: &mut Vec<u8>,
    ) -> Result<bool, Failure<'n>> {
        if self.closed {
            return Ok(false);
        }
        if advance(self.name, &mut self.blocks)? {
            self.report_here(alloc, out, beside)?;
            return Ok(true);
        }
        self.tally.push_closing(self.name, beside)?;
        self.closed = true;
        Ok(true)
    }
}

/// Writes the findings in each block of the listing that the reader reads, in pieces as they are
/// read, and to `err` a line for each malformed block, and at the end how many these are.
fn report_listing<'n, R, W, E>(
    alloc: Global,
    name: &'n str,
    host: &Host,
    asks: bool,
    reader: R,
    out: &mut W,
    err: &mut ErrorOutput<E>,
) -> Result<Ending, Failure<'n>>
where
    R: Read + Drop,
    W: Write,
    E: Write + Drop,
    ensures answered { IfOk result (λ ending. WentOut (AnswersLints
        (record { name = name.entry.now; host = host.now }) asks (R.remaining reader)) ending
        (W.contents out.old) (W.contents out.new) err.old err.new) }
    ensures cut { OnErr result (NothingWentOut (W.contents out.old) (W.contents out.new) err.old
        err.new ⊎ FrontWentOut (BeginsLints (record { name = name.entry.now; host = host.now })
        asks (R.remaining reader)) (W.contents out.old) (W.contents out.new) err.old err.new) }
    ensures failed { IfErr result (λ failure. IsListingFailure name.entry.now failure
        ⊎ (failure ≡ failed_write)) }
{
    let blocks = Blocks::new(alloc, reader)?;
    let mut linting = Linting {
        name,
        host,
        blocks,
        seen: nothing_seen(alloc),
        tally: Tally::new(),
        closed: false,
    };
    let some = report_each(alloc, &mut linting, out, err)?;
    if linting.closed {
        Ok(with_difference(asks, some, linting.tally.ending()))
    } else {
        // All is reported only once the end is.
        Err(Failure::Unread(name))
    }
}

/// Writes the findings in the listing of this name: `input` for `-`, and else the file with the
/// name, which leaves `input` as it is.
pub(crate) fn report_named<'n, F, I, W, E>(
    alloc: Global,
    files: &F,
    name: &'n str,
    host: &Host,
    asks: bool,
    input: &mut I,
    out: &mut W,
    err: &mut ErrorOutput<E>,
) -> Result<Ending, Failure<'n>>
where
    F: OpenFiles,
    I: Read,
    W: Write,
    E: Write + Drop,
    ensures { Comes (named_meaning (F.bytes_of files.now) (I.remaining input.old)
        (record { name = name.entry.now; host = host.now }) asks) result (W.contents out.old)
        (W.contents out.new) err.old err.new input.old input.new }
{
    if name == INPUT {
        return report_listing(alloc, name, host, asks, input, out, err);
    }
    match files.open(name) {
        Ok(file) => report_listing(alloc, name, host, asks, file, out, err),
        Err(error) => Err(Failure::CannotRead(name, Reason::of(error.kind()))),
    }
}
