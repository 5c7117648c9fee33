//! The report on two listings, item by item.
ghost use Rattle.std.specs.Prelude.{◌≡◌, ◌⊎◌, IfErr, IfOk, OnErr};
ghost use Rattle.acl_cli.specs.Commands.{FrontWentOut, NothingWentOut, WentOut};
ghost use Rattle.acl_cli.specs.Failures.{failed_write};
ghost use Rattle.acl_reports.specs.Reporting.{IsListingFailure};
ghost use Rattle.acl_listing_changes.specs.Changes.{IsChangeAnswer, IsChangeBegun, OfAfter};
ghost use Rattle.acl_listing_changes.specs.Changes.{OfListings};

use super::kept::{KeptListing, keep_blocks};
use super::opening::opening_of;
use super::progress::{Progress, Stage};
use super::reporter::ChangeReporter;
use super::seen::Seen;
use super::sides::Sides;
use acl_cli::{Ending, ErrorOutput, Failure, Reporting, report_each};
use acl_listings::Blocks;
use acl_reports::{ending_of_both, with_difference};
use std::alloc::Global;
use std::io::{Read, Write};

/// The rest of the report on two listings.
#[derive(Drop)]
struct Changes<'n, 't, C: ChangeReporter, A: Read + Drop> {
    sides: Sides<'n, 't, C>,
    progress: Progress<A>,
}

impl<'n, 't, C: ChangeReporter, A: Read + Drop> Reporting<'n> for Changes<'n, 't, C, A> {
    ghost use Rattle.acl_reports.specs.Reporting.{IsListingFailure};
    ghost use Rattle.acl_listing_changes.specs.ChangeSteps.{BeginsLeft, EndsLeft, ReportsLeft};

    ghost Reports = { λ changes. ReportsLeft (C.wording changes.sides.reporter.now)
        changes.sides.name.now changes.sides.before.now changes.progress };

    ghost Begins = { λ changes. BeginsLeft (C.wording changes.sides.reporter.now)
        changes.sides.name.now changes.sides.before.now changes.progress };

    ghost Ends = { λ changes. EndsLeft (C.wording changes.sides.reporter.now)
        changes.sides.before.now changes.progress };

    ghost Fails = { λ changes. IsListingFailure changes.sides.name.now };

    fn report_next(
        &mut self,
        alloc: Global,
        out: &mut Vec<u8>,
        beside: &mut Vec<u8>,
    ) -> Result<bool, Failure<'n>> {
        match self.progress.stage() {
            Stage::Opening => {
                self.progress.open(&self.sides, out, beside)?;
                Ok(true)
            }
            Stage::After => {
                self.progress.go_on(alloc, &self.sides, out, beside)?;
                Ok(true)
            }
            Stage::Gone(place) => {
                let some = self
                    .progress
                    .report_gone(alloc, &self.sides, place, out, beside)?;
                Ok(some)
            }
        }
    }
}

/// Writes the report on the listing in memory, which has the first name, and the one that the
/// reader reads, which has the other, in pieces as they are read.
fn report_changes<'n, C: ChangeReporter, A, W, E>(
    alloc: Global,
    reporter: &C,
    name: &'n str,
    before: &KeptListing<'_>,
    other: &'n str,
    after: A,
    out: &mut W,
    err: &mut ErrorOutput<E>,
) -> Result<Ending, Failure<'n>>
where
    A: Read + Drop,
    W: Write,
    E: Write + Drop,
    ensures answered { IfOk result (λ ending. WentOut (OfAfter
        (IsChangeAnswer (C.wording reporter.now))
        (record { name = name.entry.now; blocks = before.now }) other.entry.now
        (A.remaining after)) ending (W.contents out.old) (W.contents out.new) err.old
        err.new) }
    ensures cut { OnErr result (NothingWentOut (W.contents out.old) (W.contents out.new) err.old
        err.new ⊎ FrontWentOut (OfAfter
        (IsChangeBegun (C.wording reporter.now))
        (record { name = name.entry.now; blocks = before.now }) other.entry.now
        (A.remaining after)) (W.contents out.old) (W.contents out.new) err.old err.new) }
    ensures failed { IfErr result (λ failure. IsListingFailure name.entry.now failure
        ⊎ (IsListingFailure other.entry.now failure ⊎ (failure ≡ failed_write))) }
{
    let opening = opening_of(alloc, name, reporter, before)?;
    let seen = Seen::new(alloc, before.len())?;
    let blocks = Blocks::new(alloc, after)?;
    let first = opening.counts.ending();
    let progress = Progress {
        stage: Stage::Opening,
        opening: opening.said,
        seen,
        blocks,
    };
    let sides = Sides {
        name: other,
        reporter,
        before,
        known: opening.known.as_slice(),
    };
    let mut changes = Changes { sides, progress };
    let some = report_each(alloc, &mut changes, out, err)?;
    match changes.progress.stage() {
        Stage::Gone(_) => {
            let second = changes.progress.ending();
            let ending = ending_of_both(first, second);
            let asks = reporter.asks();
            Ok(with_difference(asks, some, ending))
        }
        // Only the end of the report shows how it ends.
        _ => Err(Failure::Unread(other)),
    }
}

/// Writes the report on two listings, each of which has a name and a reader.
pub(super) fn report_both<'n, C: ChangeReporter, B, A, W, E>(
    alloc: Global,
    reporter: &C,
    before: (&'n str, B),
    after: (&'n str, A),
    out: &mut W,
    err: &mut ErrorOutput<E>,
) -> Result<Ending, Failure<'n>>
where
    B: Read + Drop,
    A: Read + Drop,
    W: Write,
    E: Write + Drop,
    ensures answered { IfOk result (λ ending. WentOut (OfListings
        (IsChangeAnswer (C.wording reporter.now))
        before.entry.0.now (B.remaining before.entry.1) after.entry.0.now
        (A.remaining after.entry.1)) ending (W.contents out.old)
        (W.contents out.new) err.old err.new) }
    ensures cut { OnErr result (NothingWentOut (W.contents out.old) (W.contents out.new) err.old
        err.new ⊎ FrontWentOut (OfListings (IsChangeBegun (C.wording reporter.now))
        before.entry.0.now (B.remaining before.entry.1) after.entry.0.now
        (A.remaining after.entry.1)) (W.contents out.old)
        (W.contents out.new) err.old err.new) }
    ensures failed { IfErr result (λ failure. IsListingFailure before.entry.0.now failure
        ⊎ (IsListingFailure after.entry.0.now failure ⊎ (failure ≡ failed_write))) }
{
    let blocks = keep_blocks(alloc, before.0, before.1)?;
    let kept = KeptListing::new(alloc, blocks.as_slice())?;
    report_changes(alloc, reporter, before.0, &kept, after.0, after.1, out, err)
}
