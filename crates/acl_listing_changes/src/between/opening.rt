//! The lines about faulty blocks of the listing before.
ghost use Rattle.std.specs.Prelude.{◌≡◌, ◌<◌, ◌+◌, IfErr, IfOk, OnOk, length};
ghost use Rattle.acl_reports.specs.Reporting.{IsListingFailure};
ghost use Rattle.acl_listing_changes.specs.ChangeSteps.{AreKnown, IsOpenedTo, IsOpening};

use super::faults::say_block;
use super::kept::KeptListing;
use super::known::{Known, known_by};
use super::reporter::{ChangeReporter, sighting_of};
use acl_cli::Failure;
use acl_reports::Counts;
use std::alloc::Global;

/// The lines about the listing before, how many of its blocks are faulty or name ids without an
/// account, and which.
#[derive(Drop)]
pub(super) struct Opening {
    pub said: Vec<u8>,
    pub counts: Counts,
    /// What is known of the block at each place.
    pub known: Vec<Known>,
}

/// Appends the line about the block at the place, if it has a fault, and what is known of it, and
/// counts it. `name` is the listing's.
fn open_block<'n, C: ChangeReporter>(
    alloc: Global,
    name: &'n str,
    reporter: &C,
    kept: &KeptListing<'_>,
    place: usize,
    counts: &mut Counts,
    said: &mut Vec<u8>,
    known: &mut Vec<Known>,
) -> Result<(), Failure<'n>>
    ensures more { place < length kept.now
        → IsOpenedTo (C.wording reporter.now) name.entry.now kept.now place said.old.items
        counts.old.tally counts.old.strangers → OnOk result (IsOpenedTo (C.wording reporter.now)
        name.entry.now kept.now (place + 1) said.new.items counts.new.tally counts.new.strangers) }
    ensures known { place < length kept.now → length known.old.items ≡ place
        → AreKnown (C.wording reporter.now) kept.now known.old.items
        → OnOk result (AreKnown (C.wording reporter.now) kept.now known.new.items
        × (length known.new.items ≡ place + 1)) }
    ensures failed { IfErr result (IsListingFailure name.entry.now) }
{
    let Some(block) = kept.block(place) else {
        return Ok(());
    };
    let text = block.text.as_slice();
    let repeated = kept.repeats(place, text);
    let found = say_block(alloc, name, reporter, block.line, text, repeated, said)?;
    known.push(known_by(found))?;
    let sighting = sighting_of(reporter, &counts.strangers, found, text);
    counts.add(name, block.line, text, found.fault, sighting)?;
    Ok(())
}

/// The lines about the listing before, which has this name.
pub(super) fn opening_of<'n, C: ChangeReporter>(
    alloc: Global,
    name: &'n str,
    reporter: &C,
    kept: &KeptListing<'_>,
) -> Result<Opening, Failure<'n>>
    ensures said { IfOk result (λ opening. IsOpening (C.wording reporter.now)
        (record { name = name.entry.now; blocks = kept.now }) opening.said.items
        opening.counts.tally opening.counts.strangers) }
    ensures known { IfOk result (λ opening.
        AreKnown (C.wording reporter.now) kept.now opening.known.items) }
    ensures failed { IfErr result (IsListingFailure name.entry.now) }
{
    let mut said = Vec::new(alloc);
    let mut known = Vec::with_capacity(alloc, kept.len())?;
    let mut counts = Counts::new();
    for place in 0..kept.len() {
        open_block(
            alloc,
            name,
            reporter,
            kept,
            place,
            &mut counts,
            &mut said,
            &mut known,
        )?;
    }
    counts.push_last(name, &mut said)?;
    Ok(Opening {
        said,
        counts,
        known,
    })
}
