//! Two listings, the one before in memory.
ghost use Rattle.std.specs.Prelude.{◌≡◌, ◌++◌, IfErr, IfOk, OnOk, is_none, is_some};
ghost use Rattle.acl_reports.specs.Listed.{last_lines};
ghost use Rattle.acl_reports.specs.Paths.{block_for, first_path};
ghost use Rattle.acl_reports.specs.Reporting.{IsListingFailure};
ghost use Rattle.acl_listing_changes.specs.ChangeSteps.{Appended, AreKnown, Here};
ghost use Rattle.acl_listing_changes.specs.ChangeSteps.{ReportsMissing, ReportsReported};
ghost use Rattle.acl_listing_changes.specs.ChangeSteps.{fault_here};
ghost use Rattle.acl_listing_changes.specs.Changes.{ReportsIf, ReportsNextBy, ReportsSince};
ghost use Rattle.acl_listing_changes.specs.Changes.{apart_by};
ghost use Rattle.acl_listing_changes.specs.Kept.{place_of};

use super::faults::{push_fault, say_block};
use super::kept::KeptListing;
use super::known::{Known, known_at};
use super::reporter::{ChangeReporter, Found};
use super::seen::Seen;
use acl_cli::Failure;
use std::alloc::{AllocError, Global};

/// Two listings, and the reporter of what changed between them.
#[derive(Drop)]
pub(super) struct Sides<'n, 't, C: ChangeReporter> {
    /// The name of the listing after.
    pub name: &'n str,
    pub reporter: &'t C,
    pub before: &'t KeptListing<'t>,
    /// What is known of the block before at each place.
    pub known: &'t [Known],
    ghost are_known: { AreKnown (C.wording reporter.now) before.now known.now },
}

impl<'n, 't, C: ChangeReporter> Sides<'n, 't, C> {
    /// Appends the report on a block after with this text, unless it has a fault. `place` is that
    /// of the block before with its path.
    fn push_since(
        &self,
        alloc: Global,
        place: Option<usize>,
        text: &[u8],
        out: &mut Vec<u8>,
        beside: &mut Vec<u8>,
    ) -> Result<Found, AllocError>
        ensures fault { IfOk result (λ found.
            found.fault ≡ (C.wording self.now.reporter.now).fault text.now) }
        ensures strange { IfOk result (λ found.
            found.strange ≡ is_some ((C.wording self.now.reporter.now).stranger text.now)) }
        ensures reported { place ≡ place_of self.now.before.now text.now → IfOk result (λ found.
            Appended (ReportsIf (is_none found.fault) (ReportsSince
            (C.wording self.now.reporter.now) (block_for self.now.before.now text.now) text.now))
            out.old.items out.new.items beside.old.items beside.new.items) }
    {
        match self.before.block_at(place) {
            None => self.reporter.push_new(alloc, text, out, beside),
            Some(old) => {
                let old = old.text.as_slice();
                let known = known_at(self.known, place);
                self.reporter
                    .push_changed(alloc, old, known, text, out, beside)
            }
        }
    }

    /// Appends the report on a block after with this text, whose path is no repeated one, or the
    /// line about its fault. `place` is that of the block before with its path.
    fn report_once(
        &self,
        alloc: Global,
        place: Option<usize>,
        line: u64,
        text: &[u8],
        out: &mut Vec<u8>,
        beside: &mut Vec<u8>,
    ) -> Result<Found, Failure<'n>>
        ensures fault { IfOk result (λ found.
            found.fault ≡ (C.wording self.now.reporter.now).fault text.now) }
        ensures strange { IfOk result (λ found.
            found.strange ≡ is_some ((C.wording self.now.reporter.now).stranger text.now)) }
        ensures reported { place ≡ place_of self.now.before.now text.now → IfOk result (λ found.
            Appended (ReportsNextBy (C.wording self.now.reporter.now) self.now.name.now
            (block_for self.now.before.now text.now) (record { line = line; text = text.now })
            found.fault) out.old.items out.new.items beside.old.items beside.new.items) }
        ensures failed { IfErr result (IsListingFailure self.now.name.now) }
    {
        let found = self.push_since(alloc, place, text, out, beside)?;
        let strange = found.strange;
        let Some(fault) = found.fault else {
            return Ok(Found {
                fault: None,
                strange,
            });
        };
        push_fault(self.name, self.reporter, line, text, fault, beside)?;
        Ok(Found {
            fault: Some(fault),
            strange,
        })
    }

    /// Appends the report on a block after with this text, or the line about its fault. `place` is
    /// that of the block before with its path.
    pub fn report_block(
        &self,
        alloc: Global,
        seen: &Seen,
        place: Option<usize>,
        line: u64,
        text: &[u8],
        out: &mut Vec<u8>,
        beside: &mut Vec<u8>,
    ) -> Result<Found, Failure<'n>>
        ensures fault { place ≡ place_of self.now.before.now text.now → IfOk result (λ found.
            found.fault ≡ fault_here (C.wording self.now.reporter.now) self.now.before.now
            seen.now.met text.now) }
        ensures strange { IfOk result (λ found.
            found.strange ≡ is_some ((C.wording self.now.reporter.now).stranger text.now)) }
        ensures reported { place ≡ place_of self.now.before.now text.now → IfOk result (λ _.
            Appended (ReportsReported (C.wording self.now.reporter.now) self.now.name.now
            self.now.before.now (Here seen.now (record { line = line; text = text.now })))
            out.old.items out.new.items beside.old.items beside.new.items) }
        ensures failed { IfErr result (IsListingFailure self.now.name.now) }
    {
        if seen.is_met(place) {
            return say_block(alloc, self.name, self.reporter, line, text, true, beside);
        }
        self.report_once(alloc, place, line, text, out, beside)
    }

    /// Appends the line for listings without a common path.
    fn say_apart(&self, seen: &Seen, beside: &mut Vec<u8>) -> Result<(), AllocError>
        ensures { OnOk result (beside.new.items ≡ beside.old.items
            ++ apart_by (C.wording self.now.reporter.now) seen.now.known
            (first_path self.now.before.now) seen.now.first) }
    {
        if seen.is_known() {
            return Ok(());
        }
        match (self.before.first_path(), seen.first()) {
            (Some(first), Some(second)) => self.reporter.push_apart(first, second, beside),
            _ => Ok(()),
        }
    }

    /// Appends the closing lines, once all blocks after were reported.
    pub fn say_closing(&self, seen: &Seen, beside: &mut Vec<u8>) -> Result<(), AllocError>
        ensures { OnOk result (beside.new.items ≡ beside.old.items
            ++ (apart_by (C.wording self.now.reporter.now) seen.now.known
            (first_path self.now.before.now) seen.now.first
            ++ last_lines self.now.name.now seen.now.tally seen.now.strangers)) }
    {
        self.say_apart(seen, beside)?;
        seen.counts().push_last(self.name, beside)
    }

    /// Appends the report on the block before at this place, if its path is gone.
    pub fn report_missing(
        &self,
        alloc: Global,
        seen: &Seen,
        place: usize,
        out: &mut Vec<u8>,
        beside: &mut Vec<u8>,
    ) -> Result<(), AllocError>
        ensures { OnOk result (Appended (ReportsMissing (C.wording self.now.reporter.now)
            self.now.before.now seen.now.met place) out.old.items out.new.items beside.old.items
            beside.new.items) }
    {
        if seen.is_met(Some(place)) {
            return Ok(());
        }
        let Some(block) = self.before.block(place) else {
            return Ok(());
        };
        let text = block.text.as_slice();
        if self.before.repeats(place, text) {
            return Ok(());
        }
        self.reporter.push_gone(alloc, text, out, beside)
    }
}
