//! How far two listings were compared.
ghost use Rattle.std.specs.Prelude.{◌≡◌, IfErr, IfOk, OnOk};
ghost use Rattle.std.specs.Bool.{MatchBool};
ghost use Rattle.acl_listings.specs.Cursor.{HandsOut, IsOver};
ghost use Rattle.acl_reports.specs.Listed.{ending_of};
ghost use Rattle.acl_reports.specs.Reporting.{IsListingFailure};
ghost use Rattle.acl_listing_changes.specs.ChangeSteps.{Appended, Here, IsLast, IsStep};
ghost use Rattle.acl_listing_changes.specs.ChangeSteps.{ReportsReported, seen_on};

use super::reporter::{ChangeReporter, sighting_of};
use super::seen::Seen;
use super::sides::Sides;
use acl_cli::{Ending, Failure};
use acl_listings::Blocks;
use acl_reports::advance;
use std::alloc::{AllocError, Global};
use std::io::Read;
use std::marker::Model;

/// The next item of the report.
#[derive(Clone, Copy, Debug, PartialEq, Eq)]
pub(super) enum Stage {
    /// The lines about the listing before.
    Opening,
    /// The next block after.
    After,
    /// The block before at this place.
    Gone(usize),
}

/// How far two listings were compared.
#[derive(Drop)]
pub(super) struct Progress<A: Read + Drop> {
    pub stage: Stage,
    /// The lines about the listing before.
    pub opening: Vec<u8>,
    pub seen: Seen,
    pub blocks: Blocks<A>,
}

impl<A: Read + Drop> Model for Progress<A> {
    ghost use Rattle.acl_listing_changes.specs.ChangeSteps.{Left};

    ghost Value = { Left };

    ghost view = { λ inside. record {
      stage = inside.stage;
      opening = inside.opening.items;
      seen = inside.seen;
      block = inside.blocks.block;
      coming = inside.blocks.coming;
    } };
}

impl<A: Read + Drop> Progress<A> {
    /// The next item of the report.
    pub fn stage(&self) -> Stage
        ensures { result ≡ self.now.stage }
    {
        self.stage
    }

    /// How the report on the blocks after that were seen ends.
    pub fn ending(&self) -> Ending
        ensures { result ≡ ending_of self.now.seen.tally }
    {
        self.seen.counts().ending()
    }

    /// Reports the lines about the listing before.
    pub fn open<'n, C: ChangeReporter>(
        &mut self,
        sides: &Sides<'n, '_, C>,
        out: &mut Vec<u8>,
        beside: &mut Vec<u8>,
    ) -> Result<(), AllocError>
        requires { self.old.stage ≡ Stage.Opening }
        ensures { OnOk result (IsStep (C.wording sides.now.reporter.now) sides.now.name.now
            sides.now.before.now self.old self.new out.old.items out.new.items beside.old.items
            beside.new.items) }
    {
        beside.extend_from_slice(self.opening.as_slice())?;
        self.stage = Stage::After;
        Ok(())
    }

    /// Goes to the next block of the listing after, which has this name.
    fn advance<'n>(&mut self, name: &'n str) -> Result<bool, Failure<'n>>
        ensures rest { OnOk result (self.new
            ≡ record self.old { block = self.new.block; coming = self.new.coming }) }
        ensures block { IfOk result (λ some. MatchBool some
            (HandsOut self.old.coming self.new.block self.new.coming)
            (IsOver self.old.coming)) }
        ensures failed { IfErr result (IsListingFailure name.entry.now) }
    {
        advance(name, &mut self.blocks)
    }

    /// Reports on the current block.
    fn report_here<'n, C: ChangeReporter>(
        &mut self,
        alloc: Global,
        sides: &Sides<'n, '_, C>,
        out: &mut Vec<u8>,
        beside: &mut Vec<u8>,
    ) -> Result<(), Failure<'n>>
        ensures seen { OnOk result (self.new ≡ record self.old {
          seen = seen_on (C.wording sides.now.reporter.now) sides.now.before.now self.old.seen
              self.old.block;
        }) }
        ensures reported { OnOk result (Appended (ReportsReported (C.wording sides.now.reporter.now)
            sides.now.name.now sides.now.before.now (Here self.old.seen self.old.block))
            out.old.items out.new.items beside.old.items beside.new.items) }
        ensures failed { IfErr result (IsListingFailure sides.now.name.now) }
    {
        let line = self.blocks.line();
        let text = self.blocks.text();
        let place = sides.before.place_of(text);
        let found = sides.report_block(alloc, &self.seen, place, line, text, out, beside)?;
        let sighting = sighting_of(sides.reporter, self.seen.strangers(), found, text);
        self.seen.add(alloc, sides.name, place, line, text, found.fault, sighting)
    }

    /// Reports on the next block after, or on the end of the listing.
    pub fn go_on<'n, C: ChangeReporter>(
        &mut self,
        alloc: Global,
        sides: &Sides<'n, '_, C>,
        out: &mut Vec<u8>,
        beside: &mut Vec<u8>,
    ) -> Result<(), Failure<'n>>
        requires { self.old.stage ≡ Stage.After }
        ensures step { OnOk result (IsStep (C.wording sides.now.reporter.now) sides.now.name.now
            sides.now.before.now self.old self.new out.old.items out.new.items beside.old.items
            beside.new.items) }
        ensures failed { IfErr result (IsListingFailure sides.now.name.now) }
    {
        if self.advance(sides.name)? {
            self.report_here(alloc, sides, out, beside)?;
            return Ok(());
        }
        sides.say_closing(&self.seen, beside)?;
        self.stage = Stage::Gone(0);
        Ok(())
    }

    /// Reports on the block before at this place, if its path is gone. Returns whether there is a
    /// block.
    pub fn report_gone<'n, C: ChangeReporter>(
        &mut self,
        alloc: Global,
        sides: &Sides<'n, '_, C>,
        place: usize,
        out: &mut Vec<u8>,
        beside: &mut Vec<u8>,
    ) -> Result<bool, AllocError>
        requires { self.old.stage ≡ Stage.Gone place }
        ensures { IfOk result (λ some. MatchBool some
            (IsStep (C.wording sides.now.reporter.now) sides.now.name.now sides.now.before.now
            self.old self.new out.old.items out.new.items beside.old.items beside.new.items)
            (IsLast (C.wording sides.now.reporter.now) sides.now.name.now sides.now.before.now
            self.old self.new out.old.items out.new.items beside.old.items beside.new.items)) }
    {
        if place >= sides.before.len() {
            return Ok(false);
        }
        sides.report_missing(alloc, &self.seen, place, out, beside)?;
        self.stage = Stage::Gone(place + 1);
        Ok(true)
    }
}
