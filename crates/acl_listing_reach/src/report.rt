//! What is reported for two listings, path by path.
ghost use Rattle.std.specs.Prelude.{◌≡◌, ◌++◌, ℕ, [], IfErr, IfOk, List, OnErr, OnOk, false};
ghost use Rattle.std.specs.Prelude.{not, slice_get};
ghost use Rattle.std.specs.Io.KnownBytes.{Appends};
ghost use Rattle.std.specs.List.{list_any};
ghost use Rattle.std.specs.Option.{option_map_or};
ghost use Rattle.acl_cli.specs.Failures.{IsAnswerLack};
ghost use Rattle.acl_cli.specs.Output.{AppendsFront};
ghost use Rattle.acl_cli.specs.Reporting.{is_empty};
ghost use Rattle.acl_listing_reach.specs.Once.{has_path};
ghost use Rattle.acl_listing_reach.specs.ReachAnswer.{apart_text};
ghost use Rattle.acl_listing_reach.specs.ReachText.{after_text, gone_text, report_text};
ghost use Rattle.acl_listing_reach.specs.Asking.{asking_by};

use crate::known::KnownPaths;
use crate::lines::Asking;
use acl_cli::{ErrorOutput, Failure, Reporting, report_each};
use acl_listing_changes::push_apart;
use std::alloc::{AllocError, Global};
use std::io::Write;

/// What is reported next.
#[derive(Clone, Copy, Debug, PartialEq, Eq)]
pub(crate) enum Stage {
    /// The path of the listing after at this place.
    After(usize),
    /// The path of the listing before at this place, if the listing after hasn't it.
    Gone(usize),
}

/// What is left to report of two listings.
#[derive(Drop)]
pub(crate) struct Report<'t> {
    asking: Asking<'t>,
    before: &'t KnownPaths,
    after: &'t KnownPaths,
    stage: Stage,
}

impl<'t> Report<'t> {
    /// Appends what is reported for the path of the listing after at this place.
    fn push_after(&self, alloc: Global, place: usize, out: &mut Vec<u8>) -> Result<(), AllocError>
        ensures { OnOk result (out.new.items ≡ out.old.items ++ option_map_or
            (after_text (asking_by self.now.asking) self.now.before.now)
            (slice_get self.now.after.now place) []) }
    {
        match self.after.at(place) {
            Some(at) => {
                let was = self.before.find(at.path);
                self.asking.push_after(alloc, was, at.letters, at.path, out)
            }
            None => Ok(()),
        }
    }

    /// Appends what is reported for the path of the listing before at this place.
    fn push_gone(&self, alloc: Global, place: usize, out: &mut Vec<u8>) -> Result<(), AllocError>
        ensures { OnOk result (out.new.items ≡ out.old.items ++ option_map_or
            (gone_text (asking_by self.now.asking) self.now.after.now)
            (slice_get self.now.before.now place) []) }
    {
        match self.before.at(place) {
            Some(at) => {
                let there = self.after.has(at.path);
                self.asking
                    .push_gone(alloc, there, at.letters, at.path, out)
            }
            None => Ok(()),
        }
    }
}

impl<'n, 't> Reporting<'n> for Report<'t> {
    ghost use Rattle.std.specs.Prelude.{◌≡◌, ⊤};
    ghost use Rattle.acl_cli.specs.Failures.{out_of_memory};
    ghost use Rattle.acl_listing_reach.specs.ReportSteps.{BeginsLeft, ReportsLeft, left_text};
    ghost use Rattle.acl_listing_reach.specs.Asking.{asking_by};

    ghost Reports = { λ report. ReportsLeft (left_text (asking_by report.asking) report.before.now
        report.after.now report.stage) };

    ghost Begins = { λ report. BeginsLeft (left_text (asking_by report.asking)
        report.before.now report.after.now report.stage) };

    // How it ends isn't reported by what is left.
    ghost Ends = { λ report ending. ⊤ };

    ghost Fails = { λ report failure. failure ≡ out_of_memory };

    fn report_next(
        &mut self,
        alloc: Global,
        out: &mut Vec<u8>,
        _beside: &mut Vec<u8>,
    ) -> Result<bool, Failure<'n>> {
        match self.stage {
            Stage::After(place) => {
                if place >= self.after.len() {
                    self.stage = Stage::Gone(0);
                    return Ok(true);
                }
                self.push_after(alloc, place, out)?;
                self.stage = Stage::After(place + 1);
                Ok(true)
            }
            Stage::Gone(place) => {
                if place >= self.before.len() {
                    return Ok(false);
                }
                self.push_gone(alloc, place, out)?;
                self.stage = Stage::Gone(place + 1);
                Ok(true)
            }
        }
    }
}

/// Whether the path of the listing after at this place is one of the listing before.
fn is_shared_at(before: &KnownPaths, after: &KnownPaths, place: usize) -> bool
    ensures { result ≡ option_map_or (λ at. has_path at.path before.now)
        (slice_get after.now place) false }
{
    match after.at(place) {
        Some(at) => before.has(at.path),
        None => false,
    }
}

/// Whether a path of the listing after is one of the listing before.
fn is_any_shared(before: &KnownPaths, after: &KnownPaths) -> bool
    ensures { result ≡ list_any (λ at. has_path at.path before.now) after.now }
{
    for place in 0..after.len() {
        if is_shared_at(before, after, place) {
            return true;
        }
    }
    false
}

/// Appends what is said if both listings have paths, but none that is in both.
pub(crate) fn push_if_apart(
    before: &KnownPaths,
    after: &KnownPaths,
    out: &mut Vec<u8>,
) -> Result<(), AllocError>
    ensures { OnOk result (out.new.items ≡ out.old.items ++ apart_text before.now after.now) }
{
    if is_any_shared(before, after) {
        return Ok(());
    }
    match (before.at(0), after.at(0)) {
        (Some(first), Some(second)) => push_apart(first.path, second.path, out),
        _ => Ok(()),
    }
}

/// Writes what is reported for the paths of both listings, in pieces. Returns whether anything is.
/// If it fails, a front of that went out.
pub(crate) fn report_report<'n, W: Write, E: Write + Drop>(
    alloc: Global,
    asking: Asking<'_>,
    before: &KnownPaths,
    after: &KnownPaths,
    out: &mut W,
    err: &mut ErrorOutput<E>,
) -> Result<bool, Failure<'n>>
    ensures written { IfOk result (λ some. (text : List ℕ)
        × (text ≡ report_text (asking_by asking.entry) before.now after.now)
        × Appends (W.contents out.old) (W.contents out.new) text
        × (some ≡ not (is_empty text))) }
    ensures cut { OnErr result (AppendsFront (W.contents out.old) (W.contents out.new)
        (report_text (asking_by asking.entry) before.now after.now)) }
    ensures beside { err.new ≡ err.old }
    ensures failed { IfErr result IsAnswerLack }
{
    let mut report = Report {
        asking,
        before,
        after,
        stage: Stage::After(0),
    };
    report_each(alloc, &mut report, out, err)
}
