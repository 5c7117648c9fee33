//! Reporting changes between two listings.
ghost use Rattle.std.specs.Prelude.{◌≡◌, ◌++◌, IfOk, OnOk, is_none, is_some, true};
ghost use Rattle.acl_listings.specs.FaultyLine.{IsFaultyAt, line_at};
ghost use Rattle.acl_reports.specs.Strangers.{IsSighting};
ghost use Rattle.acl_listing_changes.specs.ChangeSteps.{Appended, IsKnown};
ghost use Rattle.acl_listing_changes.specs.Changes.{ReportsIf, ReportsOld, Wording};

use super::known::Known;
use acl_listings::BlockFault;
use acl_reports::{Sighting, Stranger, Strangers};
use std::alloc::{AllocError, Global};

/// What was found in a block.
#[derive(Clone, Copy)]
pub(crate) struct Found {
    /// Its fault, if it has one.
    pub fault: Option<BlockFault>,
    /// Whether it names an id that no account has, if that is looked for.
    pub strange: bool,
}

/// Reports on the blocks of two listings.
pub(crate) trait ChangeReporter {
    /// The meaning of the report.
    ghost wording: { Self → Wording };

    /// Whether the exit status depends on whether anything is reported.
    fn asks(&self) -> bool
        ensures { result ≡ (wording self.now).asks };

    /// What is found in a block with this text by itself. Fails only if memory runs out.
    fn find(&self, alloc: Global, text: &[u8]) -> Result<Found, AllocError>
        ensures fault { IfOk result (λ found. found.fault ≡ (wording self.now).fault text.now) }
        ensures strange { IfOk result (λ found.
            found.strange ≡ is_some ((wording self.now).stranger text.now)) };

    /// The first such id that the block with this text names, in which one was found.
    fn stranger(&self, text: &[u8]) -> Option<Stranger>
        ensures { is_some ((wording self.now).stranger text.now) ≡ true
            → result ≡ (wording self.now).stranger text.now };

    /// The line of the block that is at fault, and how many lines are before it.
    fn faulty_line<'a>(&self, text: &'a [u8], fault: BlockFault) -> (usize, &'a [u8])
        ensures at { IsFaultyAt (wording self.now).names fault text.now result.0 }
        ensures line { result.1.now ≡ line_at text.now result.0 };

    /// Appends the report on a block whose path is new, unless it has a fault, and returns what is
    /// found in it.
    fn push_new(
        &self,
        alloc: Global,
        text: &[u8],
        out: &mut Vec<u8>,
        beside: &mut Vec<u8>,
    ) -> Result<Found, AllocError>
        ensures fault { IfOk result (λ found. found.fault ≡ (wording self.now).fault text.now) }
        ensures strange { IfOk result (λ found.
            found.strange ≡ is_some ((wording self.now).stranger text.now)) }
        ensures reported { IfOk result (λ found. Appended
            (ReportsIf (is_none found.fault) ((wording self.now).IsNew text.now)) out.old.items
            out.new.items beside.old.items beside.new.items) };

    /// Appends the report on a block whose path the block `old` had before, unless one of them has
    /// a fault, and returns what is found in the new one. `known` is what is known of `old`.
    fn push_changed(
        &self,
        alloc: Global,
        old: &[u8],
        known: Known,
        text: &[u8],
        out: &mut Vec<u8>,
        beside: &mut Vec<u8>,
    ) -> Result<Found, AllocError>
        requires { IsKnown (wording self.now) old.now known }
        ensures fault { IfOk result (λ found. found.fault ≡ (wording self.now).fault text.now) }
        ensures strange { IfOk result (λ found.
            found.strange ≡ is_some ((wording self.now).stranger text.now)) }
        ensures reported { IfOk result (λ found. Appended
            (ReportsIf (is_none found.fault) (ReportsOld
            (wording self.now) old.now text.now)) out.old.items
            out.new.items beside.old.items beside.new.items) };

    /// Appends the report on a block before whose path is gone, unless it has a fault.
    fn push_gone(
        &self,
        alloc: Global,
        old: &[u8],
        out: &mut Vec<u8>,
        beside: &mut Vec<u8>,
    ) -> Result<(), AllocError>
        ensures { OnOk result (Appended
            (ReportsIf (is_none ((wording self.now).fault old.now))
            ((wording self.now).IsGone old.now))
            out.old.items out.new.items beside.old.items beside.new.items) };

    /// Appends the line for listings without a common path, with the first path of each.
    fn push_apart(
        &self,
        first: &[u8],
        second: &[u8],
        beside: &mut Vec<u8>,
    ) -> Result<(), AllocError>
        ensures { OnOk result (beside.new.items
            ≡ beside.old.items ++ (wording self.now).apart first.now second.now) };
}

/// What the block with this text, in which this was found, has to do with ids that no account has.
/// Its lines are read only if it is the first that names one.
pub(super) fn sighting_of<C: ChangeReporter>(
    reporter: &C,
    strangers: &Strangers,
    found: Found,
    text: &[u8],
) -> Sighting
    ensures { found.strange ≡ is_some ((C.wording reporter.now).stranger text.now)
        → IsSighting strangers.now ((C.wording reporter.now).stranger text.now) result }
{
    if !found.strange {
        return Sighting::Nobody;
    }
    if strangers.first.is_some() {
        return Sighting::Another;
    }
    match reporter.stranger(text) {
        Some(stranger) => Sighting::First(stranger),
        None => Sighting::Nobody,
    }
}
