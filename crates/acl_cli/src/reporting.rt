//! Reports that are made item by item, and written in pieces.
ghost use Rattle.std.specs.Prelude.{◌≡◌, ◌++◌, ◌⊎◌, ◌||◌, ℕ, IfErr, IfOk, List, [], OnErr};
ghost use Rattle.std.specs.Prelude.{OnOk, nat_lt, not};
ghost use Rattle.std.specs.Bool.{MatchBool};
ghost use Rattle.std.specs.Io.KnownBytes.{Appends};
ghost use Rattle.acl_cli.specs.ErrorOutput.{Reports as GoesTo};
ghost use Rattle.acl_cli.specs.Failures.{failed_write};
ghost use Rattle.acl_cli.specs.Output.{AppendsFront};
ghost use Rattle.acl_cli.specs.Reporting.{LeadsOn, is_empty};
ghost use Rattle.acl_cli.specs.declared.command.Ending.{Ending};
ghost use Rattle.acl_cli.specs.declared.failure.Failure.{Failure as FailureValue};

use crate::{ErrorOutput, Failure, RunFault, send_full, write_text};
use std::alloc::Global;
use std::io::Write;

/// A report that is made item by item: an answer, and lines for standard error.
pub trait Reporting<'n> {
    /// These texts are the whole rest of the report.
    ghost Reports: { Self → List ℕ → List ℕ → Type 0 };

    /// These texts are the first items of the rest of the report.
    ghost Begins: { Self → List ℕ → List ℕ → Type 0 };

    /// The rest of the report ends in this way.
    ghost Ends: { Self → Ending → Type 0 };

    /// The report can fail in this way.
    ghost Fails: { Self → FailureValue → Type 0 };

    /// Appends the next item's answer to `out`, and its lines for standard error to `beside`.
    /// Returns whether there was an item.
    fn report_next(
        &mut self,
        alloc: Global,
        out: &mut Vec<u8>,
        beside: &mut Vec<u8>,
    ) -> Result<bool, Failure<'n>>
        requires { Begins self.old [] [] }
        ensures reported { IfOk result (λ some. MatchBool some
            ((more : List ℕ) × (others : List ℕ) × (out.new.items ≡ out.old.items ++ more)
            × (beside.new.items ≡ beside.old.items ++ others)
            × LeadsOn (Reports self.old) (Reports self.new) more others
            × LeadsOn (Begins self.old) (Begins self.new) more others × Begins self.new [] [])
            ((out.new.items ≡ out.old.items) × (beside.new.items ≡ beside.old.items)
            × Reports self.old [] [])) }
        ensures ends { OnOk result ((ending : Ending) → Ends self.new ending
            → Ends self.old ending) }
        ensures failed { IfErr result (Fails self.old) }
        ensures stays { (failure : FailureValue) → Fails self.new failure → Fails self.old failure };
}

/// Whether the report has an answer now: it had one, or a text of `kept` bytes grew to `now`.
fn reported_more(some: bool, kept: usize, now: usize) -> bool
    ensures { result ≡ (some || nat_lt kept now) }
{
    some || now > kept
}

/// Writes the whole report, the answer in pieces of some 64 KiB, and standard error at once.
/// Returns whether there was an answer. On a failure, of the report or of a write, a prefix of the
/// answer was written, and all of the items' lines on standard error.
pub fn report_each<'n, T: Reporting<'n>, W: Write, E: Write + Drop>(
    alloc: Global,
    reporting: &mut T,
    out: &mut W,
    err: &mut ErrorOutput<E>,
) -> Result<bool, Failure<'n>>
    requires { T.Begins reporting.old [] [] }
    ensures written { IfOk result (λ some. (text : List ℕ) × (said : List ℕ)
        × T.Reports reporting.old text said × Appends (W.contents out.old) (W.contents out.new) text
        × GoesTo said err.old err.new × (some ≡ not (is_empty text))) }
    ensures cut { OnErr result ((text : List ℕ) × (said : List ℕ) × T.Begins reporting.old text said
        × AppendsFront (W.contents out.old) (W.contents out.new) text
        × GoesTo said err.old err.new) }
    // Only the end of the report shows how it ends.
    ensures ends { OnOk result ((ending : Ending) → T.Ends reporting.new ending
        → T.Ends reporting.old ending) }
    ensures failed { IfErr result (λ failure. T.Fails reporting.old failure
        ⊎ (failure ≡ failed_write)) }
{
    let mut text = Vec::new(alloc);
    let mut beside = Vec::new(alloc);
    let mut some = false;
    for _ in 0..u64::MAX {
        let kept = text.len();
        if !reporting.report_next(alloc, &mut text, &mut beside)? {
            write_text(text.as_slice(), out)?;
            return Ok(some);
        }
        let now = text.len();
        some = reported_more(some, kept, now);
        err.write_text(beside.as_slice());
        beside.clear();
        send_full(&mut text, out)?;
    }
    // No report has so many items.
    Err(Failure::Lacks(RunFault::Output))
}
