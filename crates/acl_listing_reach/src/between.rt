//! What is reported for two listings by reach.
ghost use Rattle.std.specs.Prelude.{◌≡◌, ◌⊎◌, [], IfErr, IfOk, OnErr};
ghost use Rattle.acl_cli.specs.Commands.{Comes, FrontWentOut, NothingWentOut, WentOut};
ghost use Rattle.acl_cli.specs.Failures.{IsAnswerLack, failed_write};
ghost use Rattle.acl_people.specs.Host.{names_of_host};
ghost use Rattle.acl_reports.specs.Reporting.{IsListingFailure};
ghost use Rattle.acl_listing_reach.specs.BetweenSteps.{IsAnswerBy, IsBegunBy, said_by};
ghost use Rattle.acl_listing_reach.specs.ReachAnswer.{IsReachAnswer, IsReachBegun};
ghost use Rattle.acl_listing_reach.specs.Asking.{asking_by};
ghost use Rattle.acl_listing_reach.specs.Sources.{OfSources, source_named, sources_meaning};

use crate::answered::{Answered, answer_listing};
use crate::lines::Asking;
use crate::report::{push_if_apart, report_report};
use acl_cli::{Ending, ErrorOutput, Failure, Misuse, OpenFiles};
use acl_listing_changes::open_listing;
use acl_people::Host;
use acl_reports::{BlockReporter, INPUT, ending_of_both, with_difference};
use std::alloc::{AllocError, Global};
use std::io::{Read, Write};

/// The listing of a name, and how its blocks are answered.
#[derive(Drop)]
pub(crate) struct Asked<'n, 't, T: BlockReporter + Drop> {
    pub name: &'n str,
    /// By whose names the line of a block is found that is at fault.
    pub host: &'t Host,
    pub reporter: T,
}

/// What is said of two listings of these names.
fn said_of(
    alloc: Global,
    name: &str,
    before: &Answered,
    other: &str,
    after: &Answered,
) -> Result<Vec<u8>, AllocError>
    ensures { IfOk result (λ said. said.items
        ≡ said_by name.now before.now other.now after.now) }
{
    let mut said = Vec::from_slice(alloc, before.said.as_slice())?;
    before.counts.push_last(name, &mut said)?;
    said.extend_from_slice(after.said.as_slice())?;
    push_if_apart(&before.known, &after.known, &mut said)?;
    after.counts.push_last(other, &mut said)?;
    Ok(said)
}

/// Writes what is reported for two listings of these names, of which this is answered.
fn report_answered<'n, W: Write, E: Write + Drop>(
    alloc: Global,
    asking: Asking<'_>,
    name: &'n str,
    before: &Answered,
    other: &'n str,
    after: &Answered,
    out: &mut W,
    err: &mut ErrorOutput<E>,
) -> Result<Ending, Failure<'n>>
    ensures answered { IfOk result (λ ending. WentOut (IsAnswerBy (asking_by asking.entry)
        name.entry.now before.now other.entry.now after.now) ending (W.contents out.old)
        (W.contents out.new) err.old err.new) }
    ensures cut { OnErr result (NothingWentOut (W.contents out.old) (W.contents out.new) err.old
        err.new ⊎ FrontWentOut (IsBegunBy (asking_by asking.entry) name.entry.now before.now
        other.entry.now after.now) (W.contents out.old) (W.contents out.new) err.old err.new) }
    ensures failed { IfErr result IsAnswerLack }
{
    let said = said_of(alloc, name, before, other, after)?;
    err.write_text(said.as_slice());
    let some = report_report(alloc, asking, &before.known, &after.known, out, err)?;
    let ending = ending_of_both(before.counts.ending(), after.counts.ending());
    Ok(with_difference(asking.asks, some, ending))
}

/// Writes what is reported for two listings, each of which has a reader.
fn report_both<'n, T, B, A, W, E>(
    alloc: Global,
    asking: Asking<'_>,
    before: Asked<'n, '_, T>,
    reader: B,
    after: Asked<'n, '_, T>,
    other: A,
    out: &mut W,
    err: &mut ErrorOutput<E>,
) -> Result<Ending, Failure<'n>>
where
    T: BlockReporter + Drop,
    B: Read + Drop,
    A: Read + Drop,
    W: Write,
    E: Write + Drop,
    requires before { T.Stands before.reporter [] }
    requires after { T.Stands after.reporter [] }
    ensures answered { IfOk result (λ ending. WentOut (OfSources
        (IsReachAnswer (asking_by asking.entry))
        (record {
          name = before.entry.name.now;
          bytes = B.remaining reader;
          names = names_of_host before.entry.host.now;
          part = T.part before.entry.reporter;
          stranger = T.stranger before.entry.reporter;
        })
        (record {
          name = after.entry.name.now;
          bytes = A.remaining other;
          names = names_of_host after.entry.host.now;
          part = T.part after.entry.reporter;
          stranger = T.stranger after.entry.reporter;
        })) ending (W.contents out.old) (W.contents out.new) err.old err.new) }
    ensures cut { OnErr result (NothingWentOut (W.contents out.old) (W.contents out.new) err.old
        err.new ⊎ FrontWentOut (OfSources
        (IsReachBegun (asking_by asking.entry))
        (record {
          name = before.entry.name.now;
          bytes = B.remaining reader;
          names = names_of_host before.entry.host.now;
          part = T.part before.entry.reporter;
          stranger = T.stranger before.entry.reporter;
        })
        (record {
          name = after.entry.name.now;
          bytes = A.remaining other;
          names = names_of_host after.entry.host.now;
          part = T.part after.entry.reporter;
          stranger = T.stranger after.entry.reporter;
        })) (W.contents out.old) (W.contents out.new) err.old err.new) }
    ensures failed { IfErr result (λ failure. IsListingFailure before.entry.name.now failure
        ⊎ (IsListingFailure after.entry.name.now failure ⊎ (failure ≡ failed_write))) }
{
    let name = before.name;
    let other_name = after.name;
    let first = answer_listing(alloc, name, before.host, before.reporter, reader)?;
    let second = answer_listing(alloc, other_name, after.host, after.reporter, other)?;
    report_answered(alloc, asking, name, &first, other_name, &second, out, err)
}

/// Writes what is reported for two listings, of which one may be `-`, which is `input`.
pub(crate) fn report_between<'n, T, F, I, W, E>(
    alloc: Global,
    asking: Asking<'_>,
    files: &F,
    before: Asked<'n, '_, T>,
    after: Asked<'n, '_, T>,
    input: &mut I,
    out: &mut W,
    err: &mut ErrorOutput<E>,
) -> Result<Ending, Failure<'n>>
where
    T: BlockReporter + Drop,
    F: OpenFiles,
    I: Read,
    W: Write,
    E: Write + Drop,
    requires before { T.Stands before.reporter [] }
    requires after { T.Stands after.reporter [] }
    ensures { Comes (sources_meaning (asking_by asking.entry)
        (source_named (F.bytes_of files.now) (I.remaining input.old)
        (names_of_host before.entry.host.now) (T.part before.entry.reporter)
        (T.stranger before.entry.reporter) before.entry.name.now)
        (source_named (F.bytes_of files.now) (I.remaining input.old)
        (names_of_host after.entry.host.now) (T.part after.entry.reporter)
        (T.stranger after.entry.reporter) after.entry.name.now))
        result (W.contents out.old) (W.contents out.new) err.old err.new input.old input.new }
{
    if before.name == INPUT {
        if after.name == INPUT {
            return Err(Failure::Misuse(Misuse::InputTwice));
        }
        let later = open_listing(files, after.name)?;
        return report_both(alloc, asking, before, input, after, later, out, err);
    }
    let earlier = open_listing(files, before.name)?;
    if after.name == INPUT {
        return report_both(alloc, asking, before, earlier, after, input, out, err);
    }
    let later = open_listing(files, after.name)?;
    report_both(alloc, asking, before, earlier, after, later, out, err)
}
