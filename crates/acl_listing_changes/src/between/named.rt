//! The two listings that words name.
ghost use Rattle.std.specs.Prelude.{◌≡◌, IfErr, IfOk};
ghost use Rattle.clap.specs.Words.{found_of, rows_of};
ghost use Rattle.acl_cli.specs.Commands.{Comes};
ghost use Rattle.acl_listing_changes.specs.ChangeMeaning.{IsUnopened, after_in, before_in};
ghost use Rattle.acl_listing_changes.specs.ChangeMeaning.{change_meaning, is_input_twice};

use super::changes::report_both;
use super::reporter::ChangeReporter;
use acl_cli::fields::text_field;
use acl_cli::{Ending, ErrorOutput, Failure, Misuse, OpenFiles, Reason};
use acl_reports::INPUT;
use clap::ArgMatches;
use std::alloc::Global;
use std::io::{Read, Write};

/// The name of the listing before.
pub fn before_field<'a>(matches: &ArgMatches<'a>) -> &'a str
    ensures { result.now ≡ before_in (rows_of (found_of matches.now)) }
{
    text_field(matches, "listing").unwrap_or("")
}

/// The name of the listing after.
pub fn after_field<'a>(matches: &ArgMatches<'a>) -> &'a str
    ensures { result.now ≡ after_in (rows_of (found_of matches.now)) }
{
    text_field(matches, "after").unwrap_or("")
}

/// Whether both listings are standard input.
pub fn is_input_twice(before: &str, after: &str) -> bool
    ensures { result ≡ is_input_twice before.now after.now }
{
    before == INPUT && after == INPUT
}

/// Opens the file of this name. Fails if that isn't possible.
pub fn open_listing<'n, F: OpenFiles>(files: &F, name: &'n str) -> Result<F::File, Failure<'n>>
    ensures opened { IfOk result (λ file. F.File.remaining file
        ≡ F.bytes_of files.now name.entry.now) }
    ensures refused { IfErr result (IsUnopened name.entry.now) }
{
    match files.open(name) {
        Ok(file) => Ok(file),
        Err(error) => Err(Failure::CannotRead(name, Reason::of(error.kind()))),
    }
}

/// Writes the report on the listings of these names. One of them may be `-`, for `input`.
pub(crate) fn report_between<'n, C, F, I, W, E>(
    alloc: Global,
    reporter: &C,
    files: &F,
    before: &'n str,
    after: &'n str,
    input: &mut I,
    out: &mut W,
    err: &mut ErrorOutput<E>,
) -> Result<Ending, Failure<'n>>
where
    C: ChangeReporter,
    F: OpenFiles,
    I: Read,
    W: Write,
    E: Write + Drop,
    ensures { Comes (change_meaning (C.wording reporter.now) (F.bytes_of files.now)
        (I.remaining input.old) before.entry.now after.entry.now) result (W.contents out.old)
        (W.contents out.new) err.old err.new input.old input.new }
{
    if is_input_twice(before, after) {
        return Err(Failure::Misuse(Misuse::InputTwice));
    }
    if before == INPUT {
        let later = open_listing(files, after)?;
        return report_both(alloc, reporter, (before, input), (after, later), out, err);
    }
    let earlier = open_listing(files, before)?;
    if after == INPUT {
        return report_both(alloc, reporter, (before, earlier), (after, input), out, err);
    }
    let later = open_listing(files, after)?;
    report_both(alloc, reporter, (before, earlier), (after, later), out, err)
}
