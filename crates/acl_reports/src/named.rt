//! Opening the listing that the words name.
ghost use Rattle.std.specs.Prelude.{◌≡◌, []};
ghost use Rattle.clap.specs.Words.{found_of, rows_of};
ghost use Rattle.acl_cli.specs.Commands.{Comes};
ghost use Rattle.acl_people.specs.Host.{names_of_host};
ghost use Rattle.acl_reports.specs.ListingMeaning.{listing_in, naming_meaning};

use crate::blocks::{BlockReporter, report_listing};
use acl_cli::fields::text_field;
use acl_cli::{Ending, ErrorOutput, Failure, OpenFiles, Reason};
use acl_people::Host;
use clap::ArgMatches;
use std::alloc::Global;
use std::io::{Read, Write};

/// The name of standard input.
pub const INPUT: &str = "-";

/// The name of the listing that the words give.
pub fn listing_field<'a>(matches: &ArgMatches<'a>) -> &'a str
    ensures { result.now ≡ listing_in (rows_of (found_of matches.now)) }
{
    text_field(matches, "listing").unwrap_or("")
}

/// Writes the report on each block of the listing of this name: `input` for `-`, and else the file
/// with the name, which leaves `input` as it is.
pub fn report_named<'n, F, T, I, W, E>(
    alloc: Global,
    files: &F,
    name: &'n str,
    host: &Host,
    reporter: T,
    input: &mut I,
    out: &mut W,
    err: &mut ErrorOutput<E>,
) -> Result<Ending, Failure<'n>>
where
    F: OpenFiles,
    T: BlockReporter + Drop,
    I: Read,
    W: Write,
    E: Write + Drop,
    requires { T.Stands reporter [] }
    ensures { Comes (naming_meaning (F.bytes_of files.now) (I.remaining input.old) name.entry.now
        (names_of_host host.now) (T.part reporter) (T.stranger reporter)) result
        (W.contents out.old) (W.contents out.new) err.old err.new input.old input.new }
{
    if name == INPUT {
        return report_listing(alloc, name, host, reporter, input, out, err);
    }
    match files.open(name) {
        Ok(file) => report_listing(alloc, name, host, reporter, file, out, err),
        Err(error) => Err(Failure::CannotRead(name, Reason::of(error.kind()))),
    }
}
