//! `impact` without `--reach`.
ghost use Rattle.std.specs.Prelude.{◌≡◌, ◌||◌, codes};
ghost use Rattle.clap.specs.Words.{found_of, rows_of};
ghost use Rattle.acl_cli.specs.Commands.{Comes};
ghost use Rattle.acl_cli.specs.Fields.{flag_in};
ghost use Rattle.acl_listing_changes.specs.ImpactMeaning.{lists_meaning, names_users};

use super::reporter::ImpactReporter;
use crate::between::{after_field, before_field, is_input_twice, report_between};
use acl_cli::fields::flag_field;
use acl_cli::{Ending, ErrorOutput, Failure, Misuse, OpenFiles};
use acl_people::{read_host, read_people, user_fields};
use acl_reports::rules_field;
use clap::ArgMatches;
use std::alloc::Global;
use std::io::{Read, Write};

/// Whether `--user` is given. Then nobody else has a line.
fn names_users(matches: &ArgMatches<'_>) -> bool
    ensures { result ≡ names_users (rows_of (found_of matches.now)) }
{
    user_fields(matches).is_some()
}

/// Whether each affected user has a line: `--all` or `--user` is given.
pub fn each_has_a_line(matches: &ArgMatches<'_>) -> bool
    ensures { result ≡ (flag_in (codes "all") (rows_of (found_of matches.now))
        || names_users (rows_of (found_of matches.now))) }
{
    flag_field(matches, "all") || names_users(matches)
}

/// Writes who gains or loses access between two listings, by each file's own list. It keeps BEFORE
/// in memory, and reads AFTER in pieces; one of them may be `-`, for `input`. It ends and fails as
/// the command does.
pub fn report_impact<'a, F: OpenFiles, I: Read, W: Write, E: Write + Drop>(
    alloc: Global,
    files: &F,
    matches: &ArgMatches<'a>,
    input: &mut I,
    out: &mut W,
    err: &mut ErrorOutput<E>,
) -> Result<Ending, Failure<'a>>
    ensures { Comes (lists_meaning (F.bytes_of files.now) (I.remaining input.old)
        (rows_of (found_of matches.now))) result (W.contents out.old) (W.contents out.new)
        err.old err.new input.old input.new }
{
    let before = before_field(matches);
    let after = after_field(matches);
    if is_input_twice(before, after) {
        return Err(Failure::Misuse(Misuse::InputTwice));
    }
    let host = read_host(alloc, files, matches)?;
    let people = read_people(alloc, &host, matches)?;
    let reporter = ImpactReporter {
        host: &host,
        people: &people,
        rules: rules_field(matches),
        each: each_has_a_line(matches),
        somebody: !names_users(matches),
        written: flag_field(matches, "text"),
        asks: flag_field(matches, "exit-code"),
    };
    report_between(alloc, &reporter, files, before, after, input, out, err)
}
