//! The command `lint` of a listing.

use crate::report::report_named;
use acl_cli::fields::flag_field;
use acl_cli::{
    Command as CliCommand, CommandLine, Ending, ErrorOutput, Failure, Given, Line, OpenFiles, Word,
};
use acl_people::options::{ACCOUNTS, DOMAIN};
use acl_people::read_host;
use acl_reports::listing_field;
use acl_reports::options::LISTING;
use clap::ArgMatches;
use std::alloc::Global;
use std::io::{Read, Write};

/// The end of help: the answer, and the exit statuses.
const ANSWERS: &str = "For example:
  getfacl -Rn /srv/share | aclctl lint -

Prints a line for each finding, in the listing's order, and none if there is
nothing to report: LISTING:LINE: WORD TEXT, where LINE is the entry's, or the
header's. WORD is
  no-effect   ENTRY: without it everybody has the same permissions
  masked      ENTRY PERMISSIONS: the mask takes these from the entry
  no-account  owner UID, group GID or ENTRY: no account has the id
  differs-from-default ENTRY PERMISSIONS: by its folder's default list the file
              would grant these to the named user or group, had it been created
              with the mode that it has, or none; or default:ENTRY: the file
              lacks this entry. The folder has to be listed before its content
  anyone-deletes PATH: users whom no entry names may delete in this folder what
              others own; it comes after the lines of the folder's entries
no-effect is about entries of access lists, as Linux evaluates them. NFSv4
entries with inheritance flags, or that neither allow nor deny, aren't checked.
Blocks that can't be evaluated go to standard error, as
aclctl: LISTING:LINE: WORD: TEXT.
For setups and sessions use aclctl lint --setup FILE SESSION.., and see
aclctl lint --setup FILE --help.

Exit status: 0 if every file was evaluated; 1 if a field is malformed or a file
can't be read; 2 if the words are wrong; 3 if memory runs out, the listing
fails while it is read, or the answer can't be written; 4 if some files, or all,
can't be evaluated, or the listing has none; 5 with --exit-code, if there is a
line.";

/// `lint` of a listing: what in it is wrong, or of no use, and where.
#[derive(Clone, Copy)]
pub struct LintListing;

/// The words of the line, in the order of help.
const WORDS: [Word<'static>; 4] = [
    ACCOUNTS,
    DOMAIN,
    Word {
        given: Given::Flag,
        name: "exit-code",
        value: "",
        help: "Ends with status 5 if there is a line",
    },
    LISTING,
];

impl CommandLine for LintListing {
    ghost use Rattle.acl_listing_lint.specs.LintsLine.{lints_line, lints_line-free};
    ghost use Rattle.acl_listing_lint.specs.LintsLine.{lints_line-simple};

    ghost line = { lints_line };

    ghost line_simple = { lints_line-simple };

    ghost line_free = { lints_line-free };

    #[tactic(auto, unfolding(crate::specs::LintsLine::lints_line))]
    fn line() -> Line<'static> {
        Line {
            name: "lint",
            about: "Reports which entries of a listing are useless or masked, and where.",
            after_help: ANSWERS,
            words: &WORDS,
        }
    }
}

impl CliCommand for LintListing {
    ghost use Rattle.std.specs.Prelude.{true};
    ghost use Rattle.acl_listing_lint.specs.LintsMeaning.{lints_meaning};

    ghost meaning = { lints_meaning };

    ghost helps = { true };

    fn answers_help() -> bool {
        true
    }

    fn answer<'a, F: OpenFiles, I: Read, W: Write, E: Write + Drop>(
        &self,
        alloc: Global,
        files: &F,
        matches: &ArgMatches<'a>,
        input: &mut I,
        out: &mut W,
        err: &mut ErrorOutput<E>,
    ) -> Result<Ending, Failure<'a>> {
        let host = read_host(alloc, files, matches)?;
        report_named(
            alloc,
            files,
            listing_field(matches),
            &host,
            flag_field(matches, "exit-code"),
            input,
            out,
            err,
        )
    }
}
