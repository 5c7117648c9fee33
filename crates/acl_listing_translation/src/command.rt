//! The command `translate`.

use crate::form::form_field;
use crate::reporter::TranslateReporter;
use acl_cli::fields::flag_field;
use acl_cli::{
    Command as CliCommand, CommandLine, Ending, ErrorOutput, Failure, Given, Line, OpenFiles, Word,
};
use acl_people::options::{ACCOUNTS, DOMAIN};
use acl_people::read_host;
use acl_reports::options::LISTING;
use acl_reports::{listing_field, report_named};
use clap::ArgMatches;
use std::alloc::Global;
use std::io::{Read, Write};

/// The end of help: the answer, and the exit statuses.
const ANSWERS: &str = "For example:
  getfacl -Rn /srv/share | aclctl translate -

Prints the listing with an NFSv4 list for each file: the translation of its
POSIX list, and that of a default list, with FILE_INHERIT, DIRECTORY_INHERIT and
INHERIT_ONLY. An NFSv4 list stays as it is. Ids are decimal. Blocks that can't
be evaluated go to standard error: aclctl: LISTING:LINE: WORD: TEXT.

Exit status: 0 if every file was translated; 1 if a field is malformed or a file
can't be read; 2 if the words are wrong; 3 if memory runs out, the listing
fails while it is read, or the answer can't be written; 4 if some files, or all,
can't be evaluated, or the listing has none.";

/// `translate`: a listing with an NFSv4 list for each file.
#[derive(Clone, Copy)]
pub struct Translate;

/// The words of the line, in the order of help.
const WORDS: [Word<'static>; 6] = [
    ACCOUNTS,
    DOMAIN,
    Word {
        given: Given::Option,
        name: "form",
        value: "FORM",
        help: "The form of the entries: nfs4, as nfs4_getfacl prints them (default), or freebsd",
    },
    Word {
        given: Given::Flag,
        name: "attributes",
        value: "",
        help: "Appends what servers also check: A::OWNER@:tTnNcCoy and A::EVERYONE@:tncy",
    },
    Word {
        given: Given::Flag,
        name: "print0",
        value: "",
        help: "Prints for each file its entries, with commas, and its path, a zero byte after each",
    },
    LISTING,
];

impl CommandLine for Translate {
    ghost use Rattle.acl_listing_translation.specs.TranslateLine.{translate_line};
    ghost use Rattle.acl_listing_translation.specs.TranslateLine.{translate_line-free};
    ghost use Rattle.acl_listing_translation.specs.TranslateLine.{translate_line-simple};

    ghost line = { translate_line };

    ghost line_simple = { translate_line-simple };

    ghost line_free = { translate_line-free };

    #[tactic(auto, unfolding(crate::specs::TranslateLine::translate_line))]
    fn line() -> Line<'static> {
        Line {
            name: "translate",
            about: "Prints a listing of getfacl -R with an NFSv4 list for each file.",
            after_help: ANSWERS,
            words: &WORDS,
        }
    }
}

impl CliCommand for Translate {
    ghost use Rattle.std.specs.Prelude.{true};
    ghost use Rattle.acl_listing_translation.specs.TranslateMeaning.{translate_meaning};

    ghost meaning = { translate_meaning };

    ghost helps = { true };

    fn answers_help() -> bool {
        true
    }

    fn answer<'a, F: OpenFiles, I: Read, W: Write, E: Write + Drop>(
        &self,
        alloc: Global,
        files: &F,
        matches: &ArgMatches<'a>,
        input: &mut I,
        out: &mut W,
        err: &mut ErrorOutput<E>,
    ) -> Result<Ending, Failure<'a>> {
        let form = form_field(matches)?;
        let host = read_host(alloc, files, matches)?;
        let reporter = TranslateReporter {
            host: &host,
            form,
            attributes: flag_field(matches, "attributes"),
            pairs: flag_field(matches, "print0"),
        };
        report_named(
            alloc,
            files,
            listing_field(matches),
            &host,
            reporter,
            input,
            out,
            err,
        )
    }
}
