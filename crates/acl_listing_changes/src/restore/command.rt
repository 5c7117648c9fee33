//! The command `restore`.
use super::reporter::RestoreReporter;
use crate::between::{after_field, before_field, report_between};
use acl_cli::{
    Command as CliCommand, CommandLine, Ending, ErrorOutput, Failure, Line, OpenFiles, Word,
};
use acl_reports::options::{AFTER, BEFORE};
use clap::ArgMatches;
use std::alloc::Global;
use std::io::{Read, Write};

/// The end of help: the answer, and the exit statuses.
const ANSWERS: &str = "For example:
  getfacl -Rnp /srv/share > before
  getfacl -Rnp /srv/share | aclctl restore before - | setfacl --restore=-

Prints the blocks of BEFORE whose path has another text in AFTER, byte for byte.
setfacl takes them to restore owner, group, flags, access and default list of
every file that still exists. Standard error names the paths that are new or
gone, as aclctl: PATH: new, and the blocks that can't be compared, as
aclctl: LISTING:LINE: WORD: TEXT.

Exit status: 0 if every block was compared; 1 if a listing can't be opened;
2 if the words are wrong; 3 if memory runs out, a listing fails while it is
read, or the answer can't be written; 4 if there are blocks that can't be
compared, or a listing has none at all.";

/// `restore`: what restores the lists of the listing before.
#[derive(Clone, Copy)]
pub struct Restore;

/// The words of the line, in the order of help.
const WORDS: [Word<'static>; 2] = [BEFORE, AFTER];

impl CommandLine for Restore {
    ghost use Rattle.acl_listing_changes.specs.RestoreLine.{restore_line, restore_line-free};
    ghost use Rattle.acl_listing_changes.specs.RestoreLine.{restore_line-simple};

    ghost line = { restore_line };

    ghost line_simple = { restore_line-simple };

    ghost line_free = { restore_line-free };

    #[tactic(auto, unfolding(crate::specs::RestoreLine::restore_line))]
    fn line() -> Line<'static> {
        Line {
            name: "restore",
            about: "Prints what setfacl needs to restore the lists of an earlier listing.",
            after_help: ANSWERS,
            words: &WORDS,
        }
    }
}

impl CliCommand for Restore {
    ghost use Rattle.std.specs.Prelude.{true};
    ghost use Rattle.acl_listing_changes.specs.RestoreMeaning.{restore_meaning};

    ghost meaning = { restore_meaning };

    ghost helps = { true };

    fn answers_help() -> bool {
        true
    }

    fn answer<'a, F: OpenFiles, I: Read, W: Write, E: Write + Drop>(
        &self,
        alloc: Global,
        files: &F,
        matches: &ArgMatches<'a>,
        input: &mut I,
        out: &mut W,
        err: &mut ErrorOutput<E>,
    ) -> Result<Ending, Failure<'a>> {
        let before = before_field(matches);
        let after = after_field(matches);
        report_between(
            alloc,
            &RestoreReporter,
            files,
            before,
            after,
            input,
            out,
            err,
        )
    }
}
