//! The command `next`.

use crate::creation::Creation;
use crate::maker::maker_field;
use crate::modes::{kind_field, modes_field};
use crate::reporter::NextReporter;
use acl_cli::fields::flag_field;
use acl_cli::{
    Command as CliCommand, CommandLine, Ending, ErrorOutput, Failure, Given, Line, OpenFiles, Word,
};
use acl_people::options::{ACCOUNTS, DOMAIN};
use acl_people::read_host;
use acl_reports::options::LISTING;
use acl_reports::{listing_field, report_named};
use clap::ArgMatches;
use std::alloc::Global;
use std::io::{Read, Write};

/// The end of help: the answer, and the exit statuses.
const ANSWERS: &str = "For example, who could read what alice writes next:
  getfacl -Rnp /srv/share > l
  aclctl next --user alice l | aclctl who --reach --perms r - | grep '/next$'

Prints the listing, and after each folder's block that of FOLDER/next, as alice
would create it there. She owns it; its group is the folder's if that has the
flag s, else her first. Its list is what it inherits from the folder, limited by
the mode; if it inherits nothing, it is that of the mode without the umask's
bits. next doesn't check whether she may create it. A folder is a block with
flags or a default list, or directly before one below it. Blocks that can't be
evaluated go to standard error: aclctl: LISTING:LINE: WORD: TEXT.

Exit status: 0 if every file was evaluated; 1 if a field is malformed or a file
can't be read; 2 if the words are wrong; 3 if memory runs out, the listing
fails while it is read, or the answer can't be written; 4 if some files, or all,
can't be evaluated, or the listing has none.";

/// `next`: a listing with the file that a user would create in each folder.
#[derive(Clone, Copy)]
pub struct Next;

/// The words of the line, in the order of help.
const WORDS: [Word<'static>; 8] = [
    Word {
        given: Given::RequiredOption,
        name: "user",
        value: "NAME",
        help: "The user who creates the files, by name or uid",
    },
    Word {
        given: Given::Option,
        name: "mode",
        value: "OOO",
        help: "The mode that the program requests; the default is 666, or 777 with --dir",
    },
    Word {
        given: Given::Option,
        name: "umask",
        value: "OOO",
        help: "The umask, which counts if nothing is inherited; the default is 022",
    },
    Word {
        given: Given::Flag,
        name: "dir",
        value: "",
        help: "Creates folders instead of files",
    },
    Word {
        given: Given::Flag,
        name: "dirs-only",
        value: "",
        help: "Every block is a folder's, as in a listing of what find -type d prints",
    },
    ACCOUNTS,
    DOMAIN,
    LISTING,
];

impl CommandLine for Next {
    ghost use Rattle.acl_listing_creation.specs.NextLine.{next_line, next_line-free};
    ghost use Rattle.acl_listing_creation.specs.NextLine.{next_line-simple};

    ghost line = { next_line };

    ghost line_simple = { next_line-simple };

    ghost line_free = { next_line-free };

    #[tactic(auto, unfolding(crate::specs::NextLine::next_line))]
    fn line() -> Line<'static> {
        Line {
            name: "next",
            about: "Prints a listing with the file that a user would create in each folder.",
            after_help: ANSWERS,
            words: &WORDS,
        }
    }
}

impl CliCommand for Next {
    ghost use Rattle.std.specs.Prelude.{true};
    ghost use Rattle.acl_listing_creation.specs.NextMeaning.{next_meaning};

    ghost meaning = { next_meaning };

    ghost helps = { true };

    fn answers_help() -> bool {
        true
    }

    fn answer<'a, F: OpenFiles, I: Read, W: Write, E: Write + Drop>(
        &self,
        alloc: Global,
        files: &F,
        matches: &ArgMatches<'a>,
        input: &mut I,
        out: &mut W,
        err: &mut ErrorOutput<E>,
    ) -> Result<Ending, Failure<'a>> {
        let modes = modes_field(alloc, matches)?;
        let host = read_host(alloc, files, matches)?;
        let maker = maker_field(alloc, &host, matches)?;
        let reporter = NextReporter {
            host: &host,
            creation: Creation {
                owner: maker.owner,
                group: maker.group,
                kind: kind_field(matches),
                mode: modes.mode,
                umask: modes.umask,
            },
            folders_alone: flag_field(matches, "dirs-only"),
            pending: None,
        };
        report_named(
            alloc,
            files,
            listing_field(matches),
            &host,
            reporter,
            input,
            out,
            err,
        )
    }
}
