//! The command `who`.
ghost use Rattle.std.specs.Prelude.{◌≡◌, IfOk};
ghost use Rattle.clap.specs.Words.{found_of, rows_of};
ghost use Rattle.acl_cli.specs.Commands.{Comes};
ghost use Rattle.acl_reports.specs.ListingMeaning.{naming_meaning};
ghost use Rattle.acl_listing_queries.specs.WhoMeaning.{reach_in};
ghost use Rattle.acl_listing_queries.specs.WhoPart.{who_part};
ghost use Rattle.acl_listing_queries.specs.WhoSteps.{IsEveryone, asking_of, stranger_by};

use super::answers::{Answers, Users};
use super::asked::asked_field;
use super::listed::ListedReporter;
use super::reach::ReachReporter;
use acl_cli::fields::flag_field;
use acl_cli::options::OPTIONAL_PERMS;
use acl_cli::{
    Command as CliCommand, CommandLine, Ending, ErrorOutput, Failure, Given, Line, OpenFiles, Word,
};
use acl_names::Requester;
use acl_people::options::{ACCOUNTS, DOMAIN, USERS};
use acl_people::{read_host, read_people};
use acl_reports::options::{DRAFT, LISTING};
use acl_reports::{listing_field, report_named, rules_field};
use clap::ArgMatches;
use std::alloc::{AllocError, Global};
use std::io::{Read, Write};

/// The end of help: the answer, and the exit statuses.
const ANSWERS: &str = "For example:
  getfacl -Rnp /srv/share | aclctl who --reach --perms w -

Prints a line for each file and each user who has a permission on it:
LETTERS NAME PATH, where - is a letter that is denied by itself. With --letters
these are all fourteen; w of a POSIX list is w and p there. With --perms P it
prints NAME PATH, for users who are granted all of P at once. With --delete it
prints NAME PATH, for users who reach the file and may delete, rename or replace
it; a path without a listed parent folder isn't evaluated. With --via it prints
VIA before PATH, the entries of the file's list that decide, with commas: owner,
user (the user's own entry), group (the file's), group:GID, other, and mask if
it takes something from one of these; for an NFSv4 list their numbers, from 1.
Blocks that can't be evaluated go to standard error, as
aclctl: LISTING:LINE: WORD: TEXT; and at the end how many files name ids without
an account, and the first id.
uid 0 is never evaluated: it may do nearly everything.

Exit status: 0 if every file was evaluated; 1 if a field is malformed or a file
can't be read; 2 if the words are wrong; 3 if memory runs out, the listing
fails while it is read, or the answer can't be written; 4 if some files, or all,
can't be evaluated, or the listing has none.";

/// Reports who may do what with each file of a listing: `who [--accounts FILE] [--domain DOMAIN]
/// [--perms P | --letters | --delete] [--reach] [--via] [--draft] [--user NAME].. LISTING`.
///
/// LISTING is read as it comes: of `-` what `input` has, else a file of `files`, which leaves
/// `input` as it is. To `out` goes a line for each file and each user who may do something with it,
/// in pieces of some 64 KiB; to `err` one for each block of which that isn't known, and at the end
/// how many these are, and how many files name ids that no account has. The answer is one in part
/// if something of a block isn't known, or there is none.
///
/// Fails if the words don't go together, P is malformed, a file can't be read or is malformed, or
/// nobody has a NAME: then nothing was written. Fails also if memory runs out, the listing can't be
/// read on, or `out` can't be written: then nothing or a prefix of the answer was.
#[derive(Clone, Copy)]
pub struct Who;

/// The words of the line, in the order of help.
const WORDS: [Word<'static>; 10] = [
    ACCOUNTS,
    DOMAIN,
    OPTIONAL_PERMS,
    Word {
        given: Given::Flag,
        name: "letters",
        value: "",
        help: "Prints all fourteen letters of an NFSv4 list, rwxpdDaARWcCos, instead of r, w and x",
    },
    Word {
        given: Given::Flag,
        name: "delete",
        value: "",
        help: "Prints who may delete, rename or replace the file in its folder",
    },
    Word {
        given: Given::Flag,
        name: "reach",
        value: "",
        help: "Prints only users who may also search each parent folder in the listing",
    },
    Word {
        given: Given::Flag,
        name: "via",
        value: "",
        help: "Also prints which entries of the list decide, before the path",
    },
    DRAFT,
    USERS,
    LISTING,
];

impl CommandLine for Who {
    ghost use Rattle.acl_listing_queries.specs.WhoLine.{who_line, who_line-free, who_line-simple};

    ghost line = { who_line };

    ghost line_simple = { who_line-simple };

    ghost line_free = { who_line-free };

    #[tactic(auto, unfolding(crate::specs::WhoLine::who_line))]
    fn line() -> Line<'static> {
        Line {
            name: "who",
            about: "Reports who may do what with each file of a listing that getfacl -R prints.",
            after_help: ANSWERS,
            words: &WORDS,
        }
    }
}

/// `true` for each of the requesters.
pub(super) fn everyone(alloc: Global, requesters: &[Requester]) -> Result<Vec<bool>, AllocError>
    ensures { IfOk result (λ marks. IsEveryone requesters.now marks.items) }
{
    let mut marks = Vec::with_capacity(alloc, requesters.len())?;
    for _requester in requesters {
        marks.push(true)?;
    }
    Ok(marks)
}

/// Whether `--reach` is given.
fn reach_field(matches: &ArgMatches<'_>) -> bool
    ensures { result ≡ reach_in (rows_of (found_of matches.now)) }
{
    flag_field(matches, "reach") || flag_field(matches, "delete")
}

/// Writes the report on each block of the listing of this name.
fn report_who<'n, F, I, W, E>(
    alloc: Global,
    files: &F,
    name: &'n str,
    users: Users<'_>,
    input: &mut I,
    out: &mut W,
    err: &mut ErrorOutput<E>,
) -> Result<Ending, Failure<'n>>
where
    F: OpenFiles,
    I: Read,
    W: Write,
    E: Write + Drop,
    ensures { Comes (naming_meaning (F.bytes_of files.now) (I.remaining input.old) name.entry.now
        (asking_of users.entry).names (who_part (asking_of users.entry)) (stranger_by users.entry))
        result (W.contents out.old) (W.contents out.new) err.old err.new input.old input.new }
{
    let answers = Answers::new(alloc, users)?;
    let everyone = everyone(alloc, users.people.requesters.as_slice())?;
    if users.reach {
        let reporter = ReachReporter::new(alloc, answers, everyone);
        return report_named(alloc, files, name, users.host, reporter, input, out, err);
    }
    let reporter = ListedReporter::new(answers, everyone);
    report_named(alloc, files, name, users.host, reporter, input, out, err)
}

impl CliCommand for Who {
    ghost use Rattle.std.specs.Prelude.{true};
    ghost use Rattle.acl_listing_queries.specs.WhoMeaning.{who_meaning};

    ghost meaning = { who_meaning };

    ghost helps = { true };

    fn answers_help() -> bool {
        true
    }

    fn answer<'a, F: OpenFiles, I: Read, W: Write, E: Write + Drop>(
        &self,
        alloc: Global,
        files: &F,
        matches: &ArgMatches<'a>,
        input: &mut I,
        out: &mut W,
        err: &mut ErrorOutput<E>,
    ) -> Result<Ending, Failure<'a>> {
        let asked = asked_field(matches)?;
        let host = read_host(alloc, files, matches)?;
        let people = read_people(alloc, &host, matches)?;
        let users = Users {
            host: &host,
            people: &people,
            asked,
            rules: rules_field(matches),
            reach: reach_field(matches),
        };
        report_who(alloc, files, listing_field(matches), users, input, out, err)
    }
}
