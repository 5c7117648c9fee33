//! The command `why`.
ghost use Rattle.std.specs.Prelude.{◌≡◌, IfErr, IfOk, Ok, OnErr};
ghost use Rattle.clap.specs.Words.{found_of, rows_of};
ghost use Rattle.acl_cli.specs.Commands.{Comes, FrontWentOut, WentOut};
ghost use Rattle.acl_cli.specs.Failures.{Explains, failed_write};
ghost use Rattle.acl_listing_queries.specs.PathWord.{as_listed};
ghost use Rattle.acl_listing_queries.specs.WhyMeaning.{path_in, path_meaning, user_in};
ghost use Rattle.acl_listing_queries.specs.WhySteps.{asked_by};

use super::answer::Made;
use super::asked::sought_field;
use super::path_word::as_listed;
use super::question::Question;
use super::search::seek_named;
use acl_cli::fields::text_field;
use acl_cli::options::OPTIONAL_PERMS;
use acl_cli::{
    Command as CliCommand, CommandLine, Ending, ErrorOutput, Failure, Given, Line, OpenFiles, Word,
    write_text,
};
use acl_people::options::{ACCOUNTS, DOMAIN};
use acl_people::{Host, Person, read_host};
use acl_reports::options::{DRAFT, LISTING};
use acl_reports::{listing_field, rules_field};
use clap::ArgMatches;
use std::alloc::Global;
use std::io::{Read, Write};

/// The end of help: the answer, and the exit statuses.
const ANSWERS: &str = "For example:
  getfacl -Rn /srv/share | aclctl why --user alice --perms w - srv/share/plan

The first line is granted if the file's list grants the user all of P, and the
list of each parent folder in the listing grants x; else denied. Then follows,
for each of these folders, the outermost first, and for the file:
  folder PATH granted|denied, or file PATH granted|denied
with the entries that decide, as explain prints them. PATH is written as the
listing or an answer writes it (bytes that aren't UTF-8 as \\351); the first
block that has it counts. uid 0 is refused: it may do nearly everything.

With --delete, the folders are followed by what decides who --delete. For NFSv4
lists these are d of the file's list, and D of the folder's,
  delete PATH granted|denied|-, and delete-child FOLDER granted|denied|-
with the entry that decides. If neither list allows or denies it, the folder has
to grant w and x at once (an NFSv4 list w), and if it has the sticky bit, the
user has to own it or the file:
  add FOLDER granted|denied, sticky FOLDER granted|denied, and owner UID PATH
A file without a listed parent folder is an unknown-way, with status 4.

Exit status: 0 with an answer, granted or denied; 1 if a field is malformed, a
file can't be read, or the listing has no such file; 2 if the words are wrong;
3 if memory runs out, the listing fails while it is read, or the answer can't
be written; 4 if the file's block is malformed, or its parent folders aren't
known, as standard error reports.";

/// `why`: the reasons why a user may access a file of a listing, or not.
#[derive(Clone, Copy)]
pub struct Why;

/// The words of the line, in the order of help.
const WORDS: [Word<'static>; 8] = [
    ACCOUNTS,
    DOMAIN,
    Word {
        given: Given::RequiredOption,
        name: "user",
        value: "NAME",
        help: "The user to evaluate, by name or uid",
    },
    OPTIONAL_PERMS,
    Word {
        given: Given::Flag,
        name: "delete",
        value: "",
        help: "Reports why the user may delete, rename or replace it, or not; instead of --perms",
    },
    DRAFT,
    LISTING,
    Word {
        given: Given::RequiredWord,
        name: "path",
        value: "PATH",
        help: "The file's path, as the listing or an answer writes it",
    },
];

impl CommandLine for Why {
    ghost use Rattle.acl_listing_queries.specs.WhyLine.{why_line, why_line-free, why_line-simple};

    ghost line = { why_line };

    ghost line_simple = { why_line-simple };

    ghost line_free = { why_line-free };

    #[tactic(auto, unfolding(crate::specs::WhyLine::why_line))]
    fn line() -> Line<'static> {
        Line {
            name: "why",
            about: "Reports why a user may access a file of a listing, or why not.",
            after_help: ANSWERS,
            words: &WORDS,
        }
    }
}

/// The value of PATH.
fn path_field<'a>(matches: &ArgMatches<'a>) -> &'a str
    ensures { as_listed result.now ≡ path_in (rows_of (found_of matches.now)) }
{
    text_field(matches, "path").unwrap_or("")
}

/// The user to evaluate.
fn read_user<'a>(
    alloc: Global,
    host: &Host,
    matches: &ArgMatches<'a>,
) -> Result<Person, Failure<'a>>
    ensures read { IfOk result (λ person. user_in host.now (rows_of (found_of matches.now))
        ≡ Ok person) }
    ensures refused { IfErr result
        (Explains (user_in host.now (rows_of (found_of matches.now)))) }
{
    host.read_person(alloc, text_field(matches, "user").unwrap_or(""))
}

/// Writes an answer, and its lines for standard error.
fn write_made<'n, W: Write, E: Write + Drop>(
    made: &Made,
    out: &mut W,
    err: &mut ErrorOutput<E>,
) -> Result<Ending, Failure<'n>>
    ensures written { IfOk result (λ ending. WentOut (λ answer. answer ≡ made.now) ending
        (W.contents out.old) (W.contents out.new) err.old err.new) }
    ensures cut { OnErr result (FrontWentOut (λ answer. answer ≡ made.now) (W.contents out.old)
        (W.contents out.new) err.old err.new) }
    ensures failed { IfErr result (λ failure. failure ≡ failed_write) }
{
    err.write_text(made.beside.as_slice());
    write_text(made.text.as_slice(), out)?;
    Ok(made.ending)
}

/// Writes the answer about the file at the path that a word writes, in the listing of this name.
fn report_why<'n, F, I, W, E>(
    alloc: Global,
    files: &F,
    name: &'n str,
    path: &'n str,
    question: &Question<'_>,
    input: &mut I,
    out: &mut W,
    err: &mut ErrorOutput<E>,
) -> Result<Ending, Failure<'n>>
where
    F: OpenFiles,
    I: Read,
    W: Write,
    E: Write + Drop,
    ensures { Comes (path_meaning (asked_by question.now) (F.bytes_of files.now)
        (I.remaining input.old) name.entry.now (as_listed path.entry.now)) result
        (W.contents out.old) (W.contents out.new) err.old err.new input.old input.new }
{
    let listed = as_listed(alloc, path.as_bytes())?;
    let made = seek_named(alloc, files, name, listed.as_slice(), question, input)?;
    write_made(&made, out, err)
}

impl CliCommand for Why {
    ghost use Rattle.std.specs.Prelude.{true};
    ghost use Rattle.acl_listing_queries.specs.WhyMeaning.{why_meaning};

    ghost meaning = { why_meaning };

    ghost helps = { true };

    fn answers_help() -> bool {
        true
    }

    fn answer<'a, F: OpenFiles, I: Read, W: Write, E: Write + Drop>(
        &self,
        alloc: Global,
        files: &F,
        matches: &ArgMatches<'a>,
        input: &mut I,
        out: &mut W,
        err: &mut ErrorOutput<E>,
    ) -> Result<Ending, Failure<'a>> {
        let sought = sought_field::<Why>(alloc, matches)?;
        let host = read_host(alloc, files, matches)?;
        let person = read_user(alloc, &host, matches)?;
        let question = Question {
            host: &host,
            rules: rules_field(matches),
            requester: &person.requester,
            sought,
        };
        let name = listing_field(matches);
        report_why(
            alloc,
            files,
            name,
            path_field(matches),
            &question,
            input,
            out,
            err,
        )
    }
}
