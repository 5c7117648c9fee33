//! The command `impact`.
ghost use Rattle.std.specs.Prelude.{◌≡◌, false};
ghost use Rattle.clap.specs.Words.{found_of, rows_of};
ghost use Rattle.acl_cli.specs.Commands.{Comes};
ghost use Rattle.acl_people.specs.Asked.{persons_in};
ghost use Rattle.acl_listing_changes.specs.ChangeMeaning.{after_in, before_in, is_input_twice};
ghost use Rattle.acl_listing_reach.specs.CommandSteps.{asked_meaning};
ghost use Rattle.acl_listing_reach.specs.ReachMeaning.{reach_meaning};

use crate::between::{Asked, report_between};
use crate::lines::Asking;
use crate::misfit::find_misfit;
use acl_cli::fields::{flag_field, text_field};
use acl_cli::{
    Command as CliCommand, CommandLine, Ending, ErrorOutput, Failure, Given, Line, Misuse,
    OpenFiles, Word, wrong_usage,
};
use acl_listing_changes::{
    after_field, before_field, each_has_a_line, is_input_twice, report_impact,
};
use acl_listing_queries::letters_by_reach;
use acl_people::options::{ACCOUNTS, DOMAIN, USERS};
use acl_people::{Host, People, people_elsewhere, read_host, read_other_host, read_people};
use acl_reports::options::{AFTER, BEFORE, DRAFT};
use acl_reports::rules_field;
use clap::ArgMatches;
use std::alloc::Global;
use std::io::{Read, Write};

/// The end of help: the answer, and the exit statuses.
const ANSWERS: &str = "For example:
  getfacl -Rn /srv/share > before
  getfacl -Rn /srv/share | aclctl impact --reach before -

Without --reach it compares each file's own list, whatever the parent folders
grant. With --reach it compares what who --reach prints: if a folder is opened
or closed, each file below it has a line.

Prints a line for each file where somebody gains or loses access:
differ NAME UID GIDS LOST GAINED PATH; new PATH in its place, and gone PATH at
the end. If NAME is -, UID and GIDS are somebody who is none of the users; with
--reach only the users are evaluated. With --all there is a line for each user
who is affected, and with --user one for each of these alone; then a new or gone
path is followed by such lines too. With --text, which excludes --reach, also
changed WHAT PATH, for a path whose blocks differ as read. uid 0 is never
evaluated: it may do nearly everything. Blocks that can't be evaluated go to
standard error, as aclctl: LISTING:LINE: WORD: TEXT; and for each listing how
many files name ids without an account, and the first id.

With --accounts-after, AFTER is evaluated by other accounts: what breaks if a
user leaves a group, or a group is removed. (With BEFORE twice, the accounts
alone change.) The users are those of the accounts before, and the lines have
their uid and gids. AFTER looks each up by name; a user whom the accounts after
lack keeps the uid, in no group.

Exit status: 0 if every block was evaluated; 1 if a field is malformed or a file
can't be read; 2 if the words are wrong; 3 if memory runs out, a listing fails
while it is read, or the answer can't be written; 4 if some blocks can't be
evaluated, or a listing has none; 5 with --exit-code, if there is a line.";

/// Reports who gains or loses access between two listings: `impact [--accounts FILE]
/// [--accounts-after FILE] [--domain DOMAIN] [--reach] [--draft] [--all] [--user NAME].. [--text]
/// [--exit-code] BEFORE AFTER`.
///
/// It keeps BEFORE in memory, and reads AFTER in pieces; one of them may be `-`, for `input`. With
/// `--reach` it keeps the paths and the distinct answers of both. `out` gets the lines of what
/// changed, in pieces of some 64 KiB; `err` gets a line for each block that can't be compared, and
/// for each listing their number, and how many files name ids that no account has. The answer is
/// partial if there is such a block, or a listing has none; else it differs if there is a line and
/// `--exit-code` is given.
///
/// Fails before it writes anything if options exclude each other, both listings are `-`, a file
/// can't be read or is malformed, or no user has a NAME. Fails after a prefix of the answer, maybe
/// an empty one, if memory runs out, a listing can't be read on, or `out` can't be written.
#[derive(Clone, Copy)]
pub struct Impact;

/// The words of the line, in the order of help.
const WORDS: [Word<'static>; 11] = [
    ACCOUNTS,
    Word {
        given: Given::Option,
        name: "accounts-after",
        value: "FILE",
        help: "With --reach, the users and groups after; the default is those before",
    },
    DOMAIN,
    Word {
        given: Given::Flag,
        name: "reach",
        value: "",
        help: "Counts access only if the user may also search each parent folder in the listing",
    },
    DRAFT,
    Word {
        given: Given::Flag,
        name: "all",
        value: "",
        help: "Prints a line for each user who is affected, and not only for the first",
    },
    USERS,
    Word {
        given: Given::Flag,
        name: "text",
        value: "",
        help: "Also prints a line for each path whose block differs, even if nobody is affected",
    },
    Word {
        given: Given::Flag,
        name: "exit-code",
        value: "",
        help: "Ends with status 5 if there is a line",
    },
    BEFORE,
    AFTER,
];

impl CommandLine for Impact {
    ghost use Rattle.acl_listing_reach.specs.ImpactLine.{impact_line, impact_line-free};
    ghost use Rattle.acl_listing_reach.specs.ImpactLine.{impact_line-simple};

    ghost line = { impact_line };

    ghost line_simple = { impact_line-simple };

    ghost line_free = { impact_line-free };

    #[tactic(auto, unfolding(crate::specs::ImpactLine::impact_line))]
    fn line() -> Line<'static> {
        Line {
            name: "impact",
            about: "Reports who gains or loses access between two listings that getfacl -R \
                 prints.",
            after_help: ANSWERS,
            words: &WORDS,
        }
    }
}

/// The users and groups, and the users to evaluate.
#[derive(Clone, Copy)]
struct Side<'t> {
    host: &'t Host,
    people: &'t People,
}

/// Writes what changes for users between two listings by reach, each evaluated by its own accounts.
fn report_sides<'a, F: OpenFiles, I: Read, W: Write, E: Write + Drop>(
    alloc: Global,
    files: &F,
    matches: &ArgMatches<'a>,
    earlier: Side<'_>,
    later: Side<'_>,
    input: &mut I,
    out: &mut W,
    err: &mut ErrorOutput<E>,
) -> Result<Ending, Failure<'a>>
    requires { is_input_twice (before_in (rows_of (found_of matches.now)))
        (after_in (rows_of (found_of matches.now))) ≡ false }
    ensures { Comes (asked_meaning (F.bytes_of files.now) (I.remaining input.old)
        (rows_of (found_of matches.now)) earlier.entry.host.now
        (persons_in earlier.entry.people.now) later.entry.host.now
        (persons_in later.entry.people.now)) result (W.contents out.old) (W.contents out.new)
        err.old err.new input.old input.new }
{
    let asking = Asking {
        people: earlier.people,
        each: each_has_a_line(matches),
        asks: flag_field(matches, "exit-code"),
    };
    let rules = rules_field(matches);
    let first = Asked {
        name: before_field(matches),
        host: earlier.host,
        reporter: letters_by_reach(alloc, earlier.host, earlier.people, rules)?,
    };
    let second = Asked {
        name: after_field(matches),
        host: later.host,
        reporter: letters_by_reach(alloc, later.host, later.people, rules)?,
    };
    report_between(alloc, asking, files, first, second, input, out, err)
}

/// Writes what changes for users between two listings by reach.
fn report_by_reach<'a, F: OpenFiles, I: Read, W: Write, E: Write + Drop>(
    alloc: Global,
    files: &F,
    matches: &ArgMatches<'a>,
    input: &mut I,
    out: &mut W,
    err: &mut ErrorOutput<E>,
) -> Result<Ending, Failure<'a>>
    ensures { Comes (reach_meaning (F.bytes_of files.now) (I.remaining input.old)
        (rows_of (found_of matches.now))) result (W.contents out.old) (W.contents out.new) err.old
        err.new input.old input.new }
{
    if is_input_twice(before_field(matches), after_field(matches)) {
        return Err(Failure::Misuse(Misuse::InputTwice));
    }
    let host = read_host(alloc, files, matches)?;
    let people = read_people(alloc, &host, matches)?;
    let earlier = Side {
        host: &host,
        people: &people,
    };
    let Some(name) = text_field(matches, "accounts-after") else {
        return report_sides(alloc, files, matches, earlier, earlier, input, out, err);
    };
    let other = read_other_host(alloc, files, name, matches)?;
    let others = people_elsewhere(alloc, name, &other, &people)?;
    let later = Side {
        host: &other,
        people: &others,
    };
    report_sides(alloc, files, matches, earlier, later, input, out, err)
}

impl CliCommand for Impact {
    ghost use Rattle.std.specs.Prelude.{true};
    ghost use Rattle.acl_listing_reach.specs.ImpactMeaning.{impact_meaning};

    ghost meaning = { impact_meaning };

    ghost helps = { true };

    fn answers_help() -> bool {
        true
    }

    fn answer<'a, F: OpenFiles, I: Read, W: Write, E: Write + Drop>(
        &self,
        alloc: Global,
        files: &F,
        matches: &ArgMatches<'a>,
        input: &mut I,
        out: &mut W,
        err: &mut ErrorOutput<E>,
    ) -> Result<Ending, Failure<'a>> {
        if let Some(misfit) = find_misfit(matches) {
            return Err(wrong_usage::<Impact>(alloc, misfit.kind, misfit.message));
        }
        if flag_field(matches, "reach") {
            report_by_reach(alloc, files, matches, input, out, err)
        } else {
            report_impact(alloc, files, matches, input, out, err)
        }
    }
}
