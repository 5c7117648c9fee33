//! The command line of `run`, and its fields.
ghost use Rattle.std.specs.Prelude.{◌≡◌, ◌≢◌, Some, map};
ghost use Rattle.clap.specs.Words.{found_of, rows_of};
ghost use Rattle.acl_service.specs.RunWords.{HasLimit, IsLimit, sessions_in};

use acl_cli::fields::text_field;
use acl_cli::options::SETUP;
use acl_cli::session_files::names_field;
use acl_cli::{CommandLine, Given, Line, Word};
use clap::ArgMatches;

/// What a setup and a session look like.
const FILES: &str = "A setup is a TOML file:
  domain = \"example.org\"
  umask = \"022\"
  root = { owner = \"alice\", group = \"staff\", mode = \"755\", style = \"posix\" }
  user = [ { name = \"alice\", uid = 1000, groups = [\"staff\"] } ]
  group = [ { name = \"staff\", gid = 50 } ]
A session has one command a line, and each answer begins with its line's number:
  create dir /plans alice 750
  set /plans access u::rwx,u:1001:rx,g::rx,m::rx,o::-
  check /plans alice rw
The commands are get, set, chmod, create, check, check4 and translate.";

/// The command line of `run`.
#[derive(Clone, Copy)]
pub struct RunLine;

/// The words that name the sessions' files, one or more.
pub const SESSION_WORDS: Word<'static> = Word {
    given: Given::Words,
    name: "session",
    value: "SESSION",
    help: "A file with a session's commands, or - for standard input; at most 64",
};

/// The words of the line, in the order of help.
const WORDS: [Word<'static>; 4] = [
    SETUP,
    Word {
        given: Given::Flag,
        name: "journal",
        value: "",
        help: "Also prints the order in which the commands took effect: session and line of each",
    },
    Word {
        given: Given::CountOption(65_535),
        name: "max-errors",
        value: "K",
        help: "Ends a session at its Kth error, 1 to 65535",
    },
    SESSION_WORDS,
];

impl CommandLine for RunLine {
    ghost use Rattle.acl_service.specs.RunLine.{run_line, run_line-free, run_line-simple};

    ghost line = { run_line };

    ghost line_simple = { run_line-simple };

    ghost line_free = { run_line-free };

    #[tactic(auto, unfolding(crate::specs::RunLine::run_line))]
    fn line() -> Line<'static> {
        Line {
            name: "run",
            about: "Lets sessions work on one tree at the same time, and prints their answers.",
            after_help: FILES,
            words: &WORDS,
        }
    }
}

/// The names of the sessions' files, at least one: the parser lets nothing else through.
#[tactic(auto, unfolding(crate::specs::RunWords::sessions_in))]
pub fn session_names<'m, 'a>(matches: &'m ArgMatches<'a>) -> &'m [&'a str]
    ensures { map (λ name. name.now) result.now ≡ sessions_in (rows_of (found_of matches.now)) }
{
    names_field(matches, "session").unwrap_or_default()
}

/// The number of a text, from 1.
fn read_limit(text: &str) -> Option<u32>
    ensures some { result ≢ Some 0 }
    ensures is { IsLimit (Some text.now) result }
{
    match text.parse() {
        Ok(0) | Err(_) => None,
        Ok(limit) => Some(limit),
    }
}

/// How many errors end a session. The parser lets only 1 to 65535 through.
pub(super) fn limit_field(matches: &ArgMatches<'_>) -> Option<u32>
    ensures some { result ≢ Some 0 }
    ensures is { HasLimit (rows_of (found_of matches.now)) result }
{
    match text_field(matches, "max-errors") {
        Some(text) => read_limit(text),
        None => None,
    }
}
