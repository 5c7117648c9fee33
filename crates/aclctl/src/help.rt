//! The program's help and version.
ghost use Rattle.std.specs.Prelude.{◌≡◌, ◌++◌, ℕ, IfSome, List};
ghost use Rattle.acl_cli.specs.Commands.{Ends};
ghost use Rattle.acl_cli.specs.ErrorOutput.{Reports};
ghost use Rattle.acl_cli.specs.Failures.{line_of, status_of};
ghost use Rattle.acl_cli.specs.declared.failure.Failure.TheVariants as failure;
ghost use Rattle.acl_cli.specs.declared.misuse.Misuse.TheVariants.{NoCommand};
ghost use Rattle.aclctl.specs.HelpText.{help_text};
ghost use Rattle.aclctl.specs.Program.{text_meaning, version_text};

use acl_cli::{ErrorOutput, Failure, Misuse, RunFault, write_text};
use std::alloc::Global;
use std::io::{Read, Write};

/// The program's help.
pub const HELP: &str = "usage: aclctl COMMAND [OPTION].. [WORD]..

commands:
  who        reports who may do what with each file of a listing
  why        reports why a user may access a file of a listing, or why not
  impact     reports who gains or loses access between two listings
  restore    prints what setfacl needs to restore the lists of an earlier listing
  translate  prints a listing with an NFSv4 list for each file
  next       prints a listing with the file that a user would create in each folder
  decide     reports whether an access control list grants a request
  explain    reports which entries of the list decide that
  compare    reports whether anybody gains or loses access between two lists
  run        lets sessions work on one tree at the same time, and prints their answers
  list       prints a tree as a listing that the other commands read
  accounts   prints the users and groups of a setup, as getent prints a host's
  dump       prints a tree as a session that makes it again
  lint       reports what is wrong with a listing, a setup or sessions, and where
  help       prints this; help COMMAND prints the options of a command
  --version  prints the version

COMMAND --help prints the options of a command, too. Without any words, aclctl
reads them from standard input, one a line, the command first.

A listing is what getfacl -R prints; users and groups are those of this host:
  getfacl -Rn /srv/share | aclctl who --reach --perms w -
decide, explain and compare take a list by itself, and decimal ids:
  aclctl decide --owner 1000 --group 50 --uid 1001 --gids 50,60 --perms r u::rw,g::r,o::-

Exit status: 0 with an answer (granted or denied, alike or differ, a run's
outputs), 1 if something is malformed or can't be read, 2 if the words are
wrong, 3 if there is no memory or thread left or the output can't be written,
4 if some files of a listing can't be evaluated, and 5 with --exit-code if there
is something to report.
";

/// How many bytes of a word are shown.
const MAX_SHOWN: usize = 64;

const VERSION: &str = "aclctl 0.1.0\n";

/// Prints a text, and returns the exit status. Standard input is left as it is.
fn print<I: Read, W: Write, E: Write + Drop>(
    text: &str,
    input: &mut I,
    out: &mut W,
    err: &mut ErrorOutput<E>,
) -> u8
    ensures { Ends (text_meaning text.now) result (W.contents out.old) (W.contents out.new) err.old
        err.new input.old input.new }
{
    match write_text(text.as_bytes(), out) {
        Ok(()) => 0,
        Err(_) => {
            let failure = Failure::Lacks(RunFault::Output);
            failure.report(err);
            failure.status()
        }
    }
}

/// Prints the program's help, and returns the exit status.
#[tactic(auto, unfolding(crate::specs::HelpText::help_text))]
pub fn print_help<I: Read, W: Write, E: Write + Drop>(
    input: &mut I,
    out: &mut W,
    err: &mut ErrorOutput<E>,
) -> u8
    ensures { Ends (text_meaning help_text) result (W.contents out.old) (W.contents out.new) err.old
        err.new input.old input.new }
{
    print(HELP, input, out, err)
}

/// Prints the program's name and version, and returns the exit status.
pub fn print_version<I: Read, W: Write, E: Write + Drop>(
    input: &mut I,
    out: &mut W,
    err: &mut ErrorOutput<E>,
) -> u8
    ensures { Ends (text_meaning version_text) result (W.contents out.old) (W.contents out.new)
        err.old err.new input.old input.new }
{
    print(VERSION, input, out, err)
}

/// Reports that no command was named, with the word if it is short, and prints the help on standard
/// error. Returns the exit status, also if standard error can't be written.
pub fn report_no_command<E: Write + Drop>(
    alloc: Global,
    word: Option<&str>,
    err: &mut ErrorOutput<E>,
) -> u8
    ensures status { result ≡ status_of (failure.Misuse NoCommand) }
    ensures reported { (more : List ℕ)
        × IfSome (line_of (failure.Misuse NoCommand)) (λ line. Reports (line
        ++ more) err.old err.new) }
{
    Failure::Misuse(Misuse::NoCommand).report(err);
    let named = named_by(alloc, word).unwrap_or(String::new(alloc));
    err.write_text(named.as_bytes());
    err.write_text(b"\n");
    err.write_text(HELP.as_bytes());
    Failure::Misuse(Misuse::NoCommand).status()
}

/// The line about a word that names no command. `None` if the word is long, or memory runs out.
fn named_by(alloc: Global, word: Option<&str>) -> Option<String> {
    match word {
        Some(word) if word.len() <= MAX_SHOWN => {
            format!(in alloc; "{word:?} names no command\n").ok()
        }
        _ => None,
    }
}
