//! The program: its words, and the command that the first of them names.
ghost use Rattle.std.specs.Prelude.{◌≡◌, ◌≢◌, [], map, IfSome};
ghost use Rattle.std.specs.String.{string_bytes};
ghost use Rattle.acl_cli.specs.Commands.{Ends};
ghost use Rattle.aclctl.specs.Program.{EndsAs, EndsAsked, EndsFrom, help_by, help_meaning};
ghost use Rattle.aclctl.specs.declared.named.Asked.TheVariants as asked;

use crate::help::{print_help, print_version, report_no_command};
use crate::help_of::HelpOf;
use crate::input::command_words;
use crate::lint::run_lint;
use crate::named::{Asked, Named};
use acl_cli::{CommandLine, ErrorOutput, OpenFiles};
use acl_listing_changes::Restore;
use acl_listing_creation::Next;
use acl_listing_lint::LintListing;
use acl_listing_queries::{Who, Why};
use acl_listing_reach::Impact;
use acl_listing_translation::Translate;
use acl_queries::{Compare, Decide, Explain};
use acl_service::RunLine;
use acl_tree_queries::{Accounts, Dump, List};
use std::alloc::Global;
use std::convert::AsStr;
use std::io::{Read, Write};
use std::sync::Wait;
use std::thread::Threads;
use std::time::Clock;

/// Runs this command with these words, the first of which is its name.
fn run_named<R, F, S, I, W, E>(
    rt: &R,
    alloc: Global,
    command: Named,
    files: &F,
    words: &[S],
    input: &mut I,
    out: &mut W,
    err: &mut ErrorOutput<E>,
) -> u8
where
    R: Threads + Wait + Clock + Sync,
    F: OpenFiles,
    S: AsStr,
    I: Read,
    W: Write,
    E: Write + Drop,
    ensures { EndsAsked result (W.contents out.old) (W.contents out.new) err.old err.new input.old
        input.new (F.bytes_of files.now) (I.remaining input.old) (map S.text words.now)
        (asked.Command command) }
{
    match command {
        Named::Decide => acl_cli::run_command(&Decide, alloc, files, words, input, out, err),
        Named::Explain => acl_cli::run_command(&Explain, alloc, files, words, input, out, err),
        Named::Compare => acl_cli::run_command(&Compare, alloc, files, words, input, out, err),
        Named::Run => acl_service::run(rt, alloc, files, words, input, out, err),
        Named::Who => acl_cli::run_command(&Who, alloc, files, words, input, out, err),
        Named::Why => acl_cli::run_command(&Why, alloc, files, words, input, out, err),
        Named::Impact => acl_cli::run_command(&Impact, alloc, files, words, input, out, err),
        Named::Restore => acl_cli::run_command(&Restore, alloc, files, words, input, out, err),
        Named::Translate => acl_cli::run_command(&Translate, alloc, files, words, input, out, err),
        Named::Next => acl_cli::run_command(&Next, alloc, files, words, input, out, err),
        Named::List => acl_cli::run_command(&List, alloc, files, words, input, out, err),
        Named::Accounts => acl_cli::run_command(&Accounts, alloc, files, words, input, out, err),
        Named::Dump => acl_cli::run_command(&Dump, alloc, files, words, input, out, err),
        Named::Lint => run_lint(alloc, files, words, input, out, err),
        Named::Help => print_help(input, out, err),
        Named::Version => print_version(input, out, err),
    }
}

/// Prints the help of the command with this line.
fn print_help_by<C, F, I, W, E>(
    line: &C,
    alloc: Global,
    name: &str,
    files: &F,
    input: &mut I,
    out: &mut W,
    err: &mut ErrorOutput<E>,
) -> u8
where
    C: CommandLine,
    F: OpenFiles,
    I: Read,
    W: Write,
    E: Write + Drop,
    ensures { Ends (help_by name.now C.line) result (W.contents out.old) (W.contents out.new)
        err.old err.new input.old input.new }
{
    let help = HelpOf { command: line };
    acl_cli::run_command(&help, alloc, files, &[name, "--help"], input, out, err)
}

/// Prints the help of this command.
fn print_help_of<F, I, W, E>(
    alloc: Global,
    command: Named,
    files: &F,
    input: &mut I,
    out: &mut W,
    err: &mut ErrorOutput<E>,
) -> u8
where
    F: OpenFiles,
    I: Read,
    W: Write,
    E: Write + Drop,
    ensures { Ends (help_meaning command) result (W.contents out.old) (W.contents out.new) err.old
        err.new input.old input.new }
{
    let name = command.name();
    match command {
        Named::Decide => print_help_by(&Decide, alloc, name, files, input, out, err),
        Named::Explain => print_help_by(&Explain, alloc, name, files, input, out, err),
        Named::Compare => print_help_by(&Compare, alloc, name, files, input, out, err),
        Named::Run => print_help_by(&RunLine, alloc, name, files, input, out, err),
        Named::Who => print_help_by(&Who, alloc, name, files, input, out, err),
        Named::Why => print_help_by(&Why, alloc, name, files, input, out, err),
        Named::Impact => print_help_by(&Impact, alloc, name, files, input, out, err),
        Named::Restore => print_help_by(&Restore, alloc, name, files, input, out, err),
        Named::Translate => print_help_by(&Translate, alloc, name, files, input, out, err),
        Named::Next => print_help_by(&Next, alloc, name, files, input, out, err),
        Named::List => print_help_by(&List, alloc, name, files, input, out, err),
        Named::Accounts => print_help_by(&Accounts, alloc, name, files, input, out, err),
        Named::Dump => print_help_by(&Dump, alloc, name, files, input, out, err),
        Named::Lint => print_help_by(&LintListing, alloc, name, files, input, out, err),
        Named::Help | Named::Version => print_help(input, out, err),
    }
}

/// The word that isn't a command's name: the one after `help`, or else the first.
fn unnamed<S: AsStr>(words: &[S]) -> Option<&str> {
    let Some((first, more)) = words.split_first() else {
        return None;
    };
    let word = if first.as_str() == "help" {
        more.first()
    } else {
        Some(first)
    };
    word.map(|word| word.as_str())
}

/// Runs the command that the first word names (`decide`, `explain`, `compare`, `run`, `who`, `why`,
/// `impact`, `restore`, `translate`, `next`, `list`, `accounts`, `dump`, `lint`), or prints the
/// version (`--version`) or help (`help`, `--help`, `-h`; `help` with the name of a command prints
/// that command's). Returns the exit status: the command's; or 2 if the first word isn't a
/// command's name, and then help goes to `err`. With 3 (out of memory, a thread refused, a write
/// failed, or the run stopped) nothing or a prefix of the output was written.
pub fn run_command<R, F, S, I, W, E>(
    rt: &R,
    alloc: Global,
    files: &F,
    words: &[S],
    input: &mut I,
    out: &mut W,
    err: &mut ErrorOutput<E>,
) -> u8
where
    R: Threads + Wait + Clock + Sync,
    F: OpenFiles,
    S: AsStr,
    I: Read,
    W: Write,
    E: Write + Drop,
    ensures { EndsAs result (W.contents out.old) (W.contents out.new) err.old err.new input.old
        input.new (F.bytes_of files.now) (I.remaining input.old) (map S.text words.now) }
{
    match Asked::of(words) {
        Asked::Command(command) => { run_named(rt, alloc, command, files, words, input, out, err) }
        Asked::HelpOf(command) => print_help_of(alloc, command, files, input, out, err),
        Asked::Nothing => report_no_command(alloc, unnamed(words), err),
    }
}

/// Runs the command of the words given, or, if there are none, of those that the reader has, and
/// returns the exit status. With words given, the reader is only read if they name it as a session
/// or a listing.
pub fn run<R, F, I, W, E>(
    rt: &R,
    alloc: Global,
    files: &F,
    given: Vec<String>,
    reader: &mut I,
    out: &mut W,
    err: &mut ErrorOutput<E>,
) -> u8
where
    R: Threads + Wait + Clock + Sync,
    F: OpenFiles,
    I: Read,
    W: Write,
    E: Write + Drop,
    ensures given { given.items ≢ [] → EndsAs result (W.contents out.old) (W.contents out.new)
        err.old err.new reader.old reader.new (F.bytes_of files.now) (I.remaining reader.old)
        (map string_bytes given.items) }

    // Without words: with the bytes that the reader has, if they are known.
    ensures read { given.items ≡ [] → IfSome (I.remaining reader.old) (λ bytes. (between : I)
        × EndsFrom result (W.contents out.old) (W.contents out.new) err.old err.new between
        reader.new (F.bytes_of files.now) bytes) }
{
    match command_words(alloc, given, reader) {
        Ok(words) => run_command(rt, alloc, files, words.as_slice(), reader, out, err),
        Err(failure) => {
            failure.report(err);
            failure.status()
        }
    }
}
