//! Commands: what their words mean, and the function that runs them.
ghost use Rattle.std.specs.Prelude.{◌≡◌, ◌⊎◌, Bool, IfErr, IfOk, List, Option, map, ℕ};
ghost use Rattle.std.specs.Io.KnownBytes.{Appends, Keeps};
ghost use Rattle.clap.specs.Words.{Row, Text, found_of, kind_of, rows_of};
ghost use Rattle.acl_cli.specs.Commands.{Comes, Ends, Meaning, of_words, status_of_ending};
ghost use Rattle.acl_cli.specs.Failures.{failed_write, is_help, out_of_memory};
ghost use Rattle.acl_cli.specs.Output.{AppendsFront};

use crate::tip::refusal_of_words;
use crate::{CommandLine, ErrorOutput, Failure, OpenFiles, RunFault, parse, write_text};
use clap::ArgMatches;
use clap::error::ErrorKind;
use std::alloc::Global;
use std::convert::AsStr;
use std::io::{Read, Write};

/// How a command ended: with its whole answer; with part of it, since some input is malformed; or
/// with a difference, if the words ask for a status about that.
#[derive(Clone, Copy, Debug, PartialEq, Eq)]
pub enum Ending {
    Answered,
    InPart,
    Differs,
}

impl Ending {
    /// The exit status.
    pub fn status(self) -> u8
        ensures { result ≡ status_of_ending self }
    {
        match self {
            Ending::Answered => 0,
            Ending::InPart => 4,
            Ending::Differs => 5,
        }
    }
}

/// A command: its line, what its fields mean, and its answer to them.
pub trait Command: CommandLine {
    /// What its fields mean, with these files and this standard input.
    ghost meaning: { (Text → Option (List ℕ)) → Option (List ℕ) → List Row → Meaning };

    /// Whether help is an answer.
    ghost helps: { Bool };

    /// Whether help is an answer, with status 0 on standard output. If not, it is wrong usage, with
    /// status 2 on standard error.
    fn answers_help() -> bool
        ensures { result ≡ helps };

    /// Writes the answer to the fields that the parser found in the words.
    fn answer<'a, F: OpenFiles, I: Read, W: Write, E: Write + Drop>(
        &self,
        alloc: Global,
        files: &F,
        matches: &ArgMatches<'a>,
        input: &mut I,
        out: &mut W,
        err: &mut ErrorOutput<E>,
    ) -> Result<Ending, Failure<'a>>
        ensures { Comes (meaning (F.bytes_of files.now) (I.remaining input.old)
            (rows_of (found_of matches.now))) result (W.contents out.old) (W.contents out.new)
            err.old err.new input.old input.new };
}

/// Whether the words asked the parser for help, or for the version.
fn is_help(error: &clap::Error) -> bool
    ensures { result ≡ is_help (kind_of error.now) }
{
    match error.kind() {
        ErrorKind::DisplayHelp => true,
        ErrorKind::DisplayVersion => true,
        _ => false,
    }
}

/// Writes the parser's help text.
fn write_help<'a, W: Write>(
    alloc: Global,
    help: &clap::Error,
    out: &mut W,
) -> Result<Ending, Failure<'a>>
    ensures written { IfOk result (λ ending. (ending ≡ Ending.Answered)
        × ((text : List ℕ) × Appends (W.contents out.old) (W.contents out.new) text)) }
    ensures lacks { IfErr result (λ failure. (failure ≡ out_of_memory)
        × Keeps (W.contents out.old) (W.contents out.new) ⊎ (failure ≡ failed_write)
        × ((text : List ℕ) × AppendsFront (W.contents out.old) (W.contents out.new) text)) }
{
    let Ok(text) = format!(in alloc; "{help}") else {
        return Err(Failure::Lacks(RunFault::Memory));
    };
    match write_text(text.as_bytes(), out) {
        Ok(()) => Ok(Ending::Answered),
        Err(_) => Err(Failure::Lacks(RunFault::Output)),
    }
}

/// Parses the words and writes the answer.
fn answer_words<'a, C, F, S, I, W, E>(
    command: &C,
    alloc: Global,
    files: &F,
    words: &'a [S],
    input: &mut I,
    out: &mut W,
    err: &mut ErrorOutput<E>,
) -> Result<Ending, Failure<'a>>
where
    C: Command,
    F: OpenFiles,
    S: AsStr,
    I: Read,
    W: Write,
    E: Write + Drop,
    ensures { Comes (of_words C.line C.helps (C.meaning (F.bytes_of files.now)
        (I.remaining input.old)) (map S.text words.entry.now)) result (W.contents out.old)
        (W.contents out.new) err.old err.new input.old input.new }
{
    match parse::<C, S>(alloc, words) {
        Ok(matches) => command.answer(alloc, files, &matches, input, out, err),
        Err(error) => {
            if C::answers_help() && is_help(&error) {
                write_help(alloc, &error, out)
            } else {
                Err(refusal_of_words::<C, S>(alloc, words, error))
            }
        }
    }
}

/// Runs the command with these words, the first of which is its name. It reports a failure on
/// `err`, and returns the exit status.
pub fn run_command<C, F, S, I, W, E>(
    command: &C,
    alloc: Global,
    files: &F,
    words: &[S],
    input: &mut I,
    out: &mut W,
    err: &mut ErrorOutput<E>,
) -> u8
where
    C: Command,
    F: OpenFiles,
    S: AsStr,
    I: Read,
    W: Write,
    E: Write + Drop,
    ensures { Ends (of_words C.line C.helps (C.meaning (F.bytes_of files.now)
        (I.remaining input.old)) (map S.text words.now)) result (W.contents out.old)
        (W.contents out.new) err.old err.new input.old input.new }
{
    match answer_words(command, alloc, files, words, input, out, err) {
        Ok(ending) => ending.status(),
        Err(failure) => {
            failure.report(err);
            failure.status()
        }
    }
}
