//! The command `run`.
ghost use Rattle.std.specs.Prelude.{◌≢◌, ◌<◌, ◌≤◌, ◌≡◌, ◌↔◌, All, Some, false, length, map};
ghost use Rattle.clap.specs.Words.{found_of, rows_of};
ghost use Rattle.acl_lang.specs.declared.limits.TheConstants.{MAX_TEXT_LEN};
ghost use Rattle.acl_broker.specs.declared.limits.TheConstants.{SESSIONS};
ghost use Rattle.acl_cli.specs.Commands.{Comes, Ends, of_words};
ghost use Rattle.acl_cli.specs.ErrorOutput.{ErrorText};
ghost use Rattle.acl_service.specs.RunLine.{run_line};
ghost use Rattle.acl_service.specs.RunMeaning.{run_meaning, texts_meaning};

mod command_line;
mod failure;
mod printing;
mod texts;

use crate::files::{OpenFiles, read_texts};
use acl_cli::fields::flag_field;
use acl_cli::session_files::setup_field;
use acl_cli::{Ending, ErrorOutput, Failure, parse};
use acl_runs::{Gate, OpenGate};
use clap::ArgMatches;
use command_line::limit_field;
pub use command_line::{RunLine, SESSION_WORDS, session_names};
use std::alloc::Global;
use std::convert::AsStr;
use std::io::{Read, Write};
use std::sync::Wait;
use std::thread::Threads;
use std::time::Clock;
use texts::{Options, print_texts};

/// Runs sessions with these texts over the directory and the tree that the setup opens, and writes
/// what they print to `out`. A single session's output has no heading; of several, each output
/// comes after a line `session K`, from 0 in the order of the texts. With `journal` there follow
/// the line `journal` and, for each command in the order in which they took effect, a line `K N`:
/// its session and its line's number. With `max_errors` of K, a session ends at its K-th answer
/// that is an error. A single session with neither option runs without threads.
///
/// Nothing is written before the run has ended. Failures go to `err` in one line; a fault while
/// writing there changes nothing.
///
/// Returns the exit status: 0 with the outputs; 1 if the setup is refused; 2 for more than 64
/// texts, before the setup is read; and 3 if memory runs out, the gate stops the run, a thread
/// can't be started or `out` can't be written. With 1 and 2 nothing was written, and with 3 nothing
/// or a prefix of what the run prints.
///
/// There must be at least one text, each of at most 1,048,576 bytes, and an error limit of at least
/// 1.
pub fn run_texts<R: Threads + Wait + Clock + Sync, G: Gate, W: Write, E: Write + Drop>(
    rt: &R,
    alloc: Global,
    gate: &G,
    setup: &[u8],
    texts: &[Vec<u8>],
    journal: bool,
    max_errors: Option<u32>,
    out: &mut W,
    err: &mut ErrorOutput<E>,
) -> u8
    requires count { 1 ≤ length texts.now }
    requires short { All (λ text. length text.items ≤ MAX_TEXT_LEN) texts.now }
    requires some { max_errors ≢ Some 0 }
    ensures ended { Ends (texts_meaning setup.now texts.now journal max_errors) result
        (W.contents out.old) (W.contents out.new) err.old err.new (tt {0}) (tt {0}) }
    ensures too_many { (result ≡ 2) ↔ (SESSIONS < length texts.now) }
{
    let options = Options {
        journal,
        max_errors,
    };
    match print_texts(rt, alloc, gate, setup, texts, options, out) {
        Ok(()) => 0,
        Err(failure) => {
            failure.report(err);
            failure.status()
        }
    }
}

/// Runs the sessions of files. The words begin with the command's name: `run --setup FILE
/// [--journal] [--max-errors K] SESSION..`. A SESSION `-`, which may occur once, is `input`;
/// without one, `input` isn't read. `files` opens the others: the setup first and then the sessions
/// in their order, each of at most 1,048,576 bytes, and none after one that can't be read. All are
/// read before the run begins, which is that of `run_texts`, and what they print goes to `out`.
/// Failures and help go to `err`; a fault while writing there changes nothing.
///
/// Returns the exit status: 0 with the outputs; 1 if a file can't be opened or read or is too long,
/// or the setup is refused; 2 if the parser refuses the words, or there are more than 64 sessions
/// or two of them `-`, before any file is opened; and 3 if memory runs out, a thread can't be
/// started or `out` can't be written. With 1 and 2 nothing was written, and with 3 nothing or a
/// prefix of what the run prints.
pub fn run<R, F, S, I, W, E>(
    rt: &R,
    alloc: Global,
    files: &F,
    words: &[S],
    input: &mut I,
    out: &mut W,
    err: &mut ErrorOutput<E>,
) -> u8
where
    R: Threads + Wait + Clock + Sync,
    F: OpenFiles,
    S: AsStr,
    I: Read,
    W: Write,
    E: Write + Drop,
    ensures { Ends (of_words run_line false (run_meaning (F.bytes_of files.now)
        (I.remaining input.old)) (map S.text words.now)) result (W.contents out.old)
        (W.contents out.new) err.old err.new input.old input.new }
{
    match answer_words(rt, alloc, files, words, input, out) {
        Ok(ending) => ending.status(),
        Err(failure) => {
            failure.report(err);
            failure.status()
        }
    }
}

/// Writes what the sessions print whose names the words give.
fn answer_words<'a, R, F, S, I, W>(
    rt: &R,
    alloc: Global,
    files: &F,
    words: &'a [S],
    input: &mut I,
    out: &mut W,
) -> Result<Ending, Failure<'a>>
where
    R: Threads + Wait + Clock + Sync,
    F: OpenFiles,
    S: AsStr,
    I: Read,
    W: Write,
    // Whatever went to standard error.
    ensures { (said : ErrorText) → Comes (of_words run_line false (run_meaning
        (F.bytes_of files.now) (I.remaining input.old)) (map S.text words.entry.now)) result
        (W.contents out.old) (W.contents out.new) said said input.old input.new }
{
    match parse::<RunLine, S>(alloc, words) {
        Ok(matches) => answer(rt, alloc, files, &matches, input, out),
        Err(error) => Err(Failure::from(error)),
    }
}

/// Writes what the sessions print whose names the fields give.
fn answer<'a, R, F, I, W>(
    rt: &R,
    alloc: Global,
    files: &F,
    matches: &ArgMatches<'a>,
    input: &mut I,
    out: &mut W,
) -> Result<Ending, Failure<'a>>
where
    R: Threads + Wait + Clock + Sync,
    F: OpenFiles,
    I: Read,
    W: Write,
    // Whatever went to standard error.
    ensures { (said : ErrorText) → Comes (run_meaning (F.bytes_of files.now)
        (I.remaining input.old) (rows_of (found_of matches.now))) result (W.contents out.old)
        (W.contents out.new) said said input.old input.new }
{
    let names = session_names(matches);
    let texts = read_texts(alloc, files, input, setup_field(matches), names)?;
    let options = Options {
        journal: flag_field(matches, "journal"),
        max_errors: limit_field(matches),
    };
    let setup = texts.setup.as_slice();
    let sessions = texts.sessions.as_slice();
    print_texts(rt, alloc, &OpenGate, setup, sessions, options, out)?;
    Ok(Ending::Answered)
}
