//! The command `lint`.

use crate::answer::write_answer;
use acl_cli::session_files::setup_field;
use acl_cli::{Command, Ending, ErrorOutput, Failure, OpenFiles};
use acl_service::{read_texts, session_names};
use clap::ArgMatches;
use std::alloc::Global;
use std::io::{Read, Write};

/// Reports what is wrong with a setup, or with sessions, before they run. The words begin with the
/// command's name: `lint --setup FILE SESSION..`. A SESSION `-`, which may occur once, is `input`;
/// without one, `input` isn't read. `files` opens the others: the setup first and then the sessions
/// in their order, each of at most 1,048,576 bytes, and none after one that can't be read. All are
/// read before anything is reported.
///
/// For a refused setup one line goes to `out`, `FILE: WORD PLACE`. WORD is the words of the fault
/// with `-` between them. PLACE is the key at fault as TOML writes it, as `user[2].uid`, counted
/// from 0; or, if the setup isn't a TOML document, `LINE:COLUMN`, both from 1. Then nothing is
/// reported about the sessions, whose names can't be resolved without the setup.
///
/// Else `out` gets a line for each line of a session to which `run` would answer with a fault, in
/// the order of the sessions and of their lines: `FILE:LINE: WORD PLACE`, where WORD is that of the
/// answer. PLACE is the first malformed piece of a list, with its number from 1, if that is the
/// fault, as `3 user:bob:rwz`; an empty piece is printed as `-`. Without such a piece PLACE is `-`.
///
/// It writes in pieces of some 64 KiB. Failures go to `err`; a fault while writing there changes
/// nothing.
///
/// The exit status is 0 with the answer, whatever it is, and with help; 1 if a file can't be opened
/// or read or is too long; 2 if the parser refuses the words, or there are more than 64 sessions or
/// two of them `-`, before any file is opened; and 3 if memory runs out or `out` can't be written.
/// With 1 and 2 nothing was written, and with 3 nothing or a prefix of the answer.
#[derive(Clone, Copy)]
pub struct Lint;

impl Command for Lint {
    ghost use Rattle.std.specs.Prelude.{true};
    ghost use Rattle.acl_lint.specs.LintAnswer.{lint_meaning};

    ghost meaning = { lint_meaning };

    ghost helps = { true };

    fn answers_help() -> bool {
        true
    }

    fn answer<'a, F: OpenFiles, I: Read, W: Write, E: Write + Drop>(
        &self,
        alloc: Global,
        files: &F,
        matches: &ArgMatches<'a>,
        input: &mut I,
        out: &mut W,
        _err: &mut ErrorOutput<E>,
    ) -> Result<Ending, Failure<'a>> {
        let setup = setup_field(matches);
        let names = session_names(matches);
        let texts = read_texts(alloc, files, input, setup, names)?;
        write_answer(alloc, setup, names, &texts, out)?;
        Ok(Ending::Answered)
    }
}
