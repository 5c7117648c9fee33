//! The command `decide`.

mod command_line;
mod question;
mod translation;

use crate::command::query::answer_query;
use acl_cli::{Command, Ending, ErrorOutput, Failure, OpenFiles};
use clap::ArgMatches;
use question::Question;
use std::alloc::Global;
use std::io::{Read, Write};

/// Reports whether an access control list grants a request. The words begin with the command's
/// name: `decide [--nfs4] --owner N --group N --uid N [--gids N,N..] --perms P TEXT`. The answer
/// goes to `out`, written at once after all of it is made: a line `granted` or `denied`, and with
/// `--nfs4` the entries of the NFSv4 list that grants the same, one a line. Failures and help go to
/// `err`; a fault while writing there changes nothing.
///
/// The exit status is 0 with the answer, 1 if a field is malformed, 2 if the parser refuses the
/// words, and 3 if memory runs out or the answer can't be written.
#[derive(Clone, Copy)]
pub struct Decide;

impl Command for Decide {
    ghost use Rattle.std.specs.Prelude.{false};
    ghost use Rattle.acl_queries.specs.DecideAnswer.{decide_meaning};

    ghost meaning = { λ files input. decide_meaning };

    ghost helps = { false };

    fn answers_help() -> bool {
        false
    }

    fn answer<'a, F: OpenFiles, I: Read, W: Write, E: Write + Drop>(
        &self,
        alloc: Global,
        _files: &F,
        matches: &ArgMatches<'a>,
        input: &mut I,
        out: &mut W,
        err: &mut ErrorOutput<E>,
    ) -> Result<Ending, Failure<'a>> {
        answer_query::<Question, I, W, E>(alloc, matches, input, out, err)
    }
}
