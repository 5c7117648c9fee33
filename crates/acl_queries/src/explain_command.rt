//! The command `explain`.

mod command_line;
mod question;
mod text;

use crate::command::query::answer_query;
use acl_cli::{Command, Ending, ErrorOutput, Failure, OpenFiles};
use clap::ArgMatches;
use question::Question;
use std::alloc::Global;
use std::io::{Read, Write};

/// Reports whether an access control list grants a request, and which entries decide. The words
/// begin with the command's name: `explain --owner N --group N --uid N [--gids N,N..] --perms P
/// STYLE TEXT`, where STYLE is `posix` or `nfs4`. The answer goes to `out`, written at once after
/// all of it is made: `granted` or `denied`, and then the reasons, a line each.
///
/// For a POSIX list these are `class` and the class of entries that decides; for each entry of the
/// class, in canonical order, `entry`, the entry, its permissions under the mask, and those of the
/// request that it lacks; and `mask` and its permissions if it limits the class. For an NFSv4 list
/// there is a line for each bit that is requested: its letter, the place, from 1, of the first
/// entry that allows or denies it, and that entry; or two hyphens if none does.
///
/// Failures go to `err`; a fault while writing there changes nothing.
///
/// The exit status is 0 with the answer, and with help, which goes to `out` too; 1 if a field is
/// malformed, 2 if the parser refuses the words, and 3 if memory runs out or the answer can't be
/// written.
#[derive(Clone, Copy)]
pub struct Explain;

impl Command for Explain {
    ghost use Rattle.std.specs.Prelude.{true};
    ghost use Rattle.acl_queries.specs.ExplainText.{explain_meaning};

    ghost meaning = { λ files input. explain_meaning };

    ghost helps = { true };

    fn answers_help() -> bool {
        true
    }

    fn answer<'a, F: OpenFiles, I: Read, W: Write, E: Write + Drop>(
        &self,
        alloc: Global,
        _files: &F,
        matches: &ArgMatches<'a>,
        input: &mut I,
        out: &mut W,
        err: &mut ErrorOutput<E>,
    ) -> Result<Ending, Failure<'a>> {
        answer_query::<Question, I, W, E>(alloc, matches, input, out, err)
    }
}
