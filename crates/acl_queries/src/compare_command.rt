//! The command `compare`.

mod command_line;
mod comparison;
mod text;

use crate::command::query::answer_query;
use acl_cli::{Command, Ending, ErrorOutput, Failure, OpenFiles};
use clap::ArgMatches;
use comparison::Comparison;
use std::alloc::Global;
use std::io::{Read, Write};

/// Reports whether anybody gains or loses access if one access control list replaces another. The
/// words begin with the command's name: `compare --owner N --group N STYLE TEXT STYLE TEXT`, where
/// STYLE is `posix` or `nfs4`. The answer goes to `out`, written at once after all of it is made:
/// `alike`, if both lists grant every requester the same, of whatever uid and groups; else
/// `differ`, and a line each with a requester who isn't granted the same, what is lost and what is
/// gained. Which requester is reported isn't fixed, if there are several; it is one in at most two
/// groups. Failures go to `err`; a fault while writing there changes nothing.
///
/// Between NFSv4 lists it compares all bits of a mask, and between a POSIX list and an NFSv4 list
/// those of a file mode, each by itself: `alike` then says nothing about requests of several
/// permissions, which one of the lists may grant as a whole and the other not. Between POSIX lists
/// it compares the permissions, first each by itself and then the requests of several.
///
/// The exit status is 0 with the answer, and with help, which goes to `out` too; 1 if a field is
/// malformed, 2 if the parser refuses the words, and 3 if memory runs out or the answer can't be
/// written.
#[derive(Clone, Copy)]
pub struct Compare;

impl Command for Compare {
    ghost use Rattle.std.specs.Prelude.{true};
    ghost use Rattle.acl_queries.specs.Differences.{compare_meaning};

    ghost meaning = { λ files input. compare_meaning };

    ghost helps = { true };

    fn answers_help() -> bool {
        true
    }

    fn answer<'a, F: OpenFiles, I: Read, W: Write, E: Write + Drop>(
        &self,
        alloc: Global,
        _files: &F,
        matches: &ArgMatches<'a>,
        input: &mut I,
        out: &mut W,
        err: &mut ErrorOutput<E>,
    ) -> Result<Ending, Failure<'a>> {
        answer_query::<Comparison, I, W, E>(alloc, matches, input, out, err)
    }
}
