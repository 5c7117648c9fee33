//! The command `dump`.

mod command_line;
mod lines;
mod text;

use crate::answering::{PrintTree, answer_tree};
use crate::setup_tree::SetupTree;
use acl_cli::{Command, Ending, ErrorOutput, Failure, OpenFiles};
use clap::ArgMatches;
use std::alloc::Global;
use std::io::{Read, Write};
use text::push_dump;

/// Prints a tree as a session that makes it again over the same setup. The words begin with the
/// command's name: `dump --setup FILE [SESSION]`. The tree is the one that the setup opens, or what
/// the session leaves on it. A session `-` is `input`, which otherwise isn't read. `files` opens
/// the others, the setup first, each of at most 1,048,576 bytes.
///
/// `out` gets first `set / access u::-,g::-,o::-`, so that what is created inherits nothing; then
/// `create KIND PATH UID 000` for each node but the root, sorted by path; then for each node `set
/// PATH access TEXT`, with `set PATH default TEXT` if it has a default list, or `set PATH nfs4
/// TEXT`. Ids are decimal, and lists are in the short text form. Failures go to `err`; a fault
/// while writing there changes nothing.
///
/// The exit status is 0 with the session, and with help; 1 if a file can't be opened or read or is
/// too long, the setup is refused, or a line would be longer than 1024 bytes; 2 if the parser
/// refuses the words; and 3 if memory runs out or `out` can't be written. With 1 and 2 nothing was
/// written, and with 3 nothing or a prefix of the session.
#[derive(Clone, Copy)]
pub struct Dump;

impl PrintTree for Dump {
    ghost use Rattle.acl_tree_queries.specs.DumpAnswer.{HasNoDump, IsDump};

    ghost IsAnswer = { IsDump };

    ghost IsRefused = { HasNoDump };

    fn push<'n>(alloc: Global, given: &SetupTree, out: &mut Vec<u8>) -> Result<(), Failure<'n>> {
        push_dump(alloc, &given.tree, out)
    }
}

impl Command for Dump {
    ghost use Rattle.std.specs.Prelude.{true};
    ghost use Rattle.acl_tree_queries.specs.DumpAnswer.{dump_meaning};

    ghost meaning = { dump_meaning };

    ghost helps = { true };

    fn answers_help() -> bool {
        true
    }

    fn answer<'a, F: OpenFiles, I: Read, W: Write, E: Write + Drop>(
        &self,
        alloc: Global,
        files: &F,
        matches: &ArgMatches<'a>,
        input: &mut I,
        out: &mut W,
        err: &mut ErrorOutput<E>,
    ) -> Result<Ending, Failure<'a>> {
        answer_tree::<Dump, F, I, W, E>(alloc, files, matches, input, out, err)
    }
}
