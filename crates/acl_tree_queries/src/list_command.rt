//! The command `list`.

mod command_line;
mod text;

use crate::answering::{PrintTree, answer_tree};
use crate::setup_tree::SetupTree;
use acl_cli::{Command, Ending, ErrorOutput, Failure, OpenFiles};
use clap::ArgMatches;
use std::alloc::Global;
use std::io::{Read, Write};
use text::push_tree;

/// Prints a tree as a listing, as `getfacl -Rnp` and `nfs4_getfacl` would. The words begin with the
/// command's name: `list --setup FILE [SESSION]`. The tree is the one that the setup opens, or what
/// the session leaves on it. A session `-` is `input`, which otherwise isn't read. `files` opens
/// the others, the setup first, each of at most 1,048,576 bytes.
///
/// `out` gets a block for each node, with an empty line after it: `# file: PATH`, `# owner: N`, `#
/// group: N`, and a line for each entry, `default:` before those of a default list. Ids are
/// decimal. A directory comes before its content, and that before anything else. Read as a listing,
/// with any users and groups, the blocks are the nodes. The block of an NFSv4 list without entries
/// has none, and is refused by the commands that read it. Failures go to `err`; a fault while
/// writing there changes nothing.
///
/// The exit status is 0 with the listing, and with help; 1 if a file can't be opened or read or is
/// too long, or the setup is refused; 2 if the parser refuses the words; and 3 if memory runs out
/// or `out` can't be written. With 1 and 2 nothing was written, and with 3 nothing or a prefix of
/// the listing.
#[derive(Clone, Copy)]
pub struct List;

impl PrintTree for List {
    ghost use Rattle.acl_tree_queries.specs.ListAnswer.{IsList};
    ghost use Rattle.acl_tree_queries.specs.TreeMeaning.{IsNeverRefused};

    ghost IsAnswer = { IsList };

    ghost IsRefused = { IsNeverRefused };

    fn push<'n>(alloc: Global, given: &SetupTree, out: &mut Vec<u8>) -> Result<(), Failure<'n>> {
        Ok(push_tree(alloc, &given.tree, out)?)
    }
}

impl Command for List {
    ghost use Rattle.std.specs.Prelude.{true};
    ghost use Rattle.acl_tree_queries.specs.ListAnswer.{list_meaning};

    ghost meaning = { list_meaning };

    ghost helps = { true };

    fn answers_help() -> bool {
        true
    }

    fn answer<'a, F: OpenFiles, I: Read, W: Write, E: Write + Drop>(
        &self,
        alloc: Global,
        files: &F,
        matches: &ArgMatches<'a>,
        input: &mut I,
        out: &mut W,
        err: &mut ErrorOutput<E>,
    ) -> Result<Ending, Failure<'a>> {
        answer_tree::<List, F, I, W, E>(alloc, files, matches, input, out, err)
    }
}
