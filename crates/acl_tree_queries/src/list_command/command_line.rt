//! The command line of `list`.

use super::List;
use acl_cli::options::SETUP;
use acl_cli::{CommandLine, Given, Line, Word};

/// The end of help: the answer, and the exit statuses.
const ANSWERS: &str = "For example, who may do what in the tree of a setup:
  aclctl list --setup S > tree; aclctl who --accounts A tree

Prints a block for each node, a directory before its content, as getfacl -Rnp
and nfs4_getfacl print it: its path, owner, group and entries. Ids are decimal.
An NFSv4 list without entries gives a block without entries, which the other
commands refuse.

Exit status: 0 with an answer; 1 if the setup is refused or a file can't be
read; 2 if the words are wrong; 3 if memory runs out or the answer can't be
written.";

/// The words of the line, in the order of help.
const WORDS: [Word<'static>; 2] = [
    SETUP,
    Word {
        given: Given::Word,
        name: "session",
        value: "SESSION",
        help: "A file with commands to run first, or - for standard input",
    },
];

impl CommandLine for List {
    ghost use Rattle.acl_tree_queries.specs.ListLine.{list_line, list_line-free, list_line-simple};

    ghost line = { list_line };

    ghost line_simple = { list_line-simple };

    ghost line_free = { list_line-free };

    #[tactic(auto, unfolding(crate::specs::ListLine::list_line))]
    fn line() -> Line<'static> {
        Line {
            name: "list",
            about: "Prints a tree as a listing that the other commands read.",
            after_help: ANSWERS,
            words: &WORDS,
        }
    }
}
