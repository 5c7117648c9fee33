//! The command line of `dump`.

use super::Dump;
use acl_cli::options::SETUP;
use acl_cli::{CommandLine, Given, Line, Word};

/// The end of help: the answer, and the exit statuses.
const ANSWERS: &str = "Prints a session that first takes all permissions from the root, and then
creates each file in the order of the paths and sets its lists. Run over the
same setup, it makes the same tree. Ids are decimal.

Exit status: 0 with an answer; 1 if the setup is refused, a file can't be read
or a line would be too long; 2 if the words are wrong; 3 if memory runs out or
the answer can't be written.";

/// The words of the line, in the order of help.
const WORDS: [Word<'static>; 2] = [
    SETUP,
    Word {
        given: Given::Word,
        name: "session",
        value: "SESSION",
        help: "A file with commands to run first, or - for standard input",
    },
];

impl CommandLine for Dump {
    ghost use Rattle.acl_tree_queries.specs.DumpLine.{dump_line, dump_line-free, dump_line-simple};

    ghost line = { dump_line };

    ghost line_simple = { dump_line-simple };

    ghost line_free = { dump_line-free };

    #[tactic(auto, unfolding(crate::specs::DumpLine::dump_line))]
    fn line() -> Line<'static> {
        Line {
            name: "dump",
            about: "Prints a tree as a session that makes it again.",
            after_help: ANSWERS,
            words: &WORDS,
        }
    }
}
