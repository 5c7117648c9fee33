//! The command line of `compare`.

use super::Compare;
use acl_cli::options::{GROUP, OWNER};
use acl_cli::{CommandLine, Given, Line, Word};

/// An example, and what the exit statuses are.
const EXAMPLE: &str = "For example:
  aclctl compare --owner 1000 --group 50 posix u::rw,g::r,o::- posix u::rw,g::r,o::r

Exit status: 0 with an answer, whichever it is; 1 if a field is malformed; 2 if
the words are wrong; 3 if memory runs out or the answer can't be written.";

/// The words of the line, in the order of help.
const WORDS: [Word<'static>; 6] = [
    OWNER,
    GROUP,
    Word {
        given: Given::RequiredWord,
        name: "style",
        value: "STYLE",
        help: "The style of the first list: posix or nfs4",
    },
    Word {
        given: Given::RequiredWord,
        name: "text",
        value: "TEXT",
        help: "The first access control list, as u::rw,g::r,o::- or A::OWNER@:rwa",
    },
    Word {
        given: Given::RequiredWord,
        name: "other-style",
        value: "STYLE",
        help: "The style of the second list",
    },
    Word {
        given: Given::RequiredWord,
        name: "other-text",
        value: "TEXT",
        help: "The second access control list",
    },
];

impl CommandLine for Compare {
    ghost use Rattle.acl_queries.specs.CompareLine.{compare_line, compare_line-free};
    ghost use Rattle.acl_queries.specs.CompareLine.{compare_line-simple};

    ghost line = { compare_line };

    ghost line_simple = { compare_line-simple };

    ghost line_free = { compare_line-free };

    #[tactic(auto, unfolding(crate::specs::CompareLine::compare_line))]
    fn line() -> Line<'static> {
        Line {
            name: "compare",
            about: "Reports whether anybody gains or loses access between two access control \
                 lists: `alike`, or who does and what.",
            after_help: EXAMPLE,
            words: &WORDS,
        }
    }
}
