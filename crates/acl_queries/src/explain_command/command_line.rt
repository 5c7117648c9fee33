//! The command line of `explain`.

use super::Explain;
use acl_cli::options::{GIDS, GROUP, OWNER, PERMS, UID};
use acl_cli::{CommandLine, Given, Line, Word};

/// An example, and what the exit statuses are.
const EXAMPLE: &str = "For example:
  aclctl explain --owner 1000 --group 50 --uid 1001 --gids 60 --perms rw nfs4 A::OWNER@:rwa,D:g:60:w

Exit status: 0 with an answer, granted or denied; 1 if a field is malformed; 2
if the words are wrong; 3 if memory runs out or the answer can't be written.";

/// The words of the line, in the order of help.
const WORDS: [Word<'static>; 7] = [
    OWNER,
    GROUP,
    UID,
    GIDS,
    PERMS,
    Word {
        given: Given::RequiredWord,
        name: "style",
        value: "STYLE",
        help: "The style of the list: posix or nfs4",
    },
    Word {
        given: Given::RequiredWord,
        name: "text",
        value: "TEXT",
        help: "The access control list, as u::rw,g::r,o::- or A::OWNER@:rwa",
    },
];

impl CommandLine for Explain {
    ghost use Rattle.acl_queries.specs.ExplainLine.{explain_line, explain_line-free};
    ghost use Rattle.acl_queries.specs.ExplainLine.{explain_line-simple};

    ghost line = { explain_line };

    ghost line_simple = { explain_line-simple };

    ghost line_free = { explain_line-free };

    #[tactic(auto, unfolding(crate::specs::ExplainLine::explain_line))]
    fn line() -> Line<'static> {
        Line {
            name: "explain",
            about: "Reports why an access control list grants or denies a request: which entries \
                 decide.",
            after_help: EXAMPLE,
            words: &WORDS,
        }
    }
}
