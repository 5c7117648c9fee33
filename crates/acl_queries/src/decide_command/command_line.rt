//! The command line of `decide`.

use super::Decide;
use acl_cli::options::{GIDS, GROUP, OWNER, PERMS, UID};
use acl_cli::{CommandLine, Given, Line, Word};

/// An example, and what the exit statuses are.
const EXAMPLE: &str = "For example:
  aclctl decide --owner 1000 --group 50 --uid 1001 --gids 50,60 --perms r u::rw,g::r,o::-

Exit status: 0 with an answer, granted or denied; 1 if a field is malformed;
2 if the words are wrong, and after this help; 3 if memory runs out or the
answer can't be written.";

/// The words of the line, in the order of help.
const WORDS: [Word<'static>; 7] = [
    Word {
        given: Given::Flag,
        name: "nfs4",
        value: "",
        help: "Also prints the NFSv4 list that grants the same, one entry a line",
    },
    OWNER,
    GROUP,
    UID,
    GIDS,
    PERMS,
    Word {
        given: Given::RequiredWord,
        name: "text",
        value: "TEXT",
        help: "The access control list, as u::rw,g::r,o::-. Write -- before it if it begins with -",
    },
];

impl CommandLine for Decide {
    ghost use Rattle.acl_queries.specs.DecideLine.{decide_line, decide_line-free};
    ghost use Rattle.acl_queries.specs.DecideLine.{decide_line-simple};

    ghost line = { decide_line };

    ghost line_simple = { decide_line-simple };

    ghost line_free = { decide_line-free };

    #[tactic(auto, unfolding(crate::specs::DecideLine::decide_line))]
    fn line() -> Line<'static> {
        Line {
            name: "decide",
            about: "Reports whether an access control list grants a request: `granted` or \
                 `denied`.",
            after_help: EXAMPLE,
            words: &WORDS,
        }
    }
}
