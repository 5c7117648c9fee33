//! The command line of `lint`.

use crate::Lint;
use acl_cli::options::SETUP;
use acl_cli::{CommandLine, Line, Word};
use acl_service::SESSION_WORDS;

/// The end of help: the answer, and the exit statuses.
const ANSWERS: &str = "Prints a line for each fault, and none if nothing is wrong. For a
setup that is refused:
  FILE: WORD PLACE
where PLACE is a key, as user[2].uid, counted from 0, or LINE:COLUMN. Then the
sessions aren't read. For a line of a session that has a fault:
  FILE:LINE: WORD PLACE
where WORD is the fault as run prints it, and PLACE is the number, from 1, of
the malformed entry of a list. PLACE is - if there is none.

Exit status: 0 with an answer; 1 if a file can't be read; 2 if the words are
wrong; 3 if memory runs out or the answer can't be written.";

/// The words of the line, in the order of help.
const WORDS: [Word<'static>; 2] = [SETUP, SESSION_WORDS];

impl CommandLine for Lint {
    ghost use Rattle.acl_lint.specs.LintLine.{lint_line, lint_line-free, lint_line-simple};

    ghost line = { lint_line };

    ghost line_simple = { lint_line-simple };

    ghost line_free = { lint_line-free };

    #[tactic(auto, unfolding(crate::specs::LintLine::lint_line))]
    fn line() -> Line<'static> {
        Line {
            name: "lint",
            about: "Reports what is wrong with a setup or with sessions, and where, before they \
                 run.",
            after_help: ANSWERS,
            words: &WORDS,
        }
    }
}
