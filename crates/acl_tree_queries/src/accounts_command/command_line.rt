//! The command line of `accounts`.

use super::Accounts;
use acl_cli::options::SETUP;
use acl_cli::{CommandLine, Line, Word};

/// The end of help: the answer, and the exit statuses.
const ANSWERS: &str = "For example, who may do what in the tree of a setup:
  aclctl accounts --setup S > accounts; aclctl list --setup S > tree
  aclctl who --accounts accounts tree

Prints a line NAME:x:UID:GID::: for each user, and then NAME:x:GID:MEMBER,MEMBER
for each group, as getent passwd and getent group print them. A user's GID is
that of the first group, or 65534 if the user is in none.

Exit status: 0 with an answer; 1 if the setup is refused or a file can't be
read; 2 if the words are wrong; 3 if memory runs out or the answer can't be
written.";

/// The words of the line.
const WORDS: [Word<'static>; 1] = [SETUP];

impl CommandLine for Accounts {
    ghost use Rattle.acl_tree_queries.specs.AccountsLine.{accounts_line, accounts_line-free};
    ghost use Rattle.acl_tree_queries.specs.AccountsLine.{accounts_line-simple};

    ghost line = { accounts_line };

    ghost line_simple = { accounts_line-simple };

    ghost line_free = { accounts_line-free };

    #[tactic(auto, unfolding(crate::specs::AccountsLine::accounts_line))]
    fn line() -> Line<'static> {
        Line {
            name: "accounts",
            about: "Prints the users and groups of a setup, as getent prints a host's.",
            after_help: ANSWERS,
            words: &WORDS,
        }
    }
}
