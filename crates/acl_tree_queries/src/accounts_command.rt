//! The command `accounts`.

mod command_line;
mod text;

use crate::answering::{PrintTree, answer_tree};
use crate::setup_tree::SetupTree;
use acl_cli::{Command, Ending, ErrorOutput, Failure, OpenFiles};
use clap::ArgMatches;
use std::alloc::Global;
use std::io::{Read, Write};
use text::push_accounts;

/// Prints the users and groups of a setup as `getent passwd; getent group` prints a host's: an
/// accounts file, with which the other commands evaluate the setup's tree. The words begin with the
/// command's name: `accounts --setup FILE`. `files` opens the setup, of at most 1,048,576 bytes.
/// `input` isn't read.
///
/// `out` gets a line `NAME:x:UID:GID:::` for each user, sorted by name, and then a line
/// `NAME:x:GID:MEMBER,MEMBER` for each group. A user's GID is that of the first group, or 65534
/// without one. Read as accounts, the lines are these users and groups. Failures go to `err`; a
/// fault while writing there changes nothing.
///
/// The exit status is 0 with the accounts, and with help; 1 if the file can't be opened or read or
/// is too long, or the setup is refused; 2 if the parser refuses the words; and 3 if memory runs
/// out or `out` can't be written. With 1 and 2 nothing was written, and with 3 nothing or a prefix
/// of the accounts.
#[derive(Clone, Copy)]
pub struct Accounts;

impl PrintTree for Accounts {
    ghost use Rattle.acl_tree_queries.specs.AccountsAnswer.{IsAccounts};
    ghost use Rattle.acl_tree_queries.specs.TreeMeaning.{IsNeverRefused};

    ghost IsAnswer = { IsAccounts };

    ghost IsRefused = { IsNeverRefused };

    fn push<'n>(_alloc: Global, given: &SetupTree, out: &mut Vec<u8>) -> Result<(), Failure<'n>> {
        Ok(push_accounts(&given.directory, out)?)
    }
}

impl Command for Accounts {
    ghost use Rattle.std.specs.Prelude.{true};
    ghost use Rattle.acl_tree_queries.specs.AccountsAnswer.{accounts_meaning};

    ghost meaning = { accounts_meaning };

    ghost helps = { true };

    fn answers_help() -> bool {
        true
    }

    fn answer<'a, F: OpenFiles, I: Read, W: Write, E: Write + Drop>(
        &self,
        alloc: Global,
        files: &F,
        matches: &ArgMatches<'a>,
        input: &mut I,
        out: &mut W,
        err: &mut ErrorOutput<E>,
    ) -> Result<Ending, Failure<'a>> {
        answer_tree::<Accounts, F, I, W, E>(alloc, files, matches, input, out, err)
    }
}
