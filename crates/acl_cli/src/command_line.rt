//! The line of a command, and what the parser finds in words.
ghost use Rattle.std.specs.Prelude.{◌≡◌, IfErr, IfOk, OnOk, map, true};
ghost use Rattle.clap.specs.Words.{App, HasKind, app_of, fault_of, found_of, is_simple, kind_of};
ghost use Rattle.clap.specs.Words.{is_simple_and_free, matches_of, new_app, rows_of};
ghost use Rattle.acl_cli.specs.CommandLine.{Takes, app_of_line};

use crate::word::Word;
use clap::error::ErrorKind;
use clap::{ArgMatches, Command, Error};
use std::alloc::{AllocError, Global};
use std::convert::AsStr;

/// A command's line: the words that its parser takes, and its help.
#[derive(Clone, Copy, Debug)]
pub struct Line<'a> {
    pub name: &'a str,
    /// What the command does, in a sentence.
    pub about: &'a str,
    /// What comes after the options in help.
    pub after_help: &'a str,
    pub words: &'a [Word<'a>],
}

impl<'a> Line<'a> {
    /// The line for the parser, without its words. The parser names the command `aclctl NAME`.
    fn without_words(&self, alloc: Global) -> Result<Command<'a>, AllocError>
        ensures { IfOk result (λ command. app_of command ≡ new_app self.now.name.now) }
    {
        let bin_name = format!(in alloc; "aclctl {}", self.name)?;
        let command = Command::new(alloc, self.name).bin_name(bin_name.as_str())?;
        Ok(command.about(self.about).after_help(self.after_help))
    }

    /// The line for the parser.
    fn command(&self, alloc: Global) -> Result<Command<'a>, AllocError>
        ensures { IfOk result (λ command. app_of command ≡ app_of_line self.now) }
    {
        let mut command = self.without_words(alloc)?;
        for word in self.words {
            command = command.arg(word.arg(alloc))?;
        }
        Ok(command)
    }
}

/// A command's line, of which the parser's clauses hold.
pub trait CommandLine {
    /// The line as the parser's clauses see it.
    ghost line: { App };

    /// The line. The parser takes any value; the reader of a field checks it.
    fn line() -> Line<'static>
        ensures { app_of_line result ≡ line };

    /// The parser's clauses hold for the line.
    ghost line_simple: { is_simple line ≡ true };

    ghost line_free: { is_simple_and_free line ≡ true };
}

/// The line of a command for the parser.
pub(crate) fn command_of<'a, C: CommandLine>(alloc: Global) -> Result<Command<'a>, AllocError>
    ensures { IfOk result (λ command. app_of command ≡ C.line) }
{
    C::line().command(alloc)
}

/// What the parser finds in the words, the first of which is the command's name. Fails with the
/// parser's own error: if it refuses the words, if they ask for help, or if memory runs out.
pub fn parse<'a, C: CommandLine, S: AsStr>(
    alloc: Global,
    words: &'a [S],
) -> Result<ArgMatches<'a>, Error>
    ensures taken { OnOk result (Takes C.line (map S.text words.entry.now)) }
    ensures fields { IfOk result (λ matches. rows_of (found_of matches)
        ≡ matches_of C.line (map S.text words.entry.now)) }
    ensures refused { IfErr result (λ error. Takes C.line (map S.text words.entry.now)
        → kind_of error ≡ ErrorKind.OutOfMemory) }
    ensures kinds { IfErr result (HasKind (fault_of C.line (map S.text words.entry.now))) }
{
    command_of::<C>(alloc)?.try_get_matches_from(words)
}
