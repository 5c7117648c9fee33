//! The help of a command.

use acl_cli::{
    Command as CliCommand, CommandLine, Ending, ErrorOutput, Failure, Line, Misuse, OpenFiles,
};
use clap::ArgMatches;
use std::alloc::Global;
use std::io::{Read, Write};

/// A command that only prints another's help. It has that command's line, and its help is an
/// answer, with status 0 on standard output, even if it isn't for the command itself.
#[derive(Clone, Copy)]
pub struct HelpOf<'c, C: CommandLine> {
    pub command: &'c C,
}

impl<'c, C: CommandLine> CommandLine for HelpOf<'c, C> {
    ghost line = { C.line };

    ghost line_simple = { C.line_simple };

    ghost line_free = { C.line_free };

    fn line() -> Line<'static> {
        C::line()
    }
}

impl<'c, C: CommandLine> CliCommand for HelpOf<'c, C> {
    ghost use Rattle.std.specs.Prelude.{true};
    ghost use Rattle.aclctl.specs.HelpOf.{no_fields};

    ghost meaning = { λ _ _. no_fields };

    ghost helps = { true };

    fn answers_help() -> bool {
        true
    }

    /// Words that don't ask for help have no answer.
    fn answer<'a, F: OpenFiles, I: Read, W: Write, E: Write + Drop>(
        &self,
        _alloc: Global,
        _files: &F,
        _matches: &ArgMatches<'a>,
        _input: &mut I,
        _out: &mut W,
        _err: &mut ErrorOutput<E>,
    ) -> Result<Ending, Failure<'a>> {
        Err(Failure::Misuse(Misuse::NoCommand))
    }
}
