//! The words of a command line, as data.
ghost use Rattle.std.specs.Prelude.{◌≡◌, false};
ghost use Rattle.clap.specs.Words.{rule_of};
ghost use Rattle.acl_cli.specs.CommandLine.{flag, optional_option, optional_word, rule_of_word};

use clap::builder::ValueParser;
use clap::{Arg, ArgAction};
use std::alloc::Global;

/// How a word is given.
#[derive(Clone, Copy, Debug, PartialEq, Eq)]
pub enum Given {
    /// As `--NAME VALUE`; optional.
    Option,
    /// As `--NAME VALUE`.
    RequiredOption,
    /// As `--NAME VALUE`, any number of times.
    RepeatedOption,
    /// As `--NAME VALUE`, where VALUE is a number from 1 to this; optional.
    CountOption(u64),
    /// As `--NAME`; optional.
    Flag,
    /// By itself; optional.
    Word,
    /// By itself.
    RequiredWord,
    /// By itself, once or more often.
    Words,
}

/// A word of a command line: an option with its value, a flag, or a word that belongs to no option.
#[derive(Clone, Copy, Debug)]
pub struct Word<'a> {
    pub given: Given,
    pub name: &'a str,
    /// What help calls the value.
    pub value: &'a str,
    /// The word's help.
    pub help: &'a str,
}

impl<'a> Word<'a> {
    /// The parser's argument for an optional option.
    fn option(&self, alloc: Global) -> Arg<'a>
        ensures rule { rule_of result ≡ optional_option self.now.name.now }
        ensures local { result.global ≡ false }
    {
        Arg::new(alloc, self.name)
            .long(self.name)
            .value_name(self.value)
            .help(self.help)
    }

    /// The parser's argument for a flag.
    fn flag(&self, alloc: Global) -> Arg<'a>
        ensures rule { rule_of result ≡ flag self.now.name.now }
        ensures local { result.global ≡ false }
    {
        Arg::new(alloc, self.name)
            .long(self.name)
            .action(ArgAction::SetTrue)
            .help(self.help)
    }

    /// The parser's argument for an optional word by itself.
    fn word(&self, alloc: Global) -> Arg<'a>
        ensures rule { rule_of result ≡ optional_word self.now.name.now }
        ensures local { result.global ≡ false }
    {
        Arg::new(alloc, self.name)
            .value_name(self.value)
            .help(self.help)
    }

    /// The parser's argument.
    pub(crate) fn arg(&self, alloc: Global) -> Arg<'a>
        ensures rule { rule_of result ≡ rule_of_word self.now }
        ensures local { result.global ≡ false }
    {
        match self.given {
            Given::Option => self.option(alloc),
            Given::RequiredOption => self.option(alloc).required(true),
            Given::RepeatedOption => self.option(alloc).action(ArgAction::Append),
            Given::CountOption(most) => self
                .option(alloc)
                .value_parser(ValueParser::Unsigned(1, most)),
            Given::Flag => self.flag(alloc),
            Given::Word => self.word(alloc),
            Given::RequiredWord => self.word(alloc).required(true),
            Given::Words => self.word(alloc).required(true).num_args(1usize..),
        }
    }
}
