//! Why a command has no answer, or only part of it.
ghost use Rattle.std.specs.Prelude.{◌≡◌, IfSome};
ghost use Rattle.acl_cli.specs.ErrorOutput.{Reports};
ghost use Rattle.acl_cli.specs.Failures.{line_of, status_of};

use crate::{ErrorOutput, FieldFault, Malformed, Misuse, Place, Reason, Refusal, RunFault};
use clap::error::ErrorKind;
use std::alloc::{AllocError, AllocFailed};
use std::io::{self, Write};

/// Why a command has no answer, or only part of it: all faults that the program reports.
#[derive(Debug, Drop)]
pub enum Failure<'a> {
    /// The parser refuses the words, or they ask it for help.
    Usage(clap::Error),
    /// The words are wrong in a way that the parser doesn't check.
    Misuse(Misuse),
    /// A field is malformed; its place isn't reported.
    Field(FieldFault),
    /// A field is malformed; its place is reported.
    Malformed(Malformed<'a>),
    /// The file of this name can't be opened or read, or is too long. Nothing was written.
    CannotRead(&'a str, Reason),
    /// A file's content, or what a command would write, is refused. Nothing was written.
    Refused(Refusal<'a>),
    /// Reading the input of this name failed, when part of the answer may have been written.
    Unread(&'a str),
    /// Memory, a thread or the output is lacking.
    Lacks(RunFault),
}

impl<'a> Failure<'a> {
    /// The exit status: 1 if something is malformed or can't be read, 2 for wrong usage, 3 if
    /// something is lacking.
    pub fn status(&self) -> u8
        ensures { result ≡ status_of self.now }
    {
        match self {
            Failure::Usage(_) | Failure::Misuse(_) => 2,
            Failure::Field(_) | Failure::Malformed(_) => 1,
            Failure::CannotRead(_, _) | Failure::Refused(_) => 1,
            Failure::Unread(_) | Failure::Lacks(_) => 3,
        }
    }

    /// Writes the failure's line, or the parser's text.
    pub fn report<E: Write + Drop>(&self, err: &mut ErrorOutput<E>)
        ensures { IfSome (line_of self.now) (λ line. Reports line err.old err.new) }
    {
        match self {
            Failure::Usage(error) => err.write_displayed(error),
            Failure::Misuse(misuse) => err.write_line(misuse.words()),
            Failure::Field(fault) => err.write_line(fault.words()),
            Failure::Malformed(malformed) => malformed.report(err),
            Failure::CannotRead(name, reason) => err.write_named(
                "cannot read ",
                name,
                reason.words(),
            ),
            Failure::Refused(refusal) => refusal.report(err),
            Failure::Unread(name) => err.write_pair("cannot read ", name),
            Failure::Lacks(lack) => err.write_pair("run: ", lack.words()),
        }
    }
}

impl<'a> Failure<'a> {
    ghost use Rattle.std.specs.Prelude.{option_map};
    ghost use Rattle.acl_cli.specs.Failures.{failure_at, without_place};
    ghost use Rattle.acl_cli.specs.Faults.{place_words};

    /// Adds the place and the word to the failure of a field; leaves other failures as they are.
    pub fn at(self, place: Place<'a>, word: Option<&'a str>) -> Failure<'a>
        ensures { result ≡ failure_at (place_words place.entry)
            (option_map (λ text. text.now) word.entry) self.entry }
    {
        match self {
            Failure::Field(fault) => Failure::Malformed(Malformed::new(place, word, fault)),
            failure => failure,
        }
    }

    /// Drops the place from the failure of a field.
    pub fn without_place(self) -> Failure<'a>
        ensures { result ≡ without_place self.entry }
    {
        match self {
            Failure::Malformed(malformed) => Failure::Field(malformed.fault()),
            failure => failure,
        }
    }
}

impl<'a> From<clap::Error> for Failure<'a> {
    ghost use Rattle.acl_cli.specs.Failures.{BecomesFailure};

    ghost from_gives = { BecomesFailure };

    fn from(error: clap::Error) -> Failure<'a> {
        match error.kind() {
            ErrorKind::OutOfMemory => Failure::Lacks(RunFault::Memory),
            _ => Failure::Usage(error),
        }
    }
}

impl<'a> From<FieldFault> for Failure<'a> {
    ghost use Rattle.acl_cli.specs.declared.failure.Failure.TheVariants as failure;

    ghost from_gives = { λ fault becomes. becomes ≡ failure.Field fault };

    fn from(fault: FieldFault) -> Failure<'a> {
        Failure::Field(fault)
    }
}

impl<'a> From<Misuse> for Failure<'a> {
    ghost use Rattle.acl_cli.specs.declared.failure.Failure.TheVariants as failure;

    ghost from_gives = { λ misuse becomes. becomes ≡ failure.Misuse misuse };

    fn from(misuse: Misuse) -> Failure<'a> {
        Failure::Misuse(misuse)
    }
}

impl<'a> From<Malformed<'a>> for Failure<'a> {
    ghost use Rattle.acl_cli.specs.declared.failure.Failure.TheVariants as failure;

    ghost from_gives = { λ malformed becomes. becomes ≡ failure.Malformed malformed };

    fn from(malformed: Malformed<'a>) -> Failure<'a> {
        Failure::Malformed(malformed)
    }
}

impl<'a> From<Refusal<'a>> for Failure<'a> {
    ghost use Rattle.acl_cli.specs.declared.failure.Failure.TheVariants as failure;

    ghost from_gives = { λ refusal becomes. becomes ≡ failure.Refused refusal };

    fn from(refusal: Refusal<'a>) -> Failure<'a> {
        Failure::Refused(refusal)
    }
}

impl<'a> From<AllocError> for Failure<'a> {
    ghost use Rattle.acl_cli.specs.Failures.{out_of_memory};

    ghost from_gives = { λ _ becomes. becomes ≡ out_of_memory };

    fn from(_refused: AllocError) -> Failure<'a> {
        Failure::Lacks(RunFault::Memory)
    }
}

impl<'a, T: Drop> From<AllocFailed<T>> for Failure<'a> {
    ghost use Rattle.acl_cli.specs.Failures.{out_of_memory};

    ghost from_gives = { λ _ becomes. becomes ≡ out_of_memory };

    fn from(_refused: AllocFailed<T>) -> Failure<'a> {
        Failure::Lacks(RunFault::Memory)
    }
}

/// Only writing the answer gives an `io::Error`.
impl<'a> From<io::Error> for Failure<'a> {
    ghost use Rattle.acl_cli.specs.Failures.{failed_write};

    ghost from_gives = { λ _ becomes. becomes ≡ failed_write };

    fn from(_failed: io::Error) -> Failure<'a> {
        Failure::Lacks(RunFault::Output)
    }
}
