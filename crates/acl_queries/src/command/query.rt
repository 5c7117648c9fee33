//! Queries about lists: from the fields of a command to its answer.
ghost use Rattle.std.specs.Prelude.{◌≡◌, ℕ, Bool, List, Ok, Result, IfErr, IfOk};
ghost use Rattle.clap.specs.Words.{Row, found_of, rows_of};
ghost use Rattle.acl_cli.specs.Commands.{Comes};
ghost use Rattle.acl_cli.specs.Faults.{Malformed};
ghost use Rattle.acl_queries.specs.Queries.{IsFailureOf, query_meaning};

use acl_cli::{Ending, ErrorOutput, Failure, write_text};
use clap::ArgMatches;
use std::alloc::{AllocError, Global};
use std::io::{Read, Write};

/// What a command asks about the lists that its words give.
pub(crate) trait Query {
    /// The query that fields mean.
    ghost asked_in: { List Row → Result Self Malformed };

    /// Whether failures report the place of a malformed field.
    ghost located: { Bool };

    /// The text is an answer.
    ghost IsAnswer: { Self → List ℕ → Type 0 };

    /// Reads the query from the fields that the parser found.
    fn read<'a>(alloc: Global, matches: &ArgMatches<'a>) -> Result<Self, Failure<'a>>
        ensures read { IfOk result (λ query. asked_in (rows_of (found_of matches.now)) ≡ Ok query) }
        ensures refused { IfErr result (IsFailureOf located
            (asked_in (rows_of (found_of matches.now)))) };

    /// The text of the answer.
    fn answer_text(&self, alloc: Global) -> Result<Vec<u8>, AllocError>
        ensures { IfOk result (λ text. IsAnswer self.now text.items) };
}

/// Reads the fields, makes the whole answer, and writes it at once. It doesn't touch standard input
/// and standard error.
pub(crate) fn answer_query<'a, Q: Query + Drop, I: Read, W: Write, E: Write + Drop>(
    alloc: Global,
    matches: &ArgMatches<'a>,
    _input: &mut I,
    out: &mut W,
    _err: &mut ErrorOutput<E>,
) -> Result<Ending, Failure<'a>>
    ensures { Comes (query_meaning Q.located Q.asked_in Q.IsAnswer (rows_of (found_of matches.now)))
        result (W.contents out.old) (W.contents out.new) _err.old _err.new _input.old _input.new }
{
    let query = Q::read(alloc, matches)?;
    let text = query.answer_text(alloc)?;
    write_text(text.as_slice(), out)?;
    Ok(Ending::Answered)
}
