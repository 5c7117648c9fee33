//! What the words of `why` ask about a file.
ghost use Rattle.std.specs.Prelude.{◌≡◌, IfErr, IfOk, None, Ok};
ghost use Rattle.clap.specs.Words.{found_of, rows_of};
ghost use Rattle.acl_listing_queries.specs.WhyMeaning.{FailsToSeek, misfit_in, sought_in};
ghost use Rattle.acl_listing_queries.specs.WhySteps.{sought_by};

use super::question::Sought;
use acl_cli::fields::{flag_field, text_field};
use acl_cli::{CommandLine, Failure, perms_field, wrong_usage};
use clap::ArgMatches;
use clap::error::ErrorKind;
use std::alloc::Global;

/// The usage error if both are given.
const BOTH: &str = "the argument '--delete' cannot be used with '--perms <P>'";

/// The usage error if neither is given.
const NEITHER: &str =
    "the following required arguments were not provided:\n  --perms <P>, or --delete";

/// What the words ask: `--perms` or `--delete`. Fails with wrong usage for both or neither, which
/// the parser doesn't check, and with `BadPerms` for malformed permissions.
pub(super) fn sought_field<'a, C: CommandLine>(
    alloc: Global,
    matches: &ArgMatches<'a>,
) -> Result<Sought, Failure<'a>>
    ensures fits { IfOk result (λ sought. misfit_in (rows_of (found_of matches.now)) ≡ None) }
    ensures read { IfOk result (λ sought. sought_in (rows_of (found_of matches.now))
        ≡ Ok (sought_by sought)) }
    ensures refused { IfErr result (FailsToSeek (rows_of (found_of matches.now))) }
{
    let asks_perms = text_field(matches, "perms").is_some();
    if flag_field(matches, "delete") {
        if asks_perms {
            return Err(wrong_usage::<C>(alloc, ErrorKind::ArgumentConflict, BOTH));
        }
        return Ok(Sought::Deletion);
    }
    if !asks_perms {
        return Err(wrong_usage::<C>(alloc, ErrorKind::MissingRequiredArgument, NEITHER));
    }
    match perms_field(matches) {
        Ok(perms) => Ok(Sought::Permissions(perms)),
        Err(malformed) => Err(Failure::Malformed(malformed)),
    }
}
