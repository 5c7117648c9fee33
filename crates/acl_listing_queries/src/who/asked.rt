//! What `who` evaluates for each file.
ghost use Rattle.std.specs.Prelude.{◌≡◌, IfErr, IfOk, Ok, Err, false, true};
ghost use Rattle.clap.specs.Words.{found_of, rows_of};
ghost use Rattle.acl_cli.specs.declared.failure.Failure.TheVariants as failures;
ghost use Rattle.acl_cli.specs.declared.misuse.Misuse.TheVariants.{DeleteAndOthers};
ghost use Rattle.acl_listing_queries.specs.ViaSteps.{asked_of};
ghost use Rattle.acl_listing_queries.specs.WhoMeaning.{asks_what, question_in, what_in};
ghost use Rattle.acl_listing_queries.specs.WhoSteps.{question_of};
ghost use Rattle.acl_listing_queries.specs.declared.who.asked.Asked.TheVariants.{Deletion};

use acl_cli::fields::{flag_field, text_field};
use acl_cli::{Failure, Misuse, optional_perms_field};
use acl_posix::Perms;
use clap::ArgMatches;

/// Which permissions of users are evaluated.
#[derive(Clone, Copy, Debug, PartialEq, Eq)]
pub(super) enum What {
    /// The letters `r`, `w` and `x` of each user.
    Letters,
    /// All fourteen letters of each user.
    AllLetters,
    /// Whether each user may do all of this at once.
    Perms(Perms),
}

/// What is evaluated, and how it is printed.
#[derive(Clone, Copy, Debug, PartialEq, Eq)]
pub(super) enum Asked {
    /// Permissions of users.
    What(What),
    /// The same, with the entries that decide.
    Via(What),
    /// The letters `r`, `w` and `x` of each user, as numbers.
    Numbers,
    /// Who may delete the file.
    Deletion,
}

/// Which permissions the words ask for. Fails if they have both `--letters` and `--perms`.
fn what_field<'a>(matches: &ArgMatches<'a>) -> Result<What, Failure<'a>>
    ensures read { IfOk result (λ what. what_in (rows_of (found_of matches.now))
        ≡ Ok (asked_of what)) }
    ensures refused { IfErr result (λ failure. what_in (rows_of (found_of matches.now))
        ≡ Err failure) }
{
    if !flag_field(matches, "letters") {
        return match optional_perms_field(matches) {
            Ok(Some(perms)) => Ok(What::Perms(perms)),
            Ok(None) => Ok(What::Letters),
            Err(malformed) => Err(Failure::Malformed(malformed)),
        };
    }
    if text_field(matches, "perms").is_some() {
        return Err(Failure::Misuse(Misuse::LettersAndPerms));
    }
    Ok(What::AllLetters)
}

/// `--delete`. Fails if the words have `--letters`, `--perms` or `--via`, too.
fn deletion_field<'a>(matches: &ArgMatches<'a>) -> Result<Asked, Failure<'a>>
    ensures read { IfOk result (λ asked. (asks_what (rows_of (found_of matches.now)) ≡ false)
        × (asked ≡ Deletion)) }
    ensures refused { IfErr result (λ failure. (asks_what (rows_of (found_of matches.now)) ≡ true)
        × (failure ≡ failures.Misuse DeleteAndOthers)) }
{
    if flag_field(matches, "letters")
        || text_field(matches, "perms").is_some()
        || flag_field(matches, "via")
    {
        return Err(Failure::Misuse(Misuse::DeleteAndOthers));
    }
    Ok(Asked::Deletion)
}

/// What the words ask for.
pub(super) fn asked_field<'a>(matches: &ArgMatches<'a>) -> Result<Asked, Failure<'a>>
    ensures read { IfOk result (λ asked. question_in (rows_of (found_of matches.now))
        ≡ Ok (question_of asked)) }
    ensures refused { IfErr result (λ failure. question_in (rows_of (found_of matches.now))
        ≡ Err failure) }
{
    if flag_field(matches, "delete") {
        return deletion_field(matches);
    }
    let what = what_field(matches)?;
    if flag_field(matches, "via") {
        return Ok(Asked::Via(what));
    }
    Ok(Asked::What(what))
}
