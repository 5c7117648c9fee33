//! Permissions in fields.
ghost use Rattle.std.specs.Prelude.{◌≡◌, Ok, Err, IfErr, IfOk, option_map};
ghost use Rattle.clap.specs.Words.{found_of, rows_of};
ghost use Rattle.acl_posix.specs.Perms.{bits_of};
ghost use Rattle.acl_cli.specs.Fields.{optional_perms_in, perms_given, perms_in, perms_of};

use super::fields::text_field;
use crate::{FieldFault, Malformed, Place};
use acl_posix::{Perms, read_perms};
use clap::ArgMatches;

/// The name of the option for permissions.
const PERMS: &str = "perms";

/// The permissions that a text writes.
fn read_text(text: &str) -> Result<Perms, FieldFault>
    ensures read { IfOk result (λ perms. perms_of text.now ≡ Ok (bits_of perms)) }
    ensures refused { IfErr result (λ fault. perms_of text.now ≡ Err fault) }
{
    read_perms(text.as_bytes()).ok_or(FieldFault::BadPerms)
}

/// The permissions that a word writes, if it is given.
fn read_given(word: Option<&str>) -> Result<Option<Perms>, FieldFault>
    ensures read { IfOk result (λ perms. perms_given (option_map (λ text. text.now) word.entry)
        ≡ Ok (option_map bits_of perms)) }
    ensures refused { IfErr result (λ fault. perms_given (option_map (λ text. text.now) word.entry)
        ≡ Err fault) }
{
    match word {
        Some(text) => Ok(Some(read_text(text)?)),
        None => Ok(None),
    }
}

/// The value of `--perms`, if it is given. Fails with `BadPerms` if it is malformed.
pub fn optional_perms_field<'a>(matches: &ArgMatches<'a>) -> Result<Option<Perms>, Malformed<'a>>
    ensures read { IfOk result (λ perms. optional_perms_in (rows_of (found_of matches.now))
        ≡ Ok (option_map bits_of perms)) }
    ensures refused { IfErr result (λ fault. optional_perms_in (rows_of (found_of matches.now))
        ≡ Err fault) }
{
    let word = text_field(matches, PERMS);
    match read_given(word) {
        Ok(perms) => Ok(perms),
        Err(fault) => Err(Malformed::new(Place::Option(PERMS), word, fault)),
    }
}

/// The value of `--perms`, which must be given. Fails with `BadPerms` if it is malformed.
pub fn perms_field<'a>(matches: &ArgMatches<'a>) -> Result<Perms, Malformed<'a>>
    ensures read { IfOk result (λ perms. perms_in (rows_of (found_of matches.now))
        ≡ Ok (bits_of perms)) }
    ensures refused { IfErr result (λ fault. perms_in (rows_of (found_of matches.now)) ≡ Err fault) }
{
    match optional_perms_field(matches)? {
        Some(perms) => Ok(perms),
        None => Err(Malformed::new(Place::Option(PERMS), None, FieldFault::BadPerms)),
    }
}
