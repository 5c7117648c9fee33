//! Ids in fields: decimals, since no names are known.
ghost use Rattle.std.specs.Prelude.{◌≡◌, ◌≤◌, Some, Ok, IfErr, IfOk, option_map};
ghost use Rattle.clap.specs.Words.{found_of, rows_of};
ghost use Rattle.acl_names.specs.declared.limits.TheConstants.{MAX_ID};
ghost use Rattle.acl_cli.specs.Fields.{gids_in, gids_of, given, id_in, id_of};
ghost use Rattle.acl_cli.specs.Failures.{Explains, ExplainsText};
ghost use Rattle.acl_cli.specs.declared.field_fault.FieldFault.TheVariants.{BadId};

use super::fields::text_field;
use crate::{Failure, FieldFault, Malformed, Place};
use acl_names::{Gid, MAX_GROUPS_OF_USER, Uid, read_decimal};
use clap::ArgMatches;
use std::alloc::Global;

/// How many groups a requester may have: as many as a user of a directory.
const MAX_GIDS: usize = MAX_GROUPS_OF_USER;

/// The id that a text writes in decimal.
fn read_id(text: &str) -> Result<u32, FieldFault>
    ensures value { result ≡ id_of text.now }
    ensures in_range { IfOk result (λ id. id ≤ MAX_ID) }
{
    read_decimal(text.as_bytes()).ok_or(FieldFault::BadId)
}

/// The uid that a text writes in decimal.
fn read_uid(text: &str) -> Result<Uid, FieldFault>
    ensures { result ≡ id_of text.now }
{
    Uid::new(read_id(text)?).ok_or(FieldFault::BadId)
}

/// The gid that a text writes in decimal.
fn read_gid(text: &str) -> Result<Gid, FieldFault>
    ensures { result ≡ id_of text.now }
{
    Gid::new(read_id(text)?).ok_or(FieldFault::BadId)
}

/// The uid that a word writes. The word must be given.
fn uid_given(word: Option<&str>) -> Result<Uid, FieldFault>
    ensures { result ≡ given BadId id_of (option_map (λ text. text.now) word.entry) }
{
    read_uid(word.ok_or(FieldFault::BadId)?)
}

/// The gid that a word writes. The word must be given.
fn gid_given(word: Option<&str>) -> Result<Gid, FieldFault>
    ensures { result ≡ given BadId id_of (option_map (λ text. text.now) word.entry) }
{
    read_gid(word.ok_or(FieldFault::BadId)?)
}

/// The uid in the option of this name. Fails with `BadId` if it is malformed.
pub fn uid_field<'a>(matches: &ArgMatches<'a>, name: &'a str) -> Result<Uid, Malformed<'a>>
    ensures { result ≡ id_in name.entry.now (rows_of (found_of matches.now)) }
{
    let word = text_field(matches, name);
    match uid_given(word) {
        Ok(uid) => Ok(uid),
        Err(fault) => Err(Malformed::new(Place::Option(name), word, fault)),
    }
}

/// The gid in the option of this name. Fails with `BadId` if it is malformed.
pub fn gid_field<'a>(matches: &ArgMatches<'a>, name: &'a str) -> Result<Gid, Malformed<'a>>
    ensures { result ≡ id_in name.entry.now (rows_of (found_of matches.now)) }
{
    let word = text_field(matches, name);
    match gid_given(word) {
        Ok(gid) => Ok(gid),
        Err(fault) => Err(Malformed::new(Place::Option(name), word, fault)),
    }
}

/// The gids between a text's commas. It stops before one too many.
fn read_gids<'a>(alloc: Global, text: &'a str) -> Result<Vec<Gid>, Failure<'a>>
    ensures read { IfOk result (λ gids. gids_of (Some text.entry.now) ≡ Ok gids.items) }
    ensures refused { IfErr result (ExplainsText (gids_of (Some text.entry.now))) }
{
    let mut gids = Vec::new(alloc);
    for piece in text.split(',') {
        if gids.len() == MAX_GIDS {
            return Err(Failure::Field(FieldFault::TooMany));
        }
        let gid = read_gid(piece)?;
        gids.push(gid)?;
    }
    Ok(gids)
}

/// The requester's groups: the value of `--gids`, or none without the option. Fails with `BadId` or
/// `TooMany` for the first gid at fault, and if memory runs out.
pub fn gids_field<'a>(alloc: Global, matches: &ArgMatches<'a>) -> Result<Vec<Gid>, Failure<'a>>
    ensures read { IfOk result (λ gids. gids_in (rows_of (found_of matches.now)) ≡ Ok gids.items) }
    ensures refused { IfErr result (Explains (gids_in (rows_of (found_of matches.now)))) }
{
    let Some(text) = text_field(matches, "gids") else {
        return Ok(Vec::new(alloc));
    };
    match read_gids(alloc, text) {
        Ok(gids) => Ok(gids),
        Err(failure) => Err(failure.at(Place::Option("gids"), Some(text))),
    }
}
