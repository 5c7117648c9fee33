//! The user who creates something.
ghost use Rattle.std.specs.Prelude.{◌≡◌, IfErr, IfOk, Ok};
ghost use Rattle.clap.specs.Words.{found_of, rows_of};
ghost use Rattle.acl_cli.specs.Failures.{Explains};
ghost use Rattle.acl_listing_creation.specs.NextFields.{maker_by, maker_in};

use acl_cli::fields::text_field;
use acl_cli::{Failure, FieldFault, Malformed, Place};
use acl_names::{Gid, Requester, Uid};
use acl_people::Host;
use clap::ArgMatches;
use std::alloc::Global;

/// The owner of a created file, and the owner's first group.
#[derive(Drop)]
pub(crate) struct Maker {
    pub owner: Uid,
    pub group: Gid,
}

/// The requester as a maker, in the first group. Fails for a requester in no group.
fn maker_by(requester: &Requester) -> Result<Maker, FieldFault>
    ensures { result ≡ maker_by requester.now.uid requester.now.gids }
{
    match requester.gids().first() {
        Some(group) => Ok(Maker {
            owner: requester.uid(),
            group: *group,
        }),
        None => Err(FieldFault::UnknownUser),
    }
}

/// The user of the host whom `--user` names, as a maker. Fails as `read_person` does, and for a
/// user in no group.
pub(crate) fn maker_field<'a>(
    alloc: Global,
    host: &Host,
    matches: &ArgMatches<'a>,
) -> Result<Maker, Failure<'a>>
    ensures read { IfOk result (λ maker. maker_in host.now (rows_of (found_of matches.now))
        ≡ Ok maker) }
    ensures refused { IfErr result (Explains (maker_in host.now (rows_of (found_of matches.now)))) }
{
    let Some(text) = text_field(matches, "user") else {
        return Err(Failure::Malformed(Malformed::new(
            Place::Option("user"),
            None,
            FieldFault::UnknownUser,
        )));
    };
    let person = host.read_person(alloc, text)?;
    match maker_by(&person.requester) {
        Ok(maker) => Ok(maker),
        Err(fault) => Err(Failure::Malformed(Malformed::new(
            Place::Option("user"),
            Some(text),
            fault,
        ))),
    }
}
