//! Whom an entry names, by the names of any resolver.

ghost use Rattle.std.specs.Prelude.{◌≡◌};
ghost use Rattle.acl_nfs4.specs.NamedAces.{named_who, special_who, who_by, who_with};

use crate::{PieceFault, Who};
use acl_names::{Gid, NameFault, ResolveNames, Uid};

/// Whom a field names: a special identifier, a user, or with the flag `g` a group.
#[inline(always)]
pub(crate) fn read_who<N: ResolveNames>(
    names: &N,
    is_group: bool,
    text: &[u8],
) -> Result<Who, PieceFault>
    ensures { result ≡ who_by (N.names names.now) is_group text.now }
{
    match read_special(text) {
        Some(who) => Ok(who),
        None => named_who(names, is_group, text),
    }
}

fn read_special(text: &[u8]) -> Option<Who>
    ensures { result ≡ special_who text.now }
{
    if text == b"OWNER@".as_slice() {
        return Some(Who::Owner);
    }
    if text == b"GROUP@".as_slice() {
        return Some(Who::Group);
    }
    if text == b"EVERYONE@".as_slice() {
        return Some(Who::Everyone);
    }
    None
}

/// The user, or the group, that the text writes. Fails with `Syntax` if it is neither an id nor a
/// name, and with `UnknownName` if no user, or no group, has the name.
#[inline(always)]
pub fn named_who<N: ResolveNames>(names: &N, is_group: bool, text: &[u8]) -> Result<Who, PieceFault>
    ensures { result ≡ named_who (N.names names.now) is_group text.now }
{
    if is_group {
        group_with(names.gid_written(text))
    } else {
        user_with(names.uid_written(text))
    }
}

/// The user with the uid that was found, or the fault of the piece.
#[inline(always)]
fn user_with(found: Result<Uid, NameFault>) -> Result<Who, PieceFault>
    ensures { result ≡ who_with (λ uid. Who.User uid) found }
{
    match found {
        Ok(uid) => Ok(Who::User(uid)),
        Err(NameFault::Malformed) => Err(PieceFault::Syntax),
        Err(NameFault::Unknown) => Err(PieceFault::UnknownName),
    }
}

/// The group with the gid that was found, or the fault of the piece.
#[inline(always)]
fn group_with(found: Result<Gid, NameFault>) -> Result<Who, PieceFault>
    ensures { result ≡ who_with (λ gid. Who.NamedGroup gid) found }
{
    match found {
        Ok(gid) => Ok(Who::NamedGroup(gid)),
        Err(NameFault::Malformed) => Err(PieceFault::Syntax),
        Err(NameFault::Unknown) => Err(PieceFault::UnknownName),
    }
}
