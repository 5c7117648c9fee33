//! Resolving the ids and names in a text to users and groups.

ghost use Rattle.std.specs.Prelude.{◌≡◌, IfSome};
ghost use Rattle.acl_names.specs.Directory.{gid_of, uid_of};
ghost use Rattle.acl_names.specs.Ids.{written_id};
ghost use Rattle.acl_names.specs.Names.{BeginsWithId, Names, names_of, resolved};

use super::guesses::split_name;
use super::{Directory, Gid, Uid, WrittenId};
use crate::read_decimal_until;

/// Why a text names no user, or no group.
#[derive(Clone, Copy, Debug, PartialEq, Eq)]
pub enum NameFault {
    /// It is neither an id nor a name.
    Malformed,
    /// It is a name that no user, or no group, has.
    Unknown,
}

/// Resolves what texts write for users and groups: ids and names.
pub trait ResolveNames {
    /// Which texts name which users and groups.
    ghost names: { Self → Names };

    /// The uid that the text writes in decimal, or that of the user whom it names.
    fn uid_written(&self, text: &[u8]) -> Result<Uid, NameFault>
        ensures { result ≡ resolved (names self.now).written (names self.now).uid text.now };

    /// The gid that the text writes in decimal, or that of the group that it names.
    fn gid_written(&self, text: &[u8]) -> Result<Gid, NameFault>
        ensures { result ≡ resolved (names self.now).written (names self.now).gid text.now };

    /// The uid of the field before the text's first colon, and the text after the colon. A fast
    /// path: on `None` the caller has to cut off the field and use `uid_written`.
    fn uid_in_front<'t>(&self, text: &'t [u8]) -> Option<(Uid, &'t [u8])>
        ensures { IfSome result (λ front. BeginsWithId (names self.now).written
            (names self.now).uid text.now front.0 front.1.now) };

    /// The gid of the field before the text's first colon, and the text after the colon. A fast
    /// path: on `None` the caller has to cut off the field and use `gid_written`.
    fn gid_in_front<'t>(&self, text: &'t [u8]) -> Option<(Gid, &'t [u8])>
        ensures { IfSome result (λ front. BeginsWithId (names self.now).written
            (names self.now).gid text.now front.0 front.1.now) };
}

/// The uid of the user whose name the text begins with, and the text after the name's colon.
fn user_in_front<'t>(directory: &Directory, text: &'t [u8]) -> Option<(Uid, &'t [u8])>
    ensures { IfSome result (λ front. BeginsWithId written_id (uid_of directory.now) text.now
        front.0 front.1.now) }
{
    let (name, hash, rest) = split_name(b':', text)?;
    let uid = directory.uid_by_hash(hash, name)?;
    Some((uid, rest))
}

/// The gid of the group whose name the text begins with, and the text after the name's colon.
fn group_in_front<'t>(directory: &Directory, text: &'t [u8]) -> Option<(Gid, &'t [u8])>
    ensures { IfSome result (λ front. BeginsWithId written_id (gid_of directory.now) text.now
        front.0 front.1.now) }
{
    let (name, hash, rest) = split_name(b':', text)?;
    let gid = directory.gid_by_hash(hash, name)?;
    Some((gid, rest))
}

impl ResolveNames for Directory {
    ghost use Rattle.acl_names.specs.Names.{names_of};

    ghost names = { names_of };

    fn uid_written(&self, text: &[u8]) -> Result<Uid, NameFault> {
        let written = WrittenId::read(text).ok_or(NameFault::Malformed)?;
        self.uid(written).ok_or(NameFault::Unknown)
    }

    fn gid_written(&self, text: &[u8]) -> Result<Gid, NameFault> {
        let written = WrittenId::read(text).ok_or(NameFault::Malformed)?;
        self.gid(written).ok_or(NameFault::Unknown)
    }

    fn uid_in_front<'t>(&self, text: &'t [u8]) -> Option<(Uid, &'t [u8])> {
        let Some((number, rest)) = read_decimal_until(b':', text) else {
            return user_in_front(self, text);
        };
        let uid = Uid::new(number)?;
        Some((uid, rest))
    }

    fn gid_in_front<'t>(&self, text: &'t [u8]) -> Option<(Gid, &'t [u8])> {
        let Some((number, rest)) = read_decimal_until(b':', text) else {
            return group_in_front(self, text);
        };
        let gid = Gid::new(number)?;
        Some((gid, rest))
    }
}
