//! Comparing the lists of two files, of either style, for everyone.
ghost use Rattle.std.specs.Prelude.{IfOk};
ghost use Rattle.acl_bridge.specs.Files.{file_with, view_acl};
ghost use Rattle.acl_bridge.specs.Lists.{Finds};
ghost use Rattle.acl_bridge.specs.declared.any_acl.AnyAcl.TheVariants as list;

use crate::comparison::{difference_from_posix, posix_difference};
use crate::whole_requests::whole_request_difference;
use crate::{AnyAclRef, FileAcl};
use acl_nfs4::{Acl4, Difference, Mask, Owners};
use acl_posix::Acl;
use bitflags::Flags;
use std::alloc::{AllocError, Global};

/// Compares two POSIX lists: the permissions one by one, and else the requests of several.
fn between_posix_lists(
    alloc: Global,
    before: &Acl,
    owners: &Owners,
    after: &Acl,
    other_owners: &Owners,
) -> Result<Option<Difference>, AllocError>
    ensures { IfOk result (Finds (file_with owners.now (list.Posix before.now))
        (file_with other_owners.now (list.Posix after.now))) }
{
    match posix_difference(alloc, before, owners, after, other_owners)? {
        Some(difference) => Ok(Some(difference)),
        None => Ok(whole_request_difference(before, owners, after, other_owners)),
    }
}

/// Compares a POSIX list with an NFSv4 list.
fn from_posix(
    alloc: Global,
    before: &Acl,
    owners: &Owners,
    after: &Acl4,
    other_owners: &Owners,
) -> Result<Option<Difference>, AllocError>
    ensures { IfOk result (Finds (file_with owners.now (list.Posix before.now))
        (file_with other_owners.now (list.Nfs4 after.now))) }
{
    difference_from_posix(alloc, before, owners, after, other_owners)
}

/// Compares an NFSv4 list with a POSIX list.
fn towards_posix(
    alloc: Global,
    before: &Acl4,
    owners: &Owners,
    after: &Acl,
    other_owners: &Owners,
) -> Result<Option<Difference>, AllocError>
    ensures { IfOk result (Finds (file_with owners.now (list.Nfs4 before.now))
        (file_with other_owners.now (list.Posix after.now))) }
{
    match difference_from_posix(alloc, after, other_owners, before, owners)? {
        Some(difference) => Ok(Some(difference.reversed())),
        None => Ok(None),
    }
}

/// Compares two NFSv4 lists.
fn between_nfs4_lists(
    before: &Acl4,
    owners: &Owners,
    after: &Acl4,
    other_owners: &Owners,
) -> Option<Difference>
    ensures { Finds (file_with owners.now (list.Nfs4 before.now))
        (file_with other_owners.now (list.Nfs4 after.now)) result }
{
    before.difference(owners, after, other_owners, Mask::all())
}

/// Compares two files' lists, each for its own owners. `None` exactly if both grant every requester
/// the same, of whatever uid and groups; else a requester in at most two groups, with what only the
/// one and only the other list grants.
///
/// Between NFSv4 lists it compares all bits of a mask; between POSIX lists the permissions, first
/// each by itself and then the requests of several, as a whole; between lists of different styles
/// the bits of a file mode, each by itself, and no request of several. Fails only if memory runs
/// out.
pub fn list_difference(
    alloc: Global,
    before: &FileAcl<'_>,
    after: &FileAcl<'_>,
) -> Result<Option<Difference>, AllocError>
    ensures { IfOk result (Finds (view_acl before.now) (view_acl after.now)) }
{
    let (owners, other_owners) = (&before.owners, &after.owners);
    match (before.list, after.list) {
        (AnyAclRef::Posix(before), AnyAclRef::Posix(after)) => {
            between_posix_lists(alloc, before, owners, after, other_owners)
        }
        (AnyAclRef::Posix(before), AnyAclRef::Nfs4(after)) => {
            from_posix(alloc, before, owners, after, other_owners)
        }
        (AnyAclRef::Nfs4(before), AnyAclRef::Posix(after)) => {
            towards_posix(alloc, before, owners, after, other_owners)
        }
        (AnyAclRef::Nfs4(before), AnyAclRef::Nfs4(after)) => {
            Ok(between_nfs4_lists(before, owners, after, other_owners))
        }
    }
}
