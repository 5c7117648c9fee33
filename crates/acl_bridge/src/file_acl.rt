//! The list of a file, with the file's owners.
ghost use Rattle.std.specs.Prelude.{◌≡◌};
ghost use Rattle.acl_nfs4.specs.Evaluation.{grants4};
ghost use Rattle.acl_nfs4.specs.Mask.{mask_of};
ghost use Rattle.acl_posix.specs.Perms.{bits_of};
ghost use Rattle.acl_bridge.specs.Files.{may, view_acl};

use crate::AnyAclRef;
use acl_names::Requester;
use acl_nfs4::{Acl4, Owners, mask_of};
use acl_posix::Perms;

/// What decides access to a file: its owners, and its list.
#[derive(Clone, Copy, Debug)]
pub struct FileAcl<'a> {
    /// The file's owner and its group.
    pub owners: Owners,
    /// The list that decides access.
    pub list: AnyAclRef<'a>,
}

/// Whether an NFSv4 list grants the requester each bit that the permissions mean.
fn grants_perms(acl: &Acl4, owners: &Owners, requester: &Requester, perms: Perms) -> bool
    ensures { result ≡ grants4 acl.now owners.now.owner owners.now.group requester.now
        (mask_of (bits_of perms)) }
{
    acl.grants4(owners.owner, owners.group, requester, mask_of(perms))
}

impl<'a> FileAcl<'a> {
    /// Whether the list grants the requester all of the permissions. It takes no memory.
    pub fn may(&self, requester: &Requester, perms: Perms) -> bool
        ensures { result ≡ may (view_acl self.now) requester.now (bits_of perms) }
    {
        let owners = &self.owners;
        match self.list {
            AnyAclRef::Posix(acl) => acl.grants(owners.owner, owners.group, requester, perms),
            AnyAclRef::Nfs4(acl) => grants_perms(acl, owners, requester, perms),
        }
    }
}
