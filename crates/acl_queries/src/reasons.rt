//! The entries of a list that decide about a request.
ghost use Rattle.std.specs.Prelude.{◌≡◌, ◌++◌, OnOk};
ghost use Rattle.acl_bridge.specs.Files.{view_list};
ghost use Rattle.acl_queries.specs.Reasons.{reasons};

mod nfs4;
mod posix;

use acl_bridge::AnyAclRef;
use acl_names::{Directory, Gid, Requester, Uid};
use acl_posix::Perms;
pub use nfs4::push_bit;
use nfs4::push_nfs4_reasons;
use posix::push_posix_reasons;
use std::alloc::AllocError;
use std::marker::Model;

/// A request of permissions, by a requester, for a file of this owner and this group.
#[derive(Drop)]
pub struct FileRequest<'t> {
    pub owner: Uid,
    pub group: Gid,
    pub requester: &'t Requester,
    pub request: Perms,
}

impl<'t> Model for FileRequest<'t> {
    ghost use Rattle.acl_posix.specs.Perms.{bits_of};
    ghost use Rattle.acl_queries.specs.Reasons.{FileRequestValue};

    ghost Value = { FileRequestValue };

    ghost view = { λ asked. record {
      owner = asked.owner;
      group = asked.group;
      requester = asked.requester.now;
      request = bits_of asked.request;
    } };
}

/// Appends the entries of the list that decide about the request, with ids as the directory names
/// them. Fails only if memory runs out.
pub fn push_reasons(
    asked: &FileRequest<'_>,
    list: AnyAclRef<'_>,
    directory: &Directory,
    out: &mut Vec<u8>,
) -> Result<(), AllocError>
    ensures { OnOk result (out.new.items
        ≡ out.old.items ++ reasons directory.now asked.now (view_list list.entry)) }
{
    match list {
        AnyAclRef::Posix(acl) => push_posix_reasons(asked, acl, directory, out),
        AnyAclRef::Nfs4(acl) => push_nfs4_reasons(asked, acl, directory, out),
    }
}
