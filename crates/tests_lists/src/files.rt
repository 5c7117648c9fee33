//! The file of the examples, who asks for it, and what lists grant.
use acl_names::{Gid, Requester, Uid};
use acl_nfs4::Mask;
use acl_posix::Perms;
use std::alloc::Global;
use tests_common::{acl, acl4, directory};

/// Whose it is: alice's and staff's.
pub fn owner_and_group() -> Option<(Uid, Gid)> {
    Some((Uid::new(1000)?, Gid::new(50)?))
}

/// Who asks as the user of this name.
pub fn requester_named(alloc: Global, name: &str) -> Option<Requester> {
    let names = directory(alloc)?;
    names.requester(alloc, names.uid_of(name)?).ok()
}

/// Whether the POSIX list that the text spells grants all of this.
pub fn grants(alloc: Global, text: &str, asks: &Requester, request: Perms) -> Option<bool> {
    let (alice, staff) = owner_and_group()?;
    let list = acl(alloc, text)?;
    Some(list.grants(alice, staff, asks, request))
}

/// Whether the NFSv4 list that the text spells grants all of this.
pub fn grants4(alloc: Global, text: &str, asks: &Requester, request: Mask) -> Option<bool> {
    let (alice, staff) = owner_and_group()?;
    let list = acl4(alloc, text)?;
    Some(list.grants4(alice, staff, asks, request))
}
