//! The list by which Linux decides access.

ghost use Rattle.std.specs.Prelude.{◌≡◌, IfOk, IsOk};
ghost use Rattle.acl_posix.specs.Access.{grants};
ghost use Rattle.acl_posix.specs.Canonical.{IsCanonical};
ghost use Rattle.acl_posix.specs.Linux.{has_empty_mask, linux_list};
ghost use Rattle.acl_posix.specs.Perms.{bits_of};
ghost use Rattle.acl_posix.specs.Validity.{IsValid};

use crate::acl::access::{decide, first_has, last_has};
use crate::acl::perms_of;
use crate::{Acl, Entry, Perms, Tag};
use acl_names::{Gid, Subject, Uid};
use bitflags::Flags;
use std::alloc::{AllocError, Global};

impl Acl {
    /// The list that Linux evaluates for a file with this one: this list, or, if its mask is empty,
    /// the list of the file's mode. Linux ignores a list with an empty mask, so the mode decides
    /// for users whom the list names too, where the draft denies (`acl_permission_check`,
    /// fs/namei.c). It takes no memory.
    pub fn for_linux(self, alloc: Global) -> Result<Acl, AllocError>
        ensures value { IfOk result (λ acl. acl ≡ linux_list self) }
        ensures succeeds { IsOk result }
    {
        if is_mask_empty(self.entries()) {
            return Acl::of_mode(alloc, self.mode());
        }
        Ok(self)
    }
}

/// What Linux decides by the entries of a list, in canonical order. Under an empty mask the owner's
/// entry and the others' decide as in the list, and the file's group is granted nothing.
pub(super) fn decide_as_linux<S: Subject>(
    entries: &[Entry],
    owner: Uid,
    group: Gid,
    subject: &S,
    request: Perms,
) -> bool
    requires valid { IsValid entries.now }
    requires canonical { IsCanonical entries.now }
    ensures { result ≡ grants (linux_list entries.now) owner group (S.identity subject.now)
        (bits_of request) }
{
    if !is_mask_empty(entries) {
        return decide(entries, owner, group, subject, request);
    }
    if subject.uid() == owner {
        return first_has(entries, request);
    }
    if subject.is_in_group(group) {
        return Perms::empty().contains(request);
    }
    last_has(entries, request)
}

/// Whether there is a mask without permissions.
fn is_mask_empty(entries: &[Entry]) -> bool
    requires { IsCanonical entries.now }
    ensures { result ≡ has_empty_mask entries.now }
{
    match perms_of(entries, Tag::Mask) {
        Some(mask) => mask.is_empty(),
        None => false,
    }
}
