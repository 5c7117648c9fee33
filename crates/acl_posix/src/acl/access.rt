//! The access check.

ghost use Rattle.std.specs.Prelude.{◌≡◌, ◌&&◌, List};
ghost use Rattle.std.specs.List.Sorted.{IsPermutation};
ghost use Rattle.acl_posix.specs.Access.{effective_perms, grants, is_for_group_of};
ghost use Rattle.acl_posix.specs.Canonical.{IsCanonical};
ghost use Rattle.acl_posix.specs.CheckSteps.{group_answer, groups_answer, mask_allows, tag_answer};
ghost use Rattle.acl_posix.specs.CheckSteps.{tag_has, user_answer};
ghost use Rattle.acl_posix.specs.Entry.{EntryValue};
ghost use Rattle.acl_posix.specs.Perms.{bits_of};
ghost use Rattle.acl_posix.specs.Validity.{IsValid};

use crate::acl::perms_of;
use crate::{Acl, Entry, Perms, Tag};
use acl_names::{Gid, Subject, Uid};
use bitflags::Flags;

impl Acl {
    /// Whether the list grants the subject all of the request, for a file of this owner and this
    /// group: the access check of 1003.1e draft 17, section 23. The owner's entry decides for the
    /// owner; else the user's own entry; else the entries for the subject's groups (the file's
    /// group and groups by id), one of which must have all of the request; else the others' entry.
    /// The mask, if there is one, limits the entries for users, the file's group and groups. It
    /// takes no memory.
    pub fn grants<S: Subject>(&self, owner: Uid, group: Gid, subject: &S, request: Perms) -> bool
        ensures value { result
            ≡ grants self.now owner group (S.identity subject.now) (bits_of request) }

        // The entries count as a set: in any other order the answer is the same.
        ensures any_order { (entries : List EntryValue) → IsPermutation self.now entries
            → result ≡ grants entries owner group (S.identity subject.now) (bits_of request) }
    {
        decide(self.entries(), owner, group, subject, request)
    }

    /// The effective permissions of an entry: its own that the list's mask leaves. The entry may
    /// also be one of another list.
    pub fn effective_perms(&self, entry: &Entry) -> Perms
        ensures { bits_of result ≡ effective_perms self.now entry.now }
    {
        entry.perms_under(self.mask())
    }
}

/// `Acl::grants` for the entries of a list, by a search through them. They must be in canonical
/// order.
#[inline(always)]
pub(crate) fn decide<S: Subject>(
    entries: &[Entry],
    owner: Uid,
    group: Gid,
    subject: &S,
    request: Perms,
) -> bool
    requires valid { IsValid entries.now }
    requires canonical { IsCanonical entries.now }
    ensures { result ≡ grants entries.now owner group (S.identity subject.now) (bits_of request) }
{
    let uid = subject.uid();
    if uid == owner {
        return first_has(entries, request);
    }
    match user_answer(entries, uid, request) {
        Some(answer) => answer,
        None => match group_answer(entries, subject, group, request) {
            Some(answer) => answer,
            None => last_has(entries, request),
        },
    }
}

/// Whether the owner's entry, the first of the list, has all of the request.
pub(super) fn first_has(entries: &[Entry], request: Perms) -> bool
    requires valid { IsValid entries.now }
    requires canonical { IsCanonical entries.now }
    ensures { result ≡ tag_has Tag.UserObj entries.now (bits_of request) }
{
    match entries {
        [first, ..] => first.perms.contains(request),
        [] => false,
    }
}

/// Whether the others' entry, the last of the list, has all of the request.
pub(super) fn last_has(entries: &[Entry], request: Perms) -> bool
    requires valid { IsValid entries.now }
    requires canonical { IsCanonical entries.now }
    ensures { result ≡ tag_has Tag.Other entries.now (bits_of request) }
{
    match entries {
        [.., last] => last.perms.contains(request),
        [] => false,
    }
}

/// Whether the user's own entry and the mask have all of the request; `None` without such an entry.
fn user_answer(entries: &[Entry], uid: Uid, request: Perms) -> Option<bool>
    requires valid { IsValid entries.now }
    requires canonical { IsCanonical entries.now }
    ensures { result ≡ user_answer entries.now uid (bits_of request) }
{
    match tag_answer(entries, Tag::User(uid), request) {
        Some(has) => Some(has && mask_allows(entries, request)),
        None => None,
    }
}

/// Whether the entry with the tag has all of the request; `None` without such an entry.
fn tag_answer(entries: &[Entry], tag: Tag, request: Perms) -> Option<bool>
    requires valid { IsValid entries.now }
    requires canonical { IsCanonical entries.now }
    ensures { result ≡ tag_answer tag entries.now (bits_of request) }
{
    match perms_of(entries, tag) {
        Some(perms) => Some(perms.contains(request)),
        None => None,
    }
}

/// Whether an entry for a group of the subject, and the mask, have all of the request; `None`
/// without such an entry.
fn group_answer<S: Subject>(
    entries: &[Entry],
    subject: &S,
    group: Gid,
    request: Perms,
) -> Option<bool>
    requires { IsCanonical entries.now }
    ensures { result ≡ group_answer entries.now group (S.identity subject.now) (bits_of request) }
{
    match groups_answer(entries, subject, group, request) {
        Some(granted) => Some(granted && mask_allows(entries, request)),
        None => None,
    }
}

/// Whether the mask, if there is one, has all of the request.
fn mask_allows(entries: &[Entry], request: Perms) -> bool
    requires { IsCanonical entries.now }
    ensures { result ≡ mask_allows entries.now (bits_of request) }
{
    match perms_of(entries, Tag::Mask) {
        Some(mask) => mask.contains(request),
        None => true,
    }
}

/// Whether an entry for a group of the subject has all of the request; `None` without such an
/// entry. It stops at the first entry that has it.
fn groups_answer<S: Subject>(
    entries: &[Entry],
    subject: &S,
    group: Gid,
    request: Perms,
) -> Option<bool>
    ensures { result ≡ groups_answer entries.now group (S.identity subject.now) (bits_of request) }
{
    let mut answer = None;
    for entry in entries {
        if is_for_group_of(subject, group, &entry.tag) {
            if entry.perms.contains(request) {
                return Some(true);
            }
            answer = Some(false);
        }
    }
    answer
}

/// Whether the tag is that of a group which the subject is in: the file's group, or one by id.
fn is_for_group_of<S: Subject>(subject: &S, group: Gid, tag: &Tag) -> bool
    ensures { result ≡ is_for_group_of (S.identity subject.now) group tag.now }
{
    match tag {
        Tag::GroupObj => subject.is_in_group(group),
        Tag::Group(gid) => subject.is_in_group(*gid),
        _ => false,
    }
}
