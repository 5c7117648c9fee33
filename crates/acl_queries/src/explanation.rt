//! Which entries of a list decide about a requester.
ghost use Rattle.std.specs.Prelude.{◌≡◌};
ghost use Rattle.std.specs.List.{list_any};
ghost use Rattle.acl_nfs4.specs.Mask.{mask_bits};
ghost use Rattle.acl_nfs4.specs.Who.{matches};
ghost use Rattle.acl_posix.specs.Access.{effective_perms, is_for_group_of};
ghost use Rattle.acl_posix.specs.Entry.{same_tag};
ghost use Rattle.acl_posix.specs.Perms.{bits_of};
ghost use Rattle.acl_queries.specs.Explanation.{class_of, counts, first_speaker, is_limited};
ghost use Rattle.acl_queries.specs.Explanation.{is_of_class, lacks, speaks_of};

use acl_names::{Gid, Requester, Uid};
use acl_nfs4::{Ace, Acl4, Mask};
use acl_posix::{Acl, Entry, Perms, Tag, without};
use bitflags::Flags;

/// The class of entries of a POSIX list that decides about a requester.
#[derive(Clone, Copy, Debug, PartialEq, Eq)]
pub enum Class {
    /// The owner's entry.
    Owner,
    /// The user's own entry.
    User,
    /// The entries for the groups that the user is in.
    Group,
    /// The others' entry.
    Other,
}

/// Whether the tag is that of a group which the requester is in: the file's group, or one by id.
fn is_for_group_of(requester: &Requester, group: Gid, tag: Tag) -> bool
    ensures { result ≡ is_for_group_of requester.now group tag }
{
    match tag {
        Tag::GroupObj => requester.is_in_group(group),
        Tag::Group(gid) => requester.is_in_group(gid),
        _ => false,
    }
}

/// Whether there is an entry for the user.
fn has_user(entries: &[Entry], uid: Uid) -> bool
    ensures { result ≡ list_any (λ entry. same_tag entry.tag (Tag.User uid)) entries.now }
{
    entries.iter().any(|entry| entry.tag.is(Tag::User(uid)))
}

/// Whether there is an entry for a group of the requester.
fn has_group(entries: &[Entry], requester: &Requester, group: Gid) -> bool
    ensures { result ≡ list_any (λ entry. is_for_group_of requester.now group entry.tag) entries.now }
{
    entries
        .iter()
        .any(|entry| is_for_group_of(requester, group, entry.tag))
}

/// The class of entries that decides about the requester, for a file of this owner and this group.
pub fn class_of(acl: &Acl, owner: Uid, group: Gid, requester: &Requester) -> Class
    ensures { result ≡ class_of acl.now owner group requester.now }
{
    if requester.uid() == owner {
        Class::Owner
    } else if has_user(acl.entries(), requester.uid()) {
        Class::User
    } else if has_group(acl.entries(), requester, group) {
        Class::Group
    } else {
        Class::Other
    }
}

impl Class {
    /// Whether an entry with the tag is of the class.
    pub fn has(self, group: Gid, requester: &Requester, tag: Tag) -> bool
        ensures { result ≡ is_of_class self group requester.now tag }
    {
        match self {
            Class::Owner => tag.is(Tag::UserObj),
            Class::User => tag.is(Tag::User(requester.uid())),
            Class::Group => is_for_group_of(requester, group, tag),
            Class::Other => tag.is(Tag::Other),
        }
    }

    /// Whether the mask limits the class.
    pub fn is_limited(self) -> bool
        ensures { result ≡ is_limited self }
    {
        matches!(self, Class::User | Class::Group)
    }

    /// Whether an entry with the tag counts: it is of the class, or is the mask that limits it.
    pub fn counts(self, group: Gid, requester: &Requester, tag: Tag) -> bool
        ensures { result ≡ counts self group requester.now tag }
    {
        match tag {
            Tag::Mask => self.is_limited(),
            _ => self.has(group, requester, tag),
        }
    }
}

/// The permissions of the request that the entry lacks under the mask.
pub fn lacks(acl: &Acl, entry: &Entry, request: Perms) -> Perms
    ensures { bits_of result ≡ lacks acl.now entry.now (bits_of request) }
{
    without(request, acl.effective_perms(entry))
}

/// Whether the entry allows or denies the requester all of the bits.
fn speaks(ace: &Ace, owner: Uid, group: Gid, requester: &Requester, bits: Mask) -> bool
    ensures { result ≡ speaks_of (matches owner group requester.now) (mask_bits bits) ace.now }
{
    ace.concerns(owner, group, requester) && ace.mask().contains(bits)
}

/// The place of the first entry that allows or denies the requester the bit, a mask of one, for a
/// file of this owner and this group: it decides. `None` if no entry does, and the bit is denied.
pub fn first_speaker(
    acl: &Acl4,
    owner: Uid,
    group: Gid,
    requester: &Requester,
    bit: Mask,
) -> Option<usize>
    ensures { result ≡ first_speaker (matches owner group requester.now) (mask_bits bit) acl.now }
{
    acl.aces()
        .iter()
        .position(|ace| speaks(ace, owner, group, requester, bit))
}
