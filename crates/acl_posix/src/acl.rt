//! Access control lists.

ghost use Rattle.std.specs.Prelude.{List, ◌≡◌, ◌≢◌, ◌↔◌, IsTrue, None, OnOk, IfOk, IfErr, IfSome};
ghost use Rattle.std.specs.Prelude.{option_map};
ghost use Rattle.std.specs.List.{Contains};
ghost use Rattle.std.specs.List.Sorted.{IsPermutation};
ghost use Rattle.acl_posix.specs.Canonical.{IsCanonical};
ghost use Rattle.acl_posix.specs.Entry.{perms_of};
ghost use Rattle.acl_posix.specs.Perms.{bits_of};

mod access;
mod in_place;
mod linux;
mod modes;

use crate::limits::INLINE_ENTRIES;
use crate::{Entries, Entry, Perms, Tag};
pub use in_place::{entries_grant, entries_grant_on_linux};
use smallvec::SmallVec;
use std::marker::Model;

/// Why entries don't make an access control list.
#[derive(Clone, Copy, Debug, PartialEq, Eq)]
pub enum Invalid {
    /// The entry for the owner, the file's group or the others is missing.
    Missing,
    /// Two entries have the same tag and id.
    Repeated,
    /// There is an entry for a user or a group by id, and no mask.
    NoMask,
    /// Memory ran out. No call of this crate returns it: entries are sorted in place.
    Memory,
}

/// An access control list: a valid set of entries, in canonical order.
#[derive(Debug, Drop)]
pub struct Acl {
    sorted: SmallVec<Entry, INLINE_ENTRIES>,
}

impl Model for Acl {
    ghost use Rattle.std.specs.Prelude.{List};
    ghost use Rattle.acl_posix.specs.Entry.{EntryValue};
    ghost use Rattle.acl_posix.specs.Canonical.{IsAcl};

    ghost Value = { List EntryValue };

    ghost view = { λ acl. acl.sorted.items };

    ghost invariant = { λ acl. IsAcl acl.sorted.items };
}

impl Acl {
    ghost use Rattle.acl_posix.specs.Entry.{EntryValue};
    ghost use Rattle.acl_posix.specs.Validity.{IsValid, IsRefusedFor, fault_of};
    ghost use Rattle.acl_posix.specs.Canonical.{IsAcl};
    ghost use Rattle.acl_posix.specs.InOrder.{in_order};
    ghost use Rattle.acl_posix.specs.Perms.{IsPermissions};

    /// Makes an access control list of these entries (1003.1e draft 17, section 23): one entry each
    /// for the owner, the file's group and the others, at most one mask, no user and no group
    /// twice, and a mask if a user or a group is named. Refuses others for the first of: an entry
    /// is missing, an entry is repeated, there is no mask; a refusal drops the entries. The list
    /// has the entries in canonical order, in their own storage: it takes no memory.
    #[inline(always)]
    pub fn new(entries: Entries) -> Result<Acl, Invalid>
        ensures list { IfOk result (λ acl. acl ≡ in_order entries) }
        ensures valid { OnOk result (IsValid entries) }
        ensures same_entries { IfOk result (IsPermutation entries) }
        ensures err { IfErr result (IsRefusedFor entries) }
        ensures no_memory { IfErr result (λ fault. fault ≢ Invalid.Memory) }
        ensures nothing_wrong { IsValid entries ↔ (fault_of entries ≡ None) }
    {
        let mut entries = entries;
        let distinct = entries.sort();
        if let Some(fault) = entries.fault(distinct) {
            return Err(fault);
        }
        Ok(Acl {
            sorted: entries.into_items(),
        })
    }

    /// The entries in canonical order: the owner's, the users' by id, the file's group's, the
    /// groups' by id, the mask, and the others'.
    pub fn entries(&self) -> &[Entry]
        ensures value { result.now ≡ self.now }
        ensures acl { IsAcl self.now }

        // A list is determined by the set of its entries.
        ensures one_list { (other : List EntryValue) → IsAcl other
            → ((entry : EntryValue) → Contains self.now entry ↔ Contains other entry)
            → self.now ≡ other }
    {
        self.sorted.as_slice()
    }

    /// Whether the other list has the same entries.
    pub fn has_same_entries(&self, other: &Acl) -> bool
        ensures { IsTrue result ↔ (self.now ≡ other.now) }
    {
        self.entries() == other.entries()
    }

    /// The permissions of the mask, which limits users, the file's group and groups; `None` without
    /// a mask.
    pub fn mask(&self) -> Option<Perms>
        ensures value { option_map bits_of result ≡ perms_of Tag.Mask self.now }
        ensures permissions { IfSome result (λ perms. IsPermissions (bits_of perms)) }
    {
        self.perms_of(Tag::Mask)
    }

    /// The permissions of the entry with the tag; `None` without such an entry.
    fn perms_of(&self, tag: Tag) -> Option<Perms>
        ensures acl { IsAcl self.now }
        ensures value { option_map bits_of result ≡ perms_of tag self.now }
    {
        perms_of(self.entries(), tag)
    }
}

/// The permissions of the entry with the tag, among entries in canonical order; `None` without one.
fn perms_of(entries: &[Entry], tag: Tag) -> Option<Perms>
    requires { IsCanonical entries.now }
    ensures { option_map bits_of result ≡ perms_of tag entries.now }
{
    match entries.binary_search_by_key(&tag, |entry| entry.tag) {
        Ok(place) => {
            let found = &entries[place];
            Some(found.perms)
        }
        Err(_) => None,
    }
}
