//! The entries of a POSIX list that decide.
ghost use Rattle.std.specs.Prelude.{◌≡◌, ◌&&◌, ◌++◌, IfOk, OnOk, codes, decimal, fold};
ghost use Rattle.std.specs.Prelude.{option_map};
ghost use Rattle.std.specs.List.{flat_map, list_any};
ghost use Rattle.acl_posix.specs.Perms.{bits_of};
ghost use Rattle.acl_listing_queries.specs.Via.{class_via, entry_words, gives};
ghost use Rattle.acl_listing_queries.specs.Via.{has_asked, is_masked, mask_words, posix_via};
ghost use Rattle.acl_listing_queries.specs.Via.{with_word};

use super::{push_word, push_word_if};
use acl_names::{Gid, Requester, push_decimal};
use acl_nfs4::Owners;
use acl_posix::{Acl, Entry, Perms, Tag};
use acl_queries::{Class, class_of};
use bitflags::Flags;
use std::alloc::{AllocError, Global};

/// The class of a list's entries that decides for a requester, for a file of this group, and the
/// request: permissions at once, or any.
#[derive(Clone, Copy)]
struct Deciding<'t> {
    class: Class,
    acl: &'t Acl,
    group: Gid,
    requester: &'t Requester,
    perms: Option<Perms>,
}

/// Whether the granted permissions have the request.
fn has_asked(perms: Option<Perms>, granted: Perms) -> bool
    ensures { result ≡ has_asked (option_map bits_of perms) (bits_of granted) }
{
    match perms {
        Some(perms) => granted.contains(perms),
        None => !granted.is_empty(),
    }
}

/// Whether the mask takes something from the entry.
fn is_masked(acl: &Acl, entry: &Entry) -> bool
    ensures { result ≡ is_masked acl.now entry.now }
{
    acl.effective_perms(entry).bits() != entry.perms.bits()
}

/// Appends `group:` and the id.
fn push_group(gid: Gid, out: &mut Vec<u8>) -> Result<(), AllocError>
    ensures { OnOk result (out.new.items
        ≡ with_word out.old.items (codes "group:" ++ decimal gid)) }
{
    push_word(b"group:", out)?;
    push_decimal(gid.value(), out)
}

impl<'t> Deciding<'t> {
    /// Whether the entry decides.
    fn gives(&self, entry: &Entry) -> bool
        ensures { result ≡ gives self.now.class self.now.acl.now self.now.group
            self.now.requester.now (option_map bits_of self.now.perms) entry.now }
    {
        self.class.has(self.group, self.requester, entry.tag)
            && has_asked(self.perms, self.acl.effective_perms(entry))
    }

    /// Whether the entry decides, and the mask takes something from it.
    fn gives_less(&self, entry: &Entry) -> bool
        ensures { result ≡ (gives self.now.class self.now.acl.now self.now.group
            self.now.requester.now (option_map bits_of self.now.perms) entry.now
            && is_masked self.now.acl.now entry.now) }
    {
        self.gives(entry) && is_masked(self.acl, entry)
    }

    /// Whether the mask limits an entry that decides.
    fn is_limited(&self, entries: &[Entry]) -> bool
        ensures { result ≡ list_any (λ entry. gives self.now.class self.now.acl.now self.now.group
            self.now.requester.now (option_map bits_of self.now.perms) entry
            && is_masked self.now.acl.now entry) entries.now }
    {
        entries.iter().any(|entry| self.gives_less(entry))
    }

    /// Appends the word of the entry, if it decides.
    fn push_entry(&self, entry: &Entry, out: &mut Vec<u8>) -> Result<(), AllocError>
        ensures { OnOk result (out.new.items ≡ fold with_word out.old.items
            (entry_words self.now.class self.now.acl.now self.now.group self.now.requester.now
            (option_map bits_of self.now.perms) entry.now)) }
    {
        if !self.gives(entry) {
            return Ok(());
        }
        match entry.tag {
            Tag::UserObj => push_word(b"owner", out),
            Tag::User(_) => push_word(b"user", out),
            Tag::GroupObj => push_word(b"group", out),
            Tag::Group(gid) => push_group(gid, out),
            Tag::Mask => push_word(b"mask", out),
            Tag::Other => push_word(b"other", out),
        }
    }

    /// Appends the words of those of the entries that decide.
    fn push_entries(&self, entries: &[Entry], out: &mut Vec<u8>) -> Result<(), AllocError>
        ensures { OnOk result (out.new.items ≡ fold with_word out.old.items
            (flat_map (entry_words self.now.class self.now.acl.now self.now.group
            self.now.requester.now (option_map bits_of self.now.perms)) entries.now)) }
    {
        for entry in entries {
            self.push_entry(entry, out)?;
        }
        Ok(())
    }

    /// Appends the mask's word, if it limits an entry that decides.
    fn push_mask(&self, out: &mut Vec<u8>) -> Result<(), AllocError>
        ensures { OnOk result (out.new.items ≡ fold with_word out.old.items
            (mask_words self.now.class self.now.acl.now self.now.group self.now.requester.now
            (option_map bits_of self.now.perms))) }
    {
        push_word_if(b"mask", self.is_limited(self.acl.entries()), out)
    }

    /// The words of the entries that decide, and of the mask.
    fn via(&self, alloc: Global) -> Result<Vec<u8>, AllocError>
        ensures { IfOk result (λ via. via.items ≡ class_via self.now.class self.now.acl.now
            self.now.group self.now.requester.now (option_map bits_of self.now.perms)) }
    {
        let mut out = Vec::new(alloc);
        self.push_entries(self.acl.entries(), &mut out)?;
        self.push_mask(&mut out)?;
        Ok(out)
    }
}

/// The words of the entries that decide for the requester, for a file of these owners: those that
/// have the permissions, or any if there is no request. Fails only if memory runs out.
pub(crate) fn posix_via(
    alloc: Global,
    acl: &Acl,
    owners: Owners,
    requester: &Requester,
    perms: Option<Perms>,
) -> Result<Vec<u8>, AllocError>
    ensures { IfOk result (λ via. via.items
        ≡ posix_via acl.now owners requester.now (option_map bits_of perms)) }
{
    let deciding = Deciding {
        class: class_of(acl, owners.owner, owners.group, requester),
        acl,
        group: owners.group,
        requester,
        perms,
    };
    deciding.via(alloc)
}
