//! What differs between two blocks of one path.
ghost use Rattle.std.specs.Prelude.{◌≡◌, ◌++◌, ◌||◌, ◌↔◌, IsTrue, OnOk, option_map};
ghost use Rattle.acl_listings.specs.Views.{view_file};
ghost use Rattle.acl_listing_changes.specs.WrittenChanges.{IsChanged, access_in, changed_text};
ghost use Rattle.acl_listing_changes.specs.WrittenChanges.{changed_words, default_in, is_changed};
ghost use Rattle.acl_listing_changes.specs.WrittenChanges.{word_if};

use acl_listings::{File, Lists};
use acl_posix::Acl;
use std::alloc::AllocError;

/// What differs between the files of two blocks.
#[derive(Clone, Copy)]
pub(super) struct Changed {
    pub owner: bool,
    pub group: bool,
    pub flags: bool,
    pub access: bool,
    pub default: bool,
}

/// Whether both have the same style, and the same entries in their access lists.
fn has_same_access(first: &Lists, second: &Lists) -> bool
    ensures { IsTrue result ↔ (access_in first.now ≡ access_in second.now) }
{
    match (first, second) {
        (Lists::Posix { access: one, .. }, Lists::Posix { access: other, .. }) => {
            one.has_same_entries(other)
        }
        (Lists::Nfs4 { acl: one }, Lists::Nfs4 { acl: other }) => one.has_same_entries(other),
        _ => false,
    }
}

/// The default list, if there is one.
fn default_of(lists: &Lists) -> Option<&Acl>
    ensures { option_map (λ acl. acl.now) result ≡ default_in lists.now }
{
    match lists {
        Lists::Posix { default, .. } => default.as_ref(),
        Lists::Nfs4 { .. } => None,
    }
}

/// Whether both have no default list, or default lists with the same entries.
fn has_same_default(first: &Lists, second: &Lists) -> bool
    ensures { IsTrue result ↔ (default_in first.now ≡ default_in second.now) }
{
    match (default_of(first), default_of(second)) {
        (Some(one), Some(other)) => one.has_same_entries(other),
        (None, None) => true,
        _ => false,
    }
}

/// What differs between the files of two blocks, as they are read. It takes no memory.
pub(super) fn changed_between(before: &File<'_>, after: &File<'_>) -> Changed
    ensures { IsChanged (view_file before.now) (view_file after.now) result }
{
    Changed {
        owner: before.owner != after.owner,
        group: before.group != after.group,
        flags: before.flags != after.flags,
        access: !has_same_access(&before.lists, &after.lists),
        default: !has_same_default(&before.lists, &after.lists),
    }
}

impl Changed {
    /// Whether anything differs.
    fn is_any(&self) -> bool
        ensures { result ≡ is_changed self.now }
    {
        self.owner || self.group || self.flags || self.access || self.default
    }
}

/// Appends a word if `is` is true, with a comma before it unless it is the first.
fn push_word_if(is: bool, before: bool, word: &str, out: &mut Vec<u8>) -> Result<(), AllocError>
    ensures { OnOk result (out.new.items ≡ out.old.items ++ word_if is before word.now) }
{
    if is && before {
        out.push(b',')?;
    }
    if is {
        out.extend_from_slice(word.as_bytes())?;
    }
    Ok(())
}

/// Appends the words of what differs.
fn push_words(changed: Changed, out: &mut Vec<u8>) -> Result<(), AllocError>
    ensures { OnOk result (out.new.items ≡ out.old.items ++ changed_words changed) }
{
    let ids = changed.owner || changed.group;
    let header = ids || changed.flags;
    push_word_if(changed.owner, false, "owner", out)?;
    push_word_if(changed.group, changed.owner, "group", out)?;
    push_word_if(changed.flags, ids, "flags", out)?;
    push_word_if(changed.access, header, "access", out)?;
    push_word_if(changed.default, header || changed.access, "default", out)
}

/// Appends the line of a path whose blocks differ, if they do and `asked` is set.
pub(super) fn push_changed(
    asked: bool,
    changed: Changed,
    path: &[u8],
    out: &mut Vec<u8>,
) -> Result<(), AllocError>
    ensures { OnOk result (out.new.items ≡ out.old.items ++ changed_text asked changed path.now) }
{
    if !(asked && changed.is_any()) {
        return Ok(());
    }
    out.extend_from_slice(b"changed ")?;
    push_words(changed, out)?;
    out.push(b' ')?;
    out.extend_from_slice(path)?;
    out.push(b'\n')?;
    Ok(())
}
