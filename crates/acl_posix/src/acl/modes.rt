//! Modes of access control lists.

ghost use Rattle.std.specs.Prelude.{◌≡◌, ◌≤◌, length, map, IfOk, IsOk, IfSome, option_map};
ghost use Rattle.acl_posix.specs.Mode.{mode_of, mode_perms, perms_at, group_class_tag, set_to};
ghost use Rattle.acl_posix.specs.Mode.{limit_to, chmod, at_creation, of_mode, calc_mask};
ghost use Rattle.acl_posix.specs.Perms.{bits_of, IsPermissions};
ghost use Rattle.acl_posix.specs.Access.{is_under_mask};
ghost use Rattle.acl_posix.specs.declared.limits.TheConstants.{INLINE_ENTRIES};

use crate::{Acl, Entry, Mode, Perms, Tag};
use bitflags::Flags;
use smallvec::SmallVec;
use std::alloc::{AllocError, Global};

/// The permissions that the mode has for the entry with the tag; `None` if it has none for it.
fn mode_perms(group_class: &Tag, mode: Mode, tag: Tag) -> Option<Perms>
    ensures value { option_map bits_of result ≡ mode_perms group_class.now mode tag }
    ensures permissions { IfSome result (λ perms. IsPermissions (bits_of perms)) }
{
    match tag {
        Tag::UserObj => Some(mode.user),
        Tag::Other => Some(mode.other),
        _ => {
            if tag.is(*group_class) {
                Some(mode.group)
            } else {
                None
            }
        }
    }
}

/// The entry with the mode's permissions, if the mode has some for it.
fn set_to(group_class: &Tag, mode: Mode, entry: Entry) -> Entry
    ensures { result ≡ set_to group_class.now mode entry }
{
    match mode_perms(group_class, mode, entry.tag) {
        Some(set) => Entry {
            tag: entry.tag,
            perms: set,
        },
        None => entry,
    }
}

/// The entry with only those permissions that the mode also has for it.
fn limit_to(group_class: &Tag, mode: Mode, entry: Entry) -> Entry
    ensures { result ≡ limit_to group_class.now mode entry }
{
    match mode_perms(group_class, mode, entry.tag) {
        Some(perms) => Entry {
            tag: entry.tag,
            perms: entry.perms & perms,
        },
        None => entry,
    }
}

fn set_all(entries: &mut [Entry], group_class: &Tag, mode: Mode)
    ensures { entries.new ≡ map (set_to group_class.now mode) entries.old }
{
    for entry in entries.iter_mut() {
        *entry = set_to(group_class, mode, *entry);
    }
}

fn limit_all(entries: &mut [Entry], group_class: &Tag, mode: Mode)
    ensures { entries.new ≡ map (limit_to group_class.now mode) entries.old }
{
    for entry in entries.iter_mut() {
        *entry = limit_to(group_class, mode, *entry);
    }
}

impl Acl {
    /// The mode of a file with this access control list (1003.1e draft 17, section 23): the
    /// permissions of the owner's entry, of the mask (without one, of the file's group's entry),
    /// and of the others' entry.
    pub fn mode(&self) -> Mode
        ensures { result ≡ mode_of self.now }
    {
        Mode {
            user: self.perms_at(Tag::UserObj),
            group: self.perms_at(self.group_class_tag()),
            other: self.perms_at(Tag::Other),
        }
    }

    /// Changes the mode: sets the entries from which `mode` takes it, and no others.
    pub fn chmod(&mut self, mode: Mode)
        ensures { self.new ≡ chmod self.old mode }
    {
        // For the proof only: reading a field brings the invariant of `mode` into scope.
        let _ = &mode.user;
        let group_class = self.group_class_tag();
        set_all(self.sorted.as_mut_slice(), &group_class, mode);
    }

    /// The access control list of three entries with this mode. It takes no memory.
    pub fn of_mode(alloc: Global, mode: Mode) -> Result<Acl, AllocError>
        ensures value { IfOk result (λ acl. acl ≡ of_mode mode) }
        ensures succeeds { IsOk result }
    {
        let sorted = SmallVec::from_array(
            alloc,
            [
                Entry {
                    tag: Tag::UserObj,
                    perms: mode.user,
                },
                Entry {
                    tag: Tag::GroupObj,
                    perms: mode.group,
                },
                Entry {
                    tag: Tag::Other,
                    perms: mode.other,
                },
            ],
        )?;
        Ok(Acl { sorted })
    }

    /// The access control list of a new file with this mode, under a default access control list
    /// (1003.1e draft 17, section 23): the default list, whose entries for the owner, the group
    /// class and the others keep only the mode's bits. Fails only if memory runs out, and never
    /// with at most `INLINE_ENTRIES`.
    pub fn at_creation(alloc: Global, default: &Acl, mode: Mode) -> Result<Acl, AllocError>
        ensures value { IfOk result (λ acl. acl ≡ at_creation default.now mode) }
        ensures short { length default.now ≤ INLINE_ENTRIES → IsOk result }
    {
        let group_class = default.group_class_tag();
        let mut sorted = SmallVec::from_slice(alloc, default.sorted.as_slice())?;
        limit_all(sorted.as_mut_slice(), &group_class, mode);
        Ok(Acl { sorted })
    }

    /// The union of the permissions of the users, the file's group and the groups: the least mask
    /// that limits none of them.
    pub fn calc_mask(&self) -> Perms
        ensures { bits_of result ≡ calc_mask self.now }
    {
        let mut all = Perms::empty();
        for entry in self.sorted.iter() {
            if entry.tag.is_under_mask() {
                all = all | entry.perms;
            }
        }
        all
    }

    /// Clones the list. It allocates only for more than `INLINE_ENTRIES` entries, and fails only if
    /// memory runs out.
    pub fn try_clone(&self, alloc: Global) -> Result<Acl, AllocError>
        ensures value { IfOk result (λ acl. acl ≡ self.now) }
        ensures short { length self.now ≤ INLINE_ENTRIES → IsOk result }
    {
        let sorted = SmallVec::from_slice(alloc, self.sorted.as_slice())?;
        Ok(Acl { sorted })
    }

    /// The tag of the entry that has the group's bits of the mode.
    fn group_class_tag(&self) -> Tag
        ensures { result ≡ group_class_tag self.now }
    {
        if self.mask().is_some() {
            Tag::Mask
        } else {
            Tag::GroupObj
        }
    }

    /// The permissions of the entry with the tag; empty if there is no such entry.
    fn perms_at(&self, tag: Tag) -> Perms
        ensures value { bits_of result ≡ perms_at tag self.now }
        ensures permissions { IsPermissions (bits_of result) }
    {
        match self.perms_of(tag) {
            Some(perms) => perms,
            None => Perms::empty(),
        }
    }
}
