//! Printing access control lists: the long text form (1003.1e draft 17, section 23).

ghost use Rattle.std.specs.Prelude.{◌≡◌, ◌≤◌, ◌<◌, ◌++◌, ◌∷◌, [], length, vec_len};
ghost use Rattle.std.specs.Prelude.{vec_capacity, ◌+◌, ◌*◌, option_map, OnOk, OnErr, None, codes};
ghost use Rattle.acl_names.specs.Bytes.{colon, newline};
ghost use Rattle.acl_names.specs.ListText.{Spells};
ghost use Rattle.acl_posix.specs.Entry.{HavePermissions, perms_of};
ghost use Rattle.acl_posix.specs.EntryText.{entry_of};
ghost use Rattle.acl_posix.specs.Perms.{bits_of};
ghost use Rattle.acl_posix.specs.PermsText.{perms_text};
ghost use Rattle.acl_posix.specs.PrintedText.{default_text, effective_mark, effective_text};
ghost use Rattle.acl_posix.specs.PrintedText.{entry_text};
ghost use Rattle.acl_posix.specs.PrintedText.{line_text, long_text, mark_of, qualifier_text};
ghost use Rattle.acl_posix.specs.PrintedText.{word_text, HasId, HaveIds};

use crate::limits::{MAX_DEFAULT_LINE, MAX_ENTRIES, MAX_LINE};
use crate::{Acl, Entry, Perms, Tag};
use acl_names::{Directory, put_bytes};
use bitflags::Flags;
use std::alloc::AllocError;
use std::mem;

impl Acl {
    /// Appends the entries in canonical order, one a line, as `tag:qualifier:perms`: the long tag
    /// word, the qualifier's name in the directory, or else its decimal, and three characters of
    /// permissions. Fails only if memory runs out, and never if `out` has room for `MAX_LINE` bytes
    /// an entry; then `out` is as it was.
    pub fn print_long(&self, directory: &Directory, out: &mut Vec<u8>) -> Result<(), AllocError>
        ensures text { OnOk result (out.new.items
            ≡ out.old.items ++ long_text directory.now self.now) }
        ensures unchanged { OnErr result (out.new.items ≡ out.old.items) }
        ensures room { OnErr result (vec_capacity out.old
            < vec_len out.old + length self.now * MAX_LINE) }
        // The text is read as these entries.
        ensures read_again { OnOk result (Spells (entry_of directory.now) MAX_ENTRIES
            (long_text directory.now self.now) self.now) }
    {
        print_lines(self.entries(), None, directory, out)
    }

    /// Like `print_long`, and if the mask limits an entry, a tab, `#effective:` and the permissions
    /// that it leaves come before the newline. Fails only if memory runs out, and never if `out`
    /// has room for `MAX_LINE` bytes an entry; then `out` is as it was.
    pub fn print_effective(
        &self,
        directory: &Directory,
        out: &mut Vec<u8>,
    ) -> Result<(), AllocError>
        ensures text { OnOk result (out.new.items
            ≡ out.old.items ++ effective_text directory.now (perms_of Tag.Mask self.now) self.now) }
        ensures unchanged { OnErr result (out.new.items ≡ out.old.items) }
        ensures room { OnErr result (vec_capacity out.old
            < vec_len out.old + length self.now * MAX_LINE) }
        // The text is read as these entries: a mark is a comment.
        ensures read_again { OnOk result
            (Spells (entry_of directory.now) MAX_ENTRIES
            (effective_text directory.now (perms_of Tag.Mask self.now) self.now) self.now) }
    {
        print_lines(self.entries(), self.mask(), directory, out)
    }

    /// Appends the text of `print_effective` with `default:` before each line, as a directory's
    /// default list is printed. Fails only if memory runs out, and never if `out` has room for
    /// `MAX_DEFAULT_LINE` bytes an entry; then `out` is as it was.
    pub fn print_default(&self, directory: &Directory, out: &mut Vec<u8>) -> Result<(), AllocError>
        ensures text { OnOk result (out.new.items
            ≡ out.old.items ++ default_text directory.now (perms_of Tag.Mask self.now) self.now) }
        ensures unchanged { OnErr result (out.new.items ≡ out.old.items) }
        ensures room { OnErr result (vec_capacity out.old
            < vec_len out.old + length self.now * MAX_DEFAULT_LINE) }
    {
        let entries = self.entries();
        out.reserve(entries.len() * MAX_DEFAULT_LINE)?;
        put_default_lines(entries, self.mask(), directory, out);
        Ok(())
    }
}

/// Appends the entry as `print_long` does, without a newline: `tag:qualifier:perms`. Fails only if
/// memory runs out; then `out` is as it was.
pub fn push_entry(entry: &Entry, directory: &Directory, out: &mut Vec<u8>) -> Result<(), AllocError>
    ensures text { OnOk result (out.new.items
        ≡ out.old.items ++ entry_text directory.now entry.now) }
    ensures unchanged { OnErr result (out.new.items ≡ out.old.items) }
{
    out.reserve(MAX_LINE)?;
    put_tag(entry.tag, directory, out);
    put_letters(entry.perms, out);
    Ok(())
}

/// Appends the permissions in three characters: `r` or `-`, `w` or `-`, `x` or `-`. Fails only if
/// memory runs out; then `out` is as it was.
pub fn push_perms(perms: Perms, out: &mut Vec<u8>) -> Result<(), AllocError>
    ensures text { OnOk result (out.new.items ≡ out.old.items ++ perms_text (bits_of perms)) }
    ensures unchanged { OnErr result (out.new.items ≡ out.old.items) }
{
    out.extend_from_slice(&letters(perms))
}

fn print_lines(
    entries: &[Entry],
    mask: Option<Perms>,
    directory: &Directory,
    out: &mut Vec<u8>,
) -> Result<(), AllocError>
    requires { length entries.now ≤ MAX_ENTRIES }
    ensures text { OnOk result (out.new.items
        ≡ out.old.items ++ effective_text directory.now (option_map bits_of mask) entries.now) }
    ensures unchanged { OnErr result (out.new.items ≡ out.old.items) }
    ensures room { OnErr result (vec_capacity out.old
        < vec_len out.old + length entries.now * MAX_LINE) }
    // The text is read as these entries: a mark is a comment.
    ensures read_again { OnOk result (HavePermissions entries.now → length entries.now ≤ MAX_ENTRIES
        → Spells (entry_of directory.now) MAX_ENTRIES
        (effective_text directory.now (option_map bits_of mask) entries.now) entries.now) }
{
    directory.names_read_back();
    out.reserve(entries.len() * MAX_LINE)?;
    put_lines(entries, mask, directory, out);
    Ok(())
}

/// Appends the lines. `out` must have room for them. It works on a `Vec` of its own meanwhile, so
/// that the length stays in a register.
fn put_lines(entries: &[Entry], mask: Option<Perms>, directory: &Directory, out: &mut Vec<u8>)
    requires within { length entries.now ≤ MAX_ENTRIES }
    requires room { vec_len out.old + length entries.now * MAX_LINE ≤ vec_capacity out.old }
    ensures text { out.new.items ≡ out.old.items
        ++ effective_text directory.now (option_map bits_of mask) entries.now }
    ensures have_ids { HaveIds entries.now }
{
    let none = Vec::new(*out.allocator());
    let mut text = mem::replace(out, none);
    for entry in entries {
        put_line(entry, mask, directory, &mut text);
    }
    *out = text;
}

/// Appends the lines with `default:` before each. `out` must have room for them.
fn put_default_lines(
    entries: &[Entry],
    mask: Option<Perms>,
    directory: &Directory,
    out: &mut Vec<u8>,
)
    requires within { length entries.now ≤ MAX_ENTRIES }
    requires room { vec_len out.old + length entries.now * MAX_DEFAULT_LINE ≤ vec_capacity out.old }
    ensures text { out.new.items ≡ out.old.items
        ++ default_text directory.now (option_map bits_of mask) entries.now }
{
    let none = Vec::new(*out.allocator());
    let mut text = mem::replace(out, none);
    for entry in entries {
        put_default_line(entry, mask, directory, &mut text);
    }
    *out = text;
}

#[inline(always)]
fn put_default_line(entry: &Entry, mask: Option<Perms>, directory: &Directory, out: &mut Vec<u8>)
    requires { vec_len out.old + MAX_DEFAULT_LINE ≤ vec_capacity out.old }
    ensures text { out.new.items
        ≡ out.old.items ++ (codes "default:" ++ line_text directory.now (option_map bits_of mask)
        entry.now) }
    ensures len { vec_len out.new ≤ vec_len out.old + MAX_DEFAULT_LINE }
    ensures capacity { vec_capacity out.new ≡ vec_capacity out.old }
{
    put_bytes(b"default:", out);
    put_line(entry, mask, directory, out);
}

#[inline(always)]
fn put_line(entry: &Entry, mask: Option<Perms>, directory: &Directory, out: &mut Vec<u8>)
    requires { vec_len out.old + MAX_LINE ≤ vec_capacity out.old }
    ensures text { out.new.items ≡ out.old.items
        ++ line_text directory.now (option_map bits_of mask) entry.now }
    ensures has_id { HasId entry.now.tag }
    ensures len { vec_len out.new ≤ vec_len out.old + MAX_LINE }
    ensures capacity { vec_capacity out.new ≡ vec_capacity out.old }
{
    put_tag(entry.tag, directory, out);
    put_perms(entry, mask, out);
}

/// Appends the word of the tag, a colon and the qualifier.
#[inline(always)]
fn put_tag(tag: Tag, directory: &Directory, out: &mut Vec<u8>)
    requires { vec_len out.old + 38 ≤ vec_capacity out.old }
    ensures text { out.new.items ≡ out.old.items
        ++ (word_text tag ++ colon ∷ qualifier_text directory.now tag) }
    ensures has_id { HasId tag }
    ensures len { vec_len out.new ≤ vec_len out.old + 38 }
    ensures capacity { vec_capacity out.new ≡ vec_capacity out.old }
{
    match tag {
        Tag::UserObj => put_bytes(b"user:", out),
        Tag::User(uid) => {
            put_bytes(b"user:", out);
            directory.put_user(uid, out);
        }
        Tag::GroupObj => put_bytes(b"group:", out),
        Tag::Group(gid) => {
            put_bytes(b"group:", out);
            directory.put_group(gid, out);
        }
        Tag::Mask => put_bytes(b"mask:", out),
        Tag::Other => put_bytes(b"other:", out),
    }
}

/// Appends a colon and the permissions.
#[inline(always)]
pub(crate) fn put_letters(perms: Perms, out: &mut Vec<u8>)
    requires { vec_len out.old + 4 ≤ vec_capacity out.old }
    ensures text { out.new.items ≡ out.old.items ++ colon ∷ perms_text (bits_of perms) }
    ensures len { vec_len out.new ≡ vec_len out.old + 4 }
    ensures capacity { vec_capacity out.new ≡ vec_capacity out.old }
{
    let own = letters(perms);
    put_bytes(&[b':', own[0], own[1], own[2]], out);
}

/// Appends a colon, the permissions, the mark if the mask limits them, and a newline.
#[inline(always)]
fn put_perms(entry: &Entry, mask: Option<Perms>, out: &mut Vec<u8>)
    requires { vec_len out.old + 20 ≤ vec_capacity out.old }
    ensures text { out.new.items
        ≡ out.old.items ++ (colon ∷ perms_text entry.now.perms
        ++ (effective_mark (option_map bits_of mask) entry.now ++ newline ∷ [])) }
    ensures len { vec_len out.new ≤ vec_len out.old + 20 }
    ensures capacity { vec_capacity out.new ≡ vec_capacity out.old }
{
    let own = letters(entry.perms);
    match left_by_mask(entry, mask) {
        Some(left) => {
            let left = letters(left);
            put_bytes(&[b':', own[0], own[1], own[2]], out);
            put_bytes(b"\t#effective:", out);
            put_bytes(&[left[0], left[1], left[2], b'\n'], out);
        }
        None => put_bytes(&[b':', own[0], own[1], own[2], b'\n'], out),
    }
}

/// The permissions that the mask leaves to the entry; `None` if it limits nothing.
fn left_by_mask(entry: &Entry, mask: Option<Perms>) -> Option<Perms>
    ensures { effective_mark (option_map bits_of mask) entry.now
        ≡ mark_of (option_map bits_of result) }
{
    let mask = mask?;
    if entry.tag.is_under_mask() && !mask.contains(entry.perms) {
        Some(entry.perms & mask)
    } else {
        None
    }
}

/// The permissions in three characters: `r` or `-`, `w` or `-`, `x` or `-`.
fn letters(perms: Perms) -> [u8; 3]
    ensures { result ≡ perms_text (bits_of perms) }
{
    [
        if perms.contains(Perms::READ) {
            b'r'
        } else {
            b'-'
        },
        if perms.contains(Perms::WRITE) {
            b'w'
        } else {
            b'-'
        },
        if perms.contains(Perms::EXECUTE) {
            b'x'
        } else {
            b'-'
        },
    ]
}
