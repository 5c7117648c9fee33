//! Printing access control lists: the short text form (1003.1e draft 17, section 23).

ghost use Rattle.std.specs.Prelude.{◌≡◌, ◌≤◌, ◌<◌, ◌+◌, ◌*◌, ◌++◌, ◌∷◌, length, vec_len};
ghost use Rattle.std.specs.Prelude.{vec_capacity, OnOk, OnErr, flat_map};
ghost use Rattle.acl_names.specs.Bytes.{colon, comma};
ghost use Rattle.acl_names.specs.Directory.{Known};
ghost use Rattle.acl_names.specs.ListText.{Spells};
ghost use Rattle.acl_posix.specs.EntryText.{entry_of};
ghost use Rattle.acl_posix.specs.PrintedText.{letter_text, number_text, short_entry, short_text};
ghost use Rattle.acl_posix.specs.PrintedText.{HasId, HaveIds};

use crate::limits::{MAX_ENTRIES, MAX_SHORT_ENTRY};
use crate::printing::put_letters;
use crate::{Acl, Entry, Tag};
use acl_names::{put_bytes, put_decimal};
use std::alloc::AllocError;

impl Acl {
    /// Appends the entries in canonical order, in one line with commas between them, as in
    /// `u::rwx,u:1001:r-x,g::---,m::rwx,o::---`: the tag's letter, the id in decimal, and three
    /// characters of permissions. Fails only if memory runs out, and never if `out` has room for
    /// `MAX_SHORT_ENTRY` bytes an entry; then `out` is as it was.
    pub fn print_short(&self, out: &mut Vec<u8>) -> Result<(), AllocError>
        ensures text { OnOk result (out.new.items ≡ out.old.items ++ short_text self.now) }
        ensures unchanged { OnErr result (out.new.items ≡ out.old.items) }
        ensures room { OnErr result (vec_capacity out.old
            < vec_len out.old + length self.now * MAX_SHORT_ENTRY) }
        ensures have_ids { OnOk result (HaveIds self.now) }
        // The text is read as these entries, whatever names a directory has.
        ensures read_again { OnOk result ((known : Known)
            → Spells (entry_of known) MAX_ENTRIES (short_text self.now) self.now) }
    {
        let entries = self.entries();
        out.reserve(entries.len() * MAX_SHORT_ENTRY)?;
        put_short_entries(entries, out);
        Ok(())
    }
}

/// Appends the entries with commas between them. `out` must have room for them.
fn put_short_entries(entries: &[Entry], out: &mut Vec<u8>)
    requires within { length entries.now ≤ MAX_ENTRIES }
    requires room { vec_len out.old + length entries.now * MAX_SHORT_ENTRY ≤ vec_capacity out.old }
    ensures text { out.new.items ≡ out.old.items ++ short_text entries.now }
    ensures have_ids { HaveIds entries.now }
{
    if let Some((first, rest)) = entries.split_first() {
        put_short_entry(first, out);
        put_further_entries(rest, out);
    }
}

/// Appends the entries with a comma before each. `out` must have room for them.
fn put_further_entries(entries: &[Entry], out: &mut Vec<u8>)
    requires within { length entries.now ≤ MAX_ENTRIES }
    requires room { vec_len out.old + length entries.now * MAX_SHORT_ENTRY ≤ vec_capacity out.old }
    ensures text { out.new.items
        ≡ out.old.items ++ flat_map (λ entry. comma ∷ short_entry entry) entries.now }
    ensures have_ids { HaveIds entries.now }
{
    for entry in entries {
        put_further_entry(entry, out);
    }
}

/// Appends a comma and the entry.
fn put_further_entry(entry: &Entry, out: &mut Vec<u8>)
    requires { vec_len out.old + MAX_SHORT_ENTRY ≤ vec_capacity out.old }
    ensures text { out.new.items ≡ out.old.items ++ comma ∷ short_entry entry.now }
    ensures has_id { HasId entry.now.tag }
    ensures len { vec_len out.new ≤ vec_len out.old + MAX_SHORT_ENTRY }
    ensures capacity { vec_capacity out.new ≡ vec_capacity out.old }
{
    out.push_reserved(b',');
    put_short_entry(entry, out);
}

fn put_short_entry(entry: &Entry, out: &mut Vec<u8>)
    requires { vec_len out.old + 16 ≤ vec_capacity out.old }
    ensures text { out.new.items ≡ out.old.items ++ short_entry entry.now }
    ensures has_id { HasId entry.now.tag }
    ensures len { vec_len out.new ≤ vec_len out.old + 16 }
    ensures capacity { vec_capacity out.new ≡ vec_capacity out.old }
{
    put_short_tag(entry.tag, out);
    put_letters(entry.perms, out);
}

/// Appends the letter of the tag, a colon and the id that it names.
fn put_short_tag(tag: Tag, out: &mut Vec<u8>)
    requires { vec_len out.old + 12 ≤ vec_capacity out.old }
    ensures text { out.new.items ≡ out.old.items ++ (letter_text tag ++ colon ∷ number_text tag) }
    ensures has_id { HasId tag }
    ensures len { vec_len out.new ≤ vec_len out.old + 12 }
    ensures capacity { vec_capacity out.new ≡ vec_capacity out.old }
{
    match tag {
        Tag::UserObj => put_bytes(b"u:", out),
        Tag::User(uid) => {
            put_bytes(b"u:", out);
            put_decimal(uid.value(), out);
        }
        Tag::GroupObj => put_bytes(b"g:", out),
        Tag::Group(gid) => {
            put_bytes(b"g:", out);
            put_decimal(gid.value(), out);
        }
        Tag::Mask => put_bytes(b"m:", out),
        Tag::Other => put_bytes(b"o:", out),
    }
}
