//! Printing files as `getfacl -Rnp` and `nfs4_getfacl` do, with decimal ids.

ghost use Rattle.std.specs.Prelude.{◌≡◌, ◌≤◌, ◌++◌, ◌∷◌, [], OnOk, decimal};
ghost use Rattle.acl_names.specs.Bytes.{colon, newline};
ghost use Rattle.acl_names.specs.declared.limits.TheConstants.{MAX_ID};
ghost use Rattle.acl_posix.specs.PrintedText.{HasId, HaveIds, number_text, word_text};
ghost use Rattle.acl_nfs4.specs.PrintedText as nfs4;
ghost use Rattle.acl_nfs4.specs.PrintedText.{short_ace};
ghost use Rattle.acl_nfs4.specs.Who as who;
ghost use Rattle.acl_listings.specs.Nfs4Block.{aces_lines};
ghost use Rattle.acl_listings.specs.Numbered.{ArePrintable, IsPrintableDefault, default_text};
ghost use Rattle.acl_listings.specs.Numbered.{entries_text, entry_text, header_text, lists_text};
ghost use Rattle.acl_listings.specs.Printed.{line_text};
ghost use Rattle.acl_listings.specs.declared.lists.Lists.TheVariants as lists;

use acl_names::{Gid, Uid, push_decimal};
use acl_nfs4::{Ace, Acl4, push_short_ace};
use acl_posix::{Acl, Entry, Tag, push_perms};
use std::alloc::AllocError;

/// Appends a word, a text and a newline.
fn push_line(word: &[u8], text: &[u8], out: &mut Vec<u8>) -> Result<(), AllocError>
    ensures { OnOk result (out.new.items ≡ out.old.items ++ line_text word.now text.now) }
{
    out.extend_from_slice(word)?;
    out.extend_from_slice(text)?;
    out.extend_from_slice(b"\n")
}

/// Appends a word, a decimal and a newline.
fn push_number(word: &[u8], number: u32, out: &mut Vec<u8>) -> Result<(), AllocError>
    ensures { OnOk result (out.new.items ≡ out.old.items ++ line_text word.now (decimal number)) }
{
    out.extend_from_slice(word)?;
    push_decimal(number, out)?;
    out.extend_from_slice(b"\n")
}

/// Appends the three lines of a header: the file, its owner and its group. Fails only if memory
/// runs out.
pub fn push_header(path: &[u8], owner: Uid, group: Gid, out: &mut Vec<u8>) -> Result<(), AllocError>
    ensures text { OnOk result (out.new.items
        ≡ out.old.items ++ header_text path.now owner group) }
    ensures owner_is { owner ≤ MAX_ID }
    ensures group_is { group ≤ MAX_ID }
{
    let owner = owner.value();
    let group = group.value();
    push_line(b"# file: ", path, out)?;
    push_number(b"# owner: ", owner, out)?;
    push_number(b"# group: ", group, out)
}

/// Appends the word of the tag, a colon and the id that it names.
fn push_tag(tag: Tag, out: &mut Vec<u8>) -> Result<(), AllocError>
    ensures text { OnOk result (out.new.items
        ≡ out.old.items ++ (word_text tag ++ colon ∷ number_text tag)) }
    ensures has_id { OnOk result (HasId tag) }
{
    match tag {
        Tag::UserObj => out.extend_from_slice(b"user:"),
        Tag::User(uid) => {
            let number = uid.value();
            out.extend_from_slice(b"user:")?;
            push_decimal(number, out)
        }
        Tag::GroupObj => out.extend_from_slice(b"group:"),
        Tag::Group(gid) => {
            let number = gid.value();
            out.extend_from_slice(b"group:")?;
            push_decimal(number, out)
        }
        Tag::Mask => out.extend_from_slice(b"mask:"),
        Tag::Other => out.extend_from_slice(b"other:"),
    }
}

/// Appends a word, the entry and a newline.
fn push_entry(word: &[u8], entry: &Entry, out: &mut Vec<u8>) -> Result<(), AllocError>
    ensures text { OnOk result (out.new.items
        ≡ out.old.items ++ line_text word.now (entry_text entry.now)) }
    ensures has_id { OnOk result (HasId entry.now.tag) }
{
    out.extend_from_slice(word)?;
    push_tag(entry.tag, out)?;
    out.push(b':')?;
    push_perms(entry.perms, out)?;
    out.extend_from_slice(b"\n")
}

/// Appends a line for each entry, with this word before it.
fn push_entries(word: &[u8], entries: &[Entry], out: &mut Vec<u8>) -> Result<(), AllocError>
    ensures text { OnOk result (out.new.items
        ≡ out.old.items ++ entries_text word.now entries.now) }
    ensures have_ids { OnOk result (HaveIds entries.now) }
{
    for entry in entries {
        push_entry(word, entry, out)?;
    }
    Ok(())
}

/// Appends the lines of a default list, if there is one.
fn push_default(default: &Option<Acl>, out: &mut Vec<u8>) -> Result<(), AllocError>
    ensures text { OnOk result (out.new.items ≡ out.old.items ++ default_text default.now) }
    ensures printable { OnOk result (IsPrintableDefault default.now) }
{
    match default {
        None => Ok(()),
        Some(default) => push_entries(b"default:", default.entries(), out),
    }
}

/// Appends the lines of POSIX lists, from which they are read again. Fails only if memory runs out.
pub fn push_posix(access: &Acl, default: &Option<Acl>, out: &mut Vec<u8>) -> Result<(), AllocError>
    ensures text { OnOk result (out.new.items
        ≡ out.old.items ++ lists_text (lists.Posix access.now default.now)) }
    ensures printable { OnOk result (ArePrintable (lists.Posix access.now default.now)) }
{
    push_entries(b"", access.entries(), out)?;
    push_default(default, out)
}

/// Appends the entry and a newline.
fn push_ace(ace: &Ace, out: &mut Vec<u8>) -> Result<(), AllocError>
    ensures text { OnOk result (out.new.items
        ≡ out.old.items ++ (short_ace ace.now ++ newline ∷ [])) }
    ensures has_id { OnOk result (who.HasId ace.now.who) }
{
    push_short_ace(ace, out)?;
    out.push(b'\n')?;
    Ok(())
}

/// Appends a line for each entry.
fn push_aces(aces: &[Ace], out: &mut Vec<u8>) -> Result<(), AllocError>
    ensures text { OnOk result (out.new.items
        ≡ out.old.items ++ aces_lines short_ace aces.now) }
    ensures have_ids { OnOk result (nfs4.HaveIds aces.now) }
{
    for ace in aces {
        push_ace(ace, out)?;
    }
    Ok(())
}

/// Appends the lines of an NFSv4 list, from which it is read again unless it has no entries. Fails
/// only if memory runs out.
pub fn push_nfs4(acl: &Acl4, out: &mut Vec<u8>) -> Result<(), AllocError>
    ensures text { OnOk result (out.new.items
        ≡ out.old.items ++ lists_text (lists.Nfs4 acl.now)) }
    ensures printable { OnOk result (ArePrintable (lists.Nfs4 acl.now)) }
{
    push_aces(acl.aces(), out)
}
