//! Printing entries in the freebsd form.

ghost use Rattle.std.specs.Prelude.{◌≡◌, ◌<◌, ◌+◌, ◌++◌, ◌∷◌, decimal, length, option_map};
ghost use Rattle.std.specs.Prelude.{unwrap_or, vec_capacity, vec_len, OnErr, OnOk};
ghost use Rattle.acl_names.specs.Bytes.{colon};
ghost use Rattle.acl_names.specs.ListText.{Spells};
ghost use Rattle.acl_names.specs.Names.{names_of};
ghost use Rattle.acl_names.specs.Pushing.{PushesInRoom};
ghost use Rattle.acl_nfs4.specs.declared.limits.TheConstants.{MAX_ACES};
ghost use Rattle.acl_forms.specs.FormText.{entry_by};
ghost use Rattle.acl_forms.specs.PrintedForm.{entries_text, entry_text, line_text, tag_text};
ghost use Rattle.acl_forms.specs.PrintedForm.{marks_of_flags, marks_text, type_text};
ghost use Rattle.acl_forms.specs.Marks.{mark_table, perm_table};
ghost use Rattle.acl_nfs4.specs.Flags.{flag_bits};
ghost use Rattle.acl_nfs4.specs.Mask.{mask_bits};
ghost use Rattle.acl_nfs4.specs.PrintedText.{HaveIds};
ghost use Rattle.acl_nfs4.specs.Who.{HasId};

use crate::marks::{push_flags, push_perms};
use acl_names::{Directory, push_decimal};
use acl_nfs4::{Ace, AceType, Acl4, Flags, Mask, Who};
use std::alloc::AllocError;

/// How letters are printed.
#[derive(Clone, Copy, Debug, PartialEq, Eq)]
pub enum Places {
    /// The letters alone, as in `owner@:rw::allow`.
    Compact,
    /// Each at a place of its own, with hyphens at the others, as in
    /// `owner@:rw------------:-------:allow`.
    Full,
}

/// Appends the entries in order, one a line. Fails only if memory runs out; then `out` is as it
/// was.
pub fn print_entries(
    places: Places,
    acl: &Acl4,
    directory: &Directory,
    out: &mut Vec<u8>,
) -> Result<(), AllocError>
    ensures text { OnOk result (out.new.items
        ≡ out.old.items ++ entries_text places directory.now acl.now) }
    ensures unchanged { OnErr result (out.new.items ≡ out.old.items) }
    ensures room { OnErr result (vec_capacity out.old
        < vec_len out.old + length (entries_text places directory.now acl.now)) }
    // The text is read as these entries.
    ensures read_again { OnOk result (Spells (entry_by (names_of directory.now)) MAX_ACES
        (entries_text places directory.now acl.now) acl.now) }
{
    directory.names_read_back();
    let aces = acl.aces();
    let old_len = out.len();
    let printed = push_lines(places, aces, directory, out);
    if printed.is_err() {
        out.truncate(old_len);
    }
    printed
}

fn push_lines(
    places: Places,
    aces: &[Ace],
    directory: &Directory,
    out: &mut Vec<u8>,
) -> Result<(), AllocError>
    ensures printed { PushesInRoom (entries_text places directory.now aces.now) result out.old
        out.new }
    ensures have_ids { OnOk result (HaveIds aces.now) }
{
    for ace in aces {
        push_line(places, ace, directory, out)?;
    }
    Ok(())
}

fn push_line(
    places: Places,
    ace: &Ace,
    directory: &Directory,
    out: &mut Vec<u8>,
) -> Result<(), AllocError>
    ensures printed { PushesInRoom (line_text places directory.now ace.now) result out.old out.new }
    ensures has_id { OnOk result (HasId ace.now.who) }
{
    push_entry(places, ace, directory, out)?;
    out.push(b'\n')?;
    Ok(())
}

/// Appends the entry, without a newline: `tag:perms:flags:type`. Fails only if memory runs out;
/// what `out` held stays in front.
pub fn push_entry(
    places: Places,
    ace: &Ace,
    directory: &Directory,
    out: &mut Vec<u8>,
) -> Result<(), AllocError>
    ensures printed { PushesInRoom (entry_text places directory.now ace.now) result out.old
        out.new }
    ensures has_id { OnOk result (HasId ace.now.who) }
{
    push_tag(&ace.who(), directory, out)?;
    push_colon_and_perms(places, ace.mask(), out)?;
    push_colon_and_flags(places, ace.flags(), out)?;
    push_colon_and_type(ace.kind(), out)
}

pub(crate) fn push_colon_and_perms(
    places: Places,
    mask: Mask,
    out: &mut Vec<u8>,
) -> Result<(), AllocError>
    ensures { PushesInRoom (colon ∷ marks_text places perm_table (mask_bits mask)) result out.old
        out.new }
{
    out.push(b':')?;
    push_perms(places, mask, out)
}

pub(crate) fn push_colon_and_flags(
    places: Places,
    flags: Flags,
    out: &mut Vec<u8>,
) -> Result<(), AllocError>
    ensures { PushesInRoom (colon ∷ marks_text places mark_table (marks_of_flags (flag_bits flags)))
        result out.old out.new }
{
    out.push(b':')?;
    push_flags(places, flags, out)
}

pub(crate) fn push_colon_and_type(kind: AceType, out: &mut Vec<u8>) -> Result<(), AllocError>
    ensures { PushesInRoom (colon ∷ type_text kind) result out.old out.new }
{
    out.push(b':')?;
    out.extend_from_slice(type_text(kind))
}

fn type_text(kind: AceType) -> &'static [u8]
    ensures { result.now ≡ type_text kind }
{
    match kind {
        AceType::Allow => b"allow",
        AceType::Deny => b"deny",
        AceType::Audit => b"audit",
        AceType::Alarm => b"alarm",
    }
}

fn push_tag(who: &Who, directory: &Directory, out: &mut Vec<u8>) -> Result<(), AllocError>
    ensures printed { PushesInRoom (tag_text directory.now who.now) result out.old out.new }
    ensures has_id { HasId who.now }
{
    match *who {
        Who::Owner => out.extend_from_slice(b"owner@"),
        Who::Group => out.extend_from_slice(b"group@"),
        Who::Everyone => out.extend_from_slice(b"everyone@"),
        Who::User(uid) => push_named(b"user:", directory.user_name(uid), uid.value(), out),
        Who::NamedGroup(gid) => push_named(b"group:", directory.group_name(gid), gid.value(), out),
    }
}

/// Appends the tag, and the name, or the id in decimal if `name` is `None`.
fn push_named(tag: &[u8], name: Option<&str>, id: u32, out: &mut Vec<u8>) -> Result<(), AllocError>
    ensures { PushesInRoom (tag.now
        ++ unwrap_or (option_map (λ name. name.now) name.entry) (decimal id)) result out.old
        out.new }
{
    out.extend_from_slice(tag)?;
    match name {
        Some(name) => out.extend_from_slice(name.as_bytes()),
        None => push_decimal(id, out),
    }
}
