//! Users and groups whom a file grants otherwise than its folder's default list would have.
ghost use Rattle.std.specs.Prelude.{◌≡◌, ◌++◌, IfOk, OnOk, option_map};
ghost use Rattle.std.specs.List.{find, flat_map};
ghost use Rattle.acl_posix.specs.Access.{perms_under};
ghost use Rattle.acl_posix.specs.Entry.{same_tag};
ghost use Rattle.acl_posix.specs.Perms.{bits_of};
ghost use Rattle.acl_listing_lint.specs.FromDefault.{are_same, created_by, created_in};
ghost use Rattle.acl_listing_lint.specs.FromDefault.{created_with, default_text, differs};
ghost use Rattle.acl_listing_lint.specs.FromDefault.{differs_text, differs_text_if, granted};
ghost use Rattle.acl_listing_lint.specs.FromDefault.{granted_text, lacking_text, lacks};
ghost use Rattle.acl_listing_lint.specs.FromDefault.{lacks_text, line_if_differs};
ghost use Rattle.acl_listing_lint.specs.FromDefault.{line_if_lacking, named_text, would_text};
ghost use Rattle.acl_listing_lint.specs.LintSteps.{view_spot};

use crate::found::{Spot, push_entry_at, push_start};
use acl_listings::Lists;
use acl_names::push_decimal;
use acl_posix::{Acl, Entry, Perms, Tag, push_perms};
use bitflags::Flags;
use std::alloc::{AllocError, Global};

/// How a line begins that reports such an entry.
const WORD: &[u8] = b"differs-from-default";

/// The list that a file with the access list would have got at its creation, with the mode that it
/// has.
fn created_with(alloc: Global, default: &Acl, access: &Acl) -> Result<Acl, AllocError>
    ensures { IfOk result (λ created. created ≡ created_with default.now access.now) }
{
    let mode = access.mode();
    Acl::at_creation(alloc, default, mode)
}

/// The same of a file with these lists, if they are POSIX ones.
fn created_by(alloc: Global, default: &Acl, lists: &Lists) -> Result<Option<Acl>, AllocError>
    ensures { IfOk result (λ created. created ≡ created_by default.now lists.now) }
{
    match lists {
        Lists::Posix { access, .. } => match created_with(alloc, default, access) {
            Ok(created) => Ok(Some(created)),
            Err(refused) => Err(refused),
        },
        Lists::Nfs4 { .. } => Ok(None),
    }
}

/// The same in a folder with this default list, if it has one.
pub(crate) fn created_in(
    alloc: Global,
    default: Option<&Acl>,
    lists: &Lists,
) -> Result<Option<Acl>, AllocError>
    ensures { IfOk result (λ created. created
        ≡ created_in (option_map (λ acl. acl.now) default.entry) lists.now) }
{
    match default {
        Some(default) => created_by(alloc, default, lists),
        None => Ok(None),
    }
}

/// The first entry with the tag.
fn entry_with<'t>(entries: &'t [Entry], tag: &Tag) -> Option<&'t Entry>
    ensures { option_map (λ entry. entry.now) result
        ≡ find (λ entry. same_tag entry.tag tag.now) entries.entry.now }
{
    entries.iter().find(|entry| entry.tag.is(*tag))
}

/// What the entry with the tag grants under the mask, if there is one.
fn granted_under(entries: &[Entry], mask: Option<Perms>, tag: &Tag) -> Option<Perms>
    ensures { option_map bits_of result ≡ option_map (perms_under (option_map bits_of mask))
        (find (λ entry. same_tag entry.tag tag.now) entries.now) }
{
    let entry = entry_with(entries, tag)?;
    Some(entry.perms_under(mask))
}

/// What the list grants by its entry with the tag; `None` without such an entry.
fn granted(acl: &Acl, tag: &Tag) -> Option<Perms>
    ensures { option_map bits_of result ≡ granted acl.now tag.now }
{
    let mask = acl.mask();
    granted_under(acl.entries(), mask, tag)
}

fn are_same(one: Option<Perms>, other: Option<Perms>) -> bool
    ensures { result ≡ are_same (option_map bits_of one) (option_map bits_of other) }
{
    match one {
        Some(one) => match other {
            Some(other) => one.bits() == other.bits(),
            None => false,
        },
        None => other.is_none(),
    }
}

/// Whether the tag names somebody to whom the lists grant something else, or whom only one of them
/// names.
fn differs(created: &Acl, access: &Acl, tag: &Tag) -> bool
    ensures { result ≡ differs created.now access.now tag.now }
{
    tag.is_named() && !are_same(granted(access, tag), granted(created, tag))
}

/// Whether the tag names somebody whom the list doesn't name.
fn lacks(access: &Acl, tag: &Tag) -> bool
    ensures { result ≡ lacks access.now tag.now }
{
    tag.is_named() && granted(access, tag).is_none()
}

/// Appends what would have been granted.
fn push_granted(perms: Option<Perms>, out: &mut Vec<u8>) -> Result<(), AllocError>
    ensures { OnOk result (out.new.items
        ≡ out.old.items ++ granted_text (option_map bits_of perms)) }
{
    match perms {
        Some(perms) => push_perms(perms, out),
        None => out.extend_from_slice(b"none"),
    }
}

/// Appends the entry, and what would have been granted.
fn push_would(spot: &Spot<'_>, would: Option<Perms>, out: &mut Vec<u8>) -> Result<(), AllocError>
    ensures { OnOk result (out.new.items ≡ out.old.items
        ++ would_text (view_spot spot.now) (option_map bits_of would)) }
{
    push_entry_at(spot, out)?;
    out.push(b' ')?;
    push_granted(would, out)?;
    Ok(())
}

/// Appends the line of an entry of the file that differs, with what would have been granted.
fn push_line_if(
    differs: bool,
    spot: &Spot<'_>,
    would: Option<Perms>,
    out: &mut Vec<u8>,
) -> Result<(), AllocError>
    ensures { OnOk result (out.new.items ≡ out.old.items
        ++ line_if_differs differs (view_spot spot.now) (option_map bits_of would)) }
{
    if !differs {
        return Ok(());
    }
    push_start(spot.name, spot.line, WORD, out)?;
    push_would(spot, would, out)?;
    out.push(b'\n')?;
    Ok(())
}

/// Appends the line of an entry of the file, if the created list grants otherwise.
fn push_if_differs(
    created: &Acl,
    access: &Acl,
    spot: &Spot<'_>,
    entry: &Entry,
    out: &mut Vec<u8>,
) -> Result<(), AllocError>
    ensures { OnOk result (out.new.items ≡ out.old.items
        ++ differs_text created.now access.now (view_spot spot.now) entry.now) }
{
    let would = granted(created, &entry.tag);
    push_line_if(differs(created, access, &entry.tag), spot, would, out)
}

/// Appends this line, if it is known what list the file would have got.
pub(crate) fn push_differs(
    created: &Option<Acl>,
    access: &Acl,
    spot: &Spot<'_>,
    entry: &Entry,
    out: &mut Vec<u8>,
) -> Result<(), AllocError>
    ensures { OnOk result (out.new.items ≡ out.old.items
        ++ differs_text_if created.now access.now (view_spot spot.now) entry.now) }
{
    match created {
        Some(created) => push_if_differs(created, access, spot, entry, out),
        None => Ok(()),
    }
}

/// Appends whom the tag names, with the id.
fn push_named(tag: &Tag, out: &mut Vec<u8>) -> Result<(), AllocError>
    ensures { OnOk result (out.new.items ≡ out.old.items ++ named_text tag.now) }
{
    match tag {
        Tag::User(uid) => {
            let number = uid.value();
            out.extend_from_slice(b"user:")?;
            push_decimal(number, out)
        }
        Tag::Group(gid) => {
            let number = gid.value();
            out.extend_from_slice(b"group:")?;
            push_decimal(number, out)
        }
        _ => Ok(()),
    }
}

/// Appends an entry of the default list.
fn push_default(entry: &Entry, out: &mut Vec<u8>) -> Result<(), AllocError>
    ensures { OnOk result (out.new.items ≡ out.old.items ++ default_text entry.now) }
{
    out.extend_from_slice(b"default:")?;
    push_named(&entry.tag, out)?;
    out.push(b':')?;
    push_perms(entry.perms, out)?;
    Ok(())
}

/// Appends the line of an entry of the created list that the file lacks.
fn push_default_if(
    lacks: bool,
    name: &str,
    line: u64,
    entry: &Entry,
    out: &mut Vec<u8>,
) -> Result<(), AllocError>
    ensures { OnOk result (out.new.items ≡ out.old.items
        ++ line_if_lacking lacks name.now line entry.now) }
{
    if !lacks {
        return Ok(());
    }
    push_start(name, line, WORD, out)?;
    push_default(entry, out)?;
    out.push(b'\n')?;
    Ok(())
}

/// Appends the line of an entry of the created list, if the access list doesn't name whom it names.
fn push_if_lacking(
    name: &str,
    line: u64,
    access: &Acl,
    entry: &Entry,
    out: &mut Vec<u8>,
) -> Result<(), AllocError>
    ensures { OnOk result (out.new.items ≡ out.old.items
        ++ lacks_text name.now line access.now entry.now) }
{
    push_default_if(lacks(access, &entry.tag), name, line, entry, out)
}

/// Appends the lines of all these entries.
fn push_all_lacking(
    name: &str,
    line: u64,
    access: &Acl,
    created: &[Entry],
    out: &mut Vec<u8>,
) -> Result<(), AllocError>
    ensures { OnOk result (out.new.items ≡ out.old.items
        ++ flat_map (lacks_text name.now line access.now) created.now) }
{
    for entry in created {
        push_if_lacking(name, line, access, entry, out)?;
    }
    Ok(())
}

/// Appends the lines of a file with these lists, whose block's first line has this number, if it is
/// known what list it would have got.
pub(crate) fn push_lacking(
    name: &str,
    line: u64,
    created: &Option<Acl>,
    lists: &Lists,
    out: &mut Vec<u8>,
) -> Result<(), AllocError>
    ensures { OnOk result (out.new.items ≡ out.old.items
        ++ lacking_text name.now line created.now lists.now) }
{
    match created {
        Some(created) => match lists {
            Lists::Posix { access, .. } => {
                push_all_lacking(name, line, access, created.entries(), out)
            }
            Lists::Nfs4 { .. } => Ok(()),
        },
        None => Ok(()),
    }
}
