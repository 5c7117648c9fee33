//! The entries of a POSIX list that decide.
ghost use Rattle.std.specs.Prelude.{◌≡◌, ◌++◌, OnOk, option_map};
ghost use Rattle.std.specs.List.{flat_map};
ghost use Rattle.acl_posix.specs.Perms.{bits_of};
ghost use Rattle.acl_queries.specs.Reasons.{class_line, class_reasons, class_word, entry_line};
ghost use Rattle.acl_queries.specs.Reasons.{entry_line_if, mask_line, mask_line_if};
ghost use Rattle.acl_queries.specs.Reasons.{posix_reasons};

use super::FileRequest;
use crate::explanation::{Class, class_of, lacks};
use acl_names::Directory;
use acl_posix::{Acl, Entry, Perms, push_entry, push_perms};
use std::alloc::AllocError;

fn class_word(class: Class) -> &'static str
    ensures { result.now ≡ class_word class }
{
    match class {
        Class::Owner => "owner",
        Class::User => "user",
        Class::Group => "group",
        Class::Other => "other",
    }
}

fn push_class(class: Class, out: &mut Vec<u8>) -> Result<(), AllocError>
    ensures { OnOk result (out.new.items ≡ out.old.items ++ class_line class) }
{
    out.extend_from_slice("class ".as_bytes())?;
    out.extend_from_slice(class_word(class).as_bytes())?;
    out.push(b'\n')?;
    Ok(())
}

/// Appends the line of an entry of the class.
fn push_entry_line(
    entry: &Entry,
    acl: &Acl,
    request: Perms,
    directory: &Directory,
    out: &mut Vec<u8>,
) -> Result<(), AllocError>
    ensures { OnOk result (out.new.items
        ≡ out.old.items ++ entry_line directory.now acl.now (bits_of request) entry.now) }
{
    out.extend_from_slice("entry ".as_bytes())?;
    push_entry(entry, directory, out)?;
    out.push(b' ')?;
    push_perms(acl.effective_perms(entry), out)?;
    out.push(b' ')?;
    push_perms(lacks(acl, entry, request), out)?;
    out.push(b'\n')?;
    Ok(())
}

/// Appends the line of an entry, if it is of the class.
fn push_entry_line_if(
    entry: &Entry,
    class: Class,
    asked: &FileRequest<'_>,
    acl: &Acl,
    directory: &Directory,
    out: &mut Vec<u8>,
) -> Result<(), AllocError>
    ensures { OnOk result (out.new.items ≡ out.old.items
        ++ entry_line_if directory.now class asked.now acl.now entry.now) }
{
    if class.has(asked.group, asked.requester, entry.tag) {
        push_entry_line(entry, acl, asked.request, directory, out)?;
    }
    Ok(())
}

/// Appends the lines of the entries that are of the class.
fn push_entries(
    entries: &[Entry],
    class: Class,
    asked: &FileRequest<'_>,
    acl: &Acl,
    directory: &Directory,
    out: &mut Vec<u8>,
) -> Result<(), AllocError>
    ensures { OnOk result (out.new.items ≡ out.old.items
        ++ flat_map (entry_line_if directory.now class asked.now acl.now) entries.now) }
{
    for entry in entries {
        push_entry_line_if(entry, class, asked, acl, directory, out)?;
    }
    Ok(())
}

fn push_mask(mask: Option<Perms>, out: &mut Vec<u8>) -> Result<(), AllocError>
    ensures { OnOk result (out.new.items ≡ out.old.items ++ mask_line (option_map bits_of mask)) }
{
    if let Some(mask) = mask {
        out.extend_from_slice("mask ".as_bytes())?;
        push_perms(mask, out)?;
        out.push(b'\n')?;
    }
    Ok(())
}

/// Appends the line of the mask, if it limits the class.
fn push_mask_if(class: Class, acl: &Acl, out: &mut Vec<u8>) -> Result<(), AllocError>
    ensures { OnOk result (out.new.items ≡ out.old.items ++ mask_line_if class acl.now) }
{
    if class.is_limited() {
        push_mask(acl.mask(), out)?;
    }
    Ok(())
}

fn push_class_reasons(
    class: Class,
    asked: &FileRequest<'_>,
    acl: &Acl,
    directory: &Directory,
    out: &mut Vec<u8>,
) -> Result<(), AllocError>
    ensures { OnOk result (out.new.items ≡ out.old.items
        ++ class_reasons directory.now class asked.now acl.now) }
{
    push_class(class, out)?;
    push_entries(acl.entries(), class, asked, acl, directory, out)?;
    push_mask_if(class, acl, out)
}

/// Appends the class of entries that decides, its entries, and the mask if it limits them, one a
/// line, as [`Explain`](crate::Explain) reports it. Fails only if memory runs out.
pub(super) fn push_posix_reasons(
    asked: &FileRequest<'_>,
    acl: &Acl,
    directory: &Directory,
    out: &mut Vec<u8>,
) -> Result<(), AllocError>
    ensures { OnOk result (out.new.items ≡ out.old.items
        ++ posix_reasons directory.now asked.now acl.now) }
{
    let class = class_of(acl, asked.owner, asked.group, asked.requester);
    push_class_reasons(class, asked, acl, directory, out)
}
