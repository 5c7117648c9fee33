//! Why a user may delete, rename or replace a file, or may not.
ghost use Rattle.std.specs.Prelude.{◌≡◌, ◌++◌, ◌^◌, ℕ, OnOk};
ghost use Rattle.acl_access.specs.Deletes.{adds};
ghost use Rattle.acl_nfs4.specs.Mask.{mask_bits};
ghost use Rattle.acl_nfs4.specs.Who.{matches};
ghost use Rattle.acl_queries.specs.AclText.{nobody};
ghost use Rattle.acl_queries.specs.Reasons.{bit_line};
ghost use Rattle.acl_listing_queries.specs.WhyDeletion.{adding_text, deletion_reasons};
ghost use Rattle.acl_listing_queries.specs.WhyDeletion.{owner_line, said_line, said_text};
ghost use Rattle.acl_listing_queries.specs.WhyDeletion.{sticky_lines};
ghost use Rattle.acl_listing_queries.specs.WhySteps.{view_at};

use super::text::{push_decision, push_named};
use acl_access::{Standing, push_printed_path, standing_of};
use acl_bridge::{AnyAclRef, FileAcl};
use acl_names::{Requester, push_decimal};
use acl_nfs4::{Acl4, Mask};
use acl_posix::Perms;
use acl_queries::{FileRequest, answer_line, empty_directory, push_bit};
use bitflags::Flags;
use std::alloc::{AllocError, Global};

/// A file, and the path where it is.
#[derive(Clone, Copy)]
pub(super) struct FileAt<'p, 'l> {
    pub path: &'p [u8],
    pub acl: FileAcl<'l>,
}

/// The word for whether a list allows or denies a bit: `granted`, `denied`, or `-`.
fn said_line(said: Option<bool>) -> &'static str
    ensures { result.now ≡ said_line said }
{
    match said {
        Some(granted) => answer_line(granted),
        None => "-\n",
    }
}

/// Appends the line of the first entry of an NFSv4 list that allows or denies the bit.
fn push_first_speaker(
    alloc: Global,
    bit: Mask,
    at: &FileAt<'_, '_>,
    acl: &Acl4,
    requester: &Requester,
    out: &mut Vec<u8>,
) -> Result<(), AllocError>
    ensures { OnOk result (out.new.items ≡ out.old.items ++ bit_line nobody
        (matches at.now.acl.owners.owner at.now.acl.owners.group requester.now) acl.now
        (mask_bits bit)) }
{
    let directory = empty_directory(alloc)?;
    let asked = FileRequest {
        owner: at.acl.owners.owner,
        group: at.acl.owners.group,
        requester,
        request: Perms::empty(),
    };
    push_bit(bit, &asked, acl, &directory, out)
}

/// Appends whether an NFSv4 list allows or denies a bit, and by which entry; nothing for a POSIX
/// list.
fn push_said(
    alloc: Global,
    word: &str,
    said: Option<bool>,
    bit: Mask,
    at: &FileAt<'_, '_>,
    requester: &Requester,
    out: &mut Vec<u8>,
) -> Result<(), AllocError>
    ensures { (place : ℕ) → mask_bits bit ≡ 2 ^ place → OnOk result (out.new.items
        ≡ out.old.items ++ said_text word.now said place (view_at at.now) requester.now) }
{
    match at.acl.list {
        AnyAclRef::Posix(_) => Ok(()),
        AnyAclRef::Nfs4(acl) => {
            push_named(word, at.path, said_line(said), out)?;
            push_first_speaker(alloc, bit, at, acl, requester, out)
        }
    }
}

/// Appends whether the folder's list lets names be added and removed, and the entries that decide.
fn push_adding(
    alloc: Global,
    is_adding: bool,
    folder: &FileAt<'_, '_>,
    requester: &Requester,
    out: &mut Vec<u8>,
) -> Result<(), AllocError>
    ensures { is_adding ≡ adds (view_at folder.now).file requester.now → OnOk result (out.new.items
        ≡ out.old.items ++ adding_text (view_at folder.now) requester.now) }
{
    match folder.acl.list {
        AnyAclRef::Posix(_) => {
            let perms = Perms::WRITE | Perms::EXECUTE;
            push_decision(
                alloc,
                "add",
                folder.path,
                &folder.acl,
                requester,
                perms,
                out,
            )?;
            Ok(())
        }
        AnyAclRef::Nfs4(_) => {
            let said = Some(is_adding);
            push_said(alloc, "add", said, Mask::WRITE_DATA, folder, requester, out)
        }
    }
}

/// Appends who owns the file.
fn push_owner(at: &FileAt<'_, '_>, out: &mut Vec<u8>) -> Result<(), AllocError>
    ensures { OnOk result (out.new.items ≡ out.old.items ++ owner_line (view_at at.now)) }
{
    out.extend_from_slice("owner ".as_bytes())?;
    push_decimal(at.acl.owners.owner.value(), out)?;
    out.push(b' ')?;
    push_printed_path(at.path, out)?;
    out.push(b'\n')?;
    Ok(())
}

/// Appends whether the sticky bit, if the folder has it, lets the file be removed; `owns` is
/// whether the user owns either of them.
fn push_sticky(
    sticky: bool,
    owns: bool,
    folder: &FileAt<'_, '_>,
    file: &FileAt<'_, '_>,
    out: &mut Vec<u8>,
) -> Result<(), AllocError>
    ensures { OnOk result (out.new.items ≡ out.old.items
        ++ sticky_lines sticky owns (view_at folder.now) (view_at file.now)) }
{
    if !sticky {
        return Ok(());
    }
    push_named("sticky", folder.path, answer_line(owns), out)?;
    push_owner(folder, out)?;
    push_owner(file, out)
}

/// Appends what decides whether the user may delete the file from the folder; `sticky` is whether
/// the folder has the sticky bit. Fails only if memory runs out.
pub(super) fn push_deletion(
    alloc: Global,
    requester: &Requester,
    sticky: bool,
    folder: &FileAt<'_, '_>,
    file: &FileAt<'_, '_>,
    out: &mut Vec<u8>,
) -> Result<(), AllocError>
    ensures { OnOk result (out.new.items ≡ out.old.items ++ deletion_reasons sticky
        (view_at folder.now) (view_at file.now) requester.now) }
{
    let above: Standing = standing_of(sticky, &folder.acl, requester);
    let here: Standing = standing_of(false, &file.acl, requester);
    let (said, child) = (here.delete, above.delete_child);
    push_said(alloc, "delete", said, Mask::DELETE, file, requester, out)?;
    let bit = Mask::DELETE_CHILD;
    push_said(alloc, "delete-child", child, bit, folder, requester, out)?;
    if said.is_some() || child.is_some() {
        return Ok(());
    }
    push_adding(alloc, above.adds, folder, requester, out)?;
    push_sticky(sticky, above.owns || here.owns, folder, file, out)
}
