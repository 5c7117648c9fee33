//! What decides whether a user may delete a file: what the file and its folder grant.
ghost use Rattle.std.specs.Prelude.{◌≡◌, ◌^◌, ℕ, IfOk, map, unwrap_or, false};
ghost use Rattle.acl_nfs4.specs.Evaluation.{speaks, verdict};
ghost use Rattle.acl_nfs4.specs.Mask.{mask_bits};
ghost use Rattle.acl_nfs4.specs.Who.{matches};
ghost use Rattle.acl_bridge.specs.Files.{view_acl};
ghost use Rattle.acl_access.specs.Deletes.{adds, deletes, deletes_by, owns, said_of};
ghost use Rattle.acl_access.specs.Standings.{places_of_takers, standing_of, takes};

use crate::marks::push_if;
use acl_bridge::{AnyAclRef, FileAcl};
use acl_names::Requester;
use acl_nfs4::{Ace, AceType, Acl4, Mask, Owners};
use acl_posix::Perms;
use bitflags::Flags;
use std::alloc::{AllocError, Global};

/// What decides, for one user and one file, whether the user may delete it, or what is in it.
#[derive(Clone, Copy, Debug, PartialEq, Eq)]
pub struct Standing {
    /// Whether its list allows or denies `DELETE`; `None` if no entry has that bit.
    pub delete: Option<bool>,
    /// Whether its list allows or denies `DELETE_CHILD`; `None` if no entry has that bit.
    pub delete_child: Option<bool>,
    /// Whether its list lets the user add files to it.
    pub adds: bool,
    /// Whether the user owns it.
    pub owns: bool,
    /// Whether the user may remove files of others from it: it has no sticky bit, or the user owns
    /// it.
    pub free: bool,
}

/// Whether the entry allows or denies the requester the bit.
fn speaks(ace: &Ace, owners: Owners, requester: &Requester, bit: Mask) -> bool
    ensures { (place : ℕ) → mask_bits bit ≡ 2 ^ place
        → result ≡ speaks (matches owners.owner owners.group requester.now) place ace.now }
{
    ace.concerns(owners.owner, owners.group, requester) && ace.mask().contains(bit)
}

/// Whether the first entry that has the bit for the requester allows it; `None` if no entry does.
fn verdict(acl: &Acl4, owners: Owners, requester: &Requester, bit: Mask) -> Option<bool>
    ensures { (place : ℕ) → mask_bits bit ≡ 2 ^ place
        → result ≡ verdict (matches owners.owner owners.group requester.now) place acl.now }
{
    for ace in acl.aces() {
        if speaks(ace, owners, requester, bit) {
            return Some(matches!(ace.kind(), AceType::Allow));
        }
    }
    None
}

/// Whether the file's list allows or denies the bit; `None` for a POSIX list.
fn said_of(file: &FileAcl<'_>, requester: &Requester, bit: Mask) -> Option<bool>
    ensures { (place : ℕ) → mask_bits bit ≡ 2 ^ place
        → result ≡ said_of (view_acl file.now) requester.now place }
{
    match file.list {
        AnyAclRef::Posix(_) => None,
        AnyAclRef::Nfs4(acl) => verdict(acl, file.owners, requester, bit),
    }
}

/// Whether the folder's list lets the requester add files to it.
fn adds(folder: &FileAcl<'_>, requester: &Requester) -> bool
    ensures { result ≡ adds (view_acl folder.now) requester.now }
{
    match folder.list {
        AnyAclRef::Posix(_) => folder.may(requester, Perms::WRITE | Perms::EXECUTE),
        AnyAclRef::Nfs4(acl) => {
            verdict(acl, folder.owners, requester, Mask::WRITE_DATA).unwrap_or(false)
        }
    }
}

/// Whether the requester owns the file.
fn owns(file: &FileAcl<'_>, requester: &Requester) -> bool
    ensures { result ≡ owns (view_acl file.now) requester.now }
{
    requester.uid() == file.owners.owner
}

/// The standing of the requester; `sticky` is whether the file has the sticky bit.
pub fn standing_of(sticky: bool, file: &FileAcl<'_>, requester: &Requester) -> Standing
    ensures { result ≡ standing_of sticky (view_acl file.now) requester.now }
{
    let owns = owns(file, requester);
    Standing {
        delete: said_of(file, requester, Mask::DELETE),
        delete_child: said_of(file, requester, Mask::DELETE_CHILD),
        adds: adds(file, requester),
        owns,
        free: !sticky || owns,
    }
}

/// The standing of each of the requesters, in their order. Fails only if memory runs out.
pub fn standings_of_each(
    alloc: Global,
    requesters: &[Requester],
    sticky: bool,
    file: &FileAcl<'_>,
) -> Result<Vec<Standing>, AllocError>
    ensures { IfOk result (λ standings. standings.items
        ≡ map (standing_of sticky (view_acl file.now)) requesters.now) }
{
    let mut standings = Vec::with_capacity(alloc, requesters.len())?;
    for requester in requesters {
        standings.push(standing_of(sticky, file, requester))?;
    }
    Ok(standings)
}

/// Whether deleting a file is granted: by what its list says about `DELETE`, or its folder's about
/// `DELETE_CHILD`; by `otherwise` if neither has the bit.
pub fn deletes_by(file: Option<bool>, child: Option<bool>, otherwise: bool) -> bool
    ensures { result ≡ deletes_by file child otherwise }
{
    let granted = file.unwrap_or(false) || child.unwrap_or(false);
    granted || (file.is_none() && child.is_none() && otherwise)
}

/// Whether a user with these standings may delete the file in the folder.
fn takes(folder: Standing, file: Standing) -> bool
    ensures { result ≡ takes folder file }
{
    deletes_by(
        file.delete,
        folder.delete_child,
        folder.adds && (folder.free || file.owns),
    )
}

/// Whether the requester, who reaches the folder's content, may delete the file in it. `sticky` is
/// whether the folder has the sticky bit.
pub fn deletes(
    sticky: bool,
    folder: &FileAcl<'_>,
    file: &FileAcl<'_>,
    requester: &Requester,
) -> bool
    ensures { result ≡ deletes sticky (view_acl folder.now) (view_acl file.now) requester.now }
{
    let above = standing_of(sticky, folder, requester);
    takes(above, standing_of(false, file, requester))
}

/// The places of the users who may delete a file, by the standing of each to its folder and to the
/// file itself. Fails only if memory runs out.
pub fn places_of_takers(
    alloc: Global,
    folder: &[Standing],
    file: &[Standing],
) -> Result<Vec<usize>, AllocError>
    ensures { IfOk result (λ places. places.items ≡ places_of_takers folder.now file.now) }
{
    let mut places = Vec::new(alloc);
    for place in 0..folder.len().min(file.len()) {
        let is_taken = takes(folder[place], file[place]);
        push_if(&mut places, place, is_taken)?;
    }
    Ok(places)
}
