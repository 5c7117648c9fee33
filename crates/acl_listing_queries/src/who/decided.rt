//! The entries that decide what users are granted, and the lines that print them.
ghost use Rattle.std.specs.Prelude.{◌≡◌, ◌++◌, IfOk, OnOk, map, option_map};
ghost use Rattle.acl_access.specs.Marks.{is_set};
ghost use Rattle.acl_bridge.specs.Files.{view_acl};
ghost use Rattle.acl_nfs4.specs.Mask.{mask_bits};
ghost use Rattle.acl_posix.specs.Perms.{bits_of};
ghost use Rattle.acl_listing_queries.specs.ViaSteps.{asked_of, decided_at, decided_line};
ghost use Rattle.acl_listing_queries.specs.ViaSteps.{decided_line_if, decided_lines, decided_of};
ghost use Rattle.acl_listing_queries.specs.ViaSteps.{granted_shown, letters_shown, shown_decided};
ghost use Rattle.acl_listing_queries.specs.ViaSteps.{shown_if};
ghost use Rattle.acl_listing_queries.specs.WhoText.{bits_granted, perms_asked, via_text};

use super::asked::What;
use super::via::{nfs4_via, posix_via};
use acl_access::{LetterSet, effective, granted_mask, is_set};
use acl_bridge::{AnyAclRef, FileAcl};
use acl_names::Requester;
use acl_nfs4::{Mask, mask_of};
use acl_posix::Perms;
use std::alloc::{AllocError, Global};

/// What a user is granted, as it is printed before the name, and the entries that decide it.
#[derive(Drop)]
pub(super) struct Decided {
    letters: Vec<u8>,
    via: Vec<u8>,
}

/// The letters and a blank, if there are any.
fn letters_shown<L: LetterSet>(alloc: Global, letters: L) -> Result<Option<Vec<u8>>, AllocError>
    ensures { IfOk result (λ shown. option_map (λ shown. shown.items) shown
        ≡ letters_shown L.text (L.number letters)) }
{
    if letters.is_none() {
        return Ok(None);
    }
    let mut shown = Vec::new(alloc);
    letters.push(&mut shown)?;
    shown.push(b' ')?;
    Ok(Some(shown))
}

/// What is printed before the name of a user who is granted something; `None` for others.
fn granted_shown(
    alloc: Global,
    what: What,
    file: &FileAcl<'_>,
    requester: &Requester,
) -> Result<Option<Vec<u8>>, AllocError>
    ensures { IfOk result (λ shown. option_map (λ shown. shown.items) shown
        ≡ granted_shown (asked_of what) (view_acl file.now) requester.now) }
{
    match what {
        What::Letters => letters_shown(alloc, effective(file, requester)),
        What::AllLetters => letters_shown(alloc, granted_mask(file, requester)),
        What::Perms(perms) => {
            if file.may(requester, perms) {
                Ok(Some(Vec::new(alloc)))
            } else {
                Ok(None)
            }
        }
    }
}

/// The permissions that are evaluated at once, if they are.
fn perms_asked(what: What) -> Option<Perms>
    ensures { option_map bits_of result ≡ perms_asked (asked_of what) }
{
    match what {
        What::Perms(perms) => Some(perms),
        _ => None,
    }
}

/// The bits of a mask that are granted, out of those that are evaluated.
fn bits_granted(what: What, file: &FileAcl<'_>, requester: &Requester) -> Mask
    ensures { mask_bits result
        ≡ bits_granted (asked_of what) (view_acl file.now) requester.now }
{
    match what {
        What::Letters => mask_of(effective(file, requester)),
        What::AllLetters => granted_mask(file, requester),
        What::Perms(perms) => mask_of(perms),
    }
}

/// The entries that decide what is granted.
fn via_text(
    alloc: Global,
    what: What,
    file: &FileAcl<'_>,
    requester: &Requester,
) -> Result<Vec<u8>, AllocError>
    ensures { IfOk result (λ via. via.items
        ≡ via_text (asked_of what) (view_acl file.now) requester.now) }
{
    match file.list {
        AnyAclRef::Posix(acl) => posix_via(alloc, acl, file.owners, requester, perms_asked(what)),
        AnyAclRef::Nfs4(acl) => {
            let bits = bits_granted(what, file, requester);
            nfs4_via(alloc, acl, file.owners, requester, bits)
        }
    }
}

/// What the file grants the requester, and the entries that decide it; `None` if nothing.
fn decided_for(
    alloc: Global,
    what: What,
    file: &FileAcl<'_>,
    requester: &Requester,
) -> Result<Option<Decided>, AllocError>
    ensures { IfOk result (λ decided. shown_if decided
        ≡ decided_of (asked_of what) (view_acl file.now) requester.now) }
{
    let Some(letters) = granted_shown(alloc, what, file, requester)? else {
        return Ok(None);
    };
    let via = via_text(alloc, what, file, requester)?;
    Ok(Some(Decided { letters, via }))
}

/// What the file grants each of the requesters, and the entries that decide it. Fails only if
/// memory runs out.
pub(super) fn decided_for_each(
    alloc: Global,
    what: What,
    requesters: &[Requester],
    file: &FileAcl<'_>,
) -> Result<Vec<Option<Decided>>, AllocError>
    ensures { IfOk result (λ decided. map shown_if decided.items
        ≡ map (decided_of (asked_of what) (view_acl file.now)) requesters.now) }
{
    let mut decided = Vec::with_capacity(alloc, requesters.len())?;
    for requester in requesters {
        decided.push(decided_for(alloc, what, file, requester)?)?;
    }
    Ok(decided)
}

/// What is granted at the place, if its user reaches the file.
fn decided_at<'t>(
    decided: &'t [Option<Decided>],
    reach: &[bool],
    place: usize,
) -> Option<&'t Decided>
    ensures { option_map (λ decided. shown_decided decided.now) result
        ≡ decided_at (map shown_if decided.entry.now) reach.now place }
{
    if !is_set(reach, place) {
        return None;
    }
    match decided.get(place) {
        Some(Some(decided)) => Some(decided),
        _ => None,
    }
}

/// Appends the line of a user who is granted something.
fn push_decided_line(
    path: &[u8],
    name: &[u8],
    decided: &Decided,
    out: &mut Vec<u8>,
) -> Result<(), AllocError>
    ensures { OnOk result (out.new.items
        ≡ out.old.items ++ decided_line path.now name.now (shown_decided decided.now)) }
{
    out.extend_from_slice(decided.letters.as_slice())?;
    out.extend_from_slice(name)?;
    out.push(b' ')?;
    out.extend_from_slice(decided.via.as_slice())?;
    out.push(b' ')?;
    out.extend_from_slice(path)?;
    out.push(b'\n')?;
    Ok(())
}

/// Appends the line of a user, if the user is granted something.
fn push_decided_if(
    path: &[u8],
    name: &[u8],
    decided: Option<&Decided>,
    out: &mut Vec<u8>,
) -> Result<(), AllocError>
    ensures { OnOk result (out.new.items ≡ out.old.items ++ decided_line_if path.now name.now
        (option_map (λ decided. shown_decided decided.now) decided.entry)) }
{
    match decided {
        Some(decided) => push_decided_line(path, name, decided, out),
        None => Ok(()),
    }
}

/// Appends a line for each of the names, in their order, whose user reaches the file and is granted
/// something: what it is, the name, the entries that decide it, and the path.
pub(super) fn push_decided_lines(
    names: &[Vec<u8>],
    decided: &[Option<Decided>],
    reach: &[bool],
    path: &[u8],
    out: &mut Vec<u8>,
) -> Result<(), AllocError>
    ensures { OnOk result (out.new.items ≡ out.old.items ++ decided_lines path.now
        (map (λ name. name.items) names.now) (map shown_if decided.now) reach.now) }
{
    for (place, name) in names.iter().enumerate() {
        let here = decided_at(decided, reach, place);
        push_decided_if(path, name.as_slice(), here, out)?;
    }
    Ok(())
}
