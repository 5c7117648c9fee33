//! Which of the users gain or lose access.
ghost use Rattle.std.specs.Prelude.{◌≡◌, ◌++◌, IfOk, OnOk, map, option_map, slice_get};
ghost use Rattle.std.specs.List.{flat_map};
ghost use Rattle.acl_bridge.specs.Files.{view_acl};
ghost use Rattle.acl_nfs4.specs.Mask.{mask_bits};
ghost use Rattle.acl_people.specs.Asked.{persons_in};
ghost use Rattle.acl_listing_changes.specs.ImpactText.{person_text, line_at};
ghost use Rattle.acl_listing_changes.specs.ImpactSteps.{ReportsAt, ReportsBy, view_one};
ghost use Rattle.acl_listing_changes.specs.Impacting.{Reports, ReportsAnybody, ReportsFirst};
ghost use Rattle.acl_listing_changes.specs.Impacting.{ReportsPersons, ReportsThose, lines_if};
ghost use Rattle.acl_listing_changes.specs.Impacting.{may_line};

use crate::impact_lines::{push_person, push_somebody};
use acl_access::{change_for, change_for_anybody, effective};
use acl_bridge::FileAcl;
use acl_bridge::bits::mask_for;
use acl_names::Requester;
use acl_nfs4::Mask;
use acl_people::People;
use bitflags::Flags;
use std::alloc::{AllocError, Global};

/// A user to evaluate: the name as getfacl prints it, and the requester.
#[derive(Clone, Copy)]
pub(super) struct One<'t> {
    name: &'t [u8],
    requester: &'t Requester,
}

/// The name at the place.
fn name_at(names: &[Vec<u8>], place: usize) -> Option<&[u8]>
    ensures { option_map (λ name. name.now) result
        ≡ slice_get (map (λ name. name.items) names.now) place }
{
    match names.get(place) {
        Some(name) => Some(name.as_slice()),
        None => None,
    }
}

/// The requester at the place.
fn requester_at(requesters: &[Requester], place: usize) -> Option<&Requester>
    ensures { option_map (λ requester. requester.now) result ≡ slice_get requesters.now place }
{
    requesters.get(place)
}

/// The user at the place.
fn one_at(people: &People, place: usize) -> Option<One<'_>>
    ensures { option_map view_one result ≡ slice_get (persons_in people.now) place }
{
    let Some(name) = name_at(people.names.as_slice(), place) else {
        return None;
    };
    let Some(requester) = requester_at(people.requesters.as_slice(), place) else {
        return None;
    };
    Some(One { name, requester })
}

/// Appends the user's line if the user gains or loses access, and returns whether that is so.
fn push_changed(
    before: &FileAcl<'_>,
    after: &FileAcl<'_>,
    one: &One<'_>,
    path: &[u8],
    out: &mut Vec<u8>,
) -> Result<bool, AllocError>
    ensures { IfOk result (λ some. Reports (ReportsBy some (view_acl before.now)
        (view_acl after.now)
        path.now (view_one one.now)) out.old.items out.new.items) }
{
    match change_for(before, after, one.requester) {
        Some(change) => {
            push_person(
                one.name,
                one.requester,
                change.lost,
                change.gained,
                path,
                out,
            )?;
            Ok(true)
        }
        None => Ok(false),
    }
}

/// Appends the line of the user at the place, if there is one who gains or loses access, and
/// returns whether that is so.
fn push_changed_at(
    before: &FileAcl<'_>,
    after: &FileAcl<'_>,
    people: &People,
    place: usize,
    path: &[u8],
    out: &mut Vec<u8>,
) -> Result<bool, AllocError>
    ensures { IfOk result (λ some. Reports (ReportsAt some (view_acl before.now)
        (view_acl after.now)
        path.now (slice_get (persons_in people.now) place)) out.old.items out.new.items) }
{
    match one_at(people, place) {
        Some(one) => push_changed(before, after, &one, path, out),
        None => Ok(false),
    }
}

/// Appends the line of each user who gains or loses access.
fn push_each(
    before: &FileAcl<'_>,
    after: &FileAcl<'_>,
    people: &People,
    path: &[u8],
    out: &mut Vec<u8>,
) -> Result<(), AllocError>
    ensures { OnOk result (Reports (ReportsPersons (view_acl before.now)
        (view_acl after.now) path.now
        (persons_in people.now)) out.old.items out.new.items) }
{
    for place in 0..people.requesters.len() {
        push_changed_at(before, after, people, place, path, out)?;
    }
    Ok(())
}

/// Appends the line of the first user who gains or loses access.
fn push_first(
    before: &FileAcl<'_>,
    after: &FileAcl<'_>,
    people: &People,
    path: &[u8],
    out: &mut Vec<u8>,
) -> Result<(), AllocError>
    ensures { OnOk result (Reports (ReportsFirst (view_acl before.now) (view_acl after.now) path.now
        (persons_in people.now)) out.old.items out.new.items) }
{
    for place in 0..people.requesters.len() {
        if push_changed_at(before, after, people, place, path, out)? {
            return Ok(());
        }
    }
    Ok(())
}

/// Appends the line of each user who gains or loses access, or only of the first.
pub(super) fn push_those(
    each: bool,
    before: &FileAcl<'_>,
    after: &FileAcl<'_>,
    people: &People,
    path: &[u8],
    out: &mut Vec<u8>,
) -> Result<(), AllocError>
    ensures { OnOk result (Reports (ReportsThose each (view_acl before.now) (view_acl after.now)
        path.now (persons_in people.now)) out.old.items out.new.items) }
{
    if each {
        push_each(before, after, people, path, out)
    } else {
        push_first(before, after, people, path, out)
    }
}

/// Appends the line of somebody who gains or loses access and is neither uid 0 nor known, if
/// `asked` is set.
pub(super) fn push_anybody(
    alloc: Global,
    asked: bool,
    known: &[Requester],
    before: &FileAcl<'_>,
    after: &FileAcl<'_>,
    path: &[u8],
    out: &mut Vec<u8>,
) -> Result<(), AllocError>
    ensures { OnOk result (Reports (ReportsAnybody asked known.now (view_acl before.now)
        (view_acl after.now) path.now) out.old.items out.new.items) }
{
    if !asked {
        return Ok(());
    }
    match change_for_anybody(alloc, before, after, known) {
        Ok(Some(found)) => push_somebody(found.asker, found.lost, found.gained, path, out),
        Ok(None) => Ok(()),
        Err(refused) => Err(refused),
    }
}

/// Appends the line of the user at the place, with what is lost and gained and the path; nothing if
/// there is no user. Fails only if memory runs out.
pub fn push_person_at(
    people: &People,
    place: usize,
    lost: Mask,
    gained: Mask,
    path: &[u8],
    out: &mut Vec<u8>,
) -> Result<(), AllocError>
    ensures { OnOk result (out.new.items ≡ out.old.items ++ line_at
        (λ person. person_text person (mask_bits lost) (mask_bits gained) path.now)
        (slice_get (persons_in people.now) place)) }
{
    match one_at(people, place) {
        Some(one) => push_person(one.name, one.requester, lost, gained, path, out),
        None => Ok(()),
    }
}

/// Appends the user's line if the user has a permission on the new file, or had one on the gone
/// file.
fn push_may(
    gone: bool,
    file: &FileAcl<'_>,
    one: &One<'_>,
    path: &[u8],
    out: &mut Vec<u8>,
) -> Result<(), AllocError>
    ensures { OnOk result (out.new.items
        ≡ out.old.items ++ may_line gone path.now (view_acl file.now) (view_one one.now)) }
{
    let perms = effective(file, one.requester);
    if perms.is_empty() {
        return Ok(());
    }
    let bits = mask_for(perms);
    if gone {
        push_person(one.name, one.requester, bits, Mask::empty(), path, out)
    } else {
        push_person(one.name, one.requester, Mask::empty(), bits, path, out)
    }
}

/// Appends that line for the user at the place.
fn push_may_at(
    gone: bool,
    file: &FileAcl<'_>,
    people: &People,
    place: usize,
    path: &[u8],
    out: &mut Vec<u8>,
) -> Result<(), AllocError>
    ensures { OnOk result (out.new.items ≡ out.old.items
        ++ line_at (may_line gone path.now (view_acl file.now))
        (slice_get (persons_in people.now) place)) }
{
    match one_at(people, place) {
        Some(one) => push_may(gone, file, &one, path, out),
        None => Ok(()),
    }
}

/// Appends the line of each user with a permission on the new file, or on the gone file.
fn push_each_who_may(
    gone: bool,
    file: &FileAcl<'_>,
    people: &People,
    path: &[u8],
    out: &mut Vec<u8>,
) -> Result<(), AllocError>
    ensures { OnOk result (out.new.items ≡ out.old.items
        ++ flat_map (may_line gone path.now (view_acl file.now)) (persons_in people.now)) }
{
    for place in 0..people.requesters.len() {
        push_may_at(gone, file, people, place, path, out)?;
    }
    Ok(())
}

/// Appends the line of each user with a permission on the new file, or on the gone file, if `each`
/// is set.
pub(super) fn push_all_who_may(
    each: bool,
    gone: bool,
    file: &FileAcl<'_>,
    people: &People,
    path: &[u8],
    out: &mut Vec<u8>,
) -> Result<(), AllocError>
    ensures { OnOk result (out.new.items ≡ out.old.items
        ++ lines_if each (may_line gone path.now (view_acl file.now)) (persons_in people.now)) }
{
    if !each {
        return Ok(());
    }
    push_each_who_may(gone, file, people, path, out)
}
