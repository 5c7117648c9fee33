//! What a file grants each of many users.
ghost use Rattle.std.specs.Prelude.{◌≡◌, ◌++◌, ◌∷◌, [], IfOk, OnOk, if◌then◌else◌, map};
ghost use Rattle.acl_posix.specs.Perms.{bits_of};
ghost use Rattle.acl_bridge.specs.Files.{may, view_acl};
ghost use Rattle.acl_access.specs.Marks.{both, is_set, letters_at, mark_in_both};
ghost use Rattle.acl_access.specs.Marks.{places_from};

use crate::letters::LetterSet;
use acl_bridge::FileAcl;
use acl_names::Requester;
use acl_posix::Perms;
use std::alloc::{AllocError, Global};

/// For each of the requesters, in their order, whether the file grants all of the permissions.
/// Fails only if memory runs out.
pub fn which_may(
    alloc: Global,
    requesters: &[Requester],
    file: &FileAcl<'_>,
    perms: Perms,
) -> Result<Vec<bool>, AllocError>
    ensures { IfOk result (λ which. which.items
        ≡ map (λ who. may (view_acl file.now) who (bits_of perms)) requesters.now) }
{
    let mut which = Vec::with_capacity(alloc, requesters.len())?;
    for requester in requesters {
        which.push(file.may(requester, perms))?;
    }
    Ok(which)
}

/// For each of the requesters, in their order, the letters that the file grants. Fails only if
/// memory runs out.
pub fn letters_of_each<L: LetterSet>(
    alloc: Global,
    requesters: &[Requester],
    file: &FileAcl<'_>,
) -> Result<Vec<L>, AllocError>
    ensures { IfOk result (λ letters. map L.number letters.items
        ≡ map (L.granted (view_acl file.now)) requesters.now) }
{
    let mut letters = Vec::with_capacity(alloc, requesters.len())?;
    for requester in requesters {
        letters.push(L::granted(file, requester))?;
    }
    Ok(letters)
}

/// The places of the requesters to whom the file grants all of the permissions, in their order.
/// Fails only if memory runs out.
pub fn places_of_those_who_may(
    alloc: Global,
    requesters: &[Requester],
    file: &FileAcl<'_>,
    perms: Perms,
) -> Result<Vec<usize>, AllocError>
    ensures { IfOk result (λ places. places.items
        ≡ places_from (λ who. may (view_acl file.now) who (bits_of perms)) 0 requesters.now) }
{
    let mut places = Vec::new(alloc);
    for place in 0..requesters.len() {
        push_if(&mut places, place, file.may(&requesters[place], perms))?;
    }
    Ok(places)
}

/// Appends the place if `is` is true. Fails only if memory runs out.
pub(crate) fn push_if(places: &mut Vec<usize>, place: usize, is: bool) -> Result<(), AllocError>
    ensures { OnOk result (places.new.items
        ≡ places.old.items ++ (if is then place ∷ [] else [])) }
{
    if is {
        places.push(place)?;
    }
    Ok(())
}

/// For each place of `one`, whether it is set in both. Fails only if memory runs out.
pub fn both(alloc: Global, one: &[bool], other: &[bool]) -> Result<Vec<bool>, AllocError>
    ensures { IfOk result (λ marks. marks.items ≡ both one.now other.now) }
{
    let mut marks = Vec::with_capacity(alloc, one.len())?;
    for (place, mark) in one.iter().enumerate() {
        marks.push(mark_in_both(*mark, other, place))?;
    }
    Ok(marks)
}

/// Whether the mark and the place in `other` are both set.
fn mark_in_both(mark: bool, other: &[bool], place: usize) -> bool
    ensures { result ≡ mark_in_both other.now (place, mark) }
{
    mark && is_set(other, place)
}

/// Whether the place is set; a place beyond the end isn't.
pub fn is_set(marks: &[bool], place: usize) -> bool
    ensures { result ≡ is_set marks.now place }
{
    marks.get(place).copied().unwrap_or(false)
}

/// The letters at the place, or none if `reach` isn't set there.
pub fn letters_at<L: LetterSet>(letters: &[L], reach: &[bool], place: usize) -> L
    ensures { L.number result ≡ letters_at (map L.number letters.now) reach.now place }
{
    if is_set(reach, place) {
        letters.get(place).copied().unwrap_or(L::none())
    } else {
        L::none()
    }
}
