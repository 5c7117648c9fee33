//! The lines of a file, for users by their places.
ghost use Rattle.std.specs.Prelude.{◌≡◌, ◌++◌, OnOk, map};
ghost use Rattle.acl_posix.specs.Perms.{bits_of};
ghost use Rattle.acl_listing_queries.specs.WhoSteps.{letters_lines, may_line_at, may_lines};
ghost use Rattle.acl_listing_queries.specs.WhoSteps.{number_there, numbers_of_each};
ghost use Rattle.acl_listing_queries.specs.WhoText.{letters_line_if};

use acl_access::{LetterSet, is_set, letters_at, push_letters_line, push_may_line};
use acl_posix::Perms;
use bitflags::Flags;
use std::alloc::AllocError;

/// Appends the line of a user, if there is a letter.
fn push_letters_if<L: LetterSet>(
    path: &[u8],
    name: &[u8],
    letters: L,
    out: &mut Vec<u8>,
) -> Result<(), AllocError>
    ensures { OnOk result (out.new.items ≡ out.old.items
        ++ letters_line_if L.text path.now name.now (L.number letters)) }
{
    if letters.is_none() {
        return Ok(());
    }
    push_letters_line(path, name, letters, out)
}

/// Appends a line for each of the names, in their order, whose user reaches the file and has a
/// letter: the letters, the name, and the path.
pub(super) fn push_letters_lines<L: LetterSet>(
    names: &[Vec<u8>],
    letters: &[L],
    reach: &[bool],
    path: &[u8],
    out: &mut Vec<u8>,
) -> Result<(), AllocError>
    ensures { OnOk result (out.new.items ≡ out.old.items ++ letters_lines L.text path.now
        (map (λ name. name.items) names.now) (map L.number letters.now) reach.now) }
{
    for (place, name) in names.iter().enumerate() {
        let here = letters_at(letters, reach, place);
        push_letters_if(path, name.as_slice(), here, out)?;
    }
    Ok(())
}

/// Appends the number of the permissions at the place: 0 if its user doesn't reach the file.
fn push_number_at(
    letters: &[Perms],
    reach: &[bool],
    place: usize,
    out: &mut Vec<u8>,
) -> Result<(), AllocError>
    ensures { OnOk result (out.new.items
        ≡ out.old.items ++ number_there (map bits_of letters.now) reach.now place) }
{
    if place >= letters.len() {
        return Ok(());
    }
    out.push(letters_at(letters, reach, place).bits())?;
    Ok(())
}

/// Appends a byte for each of the names, in their order: the number of its user's permissions, or 0
/// if the user doesn't reach the file.
pub(super) fn push_numbers(
    names: &[Vec<u8>],
    letters: &[Perms],
    reach: &[bool],
    out: &mut Vec<u8>,
) -> Result<(), AllocError>
    ensures { OnOk result (out.new.items ≡ out.old.items ++ numbers_of_each
        (map (λ name. name.items) names.now) (map bits_of letters.now) reach.now) }
{
    for (place, _name) in names.iter().enumerate() {
        push_number_at(letters, reach, place, out)?;
    }
    Ok(())
}

/// Appends the line of the name at the place, if its user reaches the file.
fn push_may_line_at(
    names: &[Vec<u8>],
    place: usize,
    reach: &[bool],
    path: &[u8],
    out: &mut Vec<u8>,
) -> Result<(), AllocError>
    ensures { OnOk result (out.new.items ≡ out.old.items ++ may_line_at path.now
        (map (λ name. name.items) names.now) reach.now place) }
{
    if !is_set(reach, place) {
        return Ok(());
    }
    match names.get(place) {
        Some(name) => push_may_line(path, name.as_slice(), out),
        None => Ok(()),
    }
}

/// Appends a line for each of the names at the places whose user reaches the file: the name and the
/// path.
pub(super) fn push_may_lines(
    names: &[Vec<u8>],
    places: &[usize],
    reach: &[bool],
    path: &[u8],
    out: &mut Vec<u8>,
) -> Result<(), AllocError>
    ensures { OnOk result (out.new.items ≡ out.old.items ++ may_lines path.now
        (map (λ name. name.items) names.now) places.now reach.now) }
{
    for place in places {
        push_may_line_at(names, *place, reach, path, out)?;
    }
    Ok(())
}
