//! Which folders are parents of a file, by their paths.

ghost use Rattle.std.specs.Prelude.{◌≡◌, ◌∷◌, [], MatchOption};
ghost use Rattle.acl_listings.specs.Way.{is_above, is_absolute, leads, place_below, steps_among};
ghost use Rattle.acl_listings.specs.Way.{steps_cmp, steps_of};

use crate::shared::behind_shared;
use acl_names::Parts;
use std::cmp::Ordering;

/// The separator of a path's steps.
pub(crate) const SLASH: u8 = b'/';

/// Where a path is, relative to a folder's path.
#[derive(Clone, Copy, Debug, PartialEq, Eq)]
pub enum Place {
    /// Not in the folder.
    Elsewhere,
    /// It is the folder.
    Same,
    /// Directly in the folder.
    Inside,
    /// Further below the folder.
    Deeper,
}

/// Whether a part of a path is a step: neither empty nor `.`.
fn leads(part: &[u8]) -> bool
    ensures { result ≡ leads part.now }
{
    !part.is_empty() && part != b".".as_slice()
}

/// Takes the next step of the parts of a path that are still to come.
fn next_step<'a>(parts: &mut Parts<'a>) -> Option<&'a [u8]>
    ensures { MatchOption result (steps_among parts.old ≡ [])
        (λ step. steps_among parts.old ≡ step.now ∷ steps_among parts.new) }
{
    while let Some(part) = parts.next() {
        if leads(part) {
            return Some(part);
        }
    }
    None
}

/// Whether a path begins at the root.
fn is_absolute(path: &[u8]) -> bool
    ensures { result ≡ is_absolute path.now }
{
    path.starts_with(b"/")
}

/// Where `path` is, relative to the folder `above`. Repeated slashes count as one, and steps `.`
/// are ignored.
pub fn place_below(above: &[u8], path: &[u8]) -> Place
    ensures { result ≡ place_below above.now path.now }
{
    if is_absolute(above) != is_absolute(path) {
        return Place::Elsewhere;
    }
    let (folder_end, path_end) = behind_shared(above, path);
    let mut folder = Parts::new(SLASH, folder_end);
    let mut steps = Parts::new(SLASH, path_end);
    while let Some(first) = next_step(&mut folder) {
        match next_step(&mut steps) {
            Some(step) if step == first => {}
            _ => return Place::Elsewhere,
        }
    }
    if next_step(&mut steps).is_none() {
        return Place::Same;
    }
    match next_step(&mut steps) {
        Some(_) => Place::Deeper,
        None => Place::Inside,
    }
}

/// Whether the path is below the folder.
pub fn is_above(folder: &[u8], path: &[u8]) -> bool
    ensures { result ≡ is_above folder.now path.now }
{
    matches!(place_below(folder, path), Place::Inside | Place::Deeper)
}

/// Compares two paths step by step: a folder comes before its content.
pub fn compare_steps(one: &[u8], other: &[u8]) -> Ordering
    ensures { result ≡ steps_cmp (steps_of one.now) (steps_of other.now) }
{
    let mut steps = Parts::new(SLASH, one);
    let mut others = Parts::new(SLASH, other);
    while let Some(step) = next_step(&mut steps) {
        let Some(next) = next_step(&mut others) else {
            return Ordering::Greater;
        };
        match step.cmp(next) {
            Ordering::Equal => {}
            order => return order,
        }
    }
    if next_step(&mut others).is_some() {
        Ordering::Less
    } else {
        Ordering::Equal
    }
}
