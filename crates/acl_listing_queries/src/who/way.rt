//! The parent folders of a file of a listing.
ghost use Rattle.std.specs.Prelude.{◌≡◌, List, Some, false, option_map};
ghost use Rattle.std.specs.List.{list_any};
ghost use Rattle.acl_listing_queries.specs.Readings.{Reading};
ghost use Rattle.acl_listing_queries.specs.Ways.{is_sticky, chain_to, those_above};
ghost use Rattle.acl_listing_queries.specs.WhoSteps.{AreFolders, IsChain, IsEveryone, IsInsideOf};
ghost use Rattle.acl_listing_queries.specs.WhoSteps.{lacks_path, marks_of, whos_of};
ghost use Rattle.acl_listing_queries.specs.declared.who.answers.Users.{Users};

use acl_access::Standing;
use acl_listings::{Place, is_above, place_below};

/// A parent folder.
#[derive(Drop)]
pub(super) struct Folder {
    pub path: Vec<u8>,
    /// Whether each user may search it and each of its parents; `None` if that isn't known.
    pub reach: Option<Vec<bool>>,
    /// The standing of each user to it; empty unless that is needed.
    pub standings: Vec<Standing>,
}

/// The parents of a file.
#[derive(Clone, Copy)]
pub(super) struct Inside<'t> {
    /// Whether each user may search all of them.
    pub reach: &'t [bool],
    /// The standing of each user to the nearest, if there is one.
    pub folder: Option<&'t [Standing]>,
}

/// Drops the folders that aren't parents of the path.
pub(super) fn leave(folders: &mut Vec<Folder>, path: &[u8])
    ensures { (users : Users) (way : List Reading) (here : Reading)
        → here.path ≡ Some path.now → IsChain way → list_any lacks_path way ≡ false
        → AreFolders users folders.old.items way
        → AreFolders users folders.new.items (those_above here way) }
{
    while let Some(folder) = folders.last() {
        if is_above(folder.path.as_slice(), path) {
            return;
        }
        // The rest isn't needed any more.
        let _ = folders.pop();
    }
}

/// Whether each user may search all folders that are parents of the path; `None` if that isn't
/// known. Everyone reaches the place where the listing begins.
pub(super) fn reach_of<'t>(
    folders: &'t [Folder],
    everyone: &'t [bool],
    path: &[u8],
) -> Option<&'t [bool]>
    ensures { (users : Users) (way : List Reading) (here : Reading)
        → here.path ≡ Some path.now → IsEveryone (whos_of users) everyone.entry.now
        → AreFolders users folders.entry.now way
        → option_map (λ marks. marks.now) result ≡ marks_of users (chain_to way here) }
{
    let Some(folder) = folders.last() else {
        return Some(everyone);
    };
    match place_below(folder.path.as_slice(), path) {
        Place::Inside => folder.reach.as_ref().map(|reach| reach.as_slice()),
        _ => None,
    }
}

/// The parents of a file at the path; `None` if they aren't known.
pub(super) fn inside_of<'t>(
    folders: &'t [Folder],
    everyone: &'t [bool],
    path: &[u8],
) -> Option<Inside<'t>>
    ensures { (users : Users) (way : List Reading) (here : Reading)
        → here.path ≡ Some path.now → IsEveryone (whos_of users) everyone.entry.now
        → AreFolders users folders.entry.now way
        → IsInsideOf users (is_sticky way) (chain_to way here) result }
{
    let Some(reach) = reach_of(folders, everyone, path) else {
        return None;
    };
    let folder = match folders.last() {
        Some(folder) => Some(folder.standings.as_slice()),
        None => None,
    };
    Some(Inside { reach, folder })
}
