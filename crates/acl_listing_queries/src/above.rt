//! Which folders are parents of a path.
ghost use Rattle.std.specs.Prelude.{◌≡◌, Some, option_map};
ghost use Rattle.acl_listings.specs.Block.{path_of};
ghost use Rattle.acl_listing_queries.specs.Ways.{holds, may_be_above};

use acl_listings::{Place, is_above, path_of, place_below};

/// Whether the path may be below the file of the block with this text.
pub(crate) fn may_be_above(text: &[u8], path: &[u8]) -> bool
    ensures { result ≡ may_be_above (path_of text.now) (Some path.now) }
{
    match path_of(text) {
        Some(folder) => is_above(folder, path),
        None => true,
    }
}

/// Whether the path is directly in the folder, if there are both.
pub(crate) fn holds(folder: Option<&[u8]>, path: Option<&[u8]>) -> bool
    ensures { result ≡ holds (option_map (λ path. path.now) folder.entry)
        (option_map (λ path. path.now) path.entry) }
{
    match (folder, path) {
        (Some(folder), Some(path)) => matches!(place_below(folder, path), Place::Inside),
        _ => false,
    }
}
