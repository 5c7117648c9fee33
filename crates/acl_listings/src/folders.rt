//! Which files are folders.
ghost use Rattle.std.specs.Prelude.{◌≡◌};
ghost use Rattle.acl_listings.specs.Folders.{hand_on, has_flags, says_folder};
ghost use Rattle.acl_listings.specs.Views.{view_file};

use crate::{File, FileFlags, Lists};

fn has_flags(flags: FileFlags) -> bool
    ensures { result ≡ has_flags flags }
{
    flags.set_user_id || flags.set_group_id || flags.sticky
}

/// Whether the lists have something that a folder's content inherits.
fn hand_on(lists: &Lists) -> bool
    ensures { result ≡ hand_on lists.now }
{
    match lists {
        Lists::Posix { default, .. } => default.is_some(),
        Lists::Nfs4 { acl } => acl.has_inheritance(),
    }
}

/// Whether the file says by itself that it is a folder.
pub fn says_folder(file: &File<'_>) -> bool
    ensures { result ≡ says_folder (view_file file.now) }
{
    has_flags(file.flags) || hand_on(&file.lists)
}
