//! What of earlier blocks counts for what is found in a block.
ghost use Rattle.std.specs.Prelude.{◌≡◌, ◌++◌, IfOk, OnOk, option_map};
ghost use Rattle.acl_listings.specs.Views.{view_file};
ghost use Rattle.acl_listings.specs.Way.{is_folder_of};
ghost use Rattle.acl_listing_lint.specs.Findings.{created_of};
ghost use Rattle.acl_listing_lint.specs.FromDefault.{created_in};
ghost use Rattle.acl_listing_lint.specs.Pending.{reported_at, reported_before};
ghost use Rattle.acl_listing_lint.specs.Seen.{default_at, folder_if, folder_with, folders_then};
ghost use Rattle.acl_listing_lint.specs.Seen.{nothing_seen, seen_then, those_above};

use crate::from_default::created_in;
use crate::pending::{Pending, push_after, push_before};
use acl_listings::{File, Lists, Place, is_above, place_below};
use acl_posix::Acl;
use std::alloc::{AllocError, Global};
use std::marker::Model;

/// A folder with a default list.
#[derive(Drop)]
pub(crate) struct Folder {
    path: Vec<u8>,
    default: Acl,
}

impl Model for Folder {
    ghost use Rattle.acl_listing_lint.specs.Seen.{Folder as FolderValue};

    ghost Value = { FolderValue };

    ghost view = { λ inside. record { path = inside.path.items; default = inside.default } };
}

/// What was seen of the blocks so far.
#[derive(Drop)]
pub(crate) struct Seen {
    /// The file of the last block that says one, if what comes after may show that it is a folder
    /// in which anybody may delete.
    pub pending: Option<Pending>,
    /// The folders with default lists that may hold the next file, the outermost first.
    pub folders: Vec<Folder>,
}

impl Model for Seen {
    ghost use Rattle.acl_listing_lint.specs.Seen.{Seen as SeenValue};

    ghost Value = { SeenValue };

    ghost view = { λ inside. record {
      pending = inside.pending;
      folders = inside.folders.items;
    } };
}

/// Before any block.
pub(crate) fn nothing_seen(alloc: Global) -> Seen
    ensures { result ≡ nothing_seen }
{
    Seen {
        pending: None,
        folders: Vec::new(alloc),
    }
}

/// Whether the path is directly in the folder.
fn is_folder_of(folder: &[u8], path: &[u8]) -> bool
    ensures { result ≡ is_folder_of folder.now path.now }
{
    matches!(place_below(folder, path), Place::Inside)
}

/// The default list of the folder in which the path lies, if it is one of these.
fn default_at<'t>(folders: &'t [Folder], path: &[u8]) -> Option<&'t Acl>
    ensures { option_map (λ acl. acl.now) result ≡ default_at folders.entry.now path.now }
{
    let folder = folders
        .iter()
        .find(|folder| is_folder_of(folder.path.as_slice(), path))?;
    Some(&folder.default)
}

/// The list that a file with these lists would have got at its creation at the path, if the folder
/// is one of these.
fn created_at(
    alloc: Global,
    folders: &[Folder],
    path: &[u8],
    lists: &Lists,
) -> Result<Option<Acl>, AllocError>
    ensures { IfOk result (λ created. created
        ≡ created_in (default_at folders.now path.now) lists.now) }
{
    created_in(alloc, default_at(folders, path), lists)
}

/// The list that the file would have got at its creation, if its folder was seen.
pub(crate) fn created_for(
    alloc: Global,
    seen: &Seen,
    file: &File<'_>,
) -> Result<Option<Acl>, AllocError>
    ensures { IfOk result (λ created. created ≡ created_of seen.now (view_file file.now)) }
{
    created_at(alloc, seen.folders.as_slice(), file.path, &file.lists)
}

/// Appends what the path shows of the file that is pending.
pub(crate) fn push_shown(
    name: &str,
    seen: &Seen,
    path: &[u8],
    out: &mut Vec<u8>,
) -> Result<(), AllocError>
    ensures { OnOk result (out.new.items ≡ out.old.items
        ++ reported_before name.now seen.now.pending path.now) }
{
    push_before(name, &seen.pending, path, out)
}

/// Drops the folders that aren't above the path.
fn leave(folders: &mut Vec<Folder>, path: &[u8])
    ensures { folders.new.items ≡ those_above path.now folders.old.items }
{
    folders.retain(|folder| is_above(folder.path.as_slice(), path));
}

/// Puts a file with this path and the default list behind the folders, if it has one.
fn push_folder(
    alloc: Global,
    folders: &mut Vec<Folder>,
    path: &[u8],
    default: &Option<Acl>,
) -> Result<(), AllocError>
    ensures { OnOk result (folders.new.items
        ≡ folders.old.items ++ folder_if path.now default.now) }
{
    let Some(default) = default else {
        return Ok(());
    };
    let path = Vec::from_slice(alloc, path)?;
    let default = default.try_clone(alloc)?;
    folders.push(Folder { path, default })?;
    Ok(())
}

/// The same of a file with these lists.
fn push_folder_with(
    alloc: Global,
    folders: &mut Vec<Folder>,
    path: &[u8],
    lists: &Lists,
) -> Result<(), AllocError>
    ensures { OnOk result (folders.new.items
        ≡ folders.old.items ++ folder_with path.now lists.now) }
{
    match lists {
        Lists::Posix { default, .. } => push_folder(alloc, folders, path, default),
        Lists::Nfs4 { .. } => Ok(()),
    }
}

/// Makes of the folders those that may hold what comes behind the file.
fn come_to(alloc: Global, folders: &mut Vec<Folder>, file: &File<'_>) -> Result<(), AllocError>
    ensures { OnOk result (folders.new.items
        ≡ folders_then folders.old.items (view_file file.now)) }
{
    leave(folders, file.path);
    push_folder_with(alloc, folders, file.path, &file.lists)
}

/// Makes of what was seen what is seen behind the file, whose block's first line has this number.
/// Appends the file's line, if anybody may delete in it and it says itself that it is a folder.
pub(crate) fn see(
    alloc: Global,
    name: &str,
    line: u64,
    file: File<'_>,
    seen: &mut Seen,
    out: &mut Vec<u8>,
) -> Result<(), AllocError>
    ensures seen { OnOk result (seen.new ≡ seen_then seen.old line (view_file file.entry)) }
    ensures reported { OnOk result (out.new.items ≡ out.old.items
        ++ reported_at name.now line (view_file file.entry)) }
{
    come_to(alloc, &mut seen.folders, &file)?;
    seen.pending = push_after(alloc, name, line, file, out)?;
    Ok(())
}
