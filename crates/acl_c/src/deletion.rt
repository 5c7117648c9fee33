//! Who may delete a file, rename it, or put another in its place.

ghost use Rattle.std.specs.Prelude.{List};
ghost use Rattle.acl_c.specs.Deletion.{ReportsDeletion, posix_deletion};
ghost use Rattle.acl_c.specs.Status.{nfs4_number, posix_number};
ghost use Rattle.acl_names.specs.Requester.{Identity};
ghost use Rattle.acl_posix.specs.Entry.{EntryValue};
ghost use Rattle.acl_wire.specs.Deletion.{raws_deletion};

use crate::nfs4::File;
use crate::status::{nfs4_number as nfs4_fault_number, posix_number as posix_fault_number};
use acl_wire::{RawAce, Rules, raws_delete, xattr_delete};

/// Whether the user may delete the file in the folder; and 0, or why the entries say nothing.
#[unsafe(no_mangle)]
pub extern "C" fn meardwyn_nfs4_may_delete(
    folder_aces: &[RawAce],
    folder: &File,
    sticky: bool,
    aces: &[RawAce],
    file: &File,
    uid: u32,
    gids: &[u32],
    error: &mut i32,
) -> bool
    ensures { let who : Identity = record { uid = uid; gids = gids.now } in
        ReportsDeletion nfs4_number (raws_deletion sticky folder_aces.now folder.now.owner
        folder.now.group aces.now file.now.owner file.now.group who) result error.new }
{
    match raws_delete(
        sticky,
        folder_aces,
        folder.owner,
        folder.group,
        aces,
        file.owner,
        file.group,
        uid,
        gids,
    ) {
        Ok(granted) => {
            *error = 0;
            granted
        }
        Err(fault) => {
            *error = nfs4_fault_number(fault);
            false
        }
    }
}

/// The same in a folder with a POSIX list, by whatever rules and whatever list the file has.
fn posix_may_delete(
    rules: Rules,
    folder_xattr: &[u8],
    folder: &File,
    sticky: bool,
    file: &File,
    uid: u32,
    gids: &[u32],
    error: &mut i32,
) -> bool
    ensures { let who : Identity = record { uid = uid; gids = gids.now } in
        (acl : List EntryValue) → ReportsDeletion posix_number (posix_deletion rules sticky
        folder_xattr.now folder.now acl file.now who) result error.new }
{
    match xattr_delete(
        rules,
        sticky,
        folder_xattr,
        folder.owner,
        folder.group,
        file.owner,
        uid,
        gids,
    ) {
        Ok(granted) => {
            *error = 0;
            granted
        }
        Err(fault) => {
            *error = posix_fault_number(fault);
            false
        }
    }
}

/// Whether the user may delete the file in the folder, whose list draft 17 decides by.
#[unsafe(no_mangle)]
pub extern "C" fn meardwyn_posix_may_delete(
    folder_xattr: &[u8],
    folder: &File,
    sticky: bool,
    file: &File,
    uid: u32,
    gids: &[u32],
    error: &mut i32,
) -> bool
    ensures { let who : Identity = record { uid = uid; gids = gids.now } in
        (acl : List EntryValue) → ReportsDeletion posix_number (posix_deletion Rules.Draft sticky
        folder_xattr.now folder.now acl file.now who) result error.new }
{
    posix_may_delete(
        Rules::Draft,
        folder_xattr,
        folder,
        sticky,
        file,
        uid,
        gids,
        error,
    )
}

/// Whether the user may delete the file in the folder, whose list Linux decides by.
#[unsafe(no_mangle)]
pub extern "C" fn meardwyn_posix_may_delete_linux(
    folder_xattr: &[u8],
    folder: &File,
    sticky: bool,
    file: &File,
    uid: u32,
    gids: &[u32],
    error: &mut i32,
) -> bool
    ensures { let who : Identity = record { uid = uid; gids = gids.now } in
        (acl : List EntryValue) → ReportsDeletion posix_number (posix_deletion Rules.Linux sticky
        folder_xattr.now folder.now acl file.now who) result error.new }
{
    posix_may_delete(
        Rules::Linux,
        folder_xattr,
        folder,
        sticky,
        file,
        uid,
        gids,
        error,
    )
}
