//! Who may delete, rename or replace a file (RFC 8881, section 6.2.1.3.2; for POSIX lists as Linux
//! decides).

ghost use Rattle.std.specs.Prelude.{◌≡◌, ◌==◌, ◌&&◌, ◌||◌, ◌^◌, ℕ, List, unwrap_or, false, not};
ghost use Rattle.acl_access.specs.Deletes.{delete, delete_child, deletes_by};
ghost use Rattle.acl_bridge.specs.declared.any_acl.AnyAcl.TheVariants.{Posix};
ghost use Rattle.acl_names.specs.Requester.{Identity};
ghost use Rattle.acl_nfs4.specs.Mask.{write_data};
ghost use Rattle.acl_posix.specs.Entry.{EntryValue};
ghost use Rattle.acl_wire.specs.Deletion.{file_of, raws_deletion, said_in, xattr_deletion};
ghost use Rattle.acl_wire.specs.Nfs4.{are_ids};

use crate::{Decided, Nfs4Fault, PosixFault, RawAce, raws_decide, xattr_grants};
use acl_access::{Rules, deletes_by};
use acl_names::{Gid, Uid};

/// `ADD_FILE`, which is `WRITE_DATA` of a folder.
const ADD_FILE: u32 = 0x2;

/// `DELETE_CHILD`.
const DELETE_CHILD: u32 = 0x40;

/// `DELETE`.
const DELETE: u32 = 0x1_0000;

/// To write and to execute: what a POSIX list has to grant of a folder.
const WRITE_AND_EXECUTE: u32 = 3;

/// Whether these are ids.
fn are_ids(owner: u32, group: u32, uid: u32) -> bool
    ensures { result ≡ are_ids owner group uid }
{
    Uid::new(owner).is_some() && Gid::new(group).is_some() && Uid::new(uid).is_some()
}

/// Whether others' files may be taken from a folder, or the file is one's own.
fn is_free(sticky: bool, folder_owner: u32, owner: u32, uid: u32) -> bool
    ensures { result ≡ (not sticky || uid == folder_owner || uid == owner) }
{
    !sticky || uid == folder_owner || uid == owner
}

/// What was decided of the bit, if an entry speaks of it.
fn said_in(decided: Decided, bit: u32) -> Option<bool>
    ensures { (place : ℕ) → bit ≡ 2 ^ place → result ≡ said_in decided place }
{
    if decided.allowed & bit == bit {
        Some(true)
    } else if decided.denied & bit == bit {
        Some(false)
    } else {
        None
    }
}

/// Whether to delete a file is granted, by what was decided of its folder and of it. Who may add to
/// the folder may, if it is not others' there.
fn is_granted(in_folder: Decided, of_file: Decided, is_free: bool) -> bool
    ensures { result ≡ deletes_by (said_in of_file delete) (said_in in_folder delete_child)
        (unwrap_or (said_in in_folder write_data) false && is_free) }
{
    let adds = said_in(in_folder, ADD_FILE).unwrap_or(false);
    deletes_by(
        said_in(of_file, DELETE),
        said_in(in_folder, DELETE_CHILD),
        adds && is_free,
    )
}

/// Whether a user in these groups may delete, rename or replace a file with the entries `raws` in a
/// folder with the entries `folder` (RFC 8881, section 6.2.1.3.2): if the file grants `DELETE` or
/// the folder `DELETE_CHILD`; or if no entry has either bit, the folder grants `ADD_FILE`, and it
/// has no sticky bit, or the user owns it or the file. It doesn't check whether the user may search
/// the folder and its parents.
///
/// Fails with `Argument` if an id is out of range, before all other faults; then the folder's
/// faults come. Entries are evaluated as by `raws_decide`, however many there are, without memory.
#[tactic(auto, unfolding(crate::specs::Deletion::raws_deletion))]
pub fn raws_delete(
    sticky: bool,
    folder: &[RawAce],
    folder_owner: u32,
    folder_group: u32,
    raws: &[RawAce],
    owner: u32,
    group: u32,
    uid: u32,
    gids: &[u32],
) -> Result<bool, Nfs4Fault>
    ensures { let who : Identity = record { uid = uid; gids = gids.now } in
        result ≡ raws_deletion sticky folder.now folder_owner folder_group raws.now owner group who }
{
    if !are_ids(folder_owner, folder_group, uid) || !are_ids(owner, group, uid) {
        return Err(Nfs4Fault::Argument);
    }
    let asked = DELETE_CHILD | ADD_FILE;
    let in_folder = raws_decide(folder, folder_owner, folder_group, uid, gids, asked)?;
    let of_file = raws_decide(raws, owner, group, uid, gids, DELETE)?;
    let is_free = is_free(sticky, folder_owner, owner, uid);
    Ok(is_granted(in_folder, of_file, is_free))
}

/// The same for a file of this owner in a folder with the POSIX list of the bytes, as Linux decides
/// it, whatever list the file has: the folder must grant to write and to execute at once, and if it
/// has the sticky bit, the user must own it or the file. `rules` are those by which the folder's
/// list is evaluated. Fails with `Argument` if an id is out of range, before all other faults. It
/// takes no memory.
#[tactic(auto, unfolding(crate::specs::Deletion::xattr_deletion, crate::specs::Check::check_of))]
pub fn xattr_delete(
    rules: Rules,
    sticky: bool,
    folder: &[u8],
    folder_owner: u32,
    folder_group: u32,
    owner: u32,
    uid: u32,
    gids: &[u32],
) -> Result<bool, PosixFault>
    ensures { let who : Identity = record { uid = uid; gids = gids.now } in
        (acl : List EntryValue) (group : ℕ) → result
        ≡ xattr_deletion rules sticky folder.now folder_owner folder_group
        (file_of (Posix acl) owner group) who }
{
    if !are_ids(folder_owner, folder_group, uid) || Uid::new(owner).is_none() {
        return Err(PosixFault::Argument);
    }
    let is_free = is_free(sticky, folder_owner, owner, uid);
    let asked = WRITE_AND_EXECUTE;
    match xattr_grants(rules, folder, folder_owner, folder_group, uid, gids, asked) {
        Ok(granted) => Ok(granted && is_free),
        Err(fault) => Err(fault),
    }
}
