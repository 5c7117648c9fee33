//! The block of what is created in a folder.
ghost use Rattle.std.specs.Prelude.{◌≡◌, ◌++◌, IfErr, IfOk, Ok, OnOk};
ghost use Rattle.acl_listings.specs.Faults.{IsFaultOf};
ghost use Rattle.acl_listings.specs.Numbered.{lists_text};
ghost use Rattle.acl_listings.specs.Views.{view_file};
ghost use Rattle.acl_listing_creation.specs.Created.{created_text, ends_with_slash, flags_in};
ghost use Rattle.acl_listing_creation.specs.Created.{flags_text, group_in, if_short, next_block};
ghost use Rattle.acl_listing_creation.specs.Created.{next_in};

use crate::creation::Creation;
use crate::lists::lists_in;
use acl_listings::{
    BlockFault, File, FileFault, FileFlags, Lists, MAX_BLOCK, push_header, push_nfs4, push_posix,
};
use acl_names::Gid;
use acl_nfs4::Kind;
use std::alloc::{AllocError, Global};

/// Whether the path ends with a slash, as that of the root does.
fn ends_with_slash(path: &[u8]) -> bool
    ensures { result ≡ ends_with_slash path.now }
{
    path.ends_with(b"/")
}

/// The path of what is created in the folder with this path.
fn next_in(alloc: Global, path: &[u8]) -> Result<Vec<u8>, AllocError>
    ensures { IfOk result (λ next. next.items ≡ next_in path.now) }
{
    let mut next = Vec::from_slice(alloc, path)?;
    if ends_with_slash(path) {
        next.extend_from_slice(b"next")?;
    } else {
        next.extend_from_slice(b"/next")?;
    }
    Ok(next)
}

/// The group of what is created in the folder.
fn group_in(creation: &Creation, folder: &File<'_>) -> Gid
    ensures { result ≡ group_in creation.now (view_file folder.now) }
{
    if folder.flags.set_group_id {
        folder.group
    } else {
        creation.group
    }
}

/// The flags of what is created in a folder with these.
fn flags_in(kind: Kind, flags: FileFlags) -> FileFlags
    ensures { result ≡ flags_in kind flags }
{
    FileFlags {
        set_user_id: false,
        set_group_id: kind == Kind::Dir && flags.set_group_id,
        sticky: false,
    }
}

/// Appends the line of the flags, if the group's is set.
fn push_flags(flags: FileFlags, out: &mut Vec<u8>) -> Result<(), AllocError>
    ensures { OnOk result (out.new.items ≡ out.old.items ++ flags_text flags) }
{
    if flags.set_group_id {
        out.extend_from_slice(b"# flags: -s-\n")?;
    }
    Ok(())
}

/// Appends the lines of the lists.
fn push_lists(lists: &Lists, out: &mut Vec<u8>) -> Result<(), AllocError>
    ensures { OnOk result (out.new.items ≡ out.old.items ++ lists_text lists.now) }
{
    match lists {
        Lists::Posix { access, default } => push_posix(access, default, out),
        Lists::Nfs4 { acl } => push_nfs4(acl, out),
    }
}

/// Appends the block of a file, with its ids in decimal.
fn push_created(file: &File<'_>, out: &mut Vec<u8>) -> Result<(), AllocError>
    ensures { OnOk result (out.new.items ≡ out.old.items ++ created_text (view_file file.now)) }
{
    push_header(file.path, file.owner, file.group, out)?;
    push_flags(file.flags, out)?;
    push_lists(&file.lists, out)?;
    out.push(b'\n')?;
    Ok(())
}

/// The text, unless it is longer than a block may be.
fn if_short(text: Vec<u8>) -> Result<Vec<u8>, FileFault>
    ensures read { IfOk result (λ short. if_short text.items ≡ Ok short.items) }
    ensures refused { IfErr result (IsFaultOf (if_short text.items)) }
{
    if text.len() > MAX_BLOCK + 2 {
        return Err(FileFault::Block(BlockFault::TooLong));
    }
    Ok(text)
}

/// The block of what is created in the folder, and an empty line. Fails if it would have more than
/// 128 NFSv4 entries, or be longer than a block may be; and if memory runs out.
pub(crate) fn next_block(
    alloc: Global,
    creation: &Creation,
    folder: &File<'_>,
) -> Result<Vec<u8>, FileFault>
    ensures read { IfOk result (λ text. next_block creation.now (view_file folder.now)
        ≡ Ok text.items) }
    ensures refused { IfErr result (IsFaultOf (next_block creation.now (view_file folder.now))) }
{
    let lists = lists_in(alloc, creation, &folder.lists)?;
    let path = next_in(alloc, folder.path)?;
    let file = File {
        path: path.as_slice(),
        owner: creation.owner,
        group: group_in(creation, folder),
        flags: flags_in(creation.kind, folder.flags),
        lists,
    };
    let mut text = Vec::new(alloc);
    push_created(&file, &mut text)?;
    if_short(text)
}
