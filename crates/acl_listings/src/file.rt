//! Reading a file from a block.

ghost use Rattle.std.specs.Prelude.{◌≡◌, Ok, IfErr, IfOk, option_map};
ghost use Rattle.acl_listings.specs.Block.{file_by, owners_by, path_of};
ghost use Rattle.acl_listings.specs.Faults.{IsFaultOf};
ghost use Rattle.acl_listings.specs.Lines.{after_line};
ghost use Rattle.acl_listings.specs.Views.{view_file, view_header};

use crate::fault::{BlockFault, FileFault};
use crate::file_flags::{FileFlags, read_flags};
use crate::header::{Header, read_header, read_path, split_line};
use crate::limits::MAX_BLOCK;
use crate::lists::{Lists, read_lists};
use acl_names::{Gid, NameFault, ResolveNames, Uid};
use std::alloc::Global;

/// A file of a listing.
#[derive(Debug, Drop)]
pub struct File<'t> {
    /// Its path, as the listing writes it.
    pub path: &'t [u8],
    pub owner: Uid,
    pub group: Gid,
    pub flags: FileFlags,
    pub lists: Lists,
}

/// The owner and the group that a header names.
fn read_owners<N: ResolveNames>(names: &N, header: &Header<'_>) -> Result<(Uid, Gid), BlockFault>
    ensures { result ≡ owners_by (N.names names.now) (view_header header.now) }
{
    match (
        names.uid_written(header.owner),
        names.gid_written(header.group),
    ) {
        (Ok(owner), Ok(group)) => Ok((owner, group)),
        (Ok(_), Err(NameFault::Malformed)) => Err(BlockFault::BadHeader),
        (Ok(_), Err(NameFault::Unknown)) => Err(BlockFault::UnknownGroup),
        (Err(NameFault::Malformed), _) => Err(BlockFault::BadHeader),
        (Err(NameFault::Unknown), Err(NameFault::Malformed)) => Err(BlockFault::BadHeader),
        (Err(NameFault::Unknown), _) => Err(BlockFault::UnknownOwner),
    }
}

/// Reads the file of a block, and resolves its names by `names`. Fails with the first fault of the
/// block, in the order of `BlockFault`, or if memory runs out.
pub fn read_file<'t, N: ResolveNames>(
    alloc: Global,
    text: &'t [u8],
    names: &N,
) -> Result<File<'t>, FileFault>
    ensures read { IfOk result (λ file. file_by (N.names names.now) text.now
        ≡ Ok (view_file file)) }
    ensures refused { IfErr result (IsFaultOf (file_by (N.names names.now) text.now)) }
{
    if text.len() > MAX_BLOCK {
        return Err(FileFault::Block(BlockFault::TooLong));
    }
    let header = read_header(text).ok_or(BlockFault::BadHeader)?;
    let (owner, group) = read_owners(names, &header)?;
    let lists = read_lists(alloc, header.list, names)?;
    Ok(File {
        path: header.path,
        owner,
        group,
        flags: read_flags(header.list),
        lists,
    })
}

/// `path_of` and `lines_behind` of a block, by one search for the end of its first line.
pub fn path_and_lines(text: &[u8]) -> (Option<&[u8]>, &[u8])
    ensures path { option_map (λ path. path.now) result.0 ≡ path_of text.now }
    ensures lines { result.1.now ≡ after_line text.now }
{
    let (line, behind) = split_line(text);
    if line.len() > MAX_BLOCK {
        return (None, behind);
    }
    (read_path(line), behind)
}

/// The path in a block's first line, by which its faults are reported. `None` if that line isn't a
/// file's, or is longer than a block may be.
pub fn path_of(text: &[u8]) -> Option<&[u8]>
    ensures { option_map (λ path. path.now) result ≡ path_of text.now }
{
    let (path, _) = path_and_lines(text);
    path
}

/// The lines of a block after its first. If blocks aren't too long and begin with a file's line,
/// their files differ in more than the path only if these lines differ.
pub fn lines_behind(text: &[u8]) -> &[u8]
    ensures { result.now ≡ after_line text.now }
{
    let (_, behind) = split_line(text);
    behind
}
