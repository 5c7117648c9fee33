//! The fields of a command.

ghost use Rattle.std.specs.Prelude.{◌≡◌};
ghost use Rattle.acl_lang.specs.Fields.{acl_of, aces_of, default_of, kind_of, mask_of, mode_of};
ghost use Rattle.acl_lang.specs.Fields.{path_of, perms_of, user_of};
ghost use Rattle.acl_lang.specs.Refusals.{ReadsAs};

use crate::refusal::Refusal;
use acl_names::{Directory, Uid, WrittenId};
use acl_nfs4::{Acl4, Kind, Mask, read_aces, read_letters};
use acl_posix::{Acl, Mode, Perms, read_perms};
use acl_tree::{Boxed, LineFault, Path};
use std::alloc::Global;

pub(crate) fn read_path(alloc: Global, text: &[u8]) -> Result<Path, Refusal>
    ensures { ReadsAs (path_of text.now) result }
{
    Ok(Path::read(alloc, text)?)
}

pub(crate) fn read_kind(text: &[u8]) -> Result<Kind, LineFault>
    ensures { result ≡ kind_of text.now }
{
    match text {
        b"file" => Ok(Kind::File),
        b"dir" => Ok(Kind::Dir),
        _ => Err(LineFault::Syntax),
    }
}

/// The mode that three octal digits write, with an optional `0` before them.
pub(crate) fn read_mode(text: &[u8]) -> Result<Mode, LineFault>
    ensures { result ≡ mode_of text.now }
{
    let digits = match text {
        [b'0', digits @ ..] if text.len() == 4 => digits,
        _ => text,
    };
    Mode::from_octal(digits).ok_or(LineFault::BadMode)
}

/// The user whom a name or a decimal means.
pub(crate) fn read_user(directory: &Directory, text: &[u8]) -> Result<Uid, LineFault>
    ensures { result ≡ user_of directory.now text.now }
{
    let written = WrittenId::read(text).ok_or(LineFault::UnknownName)?;
    directory.uid(written).ok_or(LineFault::UnknownName)
}

pub(crate) fn read_perms_field(text: &[u8]) -> Result<Perms, LineFault>
    ensures { result ≡ perms_of text.now }
{
    read_perms(text).ok_or(LineFault::BadPerms)
}

pub(crate) fn read_mask(text: &[u8]) -> Result<Mask, LineFault>
    ensures { result ≡ mask_of text.now }
{
    read_letters(text).ok_or(LineFault::BadPerms)
}

/// Reads a POSIX access control list from a text.
pub(crate) fn read_acl(alloc: Global, text: &[u8], directory: &Directory) -> Result<Acl, Refusal>
    ensures { ReadsAs (acl_of directory.now text.now) result }
{
    Ok(acl_posix::read_acl(alloc, text, directory)?)
}

/// `none`, or an access control list.
pub(crate) fn read_default(
    alloc: Global,
    text: &[u8],
    directory: &Directory,
) -> Result<Option<Boxed<Acl>>, Refusal>
    ensures { ReadsAs (default_of directory.now text.now) result }
{
    if text == b"none".as_slice() {
        return Ok(None);
    }
    let acl = read_acl(alloc, text, directory)?;
    Ok(Some(Boxed::new(alloc, acl)?))
}

/// Reads an NFSv4 access control list from a text.
pub(crate) fn read_acl4(alloc: Global, text: &[u8], directory: &Directory) -> Result<Acl4, Refusal>
    ensures { ReadsAs (aces_of directory.now text.now) result }
{
    Ok(read_aces(alloc, text, directory)?)
}
