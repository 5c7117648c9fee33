//! Printing the place of a setup's fault.
ghost use Rattle.std.specs.Prelude.{◌≡◌, ◌++◌, OnOk, decimal};
ghost use Rattle.acl_lint.specs.SetupPlace.{key_text, setup_place, spot_text};

use acl_setup::{Key, SetupError, Spot};
use itoa::Buffer;
use std::alloc::AllocError;

/// Appends an index between two texts.
fn push_indexed(
    before: &[u8],
    index: usize,
    behind: &[u8],
    out: &mut Vec<u8>,
) -> Result<(), AllocError>
    ensures { OnOk result
        (out.new.items ≡ out.old.items ++ (before.now ++ decimal index ++ behind.now)) }
{
    out.extend_from_slice(before)?;
    out.extend_from_slice(Buffer::new().format(index).as_bytes())?;
    out.extend_from_slice(behind)
}

/// Appends the key as TOML writes it.
fn push_key(key: Key, out: &mut Vec<u8>) -> Result<(), AllocError>
    ensures { OnOk result (out.new.items ≡ out.old.items ++ key_text key) }
{
    match key {
        Key::Domain => out.extend_from_slice(b"domain"),
        Key::Umask => out.extend_from_slice(b"umask"),
        Key::Root => out.extend_from_slice(b"root"),
        Key::RootOwner => out.extend_from_slice(b"root.owner"),
        Key::RootGroup => out.extend_from_slice(b"root.group"),
        Key::RootMode => out.extend_from_slice(b"root.mode"),
        Key::RootStyle => out.extend_from_slice(b"root.style"),
        Key::Users => out.extend_from_slice(b"user"),
        Key::User(index) => push_indexed(b"user[", index, b"]", out),
        Key::UserName(index) => push_indexed(b"user[", index, b"].name", out),
        Key::UserUid(index) => push_indexed(b"user[", index, b"].uid", out),
        Key::UserGroups(index) => push_indexed(b"user[", index, b"].groups", out),
        Key::UserGroup(index, item) => {
            push_indexed(b"user[", index, b"].groups", out)?;
            push_indexed(b"[", item, b"]", out)
        }
        Key::Groups => out.extend_from_slice(b"group"),
        Key::Group(index) => push_indexed(b"group[", index, b"]", out),
        Key::GroupName(index) => push_indexed(b"group[", index, b"].name", out),
        Key::GroupGid(index) => push_indexed(b"group[", index, b"].gid", out),
    }
}

/// Appends `LINE:COLUMN`.
fn push_spot(spot: Spot, out: &mut Vec<u8>) -> Result<(), AllocError>
    ensures { OnOk result (out.new.items ≡ out.old.items ++ spot_text spot) }
{
    out.extend_from_slice(Buffer::new().format(spot.line).as_bytes())?;
    out.push(b':')?;
    out.extend_from_slice(Buffer::new().format(spot.column).as_bytes())
}

/// Appends the place of the fault: the spot in a text that isn't a document, and else the key.
pub(crate) fn push_place(error: SetupError, out: &mut Vec<u8>) -> Result<(), AllocError>
    ensures { OnOk result (out.new.items ≡ out.old.items ++ setup_place error) }
{
    match error {
        SetupError::NotToml(spot) => push_spot(spot, out),
        SetupError::BadField(key) | SetupError::Parts(_, key) => push_key(key, out),
        SetupError::Memory => {
            out.push(b'-')?;
            Ok(())
        }
    }
}
