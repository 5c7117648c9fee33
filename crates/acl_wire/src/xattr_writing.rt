//! POSIX lists as the bytes of an extended attribute.

ghost use Rattle.std.specs.Prelude.{◌≡◌, ◌≤◌, ◌+◌, ◌++◌, length, take, drop};
ghost use Rattle.acl_wire.specs.Writing.{PutsInFront};
ghost use Rattle.acl_wire.specs.Xattr.{entry_bytes, id_number, tag_number, xattr_of};

use crate::xattr_reading::VERSION;
use acl_posix::{Acl, Entry, MAX_ENTRIES, Tag};
use bitflags::Flags;

/// The bytes of the version.
pub const XATTR_HEADER_LEN: usize = 4;

/// The bytes of an entry.
pub const XATTR_ENTRY_LEN: usize = 8;

/// The id of an entry that names nobody.
const UNDEFINED_ID: u32 = 0xffff_ffff;

fn tag_number(tag: &Tag) -> u16
    ensures { result ≡ tag_number tag.now }
{
    match *tag {
        Tag::UserObj => 0x01,
        Tag::User(_) => 0x02,
        Tag::GroupObj => 0x04,
        Tag::Group(_) => 0x08,
        Tag::Mask => 0x10,
        Tag::Other => 0x20,
    }
}

fn id_number(tag: &Tag) -> u32
    ensures { result ≡ id_number tag.now }
{
    match *tag {
        Tag::User(uid) => uid.value(),
        Tag::Group(gid) => gid.value(),
        _ => UNDEFINED_ID,
    }
}

/// The eight bytes of an entry.
fn entry_bytes(entry: &Entry) -> [u8; XATTR_ENTRY_LEN]
    ensures { result ≡ entry_bytes entry.now }
{
    let tag = tag_number(&entry.tag).to_le_bytes();
    let perms = u16::from(entry.perms.bits()).to_le_bytes();
    let id = id_number(&entry.tag).to_le_bytes();
    [
        tag[0], tag[1], perms[0], perms[1], id[0], id[1], id[2], id[3],
    ]
}

/// Puts bytes at a place.
pub(crate) fn put_at(out: &mut [u8], at: usize, bytes: &[u8])
    requires { at + length bytes.now ≤ length out.old }
    ensures { out.new ≡ take at out.old ++ (bytes.now ++ drop (at + length bytes.now) out.old) }
{
    let end = at + bytes.len();
    out[at..end].copy_from_slice(bytes);
}

/// Puts the list in the binary form in front of `out`, if it has room for it, and else leaves `out`
/// as it was. The answer is how many bytes the list has.
pub fn write_xattr(acl: &Acl, out: &mut [u8]) -> usize
    ensures { PutsInFront (xattr_of acl.now) result out.old out.new }
{
    let entries = acl.entries();
    let len = XATTR_HEADER_LEN + XATTR_ENTRY_LEN * entries.len();
    if len <= out.len() {
        put_entries(entries, out);
    }
    len
}

fn put_entries(entries: &[Entry], out: &mut [u8])
    requires count { length entries.now ≤ MAX_ENTRIES }
    requires room { length (xattr_of entries.now) ≤ length out.old }
    ensures { out.new ≡ xattr_of entries.now ++ drop (length (xattr_of entries.now)) out.old }
{
    put_at(out, 0, &VERSION.to_le_bytes());
    for (place, entry) in entries.iter().enumerate() {
        put_at(
            out,
            XATTR_HEADER_LEN + XATTR_ENTRY_LEN * place,
            &entry_bytes(entry),
        );
    }
}
