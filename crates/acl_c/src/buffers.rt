//! Lists put into the buffers of callers.

ghost use Rattle.std.specs.Prelude.{◌≡◌, if◌then◌else◌, nat_le, pos};
ghost use Rattle.acl_c.specs.Answers.{Puts};
ghost use Rattle.acl_c.specs.Status.{no_room};
ghost use Rattle.acl_wire.specs.RawAcesWriting.{raws_of};
ghost use Rattle.acl_wire.specs.Xattr.{xattr_of};

use crate::status::no_room;
use acl_nfs4::Acl4;
use acl_posix::Acl;
use acl_wire::{RawAce, write_bytes, write_raw_aces, write_xattr};

/// Reports how many items a list has, and whether a buffer has room for them: 0 if so.
pub(crate) fn report_count(count: usize, room: usize, needed: &mut usize) -> i32
    ensures count { needed.new ≡ count }
    ensures said { result ≡ (if nat_le count room then pos 0 else no_room) }
{
    *needed = count;
    if count <= room { 0 } else { no_room() }
}

/// Puts the bytes of the list into the buffer.
pub(crate) fn put_xattr(acl: &Acl, out: &mut [u8], needed: &mut usize) -> i32
    ensures { Puts (xattr_of acl.now) result out.old out.new needed.new }
{
    let count = write_xattr(acl, out);
    report_count(count, out.len(), needed)
}

/// Puts the entries of the list into the buffer.
pub(crate) fn put_raw_aces(acl: &Acl4, out: &mut [RawAce], needed: &mut usize) -> i32
    ensures { Puts (raws_of acl.now) result out.old out.new needed.new }
{
    let count = write_raw_aces(acl, out);
    report_count(count, out.len(), needed)
}

/// Puts the bytes into the buffer.
pub(crate) fn put_bytes(bytes: &[u8], out: &mut [u8], needed: &mut usize) -> i32
    ensures { Puts bytes.now result out.old out.new needed.new }
{
    let count = write_bytes(bytes, out);
    report_count(count, out.len(), needed)
}
