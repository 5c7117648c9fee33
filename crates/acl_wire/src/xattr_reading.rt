//! Reading POSIX lists from the bytes of an extended attribute.

ghost use Rattle.std.specs.Prelude.{◌≡◌, ◌≢◌, ◌≤◌, ◌+◌, ◌*◌, length, IfErr, IfOk, IsOk};
ghost use Rattle.acl_posix.specs.declared.limits.TheConstants.{INLINE_ENTRIES, MAX_ENTRIES};
ghost use Rattle.acl_wire.specs.Numbers.{Reads};
ghost use Rattle.acl_wire.specs.XattrReading.{Gives, body_of, entries_at, entries_of, fields_at};
ghost use Rattle.acl_wire.specs.XattrReading.{entry_of, tag_of};

use crate::numbers::u32_at;
use crate::{PosixError, PosixFault};
use acl_names::{Gid, Uid};
use acl_posix::{Entries, Entry, MAX_ENTRIES, Perms, Tag};
use arrayvec::ArrayVec;
use bitflags::Flags;
use std::alloc::{AllocError, Global};

/// The version of the form.
pub(crate) const VERSION: u32 = 2;

/// The tag of this number, with this id if it names someone.
fn tag_of(number: u16, id: u32) -> Result<Tag, PosixFault>
    ensures { result ≡ tag_of number id }
{
    match number {
        0x01 => Ok(Tag::UserObj),
        0x02 => match Uid::new(id) {
            Some(uid) => Ok(Tag::User(uid)),
            None => Err(PosixFault::Id),
        },
        0x04 => Ok(Tag::GroupObj),
        0x08 => match Gid::new(id) {
            Some(gid) => Ok(Tag::Group(gid)),
            None => Err(PosixFault::Id),
        },
        0x10 => Ok(Tag::Mask),
        0x20 => Ok(Tag::Other),
        _ => Err(PosixFault::Tag),
    }
}

/// What an entry's bytes are.
#[derive(Clone, Copy)]
pub(crate) struct Fields {
    pub tag: u16,
    pub perms: u16,
    pub id: u32,
}

/// The entry of these fields.
#[tactic(auto, unfolding(crate::specs::XattrReading::entry_of))]
fn entry_of(fields: Fields) -> Result<Entry, PosixFault>
    ensures { result ≡ entry_of fields }
{
    let tag = tag_of(fields.tag, fields.id)?;
    if fields.perms >= 8 {
        return Err(PosixFault::Perms);
    }
    Ok(Entry {
        tag,
        perms: Perms::from_bits_retain(fields.perms as u8),
    })
}

/// The fields that the bytes begin with, and what stands behind them. One test of the length serves
/// all three.
#[tactic(auto, unfolding(crate::specs::XattrReading::fields_at))]
pub(crate) fn fields_at(bytes: &[u8]) -> Result<(Fields, &[u8]), PosixFault>
    ensures { Reads (λ x. (x.0, x.1.now)) result (fields_at bytes.now) }
{
    if bytes.len() < 8 {
        return Err(PosixFault::Size);
    }
    let (front, rest) = bytes.split_at(8);
    let fields = Fields {
        tag: u16::from_le_bytes([front[0], front[1]]),
        perms: u16::from_le_bytes([front[2], front[3]]),
        id: u32::from_le_bytes([front[4], front[5], front[6], front[7]]),
    };
    Ok((fields, rest))
}

/// So many entries, in their order there.
fn entries_at(count: usize, bytes: &[u8]) -> Result<ArrayVec<Entry, MAX_ENTRIES>, PosixFault>
    requires { count ≤ MAX_ENTRIES }
    ensures value { Reads (λ entries. entries.items) result (entries_at count bytes.now) }
    ensures count { IfOk result (λ entries. length entries.items ≡ count) }
{
    let mut entries = ArrayVec::new();
    let mut rest = bytes;
    for _ in 0..count {
        let (fields, behind) = fields_at(rest)?;
        let entry = entry_of(fields)?;
        entries.push(entry);
        rest = behind;
    }
    Ok(entries)
}

/// The entries behind the version.
fn body_of(bytes: &[u8]) -> Result<ArrayVec<Entry, MAX_ENTRIES>, PosixFault>
    ensures value { Reads (λ entries. entries.items) result (body_of bytes.now) }
    ensures count { IfOk result (λ entries. length bytes.now ≡ 8 * length entries.items) }
{
    if bytes.len() % 8 != 0 {
        return Err(PosixFault::Size);
    }
    let count = bytes.len() / 8;
    if count > MAX_ENTRIES {
        return Err(PosixFault::TooMany);
    }
    entries_at(count, bytes)
}

/// The entries of the bytes, as `read_xattr` says. They have room where they are, so it takes no
/// memory.
#[tactic(auto, unfolding(crate::specs::XattrReading::entries_of))]
pub(crate) fn entries_of(bytes: &[u8]) -> Result<ArrayVec<Entry, MAX_ENTRIES>, PosixFault>
    ensures value { Reads (λ entries. entries.items) result (entries_of bytes.now) }
    ensures count { IfOk result (λ entries. length bytes.now ≡ 4 + 8 * length entries.items) }
{
    let (number, rest) = u32_at(bytes)?;
    if number != VERSION {
        return Err(PosixFault::Version);
    }
    body_of(rest)
}

/// The entries, for a list that they may make.
fn gathered(alloc: Global, read: &[Entry]) -> Result<Entries, AllocError>
    requires { length read.now ≤ MAX_ENTRIES }
    ensures value { IfOk result (λ entries. entries ≡ read.now) }
    ensures short { length read.now ≤ INLINE_ENTRIES → IsOk result }
{
    let mut entries = Entries::with_capacity(alloc, read.len())?;
    for entry in read {
        let Ok(()) = entries.push(*entry) else {
            return Err(AllocError);
        };
    }
    Ok(entries)
}

/// The entries of a POSIX list in the binary form of the extended attributes
/// `system.posix_acl_access` and `system.posix_acl_default`, in their order there; the id of an
/// entry that names nobody plays no part. They needn't be a valid list. Of several faults the first
/// is reported, as `PosixFault` has them, entry by entry from the third on. Memory runs out for
/// more than `INLINE_ENTRIES` entries alone.
pub fn read_xattr(alloc: Global, bytes: &[u8]) -> Result<Entries, PosixError>
    ensures value { Gives (λ entries. entries) result (entries_of bytes.now) }
    ensures count { IfOk result (λ entries. length bytes.now ≡ 4 + 8 * length entries) }
    ensures short { length bytes.now ≤ 4 + 8 * INLINE_ENTRIES
        → IfErr result (λ error. error ≢ PosixError.Memory) }
{
    let read = entries_of(bytes)?;
    Ok(gathered(alloc, read.as_slice())?)
}
