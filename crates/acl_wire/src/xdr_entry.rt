//! An entry of a list in XDR, maybe with its name, in a caller's buffer. It takes no memory.

ghost use Rattle.std.specs.Prelude.{◌≡◌, ◌≤◌, ◌++◌, ◌-◌, decimal, drop, length, replicate};
ghost use Rattle.std.specs.Int.{w32, to_be_bytes};
ghost use Rattle.acl_wire.specs.Writing.{PutsInFront};
ghost use Rattle.acl_wire.specs.Xdr.{padded};
ghost use Rattle.acl_wire.specs.XdrNames.{entry_bytes, entry_of, named_bytes};
ghost use Rattle.acl_wire.specs.XdrRaws.{PutsItems};
ghost use Rattle.acl_wire.specs.XdrWritingSteps.{raw_bytes};

use crate::raw_ace::tidied;
use crate::xattr_writing::put_at;
use crate::xdr::padded;
use crate::xdr_names::{BY_NAME, HEAD_LEN, checked, tidied_named, whom};
use crate::{Nfs4Fault, RawAce};
use itoa::Buffer;

/// So many zeros, at most 3.
fn zeros(count: usize) -> &'static [u8]
    requires { count ≤ 3 }
    ensures { result.now ≡ replicate count 0 }
{
    match count {
        0 => &[],
        1 => &[0],
        2 => &[0, 0],
        _ => &[0, 0, 0],
    }
}

/// How many zeros fill a string of this length up.
fn lacking(len: usize) -> usize
    requires { len ≤ 0xffffffff }
    ensures value { result ≡ padded len - len }
    ensures few { result ≤ 3 }
{
    padded(len) - len
}

/// The bytes in front of a string: the entry's numbers, and the string's length.
fn head(raw: &RawAce, len: u32) -> [u8; 16]
    ensures { result ≡ to_be_bytes w32 raw.now.kind ++ (to_be_bytes w32 raw.now.flags
        ++ (to_be_bytes w32 raw.now.mask ++ to_be_bytes w32 len)) }
{
    let kind = raw.kind.to_be_bytes();
    let flags = raw.flags.to_be_bytes();
    let mask = raw.mask.to_be_bytes();
    let len = len.to_be_bytes();
    [
        kind[0], kind[1], kind[2], kind[3], flags[0], flags[1], flags[2], flags[3], mask[0],
        mask[1], mask[2], mask[3], len[0], len[1], len[2], len[3],
    ]
}

#[inline(always)]
fn fill(raw: &RawAce, text: &[u8], out: &mut [u8])
    requires few { length text.now ≤ 0xffffffff }
    requires room { length (entry_bytes raw.now text.now) ≤ length out.old }
    ensures { out.new ≡ entry_bytes raw.now text.now
        ++ drop (length (entry_bytes raw.now text.now)) out.old }
{
    put_at(out, 0, &head(raw, text.len() as u32));
    put_at(out, HEAD_LEN, text);
    put_at(out, HEAD_LEN + text.len(), zeros(lacking(text.len())));
}

/// Puts the entry with this string in front of the buffer, if there is room for it.
#[inline(always)]
fn put_entry(raw: &RawAce, text: &[u8], out: &mut [u8]) -> usize
    requires { length text.now ≤ 0xffffffff }
    ensures { PutsInFront (entry_bytes raw.now text.now) result out.old out.new }
{
    let len = HEAD_LEN + padded(text.len());
    if len <= out.len() {
        fill(raw, text, out);
    }
    len
}

/// Puts the entry with this id.
#[inline(always)]
fn put_id(raw: &RawAce, id: u32, out: &mut [u8]) -> usize
    ensures { PutsInFront (entry_bytes raw.now (decimal id)) result out.old out.new }
{
    put_entry(raw, Buffer::new().format(id).as_bytes(), out)
}

/// Puts the entry of these numbers, which can be decided by, in front of the buffer, if there is
/// room for it.
#[inline(always)]
pub(crate) fn put_raw(raw: &RawAce, out: &mut [u8]) -> usize
    ensures { PutsInFront (raw_bytes raw.now) result out.old out.new }
{
    let numbers = tidied(raw);
    match raw.special {
        1 => put_entry(&numbers, b"OWNER@", out),
        2 => put_entry(&numbers, b"GROUP@", out),
        3 => put_entry(&numbers, b"EVERYONE@", out),
        _ => put_id(&numbers, raw.id, out),
    }
}

/// Puts the entry with this name, if it is one.
fn put_named(raw: &RawAce, name: &[u8], out: &mut [u8]) -> Result<usize, Nfs4Fault>
    ensures { PutsItems (named_bytes raw.now name.now) result out.old out.new }
{
    let (special, _) = whom(name)?;
    if special != BY_NAME {
        return Err(Nfs4Fault::UnknownName);
    }
    Ok(put_entry(raw, name, out))
}

/// Puts an entry in XDR in front of `out`, if it has room for it, and else leaves `out` as it was.
/// The answer is how many bytes the entry has, or why it is none.
///
/// If its special number is `BY_NAME`, its who is this name, which is the fault `UnknownName`
/// unless `xdr_next` reads it as one. Of any other entry the name plays no part.
#[tactic(auto, unfolding(crate::specs::XdrNames::entry_of))]
pub fn put_xdr_entry(raw: &RawAce, name: &[u8], out: &mut [u8]) -> Result<usize, Nfs4Fault>
    ensures { PutsItems (entry_of raw.now name.now) result out.old out.new }
{
    checked(raw)?;
    if raw.special == BY_NAME {
        return put_named(&tidied_named(raw), name, out);
    }
    Ok(put_raw(raw, out))
}
