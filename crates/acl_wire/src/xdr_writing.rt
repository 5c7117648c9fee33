//! NFSv4 lists written in XDR (RFC 4506) in a caller's buffer. It takes no memory: the entries are
//! read once to know that they are a list and how long its bytes are, and once more to put them.

ghost use Rattle.std.specs.Prelude.{◌≡◌, ◌≤◌, ◌<◌, ◌+◌, ◌*◌, ◌^◌, ◌++◌, decimal, drop, length};
ghost use Rattle.std.specs.Prelude.{take};
ghost use Rattle.std.specs.List.{flat_map};
ghost use Rattle.acl_wire.specs.Writing.{PutsInFront};
ghost use Rattle.acl_wire.specs.Xdr.{padded};
ghost use Rattle.acl_wire.specs.XdrRaws.{PutsItems};
ghost use Rattle.acl_wire.specs.XdrWriting.{raws_xdr_of};
ghost use Rattle.acl_wire.specs.XdrWritingSteps.{list_bytes, raw_bytes, text_by};

use crate::values::raws_fault;
use crate::xattr_writing::put_at;
use crate::xdr_entry::put_raw;
use crate::xdr_names::HEAD_LEN;
use crate::{Nfs4Fault, RawAce};

/// The bytes of the number of entries.
const COUNT_LEN: usize = 4;

/// How many bytes an id takes in decimal, up to a whole group of four.
#[inline(always)]
fn id_len(id: u32) -> usize
    ensures value { result ≡ padded (length (decimal id)) }
    ensures few { result ≤ 12 }
{
    if id < 10_000 {
        4
    } else if id < 100_000_000 {
        8
    } else {
        12
    }
}

/// How many bytes the string that says who takes, up to a whole group of four.
#[inline(always)]
fn text_len(raw: &RawAce) -> usize
    ensures value { result ≡ padded (length (text_by raw.now.special raw.now.id)) }
    ensures few { result ≤ 12 }
{
    match raw.special {
        1 => 8,
        2 => 8,
        3 => 12,
        _ => id_len(raw.id),
    }
}

/// How many bytes the entries take.
fn entries_len(raws: &[RawAce]) -> usize
    requires { length raws.now < 2 ^ 32 }
    ensures value { result ≡ length (flat_map raw_bytes raws.now) }
    ensures few { result ≤ 28 * length raws.now }
{
    let mut len = 0;
    for raw in raws {
        len += HEAD_LEN + text_len(raw);
    }
    len
}

/// Puts the entry at a place where there is room for it. The answer is the place behind it.
#[inline(always)]
fn put_raw_at(raw: &RawAce, out: &mut [u8], at: usize) -> usize
    requires { at + length (raw_bytes raw.now) ≤ length out.old }
    ensures put { out.new ≡ take at out.old
        ++ (raw_bytes raw.now ++ drop (at + length (raw_bytes raw.now)) out.old) }
    ensures end { result ≡ at + length (raw_bytes raw.now) }
{
    at + put_raw(raw, &mut out[at..])
}

/// Puts the entries behind their number, where there is room for all.
fn put_all(raws: &[RawAce], out: &mut [u8])
    requires few { length raws.now < 2 ^ 32 }
    requires room { length (list_bytes raws.now) ≤ length out.old }
    ensures { out.new ≡ list_bytes raws.now ++ drop (length (list_bytes raws.now)) out.old }
{
    put_at(out, 0, &(raws.len() as u32).to_be_bytes());
    let mut at = COUNT_LEN;
    for raw in raws {
        at = put_raw_at(raw, out, at);
    }
}

/// Puts the list in front of the buffer, if there is room for it.
fn put_list(raws: &[RawAce], out: &mut [u8]) -> usize
    requires { length raws.now < 2 ^ 32 }
    ensures { PutsInFront (list_bytes raws.now) result out.old out.new }
{
    let len = COUNT_LEN + entries_len(raws);
    if len <= out.len() {
        put_all(raws, out);
    }
    len
}

/// Puts the NFSv4 list of the entries in XDR, as `put_xdr_raws` reads it, in front of `out`, if it
/// has room for it, and else leaves `out` as it was. The answer is how many bytes the list has, or
/// what is wrong with the first entry that can't be decided by. More entries than XDR can count are
/// the fault `TooMany`, before all others. All bits stay that have a meaning.
#[tactic(auto, unfolding(crate::specs::XdrWriting::raws_xdr_of))]
pub fn write_xdr(raws: &[RawAce], out: &mut [u8]) -> Result<usize, Nfs4Fault>
    ensures { PutsItems (raws_xdr_of raws.now) result out.old out.new }
{
    if raws.len() > u32::MAX as usize {
        return Err(Nfs4Fault::TooMany);
    }
    if let Some(fault) = raws_fault(raws) {
        return Err(fault);
    }
    Ok(put_list(raws, out))
}
