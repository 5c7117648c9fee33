//! NFSv4 lists in XDR (RFC 4506): the bytes of the extended attribute `system.nfs4_acl`.

ghost use Rattle.std.specs.Prelude.{◌≡◌, ◌≢◌, ◌≤◌, IfErr, IfOk, None, length};
ghost use Rattle.acl_names.specs.Ids.{decimal_value};
ghost use Rattle.acl_nfs4.specs.declared.limits.TheConstants.{INLINE_ACES, MAX_ACES};
ghost use Rattle.acl_wire.specs.Numbers.{Reads};
ghost use Rattle.acl_wire.specs.RawAces.{Answers};
ghost use Rattle.acl_wire.specs.Xdr.{all_of, number_at, padded, raw_at, text_at, who_in};
ghost use Rattle.acl_wire.specs.Xdr.{AnnouncesFew, xdr_list_of};

use crate::raw_ace::{ace_of_raw, push};
use crate::{Nfs4Error, Nfs4Fault, RawAce};
use acl_names::read_decimal;
use acl_nfs4::{Acl4, MAX_ACES};
use std::alloc::Global;

/// The number in the first four bytes, highest first, and what stands behind them.
#[inline(always)]
pub(crate) fn number_at(bytes: &[u8]) -> Result<(u32, &[u8]), Nfs4Fault>
    ensures { Reads (λ x. (x.0, x.1.now)) result (number_at bytes.now) }
{
    if bytes.len() < 4 {
        return Err(Nfs4Fault::Size);
    }
    let (front, rest) = bytes.split_at(4);
    let number = u32::from_be_bytes([front[0], front[1], front[2], front[3]]);
    Ok((number, rest))
}

/// A length in whole groups of four bytes.
#[inline(always)]
pub(crate) fn padded(len: usize) -> usize
    requires { len ≤ 0xffffffff }
    ensures { result ≡ padded len }
{
    (len + 3) / 4 * 4
}

/// The string that the bytes begin with, and what stands behind it and its padding.
#[inline(always)]
#[tactic(auto, unfolding(crate::specs::Xdr::text_at))]
pub(crate) fn text_at(bytes: &[u8]) -> Result<(&[u8], &[u8]), Nfs4Fault>
    ensures few { IfOk result (λ x. length x.0.now ≤ 0xffffffff) }
    ensures value { Reads (λ x. (x.0.now, x.1.now)) result (text_at bytes.now) }
{
    let (len, rest) = number_at(bytes)?;
    let len = len as usize;
    let room = padded(len);
    if rest.len() < room {
        return Err(Nfs4Fault::Size);
    }
    Ok((&rest[..len], &rest[room..]))
}

/// Which of the three special identifiers the text is, if it is no id.
#[inline(never)]
fn special_in(text: &[u8]) -> Result<(u32, u32), Nfs4Fault>
    ensures { decimal_value text.now ≡ None → result ≡ who_in text.now }
{
    if text == b"OWNER@".as_slice() {
        Ok((1, 0))
    } else if text == b"GROUP@".as_slice() {
        Ok((2, 0))
    } else if text == b"EVERYONE@".as_slice() {
        Ok((3, 0))
    } else {
        Err(Nfs4Fault::UnknownName)
    }
}

/// What a who stands for: one of the three, or the id in decimal. Ids come first: most entries of
/// long lists have one.
#[inline(always)]
pub(crate) fn who_in(text: &[u8]) -> Result<(u32, u32), Nfs4Fault>
    ensures { result ≡ who_in text.now }
{
    match read_decimal(text) {
        Some(id) => Ok((0, id)),
        None => special_in(text),
    }
}

/// The entry that the bytes begin with, and what stands behind it.
#[inline(always)]
#[tactic(auto, unfolding(crate::specs::Xdr::raw_at))]
pub(crate) fn raw_at(bytes: &[u8]) -> Result<(RawAce, &[u8]), Nfs4Fault>
    ensures { Reads (λ x. (x.0, x.1.now)) result (raw_at bytes.now) }
{
    let (kind, rest) = number_at(bytes)?;
    let (flags, rest) = number_at(rest)?;
    let (mask, rest) = number_at(rest)?;
    let (text, rest) = text_at(rest)?;
    let (special, id) = who_in(text)?;
    Ok((
        RawAce {
            kind,
            flags,
            mask,
            special,
            id,
        },
        rest,
    ))
}

/// So many entries, which are all of the bytes.
fn all_of(alloc: Global, count: u32, bytes: &[u8]) -> Result<Acl4, Nfs4Error>
    requires { count ≤ MAX_ACES }
    ensures value { Answers (λ aces. aces) result (all_of count bytes.now) }
    ensures short { count ≤ INLINE_ACES → IfErr result (λ error. error ≢ Nfs4Error.Memory) }
{
    let mut aces = Acl4::empty(alloc);
    let mut rest = bytes;
    for _ in 0..count {
        let (raw, behind) = raw_at(rest)?;
        let ace = ace_of_raw(&raw)?;
        push(&mut aces, ace)?;
        rest = behind;
    }
    if !rest.is_empty() {
        return Err(Nfs4Error::Fault(Nfs4Fault::Size));
    }
    Ok(aces)
}

/// The NFSv4 list of the bytes, in which a who is one of the three special identifiers or an id in
/// decimal. Memory runs out for more than `INLINE_ACES` entries alone.
#[tactic(auto, unfolding(crate::specs::Xdr::xdr_list_of))]
pub fn acl4_of_xdr(alloc: Global, bytes: &[u8]) -> Result<Acl4, Nfs4Error>
    ensures value { Answers (λ aces. aces) result (xdr_list_of bytes.now) }
    ensures short { AnnouncesFew bytes.now → IfErr result (λ error. error ≢ Nfs4Error.Memory) }
{
    let (count, rest) = number_at(bytes)?;
    if count > MAX_ACES as u32 {
        return Err(Nfs4Error::Fault(Nfs4Fault::TooMany));
    }
    all_of(alloc, count, rest)
}
