//! Lists in XDR, read one entry after the other where they stand, each with the who that a server
//! may know as a name. It takes no memory.

ghost use Rattle.std.specs.Prelude.{◌≡◌, ◌≤◌, ◌&&◌, ◌==◌, not, IfOk, length};
ghost use Rattle.std.specs.Char.{is_ascii_digit};
ghost use Rattle.std.specs.List.{list_all};
ghost use Rattle.acl_wire.specs.Numbers.{Reads};
ghost use Rattle.acl_wire.specs.XdrNames.{begun, checked, entry_at, is_name, next_at};
ghost use Rattle.acl_wire.specs.XdrNames.{next_of, tidied_named, whom};

use crate::raw_ace::{tidied, value_of};
use crate::xdr::{number_at, padded, text_at, who_in};
use crate::{Nfs4Fault, RawAce};
use acl_nfs4::Ace;

/// The special number of an entry whose who is a name. No other call takes it.
pub const BY_NAME: u32 = 4;

/// Bytes of an entry in front of its who.
pub(crate) const HEAD_LEN: usize = 16;

/// Where the entries of a list in XDR are read. All is 0 before the first.
#[repr(C)]
#[derive(Clone, Copy, Debug, Default, PartialEq, Eq)]
pub struct XdrPlace {
    /// Where the next entry stands.
    pub at: usize,
    /// How many entries are left.
    pub left: usize,
    /// Where the who of the entry that was read stands.
    pub who_at: usize,
    /// How many bytes this who has.
    pub who_len: usize,
}

fn has_no_zero(text: &[u8]) -> bool
    ensures { result ≡ list_all (λ byte. not (byte == 0)) text.now }
{
    text.iter().all(|byte| *byte != 0)
}

fn is_of_digits(text: &[u8]) -> bool
    ensures { result ≡ list_all is_ascii_digit text.now }
{
    text.iter().all(|byte| byte.is_ascii_digit())
}

/// Whether the string may be a name.
fn is_name(text: &[u8]) -> bool
    ensures { result ≡ is_name text.now }
{
    text.len() <= u32::MAX as usize && has_no_zero(text) && !is_of_digits(text)
}

/// Whom the string says: a special number, and an id.
pub(crate) fn whom(text: &[u8]) -> Result<(u32, u32), Nfs4Fault>
    ensures { result ≡ whom text.now }
{
    match who_in(text) {
        Ok(who) => Ok(who),
        Err(fault) => {
            if is_name(text) {
                Ok((BY_NAME, 0))
            } else {
                Err(fault)
            }
        }
    }
}

/// The entry that is decided by. Where its who is a name, the other numbers are to be those of one.
pub(crate) fn checked(raw: &RawAce) -> Result<Ace, Nfs4Fault>
    ensures { result ≡ checked raw.now }
{
    if raw.special == BY_NAME {
        value_of(&RawAce { special: 1, ..*raw })
    } else {
        value_of(raw)
    }
}

/// The numbers of the entry, less what plays no part.
pub(crate) fn tidied_named(raw: &RawAce) -> RawAce
    ensures { result ≡ tidied_named raw.now }
{
    if raw.special == BY_NAME {
        RawAce { id: 0, ..*raw }
    } else {
        tidied(raw)
    }
}

/// The entry that the bytes begin with, and its who.
#[tactic(auto, unfolding(crate::specs::XdrNames::entry_at))]
fn entry_at(bytes: &[u8]) -> Result<(RawAce, &[u8]), Nfs4Fault>
    ensures value { Reads (λ x. (x.0, x.1.now)) result (entry_at bytes.now) }
    ensures few { IfOk result (λ x. length x.1.now ≤ 0xffffffff) }
{
    let (kind, rest) = number_at(bytes)?;
    let (flags, rest) = number_at(rest)?;
    let (mask, rest) = number_at(rest)?;
    let (text, _) = text_at(rest)?;
    let (special, id) = whom(text)?;
    let raw = RawAce {
        kind,
        flags,
        mask,
        special,
        id,
    };
    checked(&raw)?;
    Ok((tidied_named(&raw), text))
}

/// Where entries are read, and how many are left.
fn begun(bytes: &[u8], place: &XdrPlace) -> Result<(usize, usize), Nfs4Fault>
    ensures { result ≡ begun bytes.now place.now }
{
    if place.at != 0 {
        return Ok((place.at, place.left));
    }
    let (count, _) = number_at(bytes)?;
    Ok((4, count as usize))
}

/// The entry at a place, and what is behind it.
fn next_at(bytes: &[u8], at: usize, left: usize) -> Result<(Option<RawAce>, XdrPlace), Nfs4Fault>
    ensures { result ≡ next_at bytes.now at left }
{
    if at > bytes.len() {
        return Err(Nfs4Fault::Size);
    }
    if left == 0 {
        return end_at(bytes, at);
    }
    let (raw, who) = entry_at(&bytes[at..])?;
    let place = XdrPlace {
        at: at + HEAD_LEN + padded(who.len()),
        left: left - 1,
        who_at: at + HEAD_LEN,
        who_len: who.len(),
    };
    Ok((Some(raw), place))
}

/// No entry, if nothing stands behind the last.
fn end_at(bytes: &[u8], at: usize) -> Result<(Option<RawAce>, XdrPlace), Nfs4Fault>
    ensures { result ≡ next_at bytes.now at 0 }
{
    if at != bytes.len() {
        return Err(Nfs4Fault::Size);
    }
    let place = XdrPlace {
        at,
        left: 0,
        who_at: at,
        who_len: 0,
    };
    Ok((None, place))
}

/// The next entry of a list in XDR, and the place behind it. There is none behind the last, if all
/// of the bytes were read; else they are the fault `Size`.
///
/// The entry is as `put_xdr_raws` has it if its who is an id or one of the three. Else its who is
/// a name, and its special number is `BY_NAME`. What has a byte 0, or nothing but digits, is
/// no name: `UnknownName`. What fills a string up isn't looked at.
#[tactic(auto, unfolding(crate::specs::XdrNames::next_of))]
pub fn xdr_next(bytes: &[u8], place: &XdrPlace) -> Result<(Option<RawAce>, XdrPlace), Nfs4Fault>
    ensures { result ≡ next_of bytes.now place.now }
{
    let (at, left) = begun(bytes, place)?;
    next_at(bytes, at, left)
}
