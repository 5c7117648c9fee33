//! Lists in XDR (RFC 4506) as entries of numbers in a caller's buffer, with all bits that have a
//! meaning. It takes no memory: up to 128 entries are read into a list on the stack and copied from
//! there. The bytes of more are read once to know that they are a list, and once more to put it.

ghost use Rattle.std.specs.Prelude.{◌≡◌, ◌≤◌, ◌++◌, ℕ, List, [], Ok, drop, length};
ghost use Rattle.acl_nfs4.specs.declared.limits.TheConstants.{MAX_ACES};
ghost use Rattle.acl_wire.specs.Numbers.{Reads};
ghost use Rattle.acl_wire.specs.XdrRaws.{PutsItems, fault_in, raws_at, whole, xdr_raws_of};
ghost use Rattle.acl_wire.specs.declared.raw_ace.RawAce.{RawAce as Raw};

use crate::draft::write_raws;
use crate::raw_ace::{tidied, value_of};
use crate::xdr::{number_at, raw_at};
use crate::{Nfs4Fault, RawAce};
use acl_nfs4::{INLINE_ACES, MAX_ACES};
use arrayvec::ArrayVec;

/// Reads so many entries, which are to be all of the bytes.
fn read_raws<const N: usize>(
    count: u32,
    bytes: &[u8],
    draft: &mut ArrayVec<RawAce, N>,
) -> Result<(), Nfs4Fault>
    requires empty { draft.old.items ≡ [] }
    requires few { count ≤ N }
    ensures { Reads (λ _. draft.new.items) result (whole (raws_at count bytes.now)) }
{
    let mut rest = bytes;
    for _ in 0..count {
        let (raw, behind) = raw_at(rest)?;
        if let Err(refused) = value_of(&raw) {
            return Err(refused);
        }
        draft.push(tidied(&raw));
        rest = behind;
    }
    if rest.is_empty() {
        Ok(())
    } else {
        Err(Nfs4Fault::Size)
    }
}

/// Puts at most `N` entries, which are read once. Never inlined, so that short lists don't pay for
/// the room of long ones.
#[inline(never)]
fn put_few<const N: usize>(count: u32, bytes: &[u8], out: &mut [RawAce]) -> Result<usize, Nfs4Fault>
    requires few { count ≤ N }
    requires most { N ≤ MAX_ACES }
    ensures { PutsItems (whole (raws_at count bytes.now)) result out.old out.new }
{
    let mut draft = ArrayVec::<RawAce, N>::new();
    read_raws(count, bytes, &mut draft)?;
    Ok(write_raws(draft.as_slice(), out))
}

/// What is wrong with so many entries, which are to be all of the bytes.
fn fault_of(count: u32, bytes: &[u8]) -> Option<Nfs4Fault>
    ensures { result ≡ fault_in (whole (raws_at count bytes.now)) }
{
    let mut rest = bytes;
    for _ in 0..count {
        let (raw, behind) = match raw_at(rest) {
            Ok(read) => read,
            Err(fault) => return Some(fault),
        };
        if let Err(fault) = value_of(&raw) {
            return Some(fault);
        }
        rest = behind;
    }
    if rest.is_empty() {
        None
    } else {
        Some(Nfs4Fault::Size)
    }
}

/// Puts so many entries in front of the buffer. That the bytes have them was seen before.
fn put_raws(count: usize, bytes: &[u8], out: &mut [RawAce])
    requires { count ≤ length out.old }
    ensures { (raws : List Raw) (end : List ℕ) → raws_at count bytes.now ≡ Ok (raws, end)
        → out.new ≡ raws ++ drop (length raws) out.old }
{
    let mut rest = bytes;
    for place in 0..count {
        let Ok((raw, behind)) = raw_at(rest) else {
            return;
        };
        out[place] = tidied(&raw);
        rest = behind;
    }
}

/// Puts any number of entries, which are read twice.
fn put_many(count: u32, bytes: &[u8], out: &mut [RawAce]) -> Result<usize, Nfs4Fault>
    ensures { PutsItems (whole (raws_at count bytes.now)) result out.old out.new }
{
    if let Some(fault) = fault_of(count, bytes) {
        return Err(fault);
    }
    let count = count as usize;
    if count <= out.len() {
        put_raws(count, bytes, out);
    }
    Ok(count)
}

/// Puts the entries of a list in XDR in front of `out`, if it has room for all, and else leaves
/// `out` as it was. The answer is how many entries the list has, or why the bytes are none.
///
/// All bits stay that have a meaning: the calls that decide take them. What plays no part, the id
/// and the flag of a group at one of the three special identifiers, is 0.
#[tactic(auto, unfolding(crate::specs::XdrRaws::xdr_raws_of))]
pub fn put_xdr_raws(bytes: &[u8], out: &mut [RawAce]) -> Result<usize, Nfs4Fault>
    ensures { PutsItems (xdr_raws_of bytes.now) result out.old out.new }
{
    let (count, rest) = number_at(bytes)?;
    if count <= INLINE_ACES as u32 {
        put_few::<INLINE_ACES>(count, rest, out)
    } else if count <= MAX_ACES as u32 {
        put_few::<MAX_ACES>(count, rest, out)
    } else {
        put_many(count, rest, out)
    }
}
