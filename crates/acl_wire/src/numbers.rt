//! Numbers in bytes, lowest byte first, and sets of bits.

ghost use Rattle.std.specs.Prelude.{◌≡◌, ◌^◌, ℕ};
ghost use Rattle.std.specs.Int.{w32};
ghost use Rattle.acl_names.specs.Bits.{has, without};
ghost use Rattle.acl_wire.specs.Numbers.{Reads};
ghost use Rattle.acl_wire.specs.XattrReading.{number_at};

use crate::PosixFault;

/// The bits that are not among those removed.
#[inline(always)]
#[tactic(auto, unfolding(acl_names::specs::Bits::without))]
pub(crate) fn without_bits(bits: u32, removed: u32) -> u32
    ensures { result ≡ without bits removed }
{
    bits ^ (bits & removed)
}

/// Whether the bit is in the set.
#[inline(always)]
pub(crate) fn has_bit(set: u32, bit: u32) -> bool
    ensures { (place : ℕ) → bit ≡ 2 ^ place → result ≡ has set place }
{
    set & bit == bit
}

/// The number in the first four bytes, and the bytes after them.
#[inline(always)]
pub(crate) fn u32_at(bytes: &[u8]) -> Result<(u32, &[u8]), PosixFault>
    ensures { Reads (λ x. (x.0, x.1.now)) result (number_at w32 bytes.now) }
{
    if bytes.len() < 4 {
        return Err(PosixFault::Size);
    }
    let (front, rest) = bytes.split_at(4);
    let number = u32::from_le_bytes([front[0], front[1], front[2], front[3]]);
    Ok((number, rest))
}
