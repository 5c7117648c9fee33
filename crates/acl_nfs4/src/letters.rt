//! The letters of flags and of a mask's bits.

ghost use Rattle.std.specs.Prelude.{◌≡◌, option_map};
ghost use Rattle.acl_names.specs.Letters.{letters_of, letters_text};
ghost use Rattle.acl_names.specs.Pushing.{PushesInRoom};
ghost use Rattle.acl_nfs4.specs.Flags.{flag_bits};
ghost use Rattle.acl_nfs4.specs.Letters.{flag_table, mask_table};
ghost use Rattle.acl_nfs4.specs.Mask.{mask_bits};

use crate::letter_bits::{FLAG_BITS, MASK_BITS, read_bits};
use crate::{Flags, Mask};
use acl_names::{Letter, push_letters as push_letters_of};
use bitflags::Flags as FlagSet;
use std::alloc::AllocError;

/// A table of letters and bits: `letter_table![b'r' = 0x1, b'w' = 0x2]`.
#[macro_export]
macro_rules! letter_table {
    ($($letter:literal = $bit:literal),+ $(,)?) => {
        [$(Letter { letter: $letter, bit: $bit }),+]
    };
}

/// The flags, in the order in which they are printed.
const FLAG_TABLE: [Letter; 7] = letter_table![
    b'f' = 0x1,
    b'd' = 0x2,
    b'n' = 0x4,
    b'i' = 0x8,
    b'S' = 0x10,
    b'F' = 0x20,
    b'g' = 0x40,
];

/// The bits of a mask, in the order in which they are printed.
const MASK_TABLE: [Letter; 14] = letter_table![
    b'r' = 0x1,
    b'w' = 0x2,
    b'a' = 0x4,
    b'x' = 0x20,
    b'd' = 0x10000,
    b'D' = 0x40,
    b't' = 0x80,
    b'T' = 0x100,
    b'n' = 0x8,
    b'N' = 0x10,
    b'c' = 0x20000,
    b'C' = 0x40000,
    b'o' = 0x80000,
    b'y' = 0x100000,
];

/// Reads the letters of a mask, out of `rwaxdDtTnNcCoy` in any order, each at most once; without
/// letters it is empty. `None` for other texts.
pub fn read_letters(text: &[u8]) -> Option<Mask>
    ensures { option_map mask_bits result ≡ letters_of mask_table text.now }
{
    match read_bits(&MASK_BITS, text) {
        Some(bits) => Some(Mask::from_bits_retain(bits)),
        None => None,
    }
}

/// Reads the letters of flags, in any order, each at most once. `None` for other texts.
pub(crate) fn read_flags(text: &[u8]) -> Option<Flags>
    ensures { option_map flag_bits result ≡ letters_of flag_table text.now }
{
    match read_bits(&FLAG_BITS, text) {
        Some(bits) => Some(Flags::from_bits_retain(bits as u8)),
        None => None,
    }
}

/// Appends the letters of the mask's bits, in the order `rwaxdDtTnNcCoy`. Fails only if memory runs
/// out, and never if `out` has room for them; what `out` held stays in front.
pub fn push_mask(mask: Mask, out: &mut Vec<u8>) -> Result<(), AllocError>
    ensures { PushesInRoom (letters_text mask_table (mask_bits mask)) result out.old out.new }
{
    push_letters_of(&MASK_TABLE, mask.bits(), out)
}

/// Appends the letters of the flags.
pub(crate) fn push_flags(flags: Flags, out: &mut Vec<u8>) -> Result<(), AllocError>
    ensures { PushesInRoom (letters_text flag_table (flag_bits flags)) result out.old out.new }
{
    push_letters_of(&FLAG_TABLE, u32::from(flags.bits()), out)
}
