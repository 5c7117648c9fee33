//! The bit of each letter, indexed by the letter's byte, so that reading takes one look-up a
//! letter.

ghost use Rattle.std.specs.Prelude.{◌≡◌, ◌<◌, List, slice_index};
ghost use Rattle.acl_names.specs.Letters.{letters_of};
ghost use Rattle.acl_names.specs.declared.text.letters.Letter.{Letter};
ghost use Rattle.acl_nfs4.specs.LetterBits.{GivesBitsOf};

/// The flag whose letter is this byte; 0 for other bytes.
pub(crate) const FLAG_BITS: [u32; 256] = [
    0, 0, 0, 0, 0, 0, 0, 0, 0, 0, 0, 0, 0, 0, 0, 0, 0, 0, 0, 0, 0, 0, 0, 0, 0, 0, 0, 0, 0, 0, 0, 0,
    0, 0, 0, 0, 0, 0, 0, 0, 0, 0, 0, 0, 0, 0, 0, 0, 0, 0, 0, 0, 0, 0, 0, 0, 0, 0, 0, 0, 0, 0, 0, 0,
    0, 0, 0, 0, 0, 0, 0x20, 0, 0, 0, 0, 0, 0, 0, 0, 0, 0, 0, 0, 0x10, 0, 0, 0, 0, 0, 0, 0, 0, 0, 0,
    0, 0, 0, 0, 0, 0, 0x2, 0, 0x1, 0x40, 0, 0x8, 0, 0, 0, 0, 0x4, 0, 0, 0, 0, 0, 0, 0, 0, 0, 0, 0,
    0, 0, 0, 0, 0, 0, 0, 0, 0, 0, 0, 0, 0, 0, 0, 0, 0, 0, 0, 0, 0, 0, 0, 0, 0, 0, 0, 0, 0, 0, 0, 0,
    0, 0, 0, 0, 0, 0, 0, 0, 0, 0, 0, 0, 0, 0, 0, 0, 0, 0, 0, 0, 0, 0, 0, 0, 0, 0, 0, 0, 0, 0, 0, 0,
    0, 0, 0, 0, 0, 0, 0, 0, 0, 0, 0, 0, 0, 0, 0, 0, 0, 0, 0, 0, 0, 0, 0, 0, 0, 0, 0, 0, 0, 0, 0, 0,
    0, 0, 0, 0, 0, 0, 0, 0, 0, 0, 0, 0, 0, 0, 0, 0, 0, 0, 0, 0, 0, 0, 0, 0, 0, 0, 0, 0, 0, 0, 0, 0,
    0, 0, 0, 0, 0, 0,
];

/// The mask's bit whose letter is this byte; 0 for other bytes.
pub(crate) const MASK_BITS: [u32; 256] = [
    0, 0, 0, 0, 0, 0, 0, 0, 0, 0, 0, 0, 0, 0, 0, 0, 0, 0, 0, 0, 0, 0, 0, 0, 0, 0, 0, 0, 0, 0, 0, 0,
    0, 0, 0, 0, 0, 0, 0, 0, 0, 0, 0, 0, 0, 0, 0, 0, 0, 0, 0, 0, 0, 0, 0, 0, 0, 0, 0, 0, 0, 0, 0, 0,
    0, 0, 0, 0x40000, 0x40, 0, 0, 0, 0, 0, 0, 0, 0, 0, 0x10, 0, 0, 0, 0, 0, 0x100, 0, 0, 0, 0, 0,
    0, 0, 0, 0, 0, 0, 0, 0x4, 0, 0x20000, 0x10000, 0, 0, 0, 0, 0, 0, 0, 0, 0, 0x8, 0x80000, 0, 0,
    0x1, 0, 0x80, 0, 0, 0x2, 0x20, 0x100000, 0, 0, 0, 0, 0, 0, 0, 0, 0, 0, 0, 0, 0, 0, 0, 0, 0, 0,
    0, 0, 0, 0, 0, 0, 0, 0, 0, 0, 0, 0, 0, 0, 0, 0, 0, 0, 0, 0, 0, 0, 0, 0, 0, 0, 0, 0, 0, 0, 0, 0,
    0, 0, 0, 0, 0, 0, 0, 0, 0, 0, 0, 0, 0, 0, 0, 0, 0, 0, 0, 0, 0, 0, 0, 0, 0, 0, 0, 0, 0, 0, 0, 0,
    0, 0, 0, 0, 0, 0, 0, 0, 0, 0, 0, 0, 0, 0, 0, 0, 0, 0, 0, 0, 0, 0, 0, 0, 0, 0, 0, 0, 0, 0, 0, 0,
    0, 0, 0, 0, 0, 0, 0, 0, 0, 0, 0, 0, 0, 0, 0, 0, 0, 0, 0, 0,
];

/// The bit of a letter in a table.
fn bit_of_letter(bits: &[u32; 256], letter: u8) -> u32
    ensures value { result ≡ slice_index bits.now letter }
    ensures byte { letter < 256 }
{
    bits[usize::from(letter)]
}

/// The bits whose letters make up the text; `None` for another letter, or one that occurs twice.
pub(crate) fn read_bits(bits_of: &[u32; 256], text: &[u8]) -> Option<u32>
    ensures { (table : List Letter) → GivesBitsOf bits_of.now table
        → result ≡ letters_of table text.now }
{
    let mut bits = 0;
    for letter in text {
        let bit = bit_of_letter(bits_of, *letter);
        if bit == 0 || bits & bit != 0 {
            return None;
        }
        bits |= bit;
    }
    Some(bits)
}
