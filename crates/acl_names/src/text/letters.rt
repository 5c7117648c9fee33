//! Texts that are sets of letters, by a table of letters and bits.

ghost use Rattle.std.specs.Prelude.{◌≡◌, ◌==◌, filter};
ghost use Rattle.std.specs.List.{list_any};
ghost use Rattle.acl_names.specs.Letters.{is_letter_of, letters_of, letters_text};
ghost use Rattle.acl_names.specs.Letters.{bits_of_rows, IsTable, HasBitsOf};
ghost use Rattle.acl_names.specs.Pushing.{PushesInRoom};

use std::alloc::AllocError;

/// A bit and the letter that stands for it.
#[derive(Clone, Copy, Debug, PartialEq, Eq)]
pub struct Letter {
    /// The letter's byte.
    pub letter: u8,
    /// The bit, as a mask with this bit alone.
    pub bit: u32,
}

/// The bits whose letters make up the text, in any order. `None` if a letter isn't in the table or
/// occurs twice.
pub fn read_letters(table: &[Letter], text: &[u8]) -> Option<u32>
    ensures { result ≡ letters_of table.now text.now }
{
    let mut bits = 0;
    for (at, byte) in text.iter().enumerate() {
        if !is_letter_of(table, *byte) {
            return None;
        }
        if stands_in(*byte, &text[..at]) {
            return None;
        }
        bits |= bits_of_letter(table, *byte);
    }
    Some(bits)
}

fn is_letter_of(table: &[Letter], byte: u8) -> bool
    ensures { result ≡ is_letter_of table.now byte }
{
    table.iter().any(|row| row.letter == byte)
}

fn stands_in(byte: u8, text: &[u8]) -> bool
    ensures { result ≡ list_any (λ x. x == byte) text.now }
{
    text.iter().any(|own| *own == byte)
}

/// The bits that the letter means; 0 if it isn't in the table.
fn bits_of_letter(table: &[Letter], letter: u8) -> u32
    ensures { result ≡ bits_of_rows (filter (λ row. row.letter == letter) table.now) }
{
    let mut bits = 0;
    for row in table {
        if row.letter == letter {
            bits |= row.bit;
        }
    }
    bits
}

/// Appends the letters of the bits that are set, in the order of the table. Fails only if memory
/// runs out, and never if `out` has room for all letters; `out` then has the letters that found
/// room.
#[tactic(auto, using(crate::proofs::LettersAgain::letters_again))]
pub fn push_letters(table: &[Letter], bits: u32, out: &mut Vec<u8>) -> Result<(), AllocError>
    ensures printed { PushesInRoom (letters_text table.now bits) result out.old out.new }
    // What is printed is read as these bits.
    ensures read_again { IsTable table.now → HasBitsOf table.now bits
        → letters_of table.now (letters_text table.now bits) ≡ Some bits }
{
    for row in table {
        if bits & row.bit != 0 {
            out.push(row.letter)?;
        }
    }
    Ok(())
}
