//! Texts of letters among hyphens, each letter at any place and any number of times, and how they
//! are printed.

ghost use Rattle.std.specs.Prelude.{◌≡◌, ◌==◌, option_map};
ghost use Rattle.std.specs.List.{list_all, list_any};
ghost use Rattle.acl_names.specs.Letters.{bits_of_rows, is_letter_of, occurs, rows_in};
ghost use Rattle.acl_names.specs.Pushing.{PushesInRoom};
ghost use Rattle.acl_nfs4.specs.Flags.{flag_bits};
ghost use Rattle.acl_nfs4.specs.Mask.{mask_bits};
ghost use Rattle.acl_forms.specs.Marks.{is_mark_of, mark_table, marks_of, perm_table};
ghost use Rattle.acl_forms.specs.PrintedForm.{marks_of_flags, marks_text, place_of, places_text};

use crate::Places;
use acl_names::{Letter, push_letters};
use acl_nfs4::{Flags, Mask, letter_table};
use bitflags::Flags as FlagSet;
use std::alloc::AllocError;

/// The bits of a mask, in the order in which libarchive prints them.
const PERM_TABLE: [Letter; 14] = letter_table![
    b'r' = 0x1,
    b'w' = 0x2,
    b'x' = 0x20,
    b'p' = 0x4,
    b'd' = 0x10000,
    b'D' = 0x40,
    b'a' = 0x80,
    b'A' = 0x100,
    b'R' = 0x8,
    b'W' = 0x10,
    b'c' = 0x20000,
    b'C' = 0x40000,
    b'o' = 0x80000,
    b's' = 0x100000,
];

/// The flags, in the order in which they are printed; the last is read and not kept.
const MARK_TABLE: [Letter; 7] = letter_table![
    b'f' = 0x1,
    b'd' = 0x2,
    b'i' = 0x8,
    b'n' = 0x4,
    b'S' = 0x10,
    b'F' = 0x20,
    b'I' = 0x80,
];

/// The mask whose letters the text has.
pub(crate) fn read_perms(text: &[u8]) -> Option<Mask>
    ensures { option_map mask_bits result ≡ marks_of perm_table text.now }
{
    match read_marks(&PERM_TABLE, text) {
        Some(bits) => Some(Mask::from_bits_retain(bits)),
        None => None,
    }
}

/// The flags whose letters the text has.
pub(crate) fn read_flags(text: &[u8]) -> Option<Flags>
    ensures { option_map flag_bits result ≡ marks_of mark_table text.now }
{
    match read_marks(&MARK_TABLE, text) {
        Some(bits) => Some(Flags::from_bits_retain(bits as u8)),
        None => None,
    }
}

/// The bits whose letters the text has; `None` if it has anything but letters and hyphens.
#[tactic(auto, unfolding(crate::specs::Marks::marks_of))]
fn read_marks(table: &[Letter], text: &[u8]) -> Option<u32>
    ensures { result ≡ marks_of table.now text.now }
{
    if are_marks(table, text) {
        Some(bits_in(table, text))
    } else {
        None
    }
}

fn are_marks(table: &[Letter], text: &[u8]) -> bool
    ensures { result ≡ list_all (is_mark_of table.now) text.now }
{
    text.iter().all(|byte| is_mark_of(table, *byte))
}

fn is_mark_of(table: &[Letter], byte: u8) -> bool
    ensures { result ≡ is_mark_of table.now byte }
{
    byte == b'-' || is_letter_of(table, byte)
}

fn is_letter_of(table: &[Letter], byte: u8) -> bool
    ensures { result ≡ is_letter_of table.now byte }
{
    table.iter().any(|row| row.letter == byte)
}

/// The bits of the rows whose letters the text has.
fn bits_in(table: &[Letter], text: &[u8]) -> u32
    ensures { result ≡ bits_of_rows (rows_in table.now text.now) }
{
    let mut bits = 0;
    for row in table {
        if occurs(row.letter, text) {
            bits |= row.bit;
        }
    }
    bits
}

fn occurs(letter: u8, text: &[u8]) -> bool
    ensures { result ≡ occurs letter text.now }
{
    stands_in(letter, text)
}

fn stands_in(letter: u8, text: &[u8]) -> bool
    ensures { result ≡ list_any (λ x. x == letter) text.now }
{
    text.iter().any(|byte| *byte == letter)
}

/// Appends the mask's letters. Fails only if memory runs out; what `out` held stays in front.
pub fn push_perms(places: Places, mask: Mask, out: &mut Vec<u8>) -> Result<(), AllocError>
    ensures { PushesInRoom (marks_text places perm_table (mask_bits mask)) result out.old out.new }
{
    push_marks(places, &PERM_TABLE, mask.bits(), out)
}

/// Appends the letters of the flags, except that of a group.
pub(crate) fn push_flags(places: Places, flags: Flags, out: &mut Vec<u8>) -> Result<(), AllocError>
    ensures { PushesInRoom (marks_text places mark_table (marks_of_flags (flag_bits flags))) result
        out.old out.new }
{
    push_marks(places, &MARK_TABLE, u32::from(flags.bits() & 0x3F), out)
}

/// Appends the letters of the bits that are set, alone or each at a place of its own.
fn push_marks(
    places: Places,
    table: &[Letter],
    bits: u32,
    out: &mut Vec<u8>,
) -> Result<(), AllocError>
    ensures { PushesInRoom (marks_text places table.now bits) result out.old out.new }
{
    match places {
        Places::Compact => push_letters(table, bits, out),
        Places::Full => push_places(table, bits, out),
    }
}

/// Appends a place for each row of the table.
fn push_places(table: &[Letter], bits: u32, out: &mut Vec<u8>) -> Result<(), AllocError>
    ensures { PushesInRoom (places_text table.now bits) result out.old out.new }
{
    for row in table {
        out.push(mark_of(row, bits))?;
    }
    Ok(())
}

/// The row's letter if its bit is set, else a hyphen.
fn mark_of(row: &Letter, bits: u32) -> u8
    ensures { result ≡ place_of bits row.now }
{
    if bits & row.bit == 0 {
        b'-'
    } else {
        row.letter
    }
}
