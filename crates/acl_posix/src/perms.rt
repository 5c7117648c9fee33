//! Sets of permissions.

ghost use Rattle.std.specs.Prelude.{⊤, ◌≡◌, ◌==◌, [], ◌∷◌, IfSome, codes, if◌then◌else◌};
ghost use Rattle.std.specs.Prelude.{option_map};
ghost use Rattle.std.specs.List.{list_all};
ghost use Rattle.acl_names.specs.Bytes.{hyphen};
ghost use Rattle.acl_names.specs.Letters.{occurs, repeats};
ghost use Rattle.acl_posix.specs.Front.{BeginsWithPerms};
ghost use Rattle.acl_posix.specs.Perms.{bits_of, IsPermissions};
ghost use Rattle.acl_posix.specs.PermsText.{is_perms_byte, perms_of_text, perms_with};

use crate::bits::bits_if;
use bitflags::{Flag, Flags};
use std::ops::{BitAnd, BitOr};

/// A set of the permissions to read, to write and to execute.
#[derive(Clone, Copy, Debug, PartialEq, Eq)]
pub struct Perms(u8);

impl Perms {
    /// To read.
    pub const READ: Perms = Perms(4);

    /// To write.
    pub const WRITE: Perms = Perms(2);

    /// To execute, or to search a directory.
    pub const EXECUTE: Perms = Perms(1);

    const FLAGS: &'static [Flag<Perms>] = &[
        Flag {
            name: "READ",
            value: Perms::READ,
        },
        Flag {
            name: "WRITE",
            value: Perms::WRITE,
        },
        Flag {
            name: "EXECUTE",
            value: Perms::EXECUTE,
        },
    ];
}

impl Flags for Perms {
    ghost use Rattle.acl_posix.specs.Perms.{bits_of, IsPermissions};

    type Bits = u8;

    ghost exact = { ⊤ };

    ghost table = { (codes "READ", 4) ∷ (codes "WRITE", 2) ∷ (codes "EXECUTE", 1) ∷ [] };

    ghost set_of = { bits_of };

    fn flags<'a>() -> &'a [Flag<Perms>] {
        Perms::FLAGS
    }

    fn bits(&self) -> u8 {
        self.0
    }

    fn from_bits_retain(bits: u8) -> Perms {
        Perms(bits)
    }
}

impl BitAnd for Perms {
    ghost use Rattle.std.specs.Prelude.{◌≡◌};
    ghost use Rattle.acl_names.specs.Bits.{◌∩◌};
    ghost use Rattle.acl_posix.specs.Perms.{bits_of, IsPermissions};

    type Output = Perms;

    ghost bitand_gives = { λ a b both. bits_of both ≡ bits_of a ∩ bits_of b };

    fn bitand(self, other: Perms) -> Perms {
        Perms(self.0 & other.0)
    }
}

impl BitOr for Perms {
    ghost use Rattle.std.specs.Prelude.{◌≡◌};
    ghost use Rattle.acl_names.specs.Bits.{◌∪◌};
    ghost use Rattle.acl_posix.specs.Perms.{bits_of, IsPermissions};

    type Output = Perms;

    ghost bitor_gives = { λ a b either. bits_of either ≡ bits_of a ∪ bits_of b };

    fn bitor(self, other: Perms) -> Perms {
        Perms(self.0 | other.0)
    }
}

/// How many characters permissions may have.
const MAX_PERMS_LEN: usize = 3;

/// Reads permissions: 1 to 3 of `r`, `w`, `x` and `-`, no letter twice. `None` for other texts.
pub fn read_perms(text: &[u8]) -> Option<Perms>
    ensures value { option_map bits_of result ≡ perms_of_text text.now }
    ensures permissions { IfSome result (λ perms. IsPermissions (bits_of perms)) }
{
    match read_perms_front(text) {
        Some((perms, [])) => Some(perms),
        _ => read_letters(text),
    }
}

/// The permissions that the text begins with, in three characters as printed, and the text after
/// them.
pub(crate) fn read_perms_front(text: &[u8]) -> Option<(Perms, &[u8])>
    ensures begins { IfSome result (λ front. BeginsWithPerms text.now (bits_of front.0) front.1.now) }
    ensures permissions { IfSome result (λ front. IsPermissions (bits_of front.0)) }
{
    if text.len() < MAX_PERMS_LEN {
        return None;
    }
    let read = letter_or_dash(text[0], b'r')?;
    let write = letter_or_dash(text[1], b'w')?;
    let execute = letter_or_dash(text[2], b'x')?;
    Some((perms_with(read, write, execute), &text[MAX_PERMS_LEN..]))
}

#[tactic(auto, unfolding(crate::specs::PermsText::perms_of_text))]
fn read_letters(text: &[u8]) -> Option<Perms>
    ensures value { option_map bits_of result ≡ perms_of_text text.now }
    ensures permissions { IfSome result (λ perms. IsPermissions (bits_of perms)) }
{
    if text.is_empty() || text.len() > MAX_PERMS_LEN || !are_perms_bytes(text) {
        return None;
    }
    if repeats(text, b'r') || repeats(text, b'w') || repeats(text, b'x') {
        return None;
    }
    Some(perms_with(occurs(text, b'r'), occurs(text, b'w'), occurs(text, b'x')))
}

/// The set with exactly the permissions whose flag is true.
fn perms_with(read: bool, write: bool, execute: bool) -> Perms
    ensures value { bits_of result ≡ perms_with read write execute }
    ensures permissions { IsPermissions (bits_of result) }
{
    bits_if(Perms::READ, read) | bits_if(Perms::WRITE, write) | bits_if(Perms::EXECUTE, execute)
}

fn letter_or_dash(byte: u8, letter: u8) -> Option<bool>
    ensures { IfSome result (λ stands. byte ≡ (if stands then letter else hyphen)) }
{
    if byte == letter {
        Some(true)
    } else if byte == b'-' {
        Some(false)
    } else {
        None
    }
}

fn are_perms_bytes(text: &[u8]) -> bool
    ensures { result ≡ list_all is_perms_byte text.now }
{
    text.iter()
        .all(|byte| matches!(*byte, b'r' | b'w' | b'x' | b'-'))
}

/// Whether the text has the letter.
fn occurs(text: &[u8], letter: u8) -> bool
    ensures { result ≡ occurs letter text.now }
{
    text.iter().filter(|byte| **byte == letter).count() >= 1
}

/// Whether the text has the letter twice or more often.
fn repeats(text: &[u8], letter: u8) -> bool
    ensures { result ≡ repeats letter text.now }
{
    text.iter().filter(|byte| **byte == letter).count() >= 2
}
