//! Names as getfacl writes them.

ghost use Rattle.std.specs.Prelude.{◌≡◌, ◌<◌, ◌∷◌, [], false, length, option_map};
ghost use Rattle.std.specs.Prelude.{MatchOption, IsTrue, IfSome, if◌then◌else◌};
ghost use Rattle.std.specs.Bool.{MatchBool};
ghost use Rattle.std.specs.Char.{is_ascii_digit};
ghost use Rattle.std.specs.List.{list_all, list_any};
ghost use Rattle.acl_names.specs.Ids.{Number, decimal_value};
ghost use Rattle.acl_names.specs.Pushing.{Pushes};
ghost use Rattle.acl_names.specs.Bytes.{backslash};
ghost use Rattle.acl_names.specs.Shown.{octal};
ghost use Rattle.acl_accounts.specs.Names.{is_octal, is_pair, is_quoted, named, octal_front};
ghost use Rattle.acl_accounts.specs.Names.{octal_value, quoted, quoted_byte, splits};
ghost use Rattle.acl_accounts.specs.Names.{unquoted, written_account};
ghost use Rattle.acl_accounts.specs.declared.limits.TheConstants.{MAX_ACCOUNT_NAME};

use crate::limits::MAX_ACCOUNT_NAME;
use acl_names::octal;
use arrayvec::ArrayVec;
use std::alloc::AllocError;

/// Appends a name as getfacl writes it, with a blank, tab, newline, carriage return, `:`, `,` and
/// `\` as `\` and three octal digits. Fails only if memory runs out; what `out` held stays in
/// front.
#[tactic(auto, using(crate::proofs::QuotingLemmas::printed_laws))]
pub fn push_name(name: &[u8], out: &mut Vec<u8>) -> Result<(), AllocError>
    ensures printed { Pushes (quoted name.now) result out.old out.new }
    // The text is read as the name; a name that is all digits, as the id.
    ensures read_again { written_account (quoted name.now)
        ≡ (if list_all is_ascii_digit name.now then option_map Number (decimal_value name.now)
        else named name.now) }
    ensures one_word { list_any splits (quoted name.now) ≡ false }
{
    push_quoted(name, out)
}

fn push_quoted(name: &[u8], out: &mut Vec<u8>) -> Result<(), AllocError>
    ensures { Pushes (quoted name.now) result out.old out.new }
{
    for byte in name {
        push_byte(*byte, out)?;
    }
    Ok(())
}

fn push_byte(byte: u8, out: &mut Vec<u8>) -> Result<(), AllocError>
    ensures { Pushes (quoted_byte byte) result out.old out.new }
{
    if is_quoted(byte) {
        let text = octal(byte);
        out.extend_from_slice(&text)
    } else {
        out.push(byte)?;
        Ok(())
    }
}

fn is_quoted(byte: u8) -> bool
    ensures { result ≡ is_quoted byte }
{
    byte == b' '
        || byte == b'\t'
        || byte == b'\n'
        || byte == b'\r'
        || byte == b':'
        || byte == b','
        || byte == b'\\'
}

/// Sets `room` to the bytes that a text writes: two backslashes are one, and `\` and three octal
/// digits are a byte. False if there are more than a name may have.
pub(crate) fn unquote(text: &[u8], room: &mut ArrayVec<u8, MAX_ACCOUNT_NAME>) -> bool
    ensures { MatchBool result (room.new.items ≡ unquoted text.now)
        (MAX_ACCOUNT_NAME < length (unquoted text.now)) }
{
    room.clear();
    let mut rest = text;
    while let Some((byte, behind)) = first_unquoted(rest) {
        if room.try_push(byte).is_err() {
            return false;
        }
        rest = behind;
    }
    true
}

/// The first byte that a text writes as getfacl does, and the rest of the text; `None` for an empty
/// text.
pub fn first_unquoted(text: &[u8]) -> Option<(u8, &[u8])>
    ensures says { MatchOption result (text.now ≡ [])
        (λ found. unquoted text.now ≡ found.0 ∷ unquoted found.1.now) }
    ensures shorter { IfSome result (λ found. length found.1.now < length text.now) }
{
    if text.is_empty() {
        return None;
    }
    if text.len() >= 2 && is_pair(text[0], text[1]) {
        return Some((b'\\', &text[2..]));
    }
    if let Some(byte) = octal_front(text) {
        return Some((byte, &text[4..]));
    }
    Some((text[0], &text[1..]))
}

/// The byte that a text begins with, if it begins with `\` and three octal digits of at most 377.
pub fn octal_front(text: &[u8]) -> Option<u8>
    ensures { result ≡ octal_front text.now }
{
    if text.len() >= 4 && is_octal(text[0], text[1], text[2], text[3]) {
        return Some(octal_value(text[1], text[2], text[3]));
    }
    None
}

/// Whether these are two backslashes, which getfacl writes for one.
pub fn is_pair(first: u8, second: u8) -> bool
    ensures { result ≡ is_pair first second }
{
    first == b'\\' && second == b'\\'
}

fn is_octal(first: u8, a: u8, b: u8, c: u8) -> bool
    ensures { result ≡ is_octal first a b c }
{
    first == b'\\'
        && (b'0'..=b'3').contains(&a)
        && (b'0'..=b'7').contains(&b)
        && (b'0'..=b'7').contains(&c)
}

fn octal_value(a: u8, b: u8, c: u8) -> u8
    requires { IsTrue (is_octal backslash a b c) }
    ensures { result ≡ octal_value a b c }
{
    (a - b'0') * 64 + (b - b'0') * 8 + (c - b'0')
}
