//! Showing bytes that may not be text.

ghost use Rattle.std.specs.Prelude.{◌≡◌, take};
ghost use Rattle.acl_names.specs.Pushing.{Pushes};
ghost use Rattle.acl_names.specs.Shown.{is_printable, octal, shown, shown_byte};
ghost use Rattle.acl_names.specs.declared.limits.TheConstants.{MAX_SHOWN};

use crate::limits::MAX_SHOWN;
use std::alloc::AllocError;

/// Appends at most the first `MAX_SHOWN` bytes of a line: printable ones and `\` as they are,
/// others as `\` and three octal digits. Fails only if memory runs out; what `out` held stays in
/// front.
pub fn push_shown(line: &[u8], out: &mut Vec<u8>) -> Result<(), AllocError>
    ensures { Pushes (shown line.now) result out.old out.new }
{
    let front = shown_front(line);
    for byte in front {
        push_shown_byte(*byte, out)?;
    }
    Ok(())
}

/// The part of a line that is shown.
pub fn shown_front(line: &[u8]) -> &[u8]
    ensures { result.now ≡ take MAX_SHOWN line.now }
{
    if line.len() > MAX_SHOWN {
        &line[..MAX_SHOWN]
    } else {
        line
    }
}

fn push_shown_byte(byte: u8, out: &mut Vec<u8>) -> Result<(), AllocError>
    ensures { Pushes (shown_byte byte) result out.old out.new }
{
    if is_printable(byte) {
        out.push(byte)?;
        Ok(())
    } else {
        let text = octal(byte);
        out.extend_from_slice(&text)
    }
}

/// Whether a byte is printable ASCII; `\` is.
pub fn is_printable(byte: u8) -> bool
    ensures { result ≡ is_printable byte }
{
    (b' '..=b'~').contains(&byte)
}

/// `\` and the three octal digits of a byte.
pub fn octal(byte: u8) -> [u8; 4]
    ensures { result ≡ octal byte }
{
    [
        b'\\',
        b'0' + byte / 64,
        b'0' + byte / 8 % 8,
        b'0' + byte % 8,
    ]
}
