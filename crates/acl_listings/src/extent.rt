//! How many bytes the first block of a text has.

ghost use Rattle.std.specs.Prelude.{◌<◌, IfSome};
ghost use Rattle.acl_listings.specs.Extent.{BeginsLine, GoesOnBy, IsExtent};

use crate::newlines::{count_below, newlines_at};
use acl_names::before_byte;

/// The extent of a block.
#[derive(Clone, Copy, Debug, PartialEq, Eq)]
pub(crate) struct Extent {
    /// How many bytes it has, without the newline of its last line.
    pub len: usize,
    /// How many newlines are between its lines.
    pub newlines: usize,
}

/// How many bytes one step checks for a newline after a newline: all but the last of 64.
const STEP: usize = 63;

/// The extent of the block at the front of a text, if an empty line ends it before the last bytes.
/// A fast path: on `None` the caller has to use `extent_by_lines`.
fn extent_at_once(text: &[u8]) -> Option<Extent>
    requires { BeginsLine text.now }
    ensures { IfSome result (λ extent. IsExtent text.now extent.len extent.newlines) }
{
    let mut at = 0;
    let mut newlines = 0;
    while text.len() - at > STEP {
        let marks = newlines_at(text, at);
        let empty = marks & (marks >> 1);
        if empty != 0 {
            let len = empty.trailing_zeros() as usize;
            return Some(Extent {
                len: at + len,
                newlines: newlines + count_below(marks, len),
            });
        }
        newlines += count_below(marks, STEP);
        at += STEP;
    }
    None
}

/// The extent of the block at the front of a text: up to an empty line, or to the end.
pub(crate) fn extent_of(text: &[u8]) -> Extent
    requires { BeginsLine text.now }
    ensures { IsExtent text.now result.len result.newlines }
{
    match extent_at_once(text) {
        Some(extent) => extent,
        None => extent_by_lines(text),
    }
}

/// The same of any text, line by line.
fn extent_by_lines(text: &[u8]) -> Extent
    requires { BeginsLine text.now }
    ensures { IsExtent text.now result.len result.newlines }
{
    let mut len = before_byte(b'\n', text).len();
    let mut newlines = 0;
    while len + 1 < text.len() && text[len + 1] != b'\n' {
        len += 1 + before_byte(b'\n', &text[len + 1..]).len();
        newlines += 1;
    }
    Extent { len, newlines }
}

/// The extent of the rest of a block that began before the text: up to an empty line, or to the
/// end. It has no byte if a line ended there and the text doesn't show that the next has one.
pub(crate) fn extent_of_rest(text: &[u8]) -> Extent
    ensures { GoesOnBy text.now result.len result.newlines }
{
    match text {
        [] | [b'\n'] | [b'\n', b'\n', ..] => Extent {
            len: 0,
            newlines: 0,
        },
        [b'\n', rest @ ..] => {
            let extent = extent_of(rest);
            Extent {
                len: extent.len + 1,
                newlines: extent.newlines + 1,
            }
        }
        _ => extent_of(text),
    }
}
