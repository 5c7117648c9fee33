//! Accounts as a text writes them: by an id, or by a name.

ghost use Rattle.std.specs.Prelude.{◌≡◌, ◌==◌, ◌||◌, option_map};
ghost use Rattle.std.specs.Bool.{OnFalse};
ghost use Rattle.std.specs.List.{list_all, list_any};
ghost use Rattle.std.specs.Char.{is_ascii_digit};
ghost use Rattle.acl_accounts.specs.Names.{is_account_name, named, unquoted};
ghost use Rattle.acl_accounts.specs.Names.{written_account};
ghost use Rattle.acl_names.specs.Bytes.{backslash, colon, newline};
ghost use Rattle.acl_accounts.specs.Views.{view_written};

use crate::limits::MAX_ACCOUNT_NAME;
use crate::quoting::unquote;
use acl_names::read_decimal;
use arrayvec::ArrayVec;

/// A user or a group as a text writes it, whether or not there is one.
#[derive(Clone, Copy, Debug)]
pub enum WrittenAccount<'a> {
    /// An id in decimal.
    Number(u32),
    /// The bytes of a name.
    Name(&'a [u8]),
}

impl<'a> WrittenAccount<'a> {
    /// Reads an account: all digits are an id, and anything else is a name, in which two
    /// backslashes are one, and `\` and three octal digits are a byte. `None` if the id is out of
    /// range, or the name is empty, has more than `MAX_ACCOUNT_NAME` bytes, or a `:` or a newline.
    /// A name that is written with a `\` is put into `room`, which it overwrites.
    pub fn read(
        text: &'a [u8],
        room: &'a mut ArrayVec<u8, MAX_ACCOUNT_NAME>,
    ) -> Option<WrittenAccount<'a>>
        ensures { option_map view_written result ≡ written_account text.now }
    {
        if are_digits(text) {
            return match read_decimal(text) {
                Some(number) => Some(WrittenAccount::Number(number)),
                None => None,
            };
        }
        if !has_backslash(text) {
            return read_name(text);
        }
        if !unquote(text, room) {
            return None;
        }
        read_name(room.as_slice())
    }
}

fn are_digits(text: &[u8]) -> bool
    ensures { result ≡ list_all is_ascii_digit text.now }
{
    text.iter().all(|byte| byte.is_ascii_digit())
}

#[tactic(auto, using(crate::proofs::QuotingLemmas::plain_text))]
fn has_backslash(text: &[u8]) -> bool
    ensures has { result ≡ list_any (λ byte. byte == backslash) text.now }
    // Without a `\`, a text is the name itself.
    ensures plain { OnFalse result (unquoted text.now ≡ text.now) }
{
    text.contains(&b'\\')
}

fn read_name(name: &[u8]) -> Option<WrittenAccount<'_>>
    ensures { option_map view_written result ≡ named name.now }
{
    if is_account_name(name) {
        Some(WrittenAccount::Name(name))
    } else {
        None
    }
}

/// Whether a text is a name: 1 to `MAX_ACCOUNT_NAME` bytes, none of them `:` or a newline.
pub fn is_account_name(text: &[u8]) -> bool
    ensures { result ≡ is_account_name text.now }
{
    !text.is_empty() && text.len() <= MAX_ACCOUNT_NAME && !has_separator(text)
}

fn has_separator(text: &[u8]) -> bool
    ensures { result ≡ list_any (λ byte. (byte == colon) || (byte == newline)) text.now }
{
    text.iter().any(|byte| *byte == b':' || *byte == b'\n')
}
