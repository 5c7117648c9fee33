//! White space, as C has it.

ghost use Rattle.std.specs.Prelude.{◌≡◌};
ghost use Rattle.acl_accounts.specs.Space.{is_space, skip_space};

/// Whether C's `isspace` accepts the byte.
pub(crate) fn is_space(byte: u8) -> bool
    ensures { result ≡ is_space byte }
{
    byte == b' ' || (byte >= b'\t' && byte <= b'\r')
}

/// The text without the white space in front of it.
pub(crate) fn skip_space(text: &[u8]) -> &[u8]
    ensures { result.now ≡ skip_space text.now }
{
    let mut rest = text;
    while let [byte, tail @ ..] = rest {
        if !is_space(*byte) {
            return rest;
        }
        rest = tail;
    }
    rest
}
