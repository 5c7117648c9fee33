//! The form of a text's entries.

ghost use Rattle.std.specs.Prelude.{◌≡◌};
ghost use Rattle.acl_nfs4.specs.AceFields as nfs4;
ghost use Rattle.acl_forms.specs.FormText.{type_of};
ghost use Rattle.acl_forms.specs.Forms.{form_of, form_of_piece, is_type, last_or};

use crate::reading::read_type;
use acl_names::{Parts, Pieces, trim_blanks};

/// A form of entries.
#[derive(Clone, Copy, Debug, PartialEq, Eq)]
pub enum Form {
    /// `tag:name:perms`, as `getfacl` of POSIX lists prints them.
    Posix,
    /// `type:flags:who:letters`, as `nfs4_getfacl` prints them.
    Nfs4,
    /// `tag:perms:flags:type`, as FreeBSD's `getfacl` and libarchive print them.
    Freebsd,
}

/// The form of the first entry: `Nfs4` if its first field is `A`, `D`, `U` or `L`, `Freebsd` if its
/// last is `allow`, `deny`, `audit` or `alarm`, and else `Posix`, also without an entry.
pub fn form_of(text: &[u8]) -> Form
    ensures { result ≡ form_of text.now }
{
    match Pieces::new(text).next() {
        Some(piece) => form_of_piece(piece),
        None => Form::Posix,
    }
}

fn form_of_piece(piece: &[u8]) -> Form
    ensures { result ≡ form_of_piece piece.now }
{
    let mut fields = Parts::new(b':', piece);
    let Some(first) = fields.next() else {
        return Form::Posix;
    };
    if is_nfs4_type(trim_blanks(first)) {
        return Form::Nfs4;
    }
    let last = last_of(first, fields);
    if read_type(trim_blanks(last)).is_some() {
        Form::Freebsd
    } else {
        Form::Posix
    }
}

fn is_nfs4_type(text: &[u8]) -> bool
    ensures { result ≡ is_type (nfs4.type_of text.now) }
{
    matches!(text, b"A" | b"D" | b"U" | b"L")
}

/// The last of the fields; `first` if there are none.
fn last_of<'a>(first: &'a [u8], fields: Parts<'a>) -> &'a [u8]
    ensures { result.now ≡ last_or first.now fields.entry }
{
    let mut fields = fields;
    let mut last = first;
    while let Some(field) = fields.next() {
        last = field;
    }
    last
}
