//! A fast path for the fields of an ACE that a text begins with, if they have no blanks and no
//! comment.

ghost use Rattle.std.specs.Prelude.{◌≡◌, ◌≤◌, ◌++◌, length, IfSome};
ghost use Rattle.std.specs.List.{position_or_len};
ghost use Rattle.acl_names.specs.Plain.{ends_field, IsField};
ghost use Rattle.acl_nfs4.specs.AceViews.{view_fields};
ghost use Rattle.acl_nfs4.specs.Front.{BeginsWithFields};

use crate::reading::AceFields;

/// The fields that the text begins with, without blanks around them, and the text after them.
pub(crate) fn fields_in_front(text: &[u8]) -> Option<(AceFields<'_>, &[u8])>
    ensures { IfSome result (λ front. BeginsWithFields text.now (view_fields front.0) front.1.now) }
{
    let (kind, behind) = split_field(text);
    let [b':', behind_kind @ ..] = behind else {
        return None;
    };
    let (flags, behind) = split_field(behind_kind);
    let [b':', behind_flags @ ..] = behind else {
        return None;
    };
    let (who, behind) = split_field(behind_flags);
    let [b':', behind_who @ ..] = behind else {
        return None;
    };
    let (letters, rest) = split_field(behind_who);
    Some((
        AceFields {
            kind,
            flags,
            who,
            letters,
        },
        rest,
    ))
}

/// The bytes up to the first blank, colon, comma, `#` or newline, and the rest.
fn split_field(text: &[u8]) -> (&[u8], &[u8])
    ensures field { IsField result.0.now }
    ensures cut { text.now ≡ result.0.now ++ result.1.now }
{
    text.split_at(field_len(text))
}

fn field_len(text: &[u8]) -> usize
    ensures value { result ≡ position_or_len ends_field text.now }
    ensures within { result ≤ length text.now }
{
    text.iter()
        .take_while(|byte| !matches!(**byte, b' ' | b'\t' | b':' | b',' | b'#' | b'\n'))
        .count()
}
