//! The fields of an entry.

ghost use Rattle.std.specs.Prelude.{◌≡◌, option_map};
ghost use Rattle.acl_forms.specs.FormText.{fields_of, four_fields, is_named_tag};
ghost use Rattle.acl_forms.specs.FormViews.{view_fields};

use acl_names::{Parts, trim_blanks};

/// `tag:perms:flags:type`, with a name after the tag if it needs one; the flags may be left out.
#[derive(Clone, Copy, Debug)]
pub(crate) struct FormFields<'a> {
    pub tag: &'a [u8],
    pub name: Option<&'a [u8]>,
    pub perms: &'a [u8],
    pub flags: &'a [u8],
    pub kind: &'a [u8],
}

/// The fields of a piece.
pub(crate) fn read_fields(piece: &[u8]) -> Option<FormFields<'_>>
    ensures { option_map view_fields result ≡ fields_of piece.now }
{
    let mut fields = Parts::new(b':', piece);
    match (
        fields.next(),
        fields.next(),
        fields.next(),
        fields.next(),
        fields.next(),
        fields.next(),
    ) {
        (Some(tag), Some(perms), Some(kind), None, _, _) => Some(FormFields {
            tag: trim_blanks(tag),
            name: None,
            perms: trim_blanks(perms),
            flags: b"",
            kind: trim_blanks(kind),
        }),
        (Some(tag), Some(second), Some(perms), Some(kind), None, _) => Some(four_fields(
            trim_blanks(tag),
            trim_blanks(second),
            trim_blanks(perms),
            trim_blanks(kind),
        )),
        (Some(tag), Some(name), Some(perms), Some(flags), Some(kind), None) => Some(FormFields {
            tag: trim_blanks(tag),
            name: Some(trim_blanks(name)),
            perms: trim_blanks(perms),
            flags: trim_blanks(flags),
            kind: trim_blanks(kind),
        }),
        _ => None,
    }
}

/// Four fields: they have a name if the tag needs one, and else flags.
fn four_fields<'a>(
    tag: &'a [u8],
    second: &'a [u8],
    perms: &'a [u8],
    kind: &'a [u8],
) -> FormFields<'a>
    ensures { view_fields result
        ≡ four_fields (is_named_tag tag.now) tag.now second.now perms.now kind.now }
{
    if is_named_tag(tag) {
        return FormFields {
            tag,
            name: Some(second),
            perms,
            flags: b"",
            kind,
        };
    }
    FormFields {
        tag,
        name: None,
        perms: second,
        flags: perms,
        kind,
    }
}

fn is_named_tag(tag: &[u8]) -> bool
    ensures { result ≡ is_named_tag tag.now }
{
    tag == b"user".as_slice() || tag == b"group".as_slice()
}
