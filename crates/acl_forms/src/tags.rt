//! The tags of entries.

ghost use Rattle.std.specs.Prelude.{◌≡◌, option_map};
ghost use Rattle.acl_forms.specs.FormText.{special_who, who_by, who_named};

use acl_names::ResolveNames;
use acl_nfs4::{PieceFault, Who, named_who};

/// Whom the tag means, with the name after it if there is one.
pub(crate) fn read_who<N: ResolveNames>(
    names: &N,
    tag: &[u8],
    name: Option<&[u8]>,
) -> Result<Who, PieceFault>
    ensures { result ≡ who_by (N.names names.now) tag.now
        (option_map (λ name. name.now) name.entry) }
{
    match name {
        Some(name) => read_named(names, tag, name),
        None => special_who(tag).ok_or(PieceFault::Syntax),
    }
}

fn special_who(tag: &[u8]) -> Option<Who>
    ensures { result ≡ special_who tag.now }
{
    if tag == b"owner@".as_slice() {
        return Some(Who::Owner);
    }
    if tag == b"group@".as_slice() {
        return Some(Who::Group);
    }
    if tag == b"everyone@".as_slice() {
        return Some(Who::Everyone);
    }
    None
}

fn read_named<N: ResolveNames>(names: &N, tag: &[u8], name: &[u8]) -> Result<Who, PieceFault>
    ensures { result ≡ who_named (N.names names.now) tag.now name.now }
{
    if tag == b"user".as_slice() {
        named_who(names, false, name)
    } else if tag == b"group".as_slice() {
        named_who(names, true, name)
    } else {
        Err(PieceFault::Syntax)
    }
}
