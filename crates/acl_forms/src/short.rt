//! Printing entries in the freebsd form with decimal ids.

ghost use Rattle.std.specs.Prelude.{◌++◌, decimal, OnOk};
ghost use Rattle.acl_names.specs.Pushing.{PushesInRoom};
ghost use Rattle.acl_nfs4.specs.Who.{HasId};
ghost use Rattle.acl_forms.specs.ShortForm.{short_entry, short_tag};

use crate::Places;
use crate::printing::{push_colon_and_flags, push_colon_and_perms, push_colon_and_type};
use acl_names::push_decimal;
use acl_nfs4::{Ace, Who};
use std::alloc::AllocError;

/// Appends the entry as `push_entry` does, but with a decimal id: `tag:perms:flags:type`, without a
/// newline. Fails only if memory runs out; what `out` held stays in front.
pub fn push_short_entry(places: Places, ace: &Ace, out: &mut Vec<u8>) -> Result<(), AllocError>
    ensures printed { PushesInRoom (short_entry places ace.now) result out.old out.new }
    ensures has_id { OnOk result (HasId ace.now.who) }
{
    push_short_tag(&ace.who(), out)?;
    push_colon_and_perms(places, ace.mask(), out)?;
    push_colon_and_flags(places, ace.flags(), out)?;
    push_colon_and_type(ace.kind(), out)
}

fn push_short_tag(who: &Who, out: &mut Vec<u8>) -> Result<(), AllocError>
    ensures printed { PushesInRoom (short_tag who.now) result out.old out.new }
    ensures has_id { HasId who.now }
{
    match *who {
        Who::Owner => out.extend_from_slice(b"owner@"),
        Who::Group => out.extend_from_slice(b"group@"),
        Who::Everyone => out.extend_from_slice(b"everyone@"),
        Who::User(uid) => push_tag_and_id(b"user:", uid.value(), out),
        Who::NamedGroup(gid) => push_tag_and_id(b"group:", gid.value(), out),
    }
}

fn push_tag_and_id(tag: &[u8], id: u32, out: &mut Vec<u8>) -> Result<(), AllocError>
    ensures { PushesInRoom (tag.now ++ decimal id) result out.old out.new }
{
    out.extend_from_slice(tag)?;
    push_decimal(id, out)
}
